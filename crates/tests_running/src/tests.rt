use crate::lines::{ECHOES, echoed};
use crate::runs::{MAIN, NESTED, NESTED_FIRST, RUNS, WHOLE};
use crate::shown::{agrees, expected, main_shown, nesting, shown};
use mc_model::run::Limits;
use std::test::Fail;

/// Each run with every budget from 0 to its calls.
#[test]
fn budgets(rt: HostRuntime) -> Result<(), Fail> {
    for run in RUNS {
        assert!(rt; agrees(rt.alloc(), run)?);
    }
    Ok(())
}

/// `main` with every budget from 0 to its calls.
#[test]
fn budgets_of_main(rt: HostRuntime) -> Result<(), Fail> {
    for budget in 0..=MAIN.calls {
        let limits = Limits {
            budget,
            depth: 10_000,
        };
        let text = main_shown(rt.alloc(), limits)?;
        let wanted = expected(rt.alloc(), &MAIN, budget)?;
        assert!(rt; text.as_slice() == wanted.as_slice());
    }
    Ok(())
}

/// Runs between the least limits and very great ones.
#[test]
fn limits(rt: HostRuntime) -> Result<(), Fail> {
    for (query, limits, wanted) in WHOLE {
        let text = shown(rt.alloc(), query, *limits)?;
        assert!(rt; text.as_slice() == wanted.as_bytes());
    }
    Ok(())
}

/// Two equal values of 1,000,001 constructors, each in another.
#[test]
fn deep_values(rt: HostRuntime) -> Result<(), Fail> {
    assert!(rt; nesting(rt.alloc(), &NESTED)? == 1_000_001);
    Ok(())
}

/// A procedure that writes the lines of its input.
#[test]
fn lines_that_are_fed(rt: HostRuntime) -> Result<(), Fail> {
    for (given, budget, wanted) in ECHOES {
        let text = echoed(rt.alloc(), given, *budget)?;
        assert!(rt; text.as_slice() == wanted.as_bytes());
    }
    Ok(())
}

/// Two equal values of 1,000,000 constructors, each in the first argument of another: the last argument of the outermost
/// is a constant, and the rest is dropped with no stack for each.
#[test]
fn deep_first_arguments(rt: HostRuntime) -> Result<(), Fail> {
    assert!(rt; nesting(rt.alloc(), &NESTED_FIRST)? == 2);
    Ok(())
}
