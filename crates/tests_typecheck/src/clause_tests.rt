use crate::programs::{NIL, OTHER_RED, RED, bare, clause, cons, list_of, program, query, reds};
use mc_program::program::{Goal, Resolved};
use mc_program::ty::{Ty, same_type};
use mc_source::name::Candidate;
use mc_typecheck::{TypeFault, check_clause, fits, signatures_of};
use mc_unresolved::{Unresolved, UnresolvedGoal};
use std::test::Fail;

/// Whether these two picks are the first.
fn are_two(found: &Result<Resolved, TypeFault>, first: Candidate, second: Candidate) -> bool {
    match found {
        Err(TypeFault::Two(v, w)) => {
            v.as_slice() == [first].as_slice() && w.as_slice() == [second].as_slice()
        }
        _ => false,
    }
}

#[test]
fn a_list_of_integers(rt: HostRuntime) -> Result<(), Fail> {
    let alloc = rt.alloc();
    let table = signatures_of(alloc, &program(alloc)?)?;
    let head = cons(alloc, Unresolved::Variable(0), bare(alloc, &[NIL])?)?;
    let body = UnresolvedGoal::Equation(Unresolved::Variable(1), bare(alloc, &[NIL])?);
    let rule = clause(alloc, 0, head, body, 2)?;
    assert!(rt; fits(alloc, &table, &rule)?);
    match check_clause(alloc, &table, &rule) {
        Ok(made) => {
            assert_eq!(rt; made.var_types.len(), 3);
            assert!(rt; same_type(made.var_types.get(0), &Ty::Int));
            assert!(rt; same_type(made.var_types.get(1), &list_of(alloc, Ty::Var(0))?));
            assert!(rt; same_type(made.var_types.get(2), &list_of(alloc, Ty::Int)?));
        }
        Err(_) => assert!(rt; false),
    }
    Ok(())
}

#[test]
fn a_variable_behind_the_rigid_one(rt: HostRuntime) -> Result<(), Fail> {
    let alloc = rt.alloc();
    let table = signatures_of(alloc, &program(alloc)?)?;
    let body = UnresolvedGoal::Equation(Unresolved::Variable(1), bare(alloc, &[NIL])?);
    let rule = clause(alloc, 2, Unresolved::Variable(0), body, 2)?;
    assert!(rt; fits(alloc, &table, &rule)?);
    match check_clause(alloc, &table, &rule) {
        Ok(made) => {
            assert_eq!(rt; made.var_types.len(), 2);
            assert!(rt; same_type(made.var_types.get(0), &list_of(alloc, Ty::Var(0))?));
            assert!(rt; same_type(made.var_types.get(1), &list_of(alloc, Ty::Var(1))?));
        }
        Err(_) => assert!(rt; false),
    }
    Ok(())
}

#[test]
fn an_overloaded_name(rt: HostRuntime) -> Result<(), Fail> {
    let alloc = rt.alloc();
    let table = signatures_of(alloc, &program(alloc)?)?;
    let red = bare(alloc, &[OTHER_RED, RED])?;
    let body = UnresolvedGoal::Equation(Unresolved::Variable(0), red);
    let rule = clause(alloc, 1, Unresolved::Variable(0), body, 1)?;
    assert!(rt; fits(alloc, &table, &rule)?);
    match check_clause(alloc, &table, &rule) {
        Ok(made) => assert!(rt; matches!(&made.clause.body, Goal::Equal(..))),
        Err(_) => assert!(rt; false),
    }
    Ok(())
}

#[test]
fn the_first_two_of_an_overloaded_name(rt: HostRuntime) -> Result<(), Fail> {
    let alloc = rt.alloc();
    let table = signatures_of(alloc, &program(alloc)?)?;
    let red = bare(alloc, &[RED, OTHER_RED])?;
    let asked = query(
        alloc,
        UnresolvedGoal::Equation(Unresolved::Variable(0), red),
        1,
    )?;
    assert!(rt; fits(alloc, &table, &asked)?);
    let found = check_clause(alloc, &table, &asked);
    assert!(rt; are_two(&found, RED, OTHER_RED));
    Ok(())
}

#[test]
fn no_typing(rt: HostRuntime) -> Result<(), Fail> {
    let alloc = rt.alloc();
    let table = signatures_of(alloc, &program(alloc)?)?;
    let body = UnresolvedGoal::Equation(Unresolved::Variable(0), Unresolved::Number(1));
    let rule = clause(alloc, 1, Unresolved::Variable(0), body, 1)?;
    assert!(rt; fits(alloc, &table, &rule)?);
    assert!(rt; matches!(check_clause(alloc, &table, &rule), Err(TypeFault::None)));
    Ok(())
}

#[test]
fn a_thousand_live_assignments(rt: HostRuntime) -> Result<(), Fail> {
    let alloc = rt.alloc();
    let table = signatures_of(alloc, &program(alloc)?)?;
    let ten = reds(alloc, 10)?;
    assert!(rt; fits(alloc, &table, &ten)?);
    assert!(rt; matches!(check_clause(alloc, &table, &ten), Err(TypeFault::Two(_, _))));
    let eleven = reds(alloc, 11)?;
    assert!(rt; fits(alloc, &table, &eleven)?);
    assert!(rt;
        matches!(
            check_clause(alloc, &table, &eleven),
            Err(TypeFault::TooMany)
        )
    );
    Ok(())
}
