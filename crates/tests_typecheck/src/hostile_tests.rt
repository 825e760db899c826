use crate::sources::{is_typed, shown};
use mc_base::Memory;
use std::alloc::Global;
use std::test::Fail;

/// How a clause's judgement begins.
fn verdict(alloc: Global, source: &str) -> Result<Vec<u8>, Memory> {
    let mut said = shown(alloc, source)?;
    said.truncate(6);
    Ok(said)
}

/// So many types, each with a constructor of this name.
fn types_with(alloc: Global, count: u32, name: &str) -> Result<String, Memory> {
    let mut text = String::new(alloc);
    for number in 0..count {
        text.push_str(format!(in alloc; "#type {name}{number} ---> {name}. ")?.as_str())?;
    }
    Ok(text)
}

/// The goals `first`, with the numbers from 0 on in the place of `%`, and those one less in that of `$`.
fn goals(alloc: Global, text: &mut String, goal: &str, count: u32) -> Result<(), Memory> {
    for number in 1..=count {
        if number != 1 {
            text.push_str(", ")?;
        }
        for byte in goal.chars() {
            match byte {
                '%' => text.push_str(format!(in alloc; "{number}")?.as_str())?,
                '$' => text.push_str(format!(in alloc; "{}", number - 1)?.as_str())?,
                other => text.push(other)?,
            }
        }
    }
    Ok(())
}

/// A clause of so many goals, behind declarations.
fn clause(alloc: Global, declared: &str, goal: &str, count: u32) -> Result<String, Memory> {
    let mut text = format!(in alloc; "{declared} #pred p is semidet.@p :- ")?;
    goals(alloc, &mut text, goal, count)?;
    text.push('.')?;
    Ok(text)
}

/// Ten variables that are a character or a constructor, and eleven.
#[test]
fn characters_or_constructors(rt: HostRuntime) -> Result<(), Fail> {
    let alloc = rt.alloc();
    for (count, wanted) in [(10, b"0:2 T2"), (11, b"0:2 L5")] {
        let source = clause(alloc, "#type t ---> a.", "X% = 'a'", count)?;
        assert_eq!(rt;
            verdict(alloc, source.as_str())?.as_slice(),
            wanted.as_slice()
        );
    }
    Ok(())
}

/// 1,024 live assignments at the same moment, and 1,025, which are 41 times 25.
#[test]
fn live_assignments(rt: HostRuntime) -> Result<(), Fail> {
    let alloc = rt.alloc();
    let mut declared = types_with(alloc, 41, "kk")?;
    declared.push_str(types_with(alloc, 5, "ll")?.as_str())?;
    declared.push_str(types_with(alloc, 32, "mm")?.as_str())?;
    for (goal, wanted) in [
        ("X = mm, Y = mm", b"0:2 T2"),
        ("X = kk, Y = ll, Z = ll", b"0:2 L5"),
        ("X = ll, Y = ll, Z = kk", b"0:2 L5"),
        ("X = mm, Y = mm, U = mm, 1 = 2", b"0:2 L5"),
        ("1 = \"a\", X = mm, Y = mm, Z = mm", b"0:2 T1"),
        ("X = mm, Y = mm, 1 = \"a\"", b"0:2 T1"),
    ] {
        let source = clause(alloc, declared.as_str(), goal, 1)?;
        assert_eq!(rt;
            verdict(alloc, source.as_str())?.as_slice(),
            wanted.as_slice(),
            "{goal}"
        );
    }
    Ok(())
}

/// Names with 64 candidates each: one; two, of different variables and of the same one, since all candidates are live at a
/// name before its equation is seen; one behind an atom that decides the variable; and many, each decided by the next atom.
#[test]
fn names_with_many_candidates(rt: HostRuntime) -> Result<(), Fail> {
    let alloc = rt.alloc();
    let mut declared = types_with(alloc, 64, "kk")?;
    declared.push_str("#pred q(kk63::in) is semidet. q(_).")?;
    for (goal, count, wanted) in [
        ("X = kk", 1, b"0:2 T2"),
        ("X = kk, Y = kk", 1, b"0:2 L5"),
        ("X = kk, X = kk", 1, b"0:2 L5"),
        ("X = kk, q(X), X = kk", 1, b"_:kk63"),
        ("X% = kk, q(X%)", 200, b"_:kk63"),
    ] {
        let source = clause(alloc, declared.as_str(), goal, count)?;
        assert_eq!(rt;
            verdict(alloc, source.as_str())?.as_slice(),
            wanted.as_slice(),
            "{goal}"
        );
    }
    Ok(())
}

/// How the judgement of a clause of so many goals begins.
fn of_goals(alloc: Global, declared: &str, goal: &str, count: u32) -> Result<Vec<u8>, Memory> {
    verdict(alloc, clause(alloc, declared, goal, count)?.as_str())
}

/// 4,096 variables of one type.
#[test]
fn many_variables_of_one_type(rt: HostRuntime) -> Result<(), Fail> {
    let said = of_goals(rt.alloc(), "", "X$ = X%", 4_095)?;
    assert_eq!(rt; said.as_slice(), b"X0:T0 ".as_slice());
    Ok(())
}

/// 4,096 variables of a type each.
#[test]
fn many_variables(rt: HostRuntime) -> Result<(), Fail> {
    let said = of_goals(rt.alloc(), "", "X% = X%", 4_096)?;
    assert_eq!(rt; said.as_slice(), b"X1:T0 ".as_slice());
    Ok(())
}

/// 2,000 names with two candidates each, decided by the next atom.
#[test]
fn many_decided_names(rt: HostRuntime) -> Result<(), Fail> {
    let two = "#type s ---> kk. #type t ---> kk. #pred q(t::in) is semidet. q(_).";
    let said = of_goals(rt.alloc(), two, "X% = kk, q(X%)", 2_000)?;
    assert_eq!(rt; said.as_slice(), b"_:t ;X".as_slice());
    Ok(())
}

/// Terms that double a hundred times: their types stay small, grow by a level each, or double too.
#[test]
fn doubled_terms(rt: HostRuntime) -> Result<(), Fail> {
    let alloc = rt.alloc();
    for (declared, wanted) in [
        ("#type t ---> f(t, t).", b"X1:t X"),
        ("#type t(A) ---> f(A, A).", b"X1:t(T"),
        ("#type t(A, B) ---> f(A, B).", b"memory"),
    ] {
        let said = of_goals(alloc, declared, "X% = f(X$, X$)", 100)?;
        assert_eq!(rt; said.as_slice(), wanted.as_slice(), "{declared}");
    }
    Ok(())
}

/// `X = [[..]]`, so many lists inside one another.
fn nested_lists(alloc: Global, depth: u32) -> Result<String, Memory> {
    let mut text = format!(in alloc; "#import_module list. #pred p is semidet.@p :- X = ")?;
    for _level in 0..depth {
        text.push('[')?;
    }
    for _level in 0..depth {
        text.push(']')?;
    }
    text.push('.')?;
    Ok(text)
}

/// The type of lists in one another, as deep as terms may be.
#[test]
fn nested_types(rt: HostRuntime) -> Result<(), Fail> {
    let alloc = rt.alloc();
    let said = shown(alloc, nested_lists(alloc, 250)?.as_str())?;
    let mut wanted = format!(in alloc; "X:")?;
    for _level in 0..250 {
        wanted.push_str("list(")?;
    }
    assert!(rt; said.starts_with(wanted.as_bytes()));
    Ok(())
}

/// A predicate whose second argument has the type of the first in 2^9 pairs, and a clause of so many calls, each of which
/// takes what the one before gives.
fn calls_in_a_chain(alloc: Global, count: u32) -> Result<String, Memory> {
    let mut declared = format!(in alloc; "#type p(A, B) ---> p(A, B). #type e0(A) == p(A, int). ")?;
    for before in 0..9 {
        let number = before + 1;
        let next = format!(in alloc; "#type e{number}(A) == e{before}(e{before}(A)). ")?;
        declared.push_str(next.as_str())?;
    }
    declared.push_str("#pred q(T::in, e9(T)::out) is nondet. q(X, Y) :- q(X, Y).")?;
    clause(alloc, declared.as_str(), "q(X$, X%)", count)
}

/// Types that are nested 512 deep, and as many times deeper as there are calls, up to 2,048.
#[test]
fn types_of_a_chain(rt: HostRuntime) -> Result<(), Fail> {
    let alloc = rt.alloc();
    for count in [1, 2, 4] {
        let source = calls_in_a_chain(alloc, count)?;
        assert!(rt; is_typed(alloc, source.as_str())?, "{count}");
    }
    Ok(())
}
