// Clauses that would take stack or time that grows faster than they do.
use mc_base::{Memory, Row, Text};
use mc_state_variables::numbered_clause;
use mc_terms::{Node, Term};
use std::alloc::Global;
use std::test::Fail;

fn over(alloc: Global, name: &[u8], parts: Row<Term>) -> Result<Term, Memory> {
    let name = Row::one(alloc, Text::new(alloc, name)?)?;
    Ok(Term {
        node: Node::App(name, parts),
        line: 1,
    })
}

// The name over a state variable that has this number in its name.
fn updating(alloc: Global, name: &[u8], number: u32) -> Result<Term, Memory> {
    let mut variable = Text::new(alloc, b"X")?;
    variable.extend(format!(in alloc; "{number}")?.as_bytes())?;
    let variable = Term {
        node: Node::Var(variable),
        line: 1,
    };
    let state = over(alloc, b"!", Row::one(alloc, variable)?)?;
    over(alloc, name, Row::one(alloc, state)?)
}

fn clause(alloc: Global, head: Term, body: Term) -> Result<Term, Memory> {
    let mut parts = Row::one(alloc, head)?;
    parts.push(body)?;
    over(alloc, b":-", parts)
}

// Whether a clause is written out.
fn is_written(alloc: Global, clause: &Term) -> bool {
    numbered_clause(alloc, clause).is_ok()
}

// A clause of so many state variables, each of which a goal of its body updates.
fn many_variables(alloc: Global, count: u32) -> Result<Term, Memory> {
    let mut head = Vec::new(alloc);
    let mut goals = Vec::new(alloc);
    for number in 0..count {
        head.push(updating(alloc, b"f", number)?)?;
        goals.push(updating(alloc, b"q", number)?)?;
    }
    let body = Term {
        node: Node::Conj(Row::of(goals)?),
        line: 1,
    };
    clause(alloc, over(alloc, b"p", Row::of(head)?)?, body)
}

// A clause of disjunctions inside one another.
fn deep_disjunctions(alloc: Global, depth: u32) -> Result<Term, Memory> {
    let mut body = updating(alloc, b"q", 0)?;
    for _ in 0..depth {
        let mut disjuncts = Row::one(alloc, over(alloc, b"r", Row::new(alloc))?)?;
        disjuncts.push(body)?;
        body = Term {
            node: Node::Disj(disjuncts),
            line: 1,
        };
    }
    clause(alloc, updating(alloc, b"p", 0)?, body)
}

// A clause of a disjunction of so many conditionals before the last branch.
fn long_choice(alloc: Global, count: u32) -> Result<Term, Memory> {
    let mut branches = Vec::new(alloc);
    for _ in 0..count {
        let mut parts = Row::one(alloc, updating(alloc, b"q", 0)?)?;
        parts.push(over(alloc, b"r", Row::new(alloc))?)?;
        branches.push(over(alloc, b"->", parts)?)?;
    }
    branches.push(updating(alloc, b"s", 0)?)?;
    let body = Term {
        node: Node::Disj(Row::of(branches)?),
        line: 1,
    };
    clause(alloc, updating(alloc, b"p", 0)?, body)
}

#[test]
fn many_state_variables(rt: HostRuntime) -> Result<(), Fail> {
    let alloc = rt.alloc();
    assert!(rt; is_written(alloc, &many_variables(alloc, 1_024)?));
    Ok(())
}

#[test]
fn disjunctions_in_one_another(rt: HostRuntime) -> Result<(), Fail> {
    let alloc = rt.alloc();
    assert!(rt; is_written(alloc, &deep_disjunctions(alloc, 200)?));
    Ok(())
}

#[test]
fn conditionals_behind_else(rt: HostRuntime) -> Result<(), Fail> {
    let alloc = rt.alloc();
    assert!(rt; is_written(alloc, &long_choice(alloc, 100_000)?));
    Ok(())
}
