//! The one goal of a predicate of many facts, each over so many integers.

use crate::no_room;
use mc_base::{Memory, Row, Text};
use mc_goals::normal_goal;
use mc_model::flat::Flat;
use mc_program::expr::Expr;
use mc_program::program::{Clause, Goal, Pred, Resolved};
use mc_program::ty::Ty;
use mc_source::name::Name;
use mc_source::place::Place;
use std::alloc::Global;
use std::io;

/// A fact over this many integers.
fn fact(alloc: Global, arity: u32, line: u32) -> Result<Resolved, Memory> {
    let mut head = Vec::with_capacity(alloc, arity as usize)?;
    for place in 0..arity {
        head.push(Expr::Int(i64::from(line ^ place)))?;
    }
    Ok(Resolved {
        clause: Clause {
            vars: 0,
            head: Row::of(head)?,
            body: Goal::True,
            place: Place { file: 0, line },
        },
        var_types: Row::new(alloc),
        var_names: Row::new(alloc),
    })
}

fn facts(alloc: Global, count: u32, arity: u32) -> Result<Row<Resolved>, Memory> {
    let mut facts = Vec::with_capacity(alloc, count as usize)?;
    for line in 0..count {
        facts.push(fact(alloc, arity, line)?)?;
    }
    Row::of(facts)
}

/// A predicate of this many integers, whose clauses stand beside it.
fn predicate(alloc: Global, arity: u32) -> Result<Pred, Memory> {
    let mut types = Vec::with_capacity(alloc, arity as usize)?;
    for _ in 0..arity {
        types.push(Ty::Int)?;
    }
    Ok(Pred {
        name: Name {
            module: Text::new(alloc, b"m")?,
            name: Text::new(alloc, b"p")?,
            arity,
        },
        is_func: false,
        types: Row::of(types)?,
        clauses: Row::new(alloc),
        builtin: None,
    })
}

/// How many disjuncts the goal has; of facts alone, none is made.
fn disjuncts(alloc: Global, count: u32, arity: u32, facts_alone: bool) -> Result<u32, Memory> {
    let pred = predicate(alloc, arity)?;
    let facts = facts(alloc, count, arity)?;
    if facts_alone {
        return Ok(facts.len());
    }
    let normal = normal_goal(alloc, 0, &pred, &facts)?;
    match &normal.body {
        Flat::Disj(disjuncts) => Ok(disjuncts.len()),
        _ => Ok(1),
    }
}

/// Prints how many disjuncts the goal has; of facts alone, how many facts.
pub fn print_disjuncts(
    rt: &HostRuntime,
    count: u32,
    arity: u32,
    facts_alone: bool,
) -> io::Result<()> {
    let made = disjuncts(rt.alloc(), count, arity, facts_alone).map_err(no_room)?;
    println!(rt; "{made} disjuncts")
}
