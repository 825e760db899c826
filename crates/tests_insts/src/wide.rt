//! Rows of many definitions, and insts of many constructors and arguments.

use crate::defining::{answer, is_fault};
use mc_base::{Memory, Row};
use mc_insts::{InstDef, InstFault, InstId};
use mc_model::inst::InstRef;
use std::alloc::Global;
use std::test::Fail;
use test_support::{NoAnswer, bound, choice, named};

/// The place after one, in rings of a thousand places each.
fn next_in_ring(k: u32) -> u32 {
    if k % 1000 == 999 {
        k.wrapping_sub(999)
    } else {
        k.wrapping_add(1)
    }
}

/// So many names in rings of a thousand each, one behind another.
fn rings(alloc: Global, count: u32) -> Result<Vec<InstDef>, Memory> {
    let mut defs = Vec::new(alloc);
    for k in 0..count {
        defs.push(named(next_in_ring(k)))?;
    }
    Ok(defs)
}

#[test]
fn long_rings(rt: HostRuntime) -> Result<(), Fail> {
    let defs = rings(rt.alloc(), 200_000)?;
    let answer = answer(rt.alloc(), defs);
    assert!(rt; is_fault(&answer, InstFault::NotFounded(0)));
    Ok(())
}

/// So many names, each of the next, and a bound inst, which holds the first.
fn chain(alloc: Global, count: u32) -> Result<Vec<InstDef>, Memory> {
    let mut defs = Vec::new(alloc);
    for k in 0..count {
        defs.push(named(k + 1))?;
    }
    defs.push(bound(alloc, b"f", &[InstRef::New(0)])?)?;
    Ok(defs)
}

/// Whether all of these are one inst.
fn all_are(insts: &[InstId], want: InstId) -> bool {
    for inst in insts {
        if *inst != want {
            return false;
        }
    }
    true
}

#[test]
fn a_long_chain(rt: HostRuntime) -> Result<(), Fail> {
    let defs = chain(rt.alloc(), 200_000)?;
    let insts = answer(rt.alloc(), defs)?;
    assert!(rt; insts.len() == 200_001 && all_are(insts.as_slice(), 4));
    Ok(())
}

/// An inst of one constructor over the first of the row, so many times.
fn widest(alloc: Global, arity: u32) -> Result<InstDef, Memory> {
    let mut args = Vec::new(alloc);
    for _ in 0..arity {
        args.push(InstRef::New(0))?;
    }
    bound(alloc, b"f", &args)
}

/// An inst of so many constructors, each over the first of the row.
fn many_symbols(alloc: Global, count: u32) -> Result<InstDef, Memory> {
    let mut choices = Vec::new(alloc);
    for k in 0..count {
        let name = format!(in alloc; "f{k}")?;
        choices.push(choice(alloc, name.as_bytes(), &[InstRef::New(0)])?)?;
    }
    Ok(InstDef::Bound(Row::of(choices)?))
}

/// Insts of 10,000 constructors and of 255 arguments.
fn wide_insts(alloc: Global) -> Result<Vec<InstDef>, Memory> {
    let mut defs = Vec::new(alloc);
    defs.push(many_symbols(alloc, 10_000)?)?;
    defs.push(widest(alloc, 255)?)?;
    Ok(defs)
}

#[test]
fn many_constructors_and_arguments(rt: HostRuntime) -> Result<(), Fail> {
    let defs = wide_insts(rt.alloc())?;
    let insts = answer(rt.alloc(), defs)?;
    assert!(rt; insts.as_slice() == [4, 5].as_slice());
    Ok(())
}
