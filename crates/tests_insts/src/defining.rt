//! Rows of definitions, and the insts that they are or the fault by which they are refused.

use mc_base::{Memory, Row};
use mc_insts::{InstDef, InstFault, InstId};
use mc_model::inst::InstRef;
use std::alloc::Global;
use std::test::Fail;
use test_support::{NoAnswer, TestedInsts, bound, empty_program};

const FREE: InstRef = InstRef::Old(0);

const GROUND: InstRef = InstRef::Old(1);

/// A definition: another name of an inst, or one constructor over two insts.
#[derive(Clone, Copy)]
enum Written {
    Is(InstRef),
    Over(InstRef, InstRef),
}

fn definition(alloc: Global, written: Written) -> Result<InstDef, Memory> {
    match written {
        Written::Is(inst) => Ok(InstDef::Is(inst)),
        Written::Over(left, right) => bound(alloc, b"f", &[left, right]),
    }
}

fn definitions(alloc: Global, row: &[Written]) -> Result<Vec<InstDef>, Memory> {
    let mut defs = Vec::new(alloc);
    for written in row {
        defs.push(definition(alloc, *written)?)?;
    }
    Ok(defs)
}

/// What definitions are answered by, beside the builtin insts alone.
pub fn answer(alloc: Global, defs: Vec<InstDef>) -> Result<Row<InstId>, NoAnswer> {
    let mut tested = TestedInsts::new(alloc, empty_program(alloc))?;
    tested.define(alloc, defs)
}

/// Whether a row of definitions is these insts.
fn defines(alloc: Global, row: &[Written], want: &[InstId]) -> Result<bool, NoAnswer> {
    let defs = definitions(alloc, row)?;
    let insts = answer(alloc, defs)?;
    Ok(insts.as_slice() == want)
}

/// Whether an answer is this fault.
pub fn is_fault(answer: &Result<Row<InstId>, NoAnswer>, want: InstFault) -> bool {
    match answer {
        Err(NoAnswer::Refused(fault)) => *fault == want,
        _ => false,
    }
}

/// Whether a row of definitions is refused by this fault.
fn refuses(alloc: Global, row: &[Written], want: InstFault) -> Result<bool, NoAnswer> {
    let defs = definitions(alloc, row)?;
    Ok(is_fault(&answer(alloc, defs), want))
}

/// The third definition over the last and the first, which is another name of the third.
const FORWARD: [Written; 4] = [
    Written::Is(InstRef::New(2)),
    Written::Is(GROUND),
    Written::Over(InstRef::New(3), InstRef::New(0)),
    Written::Is(InstRef::New(1)),
];

/// Names of `free` beside bound insts that don't hold them.
const FREE_BESIDE: [Written; 4] = [
    Written::Is(FREE),
    Written::Is(InstRef::New(0)),
    Written::Over(GROUND, GROUND),
    Written::Over(InstRef::New(2), InstRef::New(3)),
];

#[test]
fn rows_that_are_answered(rt: HostRuntime) -> Result<(), Fail> {
    let alloc = rt.alloc();
    assert!(rt; defines(alloc, &FORWARD, &[4, 1, 4, 1])?);
    assert!(rt; defines(alloc, &FREE_BESIDE, &[0, 0, 4, 5])?);
    Ok(())
}

/// A name that leads into a ring of three.
const RING_BEHIND: [Written; 4] = [
    Written::Is(InstRef::New(1)),
    Written::Is(InstRef::New(2)),
    Written::Is(InstRef::New(3)),
    Written::Is(InstRef::New(1)),
];

/// A ring that the first definition holds, and `free` inside a later one.
const RING_BEFORE_FREE: [Written; 4] = [
    Written::Over(InstRef::New(1), GROUND),
    Written::Is(InstRef::New(2)),
    Written::Is(InstRef::New(1)),
    Written::Over(FREE, GROUND),
];

/// `free` inside behind two names, before a name of itself.
const FREE_BEHIND_NAMES: [Written; 4] = [
    Written::Is(FREE),
    Written::Is(InstRef::New(0)),
    Written::Over(GROUND, InstRef::New(1)),
    Written::Is(InstRef::New(3)),
];

/// A name of itself before `free` inside.
const ITSELF_BEFORE_FREE: [Written; 4] = [
    Written::Is(InstRef::New(0)),
    Written::Over(FREE, FREE),
    Written::Is(GROUND),
    Written::Is(GROUND),
];

#[test]
fn rows_that_are_refused(rt: HostRuntime) -> Result<(), Fail> {
    let alloc = rt.alloc();
    assert!(rt; refuses(alloc, &RING_BEHIND, InstFault::NotFounded(1))?);
    assert!(rt; refuses(alloc, &RING_BEFORE_FREE, InstFault::NotFounded(1))?);
    assert!(rt; refuses(alloc, &FREE_BEHIND_NAMES, InstFault::FreeInside(2))?);
    assert!(rt; refuses(alloc, &ITSELF_BEFORE_FREE, InstFault::NotFounded(0))?);
    Ok(())
}
