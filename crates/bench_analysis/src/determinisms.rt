//! The least determinisms of many undeclared procedures. Each calls the next one; the last one can fail, and calls the
//! first where they are a ring.

use crate::no_room;
use mc_base::{Memory, Row};
use mc_det_constraints::{Step, least};
use mc_source::det::{Det, Most};
use std::alloc::Global;
use std::io;

const SEMIDET: Det = Det {
    can_fail: true,
    most: Most::One,
    committed: false,
};

/// A body that is one step.
fn alone(alloc: Global, step: Step) -> Result<Row<Step>, Memory> {
    let mut steps = Vec::with_capacity(alloc, 1)?;
    steps.push(step)?;
    Row::of(steps)
}

/// The body of the last procedure.
fn last_body(alloc: Global, is_ring: bool) -> Result<Row<Step>, Memory> {
    if !is_ring {
        return alone(alloc, Step::Fixed(SEMIDET));
    }
    let mut steps = Vec::with_capacity(alloc, 3)?;
    steps.push(Step::Call(0, false))?;
    steps.push(Step::Fixed(SEMIDET))?;
    steps.push(Step::Conj)?;
    Row::of(steps)
}

fn bodies(alloc: Global, count: u32, is_ring: bool) -> Result<Vec<Row<Step>>, Memory> {
    let mut bodies = Vec::with_capacity(alloc, count as usize)?;
    for next in 1..count {
        bodies.push(alone(alloc, Step::Call(next, false))?)?;
    }
    bodies.push(last_body(alloc, is_ring)?)?;
    Ok(bodies)
}

fn none_declared(alloc: Global, count: usize) -> Result<Vec<Option<Det>>, Memory> {
    let mut declared = Vec::with_capacity(alloc, count)?;
    for _ in 0..count {
        declared.push(None)?;
    }
    Ok(declared)
}

/// How many of the procedures can fail.
fn failing(alloc: Global, count: u32, is_ring: bool) -> Result<usize, Memory> {
    let bodies = bodies(alloc, count, is_ring)?;
    let declared = none_declared(alloc, bodies.len())?;
    if declared.len() != bodies.len() || bodies.len() > u32::MAX as usize {
        return Err(Memory);
    }
    let dets = least(alloc, bodies.as_slice(), declared.as_slice())?;
    Ok(dets.iter().filter(|d| d.can_fail).count())
}

/// Prints how many of the procedures can fail.
pub fn print_failing(rt: &HostRuntime, count: u32, is_ring: bool) -> io::Result<()> {
    let found = failing(rt.alloc(), count, is_ring).map_err(no_room)?;
    println!(rt; "{found} can fail")
}
