ghost use Rattle.std.specs.Prelude.{◌≡◌, ◌<◌, ◌^◌, length, map, IsTrue, IfOk};
ghost use Rattle.mc_source.specs.Determinism.{Determinism, Allows, row_of};
ghost use Rattle.mc_det_constraints.specs.Skeletons.{value};
ghost use Rattle.mc_det_constraints.specs.Least.{assigned, body_at, declared_at, Least};
ghost use Rattle.mc_det_constraints.specs.code.Raising.{starts, Look};

use crate::callers::Callers;
use crate::constraint::{Step, value};
use crate::order::{either, most_of};
use crate::pending::Pending;
use mc_base::{Memory, Row};
use mc_source::det::{Det, Most};
use std::alloc::Global;

/// The least determinisms of procedures: of those that are declared what is declared, of the others the least at or
/// above `det` that allow what their bodies come to. (Manual: Determinism, inference.)
pub fn least(
    alloc: Global,
    bodies: &[Row<Step>],
    declared: &[Option<Det>],
) -> Result<Vec<Det>, Memory>
    requires many { length declared.now ≡ length bodies.now }
    requires few { length bodies.now < 2 ^ 32 }
    ensures count { IfOk result (λ r. length r.items ≡ length bodies.now) }
    ensures least { IfOk result (λ r. Least bodies.now declared.now (assigned r.items)) }
{
    let callers = Callers::of(alloc, bodies)?;
    let mut dets = starting(alloc, declared)?;
    let mut left = Pending::all(alloc, bodies.len() as u32)?;
    while let Some(p) = left.take() {
        if let Some(d) = look(alloc, bodies, declared, dets.as_slice(), p)? {
            dets[p as usize] = d;
            left.put_all(callers.get(p))?;
        }
    }
    Ok(dets)
}

/// What is declared, and `det` of the others.
fn starting(alloc: Global, declared: &[Option<Det>]) -> Result<Vec<Det>, Memory>
    ensures { IfOk result (λ r. r.items ≡ map starts declared.now) }
{
    let mut dets = Vec::new(alloc);
    for d in declared {
        dets.push(start(*d))?;
    }
    Ok(dets)
}

/// What a procedure starts with.
fn start(declared: Option<Det>) -> Det
    ensures { result ≡ starts declared }
{
    match declared {
        Some(d) => d,
        None => Det {
            can_fail: false,
            most: Most::One,
            committed: false,
        },
    }
}

/// The determinism that a procedure is raised to; none where it is declared, or allows what its body comes to.
fn look(
    alloc: Global,
    bodies: &[Row<Step>],
    declared: &[Option<Det>],
    dets: &[Det],
    p: u32,
) -> Result<Option<Det>, Memory>
    requires body { p < length bodies.now }
    requires declared { length declared.now ≡ length bodies.now }
    requires dets { length dets.now ≡ length bodies.now }
    ensures { IfOk result (λ o. Look (declared_at declared.now p) (assigned dets.now p)
        (value (assigned dets.now) (body_at bodies.now p)) o) }
{
    let p = p as usize;
    if declared[p].is_some() {
        return Ok(None);
    }
    let was = dets[p];
    if allows_all(was) {
        return Ok(None);
    }
    let now = value(alloc, bodies[p].as_slice(), dets)?;
    if now.at_most(was) {
        return Ok(None);
    }
    Ok(Some(either(was, now)))
}

/// Whether it allows all others, as `nondet` does.
fn allows_all(d: Det) -> bool
    ensures { IsTrue result → (now : Determinism) → Allows (row_of d) now }
{
    d.can_fail && most_of(d) == Most::Many
}
