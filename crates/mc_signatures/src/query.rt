ghost use Rattle.std.specs.Prelude.{◌≡◌, replicate, IfOk};
ghost use Rattle.mc_signatures.specs.Signatures.{query_signature};

use mc_base::{Memory, Row};
use mc_model::inst::{ModeDecl, Sig};
use mc_source::det::Det;
use mc_source::place::Place;
use std::alloc::Global;

/// The signature of a query of so many arguments: one mode, in which each is free at first and ground at last.
///
/// # Errors
///
/// `Memory` where there is no room.
pub fn query_signature(
    alloc: Global,
    pred: u32,
    proc: u32,
    arguments: u32,
    det: Option<Det>,
    at: Place,
) -> Result<Sig, Memory>
    ensures { IfOk result (λ sig. sig ≡ query_signature pred proc arguments det at) }
{
    let mode = ModeDecl {
        proc,
        first: all(alloc, arguments, 0)?,
        last: all(alloc, arguments, 1)?,
        det,
        at,
    };
    let modes = Row::one(alloc, mode)?;
    Ok(Sig { pred, modes })
}

// So many times one inst.
fn all(alloc: Global, count: u32, inst: u32) -> Result<Row<u32>, Memory>
    ensures { IfOk result (λ insts. insts ≡ replicate count inst) }
{
    let insts = Vec::from_elem(alloc, inst, count as usize)?;
    Row::of(insts)
}
