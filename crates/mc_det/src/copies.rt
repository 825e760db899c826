ghost use Rattle.std.specs.Prelude.{◌≡◌, IfOk};

use mc_base::{Memory, Row};
use mc_model::inst::InstId;
use mc_model::sched::On;
use mc_program::copy::copy_value;
use std::alloc::Global;

/// A copy of changes.
pub fn copy_changes(
    alloc: Global,
    changes: &Row<(u32, InstId)>,
) -> Result<Row<(u32, InstId)>, Memory>
    ensures { IfOk result (λ copy. copy ≡ changes.now) }
{
    let copy = Vec::from_slice(alloc, changes.as_slice())?;
    Row::of(copy)
}

/// A copy of what an arm is for.
pub fn copy_on(alloc: Global, on: &On) -> Result<On, Memory>
    ensures { IfOk result (λ copy. copy ≡ on.now) }
{
    match on {
        On::Symbol(symbol) => Ok(On::Symbol(*symbol)),
        On::Const(value) => Ok(On::Const(copy_value(alloc, value)?)),
    }
}
