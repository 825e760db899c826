ghost use Rattle.std.specs.Prelude.{IsTrue, OnOk};

use mc_base::Memory;

/// Goes on where something that the program tests of what it made itself holds. No source is known where it doesn't; there
/// the call ends as it does at want of memory, and nothing is said of the sources that isn't so.
pub fn self_check(holds: bool) -> Result<(), Memory>
    ensures { OnOk result (IsTrue holds) }
{
    if holds { Ok(()) } else { Err(Memory) }
}
