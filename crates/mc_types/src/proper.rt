ghost use Rattle.std.specs.Prelude.{◌≡◌, ◌<◌, ◌≤◌, ◌+◌, ℕ, List, length, slice_index_or, slice_index, IsTrue};
ghost use Rattle.mc_types.specs.Typed.{Proper, AllProper};

use crate::signature::Signature;
use crate::steps::Step;

/// Whether a step names places and candidates that are there, and as many places as each candidate has types.
fn step_is_proper(signatures: &[Signature], step: &Step, places: usize) -> bool
    ensures { IsTrue result → Proper signatures.now places step.now }
{
    for place in step.places.as_slice() {
        if *place >= places {
            return false;
        }
    }
    for candidate in step.candidates.as_slice() {
        if *candidate >= signatures.len() {
            return false;
        }
        if signatures[*candidate].types.len() != step.places.len() {
            return false;
        }
    }
    true
}

/// Whether all steps are proper.
pub fn is_proper(signatures: &[Signature], steps: &[Step], places: usize) -> bool
    ensures { IsTrue result → AllProper signatures.now places steps.now }
{
    for step in steps {
        if !step_is_proper(signatures, step, places) {
            return false;
        }
    }
    true
}
