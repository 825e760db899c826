//! The laws of rules. Each is the contract of a function that does nothing but call others of the kind.
ghost use Rattle.laws_procedures.specs.TruthOfRules.{TruthOfRules};

use laws_accepted::acceptance_laws::computed_procedures_are_accepted;
use laws_sound::laws::{accepted_are_good, builtins_do_io, builtins_fit};
use mc_self_check::has_library;

/// The procedures of a program that breaks no rule are good.
pub fn truth_of_rules()
    ensures { TruthOfRules }
{
    computed_procedures_are_accepted();
    accepted_are_good();
    has_library();
    builtins_fit();
    builtins_do_io();
}
