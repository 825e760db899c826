//! The laws of compiled programs. Each is the contract of a function that does nothing but call others of the kind.
ghost use Rattle.laws_truth.specs.ProgramTruth.{ExecutablesAreTrue};

use laws_procedures::rule_laws::truth_of_rules;

/// What sources are built to runs true, where it is procedures.
pub fn executables_are_true()
    ensures { ExecutablesAreTrue }
{
    truth_of_rules()
}
