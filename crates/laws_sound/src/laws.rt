//! The theorem and its parts. Each is the contract of a function that does nothing but call others of the kind.
ghost use Rattle.laws_sound.specs.BuiltinLaws.{BuiltinsFit};
ghost use Rattle.laws_sound.specs.IoLaws.{BuiltinsDoIo};
ghost use Rattle.laws_sound.specs.Soundness.{AcceptedAreGood, AcceptedQueriesAreGood};

use laws_language::laws::predicates_carry_over;

/// Accepted procedures are good, and what `main` writes is what its last state has gained, also where procedures lend
/// the state. Accepted queries are good.
pub fn accepted_are_good()
    ensures procedures { AcceptedAreGood }
    ensures queries { AcceptedQueriesAreGood }
{
    predicates_carry_over()
}

/// What builtins do fits the types of their predicates and their determinisms.
pub fn builtins_fit()
    ensures { BuiltinsFit }
{}

/// Io's builtins append to the state what they write, and no other builtin does io.
pub fn builtins_do_io()
    ensures { BuiltinsDoIo }
{}
