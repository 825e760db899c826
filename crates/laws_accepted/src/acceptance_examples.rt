//! Examples that meet what the laws ask. Each is the contract of a function that does nothing.
ghost use Rattle.laws_accepted.specs.code.AcceptanceExamples.{AppendIsFormed, FactsAreFormed};

/// A procedure whose body is the switch form of its ordered goal, with all that its phases have to tell, and a switch
/// whose arm has several disjuncts.
pub fn formed_bodies()
    ensures append { AppendIsFormed }
    ensures facts { FactsAreFormed }
{}
