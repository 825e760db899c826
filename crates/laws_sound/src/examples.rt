//! A system that meets all that the theorem asks, and what is turned away.
ghost use Rattle.laws_sound.specs.code.Examples.{SumsFit};
ghost use Rattle.laws_sound.specs.code.MainExamples.{LineIsWritten, LinesFit, OneLineIsWritten, PeeksFit};
ghost use Rattle.laws_sound.specs.code.Premises.{ArmsAreAsked, AtomsAreAsked, BuiltinsAreAsked, DeterminismsAreAsked, HeadTypesAreAsked, HeadsAreAsked, InstsAreAsked, IoIsAsked, MarksAreAsked, PredicatesAreAsked, SumsFail, SymbolsAreAsked, UniqueInstsAreAsked};

/// `p(X, Y, Z) :- X + Y = Z.`, over the real builtins.
pub fn sums()
    ensures { SumsFit }
{}

/// `main(!IO) :- io.nl(!IO).`, which writes a line's end.
pub fn lines()
    ensures fits { LinesFit }
    ensures writes { LineIsWritten }
{}

/// `main(!IO) :- peek(!.IO), io.nl(!IO).`, where `peek(_)` is lent the state, which stays unique.
pub fn peeks()
    ensures fits { PeeksFit }
    ensures writes { OneLineIsWritten }
{}

/// What each premise turns away.
pub fn premises()
    ensures insts { InstsAreAsked }
    ensures symbols { SymbolsAreAsked }
    ensures builtins { BuiltinsAreAsked }
    ensures determinisms { DeterminismsAreAsked }
    ensures sums { SumsFail }
    ensures marks { MarksAreAsked }
    ensures arms { ArmsAreAsked }
    ensures io { IoIsAsked }
    ensures head_types { HeadTypesAreAsked }
    ensures atoms { AtomsAreAsked }
    ensures heads { HeadsAreAsked }
    ensures predicates { PredicatesAreAsked }
    ensures unique_insts { UniqueInstsAreAsked }
{}
