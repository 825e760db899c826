//! Programs whose types are regular, and one whose types are not. The contract of a function that does nothing.
ghost use Rattle.laws_modes.specs.code.Examples.{TreesAreRegular, TurnsAreRegular, NestsAreIrregular, NestsMeetMany};

/// Which types are regular, and that infinitely many types are met under one that isn't.
pub fn regular_types()
    ensures trees { TreesAreRegular }
    ensures turns { TurnsAreRegular }
    ensures nests { NestsAreIrregular }
    ensures many { NestsMeetMany }
{}
