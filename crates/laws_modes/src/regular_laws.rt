//! The laws of regular types. Each is the contract of a function that does nothing.
ghost use Rattle.laws_modes.specs.Declared.{DeclaredAreRegular, DeclaredAreTold};
ghost use Rattle.laws_modes.specs.Regular.{FinitelyManyMet};

/// Where types are regular, finitely many types are met under each type.
pub fn finitely_many_met()
    ensures { FinitelyManyMet }
{}

/// Where no type breaks a rule, the types that are declared are regular.
pub fn declared_are_regular()
    ensures { DeclaredAreRegular }
{}

/// Where no type breaks a rule, some test tells inclusion of finitely many insts.
pub fn declared_are_told()
    ensures { DeclaredAreTold }
{}
