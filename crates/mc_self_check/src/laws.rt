//! What follows where the library fits. The law is the contract of a function that does nothing.
ghost use Rattle.mc_self_check.specs.MadeTypes.{LibraryMakesTypes};

/// A program that has the library has its builtins at the types that the language gives them, and what they make is of
/// these types.
pub fn has_library()
    ensures { LibraryMakesTypes }
{}
