ghost use Rattle.mc_declarations.specs.Proper.{DeclarationsFit, AllDeclarationsFit};

/// Where no type breaks a rule and each name of a type means one, what a program declares is well formed, whichever
/// definitions a module sees, and where all are seen.
pub fn declarations_fit()
    ensures seen { DeclarationsFit }
    ensures all { AllDeclarationsFit }
{}
