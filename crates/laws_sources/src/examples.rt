ghost use Rattle.laws_sources.specs.code.Examples.{Variables, Circles, Regular, Tables, Hidden};

/// Definitions of types, the rules that they break and the tables that they are.
pub fn types_of_programs()
    ensures variables { Variables }
    ensures circles { Circles }
    ensures regular { Regular }
    ensures tables { Tables }
    ensures hidden { Hidden }
{}
