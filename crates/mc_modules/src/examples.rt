ghost use Rattle.mc_modules.specs.code.Examples.{Structure, Modules, Names, Definitions, Predicates};

/// Files and the rules of the phase that links which they break.
pub fn linked_files()
    ensures structure { Structure }
    ensures modules { Modules }
    ensures names { Names }
    ensures definitions { Definitions }
    ensures predicates { Predicates }
{}
