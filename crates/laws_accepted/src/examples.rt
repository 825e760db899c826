//! Computed switch forms, determinisms, and rules of determinism that procedures break. Each is the contract of a
//! function that does nothing, and each group has an equation that does not hold.
ghost use Rattle.laws_accepted.specs.code.ExamplesOfInference.{LeastOnes};
ghost use Rattle.laws_accepted.specs.code.ExamplesOfInsts.{Unfounded, FreeInside, OtherParameters, ParametersFounded, ParametersInside, InstTexts, TidyModes, UnfoundedModes};
ghost use Rattle.laws_accepted.specs.code.ExamplesOfClauses.{ClausesSwitched};
ghost use Rattle.laws_accepted.specs.code.ExamplesOfSwitches.{ArmsMerged, NestedArmsMerged, FactsSwitched, ListsSwitched, WhatIsLookedThrough, SeveralVariables, LabelsDontOverlap};
ghost use Rattle.laws_accepted.specs.code.ExamplesOfDeterminisms.{ListsDetermined, FactsDetermined, HeadsDetermined, CallsDetermined, Marks};
ghost use Rattle.laws_accepted.specs.code.ExamplesOfFaults.{Contexts, NotAllowed, Undeclared, MisplacedCalls, MisplacedIo, MainIsAsked, FaultsInOrder};

/// Which disjunctions are switches, and their arms.
pub fn switches()
    ensures facts { FactsSwitched }
    ensures lists { ListsSwitched }
    ensures looked_through { WhatIsLookedThrough }
    ensures several { SeveralVariables }
    ensures labels { LabelsDontOverlap }
    ensures kept { ArmsMerged }
    ensures nested { NestedArmsMerged }
    ensures clauses { ClausesSwitched }
{}

/// The determinisms of goals in switch form, and which goals are pruned.
pub fn determinisms()
    ensures lists { ListsDetermined }
    ensures facts { FactsDetermined }
    ensures heads { HeadsDetermined }
    ensures calls { CallsDetermined }
    ensures marks { Marks }
{}

/// The least determinisms of procedures that declare none.
pub fn inference()
    ensures { LeastOnes }
{}

/// The rules that procedures break, one at a time.
pub fn faults()
    ensures not_allowed { NotAllowed }
    ensures undeclared { Undeclared }
    ensures calls { MisplacedCalls }
    ensures contexts { Contexts }
    ensures io { MisplacedIo }
{}

/// What `run` asks of `main`, and the order of faults.
pub fn lists_of_faults()
    ensures main { MainIsAsked }
    ensures order { FaultsInOrder }
{}

/// Definitions of insts and modes that break rules, and such as don't.
pub fn insts()
    ensures unfounded { Unfounded }
    ensures free_inside { FreeInside }
    ensures other_parameters { OtherParameters }
    ensures parameters_founded { ParametersFounded }
    ensures parameters_inside { ParametersInside }
    ensures texts { InstTexts }
    ensures modes { UnfoundedModes }
    ensures tidy { TidyModes }
{}
