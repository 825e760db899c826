//! The laws of switch forms and of determinisms. Each is the contract of a function that does nothing.
ghost use Rattle.laws_accepted.specs.FaultLaws.{AllowsTells, ByPlaceIsInPlaces, FaultlessMeets, FaultsAreOne, JoinIsLeast, LeastIsOne, MisplacedTells, MisplacesIoTells, NoFaultAnywhere};
ghost use Rattle.laws_accepted.specs.SwitchLaws.{SwitchesKeepLists, GoalsKeepLists, FormsKeepLists, FormsAreWhole, OpeningsOpen};
ghost use Rattle.laws_accepted.specs.TableLaws.{TableIsMonotone, TableDepends};

/// A disjunction and the switch that is made of the same disjuncts have one event list, and so have a whole goal and its
/// switch form.
pub fn switches_keep_lists()
    ensures disjuncts { SwitchesKeepLists }
    ensures goals { FormsKeepLists }
    ensures whole { GoalsKeepLists }
{}

/// What a goal is computed to open, it opens in the relation of ordered goals.
pub fn openings_open()
    ensures { OpeningsOpen }
{}

/// To look at the arms of switches again more often changes nothing.
pub fn forms_are_whole()
    ensures { FormsAreWhole }
{}

/// What allows the determinisms of the procedures has a table value that allows the table value.
pub fn table_is_monotone()
    ensures { TableIsMonotone }
{}

/// A table value follows from the determinisms of the procedures that are called.
pub fn table_depends()
    ensures { TableDepends }
{}

/// The test of allowing tells it, `join` is the least determinism that allows both, and there is one least assignment,
/// and so one list of faults.
pub fn inferred_ones_are_least()
    ensures allows { AllowsTells }
    ensures join { JoinIsLeast }
    ensures one { LeastIsOne }
    ensures faults { FaultsAreOne }
{}

/// Faults are found exactly where a committed call, or an io goal, stands where it may not; a procedure without one
/// meets what is asked of its determinism.
pub fn faults_tell()
    ensures calls { MisplacedTells }
    ensures io { MisplacesIoTells }
    ensures none { FaultlessMeets }
{}

/// Broken rules are put in the order of their places, and stay as many.
pub fn rules_are_in_places()
    ensures { ByPlaceIsInPlaces }
{}

/// Where the list of broken rules is empty, no procedure has a fault.
pub fn no_fault_anywhere()
    ensures { NoFaultAnywhere }
{}
