//! The laws. Each is the contract of a function that does nothing.
ghost use Rattle.laws_graphs.specs.Nodes.{BuiltinNodesMeanOne, OneOrderOverNodes};
ghost use Rattle.laws_graphs.specs.Follows.{OrdersFollow};
ghost use Rattle.laws_graphs.specs.DeterminismLaws.{OneDeterminism};
ghost use Rattle.laws_graphs.specs.SwitchLaws.{SwitchFormsFollow};
ghost use Rattle.laws_graphs.specs.FaultLaws.{OneLeast, OneListOfFaults};
ghost use Rattle.laws_graphs.specs.RunLaws.{OneRun};
ghost use Rattle.laws_graphs.specs.MarkedLaws.{MarkedGoalsFollow, PrunedGoalsFollow};

/// The builtin insts mean one thing in all graphs.
pub fn builtin_nodes_mean_one()
    ensures { BuiltinNodesMeanOne }
{}

/// A goal has one order over the nodes of two graphs, but for changes and marks, or one fault.
pub fn one_order_over_nodes()
    ensures { OneOrderOverNodes }
{}

/// Of two such orders one follows the other: the insts before and after each goal mean one thing.
pub fn orders_follow()
    ensures { OrdersFollow }
{}

/// Goals of which one follows the other have one determinism, break one rule of it, and are pruned alike.
pub fn one_determinism()
    ensures { OneDeterminism }
{}

/// Goals of which one follows the other do so in switch form.
pub fn switch_forms_follow()
    ensures { SwitchFormsFollow }
{}

/// Goals of which one follows the other do so when they are pruned.
pub fn pruned_goals_follow()
    ensures { PrunedGoalsFollow }
{}

/// Goals of which one follows the other do so with their determinisms as marks.
pub fn marked_goals_follow()
    ensures { MarkedGoalsFollow }
{}

/// Programs whose bodies follow one another break one list of rules of determinism.
pub fn one_list_of_faults()
    ensures { OneListOfFaults }
{}

/// And their procedures have the same determinisms.
pub fn one_least()
    ensures { OneLeast }
{}

/// Procedures whose bodies follow one another have one run.
pub fn one_run()
    ensures { OneRun }
{}
