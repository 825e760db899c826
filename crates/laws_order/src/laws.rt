//! The laws that tie the one order of goals to the relation of ordered goals. Each is the contract of a function that
//! does nothing.
ghost use Rattle.std.specs.Prelude.{ℕ};
ghost use Rattle.mc_accepted.specs.Forms.{Form};
ghost use Rattle.laws_order.specs.NormalScopes.{NormalGoalsBelow, NormalGoalsScoped, NormalOrderIsOrdered, ScopedNamedApart};
ghost use Rattle.laws_order.specs.SomeTest.{NodesAreTold, SomeTestTells};
ghost use Rattle.laws_order.specs.Tidying.{EntriesAreTidy, OrdersStayTidy, TidyAtInstances};
ghost use Rattle.laws_order.specs.OrderLaws.{ArrangedStands, InOrderIsOrdered, ModesAreDeclared, NamedByFaults, NothingLacks, OneOrder, OthersStay, StandingIsOrdered};

/// A goal changes no variable but its own, and those that are numbered on.
pub fn others_stay()
    ensures of_nodes { OthersStay ℕ }
    ensures of_forms { OthersStay Form }
{}

/// A tidy inst is tidy at each instance of its type.
pub fn tidy_at_instances()
    ensures { TidyAtInstances }
{}

/// A typed goal that is arranged from a tidy point has tidy insts at each point in its order.
pub fn orders_stay_tidy()
    ensures { OrdersStayTidy }
{}

/// A procedure that fits is entered with tidy insts.
pub fn entries_are_tidy()
    ensures { EntriesAreTidy }
{}

/// What is arranged over nodes of a graph stands in the relation of ordered goals.
pub fn arranged_stands()
    ensures { ArrangedStands }
{}

/// Two tests that tell inclusion give one order.
pub fn one_order()
    ensures { OneOrder }
{}

/// A goal that stands in its order is the order of an ordered goal.
pub fn standing_is_ordered()
    ensures { StandingIsOrdered }
{}

/// Where a procedure's goal is in order over nodes, that is the order of an ordered goal, whose end meets the final
/// insts.
pub fn in_order_is_ordered()
    ensures { InOrderIsOrdered }
{}

/// The declared modes of a predicate are those of its procedures, of each once and in their order.
pub fn modes_are_declared()
    ensures { ModesAreDeclared }
{}

/// Insts without numbers never lack: a goal has its order, or breaks a rule.
pub fn nothing_lacks()
    ensures { NothingLacks }
{}

/// The variables that a fault names: all that a test tells, rising, or the least of them.
pub fn named_by_faults()
    ensures { NamedByFaults }
{}

/// Where a clause's own quantifiers name variables of their own, all are named apart once its scopes are written out.
pub fn scopes_are_named_apart()
    ensures { ScopedNamedApart }
{}

/// The scopes of a predicate's normal goal are written out, where its clauses' quantifiers are named apart.
pub fn normal_goals_are_scoped()
    ensures { NormalGoalsScoped }
{}

/// The number of a normal goal's variables is above all of them, and above the head variables.
pub fn normal_goals_are_below()
    ensures { NormalGoalsBelow }
{}

/// Where a predicate's normal goal is in order over nodes, that is the order of an ordered goal, whose end meets the
/// final insts.
pub fn normal_order_is_ordered()
    ensures { NormalOrderIsOrdered }
{}

/// Of finitely many insts, under types that meet finitely many, some test tells inclusion; and such a test tells that of
/// nodes.
pub fn some_test_tells()
    ensures insts { SomeTestTells }
    ensures nodes { NodesAreTold }
{}
