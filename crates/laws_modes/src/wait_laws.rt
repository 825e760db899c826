//! The laws of goals that wait. Each is the contract of a function that does nothing.
ghost use Rattle.std.specs.Prelude.{ℕ};
ghost use Rattle.mc_accepted.specs.Forms.{Form};
ghost use Rattle.laws_modes.specs.Waits.{GoalsAreAlike};
ghost use Rattle.laws_modes.specs.Reasons.{CallRemains, ConditionRemains, ConjunctionRemains, ConstructionRemains, DeadRemains, DisjunctionRemains, ElseRemains, EquationRemains, LaterRemains, NegationRemains, QuantifiedRemains, ThenRemains, TurnsBegin, TurnsGoOn, TurnsStop, UnchangedRemains, WiderRemains};

/// What a goal does is a function of its own variables' insts, and of which of them occur outside.
pub fn goals_alike()
    ensures of_nodes { GoalsAreAlike ℕ }
    ensures of_forms { GoalsAreAlike Form }
{}

/// A wider reason is a reason, of as many own variables or more.
pub fn wider_remains()
    ensures { WiderRemains ℕ }
{}

/// A reason is one wherever the variables that were looked at have those insts.
pub fn later_remains()
    ensures { LaterRemains ℕ }
{}

/// A goal that waits does so as long as none of its variables has another inst.
pub fn unchanged_remains()
    ensures { UnchangedRemains ℕ }
{}

/// An atom with a dead variable waits as long as that is dead.
pub fn dead_remains()
    ensures { DeadRemains ℕ }
{}

/// An equation waits as long as both variables are free.
pub fn equation_remains()
    ensures { EquationRemains ℕ }
{}

/// A construction waits as long as one of its arguments is free, or is a state of io.
pub fn construction_remains()
    ensures { ConstructionRemains ℕ }
{}

/// A call waits as long as an input of each mode makes that unusable.
pub fn call_remains()
    ensures { CallRemains ℕ }
{}

/// A negation waits as long as its goal does.
pub fn negation_remains()
    ensures { NegationRemains ℕ }
{}

/// A goal around which variables are quantified waits as long as the goal does.
pub fn quantified_remains()
    ensures { QuantifiedRemains ℕ }
{}

/// A disjunction waits as long as a part does and those before it run.
pub fn disjunction_remains()
    ensures { DisjunctionRemains ℕ }
{}

/// An if-then-else waits as long as its condition does.
pub fn condition_remains()
    ensures { ConditionRemains ℕ }
{}

/// Or as long as its then part does, behind the condition.
pub fn then_remains()
    ensures { ThenRemains ℕ }
{}

/// Or as long as its else part does, where the condition and the then part run.
pub fn else_remains()
    ensures { ElseRemains ℕ }
{}

/// Goals in turn, where they begin.
pub fn turns_begin()
    ensures { TurnsBegin ℕ }
{}

/// One more goal runs.
pub fn turns_go_on()
    ensures { TurnsGoOn ℕ }
{}

/// Goals in turn wait as long as those that are left do, behind those that ran.
pub fn turns_stop()
    ensures { TurnsStop ℕ }
{}

/// A conjunction waits as long as its goals in turn do.
pub fn conjunction_remains()
    ensures { ConjunctionRemains ℕ }
{}
