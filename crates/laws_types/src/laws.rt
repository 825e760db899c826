//! The laws of typing. Each is the contract of a function that does nothing.
ghost use Rattle.laws_types.specs.GoalTypes.{GoalsAreTyped, TypedGoalsJoin, ScopesKeepTypes};
ghost use Rattle.laws_types.specs.ProcedureTypes.{TypedClausesFit, TypedGoalsFit};
ghost use Rattle.laws_types.specs.QueryGoals.{QueriesAreTyped};
ghost use Rattle.laws_types.specs.WalkLaws.{WalksAreTyped, TypedAreWalked, ResolvedHeadsFit};

/// What the walk of a clause types, the normal goal of its resolution has.
pub fn walks_are_typed()
    ensures { WalksAreTyped }
{}

/// What the normal goal of a clause's resolution has, the walk of the clause types.
pub fn typed_are_walked()
    ensures { TypedAreWalked }
{}

/// A clause that picks type has as many arguments as its predicate has types.
pub fn resolved_heads_fit()
    ensures { ResolvedHeadsFit }
{}

/// The goal of a predicate's clauses is typed with the types of these, one behind another, where each by itself is.
pub fn goals_are_typed()
    ensures general { GoalsAreTyped }
    ensures each { TypedGoalsJoin }
{}

/// The goal of a query is typed with the types of the variables that it asks for, where it is typed as a clause without
/// arguments.
pub fn queries_are_typed()
    ensures { QueriesAreTyped }
{}

/// The most general types of a clause are so where its scopes are written out.
pub fn scopes_keep_types()
    ensures { ScopesKeepTypes }
{}

/// A procedure whose predicate's clauses are typed, in a program that declares the same, fits the types of its program;
/// so does one whose predicate's goal is typed.
pub fn typed_clauses_fit()
    ensures clauses { TypedClausesFit }
    ensures goals { TypedGoalsFit }
{}
