//! The laws between walks and normal goals. Each is the contract of a function that does nothing.
ghost use Rattle.laws_made_types.specs.Constructors.{ConstructorsTake, ConstructorsAreTaken};
ghost use Rattle.laws_made_types.specs.MadeTypes.{TracesAreTyped, TypedAreTraced, TypesAreGeneral, PicksAreKnown, WalksArePicked, WalksHaveTraces};

/// A constructor takes the types of its arguments and its own exactly where a flat goal types it so, at a type that is
/// well formed.
pub fn constructors_take()
    ensures takes { ConstructorsTake }
    ensures taken { ConstructorsAreTaken }
{}

/// What a walk types is what some types of its occurrences type with it.
pub fn walks_have_traces()
    ensures { WalksHaveTraces }
{}

/// The picks of a walk fit its steps, and the clause has as many arguments as its predicate has types.
pub fn walks_are_picked()
    ensures { WalksArePicked }
{}

/// The picks of a walk are known where all that its names may stand for is.
pub fn picks_are_known()
    ensures { PicksAreKnown }
{}

/// What the walk of a clause types, the normal goal of its resolution has, with the types of the occurrences that have
/// variables of their own.
pub fn traces_are_typed()
    ensures { TracesAreTyped }
{}

/// What the normal goal of a clause's resolution has, the walk of the clause types, with the types of the variables that
/// were made.
pub fn typed_are_traced()
    ensures { TypedAreTraced }
{}

/// The most general types of a clause's variables and occurrences are the most general types of its normal goal.
pub fn types_are_general()
    ensures { TypesAreGeneral }
{}
