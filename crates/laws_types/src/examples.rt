//! Computed examples of resolving. Each is the contract of a function that does nothing.
ghost use Rattle.laws_types.specs.code.Examples.{Typings, LiveAtOnce, ResolvedClauses};
ghost use Rattle.laws_types.specs.code.ExamplesOfFlags.{MadeVariables};
ghost use Rattle.laws_types.specs.code.ExamplesOfTypes.{ListsOfAny, AskedList};
ghost use Rattle.laws_types.specs.code.ExamplesOfWalks.{CharactersAreBare, ConstructorsAreListed};

/// A clause with one typing, one with two, and one without any.
pub fn typings()
    ensures { Typings }
{}

/// A clause that has two live assignments at one moment, and no more at any.
pub fn live_at_once()
    ensures { LiveAtOnce }
{}

/// The clauses that picks make.
pub fn resolved_clauses()
    ensures { ResolvedClauses }
{}

/// The most general types of a clause, and types that are not.
pub fn most_general()
    ensures types { ListsOfAny }
    ensures query { AskedList }
{}

/// Clauses where the walk or the normal goal alone is typed, since they lack what the laws between the two ask for.
pub fn walks_apart()
    ensures characters { CharactersAreBare }
    ensures constructors { ConstructorsAreListed }
{}

/// Which occurrences in a clause have variables of their own in its normal goal.
pub fn made_variables()
    ensures { MadeVariables }
{}
