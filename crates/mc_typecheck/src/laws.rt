//! The laws between the walk of a clause and the steps of its search. Each is the contract of a function that does
//! nothing.
ghost use Rattle.mc_typecheck.specs.Outcomes.{WalkMeans, WalkIsProper, SearchDecides};

/// What is live in a walk is what is live in its steps.
pub fn walk_means()
    ensures { WalkMeans }
{}

/// The steps of a walk are such as the search takes.
pub fn walk_is_proper()
    ensures { WalkIsProper }
{}

/// What the search answers of a clause's steps holds of the clause.
pub fn search_decides()
    ensures { SearchDecides }
{}
