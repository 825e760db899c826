//! The laws of the program that runs. Each is the contract of a function that does nothing.
ghost use Rattle.laws_types.specs.JudgedClauses.{JudgedClausesAreTyped, JudgedQueriesAreTyped};
ghost use Rattle.laws_types.specs.JudgedPrograms.{JudgedProgramsFit};
ghost use Rattle.laws_types.specs.KnownCandidates.{CandidatesAreKnown};
ghost use Rattle.laws_types.specs.ResolvedClauses.{ResolvedAreTypedIn, ResolvedQueriesAreTyped};
ghost use Rattle.laws_types.specs.SeenTypes.{SeenTypesAreTyped, SeenTypesAreFinal};
ghost use Rattle.laws_types.specs.WholeTypes.{WholeTypesFit};

/// What a module sees typed is typed where all definitions of types are seen: there each type stands without equivalences.
pub fn seen_types_are_typed()
    ensures goals { SeenTypesAreTyped }
    ensures preds { SeenTypesAreFinal }
{}

/// The types of a whole program fit, and its procedures fit as far as types go, where its clauses and its query are typed,
/// each as its own module sees the program.
pub fn whole_types_fit()
    ensures { WholeTypesFit }
{}

/// Clauses and queries that are typed where they stand are typed also where the query's predicate is declared.
pub fn resolved_are_typed_in()
    ensures clauses { ResolvedAreTypedIn }
    ensures queries { ResolvedQueriesAreTyped }
{}

/// What the names of a clause or a query may mean is declared, with types that are well formed.
pub fn candidates_are_known()
    ensures { CandidatesAreKnown }
{}

/// What the phase that types clauses answers is typed, each clause and the query in its own module, as the law of the whole
/// program asks.
pub fn judged_are_typed()
    ensures clauses { JudgedClausesAreTyped }
    ensures queries { JudgedQueriesAreTyped }
{}

/// The whole program of clauses and a query that the phase of clauses let through fits as far as types go.
pub fn judged_programs_fit()
    ensures { JudgedProgramsFit }
{}
