//! The laws of clauses before their names are resolved. Each is the contract of a function that does nothing.
ghost use Rattle.laws_types.specs.ClauseLaws.{ClausesHaveNames, QueriesHaveNames, ClausesNameTheirOwn, QueriesNameTheirOwn, CandidatesAreThere, ClausesHaveValues};
ghost use Rattle.laws_types.specs.FitLaws.{ClausesFit, PredicatesAreThere, ConstructorsAreLinked};

/// Each variable of a clause and of a query has a name, those too that a quantifier names.
pub fn clauses_have_names()
    ensures clauses { ClausesHaveNames }
    ensures queries { QueriesHaveNames }
{}

/// The quantifiers of a clause and of a query name variables of their own.
pub fn clauses_name_their_own()
    ensures clauses { ClausesNameTheirOwn }
    ensures queries { QueriesNameTheirOwn }
{}

/// What a name of a clause or a query may mean is there.
pub fn candidates_are_there()
    ensures { CandidatesAreThere }
{}

/// The numbers and the texts of a clause or a query are values where those of its term are.
pub fn clauses_have_values()
    ensures { ClausesHaveValues }
{}

/// Clauses and queries fit the table of what their program declares: their variables have names, and what their names may
/// mean, and the predicate that they are of, stand there.
pub fn clauses_fit()
    ensures clauses { ClausesFit }
    ensures preds { PredicatesAreThere }
    ensures constructors { ConstructorsAreLinked }
{}
