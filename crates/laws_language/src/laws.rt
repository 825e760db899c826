//! The laws that show how the definitions fit together. Each is the contract of a function that does nothing.
ghost use Rattle.laws_language.specs.BareLaws.{GoalsRunBare, CallsRunBare, QueriesRunBare};
ghost use Rattle.laws_language.specs.Laws.{GoalsStay, CallsStay, NoGoalIsBoth, NoCallIsBoth, LevelsSuffice, LevelsSufficeForCalls, LevelsSufficeForQueries, OneLevelMore, BudgetsExtend, BudgetsExtendCalls, BudgetsExtendQueries, SameIsEqual, PlainIsExact, PlainTypesAreExact, PlainTermsAreExact};
ghost use Rattle.laws_language.specs.Proper.{IncludedSets};
ghost use Rattle.laws_language.specs.MergeLaws.{EitherIsLeast, OneIsMerged, MergedAllowTheSame, OlderNodesKeepPaths, OlderNodesKeepValues, OlderNodesKeepInclusion, OlderNodesKeepMerges};
ghost use Rattle.laws_language.specs.ScopeLaws.{ScopedHasScopes, ClausesAreScoped, WrittenScopesStay, ScopedOnce};
ghost use Rattle.laws_language.specs.AcceptedLaws.{ValuesAreListed, CommittedMayAnswer, AcceptedSwitchesOpen};
ghost use Rattle.laws_language.specs.FlatLaws.{FlatGoalsCarry};
ghost use Rattle.laws_language.specs.PredicateLaws.{PredicatesCarry};
ghost use Rattle.laws_language.specs.DeterminismLaws.{ConjIsMonotone, DisjIsMonotone, IteIsMonotone, NegatedIsMonotone, PrunedIsMonotone, AllowsItself, AllowsInTurn, AllowsOneWay};

/// What is true, or false, at a stage is so at every later one.
pub fn stages_stay()
    ensures goals { GoalsStay }
    ensures calls { CallsStay }
{}

/// Nothing is true at one stage and false at another.
pub fn nothing_is_both()
    ensures goals { NoGoalIsBoth }
    ensures calls { NoCallIsBoth }
{}

/// As many levels of calls as the budget allows are enough for a run, and more change nothing.
pub fn levels_suffice()
    ensures goals { LevelsSuffice }
    ensures calls { LevelsSufficeForCalls }
    ensures queries { LevelsSufficeForQueries }
    ensures one_more { OneLevelMore }
{}

/// The events of a run are a prefix of those of any run with a larger budget.
pub fn budgets_extend()
    ensures goals { BudgetsExtend }
    ensures calls { BudgetsExtendCalls }
    ensures queries { BudgetsExtendQueries }
{}

/// The test of equality on values tells equality.
pub fn same_is_equal()
    ensures { SameIsEqual }
{}

/// The plain views of values, types and terms forget nothing but their rows.
pub fn plain_is_exact()
    ensures values { PlainIsExact }
    ensures types { PlainTypesAreExact }
    ensures terms { PlainTermsAreExact }
{}

/// The tables of determinism are monotone.
pub fn determinism_is_monotone()
    ensures conj { ConjIsMonotone }
    ensures disj { DisjIsMonotone }
    ensures ite { IteIsMonotone }
    ensures negated { NegatedIsMonotone }
    ensures pruned { PrunedIsMonotone }
{}

/// That a declaration allows an inference is an order on determinisms, which the tables respect.
pub fn allowing_is_an_order()
    ensures itself { AllowsItself }
    ensures in_turn { AllowsInTurn }
    ensures one_way { AllowsOneWay }
{}

/// Included insts have included sets: a value of the type that is within the first is within the second.
pub fn included_insts_have_included_sets()
    ensures { IncludedSets }
{}

/// Flat truth implies nested truth: a goal of nested terms is true, or false, where its flat goal is.
pub fn flat_goals_carry_over()
    ensures { FlatGoalsCarry }
{}

/// A predicate's one normal goal says of its head variables what its clauses say of arguments: a clause is true where
/// the goal has an answer, and each is false where the goal is for all values of its other variables.
pub fn predicates_carry_over()
    ensures { PredicatesCarry }
{}

/// Merged insts: one that allows exactly what one of two allows is the least above both; one inst alone is merged to
/// itself; and what the same insts are merged to allows the same.
pub fn merged_is_least()
    ensures either { EitherIsLeast }
    ensures alone { OneIsMerged }
    ensures once { MergedAllowTheSame }
{}

/// Where a graph of insts only grows, its older nodes keep their meaning: what they allow, which are included in which,
/// and what they are merged to.
pub fn older_nodes_keep_their_meaning()
    ensures paths { OlderNodesKeepPaths }
    ensures values { OlderNodesKeepValues }
    ensures inclusion { OlderNodesKeepInclusion }
    ensures merges { OlderNodesKeepMerges }
{}

/// Goals, procedures and queries run as their bare forms do.
pub fn bare_runs_alike()
    ensures goals { GoalsRunBare }
    ensures calls { CallsRunBare }
    ensures queries { QueriesRunBare }
{}

/// Scopes that are written out are those of the language where the goal's own quantifiers are apart; a goal that has its
/// scopes written out stays as it is, and writing them out twice is writing them out once.
pub fn scopes_are_written_out()
    ensures goals { ScopedHasScopes }
    ensures clauses { ClausesAreScoped }
    ensures stay { WrittenScopesStay }
    ensures once { ScopedOnce }
{}

/// A value of a union type has a constructor that the type lists.
pub fn values_are_listed()
    ensures { ValuesAreListed }
{}

/// A committed procedure that is accepted may have an answer.
pub fn committed_procedures_may_answer()
    ensures { CommittedMayAnswer }
{}

/// In accepted procedures each arm of each switch takes the variable apart before its first goal that is no equation.
pub fn switches_look_past_equations()
    ensures { AcceptedSwitchesOpen }
{}
