//! Computed orders of clauses' goals, and the rules that goals without an order break. Each is the contract of a
//! function that does nothing, and each group has an equation that does not hold.
ghost use Rattle.laws_order.specs.code.ExamplesOfOrder.{NeededFirst, ModesChosen, ListsTakenApart, Conditions, Negations, ResultsCompared, StatesInTurn, StatesCompared};
ghost use Rattle.laws_order.specs.code.ExamplesOfDeterminisms.{NegationsTold, BranchesTold, AppendTold};
ghost use Rattle.laws_order.specs.code.ExamplesOfInOrder.{OnesInOrder};
ghost use Rattle.laws_order.specs.code.ExamplesOfNodes.{ChangesAreKept, PremisesAreMet};
ghost use Rattle.laws_order.specs.code.ExamplesOfScopes.{ScopesAlone, ScopesApart};
ghost use Rattle.laws_order.specs.code.ExamplesOfTests.{ListsAreTold};
ghost use Rattle.laws_order.specs.code.ExamplesOfTidiness.{TidyBelowVariables};
ghost use Rattle.laws_order.specs.code.ExamplesOfFaults.{NoGoalRuns, NegatedGoalsBind, BranchesDiffer, FinalInstsUnmet};

/// Which goal runs first, and in which of its modes a call runs.
pub fn orders()
    ensures needed_first { NeededFirst }
    ensures modes_chosen { ModesChosen }
    ensures lists_taken_apart { ListsTakenApart }
    ensures results_compared { ResultsCompared }
    ensures states_in_turn { StatesInTurn }
    ensures states_compared { StatesCompared }
{}

/// Conditions and negations in their order.
pub fn compound_orders()
    ensures conditions { Conditions }
    ensures negations { Negations }
{}

/// From clauses to their determinisms and to the goals that are pruned: order, changes, switch form, tables.
pub fn determinisms()
    ensures negations { NegationsTold }
    ensures branches { BranchesTold }
    ensures append { AppendTold }
{}

/// The rules that goals without an order break.
pub fn faults()
    ensures no_goal_runs { NoGoalRuns }
    ensures negated_goals_bind { NegatedGoalsBind }
    ensures branches_differ { BranchesDiffer }
    ensures final_insts_unmet { FinalInstsUnmet }
{}

/// Functions that look for nodes and tell the truth of their graph, and a goal that is in order over them.
pub fn premises()
    ensures { PremisesAreMet }
{}

/// The insts that goals change, in their order over those nodes.
pub fn changes()
    ensures { ChangesAreKept }
{}

/// A goal that is in order whichever test tells inclusion, and one that isn't.
pub fn in_order()
    ensures { OnesInOrder }
{}

/// Clauses whose quantifiers are named apart, and clauses where they are not though their scopes are written out.
pub fn scopes()
    ensures scopes_alone { ScopesAlone }
    ensures scopes_apart { ScopesApart }
{}

/// Some test tells inclusion of the insts of lists.
pub fn tests()
    ensures { ListsAreTold }
{}

/// Insts that are tidy at a type variable and at its instances, and insts that aren't.
pub fn tidiness()
    ensures { TidyBelowVariables }
{}
