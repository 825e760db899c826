//! Computed examples of the definitions: programs written out as scheduled procedures, and what their runs do. Each is
//! the contract of a function that does nothing, and each group has an equation that does not hold.
ghost use Rattle.laws_language.specs.code.ExamplesOfBranches.{BranchesAreAccepted};
ghost use Rattle.laws_language.specs.code.ExamplesOfBuiltins.{NumbersWrap, DivisionRounds, DivisionAtItsEnds, Comparisons, NumbersInTexts, CharactersInTexts, Writing, Reading, InPrograms};
ghost use Rattle.laws_language.specs.code.ExamplesOfGoals.{NegationsQuantify, ConditionsQuantify, ScopesAreWritten, ScopesInScopes, NormalGoals, QueriesAsk, NormalVariables};
ghost use Rattle.laws_language.specs.code.ExamplesOfLegalGoals.{ConditionAnswersOnce, BuiltinAlone, SwitchThroughSome, FreeVariables, BranchesUnderSome, NegationInNegation};
ghost use Rattle.laws_language.specs.code.ExamplesOfPlainGoals.{PlainProcedures};
ghost use Rattle.laws_language.specs.code.ExamplesOfLists.{Facts, Appends, Members, Queens};
ghost use Rattle.laws_language.specs.code.ExamplesOfModes.{Determinisms, CommittedCalls, IoGoals, GoalsWithoutOrder};
ghost use Rattle.laws_language.specs.code.ExamplesOfProcedures.{AppendIsAccepted};
ghost use Rattle.laws_language.specs.code.ExamplesOfRefusals.{CommittedWithoutAnswers, NumbersPastTheSymbols, FreshVariableTwice, SwitchBehindWriting, AllBindsNothing};
ghost use Rattle.laws_language.specs.code.ExamplesOfRuns.{Order, RunEvents, Budgets, Depths, Throws, Output};

/// What builtins do at some inputs.
pub fn builtins()
    ensures numbers_wrap { NumbersWrap }
    ensures division_rounds { DivisionRounds }
    ensures division_at_its_ends { DivisionAtItsEnds }
    ensures comparisons { Comparisons }
    ensures numbers_in_texts { NumbersInTexts }
    ensures characters_in_texts { CharactersInTexts }
    ensures writing { Writing }
    ensures reading { Reading }
    ensures in_programs { InPrograms }
{}

/// Facts, in order and as often as they are given.
pub fn facts()
    ensures { Facts }
{}

/// A predicate in two modes, in one of which its last argument is taken apart first.
pub fn appends()
    ensures { Appends }
{}

/// Negated, quantified and committed goals.
pub fn members()
    ensures { Members }
{}

/// Four queens on a board.
pub fn queens()
    ensures { Queens }
{}

/// A conjunction whose goals run in another order than they are written.
pub fn order()
    ensures { Order }
{}

/// The events of a run, and the values of an answer.
pub fn run_events()
    ensures { RunEvents }
{}

/// The plain view of a procedure value.
pub fn plain_procedures()
    ensures { PlainProcedures }
{}

/// Runs that a budget, or the depth, stops, and runs that they just allow.
pub fn limits()
    ensures budgets { Budgets }
    ensures depths { Depths }
{}

/// A division by zero after an answer.
pub fn throws()
    ensures { Throws }
{}

/// What a program writes, with all the calls that it needs and with one less.
pub fn output()
    ensures { Output }
{}

/// Variables that a goal quantifies, and goals whose scopes are written out.
pub fn scopes()
    ensures negations { NegationsQuantify }
    ensures conditions { ConditionsQuantify }
    ensures written { ScopesAreWritten }
    ensures nested { ScopesInScopes }
{}

/// Predicates as one goal whose atoms hold variables alone.
pub fn normal_goals()
    ensures { NormalGoals }
{}

/// The clause that a query is, and the types and names of a normal goal's variables.
pub fn queries_and_variables()
    ensures queries { QueriesAsk }
    ensures variables { NormalVariables }
{}

/// A procedure that is accepted, and two that are not.
pub fn accepted_procedures()
    ensures { AppendIsAccepted }
{}

/// Procedures with an if-then-else and with a negation that are accepted, and two that are not.
pub fn accepted_branches()
    ensures { BranchesAreAccepted }
{}

/// The determinism of goals by the tables, and the contexts in which committed calls and goals that write may stand.
pub fn determinisms()
    ensures determinisms { Determinisms }
    ensures committed_calls { CommittedCalls }
    ensures io_goals { IoGoals }
{}

/// Goals that no order makes mode-correct.
pub fn goals_without_order()
    ensures { GoalsWithoutOrder }
{}

/// Programs that are refused, since their runs would not be good.
pub fn refusals()
    ensures committed_without_answers { CommittedWithoutAnswers }
    ensures numbers_past_the_symbols { NumbersPastTheSymbols }
    ensures fresh_variable_twice { FreshVariableTwice }
    ensures switch_behind_writing { SwitchBehindWriting }
    ensures all_binds_nothing { AllBindsNothing }
{}

/// Procedures of less common forms that are accepted.
pub fn legal_goals()
    ensures condition_answers_once { ConditionAnswersOnce }
    ensures builtin_alone { BuiltinAlone }
    ensures switch_through_some { SwitchThroughSome }
    ensures free_variables { FreeVariables }
    ensures branches_under_some { BranchesUnderSome }
    ensures negation_in_negation { NegationInNegation }
{}
