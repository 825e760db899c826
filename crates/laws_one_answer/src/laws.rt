//! The laws of one answer. Each is the contract of a function that does nothing but call others of the kind.
ghost use Rattle.laws_one_answer.specs.FoundNodes.{FoundNodes};
ghost use Rattle.laws_one_answer.specs.MeantNodes.{MeantNodesMeanOne};
ghost use Rattle.laws_one_answer.specs.MeantSigs.{MeantSigsAreOne};
ghost use Rattle.laws_one_answer.specs.ModesMeanOne.{DefinedMeanOne, ModesMeanOne};
ghost use Rattle.laws_one_answer.specs.OneAnswer.{OneAnswer, OnePlainAnswer, SigsAreThemselves};
ghost use Rattle.laws_one_answer.specs.OneCompiled.{CompiledAreOne, OneInstList, OneOrderedAnswer, OneToBeRun, WellLinkedAreTyped};
ghost use Rattle.laws_one_answer.specs.OneListOfRules.{OneListOfRules};
ghost use Rattle.laws_one_answer.specs.OneModed.{ModedAreOne, OneModedAnswer};
ghost use Rattle.laws_one_answer.specs.OneProgram.{OneComes};
ghost use Rattle.laws_one_answer.specs.OneWhole.{TypedAreOne, WholesAreOne};
ghost use Rattle.laws_one_answer.specs.WholePrograms.{SignaturesArePlaced, WholeGoalsAreTyped};

use laws_order::laws::some_test_tells;
use mc_compile::at_most_one_phase;

/// Some functions agree with what is there, and find nothing else.
pub fn found_nodes()
    ensures { FoundNodes }
{
    some_test_tells()
}

/// Insts that definitions define mean one thing in two graphs.
pub fn defined_insts_mean_one()
    ensures { DefinedMeanOne }
{}

/// So do those of declared modes.
pub fn modes_mean_one()
    ensures { ModesMeanOne }
{}

/// Goals that are put in order in two ways break one list of rules.
pub fn one_list_of_rules()
    ensures { OneListOfRules }
{
    found_nodes()
}

/// What comes of a program in two ways is one answer, by two lists of definitions too.
pub fn one_answer()
    ensures { OneAnswer }
{
    found_nodes();
    one_list_of_rules()
}

/// What comes of a program comes of each that is one with it as plain data, over it.
pub fn one_comes()
    ensures { OneComes }
{}

/// What comes of two programs that are one as plain data is one answer.
pub fn one_plain_answer()
    ensures { OnePlainAnswer }
{
    one_comes();
    one_answer()
}

/// Signatures are one with themselves, by one list of definitions.
pub fn signatures_are_themselves()
    ensures { SigsAreThemselves }
{
    defined_insts_mean_one()
}

/// Where a whole program fits as far as types go, its goals are typed, as these laws ask.
pub fn whole_goals_are_typed()
    ensures { WholeGoalsAreTyped }
{}

/// Signatures of declared modes stand in the order of their predicates, as these laws ask.
pub fn signatures_are_placed()
    ensures { SignaturesArePlaced }
{}

/// The nodes that an inst is by two lists of definitions are one.
pub fn meant_nodes_mean_one()
    ensures { MeantNodesMeanOne }
{}

/// So are the signatures of the modes that are written.
pub fn written_signatures_are_one()
    ensures { MeantSigsAreOne }
{
    meant_nodes_mean_one()
}

/// What a program's items are resolved to, in two ways, is one list of clauses.
pub fn typed_are_one()
    ensures { TypedAreOne }
{}

/// So what runs of them is one program, with one list of normal goals.
pub fn wholes_are_one()
    ensures { WholesAreOne }
{
    typed_are_one()
}

/// What is put in order of what is linked, in two ways, is one program in one list of modes.
pub fn moded_are_one()
    ensures { ModedAreOne }
{
    wholes_are_one();
    written_signatures_are_one();
    signatures_are_placed()
}

/// So what comes of it is one answer.
pub fn one_moded_answer()
    ensures { OneModedAnswer }
{
    moded_are_one();
    one_plain_answer()
}

/// So it is where no definition of a type breaks a rule: what else is asked is so of what is put in order.
pub fn one_ordered_answer()
    ensures { OneOrderedAnswer }
{
    one_moded_answer()
}

/// Items break one list of rules of insts.
pub fn one_inst_list()
    ensures { OneInstList }
{}

/// Where what is linked is well written, the goals of what is put in order are typed.
pub fn well_linked_are_typed()
    ensures { WellLinkedAreTyped }
{
    whole_goals_are_typed()
}

/// Whatever sources are compiled to, it is one.
pub fn compiled_are_one()
    ensures { CompiledAreOne }
{
    at_most_one_phase();
    one_inst_list();
    moded_are_one();
    one_ordered_answer()
}

/// Procedures that run alike are run with one library, and their values are written with the same names.
pub fn one_to_be_run()
    ensures { OneToBeRun }
{}
