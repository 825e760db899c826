ghost use Rattle.std.specs.Prelude.{◌≡◌, List};
ghost use Rattle.std.specs.Option.{option_copied};
ghost use Rattle.mc_insts.specs.Defining.{plain_definitions, DefinitionsFit};
ghost use Rattle.mc_accepted.specs.NormalGoals.{HasNormalGoals};
ghost use Rattle.mc_compile.specs.declared.given.Given.{Given};
ghost use Rattle.mc_compile.specs.Phases.{Tells, Then, Viewed};
ghost use Rattle.mc_compile.specs.Sources.{Sources, is_first, sources_of};
ghost use Rattle.mc_compile.specs.Typing.{PlainTyped, plain_typed};
ghost use Rattle.mc_compile.specs.Checking.{Shows, clauses_given_up};
ghost use Rattle.mc_compile.specs.Ruling.{Insts, Modes, Procedures, Rules, goal_of, plain_executable};

use crate::checked::Checked;
use crate::executable::{Executable, Goal};
use crate::given::{CompileFault, Query};
use crate::moded::Moded;
use crate::typed::Typed;
use mc_analysis::{AnalysisResult, procedures};
use mc_base::{Row, Text};
use mc_core_program::WholeProgram;
use mc_det_rules::main_procedure;
use mc_inst_table::inst_faults;
use mc_procs::Procs;
use std::alloc::Global;

/// The procedures of a program with rules, whose clauses and query are typed.
///
/// # Errors
///
/// `Rejected` with the rules of insts (M6, M7) that items break; else with those of modes (M1 to M4, M8) that declared
/// modes break; else with those of determinism (E1 to E4 and U1) that procedures break.
pub fn rules(
    alloc: Global,
    checked: Checked,
    query: Option<&Query>,
    want_main: bool,
) -> Result<Executable, CompileFault>
    ensures { (files : List Given) (plain : PlainTyped) → Shows checked plain
        → Tells (Rules (sources_of files (option_copied query.entry) want_main))
        (Viewed plain_executable) plain result }
{
    match sound_insts(alloc, &checked.typed) {
        Ok(()) => with_modes(alloc, checked, query, want_main),
        Err(fault) => Err(fault),
    }
}

// Whether no item breaks a rule of insts.
fn sound_insts(alloc: Global, typed: &Typed) -> Result<(), CompileFault>
    ensures { (plain : PlainTyped) → plain_typed typed.now ≡ clauses_given_up plain
        → Tells Insts (λ _ after. plain ≡ after) plain result }
{
    let named = &typed.named;
    let broken = inst_faults(alloc, &named.names, named.files.as_slice())?;
    if broken.is_empty() {
        return Ok(());
    }
    Err(CompileFault::Rejected(Row::of(broken)?))
}

// The phases from declared modes on.
fn with_modes(
    alloc: Global,
    checked: Checked,
    query: Option<&Query>,
    want_main: bool,
) -> Result<Executable, CompileFault>
    ensures { (files : List Given) (plain : PlainTyped) → Shows checked plain
        → Tells
        (Then (Modes (sources_of files (option_copied query.entry) want_main))
        (Procedures (sources_of files (option_copied query.entry) want_main)))
        (Viewed plain_executable) plain result }
{
    match Moded::of(alloc, checked, is_first(query)) {
        Ok(moded) => executable(alloc, moded, want_main),
        Err(fault) => Err(fault),
    }
}

// The phase of procedures.
fn executable(alloc: Global, moded: Moded, want_main: bool) -> Result<Executable, CompileFault>
    requires goals { HasNormalGoals moded.whole.program moded.whole.goals.items }
    requires defs { DefinitionsFit 4 (plain_definitions moded.defs) }
    ensures { (s : Sources) → s.wants_main ≡ want_main
        → Tells (Procedures s) (Viewed plain_executable) moded result }
{
    let Moded {
        whole,
        defs,
        sigs,
        query,
    } = moded;
    let WholeProgram {
        program,
        goals,
        exported,
        variables,
    } = whole;
    let (sigs, goals, exported) = (sigs.as_slice(), goals.as_slice(), exported.as_slice());
    match procedures(alloc, program, &defs, sigs, goals, exported, want_main)? {
        AnalysisResult::Procs(procs) => {
            let goal = goal_of(want_main, &procs, query, variables);
            Ok(Executable { procs, goal })
        }
        AnalysisResult::Broken(broken) => Err(CompileFault::Rejected(Row::of(broken)?)),
    }
}

// What is run over procedures: `main` where it is wanted, and else the query, where there is one.
fn goal_of(want_main: bool, procs: &Procs, query: Option<u32>, variables: Row<Text>) -> Option<Goal>
    ensures { result ≡ goal_of want_main procs.now query variables }
{
    if want_main {
        return main_procedure(procs).map(Goal::Main);
    }
    query.map(|number| Goal::Query { number, variables })
}

/// Whether the first answer alone of a query is wanted.
pub fn is_first(query: Option<&Query>) -> bool
    ensures { result ≡ is_first (option_copied query.entry) }
{
    match query {
        Some(query) => query.first,
        None => false,
    }
}
