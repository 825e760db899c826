ghost use Rattle.std.specs.Prelude.{◌≡◌, IfOk, OnOk, map};
ghost use Rattle.std.specs.Option.{option_map};
ghost use Rattle.mc_term_data.specs.Plain.{plain_term};
ghost use Rattle.mc_decl_syntax.specs.Entries.{plain_files, plain_entry};
ghost use Rattle.mc_names.specs.Linked.{plain_names};
ghost use Rattle.mc_type_table.specs.Visibility.{definitions_seen};
ghost use Rattle.mc_typecheck.specs.Fitting.{IsSomeTable};
ghost use Rattle.mc_type_phase.specs.Typing.{module_clauses, clauses_from};
ghost use Rattle.mc_type_phase.specs.Items.{items, clause_item, query_item, without_clauses};
ghost use Rattle.mc_type_phase.specs.Judging.{IsJudged};
ghost use Rattle.mc_type_phase.specs.code.Adding.{Checks, Adds, IsAtHand};

use crate::alike::{has_clauses, see_alike};
use crate::checker::Checker;
use crate::judged::TypecheckResult;
use mc_base::{Memory, Row};
use mc_clauses::Module;
use mc_decl_syntax::Entry;
use mc_declarations::declarations;
use mc_names::Names;
use mc_term_data::Term;
use mc_type_table::{SizeBudget, seen_definitions};
use mc_typecheck::signatures_of;
use std::alloc::Global;

/// How many parts the types may have that are written out while a module's declarations are made.
const MOST_PARTS: u32 = 4_194_304;

/// What was judged of files and a query, and the files without their clauses, which were given up as they were judged.
#[derive(Drop)]
pub struct TypecheckOutput {
    pub judged: TypecheckResult,
    pub others: Row<Row<Entry>>,
}

/// Judges the clauses of files whose names are linked, in their order, and behind them the goal of a query, which stands
/// in a file of a number of its own. The files are given back without their clauses.
///
/// # Errors
///
/// `Memory` where there is no room, or where types that are written out are too large.
pub fn typecheck(
    alloc: Global,
    names: &Names,
    files: Row<Row<Entry>>,
    number: u32,
    goal: Option<&Term>,
) -> Result<TypecheckOutput, Memory>
    ensures judged { IfOk result
        (λ judgement.
        IsJudged (plain_names names.now) (definitions_seen (plain_names names.now))
        (items (plain_names names.now) (plain_files files) number
        (option_map (λ t. plain_term t.now) goal.entry)) judgement.judged) }
    ensures others { IfOk result
        (λ judgement.
        plain_files judgement.others ≡ map without_clauses (plain_files files)) }
{
    let mut judged = TypecheckResult::new(alloc);
    let (at_hand, others) = typecheck_files(alloc, names, files, &mut judged)?;
    match goal {
        Some(goal) => {
            let checker = checker_for(alloc, names, at_hand, 0)?;
            judged.typecheck_query(&checker, number, goal)?;
            Ok(TypecheckOutput { judged, others })
        }
        None => Ok(TypecheckOutput { judged, others }),
    }
}

// Judges the clauses of files, and tells the checker that is then at hand, where one was made, and the files without
// their clauses.
fn typecheck_files<'n>(
    alloc: Global,
    names: &'n Names,
    files: Row<Row<Entry>>,
    judged: &mut TypecheckResult,
) -> Result<(Option<Checker<'n>>, Row<Row<Entry>>), Memory>
    ensures at_hand { IfOk result (λ made. IsAtHand (plain_names names.now) made.0) }
    ensures added { OnOk result
        (Adds (plain_names names.now) (definitions_seen (plain_names names.now))
        (map (clause_item (plain_names names.now))
        (clauses_from (plain_names names.now) 0 (plain_files files)))
        judged.old judged.new) }
    ensures others { IfOk result
        (λ made. plain_files made.1 ≡ map without_clauses (plain_files files)) }
{
    let mut others = Vec::with_capacity(alloc, files.len() as usize)?;
    let mut own: u32 = 0;
    let mut at_hand = None;
    for file in files.into_vec() {
        let (checker, other) = typecheck_module(alloc, names, at_hand, own, file, judged)?;
        at_hand = checker;
        others.push(other)?;
        if own == u32::MAX {
            return Err(Memory);
        }
        own += 1;
    }
    let others = Row::of(others)?;
    Ok((at_hand, others))
}

// Judges the clauses of a module's file, and tells the checker that is then at hand, and the file without them. Where
// there is no clause no checker is made, and the file stays as it is.
fn typecheck_module<'n>(
    alloc: Global,
    names: &'n Names,
    at_hand: Option<Checker<'n>>,
    own: u32,
    file: Row<Entry>,
    judged: &mut TypecheckResult,
) -> Result<(Option<Checker<'n>>, Row<Entry>), Memory>
    requires { IsAtHand (plain_names names.now) at_hand }
    ensures at_hand { IfOk result (λ made. IsAtHand (plain_names names.now) made.0) }
    ensures added { OnOk result
        (Adds (plain_names names.now) (definitions_seen (plain_names names.now))
        (map (clause_item (plain_names names.now))
        (module_clauses (plain_names names.now) own (map plain_entry file)))
        judged.old judged.new) }
    ensures others { IfOk result
        (λ made. map plain_entry made.1 ≡ without_clauses (map plain_entry file)) }
{
    if !has_clauses(file.as_slice()) {
        return Ok((at_hand, file));
    }
    let checker = checker_for(alloc, names, at_hand, own)?;
    let others = judged.typecheck_file(&checker, file)?;
    Ok((Some(checker), others))
}

// The checker of a module's clauses: the one at hand, where its module sees the same definitions of types.
#[tactic(auto, using(crate::proofs::Moved::some_at_hand))]
fn checker_for<'n>(
    alloc: Global,
    names: &'n Names,
    at_hand: Option<Checker<'n>>,
    own: u32,
) -> Result<Checker<'n>, Memory>
    requires { IsAtHand (plain_names names.now) at_hand }
    ensures some { IfOk result (λ checker. IsSomeTable checker.signatures) }
    ensures own { IfOk result (λ checker. checker.at.own ≡ own) }
    ensures checks { IfOk result
        (λ checker.
        Checks (plain_names names.now) (definitions_seen (plain_names names.now) checker.at.own)
        checker) }
{
    match at_hand {
        Some(mut checker) => {
            if see_alike(names, checker.at.own, own) {
                checker.at.own = own;
                return Ok(checker);
            }
            drop(checker);
            let made = checker_of(alloc, names, own)?;
            Ok(made)
        }
        None => checker_of(alloc, names, own),
    }
}

// The checker of a module's clauses, by what the module sees that types are defined as.
fn checker_of<'n>(alloc: Global, names: &'n Names, own: u32) -> Result<Checker<'n>, Memory>
    ensures some { IfOk result (λ checker. IsSomeTable checker.signatures) }
    ensures own { IfOk result (λ checker. checker.at.own ≡ own) }
    ensures checks { IfOk result
        (λ checker.
        Checks (plain_names names.now) (definitions_seen (plain_names names.now) checker.at.own)
        checker) }
{
    let mut room = SizeBudget { parts: MOST_PARTS };
    let definitions = seen_definitions(alloc, names, own, &mut room)?;
    let program = declarations(alloc, names, definitions.as_slice(), &mut room)?;
    let signatures = signatures_of(alloc, &program)?;
    let at = Module { alloc, names, own };
    Ok(Checker {
        at,
        program,
        signatures,
    })
}
