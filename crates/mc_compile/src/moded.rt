ghost use Rattle.std.specs.Prelude.{◌≡◌, ◌++◌, map, IfOk};
ghost use Rattle.mc_compile.specs.Reading.{plain_goal};
ghost use Rattle.mc_insts.specs.Defining.{plain_definitions, DefinitionsFit};
ghost use Rattle.mc_accepted.specs.NormalGoals.{HasNormalGoals};
ghost use Rattle.mc_type_phase.specs.Judging.{typed_clauses};
ghost use Rattle.mc_compile.specs.Phases.{Tells, Viewed};
ghost use Rattle.mc_compile.specs.Sources.{Sources};
ghost use Rattle.mc_compile.specs.Linking.{plain_named};
ghost use Rattle.mc_compile.specs.Typing.{PlainTyped};
ghost use Rattle.mc_compile.specs.Checking.{Shows};
ghost use Rattle.mc_core_program.specs.Wholes.{numbered_clause};
ghost use Rattle.mc_compile.specs.Ruling.{numbered, query_determinism, query_number, query_sigs, IsModed, Modes};
ghost use Rattle.mc_compile.specs.code.Parts.{IsParted};

use crate::checked::Checked;
use crate::given::CompileFault;
use crate::named::Named;
use mc_base::{Memory, Row};
use mc_core_program::{WholeProgram, whole_program};
use mc_insts::InstDef;
use mc_model::inst::Sig;
use mc_modes::mode_ids;
use mc_program::program::Resolved;
use mc_signatures::{ModeTable, declared_modes, query_signature, signatures};
use mc_source::det::{Det, Most};
use mc_source::place::Place;
use mc_type_phase::TypedClause;
use std::alloc::Global;

/// A program that is put in order: as it runs, with the declared modes of its predicates, the query's behind the others,
/// the definitions of the insts of which modes speak, and the number of the query's procedure where there is a query.
#[derive(Drop)]
pub struct Moded {
    pub whole: WholeProgram,
    pub defs: Row<InstDef>,
    pub sigs: Vec<Sig>,
    pub query: Option<u32>,
}

impl Moded {
    /// The program that typed clauses and the query are, with its declared modes. Whether the first answer alone is wanted
    /// of the query decides its determinism.
    ///
    /// # Errors
    ///
    /// `Memory` where there is no room.
    pub fn of(alloc: Global, checked: Checked, first: bool) -> Result<Moded, CompileFault>
        ensures goals { IfOk result
            (λ moded. HasNormalGoals moded.whole.program moded.whole.goals.items) }
        ensures defs { IfOk result (λ moded. DefinitionsFit 4 (plain_definitions moded.defs)) }
        ensures tells { (s : Sources) (plain : PlainTyped) → s.first ≡ first → Shows checked plain
            → Tells (Modes s) (Viewed (λ m. m)) plain result }
    {
        let moded = with_modes(alloc, checked, first)?;
        Ok(moded)
    }
}

// The program with its declared modes.
fn with_modes(alloc: Global, checked: Checked, first: bool) -> Result<Moded, Memory>
    ensures goals { IfOk result
        (λ moded. HasNormalGoals moded.whole.program moded.whole.goals.items) }
    ensures defs { IfOk result (λ moded. DefinitionsFit 4 (plain_definitions moded.defs)) }
    ensures moded { IfOk result
        (λ moded. (plain : PlainTyped) → Shows checked plain → IsModed first plain.named moded) }
{
    let Checked { typed, clauses } = checked;
    let named = &typed.named;
    let (clauses, query) = parted(clauses, named.goal.is_some())?;
    let whole = whole_program(alloc, &named.names, numbered(alloc, clauses)?, query)?;
    let rows = declared_modes(alloc, &named.names, named.files.as_slice())?;
    let table = signatures(alloc, &named.names, whole.program.preds.as_slice(), &rows)?;
    let ModeTable { defs, sigs } = table;
    let (sigs, query) = with_query(alloc, named, &whole, sigs, first)?;
    Ok(Moded {
        whole,
        defs,
        sigs,
        query,
    })
}

// Typed clauses, and the query behind them where there is one.
fn parted(
    clauses: Vec<Box<TypedClause>>,
    has_query: bool,
) -> Result<(Vec<Box<TypedClause>>, Option<Resolved>), Memory>
    ensures { IfOk result
        (λ parts.
        IsParted (typed_clauses clauses.items) has_query (typed_clauses parts.0.items) parts.1) }
{
    let mut clauses = clauses;
    if !has_query {
        return Ok((clauses, None));
    }
    // A query is typed, so there is one.
    match clauses.pop() {
        Some(query) => Ok((clauses, Some(Box::into_inner(query).resolved))),
        None => Err(Memory),
    }
}

// Typed clauses with the numbers of their predicates.
fn numbered(alloc: Global, clauses: Vec<Box<TypedClause>>) -> Result<Vec<(u32, Resolved)>, Memory>
    ensures { IfOk result
        (λ pairs.
        map numbered_clause pairs.items ≡ map numbered (typed_clauses clauses.items)) }
{
    let mut pairs = Vec::with_capacity(alloc, clauses.len())?;
    for clause in clauses {
        let TypedClause { pred, resolved } = Box::into_inner(clause);
        pairs.push((pred, resolved))?;
    }
    Ok(pairs)
}

// The signatures of predicates with that of the query behind them, and the number of its procedure.
fn with_query(
    alloc: Global,
    named: &Named,
    whole: &WholeProgram,
    declared: Vec<Sig>,
    first: bool,
) -> Result<(Vec<Sig>, Option<u32>), Memory>
    ensures sigs { IfOk result
        (λ made. made.0.items
        ≡ declared.items
        ++ query_sigs first (plain_named named.now) whole.now declared.items
        (plain_goal named.now.goal)) }
    ensures number { IfOk result
        (λ made. made.1 ≡ query_number whole.now declared.items (plain_goal named.now.goal)) }
{
    let mut declared = declared;
    let Some(goal) = &named.goal else {
        return Ok((declared, None));
    };
    let number = counted(mode_ids(alloc, &whole.program, declared.as_slice())?.len())?;
    let at = Place {
        // Those that are given are never more than all.
        file: named.given.min(named.files.len()),
        line: goal.line,
    };
    let pred = named.names.preds.len();
    let arguments = whole.variables.len();
    let det = query_determinism(first);
    declared.push(query_signature(alloc, pred, number, arguments, det, at)?)?;
    Ok((declared, Some(number)))
}

fn counted(count: usize) -> Result<u32, Memory>
    ensures { IfOk result (λ number. number ≡ count) }
{
    if count > u32::MAX as usize {
        return Err(Memory);
    }
    Ok(count as u32)
}

// The determinism of a query, where the first answer alone is wanted.
fn query_determinism(first: bool) -> Option<Det>
    ensures { result ≡ query_determinism first }
{
    if first {
        return Some(Det {
            can_fail: true,
            most: Most::Many,
            committed: true,
        });
    }
    None
}
