ghost use Rattle.std.specs.Prelude.{◌≡◌, ◌++◌, ◌∷◌, [], false, length, map, IfOk};
ghost use Rattle.std.specs.Option.{option_map};
ghost use Rattle.mc_names.specs.Linked.{plain_names};
ghost use Rattle.mc_goals.specs.Resolved.{typed_clause};
ghost use Rattle.mc_core_program.specs.Wholes.{numbered_clause, IsWhole};
ghost use Rattle.mc_core_program.specs.code.Rows.{IsJoined};

use crate::query::{Query, query_over};
use crate::whole_program_clauses::whole_rows;
use crate::{normal_goals, with_clauses};
use mc_base::{Memory, Row, Text};
use mc_declarations::declarations;
use mc_model::flat::Normal;
use mc_names::Names;
use mc_program::program::{Program, Resolved};
use mc_type_table::{SizeBudget, all_definitions};
use std::alloc::Global;

/// How many parts types may have that are still written out: those of all definitions, and those of each clause.
pub const MOST_PARTS: u32 = 4_194_304;

/// A program that runs: its predicates have their clauses, and that of a query stands behind the others. With it come the
/// normal goal of each predicate and whether it is exported, both by number, and the names of the variables that the
/// query asks for.
#[derive(Drop)]
pub struct WholeProgram {
    pub program: Program,
    pub goals: Vec<Normal>,
    pub exported: Vec<bool>,
    pub variables: Row<Text>,
}

/// The program that runs, of what is linked, of typed clauses, each with the number of its predicate, and of the query,
/// which was typed as a clause without arguments. A clause of a number that no predicate has is dropped.
///
/// # Errors
///
/// `Memory` where there is no room, or where types that are written out are too large.
pub fn whole_program(
    alloc: Global,
    names: &Names,
    clauses: Vec<(u32, Resolved)>,
    query: Option<Resolved>,
) -> Result<WholeProgram, Memory>
    ensures { IfOk result
        (IsWhole (plain_names names.now) (map numbered_clause clauses.items)
        (option_map typed_clause query)) }
{
    let mut room = SizeBudget { parts: MOST_PARTS };
    let definitions = all_definitions(alloc, names, &mut room)?;
    let definitions = definitions.as_slice();
    let program = declarations(alloc, names, definitions, &mut room)?;
    let rows = whole_rows(alloc, definitions, program.preds.len(), clauses)?;
    let exported = exported(alloc, names)?;
    match query {
        Some(query) => {
            let query = query_over(alloc, definitions, query)?;
            with_query(alloc, program, rows, exported, query)
        }
        None => joined(alloc, program, rows, exported, Row::new(alloc)),
    }
}

// By number, which predicates and functions are exported.
fn exported(alloc: Global, names: &Names) -> Result<Vec<bool>, Memory>
    ensures { IfOk result (λ all. all.items
        ≡ map (λ d. d.exported) (plain_names names.now).preds) }
{
    let preds = names.preds.as_slice();
    let mut all = Vec::with_capacity(alloc, preds.len())?;
    for named in preds {
        all.push(named.exported)?;
    }
    Ok(all)
}

// The program with a query behind its predicates.
fn with_query(
    alloc: Global,
    program: Program,
    rows: Vec<Row<Resolved>>,
    exported: Vec<bool>,
    query: Query,
) -> Result<WholeProgram, Memory>
    requires { length rows.items ≡ length program.preds }
    ensures joined { IfOk result
        (IsJoined
        (record {
          types = program.types;
          symbols = program.symbols;
          preds = program.preds ++ query.pred ∷ [];
        })
        (rows.items ++ (query.clause ∷ []) ∷ [])) }
    ensures exported { IfOk result (λ whole. whole.exported.items ≡ exported.items ++ false ∷ []) }
    ensures variables { IfOk result (λ whole. whole.variables ≡ query.names) }
{
    let Query {
        pred,
        names,
        clause,
    } = query;
    let Program {
        types,
        symbols,
        preds,
    } = program;
    let mut preds = preds.into_vec();
    preds.push(pred)?;
    let mut rows = rows;
    rows.push(Row::one(alloc, clause)?)?;
    let mut exported = exported;
    exported.push(false)?;
    let program = Program {
        types,
        symbols,
        preds: Row::of(preds)?,
    };
    joined(alloc, program, rows, exported, names)
}

// A program with rows of clauses, by number, and with the normal goals of its predicates.
fn joined(
    alloc: Global,
    program: Program,
    rows: Vec<Row<Resolved>>,
    exported: Vec<bool>,
    variables: Row<Text>,
) -> Result<WholeProgram, Memory>
    requires { length rows.items ≡ length program.preds }
    ensures joined { IfOk result (IsJoined program rows.items) }
    ensures exported { IfOk result (λ whole. whole.exported.items ≡ exported.items) }
    ensures variables { IfOk result (λ whole. whole.variables ≡ variables) }
{
    let rows = Row::of(rows)?;
    let goals = normal_goals(alloc, &program.preds, &rows)?;
    let program = with_clauses(alloc, program, rows.into_vec())?;
    Ok(WholeProgram {
        program,
        goals,
        exported,
        variables,
    })
}
