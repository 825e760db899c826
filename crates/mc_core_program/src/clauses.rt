ghost use Rattle.std.specs.Prelude.{◌≡◌, map, IfOk};
ghost use Rattle.mc_program.specs.PlainPrograms.{plain_type};
ghost use Rattle.mc_type_table.specs.Expanded.{replaced};
ghost use Rattle.mc_type_table.specs.Held.{held};
ghost use Rattle.mc_goals.specs.Resolved.{typed_clause};
ghost use Rattle.mc_core_program.specs.Whole as whole;

use mc_base::{Memory, Row};
use mc_goals::{query_clause, scoped_clause};
use mc_program::program::Resolved;
use mc_program::ty::Ty;
use mc_type_table::{SizeBudget, with_definitions};
use std::alloc::Global;

/// A clause with its scopes written out and its variables' types without equivalences, where `definitions` are what types
/// are defined as, without equivalences too.
///
/// # Errors
///
/// `Memory` where there is no room, or none for the parts of the types.
pub fn whole_clause(
    alloc: Global,
    definitions: &[Option<Ty>],
    resolved: Resolved,
    room: &mut SizeBudget,
) -> Result<Resolved, Memory>
    ensures clause { IfOk result (λ made. typed_clause made
        ≡ whole.whole_clause (held definitions.now) (typed_clause resolved)) }
    ensures place { IfOk result (λ made. made.clause.place ≡ resolved.clause.place) }
{
    let Resolved {
        clause,
        var_types,
        var_names,
    } = resolved;
    let clause = scoped_clause(alloc, clause)?;
    let var_types = whole_types(alloc, definitions, var_types, room)?;
    Ok(Resolved {
        clause,
        var_types,
        var_names,
    })
}

/// The clause of a query, whose goal was typed as a clause without arguments, with the types of its variables without
/// equivalences: its arguments are the variables that are asked for.
///
/// # Errors
///
/// As for `whole_clause`.
pub fn whole_query(
    alloc: Global,
    definitions: &[Option<Ty>],
    resolved: Resolved,
    room: &mut SizeBudget,
) -> Result<Resolved, Memory>
    ensures clause { IfOk result (λ made. typed_clause made
        ≡ whole.whole_query (held definitions.now) (typed_clause resolved)) }
    ensures place { IfOk result (λ made. made.clause.place ≡ resolved.clause.place) }
{
    let Resolved {
        clause,
        var_types,
        var_names,
    } = resolved;
    let clause = query_clause(alloc, &clause, &var_names)?;
    let var_types = whole_types(alloc, definitions, var_types, room)?;
    Ok(Resolved {
        clause,
        var_types,
        var_names,
    })
}

/// Types without equivalences. Most clauses are facts, and have no variables that have any.
fn whole_types(
    alloc: Global,
    definitions: &[Option<Ty>],
    types: Row<Ty>,
    room: &mut SizeBudget,
) -> Result<Row<Ty>, Memory>
    ensures { IfOk result (λ all. map plain_type all
        ≡ map (replaced (held definitions.now)) (map plain_type types)) }
{
    if types.is_empty() {
        return Ok(types);
    }
    let mut all = Vec::with_capacity(alloc, types.as_slice().len())?;
    for one in types.as_slice() {
        all.push(with_definitions(alloc, definitions, one, room)?)?;
    }
    let row = Row::of(all)?;
    Ok(row)
}
