ghost use Rattle.std.specs.Prelude.{◌≡◌, ◌<◌, ℕ, [], length, map, get_or, IfOk};
ghost use Rattle.mc_type_table.specs.Held.{held};
ghost use Rattle.mc_goals.specs.Resolved.{typed_clause};
ghost use Rattle.mc_core_program.specs.Whole.{of_number, whole_clause};
ghost use Rattle.mc_core_program.specs.Wholes.{numbered_clause};
ghost use Rattle.mc_core_program.specs.code.Rows.{whole_numbered};

use crate::whole_program_program::MOST_PARTS;
use crate::{by_number, whole_clause};
use mc_base::{Memory, Row};
use mc_program::program::Resolved;
use mc_program::ty::Ty;
use mc_type_table::SizeBudget;
use std::alloc::Global;

/// The clauses of each predicate below a count as they run, by number, where `definitions` are what types are defined as.
#[tactic(auto, using(crate::proofs::NumberLemmas::row_of))]
pub fn whole_rows(
    alloc: Global,
    definitions: &[Option<Ty>],
    count: u32,
    clauses: Vec<(u32, Resolved)>,
) -> Result<Vec<Row<Resolved>>, Memory>
    ensures count { IfOk result (λ rows. length rows.items ≡ count) }
    ensures rows { IfOk result (λ rows. (p : ℕ) → p < count
        → map typed_clause (get_or rows.items p [])
        ≡ map (whole_clause (held definitions.now))
        (of_number p (map numbered_clause clauses.items))) }
{
    let clauses = whole_clauses(alloc, definitions, clauses)?;
    by_number(alloc, count, clauses)
}

// Clauses as they run, each with its number.
fn whole_clauses(
    alloc: Global,
    definitions: &[Option<Ty>],
    clauses: Vec<(u32, Resolved)>,
) -> Result<Vec<(u32, Resolved)>, Memory>
    ensures { IfOk result (λ made. map numbered_clause made.items
        ≡ map (whole_numbered (held definitions.now)) (map numbered_clause clauses.items)) }
{
    let mut all = Vec::with_capacity(alloc, clauses.len())?;
    for (number, clause) in clauses {
        let mut room = SizeBudget { parts: MOST_PARTS };
        let made = whole_clause(alloc, definitions, clause, &mut room)?;
        all.push((number, made))?;
    }
    Ok(all)
}
