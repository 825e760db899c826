ghost use Rattle.std.specs.Prelude.{◌≡◌, ℕ, Option, IfOk, length};
ghost use Rattle.mc_program.specs.Programs.{TypeTerm};
ghost use Rattle.mc_names.specs.Linked.{plain_names};
ghost use Rattle.mc_type_table.specs.Expanded.{after_rounds};
ghost use Rattle.mc_type_table.specs.Held.{held};
ghost use Rattle.mc_declarations.specs.Made.{DeclaredAs};

use crate::constructors::constructors;
use crate::declaring::Declaring;
use crate::predicates::predicates;
use mc_base::Memory;
use mc_names::Names;
use mc_program::program::Program;
use mc_program::ty::Ty;
use mc_type_table::{SizeBudget, types_of};
use std::alloc::Global;

/// What a program declares: its types, its constructors, and its predicates and functions, which have no clauses yet.
/// For each type that is an equivalence its definition is given, in which no equivalence is left. (Mercury Language
/// Reference Manual: Types; Predicate and function type declarations.)
///
/// # Errors
///
/// `Memory` where there is no room, or none for the parts of the types.
pub fn declarations(
    alloc: Global,
    names: &Names,
    definitions: &[Option<Ty>],
    room: &mut SizeBudget,
) -> Result<Program, Memory>
    ensures { IfOk result (λ program. (D : ℕ → Option TypeTerm)
        → ((u : ℕ) → held definitions.now u ≡ after_rounds (length (plain_names names.now).types) D u)
        → DeclaredAs (plain_names names.now) D program) }
{
    let at = Declaring {
        alloc,
        names,
        definitions,
    };
    let types = types_of(alloc, names)?;
    let symbols = constructors(&at, room)?;
    let preds = predicates(&at, room)?;
    Ok(Program {
        types,
        symbols,
        preds,
    })
}
