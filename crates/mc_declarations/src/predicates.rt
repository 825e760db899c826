ghost use Rattle.std.specs.Prelude.{◌≡◌, [], ◌∷◌, IfOk, map};
ghost use Rattle.mc_decl_syntax.specs.Plain.{plain_item};
ghost use Rattle.mc_program.specs.PlainPrograms.{plain_type, plain_pred};
ghost use Rattle.mc_names.specs.Linked.{plain_named, plain_names};
ghost use Rattle.mc_type_table.specs.Held.{held};
ghost use Rattle.mc_declarations.specs.Declarations.{is_function};
ghost use Rattle.mc_declarations.specs.code.With.{types_with, predicate_with};

use crate::builtins::builtin_of;
use crate::declared::declared_all;
use crate::declaring::{Declaring, copied_name};
use crate::terms::type_terms;
use mc_base::{Memory, Row};
use mc_clauses::{Module, Variables};
use mc_decl_syntax::Decl;
use mc_names::{Named, defining_module};
use mc_program::program::Pred;
use mc_program::ty::Ty;
use mc_type_table::SizeBudget;

/// The predicates and functions of a program, which have no clauses yet.
pub fn predicates(at: &Declaring<'_>, room: &mut SizeBudget) -> Result<Row<Pred>, Memory>
    ensures preds { IfOk result (λ all. map plain_pred all
        ≡ map (λ d. predicate_with (plain_names at.now.names.now) (held at.now.definitions.now)
        (plain_named d)) at.now.names.now.preds) }
    ensures names { IfOk result (λ all. map (λ p. p.name) all
        ≡ map (λ d. d.name) at.now.names.now.preds) }
    ensures functions { IfOk result (λ all. map (λ p. p.is_func) all
        ≡ map (λ d. is_function (plain_item d.decl)) at.now.names.now.preds) }
{
    let mut all = Vec::new(at.alloc);
    for named in at.names.preds.as_slice() {
        all.push(predicate(at, named, room)?)?;
    }
    let row = Row::of(all)?;
    Ok(row)
}

// A predicate or function by its declaration.
fn predicate(at: &Declaring<'_>, named: &Named, room: &mut SizeBudget) -> Result<Pred, Memory>
    ensures pred { IfOk result (λ made. plain_pred made
        ≡ predicate_with (plain_names at.now.names.now) (held at.now.definitions.now)
        (plain_named named.now)) }
    ensures name { IfOk result (λ made. made.name ≡ named.now.name) }
    ensures function { IfOk result (λ made. made.is_func ≡ is_function (plain_item named.now.decl)) }
{
    let types = types(at, named, room)?;
    let is_func = is_function(&named.decl);
    let name = copied_name(at.alloc, &named.name)?;
    Ok(Pred {
        name,
        is_func,
        types,
        clauses: Row::new(at.alloc),
        builtin: builtin_of(&named.name, is_func),
    })
}

// The types that a predicate or function is declared with.
fn types(at: &Declaring<'_>, named: &Named, room: &mut SizeBudget) -> Result<Row<Ty>, Memory>
    ensures { IfOk result (λ types. map plain_type types
        ≡ types_with (plain_names at.now.names.now) (held at.now.definitions.now)
        (plain_named named.now)) }
{
    let own = Module {
        alloc: at.alloc,
        names: at.names,
        own: defining_module(at.names, named),
    };
    let terms = type_terms(at.alloc, &named.decl)?;
    let written = terms.as_slice();
    let mut variables = Variables::new(at.alloc);
    let declared = declared_all(&own, written, &mut variables)?;
    let plain = declared.as_slice();
    let types = at.with_definitions(plain, room)?;
    Ok(types)
}

// Whether a declaration is a function's.
fn is_function(decl: &Decl) -> bool
    ensures { result ≡ is_function (plain_item decl.now) }
{
    matches!(decl, Decl::Func(_, _))
}
