ghost use Rattle.std.specs.Prelude.{◌≡◌, ◌↔◌, IsTrue};
ghost use Rattle.mc_program.specs.PlainPrograms.{plain_name, plain_pred};
ghost use Rattle.mc_builtins.specs.Answers.{known};
ghost use Rattle.mc_self_check.specs.code.Types.{plain_types};
ghost use Rattle.mc_self_check.specs.code.LibraryFitNames.{plain_library_name};
ghost use Rattle.mc_self_check.specs.code.Predicates.{FitsLibrary, FitsBuiltin};

use crate::declared::{LibraryName, name_of, types_of};
use crate::library_fit_constructors::has_made;
use crate::library_fit_types::{LibraryTypes, are_types};
use mc_builtins::Library;
use mc_program::builtin::Builtin;
use mc_program::program::{Name, Pred};

/// Whether a predicate that has a builtin is declared as the language declares that one.
pub(crate) fn predicate_fits(library: &Library<'_>, types: LibraryTypes, pred: &Pred) -> bool
    ensures { IsTrue result
        ↔ FitsLibrary library.now.program.now (known library.now) (plain_types types)
        (plain_pred pred.now) }
{
    match pred.builtin {
        Some(builtin) => builtin_fits(library, types, pred, builtin),
        None => true,
    }
}

fn builtin_fits(library: &Library<'_>, types: LibraryTypes, pred: &Pred, builtin: Builtin) -> bool
    ensures { IsTrue result
        ↔ FitsBuiltin library.now.program.now (known library.now) (plain_types types)
        (plain_pred pred.now) builtin }
{
    is_named(&pred.name, name_of(builtin))
        && are_types(pred.types.as_slice(), types_of(builtin), types)
        && has_made(library, types, builtin)
}

fn is_named(name: &Name, known: LibraryName) -> bool
    ensures { IsTrue result ↔ (plain_name name.now ≡ plain_library_name known) }
{
    name.module.bytes() == known.module
        && name.name.bytes() == known.name
        && name.arity == known.arity
}
