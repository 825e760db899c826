ghost use Rattle.std.specs.Prelude.{◌≡◌, ◌↔◌, IsTrue};
ghost use Rattle.mc_program.specs.PlainPrograms.{plain_program};
ghost use Rattle.mc_builtins.specs.Answers.{known};
ghost use Rattle.mc_self_check.specs.HasLibrary.{HasLibrary};
ghost use Rattle.mc_self_check.specs.code.Types.{plain_types};
ghost use Rattle.mc_self_check.specs.code.Predicates.{types_in};

use crate::library_fit_types::LibraryTypes;
use crate::predicates::predicate_fits;
use mc_builtins::Library;
use mc_program::program::Program;

/// Whether the predicates that have builtins, and the constructors of what these make, are declared as the language says.
pub fn library_fits(program: &Program) -> bool
    ensures { IsTrue result ↔ HasLibrary program.now }
{
    let library = Library::of(program);
    let types = types_in(&library);
    for number in 0..program.preds.len() {
        if !predicate_fits(&library, types, program.preds.get(number)) {
            return false;
        }
    }
    true
}

/// The types of the constructors `[]` and `ok`. If the program has the library they are that of lists and that of what
/// reading gives, wherever a builtin makes one.
fn types_in(library: &Library<'_>) -> LibraryTypes
    ensures { plain_types result ≡ types_in library.now.program.now (known library.now) }
{
    LibraryTypes {
        list: type_of(library.program, library.nil),
        result: type_of(library.program, library.ok),
    }
}

/// The type of a constructor. A number that none has stands for one of the first type.
fn type_of(program: &Program, symbol: u32) -> u32
    ensures { result ≡ ((plain_program program.now).symbols symbol).of_type }
{
    if symbol >= program.symbols.len() {
        return 0;
    }
    program.symbols.get(symbol).of_type
}
