ghost use Rattle.std.specs.Prelude.{◌↔◌, IsTrue, map};
ghost use Rattle.mc_program.specs.PlainPrograms.{plain_program};
ghost use Rattle.mc_model.specs.Lists.{In};
ghost use Rattle.mc_builtins.specs.Answers.{known};
ghost use Rattle.mc_self_check.specs.HasLibrary.{IsConstructor, HasLists, HasResults, HasMade};
ghost use Rattle.mc_self_check.specs.code.Types.{type_of, plain_types};

use crate::library_fit_types::{ITEM, ITEMS, LibraryType, LibraryTypes, are_types};
use mc_builtins::Library;
use mc_program::builtin::Builtin;
use mc_program::program::Program;

/// Whether the constructors of what a builtin makes are declared as the language declares them.
pub(crate) fn has_made(library: &Library<'_>, types: LibraryTypes, builtin: Builtin) -> bool
    ensures { IsTrue result
        ↔ HasMade library.now.program.now (known library.now) (plain_types types) builtin }
{
    match builtin {
        Builtin::ToCharList => has_lists(library, types),
        Builtin::ReadLine => has_results(library, types),
        _ => true,
    }
}

fn has_lists(library: &Library<'_>, types: LibraryTypes) -> bool
    ensures { IsTrue result
        ↔ HasLists library.now.program.now (known library.now) (plain_types types) }
{
    is_constructor(library.program, library.nil, types.list, &[], types)
        && is_constructor(
            library.program,
            library.cons,
            types.list,
            &[ITEM, ITEMS],
            types,
        )
}

fn has_results(library: &Library<'_>, types: LibraryTypes) -> bool
    ensures { IsTrue result
        ↔ HasResults library.now.program.now (known library.now) (plain_types types) }
{
    is_constructor(library.program, library.ok, types.result, &[ITEM], types)
        && is_constructor(library.program, library.eof, types.result, &[], types)
}

/// Whether a symbol is a constructor of a type, over arguments of these types.
fn is_constructor(
    program: &Program,
    symbol: u32,
    of_type: u32,
    args: &[LibraryType],
    types: LibraryTypes,
) -> bool
    ensures { IsTrue result
        ↔ IsConstructor program.now symbol of_type (map (type_of (plain_types types)) args.now) }
{
    if symbol >= program.symbols.len() {
        return false;
    }
    let declared = program.symbols.get(symbol);
    declared.of_type == of_type
        && is_listed(program, symbol, of_type)
        && are_types(declared.args.as_slice(), args, types)
}

/// Whether a type lists a symbol among its constructors.
fn is_listed(program: &Program, symbol: u32, of_type: u32) -> bool
    ensures { IsTrue result ↔ In symbol ((plain_program program.now).symbols_of of_type) }
{
    of_type < program.types.len() && is_among(symbol, program.types.get(of_type).symbols.as_slice())
}

fn is_among(number: u32, numbers: &[u32]) -> bool
    ensures { IsTrue result ↔ In number numbers.now }
{
    for other in numbers {
        if *other == number {
            return true;
        }
    }
    false
}
