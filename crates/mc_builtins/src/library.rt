ghost use Rattle.std.specs.Prelude.{◌≡◌};
ghost use Rattle.mc_model.specs.Worlds.{library_name, symbol_number, full_names, same_name};
ghost use Rattle.mc_program.specs.PlainPrograms.{plain_name};

use mc_base::Text;
use mc_model::program::{Program, Symbol};

/// What builtins need of a program: the program itself, by whose names values are written, and the numbers of the
/// library's symbols `[]`, `[|]`, `ok` and `eof`.
#[derive(Clone, Copy)]
pub struct Library<'p> {
    pub program: &'p Program,
    pub nil: u32,
    pub cons: u32,
    pub ok: u32,
    pub eof: u32,
}

impl Library<'_> {
    ghost use Rattle.mc_builtins.specs.Answers.{known};
    ghost use Rattle.mc_model.specs.Worlds.{library_of};

    /// What builtins need of this program. It looks through the symbols once for each of the four.
    pub fn of(program: &Program) -> Library<'_>
        ensures program { result.program.now ≡ program.now }
        ensures known { known result ≡ library_of program.now }
    {
        Library {
            program,
            nil: symbol_number(program, b"list", b"[]", 0),
            cons: symbol_number(program, b"list", b"[|]", 2),
            ok: symbol_number(program, b"io", b"ok", 1),
            eof: symbol_number(program, b"io", b"eof", 0),
        }
    }
}

/// The number of the first symbol of that name, and where there is none that of symbols.
fn symbol_number(program: &Program, of_module: &[u8], name: &[u8], arity: u32) -> u32
    ensures { result
        ≡ symbol_number (library_name of_module.now name.now arity) (full_names program.now) }
{
    let mut number = 0;
    for symbol in program.symbols.as_slice() {
        if is_named(symbol, of_module, name, arity) {
            return number;
        }
        number += 1;
    }
    number
}

fn is_named(symbol: &Symbol, of_module: &[u8], name: &[u8], arity: u32) -> bool
    ensures { result
        ≡ same_name (library_name of_module.now name.now arity) (plain_name symbol.now.name) }
{
    symbol.name.module.bytes() == of_module
        && symbol.name.name.bytes() == name
        && symbol.name.arity == arity
}
