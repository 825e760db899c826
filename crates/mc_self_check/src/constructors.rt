//! Whether a program's constructors are such as insts ask for.

ghost use Rattle.std.specs.Prelude.{◌≡◌, ◌↔◌, IsTrue, IfOk};
ghost use Rattle.mc_program.specs.PlainPrograms.{plain_program};
ghost use Rattle.mc_insts.specs.Programs.{FitsConstructors};
ghost use Rattle.mc_self_check.specs.code.Constructors.{AritiesFit, TypeFits, functor_of, plain_functor};

use crate::functors::{Functor, FunctorSet};
use mc_base::Memory;
use mc_program::program::{Program, Symbol};
use std::alloc::Global;

/// Whether each constructor of a program has as many arguments as its name says, is of each type that lists it, and is
/// listed once there by its name with its number of arguments.
pub fn constructors_fit(alloc: Global, program: &Program) -> Result<bool, Memory>
    ensures { IfOk result (λ b. IsTrue b ↔ FitsConstructors (plain_program program.now)) }
{
    if !arities_fit(program.symbols.as_slice()) {
        return Ok(false);
    }
    for u in 0..program.types.len() {
        let fits = type_fits(alloc, program, u, program.types.get(u).symbols.as_slice())?;
        if !fits {
            return Ok(false);
        }
    }
    Ok(true)
}

fn arities_fit(symbols: &[Symbol]) -> bool
    ensures { IsTrue result ↔ AritiesFit symbols.now }
{
    for symbol in symbols {
        if symbol.name.arity != symbol.args.len() {
            return false;
        }
    }
    true
}

/// Whether these constructors are those of a type, each once.
fn type_fits(alloc: Global, program: &Program, u: u32, symbols: &[u32]) -> Result<bool, Memory>
    ensures { IfOk result (λ b. IsTrue b ↔ TypeFits (plain_program program.now) u symbols.now) }
{
    let mut listed = FunctorSet::new(alloc);
    for number in symbols {
        if type_of(program, *number) != u {
            return Ok(false);
        }
        let is_new = listed.put(functor(program, *number))?;
        if !is_new {
            return Ok(false);
        }
    }
    Ok(true)
}

/// The type of a constructor. A number that no constructor has stands for one without a name, of the first type.
fn type_of(program: &Program, number: u32) -> u32
    ensures { result ≡ ((plain_program program.now).symbols number).of_type }
{
    if number >= program.symbols.len() {
        return 0;
    }
    program.symbols.get(number).of_type
}

/// The name of a constructor with its number of arguments.
fn functor<'p>(program: &'p Program, number: u32) -> Functor<'p>
    ensures { plain_functor result ≡ functor_of (plain_program program.now) number }
{
    if number >= program.symbols.len() {
        return Functor {
            name: b"",
            arity: 0,
        };
    }
    let name = &program.symbols.get(number).name;
    Functor {
        name: name.name.bytes(),
        arity: name.arity,
    }
}
