ghost use Rattle.std.specs.Prelude.{◌↔◌, ◌<◌, length, map, IsTrue};
ghost use Rattle.mc_program.specs.PlainPrograms.{plain_program, plain_type};
ghost use Rattle.mc_accepted.specs.Fits.{FitsTypes};
ghost use Rattle.mc_accepted.specs.ProperTypes.{EachBelow, EachProper};
ghost use Rattle.mc_procs.specs.Procedures.{parameters_in};
ghost use Rattle.mc_self_check.specs.code.Symbols.{ArgumentsFit, SymbolFits};

use crate::listed::is_listed;
use crate::proper::{all_below, all_proper};
use mc_program::program::Program;
use mc_program::ty::Ty;

/// Whether the types of a program fit.
pub fn types_fit(program: &Program) -> bool
    ensures { IsTrue result ↔ FitsTypes (plain_program program.now) (parameters_in program.now) }
{
    for symbol in 0..program.symbols.len() {
        if !symbol_fits(program, symbol) {
            return false;
        }
    }
    true
}

/// Whether a constructor has as many arguments as its name says, and their types fit where its type lists it.
fn symbol_fits(program: &Program, number: u32) -> bool
    requires { number < length program.now.symbols }
    ensures { IsTrue result
        ↔ SymbolFits (plain_program program.now) (parameters_in program.now) number }
{
    let symbol = program.symbols.get(number);
    symbol.name.arity == symbol.args.len()
        && arguments_fit(program, number, symbol.of_type, symbol.args.as_slice())
}

/// Whether these are the types of arguments that fit the type's declaration, or it doesn't list the constructor.
fn arguments_fit(program: &Program, symbol: u32, of_type: u32, args: &[Ty]) -> bool
    ensures { IsTrue result
        ↔ ArgumentsFit (plain_program program.now) (parameters_in program.now) symbol of_type
        (map plain_type args.now) }
{
    if of_type >= program.types.len() {
        return true;
    }
    let def = program.types.get(of_type);
    all_fit(program, def.params, args) || !is_listed(def.symbols.as_slice(), symbol)
}

/// Whether types are well formed over that many parameters.
fn all_fit(program: &Program, parameters: u32, types: &[Ty]) -> bool
    ensures { IsTrue result
        ↔ (EachBelow parameters (map plain_type types.now)
        × EachProper (parameters_in program.now) (map plain_type types.now)) }
{
    all_below(parameters, types) && all_proper(program, types)
}
