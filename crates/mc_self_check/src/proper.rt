ghost use Rattle.std.specs.Prelude.{◌≡◌, ◌↔◌, Some, IsTrue, map};
ghost use Rattle.mc_program.specs.PlainPrograms.{plain_type};
ghost use Rattle.mc_accepted.specs.ProperTypes.{Below, EachBelow, ProperType, EachProper};
ghost use Rattle.mc_procs.specs.Procedures.{parameters_in};

use mc_program::program::Program;
use mc_program::ty::Ty;

/// Whether the variables of a type are below a number.
#[cycle(below)]
pub(crate) fn is_below(top: u32, t: &Ty) -> bool
    ensures { IsTrue result ↔ Below top (plain_type t.now) }
{
    match t {
        Ty::Int => true,
        Ty::Char => true,
        Ty::Str => true,
        Ty::Io => true,
        Ty::Var(v) => *v < top,
        Ty::Union(_, args) => all_below(top, args.as_slice()),
    }
}

#[cycle(below)]
pub(crate) fn all_below(top: u32, types: &[Ty]) -> bool
    ensures { IsTrue result ↔ EachBelow top (map plain_type types.now) }
{
    for t in types {
        if !is_below(top, t) {
            return false;
        }
    }
    true
}

/// Whether a type is well formed: each union in it has as many arguments as it is declared with.
#[cycle(proper)]
pub(crate) fn is_proper(program: &Program, t: &Ty) -> bool
    ensures { IsTrue result ↔ ProperType (parameters_in program.now) (plain_type t.now) }
{
    match t {
        Ty::Int => true,
        Ty::Char => true,
        Ty::Str => true,
        Ty::Io => true,
        Ty::Var(_) => true,
        Ty::Union(u, args) => {
            has_parameters(program, *u, args.len()) && all_proper(program, args.as_slice())
        }
    }
}

#[cycle(proper)]
pub(crate) fn all_proper(program: &Program, types: &[Ty]) -> bool
    ensures { IsTrue result ↔ EachProper (parameters_in program.now) (map plain_type types.now) }
{
    for t in types {
        if !is_proper(program, t) {
            return false;
        }
    }
    true
}

/// Whether a union type is there and has that many parameters.
fn has_parameters(program: &Program, u: u32, count: u32) -> bool
    ensures { IsTrue result ↔ (parameters_in program.now u ≡ Some count) }
{
    u < program.types.len() && program.types.get(u).params == count
}
