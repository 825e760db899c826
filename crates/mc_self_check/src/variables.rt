ghost use Rattle.std.specs.Prelude.{◌≡◌, ◌↔◌, IsTrue, map};
ghost use Rattle.mc_program.specs.PlainPrograms.{plain_type};
ghost use Rattle.mc_procs.specs.VariableTypes.{type_in};

use mc_program::ty::{Ty, same_type};

/// The type of a variable; `own` is that of a variable that has none there.
pub(crate) fn type_of<'a>(types: &'a [Ty], variable: u32, own: &'a Ty) -> &'a Ty
    requires { own.now ≡ Ty.Var variable }
    ensures { plain_type result.now ≡ type_in types.now variable }
{
    let place = variable as usize;
    if place < types.len() {
        &types[place]
    } else {
        own
    }
}

/// Whether a variable is of a type.
pub(crate) fn has_type(types: &[Ty], variable: u32, t: &Ty) -> bool
    ensures { IsTrue result ↔ (type_in types.now variable ≡ plain_type t.now) }
{
    let own = Ty::Var(variable);
    same_type(type_of(types, variable, &own), t)
}

/// Whether two variables are of one type.
pub(crate) fn are_alike(types: &[Ty], x: u32, y: u32) -> bool
    ensures { IsTrue result ↔ (type_in types.now x ≡ type_in types.now y) }
{
    let own = Ty::Var(y);
    has_type(types, x, type_of(types, y, &own))
}

/// Whether variables are of these types, one by one.
pub(crate) fn have_types(types: &[Ty], variables: &[u32], expected: &[Ty]) -> bool
    ensures { IsTrue result
        ↔ (map (type_in types.now) variables.now ≡ map plain_type expected.now) }
{
    if variables.len() != expected.len() {
        return false;
    }
    for place in 0..variables.len() {
        if !has_type(types, variables[place], &expected[place]) {
            return false;
        }
    }
    true
}
