ghost use Rattle.std.specs.Prelude.{◌≡◌, ◌↔◌, IsTrue, map};
ghost use Rattle.mc_program.specs.PlainPrograms.{plain_type, type_terms};
ghost use Rattle.mc_model.specs.Types.{instance_of, type_at};

use mc_program::ty::{Ty, same_type};

/// Whether a type is a pattern with these arguments for its variables.
#[cycle(instance)]
pub(crate) fn is_instance(args: &[Ty], pattern: &Ty, t: &Ty) -> bool
    ensures { IsTrue result
        ↔ (plain_type t.now
        ≡ instance_of (type_at (type_terms (map plain_type args.now))) (plain_type pattern.now)) }
{
    match pattern {
        Ty::Int => same_type(t, pattern),
        Ty::Char => same_type(t, pattern),
        Ty::Str => same_type(t, pattern),
        Ty::Io => same_type(t, pattern),
        Ty::Var(v) => is_argument(args, *v, t),
        Ty::Union(u, patterns) => match t {
            Ty::Union(w, types) => {
                u == w && are_instances(args, patterns.as_slice(), types.as_slice())
            }
            _ => false,
        },
    }
}

#[cycle(instance)]
fn are_instances(args: &[Ty], patterns: &[Ty], types: &[Ty]) -> bool
    ensures { IsTrue result
        ↔ (map plain_type types.now
        ≡ map (instance_of (type_at (type_terms (map plain_type args.now)))) (map plain_type patterns.now)) }
{
    if types.len() != patterns.len() {
        return false;
    }
    for place in 0..types.len() {
        if !is_instance(args, &patterns[place], &types[place]) {
            return false;
        }
    }
    true
}

/// Whether a type is the argument of a number; past the last one the arguments are variables, counted from 0.
fn is_argument(args: &[Ty], number: u32, t: &Ty) -> bool
    ensures { IsTrue result
        ↔ (plain_type t.now ≡ type_at (type_terms (map plain_type args.now)) number) }
{
    if number as usize >= args.len() {
        return same_type(t, &Ty::Var(number - args.len() as u32));
    }
    same_type(t, &args[number as usize])
}
