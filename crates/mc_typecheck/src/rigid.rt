ghost use Rattle.std.specs.Prelude.{◌≡◌, ◌∷◌, [], map, IfOk};
ghost use Rattle.mc_program.specs.PlainPrograms.{plain_type};
ghost use Rattle.mc_accepted.specs.MostGeneral.{variables_of, variables_of_each, rigid_count};
ghost use Rattle.mc_typecheck.specs.code.Bounds.{above};

use mc_base::Memory;
use mc_program::ty::Ty;

/// One more than the greatest type variable of types; 0 where they have none.
pub fn rigid_count(types: &[Ty]) -> Result<u32, Memory>
    ensures { IfOk result (λ count. count ≡ rigid_count (map plain_type types.now)) }
{
    let count = bound_of_types(types, 0)?;
    Ok(count)
}

/// A bound that is above the type variables of types too.
#[cycle(bounds)]
fn bound_of_types(types: &[Ty], bound: u32) -> Result<u32, Memory>
    ensures { IfOk result (λ count. count ≡ above (variables_of_each (map plain_type types.now)) bound) }
{
    let mut bound = bound;
    for next in types {
        bound = bound_of_type(next, bound)?;
    }
    Ok(bound)
}

#[cycle(bounds)]
fn bound_of_type(next: &Ty, bound: u32) -> Result<u32, Memory>
    ensures { IfOk result (λ count. count ≡ above (variables_of (plain_type next.now)) bound) }
{
    match next {
        Ty::Var(v) => bound_above(*v, bound),
        Ty::Union(_, args) => {
            let count = bound_of_types(args.as_slice(), bound)?;
            Ok(count)
        }
        Ty::Int => Ok(bound),
        Ty::Char => Ok(bound),
        Ty::Str => Ok(bound),
        Ty::Io => Ok(bound),
    }
}

/// A bound that is above a type variable too.
fn bound_above(v: u32, bound: u32) -> Result<u32, Memory>
    ensures { IfOk result (λ count. count ≡ above (v ∷ []) bound) }
{
    if v < bound {
        return Ok(bound);
    }
    match v.checked_add(1) {
        Some(count) => Ok(count),
        None => Err(Memory),
    }
}
