ghost use Rattle.std.specs.Prelude.{◌≡◌, [], ◌∷◌, ◌++◌, ◌&&◌, ◌||◌, map, IfOk, OnOk, if◌then◌else◌};
ghost use Rattle.mc_program.specs.PlainPrograms.{plain_type, type_terms};
ghost use Rattle.mc_type_table.specs.Rules.{types_in, all_types_in, is_closed, are_closed, is_variable, are_plain};
ghost use Rattle.mc_type_table.specs.code.Grown.{grown_in, all_grown_in};

use mc_base::Memory;
use mc_program::ty::Ty;

/// Puts in the types that stand in a type, by their numbers. It takes stack for each level of the type.
///
/// # Errors
///
/// `Memory` where there is no room.
#[cycle(types_in)]
pub fn put_types_in(t: &Ty, numbers: &mut Vec<u32>) -> Result<(), Memory>
    ensures { OnOk result (numbers.new.items ≡ numbers.old.items ++ types_in (plain_type t.now)) }
{
    match t {
        Ty::Union(number, arguments) => {
            numbers.push(*number)?;
            put_all_types_in(arguments.as_slice(), numbers)
        }
        Ty::Int => Ok(()),
        Ty::Char => Ok(()),
        Ty::Str => Ok(()),
        Ty::Io => Ok(()),
        Ty::Var(_) => Ok(()),
    }
}

#[cycle(types_in)]
#[tactic(auto, using(crate::proofs::TypesInTypes::types_more))]
fn put_all_types_in(types: &[Ty], numbers: &mut Vec<u32>) -> Result<(), Memory>
    ensures { OnOk result
        (numbers.new.items
        ≡ numbers.old.items ++ all_types_in (type_terms (map plain_type types.now))) }
{
    for t in types {
        put_types_in(t, numbers)?;
    }
    Ok(())
}

// Whether each of some arguments is without type variables, and whether each is so or a type variable.
#[derive(Clone, Copy)]
struct Arguments {
    are_closed: bool,
    are_plain: bool,
}

impl Arguments {
    // With one more argument, which is without type variables or not.
    fn with(self, t: &Ty, is_closed: bool) -> Arguments
        ensures closed { result.are_closed ≡ (self.are_closed && is_closed) }
        ensures plain { result.are_plain
            ≡ (self.are_plain && (is_variable (plain_type t.now) || is_closed)) }
    {
        Arguments {
            are_closed: self.are_closed && is_closed,
            are_plain: self.are_plain && (is_variable(t) || is_closed),
        }
    }
}

fn is_variable(t: &Ty) -> bool
    ensures { result ≡ is_variable (plain_type t.now) }
{
    match t {
        Ty::Var(_) => true,
        Ty::Int => false,
        Ty::Char => false,
        Ty::Str => false,
        Ty::Io => false,
        Ty::Union(_, _) => false,
    }
}

/// Puts in those types that stand in a type over an argument that is neither a type variable nor without type variables,
/// and tells whether the type itself is without type variables. It takes stack for each level of the type.
///
/// # Errors
///
/// `Memory` where there is no room.
#[cycle(grown)]
pub fn put_grown(t: &Ty, grown: &mut Vec<u32>) -> Result<bool, Memory>
    ensures closed { IfOk result (λ b. b ≡ is_closed (plain_type t.now)) }
    ensures grown { OnOk result
        (grown.new.items ≡ grown.old.items ++ grown_in (plain_type t.now)) }
{
    match t {
        Ty::Union(number, arguments) => {
            let arguments = put_all_grown(arguments.as_slice(), grown)?;
            put_where(!arguments.are_plain, *number, grown)?;
            Ok(arguments.are_closed)
        }
        Ty::Var(_) => Ok(false),
        Ty::Int => Ok(true),
        Ty::Char => Ok(true),
        Ty::Str => Ok(true),
        Ty::Io => Ok(true),
    }
}

fn put_where(is_wanted: bool, number: u32, numbers: &mut Vec<u32>) -> Result<(), Memory>
    ensures { OnOk result
        (numbers.new.items
        ≡ numbers.old.items ++ (if is_wanted then number ∷ [] else [])) }
{
    if is_wanted {
        numbers.push(number)?;
    }
    Ok(())
}

#[cycle(grown)]
#[tactic(auto, using(crate::proofs::TypesInTypes::grown_more, crate::proofs::TypesInTypes::closed_more, crate::proofs::TypesInTypes::plain_more))]
fn put_all_grown(types: &[Ty], grown: &mut Vec<u32>) -> Result<Arguments, Memory>
    ensures closed { IfOk result
        (λ a. a.are_closed ≡ are_closed (type_terms (map plain_type types.now))) }
    ensures plain { IfOk result
        (λ a. a.are_plain ≡ are_plain (type_terms (map plain_type types.now))) }
    ensures grown { OnOk result
        (grown.new.items
        ≡ grown.old.items ++ all_grown_in (type_terms (map plain_type types.now))) }
{
    let mut arguments = Arguments {
        are_closed: true,
        are_plain: true,
    };
    for t in types {
        let is_closed = put_grown(t, grown)?;
        arguments = arguments.with(t, is_closed);
    }
    Ok(arguments)
}
