ghost use Rattle.std.specs.Prelude.{◌≡◌, ℕ, List, ◌++◌, Some, false, map, slice_index_or, IfOk, OnOk};
ghost use Rattle.mc_program.specs.PlainPrograms.{plain_type};
ghost use Rattle.mc_types.specs.Trees.{of_name};
ghost use Rattle.laws_made_types.specs.Makes.{kept};
ghost use Rattle.mc_typecheck.specs.VariableTypes.{free_of, number_of, ArePlain};
ghost use Rattle.mc_typecheck.specs.code.Numbering.{Knows};
ghost use Rattle.mc_typecheck.specs.code.WrittenOut.{IsWrittenOut, IsApplied, OutSoFar, asked_for};

use crate::numbers::Numbers;
use mc_base::{Memory, Row};
use mc_program::ty::Ty;
use mc_types::{TypeName, Written};
use std::alloc::Global;

/// Types with numbers for their free places, which are above the rigid type variables, of which there are so many: the
/// types whose flag is set.
pub fn types_of(
    alloc: Global,
    written: &[Written],
    flags: &[bool],
    rigid: u32,
) -> Result<Row<Ty>, Memory>
    ensures { IfOk result (λ types.
        ArePlain rigid (kept flags.now written.now) (map plain_type types)) }
{
    let mut numbers = Numbers::new(alloc, rigid);
    let mut types = Vec::new(alloc);
    for k in 0..written.len() {
        put_type(
            alloc,
            is_set(flags, k),
            &written[k],
            &mut numbers,
            &mut types,
        )?;
    }
    Ok(Row::of(types)?)
}

/// Whether the flag at a place is set.
fn is_set(flags: &[bool], place: usize) -> bool
    ensures { result ≡ slice_index_or flags.now place false }
{
    place < flags.len() && flags[place]
}

/// Puts a type behind others, where it is asked for.
fn put_type(
    alloc: Global,
    asked: bool,
    written: &Written,
    numbers: &mut Numbers,
    types: &mut Vec<Ty>,
) -> Result<(), Memory>
    ensures { (r : ℕ) (front : List Written)
        → OutSoFar r front (map plain_type types.old.items) numbers.old
        → OnOk result (OutSoFar r (front ++ asked_for asked written.now)
        (map plain_type types.new.items) numbers.new) }
{
    if !asked {
        return Ok(());
    }
    types.push(type_of(alloc, written, numbers)?)?;
    Ok(())
}

/// A type with numbers for its free places. What is applied is a union type, and a rigid type variable is one of those
/// of the head; any other would count as one that finds no room.
#[cycle(written)]
fn type_of(alloc: Global, written: &Written, numbers: &mut Numbers) -> Result<Ty, Memory>
    ensures { (r : ℕ) (seen : List ℕ) → Knows r seen numbers.old
        → IfOk result (λ made. Knows r (seen ++ free_of written.now) numbers.new
        × IsWrittenOut r (number_of r (seen ++ free_of written.now)) written.now (plain_type made)) }
{
    match written {
        Written::Free(place) => {
            let number = numbers.number(*place)?;
            Ok(Ty::Var(number))
        }
        Written::Rigid(v) => {
            if *v >= numbers.rigid {
                return Err(Memory);
            }
            Ok(Ty::Var(*v))
        }
        Written::Named(name) => Ok(named(alloc, *name)),
        Written::App(function, argument) => {
            let function = type_of(alloc, function, numbers)?;
            let argument = type_of(alloc, argument, numbers)?;
            Ok(applied(function, argument)?)
        }
    }
}

/// The type of a name without arguments.
fn named(alloc: Global, name: TypeName) -> Ty
    ensures { plain_type result ≡ of_name name }
{
    match name {
        TypeName::Int => Ty::Int,
        TypeName::Char => Ty::Char,
        TypeName::Str => Ty::Str,
        TypeName::Io => Ty::Io,
        TypeName::Union(number) => Ty::Union(number, Row::new(alloc)),
    }
}

/// A union type with one argument more.
fn applied(function: Ty, argument: Ty) -> Result<Ty, Memory>
    ensures { IfOk result (λ made. IsApplied (plain_type function) (plain_type argument) (plain_type made)) }
{
    match &function {
        Ty::Union(number, _) => {
            let number = *number;
            over(number, function.into_args(), argument)
        }
        _ => Err(Memory),
    }
}

/// A union type over arguments and one more.
fn over(number: u32, args: Option<Row<Ty>>, last: Ty) -> Result<Ty, Memory>
    ensures { IfOk result (λ made. (all : List Ty) → args ≡ Some all
        → IsApplied (plain_type (Ty.Union number all)) (plain_type last) (plain_type made)) }
{
    match args {
        None => Err(Memory),
        Some(args) => {
            let mut args = args.into_vec();
            args.push(last)?;
            Ok(Ty::Union(number, Row::of(args)?))
        }
    }
}
