ghost use Rattle.std.specs.Prelude.{◌≡◌, map, IfOk};
ghost use Rattle.std.specs.Option.{option_map};
ghost use Rattle.mc_program.specs.Programs.{union_type};
ghost use Rattle.mc_program.specs.PlainPrograms.{plain_type, type_terms};
ghost use Rattle.mc_model.specs.Types.{type_at, instance_of};
ghost use Rattle.mc_type_table.specs.Expanded.{replaced, defined_as};
ghost use Rattle.mc_type_table.specs.Held.{held};

use mc_base::{Memory, Row};
use mc_program::ty::Ty;
use std::alloc::Global;

/// How deep a type may be nested that is written out.
const MOST_LEVELS: u32 = 4096;

/// How many parts types may have that are still written out.
#[derive(Drop)]
pub struct SizeBudget {
    pub parts: u32,
}

impl SizeBudget {
    // One part less, at a level.
    fn take(&mut self, levels: u32) -> Result<(), Memory> {
        if self.parts == 0 || levels == 0 {
            return Err(Memory);
        }
        self.parts -= 1;
        Ok(())
    }
}

/// A type, with the body of its definition for each type that has one, its arguments too. A type that is nested more
/// than 4,096 deep, or for whose parts there is no room, is want of memory.
pub fn with_definitions(
    alloc: Global,
    definitions: &[Option<Ty>],
    t: &Ty,
    room: &mut SizeBudget,
) -> Result<Ty, Memory>
    ensures { IfOk result (λ r. plain_type r ≡ replaced (held definitions.now) (plain_type t.now)) }
{
    replaced(alloc, definitions, t, room, MOST_LEVELS)
}

#[cycle(replaced)]
fn replaced(
    alloc: Global,
    definitions: &[Option<Ty>],
    t: &Ty,
    room: &mut SizeBudget,
    levels: u32,
) -> Result<Ty, Memory>
    ensures { IfOk result (λ r. plain_type r ≡ replaced (held definitions.now) (plain_type t.now)) }
{
    room.take(levels)?;
    match t {
        Ty::Int => Ok(Ty::Int),
        Ty::Char => Ok(Ty::Char),
        Ty::Str => Ok(Ty::Str),
        Ty::Io => Ok(Ty::Io),
        Ty::Var(v) => Ok(Ty::Var(*v)),
        Ty::Union(number, arguments) => {
            union_replaced(
                alloc,
                definitions,
                *number,
                arguments.as_slice(),
                room,
                levels,
            )
        }
    }
}

#[cycle(replaced)]
fn union_replaced(
    alloc: Global,
    definitions: &[Option<Ty>],
    number: u32,
    arguments: &[Ty],
    room: &mut SizeBudget,
    levels: u32,
) -> Result<Ty, Memory>
    ensures { IfOk result
        (λ r.
        plain_type r
        ≡ replaced (held definitions.now)
        (union_type number (type_terms (map plain_type arguments.now)))) }
{
    let arguments = all_replaced(alloc, definitions, arguments, room, levels)?;
    defined_as(alloc, definitions, number, arguments, room)
}

#[cycle(replaced)]
fn all_replaced(
    alloc: Global,
    definitions: &[Option<Ty>],
    types: &[Ty],
    room: &mut SizeBudget,
    levels: u32,
) -> Result<Row<Ty>, Memory>
    ensures { IfOk result
        (λ rs.
        map plain_type rs
        ≡ map (λ t. replaced (held definitions.now) (plain_type t)) types.now) }
{
    let mut all = Vec::new(alloc);
    for t in types {
        let levels = levels.saturating_sub(1);
        all.push(replaced(alloc, definitions, t, room, levels)?)?;
    }
    Row::of(all)
}

// A type over arguments, by its definition where it has one.
fn defined_as(
    alloc: Global,
    definitions: &[Option<Ty>],
    number: u32,
    arguments: Row<Ty>,
    room: &mut SizeBudget,
) -> Result<Ty, Memory>
    ensures { IfOk result
        (λ r.
        plain_type r
        ≡ defined_as number (type_terms (map plain_type arguments)) (held definitions.now number)) }
{
    match definition_of(definitions, number) {
        Some(body) => instance(alloc, &arguments, body, room, MOST_LEVELS),
        None => Ok(Ty::Union(number, arguments)),
    }
}

// The definition of the type of a number.
pub fn definition_of(definitions: &[Option<Ty>], number: u32) -> Option<&Ty>
    ensures { option_map (λ t. plain_type t.now) result ≡ held definitions.now number }
{
    match definitions.get(number as usize) {
        Some(Some(body)) => Some(body),
        Some(None) => None,
        None => None,
    }
}

// A type with types for its variables.
#[cycle(instance)]
fn instance(
    alloc: Global,
    arguments: &Row<Ty>,
    t: &Ty,
    room: &mut SizeBudget,
    levels: u32,
) -> Result<Ty, Memory>
    ensures { IfOk result
        (λ r.
        plain_type r
        ≡ instance_of (type_at (type_terms (map plain_type arguments.now))) (plain_type t.now)) }
{
    room.take(levels)?;
    match t {
        Ty::Int => Ok(Ty::Int),
        Ty::Char => Ok(Ty::Char),
        Ty::Str => Ok(Ty::Str),
        Ty::Io => Ok(Ty::Io),
        Ty::Var(v) => argument(alloc, arguments.as_slice(), *v, room, levels),
        Ty::Union(number, types) => {
            let types = instances(alloc, arguments, types.as_slice(), room, levels)?;
            Ok(Ty::Union(*number, types))
        }
    }
}

#[cycle(instance)]
fn instances(
    alloc: Global,
    arguments: &Row<Ty>,
    types: &[Ty],
    room: &mut SizeBudget,
    levels: u32,
) -> Result<Row<Ty>, Memory>
    ensures { IfOk result
        (λ rs.
        map plain_type rs
        ≡ map
        (λ t. instance_of (type_at (type_terms (map plain_type arguments.now))) (plain_type t))
        types.now) }
{
    let mut all = Vec::new(alloc);
    for t in types {
        let levels = levels.saturating_sub(1);
        all.push(instance(alloc, arguments, t, room, levels)?)?;
    }
    Row::of(all)
}

// The argument at the place of a variable. (Past the arguments variables are numbered from 0 again; in a definition none
// is there.)
#[tactic(auto, using(crate::proofs::Replacing::type_at_place, crate::proofs::Replacing::type_at_none))]
fn argument(
    alloc: Global,
    arguments: &[Ty],
    v: u32,
    room: &mut SizeBudget,
    levels: u32,
) -> Result<Ty, Memory>
    ensures { IfOk result
        (λ r. plain_type r ≡ type_at (type_terms (map plain_type arguments.now)) v) }
{
    if v as usize >= arguments.len() {
        return Ok(Ty::Var(v - arguments.len() as u32));
    }
    copied(alloc, &arguments[v as usize], room, levels)
}

#[cycle(copied)]
fn copied(alloc: Global, t: &Ty, room: &mut SizeBudget, levels: u32) -> Result<Ty, Memory>
    ensures { IfOk result (λ copy. copy ≡ t.now) }
{
    room.take(levels)?;
    match t {
        Ty::Int => Ok(Ty::Int),
        Ty::Char => Ok(Ty::Char),
        Ty::Str => Ok(Ty::Str),
        Ty::Io => Ok(Ty::Io),
        Ty::Var(v) => Ok(Ty::Var(*v)),
        Ty::Union(number, arguments) => {
            let arguments = all_copied(alloc, arguments.as_slice(), room, levels)?;
            Ok(Ty::Union(*number, arguments))
        }
    }
}

#[cycle(copied)]
fn all_copied(
    alloc: Global,
    types: &[Ty],
    room: &mut SizeBudget,
    levels: u32,
) -> Result<Row<Ty>, Memory>
    ensures { IfOk result (λ copy. copy ≡ types.now) }
{
    let mut all = Vec::new(alloc);
    for t in types {
        let levels = levels.saturating_sub(1);
        all.push(copied(alloc, t, room, levels)?)?;
    }
    Row::of(all)
}
