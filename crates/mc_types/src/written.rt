ghost use Rattle.std.specs.Prelude.{◌≡◌, ◌<◌, ◌≤◌, ◌+◌, ◌^◌, ℕ, [], ◌∷◌, ◌++◌, length, map, take, IfOk};
ghost use Rattle.mc_program.specs.PlainPrograms.{plain_type, type_terms};
ghost use Rattle.mc_types.specs.Holds.{InOrder};
ghost use Rattle.mc_types.specs.Placed.{Apart, IsTypeAt, IsTypeOf};
ghost use Rattle.mc_types.specs.Trees.{applied, of_name};

use crate::{Cell, Graph, TypeName, root};
use mc_base::{Memory, Row};
use mc_program::ty::Ty;
use std::alloc::Global;

/// A name with no arguments.
fn named(alloc: Global, name: TypeName) -> Ty
    ensures { plain_type result ≡ of_name name }
{
    match name {
        TypeName::Int => Ty::Int,
        TypeName::Char => Ty::Char,
        TypeName::Str => Ty::Str,
        TypeName::Io => Ty::Io,
        TypeName::Union(number) => Ty::Union(number, Row::new(alloc)),
    }
}

/// A union type with one argument more.
fn with_argument(ty: Ty, arg: Ty) -> Result<Ty, Memory>
    ensures { IfOk result (λ made. plain_type made ≡ applied (plain_type ty) (plain_type arg)) }
{
    let number = match &ty {
        Ty::Union(number, _) => *number,
        Ty::Int => return Ok(Ty::Int),
        Ty::Char => return Ok(Ty::Char),
        Ty::Str => return Ok(Ty::Str),
        Ty::Io => return Ok(Ty::Io),
        Ty::Var(k) => return Ok(Ty::Var(*k)),
    };
    match ty.into_args() {
        None => unreachable!(),
        Some(mut args) => {
            if args.len() == u32::MAX {
                return Err(Memory);
            }
            args.push(arg)?;
            Ok(Ty::Union(number, args))
        }
    }
}

/// The type at a place. One that is nested deeper than the depth, or has more parts than the budget, counts as one
/// that finds no room.
pub fn write_type(
    alloc: Global,
    g: &Graph,
    vars: u32,
    at: usize,
    depth: usize,
    budget: &mut usize,
) -> Result<Ty, Memory>
    requires place { at < length g.now.cells.items }
    requires in_order { InOrder g.now.cells.items }
    requires apart { Apart vars g.now.cells.items }
    ensures { IfOk result (λ ty. IsTypeAt g.now.cells.items at (plain_type ty)) }
{
    if depth == 0 || *budget == 0 {
        return Err(Memory);
    }
    *budget -= 1;
    let at = root(g, at);
    match g.cells[at] {
        Cell::Free => Ok(Ty::Var(at as u32)),
        Cell::Same(_) => unreachable!(),
        Cell::Named(name) => Ok(named(alloc, name)),
        Cell::Rigid(k) => Ok(Ty::Var(k)),
        Cell::App(f, x) => {
            let left = write_type(alloc, g, vars, f, depth - 1, budget)?;
            let right = write_type(alloc, g, vars, x, depth - 1, budget)?;
            Ok(with_argument(left, right)?)
        }
    }
}

/// A type under the types of a graph's first places. One that is nested deeper than the depth, or has more parts than
/// the budget, counts as one that finds no room.
pub fn resolve_type(
    alloc: Global,
    g: &Graph,
    vars: u32,
    ty: &Ty,
    depth: usize,
    budget: &mut usize,
) -> Result<Ty, Memory>
    requires room { vars ≤ length g.now.cells.items }
    requires in_order { InOrder g.now.cells.items }
    requires apart { Apart vars g.now.cells.items }
    ensures { IfOk result
        (λ made. IsTypeOf vars g.now.cells.items (plain_type ty.now) (plain_type made)) }
{
    if depth == 0 || *budget == 0 {
        return Err(Memory);
    }
    *budget -= 1;
    match ty {
        Ty::Int => Ok(Ty::Int),
        Ty::Char => Ok(Ty::Char),
        Ty::Str => Ok(Ty::Str),
        Ty::Io => Ok(Ty::Io),
        Ty::Var(k) => {
            if *k < vars {
                Ok(write_type(alloc, g, vars, *k as usize, depth, budget)?)
            } else {
                Ok(Ty::Var(*k))
            }
        }
        Ty::Union(number, args) => {
            let args = args.as_slice();
            let mut made = Row::new(alloc);
            for arg in args {
                made.push(resolve_type(alloc, g, vars, arg, depth - 1, budget)?)?;
            }
            Ok(Ty::Union(*number, made))
        }
    }
}
