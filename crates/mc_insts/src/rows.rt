ghost use Rattle.std.specs.Prelude.{◌≡◌, ◌<◌, ◌≤◌, ℕ, length, map, get_or, IfOk, OnOk};
ghost use Rattle.std.specs.List.Sorted.{IsPermutation, IsNonDecreasingBy};
ghost use Rattle.mc_program.specs.PlainPrograms.{plain_type, plain_program};
ghost use Rattle.mc_insts.specs.Programs.{FitsConstructors};
ghost use Rattle.mc_insts.specs.code.Lists.{Extends};
ghost use Rattle.mc_insts.specs.code.TypeRows.{terms, term_at, terms_at, AllBelow};

use crate::graph::{Case, Shape, Shapes};
use crate::intern::rows_of;
use crate::types::{TypeKey, TypeSet};
use mc_base::{Memory, Row};
use mc_program::program::Program;
use mc_program::ty::Ty;
use std::alloc::Global;

/// A constructor that a type lists, by its functor and its symbol.
#[derive(Clone, Copy)]
pub struct Constructor {
    functor: u32,
    symbol: u32,
}

ghost use Rattle.mc_insts.specs.code.Tables.{functor_of, constructor_of, arguments_of, CasesAre, Named, UnionIs, ShapeIs, ShapesAre};

/// The functor of a symbol. A number past the symbols is a constructor without a name, whose functor is 0.
pub fn functor_of(symbols: &Row<u32>, s: u32) -> u32
    ensures { result ≡ functor_of symbols.now s }
{
    if s < symbols.len() {
        *symbols.get(s)
    } else {
        0
    }
}

/// The symbols that a type lists.
fn symbols_of(program: &Program, u: u32) -> &[u32]
    ensures { result.now ≡ (plain_program program.now).symbols_of u }
{
    if u < program.types.len() {
        program.types.get(u).symbols.as_slice()
    } else {
        &[]
    }
}

/// The types of a constructor's arguments.
fn args_of(program: &Program, s: u32) -> &[Ty]
    ensures { map plain_type result.now ≡ ((plain_program program.now).symbols s).args }
{
    if s < program.symbols.len() {
        program.symbols.get(s).args.as_slice()
    } else {
        &[]
    }
}

/// The constructors that a type lists, in the order of their functors.
fn sorted_constructors(
    alloc: Global,
    program: &Program,
    symbols: &Row<u32>,
    u: u32,
) -> Result<Vec<Constructor>, Memory>
    ensures same { IfOk result
        (λ all. IsPermutation (map (constructor_of symbols.now) ((plain_program program.now).symbols_of u)) all.items) }
    ensures sorted { IfOk result (λ all. IsNonDecreasingBy (λ c. c.functor) all.items) }
{
    let mut all = Vec::new(alloc);
    let listed = symbols_of(program, u);
    for s in listed {
        all.push(Constructor {
            functor: functor_of(symbols, *s),
            symbol: *s,
        })?;
    }
    all.sort_by_key(|c| c.functor)?;
    Ok(all)
}

/// The cases of these constructors, over the rows of their type's arguments.
fn cases_of(
    alloc: Global,
    program: &Program,
    types: &mut TypeSet,
    constructors: &[Constructor],
    env: &[u32],
) -> Result<Row<Case>, Memory>
    requires { AllBelow (length (terms types.old)) env.now }
    ensures extends { Extends (terms types.old) (terms types.new) }
    ensures cases { IfOk result
        (λ cases. CasesAre (plain_program program.now) (terms types.new) (terms_at (terms types.old) env.now)
        cases constructors.now) }
{
    let mut cases = Vec::new(alloc);
    for constructor in constructors {
        let args = rows_of(alloc, types, env, args_of(program, constructor.symbol))?;
        cases.push(Case {
            functor: constructor.functor,
            args,
        })?;
    }
    Row::of(cases)
}

/// The cases of a union type, over the rows of its arguments.
fn union_cases(
    alloc: Global,
    program: &Program,
    symbols: &Row<u32>,
    types: &mut TypeSet,
    u: u32,
    env: &[u32],
) -> Result<Row<Case>, Memory>
    requires env { AllBelow (length (terms types.old)) env.now }
    requires fits { FitsConstructors (plain_program program.now) }
    requires named { Named (plain_program program.now) symbols.now }
    ensures extends { Extends (terms types.old) (terms types.new) }
    ensures union { IfOk result
        (λ cases. UnionIs (plain_program program.now) symbols.now (terms types.new) cases u
        (terms_at (terms types.old) env.now)) }
{
    let constructors = sorted_constructors(alloc, program, symbols, u)?;
    cases_of(alloc, program, types, constructors.as_slice(), env)
}

/// What a walk sees of a type, by its key.
fn shape_of(
    alloc: Global,
    program: &Program,
    symbols: &Row<u32>,
    types: &mut TypeSet,
    r: u32,
) -> Result<Shape, Memory>
    requires there { r < length (terms types.old) }
    requires fits { FitsConstructors (plain_program program.now) }
    requires named { Named (plain_program program.now) symbols.now }
    ensures extends { Extends (terms types.old) (terms types.new) }
    ensures shape { IfOk result
        (λ shape. ShapeIs (plain_program program.now) symbols.now (terms types.new) shape
        (term_at (terms types.old) r)) }
{
    let Some(key) = types.get(r) else {
        return Err(Memory);
    };
    match key {
        TypeKey::Int => Ok(Shape::Constants),
        TypeKey::Char => Ok(Shape::Constants),
        TypeKey::Str => Ok(Shape::Constants),
        TypeKey::Io => Ok(Shape::State),
        TypeKey::Var(_) => Ok(Shape::Any),
        TypeKey::Union(number, args) => {
            let number = *number;
            let args = Vec::from_slice(alloc, args.as_slice())?;
            let cases = union_cases(alloc, program, symbols, types, number, args.as_slice())?;
            Ok(Shape::Union(cases))
        }
    }
}

/// Makes the rows of all types that are there, and of those that these reach. After want of memory the rows that are
/// there are right, and a later call goes on.
pub fn complete(
    alloc: Global,
    program: &Program,
    symbols: &Row<u32>,
    types: &mut TypeSet,
    shapes: &mut Shapes,
) -> Result<(), Memory>
    requires fits { FitsConstructors (plain_program program.now) }
    requires named { Named (plain_program program.now) symbols.now }
    requires shapes { ShapesAre (plain_program program.now) symbols.now (terms types.old) shapes.old.rows }
    requires fewer { length shapes.old.rows ≤ length (terms types.old) }
    ensures extends { Extends (terms types.old) (terms types.new) }
    ensures shapes { ShapesAre (plain_program program.now) symbols.now (terms types.new) shapes.new.rows }
    ensures known { shapes.new.known ≡ shapes.old.known }
    ensures fewer { length shapes.new.rows ≤ length (terms types.new) }
    ensures whole { OnOk result (length shapes.new.rows ≡ length (terms types.new)) }
{
    while shapes.rows.len() < types.len() {
        let shape = shape_of(alloc, program, symbols, types, shapes.rows.len())?;
        shapes.rows.push(shape)?;
    }
    Ok(())
}
