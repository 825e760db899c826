ghost use Rattle.std.specs.Prelude.{◌≡◌, ◌<◌, ℕ, length, map, IfOk};
ghost use Rattle.mc_program.specs.Programs.{TypeTerm, TypeTerms, union_type};
ghost use Rattle.mc_program.specs.PlainPrograms.{plain_type, type_terms};
ghost use Rattle.mc_model.specs.Types.{instance_of, type_at};
ghost use Rattle.mc_insts.specs.code.Lists.{Extends};
ghost use Rattle.mc_insts.specs.code.TypeRows.{terms, term_at, terms_at, term_of, AllBelow, KeyFits, RowOf, RowsOf, over_rows};

use crate::types::{TypeKey, TypeSet};
use mc_base::{Memory, Row};
use mc_program::ty::Ty;
use std::alloc::Global;

/// A union type whose arguments are turned into rows: those of the first ones are there, the next one is at hand.
#[derive(Drop)]
pub struct Frame<'a> {
    number: u32,
    args: &'a Row<Ty>,
    rows: Vec<u32>,
}

/// Where a climb ends: with the row of the whole type, or with a part that is at hand next.
#[derive(Drop)]
pub enum Climbed<'a> {
    Whole(u32),
    Next(&'a Ty),
}

ghost use Rattle.mc_insts.specs.code.Frames.{rebuilt, FramesFit, Climbs};

/// Goes on with the row of the part that was at hand, up to where another part is.
fn climb<'a>(
    types: &mut TypeSet,
    frames: &mut Vec<Frame<'a>>,
    r: u32,
) -> Result<Climbed<'a>, Memory>
    requires there { r < length (terms types.old) }
    requires fit { FramesFit (length (terms types.old)) frames.old.items }
    ensures extends { Extends (terms types.old) (terms types.new) }
    ensures climbed { IfOk result
        (λ c. (σ : ℕ → TypeTerm)
        → Climbs σ (rebuilt (terms types.old) σ frames.old.items (term_at (terms types.old) r))
        (terms types.new) frames.new.items c) }
{
    let mut row = r;
    while let Some(frame) = frames.pop() {
        let Frame {
            number,
            args,
            mut rows,
        } = frame;
        rows.push(row)?;
        let next = rows.len();
        if next < args.len() as usize {
            let t = args.get(next as u32);
            frames.push(Frame { number, args, rows })?;
            return Ok(Climbed::Next(t));
        }
        row = types.insert(TypeKey::Union(number, rows))?;
    }
    Ok(Climbed::Whole(row))
}

/// The same from a part that is a type without arguments.
fn leaf<'a>(
    types: &mut TypeSet,
    frames: &mut Vec<Frame<'a>>,
    key: TypeKey,
) -> Result<Climbed<'a>, Memory>
    requires key { KeyFits (length (terms types.old)) key }
    requires fit { FramesFit (length (terms types.old)) frames.old.items }
    ensures extends { Extends (terms types.old) (terms types.new) }
    ensures climbed { IfOk result
        (λ c. (σ : ℕ → TypeTerm)
        → Climbs σ (rebuilt (terms types.old) σ frames.old.items (term_of (terms types.old) key))
        (terms types.new) frames.new.items c) }
{
    let row = types.insert(key)?;
    climb(types, frames, row)
}

/// The same from a union type: its first argument is at hand next, where it has one.
fn enter<'a>(
    alloc: Global,
    types: &mut TypeSet,
    frames: &mut Vec<Frame<'a>>,
    number: u32,
    args: &'a Row<Ty>,
) -> Result<Climbed<'a>, Memory>
    requires fit { FramesFit (length (terms types.old)) frames.old.items }
    ensures extends { Extends (terms types.old) (terms types.new) }
    ensures climbed { IfOk result
        (λ c. (σ : ℕ → TypeTerm)
        → Climbs σ
        (rebuilt (terms types.old) σ frames.old.items
        (union_type number (type_terms (map (instance_of σ) (map plain_type args.now)))))
        (terms types.new) frames.new.items c) }
{
    let rows = Vec::new(alloc);
    if args.is_empty() {
        return leaf(types, frames, TypeKey::Union(number, rows));
    }
    frames.push(Frame { number, args, rows })?;
    Ok(Climbed::Next(args.get(0)))
}

/// The same from a type variable, which has a row in the environment, or is one of those behind it.
fn variable<'a>(
    types: &mut TypeSet,
    frames: &mut Vec<Frame<'a>>,
    env: &[u32],
    v: u32,
) -> Result<Climbed<'a>, Memory>
    requires env { AllBelow (length (terms types.old)) env.now }
    requires fit { FramesFit (length (terms types.old)) frames.old.items }
    ensures extends { Extends (terms types.old) (terms types.new) }
    ensures climbed { IfOk result
        (λ c. (σ : ℕ → TypeTerm)
        → Climbs σ
        (rebuilt (terms types.old) σ frames.old.items
        (type_at (terms_at (terms types.old) env.now) v))
        (terms types.new) frames.new.items c) }
{
    let place = v as usize;
    if place < env.len() {
        return climb(types, frames, env[place]);
    }
    leaf(types, frames, TypeKey::Var((place - env.len()) as u32))
}

/// The same from any type, over the rows of the environment.
fn step<'a>(
    alloc: Global,
    types: &mut TypeSet,
    frames: &mut Vec<Frame<'a>>,
    env: &[u32],
    t: &'a Ty,
) -> Result<Climbed<'a>, Memory>
    requires env { AllBelow (length (terms types.old)) env.now }
    requires fit { FramesFit (length (terms types.old)) frames.old.items }
    ensures extends { Extends (terms types.old) (terms types.new) }
    ensures climbed { IfOk result
        (λ c. (es : TypeTerms) → terms_at (terms types.old) env.now ≡ es
        → Climbs (type_at es)
        (rebuilt (terms types.old) (type_at es) frames.old.items
        (instance_of (type_at es) (plain_type t.now)))
        (terms types.new) frames.new.items c) }
{
    match t {
        Ty::Int => leaf(types, frames, TypeKey::Int),
        Ty::Char => leaf(types, frames, TypeKey::Char),
        Ty::Str => leaf(types, frames, TypeKey::Str),
        Ty::Io => leaf(types, frames, TypeKey::Io),
        Ty::Var(v) => variable(types, frames, env, *v),
        Ty::Union(number, args) => enter(alloc, types, frames, *number, args),
    }
}

/// The row of a type, in which the first type variables have the rows of the environment. It goes by a loop, so that a
/// deep type takes no stack.
pub fn row_of(alloc: Global, types: &mut TypeSet, env: &[u32], t: &Ty) -> Result<u32, Memory>
    requires { AllBelow (length (terms types.old)) env.now }
    ensures extends { Extends (terms types.old) (terms types.new) }
    ensures row { IfOk result (λ r. RowOf (terms types.new) r (over_rows (terms types.old) env.now (plain_type t.now))) }
{
    let mut frames = Vec::new(alloc);
    let mut rest = t;
    for _ in 0..u64::MAX {
        match step(alloc, types, &mut frames, env, rest)? {
            Climbed::Whole(r) => return Ok(r),
            Climbed::Next(part) => rest = part,
        }
    }
    Err(Memory)
}

/// The rows of types.
pub fn rows_of(
    alloc: Global,
    types: &mut TypeSet,
    env: &[u32],
    args: &[Ty],
) -> Result<Row<u32>, Memory>
    requires { AllBelow (length (terms types.old)) env.now }
    ensures extends { Extends (terms types.old) (terms types.new) }
    ensures rows { IfOk result
        (λ rows. RowsOf (terms types.new) rows
        (map (over_rows (terms types.old) env.now) (map plain_type args.now))) }
{
    let mut rows = Vec::new(alloc);
    for t in args {
        rows.push(row_of(alloc, types, env, t)?)?;
    }
    Row::of(rows)
}
