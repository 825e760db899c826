ghost use Rattle.std.specs.Prelude.{◌≡◌, length, IfOk};
ghost use Rattle.mc_accepted.specs.Ordered.{modes_of, zipped};
ghost use Rattle.mc_procs.specs.Named.{NumbersBelow};
ghost use Rattle.mc_mode_state.specs.Modes.{ModeFits};
ghost use Rattle.mc_mode_state.specs.code.Shapes.{modes_by};

use crate::asking::{DEAD, FREE, GROUND, UNIQUE};
use crate::made::row_of;
use mc_base::Memory;
use mc_model::inst::{InstId, ModeDecl};
use mc_program::builtin::Builtin;
use mc_source::place::Place;
use std::alloc::Global;

/// What arguments a builtin has.
#[derive(Clone, Copy)]
enum Shape {
    /// An input.
    Test,
    /// Two inputs.
    Comparison,
    /// An input and an output.
    Unary,
    /// Two inputs and an output.
    Binary,
    /// An input and the state of io.
    Write,
    /// The state of io.
    Line,
    /// An output and the state of io.
    Read,
}

fn shape_of(op: Builtin) -> Shape
    ensures { modes_by result ≡ modes_of op }
{
    match op {
        Builtin::CharIsDigit | Builtin::Error => Shape::Test,
        Builtin::IntLess | Builtin::IntGreater | Builtin::IntAtMost | Builtin::IntAtLeast => {
            Shape::Comparison
        }
        Builtin::IntPlus
        | Builtin::IntMinus
        | Builtin::IntTimes
        | Builtin::IntQuotient
        | Builtin::IntDiv
        | Builtin::IntMod
        | Builtin::IntRem
        | Builtin::StringJoin => Shape::Binary,
        Builtin::WriteString | Builtin::WriteChar | Builtin::WriteInt | Builtin::Write => {
            Shape::Write
        }
        Builtin::Nl => Shape::Line,
        Builtin::ReadLine => Shape::Read,
        Builtin::IntNegate
        | Builtin::StringLength
        | Builtin::StringCodePoints
        | Builtin::IntToString
        | Builtin::CharToString
        | Builtin::ToCharList
        | Builtin::StringToInt
        | Builtin::CharToInt
        | Builtin::CharFromInt => Shape::Unary,
    }
}

/// A mode over builtin insts, which is of no procedure.
fn mode_over(alloc: Global, first: &[InstId], last: &[InstId]) -> Result<ModeDecl, Memory>
    requires many { length first.now ≡ length last.now }
    requires first { NumbersBelow 4 first.now }
    requires last { NumbersBelow 4 last.now }
    ensures modes { IfOk result (λ mode. zipped mode.first mode.last ≡ zipped first.now last.now) }
    ensures fits { IfOk result (ModeFits 4) }
{
    let mode = ModeDecl {
        proc: 0,
        first: row_of(alloc, first)?,
        last: row_of(alloc, last)?,
        det: None,
        at: Place { file: 0, line: 0 },
    };
    Ok(mode)
}

fn mode_by(alloc: Global, shape: Shape) -> Result<ModeDecl, Memory>
    ensures modes { IfOk result (λ mode. zipped mode.first mode.last ≡ modes_by shape) }
    ensures fits { IfOk result (ModeFits 4) }
{
    match shape {
        Shape::Test => mode_over(alloc, &[GROUND], &[GROUND]),
        Shape::Comparison => mode_over(alloc, &[GROUND, GROUND], &[GROUND, GROUND]),
        Shape::Unary => mode_over(alloc, &[GROUND, FREE], &[GROUND, GROUND]),
        Shape::Binary => mode_over(alloc, &[GROUND, GROUND, FREE], &[GROUND, GROUND, GROUND]),
        Shape::Write => mode_over(alloc, &[GROUND, UNIQUE, FREE], &[GROUND, DEAD, UNIQUE]),
        Shape::Line => mode_over(alloc, &[UNIQUE, FREE], &[DEAD, UNIQUE]),
        Shape::Read => mode_over(alloc, &[FREE, UNIQUE, FREE], &[GROUND, DEAD, UNIQUE]),
    }
}

/// The one mode of a builtin.
pub(crate) fn builtin_mode(alloc: Global, op: Builtin) -> Result<ModeDecl, Memory>
    ensures modes { IfOk result (λ mode. zipped mode.first mode.last ≡ modes_of op) }
    ensures fits { IfOk result (ModeFits 4) }
{
    let mode = mode_by(alloc, shape_of(op))?;
    Ok(mode)
}
