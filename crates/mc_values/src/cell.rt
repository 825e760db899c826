ghost use Rattle.std.specs.Prelude.{◌≡◌, ◌<◌, ◌^◌, length, IfOk};
ghost use Rattle.mc_values.specs.code.Cells.{args_of, refs_of};

use crate::heap::Ref;
use mc_base::{Memory, Row, Text};
use std::alloc::Global;

/// What a Ref names: a value that has no arguments, or a constructor with the Refs of its arguments. A cell takes 32
/// bytes; what is larger stands in a box.
#[derive(Drop)]
pub enum Cell {
    Int(i64),
    Char(char),
    Text(Text),
    Io(Box<State>),
    Con(u32, Args),
}

/// A state of io: the state before it, whose bytes are written first, the bytes written after those, and the number of
/// input bytes taken so far.
#[derive(Drop)]
pub struct State {
    pub before: Option<Ref>,
    pub added: Text,
    pub taken: u64,
}

/// The Refs of a constructor's arguments. One or two of them, as a list's cell has, stand in the cell itself.
#[derive(Drop)]
pub enum Args {
    None,
    One([Ref; 1]),
    Two([Ref; 2]),
    More(Box<Row<Ref>>),
}

impl Cell {
    /// The Refs of the arguments, in order.
    pub fn args(&self) -> &[Ref]
        ensures refs { result.now ≡ args_of self.now }
        ensures small { length result.now < 2 ^ 32 }
    {
        match self {
            Cell::Con(_, args) => args.refs(),
            _ => &[],
        }
    }
}

impl Args {
    /// These Refs. 2^32 or more of them find no room.
    pub fn new(alloc: Global, refs: &[Ref]) -> Result<Args, Memory>
        ensures { IfOk result (λ args. refs_of args ≡ refs.now) }
    {
        match refs {
            [] => Ok(Args::None),
            [a] => Ok(Args::One([*a])),
            [a, b] => Ok(Args::Two([*a, *b])),
            _ => {
                let row = Row::of(Vec::from_slice(alloc, refs)?)?;
                Ok(Args::More(Box::new(alloc, row)?))
            }
        }
    }

    /// The Refs, in order.
    pub fn refs(&self) -> &[Ref]
        ensures refs { result.now ≡ refs_of self.now }
        ensures small { length result.now < 2 ^ 32 }
    {
        match self {
            Args::None => &[],
            Args::One(refs) => refs,
            Args::Two(refs) => refs,
            Args::More(refs) => refs.as_slice(),
        }
    }
}
