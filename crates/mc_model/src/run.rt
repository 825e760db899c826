use mc_base::{Row, Text};
use mc_program::value::Value;

/// How many calls a run may make, and how high its calls may stand.
#[derive(Clone, Copy, Debug, PartialEq, Eq)]
pub struct Limits {
    pub budget: u32,
    pub depth: u32,
}

/// An exception: a zero divisor, or the text of `error`.
#[derive(Debug, PartialEq, Eq, Drop)]
pub enum Exception {
    ZeroDivide,
    Error(Text),
}

/// Why a run stops before its end.
#[derive(Debug, PartialEq, Eq, Drop)]
pub enum Stop {
    Budget,
    TooDeep,
    Throw(Exception),
}

/// An event of a run: a call of a procedure, a text written, an answer, or a reading from an input byte on.
#[derive(Drop)]
pub enum Item {
    Call(u32),
    Wrote(Text),
    Answer(Row<Value>),
    Read(u64),
}

/// What a run gives next: an answer, a text written, its end, or the input byte from which it wants a line.
#[derive(Drop)]
pub enum Step {
    Answer(Row<Value>),
    Wrote(Text),
    End,
    Stopped(Stop),
    Wants(u64),
}

/// What a run is fed where it wants input: a line with its line end, the input's end, or that the line is too long.
#[derive(Debug, PartialEq, Eq, Drop)]
pub enum Input {
    Line(Text),
    End,
    TooLong,
}
