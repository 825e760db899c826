use crate::infixes::Chain;
use crate::reading::{Reading, Readings};
use mc_base::{Row, Text};

// A term with its number, and the number up to which its last operand was read (0 where it ends in
// no operand).
#[derive(Drop)]
pub struct Part {
    pub reading: Reading,
    pub number: u32,
    pub reach: u32,
}

// The context of a part: whether a comma ends it, and the greatest number of an operator in it.
#[derive(Clone, Copy, Debug)]
pub struct Context {
    pub commas: bool,
    pub limit: u32,
}

impl Context {
    // An argument or an element.
    pub const ARGUMENT: Context = Context {
        commas: true,
        limit: 1200,
    };

    // An item, or the inside of brackets.
    pub const WHOLE: Context = Context {
        commas: false,
        limit: 1200,
    };
}

// An operator, with the line of its term.
#[derive(Debug, Drop)]
pub struct Operator {
    pub line: u32,
    pub name: Row<Text>,
    pub number: u32,
}

// What a row of parts is for.
#[derive(Debug, Drop)]
pub enum Series {
    // The arguments of a name.
    Arguments(Row<Text>),
    Elements,
    Chained(Chain),
}

// What waits for a part. Each frame ends with the context outside it.
#[derive(Drop)]
pub enum Frame {
    // An infix operator with its left operand, for a right one up to a number.
    Right(Operator, u32, Reading, Context),
    // A prefix operator, for its operand up to a number.
    Operand(Operator, u32, Context),
    // A prefix operator of two operands, for the first.
    First(Operator, Context),
    // The same with its first operand, for the second.
    Second(Operator, Reading, Context),
    // A bracket on a line.
    Paren(u32, Context),
    // A row of parts with its line and the parts before, for a further one.
    Parts(Series, u32, Readings, Context),
    // A list with its line and its elements, for what follows its bar.
    Tail(u32, Readings, Context),
}

// What the reader does next.
#[derive(Drop)]
pub enum ParserPhase {
    // A part starts.
    Start(Context),
    // A part is read.
    Done(Context, Part),
    // The tokens are a term.
    Yes(Part),
    // They are none.
    No,
}

// The frames that wait, the top one last, and the place of the next token.
#[derive(Drop)]
pub struct ParserStack {
    pub stack: Vec<Frame>,
    pub at: usize,
}

#[derive(Drop)]
pub struct Machine {
    pub phase: ParserPhase,
    pub parser: ParserStack,
}

// What stands next.
#[derive(Clone, Copy, Debug, PartialEq, Eq)]
pub enum Mark {
    Nothing,
    Close,
    ListClose,
    Bar,
    Comma,
    OpenCt,
    Other,
}
