use mc_program::builtin::Builtin;
use mc_program::value::Value;

/// A part of one of the lists of a code: where it starts, and how many elements it has.
#[derive(Clone, Copy)]
pub struct Span {
    pub start: u32,
    pub count: u32,
}

/// One goal of a body, with the places where it goes on. Places are lower than its own; variables, procedures and
/// symbols are those of the goal that it was made from.
#[derive(Clone, Copy)]
pub enum Instr {
    /// The end of a body, of a condition, of a negated or a pruned goal: an answer.
    Done,
    /// No answer.
    Fail,
    /// Two variables meet, and then a place.
    Same(u32, u32, u32),
    /// A variable meets a constructor, by its symbol, over the variables of a part, and then a place.
    Made(u32, u32, Span, u32),
    /// A variable meets a constant, by its place among the values, and then a place.
    Constant(u32, u32, u32),
    /// Two places, one after another.
    Or(u32, u32),
    /// A condition, where it goes on after each of its answers, and where it goes on if there is none.
    If(u32, u32, u32),
    /// A negated goal, and then a place.
    Not(u32, u32),
    /// A pruned goal, and then a place.
    Once(u32, u32),
    /// A procedure, its arguments as a part of the variables, whether it is a last call, and then a place.
    Call(u32, Span, bool, u32),
    /// A builtin, its inputs and its outputs as parts of the variables, and then a place.
    Apply(Builtin, Span, Span, u32),
    /// A variable, a part of the branches, and where it goes on if the variable is unbound or fits several of them.
    Case(u32, Span, u32),
}

/// What a branch is for: a constructor, by its symbol, or a constant, by its place among the values.
#[derive(Clone, Copy)]
pub enum Key {
    Symbol(u32),
    Constant(u32),
}

/// Where a branch of a `Case` goes on, and what it is for.
#[derive(Clone, Copy)]
pub struct Branch {
    pub key: Key,
    pub place: u32,
}

/// Flat code: its goals by their places, and the lists that they name parts of. Place 0 is `Done`.
#[derive(Drop)]
pub struct Code {
    pub instrs: Vec<Instr>,
    pub variables: Vec<u32>,
    pub values: Vec<Value>,
    pub branches: Vec<Branch>,
}

/// The code of a procedure: the place where its body begins, its head variables with the insts that they have at a call
/// and at an answer, as parts of the variables, and how many variables it has.
#[derive(Clone, Copy)]
pub struct Body {
    pub entry: u32,
    pub head: Span,
    pub first: Span,
    pub last: Span,
    pub size: u32,
}

/// The code of a program's procedures, by their numbers.
#[derive(Drop)]
pub struct FlatProgram {
    pub code: Code,
    pub bodies: Vec<Body>,
}
