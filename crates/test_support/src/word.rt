use mc_program::builtin::Builtin;

/// A goal that is written out. Variables, procedures and symbols are numbers.
#[derive(Clone, Copy)]
pub enum Word {
    /// Two variables that are one.
    Same(u32, u32),
    /// A variable that is an integer.
    Int(u32, i64),
    /// A variable that is a string.
    Text(u32, &'static str),
    /// A variable that is a constructor, by its symbol, over others.
    Made(u32, u32, &'static [u32]),
    /// A call of a procedure with its arguments.
    Call(u32, &'static [u32]),
    /// A builtin with its inputs and its outputs.
    Apply(Builtin, &'static [u32], &'static [u32]),
    /// So many goals before it, one after another.
    All(usize),
    /// So many goals before it, one or another.
    Any(usize),
    /// So many goals before it as the arms of a switch on a variable, for the symbols from 0 on.
    Switch(u32, usize),
    /// The three goals before it: a condition, what follows it, and what is done else.
    If,
    /// The goal before it, negated.
    Not,
    /// The goal before it, pruned to its first answer.
    Once,
}

/// A procedure that is written out: how many variables it has, which of them its arguments are, for each argument whether
/// it is an input (1) or an output (0), and its body.
#[derive(Clone, Copy)]
pub struct Written {
    pub variables: u32,
    pub head: &'static [u32],
    pub inputs: &'static [u32],
    pub body: &'static [Word],
}
