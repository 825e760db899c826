/// A chain of parts that is one term.
#[derive(Clone, Copy, Debug)]
pub enum Chain {
    /// A conjunction.
    And,
    /// A disjunction.
    Or,
}

/// What a token joins the term before it to.
#[derive(Clone, Copy, Debug)]
pub enum Infix {
    Nothing,
    /// An operator's number, and whether its left and its right operand are y operands.
    Binary(u32, bool, bool),
    /// The separator of a chain.
    Chains(Chain),
}

/// What a name is where a term starts.
#[derive(Clone, Copy, Debug)]
pub enum Role {
    /// The name of a compound term.
    Compound,
    /// The sign of this number.
    Negative(u64),
    /// A prefix operator's number, and the limit of its operand.
    Single(u32, u32),
    /// The number of a prefix operator that takes two operands.
    Double(u32),
    /// A name alone.
    Plain,
}
