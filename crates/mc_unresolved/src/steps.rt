use mc_source::name::Candidate;

/// A step of the walk of a clause. A term leaves its type on a stack, and a name takes those of its arguments.
#[derive(Clone, Copy)]
pub enum WalkStep<'a> {
    /// A variable
    Variable(u32),
    /// A number
    Number,
    /// A text
    Text,
    /// A name in a term, behind so many arguments
    Choose(&'a [Candidate], usize),
    /// The sides of an equation, behind both
    Equate,
    /// The name of an atom, behind so many arguments
    Call(&'a [Candidate], usize),
    /// The end of the head of a predicate, behind so many arguments
    CloseHead(u32, usize),
}
