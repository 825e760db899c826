use mc_base::Text;

/// A name with its module and the number of its arguments; a function's result doesn't count.
#[derive(Debug, PartialEq, Eq, Drop)]
pub struct Name {
    pub module: Text,
    pub name: Text,
    pub arity: u32,
}

/// What an occurrence of a name may stand for: a constructor, a function, a predicate, each by its number, or a
/// character.
#[derive(Clone, Copy, Debug, PartialEq, Eq)]
pub enum Candidate {
    Con(u32),
    Func(u32),
    Pred(u32),
    Char(char),
}
