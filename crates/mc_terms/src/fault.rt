use mc_tokens::FaultKind;

/// Why an item isn't read. Want of memory may come at any item; the others come in this order.
#[derive(Clone, Copy, Debug, PartialEq, Eq)]
pub enum ReadKind {
    /// A token of the item is faulty; this is the first such.
    Token(FaultKind),
    /// The tokens of the item are no term, or the text ends before a full stop ends them.
    NotATerm,
    /// A number is 2^63, and no minus sign stands directly before it.
    IntTooLarge,
    /// The term is nested deeper than 256.
    TooNested,
    /// There is no room for the term.
    Memory,
}

/// An item that isn't read.
#[derive(Clone, Copy, Debug, PartialEq, Eq)]
pub struct ReadFault {
    pub kind: ReadKind,
    /// The line of the fault, counted from 1: of the faulty byte, of the first number that is too
    /// large, of the place where the item begins after want of memory, else of the item's first
    /// token, also where a token is of a form that is left out.
    pub line: u32,
    /// The place in the text from which reading goes on: behind the item's end, or the text's
    /// length. After want of memory it is the place where the item begins.
    pub next: usize,
}

/// An item that isn't read, with the place of its first faulty token.
#[derive(Clone, Copy, Debug, PartialEq, Eq)]
pub struct ItemFault {
    pub fault: ReadFault,
    /// The place of the faulty byte in the text; where no token is faulty, the place where the item
    /// begins.
    pub at: usize,
}
