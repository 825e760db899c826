use mc_base::{Row, Text};

/// A token of an item as the reader of terms sees it. What starts a term has its line, counted from
/// 1.
#[derive(Debug, Drop)]
pub enum Lexeme {
    /// A name; whether it stands in quotes; the line.
    Word(Text, bool, u32),
    /// The parts of a qualified name, two or more, the last part last.
    Path(Row<Text>, u32),
    Var(Text, u32),
    /// A number, at most 2^63 where it was read from a text.
    Int(u64, u32),
    /// The bytes that a string stands for.
    Str(Text, u32),
    Open(u32),
    /// A bracket directly behind a name.
    OpenCt(u32),
    Close,
    ListOpen(u32),
    ListClose,
    Bar,
    Comma,
    /// A dot that joins no parts of a name.
    Dot,
}
