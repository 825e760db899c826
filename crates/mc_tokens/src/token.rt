// Tokens and faults.

/// The kind of a token.
#[derive(Clone, Copy, Debug, PartialEq, Eq)]
pub enum Kind {
    /// A name without quotes: letters, symbol characters, `;`, `!`, `!.` or `!:`.
    Name,
    /// A name in single quotes.
    Quoted,
    /// A variable.
    Var,
    /// An integer of at most 2^63.
    Int(u64),
    /// A string in double quotes.
    Str,
    /// `(` that doesn't directly follow a name.
    Open,
    /// `(` directly after a name.
    OpenCt,
    /// `)`
    Close,
    /// `[`
    ListOpen,
    /// `]`
    ListClose,
    /// `|`
    Bar,
    /// `,`
    Comma,
    /// `.` between two parts of a qualified name.
    Dot,
    /// `.` at the end of an item.
    End,
    /// The text's end.
    Eof,
}

impl Kind {
    ghost use Rattle.std.specs.Prelude.{◌≡◌};
    ghost use Rattle.mc_tokens.specs.Items.{ends};

    /// Whether a token of the kind ends an item: a full stop does, and the text's end cuts it off.
    pub fn ends_item(self) -> bool
        ensures { result ≡ ends self }
    {
        matches!(self, Kind::End | Kind::Eof)
    }
}

/// A token: its kind, the places of its first byte and of the byte after it, and its bytes.
#[derive(Clone, Copy, Debug)]
pub struct Token<'a> {
    pub kind: Kind,
    pub start: usize,
    pub end: usize,
    pub text: &'a [u8],
}

/// What no token is.
#[derive(Clone, Copy, Debug, PartialEq, Eq)]
pub enum FaultKind {
    /// A byte that begins no token, or an escape that names no character.
    BadChar,
    /// A quote or a comment in which the text ends.
    Unterminated,
    /// An integer above 2^63.
    IntTooLarge,
    /// Bytes that are no UTF-8.
    NotUtf8,
    /// A token of Mercury that this project's profile leaves out.
    LeftOut,
}

/// A fault, and the place of the byte at which it stands.
#[derive(Clone, Copy, Debug, PartialEq, Eq)]
pub struct TokenFault {
    pub kind: FaultKind,
    pub at: usize,
}
