ghost use Rattle.std.specs.Prelude.{◌≡◌, codes, ◌∷◌, []};
ghost use Rattle.mc_items.specs.UnsupportedWords.{words, of_token};

/// What this profile leaves out, in the order of its table.
#[derive(Clone, Copy, Debug, PartialEq, Eq)]
pub enum LeftOut {
    HigherOrder,
    TypeClass,
    ExistentialType,
    Float,
    IntegerTail,
    Backquote,
    Tuple,
    NestedModule,
    GrammarRule,
    FieldAccess,
    InstFor,
    ParallelConjunction,
    Purity,
    SolverType,
    UserEquality,
    Promise,
    Initialise,
    Mutable,
    AnyInst,
    MostlyUniqueInst,
    Pragma,
    ConditionalExpression,
    ModeSpecificClause,
}

impl LeftOut {
    /// The words that the program prints for it.
    pub fn words(self) -> &'static [u8]
        ensures { result.now ≡ words self }
    {
        match self {
            LeftOut::HigherOrder => b"higher-order",
            LeftOut::TypeClass => b"type class",
            LeftOut::ExistentialType => b"existential type",
            LeftOut::Float => b"float",
            LeftOut::IntegerTail => b"integer tail",
            LeftOut::Backquote => b"backquote",
            LeftOut::Tuple => b"tuple",
            LeftOut::NestedModule => b"nested module",
            LeftOut::GrammarRule => b"grammar rule",
            LeftOut::FieldAccess => b"field access",
            LeftOut::InstFor => b"inst for",
            LeftOut::ParallelConjunction => b"parallel conjunction",
            LeftOut::Purity => b"purity",
            LeftOut::SolverType => b"solver type",
            LeftOut::UserEquality => b"user equality",
            LeftOut::Promise => b"promise",
            LeftOut::Initialise => b"initialise",
            LeftOut::Mutable => b"mutable",
            LeftOut::AnyInst => b"any inst",
            LeftOut::MostlyUniqueInst => b"mostly unique inst",
            LeftOut::Pragma => b"pragma",
            LeftOut::ConditionalExpression => b"conditional expression",
            LeftOut::ModeSpecificClause => b"mode-specific clause",
        }
    }

    /// The form that a token is, which is left out, by its first byte.
    pub fn of_token(first: u8) -> LeftOut
        ensures { result ≡ of_token first }
    {
        match first {
            b'0'..=b'9' => LeftOut::Float,
            b'`' => LeftOut::Backquote,
            b'{' | b'}' => LeftOut::Tuple,
            b'(' => LeftOut::HigherOrder,
            _ => LeftOut::IntegerTail,
        }
    }
}
