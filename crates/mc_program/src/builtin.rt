/// The predicates and functions of the library that have no clauses, in the library's order.
#[derive(Clone, Copy, Debug, PartialEq, Eq)]
pub enum Builtin {
    IntPlus,
    IntMinus,
    IntTimes,
    /// `//`, which rounds toward zero.
    IntQuotient,
    /// `div`, which rounds down.
    IntDiv,
    /// `mod`, the remainder of `div`.
    IntMod,
    /// `rem`, the remainder of `//`.
    IntRem,
    IntNegate,
    IntLess,
    IntGreater,
    IntAtMost,
    IntAtLeast,
    StringJoin,
    StringLength,
    StringCodePoints,
    IntToString,
    CharToString,
    ToCharList,
    StringToInt,
    CharToInt,
    CharFromInt,
    CharIsDigit,
    WriteString,
    WriteChar,
    WriteInt,
    Write,
    Nl,
    ReadLine,
    Error,
}
