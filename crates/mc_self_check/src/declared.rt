//! What the language declares of the predicates and functions of the library that have no clauses.
ghost use Rattle.std.specs.Prelude.{◌≡◌, map};
ghost use Rattle.mc_accepted.specs.BuiltinTypes.{Library_types, builtin_name, builtin_types};
ghost use Rattle.mc_model.specs.Worlds.{library_name};
ghost use Rattle.mc_self_check.specs.code.Types.{type_of};
ghost use Rattle.mc_self_check.specs.code.LibraryFitNames.{plain_library_name};

use crate::library_fit_types::{CHAR, CHARS, INT, ITEM, LINE, LibraryType, STATE, STR};
use mc_program::builtin::Builtin;

/// A name of the library; a function's arity counts its arguments without the result.
#[derive(Clone, Copy)]
pub(crate) struct LibraryName {
    pub module: &'static [u8],
    pub name: &'static [u8],
    pub arity: u32,
}

fn named(module: &'static [u8], name: &'static [u8], arity: u32) -> LibraryName
    ensures { plain_library_name result ≡ library_name «module».now name.now arity }
{
    LibraryName {
        module,
        name,
        arity,
    }
}

/// The name of a builtin.
pub(crate) fn name_of(builtin: Builtin) -> LibraryName
    ensures { plain_library_name result ≡ (builtin_name builtin).name }
{
    match builtin {
        Builtin::IntPlus => named(b"int", b"+", 2),
        Builtin::IntMinus => named(b"int", b"-", 2),
        Builtin::IntTimes => named(b"int", b"*", 2),
        Builtin::IntQuotient => named(b"int", b"//", 2),
        Builtin::IntDiv => named(b"int", b"div", 2),
        Builtin::IntMod => named(b"int", b"mod", 2),
        Builtin::IntRem => named(b"int", b"rem", 2),
        Builtin::IntNegate => named(b"int", b"-", 1),
        Builtin::IntLess => named(b"int", b"<", 2),
        Builtin::IntGreater => named(b"int", b">", 2),
        Builtin::IntAtMost => named(b"int", b"=<", 2),
        Builtin::IntAtLeast => named(b"int", b">=", 2),
        Builtin::StringJoin => named(b"string", b"++", 2),
        Builtin::StringLength => named(b"string", b"length", 1),
        Builtin::StringCodePoints => named(b"string", b"count_code_points", 1),
        Builtin::IntToString => named(b"string", b"int_to_string", 1),
        Builtin::CharToString => named(b"string", b"char_to_string", 1),
        Builtin::ToCharList => named(b"string", b"to_char_list", 1),
        Builtin::StringToInt => named(b"string", b"to_int", 2),
        Builtin::CharToInt => named(b"char", b"to_int", 1),
        Builtin::CharFromInt => named(b"char", b"from_int", 2),
        Builtin::CharIsDigit => named(b"char", b"is_digit", 1),
        Builtin::WriteString => named(b"io", b"write_string", 3),
        Builtin::WriteChar => named(b"io", b"write_char", 3),
        Builtin::WriteInt => named(b"io", b"write_int", 3),
        Builtin::Write => named(b"io", b"write", 3),
        Builtin::Nl => named(b"io", b"nl", 2),
        Builtin::ReadLine => named(b"io", b"read_line_as_string", 3),
        Builtin::Error => named(b"require", b"error", 1),
    }
}

/// The types of a builtin's arguments; a function's last is its result's.
pub(crate) fn types_of(builtin: Builtin) -> &'static [LibraryType]
    ensures { (K : Library_types) → map (type_of K) result.now ≡ builtin_types K builtin }
{
    match builtin {
        Builtin::IntPlus
        | Builtin::IntMinus
        | Builtin::IntTimes
        | Builtin::IntQuotient
        | Builtin::IntDiv
        | Builtin::IntMod
        | Builtin::IntRem => &[INT, INT, INT],
        Builtin::IntNegate
        | Builtin::IntLess
        | Builtin::IntGreater
        | Builtin::IntAtMost
        | Builtin::IntAtLeast => &[INT, INT],
        Builtin::StringJoin => &[STR, STR, STR],
        Builtin::StringLength | Builtin::StringCodePoints | Builtin::StringToInt => &[STR, INT],
        Builtin::IntToString => &[INT, STR],
        Builtin::CharToString => &[CHAR, STR],
        Builtin::ToCharList => &[STR, CHARS],
        Builtin::CharToInt => &[CHAR, INT],
        Builtin::CharFromInt => &[INT, CHAR],
        Builtin::CharIsDigit => &[CHAR],
        Builtin::WriteString => &[STR, STATE, STATE],
        Builtin::WriteChar => &[CHAR, STATE, STATE],
        Builtin::WriteInt => &[INT, STATE, STATE],
        Builtin::Write => &[ITEM, STATE, STATE],
        Builtin::Nl => &[STATE, STATE],
        Builtin::ReadLine => &[LINE, STATE, STATE],
        Builtin::Error => &[STR],
    }
}
