ghost use Rattle.std.specs.Prelude.{◌≡◌};
ghost use Rattle.mc_program.specs.PlainPrograms.{plain_name};
ghost use Rattle.mc_accepted.specs.BuiltinTypes.{builtin_name, function_of, predicate_of};
ghost use Rattle.mc_declarations.specs.Declarations.{is_builtin, builtins, builtin_among};
ghost use Rattle.mc_declarations.specs.code.LibraryNames.{plain_library_name};

use mc_program::builtin::Builtin;
use mc_source::name::Name;

/// The builtins, in the library's order.
const BUILTINS: [Builtin; 29] = [
    Builtin::IntPlus,
    Builtin::IntMinus,
    Builtin::IntTimes,
    Builtin::IntQuotient,
    Builtin::IntDiv,
    Builtin::IntMod,
    Builtin::IntRem,
    Builtin::IntNegate,
    Builtin::IntLess,
    Builtin::IntGreater,
    Builtin::IntAtMost,
    Builtin::IntAtLeast,
    Builtin::StringJoin,
    Builtin::StringLength,
    Builtin::StringCodePoints,
    Builtin::IntToString,
    Builtin::CharToString,
    Builtin::ToCharList,
    Builtin::StringToInt,
    Builtin::CharToInt,
    Builtin::CharFromInt,
    Builtin::CharIsDigit,
    Builtin::WriteString,
    Builtin::WriteChar,
    Builtin::WriteInt,
    Builtin::Write,
    Builtin::Nl,
    Builtin::ReadLine,
    Builtin::Error,
];

/// What a builtin is declared as; a function's arity counts its arguments without the result.
#[derive(Clone, Copy)]
struct LibraryName<'n> {
    module: &'n [u8],
    name: &'n [u8],
    arity: u32,
    is_func: bool,
}

/// The builtin that a predicate or function is, by its name.
pub fn builtin_of(name: &Name, is_func: bool) -> Option<Builtin>
    ensures { result ≡ builtin_among builtins (plain_name name.now) is_func }
{
    for builtin in &BUILTINS {
        if is_builtin(*builtin, name, is_func) {
            return Some(*builtin);
        }
    }
    None
}

// Whether this is the name of a builtin.
fn is_builtin(builtin: Builtin, name: &Name, is_func: bool) -> bool
    ensures { result ≡ is_builtin (plain_name name.now) is_func (builtin_name builtin) }
{
    let known = library_name(builtin);
    name.module.bytes() == known.module
        && (name.name.bytes() == known.name && name.arity == known.arity)
        && is_func == known.is_func
}

// What a builtin is declared as.
fn library_name(builtin: Builtin) -> LibraryName<'static>
    ensures { plain_library_name result ≡ builtin_name builtin }
{
    match builtin {
        Builtin::IntPlus => function(b"int", b"+", 2),
        Builtin::IntMinus => function(b"int", b"-", 2),
        Builtin::IntTimes => function(b"int", b"*", 2),
        Builtin::IntQuotient => function(b"int", b"//", 2),
        Builtin::IntDiv => function(b"int", b"div", 2),
        Builtin::IntMod => function(b"int", b"mod", 2),
        Builtin::IntRem => function(b"int", b"rem", 2),
        Builtin::IntNegate => function(b"int", b"-", 1),
        Builtin::IntLess => predicate(b"int", b"<", 2),
        Builtin::IntGreater => predicate(b"int", b">", 2),
        Builtin::IntAtMost => predicate(b"int", b"=<", 2),
        Builtin::IntAtLeast => predicate(b"int", b">=", 2),
        Builtin::StringJoin => function(b"string", b"++", 2),
        Builtin::StringLength => function(b"string", b"length", 1),
        Builtin::StringCodePoints => function(b"string", b"count_code_points", 1),
        Builtin::IntToString => function(b"string", b"int_to_string", 1),
        Builtin::CharToString => function(b"string", b"char_to_string", 1),
        Builtin::ToCharList => function(b"string", b"to_char_list", 1),
        Builtin::StringToInt => predicate(b"string", b"to_int", 2),
        Builtin::CharToInt => function(b"char", b"to_int", 1),
        Builtin::CharFromInt => predicate(b"char", b"from_int", 2),
        Builtin::CharIsDigit => predicate(b"char", b"is_digit", 1),
        Builtin::WriteString => predicate(b"io", b"write_string", 3),
        Builtin::WriteChar => predicate(b"io", b"write_char", 3),
        Builtin::WriteInt => predicate(b"io", b"write_int", 3),
        Builtin::Write => predicate(b"io", b"write", 3),
        Builtin::Nl => predicate(b"io", b"nl", 2),
        Builtin::ReadLine => predicate(b"io", b"read_line_as_string", 3),
        Builtin::Error => predicate(b"require", b"error", 1),
    }
}

fn function<'n>(module: &'n [u8], name: &'n [u8], arity: u32) -> LibraryName<'n>
    ensures { plain_library_name result ≡ function_of «module».now name.now arity }
{
    LibraryName {
        module,
        name,
        arity,
        is_func: true,
    }
}

fn predicate<'n>(module: &'n [u8], name: &'n [u8], arity: u32) -> LibraryName<'n>
    ensures { plain_library_name result ≡ predicate_of «module».now name.now arity }
{
    LibraryName {
        module,
        name,
        arity,
        is_func: false,
    }
}
