ghost use Rattle.std.specs.Prelude.{◌≡◌, ℕ, List, [], ◌∷◌, IfOk, length, pos, encode_utf8};
ghost use Rattle.std.specs.Str.{IsUtf8, chars};
ghost use Rattle.std.specs.Fmt.{signed_decimal};
ghost use Rattle.mc_program.specs.Values.{int, char, str};
ghost use Rattle.mc_model.specs.Builtins.{outcome, char_of_code, parsed_int};
ghost use Rattle.mc_model.specs.Builtins.{Library as Known};
ghost use Rattle.mc_builtins.specs.code.Made.{made_outcome};

use crate::integers::test;
use crate::made::Made;
use itoa::Buffer;
use mc_base::{Copied, Memory, Text};
use mc_model::builtin::Builtin;
use mc_model::run::Exception;
use std::alloc::Global;

/// What a builtin makes of an integer.
pub fn of_integer(alloc: Global, op: Builtin, a: i64) -> Result<Made, Memory>
    ensures { IfOk result (λ made. (library : Known) (input : List ℕ)
        → outcome library input op (int a ∷ []) ≡ made_outcome library made) }
{
    match op {
        Builtin::IntNegate => Ok(Made::Int(a.wrapping_neg())),
        Builtin::IntToString => Ok(Made::Text(decimal(alloc, a)?)),
        Builtin::CharFromInt => Ok(character(a)),
        _ => Ok(Made::Fails),
    }
}

/// What a builtin makes of a character.
pub fn of_character(alloc: Global, op: Builtin, c: char) -> Result<Made, Memory>
    ensures { IfOk result (λ made. (library : Known) (input : List ℕ)
        → outcome library input op (char c ∷ []) ≡ made_outcome library made) }
{
    match op {
        Builtin::CharToString => Ok(Made::Text(encoded(alloc, c)?)),
        Builtin::CharToInt => Ok(Made::Int(i64::from(c as u32))),
        Builtin::CharIsDigit => Ok(test(c.is_ascii_digit())),
        _ => Ok(Made::Fails),
    }
}

/// What a builtin makes of a string.
pub fn of_text(alloc: Global, op: Builtin, text: &Text) -> Result<Made, Memory>
    requires { IsUtf8 text.now }
    ensures { IfOk result (λ made. (library : Known) (input : List ℕ)
        → outcome library input op (str text.now ∷ []) ≡ made_outcome library made) }
{
    match op {
        Builtin::StringLength => Ok(Made::Int(i64::from(text.len()))),
        Builtin::StringCodePoints => Ok(Made::Int(code_points(text))),
        Builtin::ToCharList => Ok(Made::Chars(characters(alloc, text)?)),
        Builtin::StringToInt => Ok(parsed(text)),
        Builtin::Error => Ok(Made::Throws(Exception::Error(text.copied(alloc)?))),
        _ => Ok(Made::Fails),
    }
}

/// What a builtin makes of two strings.
pub fn of_texts(alloc: Global, op: Builtin, s: &Text, t: &Text) -> Result<Made, Memory>
    ensures { IfOk result (λ made. (library : Known) (input : List ℕ)
        → outcome library input op (str s.now ∷ str t.now ∷ []) ≡ made_outcome library made) }
{
    match op {
        Builtin::StringJoin => {
            let mut joined = s.copied(alloc)?;
            joined.extend(t.bytes())?;
            Ok(Made::Text(joined))
        }
        _ => Ok(Made::Fails),
    }
}

/// An integer in decimal digits.
pub fn decimal(alloc: Global, a: i64) -> Result<Text, Memory>
    ensures { IfOk result (λ text. text ≡ signed_decimal a) }
{
    Text::new(alloc, Buffer::new().format(a).as_bytes())
}

/// A character in UTF-8.
pub fn encoded(alloc: Global, c: char) -> Result<Text, Memory>
    ensures { IfOk result (λ text. text ≡ encode_utf8 c) }
{
    Text::new(alloc, c.encode_utf8(&mut [0; 4]).as_bytes())
}

/// The character of a code; a code of none fails.
fn character(code: i64) -> Made
    ensures { (library : Known) → char_of_code code ≡ made_outcome library result }
{
    match u32::try_from(code) {
        Ok(code) => match char::from_u32(code) {
            Some(c) => Made::Char(c),
            None => Made::Fails,
        },
        Err(_) => Made::Fails,
    }
}

/// The characters of a text.
fn characters(alloc: Global, text: &Text) -> Result<Vec<char>, Memory>
    requires { IsUtf8 text.now }
    ensures { IfOk result (λ found. found.items ≡ chars text.now) }
{
    match str::from_utf8(text.bytes()) {
        Ok(text) => Ok(text.chars().collect(alloc)?),
        Err(_) => unreachable!(),
    }
}

/// The number of a text's characters.
fn code_points(text: &Text) -> i64
    requires { IsUtf8 text.now }
    ensures { result ≡ pos (length (chars text.now)) }
{
    match str::from_utf8(text.bytes()) {
        Ok(text) => text.chars().count() as i64,
        Err(_) => unreachable!(),
    }
}

/// The number that a text writes; a text that writes none, or one beyond 64 bits, fails.
fn parsed(text: &Text) -> Made
    requires { IsUtf8 text.now }
    ensures { (library : Known) → parsed_int text.now ≡ made_outcome library result }
{
    match str::from_utf8(text.bytes()) {
        Ok(text) => match text.parse::<i64>() {
            Ok(n) => Made::Int(n),
            Err(_) => Made::Fails,
        },
        Err(_) => unreachable!(),
    }
}
