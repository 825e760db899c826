// What a first byte begins, and the forms of numbers.
ghost use Rattle.std.specs.Prelude.{◌≡◌, ◌+◌, ◌<◌, length, drop};
ghost use Rattle.mc_tokens.specs.Classes.{starts_var};
ghost use Rattle.mc_tokens.specs.Tokens.{first, form, form_after_zero, starts_character};

use crate::chars::byte_at;
use crate::digits::is_digit_of;

// What a first byte begins.
pub enum First {
    Lower,
    Upper,
    Digit,
    Symbol,
    Quote,
    DoubleQuote,
    Paren,
    CloseParen,
    Square,
    CloseSquare,
    Bar,
    Comma,
    Dot,
    Semicolon,
    Bang,
    LeftOut,
    Other,
}

// The form of a number: with a base that stands before its digits, a character's, or decimal.
pub enum Form {
    Based(u32),
    Character,
    Decimal,
}

pub fn begins(b: u8) -> First
    ensures { result ≡ first b }
{
    match b {
        b'a'..=b'z' => First::Lower,
        b'A'..=b'Z' | b'_' => First::Upper,
        b'0'..=b'9' => First::Digit,
        35..=36 | 38 | 42..=43 | 45 | 47 | 58 | 60..=64 | 92 | 94 | 126 => First::Symbol,
        b'\'' => First::Quote,
        b'"' => First::DoubleQuote,
        b'(' => First::Paren,
        b')' => First::CloseParen,
        b'[' => First::Square,
        b']' => First::CloseSquare,
        b'|' => First::Bar,
        b',' => First::Comma,
        b'.' => First::Dot,
        b';' => First::Semicolon,
        b'!' => First::Bang,
        b'`' | b'{' | b'}' => First::LeftOut,
        _ => First::Other,
    }
}

pub fn starts_var(x: u8) -> bool
    ensures { result ≡ starts_var x }
{
    x.is_ascii_uppercase() || x == b'_'
}

// Whether a character after 0' stands here.
fn starts_character(text: &[u8], i: usize) -> bool
    ensures { result ≡ starts_character (drop i text.now) }
{
    i < text.len() && text[i] < 128 && text[i] != b'\'' && text[i] != b'"' && text[i] != b'\\'
}

// The form of a number whose 0 is followed by c and then by what stands in place i.
fn form_after_zero(text: &[u8], c: u8, i: usize) -> Form
    ensures { result ≡ form_after_zero c (drop i text.now) }
{
    let next = byte_at(text, i);
    match c {
        b'x' if is_digit_of(16, next) => Form::Based(16),
        b'o' if is_digit_of(8, next) => Form::Based(8),
        b'b' if is_digit_of(2, next) => Form::Based(2),
        b'\'' if starts_character(text, i) => Form::Character,
        _ => Form::Decimal,
    }
}

// The form of the number that begins here.
pub fn number_form(text: &[u8], start: usize) -> Form
    requires { start < length text.now }
    ensures { result ≡ form (drop start text.now) }
{
    if text[start] == b'0' {
        form_after_zero(text, byte_at(text, start + 1), start + 2)
    } else {
        Form::Decimal
    }
}
