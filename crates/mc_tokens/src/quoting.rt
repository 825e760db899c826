// The walk inside quotes.
ghost use Rattle.std.specs.Prelude.{◌≡◌, ℕ, ◌+◌, ◌<◌, ◌≤◌, length, drop, IfOk, IfErr, IfSome, Some, None, Ok, Err, ◌==◌, ◌&&◌, is_some, false, if◌then◌else◌, get_or};
ghost use lib.Utf8.{scalar};
ghost use Rattle.mc_tokens.specs.Classes.{is_digit_of};
ghost use Rattle.mc_tokens.specs.Spots.{Plain, Digits, Exact, Backslash, is_simple, unescaped};
ghost use Rattle.mc_tokens.specs.Contents.{contents, escaped};
ghost use Rattle.mc_tokens.specs.Answers.{Within};
ghost use Rattle.mc_tokens.specs.code.Walks.{halted, quote_walk, quote_ends, escape_goes_on, turn_goes_on, HaltPlaced, escape_contents, StepsWithin};
ghost use Rattle.mc_tokens.specs.code.Seen.{OpenQuote};

use crate::chars::{byte_at, char_len};
use crate::digits::{digit_of, hex_digit, is_digit_of};
use crate::token::{FaultKind, TokenFault};

// Why a walk halts before it finds the end that it looks for.
#[derive(Clone, Copy)]
pub enum Halt {
    TextEnds,
    Bad(TokenFault),
}

// A quote or a comment that began at start and in which the text ends.
pub fn unterminated(start: usize) -> TokenFault
    ensures { result ≡ record { kind = FaultKind.Unterminated; at = start } }
{
    TokenFault {
        kind: FaultKind::Unterminated,
        at: start,
    }
}

// An escape: the place after it, and the character that it names, if any.
#[derive(Clone, Copy)]
pub struct Escape {
    pub next: usize,
    pub says: Option<char>,
}

// A step of the walk: past the closing quote, or on.
#[derive(Clone, Copy)]
pub enum Step {
    Closed(usize),
    On(usize),
}

// An escape that names no character and has its backslash in place at.
fn bad_escape(at: usize) -> Halt
    ensures { result ≡ Halt.Bad (record { kind = FaultKind.BadChar; at = at }) }
{
    Halt::Bad(TokenFault {
        kind: FaultKind::BadChar,
        at,
    })
}

// What isn't UTF-8 in place i.
pub fn no_text(i: usize) -> Halt
    ensures { result ≡ Halt.Bad (record { kind = FaultKind.NotUtf8; at = i }) }
{
    Halt::Bad(TokenFault {
        kind: FaultKind::NotUtf8,
        at: i,
    })
}

// What isn't UTF-8 in place i, or else an escape that names no character and has its backslash in
// place at.
fn no_escape(text: &[u8], at: usize, i: usize) -> Halt
    requires { (at < i) × (i < length text.now) }
    ensures value { (start : ℕ) → halted start result ≡ unescaped at i (drop i text.now) }
    ensures placed { HaltPlaced text.now at result }
{
    if char_len(text, i) == 0 {
        no_text(i)
    } else {
        bad_escape(at)
    }
}

// What a letter or a mark after a backslash stands for.
fn simple(b: u8) -> Option<u8>
    ensures some { is_some result ≡ is_simple b }
    ensures value { IfSome result (λ x. x ≡ escaped b) }
{
    match b {
        b'a' => Some(7),
        b'b' => Some(8),
        b'f' => Some(12),
        b'n' => Some(b'\n'),
        b'r' => Some(b'\r'),
        b't' => Some(b'\t'),
        b'v' => Some(11),
        b'\\' | b'\'' | b'"' | b'`' | b'\n' => Some(b),
        _ => None,
    }
}

// The rest of an escape with digits of a base and a closing backslash, whose digits stand from a
// place on.
fn numeral(text: &[u8], base: u32, at: usize, from: usize) -> Result<Escape, Halt>
    requires base { base ≤ 16 }
    requires range { (at < from) × (from ≤ length text.now) }
    ensures value { (q start : ℕ)
        → quote_walk q start (Digits at base 0 false) from (drop from text.now)
        ≡ escape_goes_on q start text.now result }
    ensures says { (q : ℕ)
        → contents q (Digits 0 base 0 false) 0 (drop from text.now)
        ≡ escape_contents q text.now result }
    ensures within { IfOk result (λ e. Within text.now from e.next) }
    ensures placed { IfErr result (HaltPlaced text.now at) }
{
    let mut i = from;
    let mut value: u32 = 0;
    let mut some = false;
    while i < text.len() {
        if let Some(digit) = digit_of(base, text[i]) {
            value = (base * value + digit).min(0x11_0000);
            some = true;
            i += 1;
        } else {
            return numeral_end(text, base, at, i, value, some);
        }
    }
    Err(Halt::TextEnds)
}

// The end of such an escape, at the first byte that is no digit; some says whether there were
// digits.
fn numeral_end(
    text: &[u8],
    base: u32,
    at: usize,
    i: usize,
    value: u32,
    some: bool,
) -> Result<Escape, Halt>
    requires range { (at < i) × (i < length text.now) }
    requires stops { is_digit_of base (get_or text.now i 0) ≡ false }
    ensures value { (q start : ℕ)
        → quote_walk q start (Digits at base value some) i (drop i text.now)
        ≡ escape_goes_on q start text.now result }
    ensures says { (q : ℕ)
        → contents q (Digits 0 base value some) 0 (drop i text.now)
        ≡ escape_contents q text.now result }
    ensures within { IfOk result (λ e. Within text.now i e.next) }
    ensures placed { IfErr result (HaltPlaced text.now at) }
{
    match numeral_says(text[i], value, some) {
        Some(says) => Ok(Escape {
            next: i + 1,
            says: Some(says),
        }),
        None => Err(no_escape(text, at, i)),
    }
}

// The character that such an escape names, if the byte b ends it.
fn numeral_says(b: u8, value: u32, some: bool) -> Option<char>
    ensures { result ≡ (if ((b == 92) && (some && scalar value)) then Some value else None) }
{
    if b == b'\\' && some {
        char::from_u32(value)
    } else {
        None
    }
}

// The rest of an escape with so many more hexadecimal digits and one, which stand from a place on.
fn exact(text: &[u8], at: usize, from: usize, more: u32) -> Result<Escape, Halt>
    requires { (at < from) × (from ≤ length text.now) }
    ensures value { (q start : ℕ)
        → quote_walk q start (Exact at more 0) from (drop from text.now)
        ≡ escape_goes_on q start text.now result }
    ensures says { (q : ℕ)
        → contents q (Exact 0 more 0) 0 (drop from text.now) ≡ escape_contents q text.now result }
    ensures within { IfOk result (λ e. Within text.now from e.next) }
    ensures placed { IfErr result (HaltPlaced text.now at) }
{
    let mut i = from;
    let mut left = more;
    let mut value: u32 = 0;
    while i < text.len() {
        let Some(digit) = hex_digit(text[i]) else {
            return Err(no_escape(text, at, i));
        };
        value = (16 * value + digit).min(0x11_0000);
        i += 1;
        if left == 0 {
            return exact_end(at, i, value);
        }
        left -= 1;
    }
    Err(Halt::TextEnds)
}

// The end of such an escape, after its last digit.
fn exact_end(at: usize, next: usize, value: u32) -> Result<Escape, Halt>
    ensures { result
        ≡ (if scalar value then Ok (record { next = next; says = Some value })
        else Err (Halt.Bad (record { kind = FaultKind.BadChar; at = at }))) }
{
    match char::from_u32(value) {
        Some(says) => Ok(Escape {
            next,
            says: Some(says),
        }),
        None => Err(bad_escape(at)),
    }
}

// The escape whose backslash is in place at.
pub fn escape_at(text: &[u8], at: usize) -> Result<Escape, Halt>
    requires { at < length text.now }
    ensures value { (q start : ℕ)
        → quote_walk q start (Backslash at) (at + 1) (drop (at + 1) text.now)
        ≡ escape_goes_on q start text.now result }
    ensures says { (q : ℕ)
        → contents q (Backslash 0) 0 (drop (at + 1) text.now) ≡ escape_contents q text.now result }
    ensures within { IfOk result (λ e. Within text.now (at + 1) e.next) }
    ensures placed { IfErr result (HaltPlaced text.now at) }
{
    let i = at + 1;
    if i == text.len() {
        return Err(Halt::TextEnds);
    }
    let b = text[i];
    if let Some(byte) = simple(b) {
        return Ok(Escape {
            next: i + 1,
            says: if b == b'\n' {
                None
            } else {
                Some(char::from(byte))
            },
        });
    }
    if b == b'x' {
        return numeral(text, 16, at, i + 1);
    }
    if is_digit_of(8, b) {
        return numeral(text, 8, at, i);
    }
    if b == b'u' {
        return exact(text, at, i + 1, 3);
    }
    if b == b'U' {
        return exact(text, at, i + 1, 7);
    }
    Err(no_escape(text, at, i))
}

// One step of the walk inside quotes, between characters in place i.
pub fn step_at(text: &[u8], quote: u8, i: usize) -> Result<Step, Halt>
    requires inside { i < length text.now }
    requires quote { 0 < quote }
    ensures value { (start : ℕ)
        → quote_walk quote start Plain i (drop i text.now)
        ≡ turn_goes_on quote start text.now result }
    ensures within { IfOk result (StepsWithin text.now i) }
    ensures placed { IfErr result (HaltPlaced text.now i) }
{
    let b = text[i];
    if b == quote {
        if byte_at(text, i + 1) == quote {
            return Ok(Step::On(i + 2));
        }
        return Ok(Step::Closed(i + 1));
    }
    if b == b'\\' {
        return match escape_at(text, i) {
            Ok(escape) => Ok(Step::On(escape.next)),
            Err(halt) => Err(halt),
        };
    }
    match char_len(text, i) {
        0 => Err(no_text(i)),
        len => Ok(Step::On(i + len)),
    }
}

// The place after the closing quote, for a walk that is between characters in the place from.
pub fn quote_rest(text: &[u8], quote: u8, from: usize) -> Result<usize, Halt>
    requires inside { from ≤ length text.now }
    requires quote { 0 < quote }
    ensures value { (start : ℕ)
        → quote_walk quote start Plain from (drop from text.now) ≡ quote_ends start result }
    ensures within { IfOk result (λ i. (from < i) × (i ≤ length text.now)) }
    ensures placed { IfErr result (HaltPlaced text.now from) }
{
    let mut i = from;
    while i < text.len() {
        match step_at(text, quote, i)? {
            Step::Closed(end) => return Ok(end),
            Step::On(next) => i = next,
        }
    }
    Err(Halt::TextEnds)
}

// Moves the place from which no closing quote follows on along the walk, to the first place at or
// after `to`.
pub fn open_quote(text: &[u8], quote: u8, known: Option<usize>, to: usize) -> Option<usize>
    requires known { OpenQuote quote text.now known }
    requires quote { 0 < quote }
    ensures holds { OpenQuote quote text.now result }
    ensures kept { is_some result ≡ is_some known }
{
    let mut i = known?;
    while i < to && i < text.len() {
        match step_at(text, quote, i) {
            Ok(Step::On(next)) => i = next,
            _ => break,
        }
    }
    Some(i)
}
