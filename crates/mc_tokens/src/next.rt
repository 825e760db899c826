// The next token.
ghost use Rattle.std.specs.Prelude.{◌≡◌, ◌+◌, ◌<◌, ◌≤◌, ◌^◌, length, drop, get_or, IfOk, IfErr, slice_range, if◌then◌else◌, nat_eq};
ghost use Rattle.std.specs.List.{prefix_len};
ghost use Rattle.mc_tokens.specs.Classes.{is_name_tail};
ghost use Rattle.mc_tokens.specs.Tokens.{token, lexed, begun, names, is_int, word, quoted, paren, ends_item, dot, bang, other, first as first_of};
ghost use Rattle.mc_tokens.specs.Spots.{quote_end};
ghost use Rattle.mc_tokens.specs.Answers.{Placed, answer, InOrder, NotEmpty, AsciiName};
ghost use Rattle.mc_tokens.specs.code.Walks.{spot};
ghost use Rattle.mc_tokens.specs.code.Values.{span, Ends};
ghost use Rattle.mc_tokens.specs.code.Seen.{OpenQuote, Holds};

use crate::begins::{First, begins, starts_var};
use crate::chars::{byte_at, char_len};
use crate::classes::{Class, skip_class};
use crate::comments::layout_rest;
use crate::numbers::{Span, digits, fault};
use crate::quoting::{Halt, open_quote, quote_rest, unterminated};
use crate::seen::Seen;
use crate::token::{FaultKind, Kind, Token, TokenFault};

fn is_name(kind: Kind) -> bool
    ensures { result ≡ names kind }
{
    matches!(kind, Kind::Name | Kind::Quoted)
}

// A name or a variable of letters, where before is the kind of the token that ends at start.
fn word(text: &[u8], start: usize, before: Kind, kind: Kind) -> Span
    requires { start < length text.now }
    ensures value { span start result
        ≡ word before kind start
        (start + (1 + prefix_len is_name_tail (drop (start + 1) text.now))) }
    ensures ends { IfOk result (Ends text.now start) }
    ensures placed { IfErr result (Placed text.now start) }
{
    if matches!(before, Kind::Int(_)) {
        fault(FaultKind::LeftOut, start)
    } else {
        Ok((kind, skip_class(text, start + 1, Class::NameTail)))
    }
}

// The place after the quotes that begin at start; known is the place, if any, from which no end of
// them is known to follow.
fn quotes_end(
    text: &[u8],
    start: usize,
    quote: u8,
    known: &mut Option<usize>,
) -> Result<usize, TokenFault>
    requires inside { start < length text.now }
    requires quote { 0 < quote }
    requires known { OpenQuote quote text.now known.old }
    ensures value { quote_end quote start (drop (start + 1) text.now) ≡ spot result }
    ensures within { IfOk result (λ i. (start < i) × (i ≤ length text.now)) }
    ensures placed { IfErr result (Placed text.now start) }
    ensures known { OpenQuote quote text.now known.new }
{
    let from = start + 1;
    *known = open_quote(text, quote, *known, from);
    if *known == Some(from) {
        return Err(unterminated(start));
    }
    match quote_rest(text, quote, from) {
        Ok(end) => Ok(end),
        Err(Halt::TextEnds) => {
            *known = Some(from);
            Err(unterminated(start))
        }
        Err(Halt::Bad(fault)) => Err(fault),
    }
}

fn quoted(text: &[u8], start: usize, quote: u8, kind: Kind, known: &mut Option<usize>) -> Span
    requires inside { start < length text.now }
    requires quote { 0 < quote }
    requires known { OpenQuote quote text.now known.old }
    ensures value { span start result ≡ quoted kind (quote_end quote start (drop (start + 1) text.now)) start }
    ensures ends { IfOk result (Ends text.now start) }
    ensures placed { IfErr result (Placed text.now start) }
    ensures known { OpenQuote quote text.now known.new }
{
    match quotes_end(text, start, quote, known) {
        Ok(end) => Ok((kind, end)),
        Err(fault) => Err(fault),
    }
}

fn paren(start: usize, before: Kind) -> Span
    requires { start < 2 ^ 63 }
    ensures value { span start result ≡ paren before start }
    ensures ends { IfOk result (λ t. t.1 ≡ start + 1) }
    ensures placed { IfErr result (λ f. f.at ≡ start) }
{
    match before {
        Kind::Name | Kind::Quoted => Ok((Kind::OpenCt, start + 1)),
        Kind::Var => fault(FaultKind::LeftOut, start),
        _ => Ok((Kind::Open, start + 1)),
    }
}

// Whether an item may end before this place.
fn ends_item(text: &[u8], i: usize) -> bool
    ensures { result ≡ ends_item (drop i text.now) }
{
    i >= text.len() || matches!(text[i], 9..=13 | 32 | b'%')
}

fn dot(text: &[u8], start: usize, before: Kind) -> Span
    requires { start < length text.now }
    ensures value { span start result ≡ dot before start (drop (start + 1) text.now) }
    ensures ends { IfOk result (Ends text.now start) }
    ensures placed { IfErr result (Placed text.now start) }
{
    let next = byte_at(text, start + 1);
    if is_name(before) && (next.is_ascii_lowercase() || next == b'\'') {
        Ok((Kind::Dot, start + 1))
    } else if ends_item(text, start + 1) {
        Ok((Kind::End, start + 1))
    } else {
        fault(FaultKind::BadChar, start)
    }
}

fn bang(text: &[u8], start: usize) -> Span
    requires { start < length text.now }
    ensures value { span start result ≡ bang start (drop (start + 1) text.now) }
    ensures ends { IfOk result (Ends text.now start) }
    ensures placed { IfErr result (Placed text.now start) }
{
    let next = byte_at(text, start + 1);
    if (next == b'.' || next == b':') && starts_var(byte_at(text, start + 2)) {
        Ok((Kind::Name, start + 2))
    } else {
        Ok((Kind::Name, start + 1))
    }
}

fn other(text: &[u8], start: usize) -> Span
    requires { start < length text.now }
    ensures value { span start result ≡ other start (drop start text.now) }
    ensures ends { IfOk result (Ends text.now start) }
    ensures placed { IfErr result (Placed text.now start) }
{
    if char_len(text, start) == 0 {
        fault(FaultKind::NotUtf8, start)
    } else {
        fault(FaultKind::BadChar, start)
    }
}

// A token by what its first byte begins; before is the kind of the token that ends at start.
fn begun(text: &[u8], start: usize, before: Kind, first: First, seen: &mut Seen) -> Span
    requires inside { start < length text.now }
    requires first { first ≡ first_of (get_or text.now start 0) }
    requires seen { Holds text.now seen.old }
    ensures value { span start result
        ≡ begun before start (get_or text.now start 0) (drop (start + 1) text.now) first }
    ensures ends { IfOk result (Ends text.now start) }
    ensures placed { IfErr result (Placed text.now start) }
    ensures seen { Holds text.now seen.new }
{
    match first {
        First::Lower => word(text, start, before, Kind::Name),
        First::Upper => word(text, start, before, Kind::Var),
        First::Digit => digits(text, start, &mut seen.digits),
        First::Symbol => Ok((Kind::Name, skip_class(text, start + 1, Class::Symbol))),
        First::Quote => quoted(text, start, b'\'', Kind::Quoted, &mut seen.single),
        First::DoubleQuote => quoted(text, start, b'"', Kind::Str, &mut seen.double),
        First::Paren => paren(start, before),
        First::CloseParen => Ok((Kind::Close, start + 1)),
        First::Square => Ok((Kind::ListOpen, start + 1)),
        First::CloseSquare => Ok((Kind::ListClose, start + 1)),
        First::Bar => Ok((Kind::Bar, start + 1)),
        First::Comma => Ok((Kind::Comma, start + 1)),
        First::Dot => dot(text, start, before),
        First::Semicolon => Ok((Kind::Name, start + 1)),
        First::Bang => bang(text, start),
        First::LeftOut => fault(FaultKind::LeftOut, start),
        First::Other => other(text, start),
    }
}

// The token that begins at start; before is the kind of the token that ends there.
fn token(text: &[u8], start: usize, before: Kind, seen: &mut Seen) -> Span
    requires inside { start ≤ length text.now }
    requires seen { Holds text.now seen.old }
    ensures value { span start result ≡ token before start (drop start text.now) }
    ensures ends { IfOk result (Ends text.now start) }
    ensures placed { IfErr result (Placed text.now start) }
    ensures seen { Holds text.now seen.new }
{
    if start == text.len() {
        return Ok((Kind::Eof, start));
    }
    begun(text, start, before, begins(text[start]), seen)
}

// The kind of the token that ends at start.
fn ending_at(start: usize, at: usize, after: Kind) -> Kind
    ensures { result ≡ (if nat_eq start at then after else Kind.Eof) }
{
    if start == at { after } else { Kind::Eof }
}

// The next token of a text of which something is known.
pub fn next_seen<'a>(
    text: &'a [u8],
    at: usize,
    after: Kind,
    seen: &mut Seen,
) -> Result<Token<'a>, TokenFault>
    requires inside { at ≤ length text.now }
    requires seen { Holds text.now seen.old }
    ensures value { answer result ≡ lexed text.now at after }
    ensures text { IfOk result (λ t. t.text.now ≡ slice_range text.now t.start t.end) }
    ensures order { IfOk result (InOrder text.now at) }
    ensures nonempty { IfOk result (λ t. NotEmpty t.kind t.start t.end) }
    ensures ascii { IfOk result (λ t. AsciiName t.kind t.text.now) }
    ensures placed { IfErr result (Placed text.now at) }
    ensures seen { Holds text.now seen.new }
{
    let start = layout_rest(text, at, &mut seen.comment)?;
    let (kind, end) = token(text, start, ending_at(start, at, after), seen)?;
    Ok(Token {
        kind,
        start,
        end,
        text: &text[start..end],
    })
}

/// The next token from a place on, past blanks and comments, or the first fault that the walk
/// meets. `after` is the kind of the token that ends exactly in that place, and `Eof` says that
/// none ends there. Takes no memory.
///
/// Each call begins anew: a walk over a text past its faults, token by token, is linear in the
/// text's length by [`Walk`] alone.
///
/// # Errors
///
/// A fault stands in the text at the place or after it, so that the walk may go on at the byte
/// after it.
pub fn next_token<'a>(text: &'a [u8], at: usize, after: &Kind) -> Result<Token<'a>, TokenFault>
    requires { at ≤ length text.now }
    ensures value { answer result ≡ lexed text.now at after.now }
    ensures text { IfOk result (λ t. t.text.now ≡ slice_range text.now t.start t.end) }
    ensures order { IfOk result (InOrder text.now at) }
    ensures nonempty { IfOk result (λ t. NotEmpty t.kind t.start t.end) }
    ensures ascii { IfOk result (λ t. AsciiName t.kind t.text.now) }
    ensures placed { IfErr result (Placed text.now at) }
{
    next_seen(text, at, *after, &mut Seen::nothing())
}
