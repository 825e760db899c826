// Numbers.
ghost use Rattle.std.specs.Prelude.{◌≡◌, ℕ, ◌+◌, ◌<◌, ◌≤◌, ◌^◌, length, drop, get_or, IfOk, IfErr, slice_range, ◌==◌, ◌&&◌, true, IsTrue, ◌↔◌};
ghost use Rattle.std.specs.List.{prefix_len};
ghost use Rattle.mc_tokens.specs.Classes.{is_digit_of};
ghost use Rattle.mc_tokens.specs.Tokens.{number, decimal, of_form, digits};
ghost use Rattle.mc_tokens.specs.code.Values.{span, Ends, EachDigit};
ghost use Rattle.mc_tokens.specs.Answers.{Placed};
ghost use Rattle.mc_tokens.specs.code.Seen.{KnownRun, IsRun, TooLarge};

use crate::begins::{Form, number_form};
use crate::chars::byte_at;
use crate::digits::{digits_end, is_digit_of, value_of};
use crate::seen::Run;
use crate::token::{FaultKind, Kind, TokenFault};

// A kind, and where its token ends.
pub type Span = Result<(Kind, usize), TokenFault>;

pub fn fault(kind: FaultKind, at: usize) -> Span
    ensures { result ≡ Err (record { kind = kind; at = at }) }
{
    Err(TokenFault { kind, at })
}

// The number whose digits stand from a place to stop.
fn number(text: &[u8], base: u32, start: usize, from: usize, stop: usize) -> Span
    requires base { (0 < base) × (base ≤ 16) }
    requires range { (start ≤ from) × (from < stop) × (stop ≤ length text.now) }
    requires digits { EachDigit base (slice_range text.now from stop) }
    ensures value { span start result ≡ number base start stop (slice_range text.now from stop) }
    ensures ends { IfOk result (Ends text.now start) }
    ensures placed { IfErr result (Placed text.now start) }
{
    match value_of(&text[from..stop], base) {
        Some(value) => Ok((Kind::Int(value), stop)),
        None => fault(FaultKind::IntTooLarge, start),
    }
}

// Whether a fraction stands here.
fn is_fraction(text: &[u8], stop: usize) -> bool
    requires { stop ≤ length text.now }
    ensures { result ≡ ((get_or text.now stop 0 == 46) && is_digit_of 10 (get_or text.now (stop + 1) 0)) }
{
    byte_at(text, stop) == b'.' && is_digit_of(10, byte_at(text, stop + 1))
}

// The run of decimal digits in which a place stands.
fn run_at(text: &[u8], start: usize, known: Option<Run>) -> Run
    requires inside { start < length text.now }
    requires digit { is_digit_of 10 (get_or text.now start 0) ≡ true }
    requires known { KnownRun text.now known }
    ensures run { IsRun text.now result }
    ensures inside { (result.from ≤ start) × (start < result.end) }
{
    match known {
        Some(run) if run.from <= start && start < run.end => run,
        _ => Run {
            from: start,
            end: digits_end(text, 10, start),
            large: start,
        },
    }
}

// Whether the digits from a place to an end spell a number above 2^63.
fn is_too_large(text: &[u8], from: usize, end: usize) -> bool
    requires range { (from ≤ end) × (end ≤ length text.now) }
    requires digits { EachDigit 10 (slice_range text.now from end) }
    ensures { IsTrue result ↔ TooLarge text.now from end }
{
    value_of(&text[from..end], 10).is_none()
}

// A place before which each place from start on begins too large a number, of the digits up to the
// end. From the first digit other than 0 they spell the same number as from start; in a long run,
// mostly too large a one from nearly each place.
fn large_end(text: &[u8], start: usize, end: usize) -> usize
    requires range { (start < end) × (end ≤ length text.now) }
    requires digits { EachDigit 10 (slice_range text.now start end) }
    ensures { (k : ℕ) → start ≤ k → k < result → TooLarge text.now k end }
{
    let mut last = start;
    while last + 1 < end && text[last] == b'0' {
        last += 1;
    }
    if end - last > 40 {
        let late = end - 20;
        if is_too_large(text, late, end) {
            return late + 1;
        }
    }
    if is_too_large(text, last, end) {
        last + 1
    } else {
        start
    }
}

// A decimal number, with what is known of the run of digits in which it begins.
fn decimal(text: &[u8], start: usize, known: &mut Option<Run>) -> Span
    requires inside { start < length text.now }
    requires digit { is_digit_of 10 (get_or text.now start 0) ≡ true }
    requires known { KnownRun text.now known.old }
    ensures value { span start result
        ≡ decimal start (prefix_len (is_digit_of 10) (drop start text.now)) (drop start text.now) }
    ensures ends { IfOk result (Ends text.now start) }
    ensures placed { IfErr result (Placed text.now start) }
    ensures known { KnownRun text.now known.new }
{
    let run = run_at(text, start, *known);
    *known = Some(run);
    if is_fraction(text, run.end) {
        return fault(FaultKind::LeftOut, start);
    }
    if start < run.large {
        return fault(FaultKind::IntTooLarge, start);
    }
    match value_of(&text[start..run.end], 10) {
        Some(value) => Ok((Kind::Int(value), run.end)),
        None => {
            *known = Some(Run {
                from: start,
                end: run.end,
                large: large_end(text, start, run.end),
            });
            fault(FaultKind::IntTooLarge, start)
        }
    }
}

// A number that begins here.
pub fn digits(text: &[u8], start: usize, known: &mut Option<Run>) -> Span
    requires inside { start < length text.now }
    requires digit { is_digit_of 10 (get_or text.now start 0) ≡ true }
    requires known { KnownRun text.now known.old }
    ensures value { span start result ≡ digits start (drop start text.now) }
    ensures ends { IfOk result (Ends text.now start) }
    ensures placed { IfErr result (Placed text.now start) }
    ensures known { KnownRun text.now known.new }
{
    match number_form(text, start) {
        Form::Based(base) => {
            let stop = digits_end(text, base, start + 2);
            number(text, base, start, start + 2, stop)
        }
        Form::Character => Ok((Kind::Int(u64::from(text[start + 2])), start + 3)),
        Form::Decimal => decimal(text, start, known),
    }
}
