//! The bounds of a run.
ghost use Rattle.std.specs.Prelude.{◌≡◌, option_map};
ghost use Rattle.mc_command_line.specs.Words.{bound, bounds, is_digit, number};
ghost use Rattle.mc_command_line.specs.code.Parser.{plain_spoken};
ghost use Rattle.mc_command_line.specs.Plain.{plain_bounds, plain_text};

use crate::parser::Spoken;

/// How many calls a run may make, and how high its calls may stand.
#[derive(Clone, Copy, Debug, PartialEq, Eq)]
pub struct Bounds {
    /// The greatest number of calls.
    pub budget: u32,
    /// The greatest height of calls.
    pub depth: u32,
}

const GREATEST_BUDGET: u32 = 100_000_000;

const DEFAULT_BUDGET: u32 = 10_000_000;

const GREATEST_DEPTH: u32 = 10_000_000;

const DEFAULT_DEPTH: u32 = 1_000_000;

fn is_digit(byte: u8) -> bool
    ensures { result ≡ is_digit byte }
{
    b'0' <= byte && byte <= b'9'
}

/// The number of one to nine decimal digits.
fn number(text: &[u8]) -> Option<u32>
    ensures { result ≡ number text.now }
{
    if text.is_empty() || text.len() > 9 {
        return None;
    }
    let mut number: u32 = 0;
    for byte in text {
        if !is_digit(*byte) {
            return None;
        }
        number = number * 10 + u32::from(*byte - b'0');
    }
    Some(number)
}

/// A bound from 1 to `greatest`, or its default where its option doesn't stand.
fn bound(value: Option<&str>, greatest: u32, default: u32) -> Option<u32>
    ensures { result ≡ bound greatest default (option_map plain_text value.entry) }
{
    match value {
        None => Some(default),
        Some(text) => match number(text.as_bytes()) {
            Some(number) if 1 <= number && number <= greatest => Some(number),
            _ => None,
        },
    }
}

/// The bounds that the options say.
pub(crate) fn bounds_of(spoken: &Spoken<'_>) -> Option<Bounds>
    ensures { option_map plain_bounds result ≡ bounds (plain_spoken spoken.now) }
{
    let budget = bound(spoken.budget, GREATEST_BUDGET, DEFAULT_BUDGET)?;
    let depth = bound(spoken.depth, GREATEST_DEPTH, DEFAULT_DEPTH)?;
    Some(Bounds { budget, depth })
}
