//! How many tokens and faults a walk over a text meets.

ghost use Rattle.std.specs.Prelude.{◌+◌, ◌≤◌, length};

use mc_tokens::{Kind, Walk};
use std::io;

// How many tokens and faults a walk met.
struct Counts {
    tokens: usize,
    faults: usize,
}

fn count(text: &[u8]) -> Counts
    ensures { result.tokens + result.faults ≤ length text.now }
{
    let mut walk = Walk::new(text);
    let mut counts = Counts {
        tokens: 0,
        faults: 0,
    };
    let mut place = 0;
    let mut after = Kind::Eof;
    loop {
        match walk.next(place, &after) {
            Ok(token) => {
                if let Kind::Eof = token.kind {
                    return counts;
                }
                counts.tokens += 1;
                place = token.end;
                after = token.kind;
            }
            Err(fault) => {
                counts.faults += 1;
                place = fault.at + 1;
                after = Kind::Eof;
            }
        }
    }
}

pub fn print_counts(rt: &HostRuntime, text: &[u8]) -> io::Result<()> {
    let Counts { tokens, faults } = count(text);
    println!(rt; "tokens {tokens}, faults {faults}")
}
