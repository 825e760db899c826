//! Measures reading, by the words of the command line, each in its turn: `tokens`, `items` and `clauses` (with their state
//! variables written out; `read` alone doesn't write them out) count what stands on standard input; `terms` reads a module
//! of ordinary clauses, of as many KiB as a number before it says, else 64.
#![tactic(auto)]

mod clauses;
mod input;
mod items;
mod terms;
mod tokens;

use std::{env, io};

fn measure(rt: &HostRuntime, word: &str, text: &[u8], kib: &mut usize) -> io::Result<()> {
    if word == "tokens" {
        return tokens::print_counts(rt, text);
    }
    if word == "items" {
        return items::print_count(rt, text);
    }
    if word == "clauses" {
        return clauses::print_count(rt, text, false);
    }
    if word == "read" {
        return clauses::print_count(rt, text, true);
    }
    if word == "terms" {
        return terms::print_count(rt, *kib);
    }
    if let Ok(number) = word.parse::<u16>() {
        *kib = usize::from(number);
    }
    Ok(())
}

fn main(rt: HostRuntime) -> io::Result<()> {
    let text = input::read_all(&rt)?;
    let mut kib = 64;
    for word in env::args(&rt)? {
        measure(&rt, word.as_str(), text.as_slice(), &mut kib)?;
    }
    Ok(())
}
