//! Measures runs and printing, by the first word of the command line: `print LINES` prints answer lines; `count`, `deep`,
//! `reverse` and `digits` run so far by the plain executor. Without words it prints two lines and the answers of two digits.
#![tactic(auto)]

mod plain;
mod printing;
mod procedures;

use std::{env, io};

fn measure(rt: &HostRuntime, words: &[String]) -> io::Result<()> {
    let number = match words.get(2) {
        Some(text) => text.as_str().parse::<i64>().unwrap_or(0),
        None => 0,
    };
    match words.get(1) {
        None => small(rt),
        Some(word) => {
            if word.as_str() == "print" {
                return printing::print_lines(rt, number);
            }
            plain::print_answers(rt, word.as_str(), number)
        }
    }
}

/// Each measurement once, small.
fn small(rt: &HostRuntime) -> io::Result<()> {
    plain::print_answers(rt, "digits", 2)?;
    printing::print_lines(rt, 2)
}

fn main(rt: HostRuntime) -> io::Result<()> {
    let words = env::args(&rt)?.collect::<Vec<String>>(rt.alloc())?;
    measure(&rt, words.as_slice())
}
