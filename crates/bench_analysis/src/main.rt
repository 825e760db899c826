//! Measures the analysis of goals, by the first word of the command line: `goals FACTS ARITY [alone]`, `insts FACTS NODES
//! SYMBOLS` or `determinisms PROCEDURES [ring]`. Without words it does each once, small.
#![tactic(auto)]

mod determinisms;
mod goals;
mod insts;
mod words;

use crate::words::number;
use std::alloc::AllocError;
use std::{env, io};

pub fn no_room(_memory: mc_base::Memory) -> io::Error {
    io::Error::from(AllocError)
}

fn measure(rt: &HostRuntime, words: &[String]) -> io::Result<()> {
    let first = number(words.get(2));
    let second = number(words.get(3));
    match words.get(1) {
        None => small(rt),
        Some(word) => {
            if word.as_str() == "goals" {
                return goals::print_disjuncts(rt, first, second, words.len() > 4);
            }
            if word.as_str() == "insts" {
                return insts::measure(rt, first, second, number(words.get(4)));
            }
            determinisms::print_failing(rt, first, words.len() > 3)
        }
    }
}

/// Each measurement once, small.
fn small(rt: &HostRuntime) -> io::Result<()> {
    goals::print_disjuncts(rt, 3, 2, false)?;
    insts::measure(rt, 1000, 100, 100)?;
    determinisms::print_failing(rt, 10_000, true)
}

fn main(rt: HostRuntime) -> io::Result<()> {
    let words = env::args(&rt)?.collect::<Vec<String>>(rt.alloc())?;
    measure(&rt, words.as_slice())
}
