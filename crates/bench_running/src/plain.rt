//! Runs by the plain executor: a counting loop (`count`), a deep recursion (`deep`), naive reverse (`reverse`) or a query
//! with very many answers (`digits`).

ghost use Rattle.mc_plain.specs.Running.{IsRun};

use crate::procedures::{DIGITS, PROCEDURES};
use mc_base::Memory;
use mc_model::run::{Limits, Step};
use mc_plain::{Plain, names_all};
use std::alloc::{AllocError, Global};
use std::io;
use test_support::{Word, flat_query, program};

const LIMITS: Limits = Limits {
    budget: 4_000_000_000,
    depth: 100_000_000,
};

/// The goal of a query, by its name.
fn asked(alloc: Global, name: &str, number: i64) -> Result<Vec<Word>, Memory> {
    if name == "count" {
        return one_call(alloc, number, Word::Call(0, &[1, 0]));
    }
    if name == "deep" {
        return one_call(alloc, number, Word::Call(1, &[0, 2]));
    }
    if name == "reverse" {
        return reversed(alloc, number);
    }
    digits(alloc, number)
}

/// A call, where variable 0 is a number and variable 1 is 0.
fn one_call(alloc: Global, number: i64, call: Word) -> Result<Vec<Word>, Memory> {
    let words = [Word::Int(0, number), Word::Int(1, 0), call, Word::All(3)];
    Ok(Vec::from_slice(alloc, &words)?)
}

/// A list of so many numbers, and its reverse.
fn reversed(alloc: Global, number: i64) -> Result<Vec<Word>, Memory> {
    let words = [
        Word::Int(0, number),
        Word::Call(4, &[0, 1]),
        Word::Call(3, &[1, 2]),
        Word::All(3),
    ];
    Ok(Vec::from_slice(alloc, &words)?)
}

/// So many digits, at most six.
fn digits(alloc: Global, number: i64) -> Result<Vec<Word>, Memory> {
    let mut words = Vec::new(alloc);
    for digit in DIGITS {
        if (words.len() as i64) < number {
            words.push(digit)?;
        }
    }
    words.push(Word::All(words.len()))?;
    Ok(words)
}

/// How many answers a query has.
fn answers(alloc: Global, name: &str, number: i64) -> Result<u32, Memory> {
    let words = asked(alloc, name, number)?;
    let flat = flat_query(alloc, PROCEDURES, 6, &[0, 1], &words)?;
    let program = program(alloc, &[("[]", 0), ("[|]", 2)])?;
    if !names_all(&program, &flat.program.code) {
        return Ok(0);
    }
    let run = Plain::query(alloc, &program, flat, LIMITS)?;
    counted(run)
}

/// How many answers a run has, at most 100,000,000.
fn counted(mut run: Plain<'_>) -> Result<u32, Memory>
    requires { IsRun run }
{
    for count in 0..100_000_000u32 {
        match run.next_if_bound()? {
            Some(Step::Answer(_)) => {}
            _ => return Ok(count),
        }
    }
    Ok(100_000_000)
}

fn no_room(_memory: Memory) -> io::Error {
    io::Error::from(AllocError)
}

/// Prints how many answers a query has. The number says how far the loop counts, how deep the recursion is, how long the list,
/// or how many digits an answer has.
pub fn print_answers(rt: &HostRuntime, name: &str, number: i64) -> io::Result<()> {
    let count = answers(rt.alloc(), name, number).map_err(no_room)?;
    println!(rt; "{count} answers")
}
