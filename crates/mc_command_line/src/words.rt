//! The commands.
ghost use Rattle.std.specs.Prelude.{◌≡◌, IfOk, map, option_map, Some, string_bytes};
ghost use Rattle.mc_command_line.specs.Words.{are_files, check, commanded, meaning, query, run};
ghost use Rattle.mc_command_line.specs.code.Parser.{plain_spoken};
ghost use Rattle.mc_command_line.specs.Plain.{plain_command, plain_texts};

use crate::limits::{Bounds, bounds_of};
use crate::parser::{Options, Spoken, read_spoken};
use mc_base::Memory;
use std::alloc::Global;

/// What the words of a command line mean.
#[derive(Debug, Drop)]
pub enum Command<'a> {
    /// Compile these files.
    Check(Vec<&'a str>),
    /// Compile these files and run the first one's `main`.
    Run(Bounds, Vec<&'a str>),
    /// List the answers of a goal, or its first alone.
    Query {
        /// Whether only the first answer is wanted.
        first: bool,
        /// The bounds of the run.
        bounds: Bounds,
        /// The goal.
        goal: &'a str,
        /// The files that the goal is asked of.
        files: Vec<&'a str>,
    },
}

const MOST_FILES: usize = 64;

fn are_files(files: &[&str]) -> bool
    ensures { result ≡ are_files (plain_texts files.now) }
{
    !files.is_empty() && files.len() <= MOST_FILES
}

fn check<'a>(spoken: Spoken<'a>) -> Option<Command<'a>>
    ensures { option_map plain_command result ≡ check (Some (plain_spoken spoken.entry)) }
{
    if are_files(spoken.rest.as_slice()) {
        Some(Command::Check(spoken.rest))
    } else {
        None
    }
}

fn run<'a>(spoken: Spoken<'a>) -> Option<Command<'a>>
    ensures { option_map plain_command result ≡ run (Some (plain_spoken spoken.entry)) }
{
    let bounds = bounds_of(&spoken)?;
    if are_files(spoken.rest.as_slice()) {
        Some(Command::Run(bounds, spoken.rest))
    } else {
        None
    }
}

fn query<'a>(spoken: Spoken<'a>) -> Option<Command<'a>>
    ensures { option_map plain_command result ≡ query (Some (plain_spoken spoken.entry)) }
{
    let bounds = bounds_of(&spoken)?;
    let mut files = spoken.rest;
    if files.is_empty() {
        return None;
    }
    let goal = files.remove(0);
    if !are_files(files.as_slice()) {
        return None;
    }
    Some(Command::Query {
        first: spoken.first,
        bounds,
        goal,
        files,
    })
}

const CHECK: Options = Options {
    first: false,
    bounds: false,
};

const RUN: Options = Options {
    first: false,
    bounds: true,
};

const QUERY: Options = Options {
    first: true,
    bounds: true,
};

/// What a command's word and the words behind it mean.
fn commanded<'a>(
    alloc: Global,
    command: &str,
    behind: &'a [String],
) -> Result<Option<Command<'a>>, Memory>
    ensures { IfOk result
        (λ c.
        option_map plain_command c ≡ commanded command.now (map string_bytes behind.entry.now)) }
{
    match command {
        "check" => Ok(read_spoken(alloc, CHECK, behind)?.and_then(check)),
        "run" => Ok(read_spoken(alloc, RUN, behind)?.and_then(run)),
        "query" => Ok(read_spoken(alloc, QUERY, behind)?.and_then(query)),
        _ => Ok(None),
    }
}

/// The command that the words mean; none where they mean no command. The first word names the program and says nothing.
pub fn read_words<'a>(alloc: Global, words: &'a Vec<String>) -> Result<Option<Command<'a>>, Memory>
    ensures { IfOk result (λ c. option_map plain_command c ≡ meaning (map string_bytes words.now.items)) }
{
    match words.as_slice() {
        [_, command, behind @ ..] => commanded(alloc, command.as_str(), behind),
        _ => Ok(None),
    }
}
