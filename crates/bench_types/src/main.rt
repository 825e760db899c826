//! Makes a module of as many facts as its first argument says, each over two of a thousand constants, and says what
//! typing makes of them. A second argument stops it before: behind reading (`read`), behind linking (`link`), or behind
//! the table of types (`table`).
#![tactic(auto)]

use mc_base::{Memory, Row, Text};
use mc_compile::{CompileFault, Given, Named, Read, Typed};
use mc_type_phase::typecheck;
use std::alloc::Global;
use std::{env, io};

// How many constants there are.
const CONSTANTS: u32 = 1000;

// Where the program stops.
#[derive(Clone, Copy, PartialEq, Eq)]
enum Stage {
    Read,
    Linked,
    Table,
    Typed,
}

// The text of the module.
fn module(alloc: Global, facts: u32) -> Result<Text, Memory> {
    let mut text = Text::new(alloc, b":- module big.\n:- interface.\n:- type t ---> n0")?;
    for number in 1..CONSTANTS {
        text.extend(format!(in alloc; " ; n{number}")?.as_bytes())?;
    }
    text.extend(b".\n:- pred p(t::out, t::out) is nondet.\n:- implementation.\n")?;
    for fact in 0..facts {
        let first = fact.wrapping_mul(7919) % CONSTANTS;
        let second = (fact / 13) % CONSTANTS;
        text.extend(format!(in alloc; "p(n{first}, n{second}).\n")?.as_bytes())?;
    }
    Ok(text)
}

fn given(alloc: Global, facts: u32) -> Result<Row<Given>, Memory> {
    let name = Text::empty(alloc);
    let bytes = module(alloc, facts)?;
    Row::one(alloc, Given { name, bytes })
}

// How many clauses are typed, or how many rules they break.
fn judged(alloc: Global, named: Named) -> Result<usize, Memory> {
    let Named { files, names, .. } = named;
    let mut files = files.into_vec();
    files.truncate(1);
    let files = Row::of(files)?;
    let judged = typecheck(alloc, &names, files, 1, None)?.judged;
    Ok(if judged.broken.is_empty() {
        judged.clauses.len()
    } else {
        judged.broken.len()
    })
}

// How much there is of what the last stage makes.
fn counted(alloc: Global, facts: u32, stage: Stage) -> Result<usize, CompileFault> {
    let files = given(alloc, facts)?;
    let read = Read::of(alloc, &files, None)?;
    if stage == Stage::Read {
        return Ok(read.files.len() as usize);
    }
    let named = Named::of(alloc, read)?;
    if stage == Stage::Linked {
        return Ok(named.names.symbols.len() as usize);
    }
    let typed = Typed::of(alloc, named)?;
    if stage == Stage::Table {
        return Ok(typed.types.len() as usize);
    }
    Ok(judged(alloc, typed.named)?)
}

fn main(rt: HostRuntime) -> io::Result<()> {
    let mut facts = 10;
    let mut stage = Stage::Typed;
    for word in env::args(&rt)? {
        if let Ok(number) = word.parse::<u32>() {
            facts = number;
        }
        stage = match word.as_str() {
            "read" => Stage::Read,
            "link" => Stage::Linked,
            "table" => Stage::Table,
            _ => stage,
        };
    }
    match counted(rt.alloc(), facts, stage) {
        Ok(count) => println!(rt; "{count}"),
        Err(CompileFault::Rejected(broken)) => println!(rt; "{} broken rules", broken.len()),
        Err(_) => println!(rt; "no room"),
    }
}
