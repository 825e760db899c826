//! How many clauses a text has, once they are read, and their state variables written out where that is wanted.

use crate::terms::terms_of;
use mc_base::Memory;
use mc_state_variables::numbered_clause;
use mc_terms::Term;
use std::alloc::Global;
use std::io;

fn numbered(alloc: Global, clauses: &[Term]) -> Result<Vec<Term>, Memory> {
    let mut all = Vec::new(alloc);
    for clause in clauses {
        all.push(numbered_clause(alloc, clause)?)?;
    }
    Ok(all)
}

// How many clauses there are when they are read, and numbered where that is wanted.
fn counted(alloc: Global, text: &[u8], only_read: bool) -> Result<usize, Memory> {
    let clauses = terms_of(alloc, text)?;
    if only_read {
        return Ok(clauses.len());
    }
    Ok(numbered(alloc, &clauses)?.len())
}

pub fn print_count(rt: &HostRuntime, text: &[u8], only_read: bool) -> io::Result<()> {
    match counted(rt.alloc(), text, only_read) {
        Ok(clauses) => println!(rt; "{clauses} clauses"),
        Err(Memory) => println!(rt; "no room"),
    }
}
