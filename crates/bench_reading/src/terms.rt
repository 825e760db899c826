//! How many terms a module of ordinary clauses has.

use mc_base::Memory;
use mc_terms::{Position, ReadKind, Term, read_next};
use mc_tokens::Walk;
use std::alloc::{AllocError, Global};
use std::io;

// The clauses of a program that places queens; the module is made of copies of them.
const CLAUSES: &str = "\
:- pred place(list(int)::in, list(int)::in, list(int)::out) is nondet.
place([], _, []).
place([C | Cs], Placed, [Q | Qs]) :-
    select(Q, [C | Cs], Rest),
    safe(Q, 1, Placed),
    place(Rest, [Q | Placed], Qs).
:- pred select(int::out, list(int)::in, list(int)::out) is nondet.
select(X, [X | Xs], Xs).
select(X, [Y | Ys], [Y | Zs]) :- select(X, Ys, Zs).
:- pred safe(int::in, int::in, list(int)::in) is semidet.
safe(_, _, []).
safe(Q, D, [P | Ps]) :- Q \\= P + D, Q \\= P - D, safe(Q, D + 1, Ps).
depth(N, D) :- ( if N = 0 then D = 0 else depth(N - 1, D0), D = D0 + 1 ).
";

fn module(alloc: Global, kib: usize) -> Result<Vec<u8>, AllocError> {
    let mut text = Vec::new(alloc);
    for _ in 0..u32::MAX {
        if text.len() / 1024 >= kib {
            break;
        }
        text.extend_from_slice(CLAUSES.as_bytes())?;
    }
    Ok(text)
}

/// The terms of a text, up to the first that isn't read.
pub fn terms_of(alloc: Global, text: &[u8]) -> Result<Vec<Term>, Memory> {
    let mut terms = Vec::new(alloc);
    if text.len() >= 1 << 30 {
        return Ok(terms);
    }
    let mut walk = Walk::new(text);
    let mut from = Position::START;
    'items: for _ in 0..u32::MAX {
        match read_next(alloc, &mut walk, from) {
            Ok(None) => break,
            Ok(Some(item)) => {
                from = item.end;
                terms.push(item.term)?;
            }
            Err(fault) => match fault.fault.kind {
                ReadKind::Memory => return Err(Memory),
                _ => break,
            },
        }
    }
    Ok(terms)
}

pub fn print_count(rt: &HostRuntime, kib: usize) -> io::Result<()> {
    let text = module(rt.alloc(), kib)?;
    let bytes = text.len();
    match terms_of(rt.alloc(), text.as_slice()) {
        Err(Memory) => println!(rt; "no room"),
        Ok(terms) => {
            let count = terms.len();
            println!(rt; "{bytes} bytes, {count} terms")
        }
    }
}
