ghost use Rattle.std.specs.Prelude.{◌≡◌, [], ◌∷◌, map, IfOk};
ghost use Rattle.mc_term_data.specs.Plain.{at, App, Conj, Disj, no_term, more_terms, plain_term, term_list};

use mc_base::{Copied, Memory, Row, Text};
use mc_term_data::{Node, Term, copied_terms};
use std::alloc::Global;

/// An operator between two terms.
pub fn operator(
    alloc: Global,
    word: &[u8],
    left: Term,
    right: Term,
    line: u32,
) -> Result<Term, Memory>
    ensures { IfOk result
        (λ term.
        plain_term term
        ≡ at (App (word.now ∷ []) (more_terms (plain_term left) (more_terms (plain_term right) no_term))) line) }
{
    let name = Row::one(alloc, Text::new(alloc, word)?)?;
    let mut parts = Row::one(alloc, left)?;
    parts.push(right)?;
    Ok(Term {
        node: Node::App(name, parts),
        line,
    })
}

/// A name over these parts, copied.
pub fn over(alloc: Global, name: &Row<Text>, parts: &Row<Term>, line: u32) -> Result<Term, Memory>
    ensures { IfOk result
        (λ term. plain_term term ≡ at (App name.now (term_list (map plain_term parts.now))) line) }
{
    Ok(Term {
        node: Node::App(name.copied(alloc)?, copied_terms(alloc, parts.as_slice())?),
        line,
    })
}

/// A name, which is copied, over one part.
pub fn over_one(alloc: Global, name: &Row<Text>, part: Term, line: u32) -> Result<Term, Memory>
    ensures { IfOk result
        (λ term. plain_term term ≡ at (App name.now (more_terms (plain_term part) no_term)) line) }
{
    let parts = Row::one(alloc, part)?;
    let name = name.copied(alloc)?;
    Ok(Term {
        node: Node::App(name, parts),
        line,
    })
}

/// A conjunction of two goals.
pub fn both(alloc: Global, left: Term, right: Term, line: u32) -> Result<Term, Memory>
    ensures { IfOk result
        (λ term.
        plain_term term
        ≡ at (Conj (more_terms (plain_term left) (more_terms (plain_term right) no_term))) line) }
{
    let mut goals = Row::one(alloc, left)?;
    goals.push(right)?;
    Ok(Term {
        node: Node::Conj(goals),
        line,
    })
}

/// A conjunction of these goals.
pub fn conjunction_term(goals: Vec<Term>, line: u32) -> Result<Term, Memory>
    ensures { IfOk result (λ term. plain_term term ≡ at (Conj (term_list (map plain_term goals.items))) line) }
{
    Ok(Term {
        node: Node::Conj(Row::of(goals)?),
        line,
    })
}

/// A disjunction of these goals.
pub fn disjunction_term(goals: Vec<Term>, line: u32) -> Result<Term, Memory>
    ensures { IfOk result (λ term. plain_term term ≡ at (Disj (term_list (map plain_term goals.items))) line) }
{
    Ok(Term {
        node: Node::Disj(Row::of(goals)?),
        line,
    })
}
