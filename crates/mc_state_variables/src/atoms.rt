ghost use Rattle.std.specs.Prelude.{◌≡◌, ◌++◌, map, option_map, IfOk};
ghost use Rattle.mc_term_data.specs.Plain.{PlainTerms, at, App, Tailed, plain_term, term_list};
ghost use Rattle.mc_state_variables.specs.Numbered.{one_version, behind_before, term_of, terms_of};
ghost use Rattle.mc_state_variables.specs.code.Helds.{plain_helds, listed, maybe_one};

use crate::held::{Held, after_of, before_of, version};
use mc_base::{Copied, Memory, Row, Text};
use mc_clause_syntax::{StateForm, state_variable};
use mc_term_data::{Node, Term};
use std::alloc::Global;

/// A term of an atom with its state variables written out. Of `!X` it is the version after.
#[cycle(atoms)]
pub fn term_of(alloc: Global, held: &[Held<'_>], term: &Term) -> Result<Term, Memory>
    ensures { IfOk result
        (λ out. plain_term out ≡ term_of (plain_helds held.now) (plain_term term.now)) }
{
    match &term.node {
        Node::App(name, parts) => match state_variable(name.as_slice(), parts.as_slice()) {
            Some((form, variable)) => one_version(alloc, held, form, variable, term.line),
            None => atom(alloc, held, name, parts.as_slice(), term.line),
        },
        Node::List(elements, None) => {
            let elements = terms_of(alloc, held, elements.as_slice())?;
            Ok(Term {
                node: Node::List(elements, None),
                line: term.line,
            })
        }
        Node::List(elements, Some(tail)) => {
            list_of(alloc, held, elements.as_slice(), tail, term.line)
        }
        Node::Conj(parts) => {
            let parts = terms_of(alloc, held, parts.as_slice())?;
            Ok(Term {
                node: Node::Conj(parts),
                line: term.line,
            })
        }
        Node::Disj(parts) => {
            let parts = terms_of(alloc, held, parts.as_slice())?;
            Ok(Term {
                node: Node::Disj(parts),
                line: term.line,
            })
        }
        _ => term.copied(alloc),
    }
}

/// An atom.
#[cycle(atoms)]
pub fn atom(
    alloc: Global,
    held: &[Held<'_>],
    name: &Row<Text>,
    parts: &[Term],
    line: u32,
) -> Result<Term, Memory>
    ensures { IfOk result
        (λ text.
        plain_term text
        ≡ at (App name.now (terms_of (plain_helds held.now) (term_list (map plain_term parts.now)))) line) }
{
    let parts = terms_of(alloc, held, parts)?;
    let name = name.copied(alloc)?;
    Ok(Term {
        node: Node::App(name, parts),
        line,
    })
}

// A list with something behind its bar.
#[cycle(atoms)]
fn list_of(
    alloc: Global,
    held: &[Held<'_>],
    elements: &[Term],
    tail: &Term,
    line: u32,
) -> Result<Term, Memory>
    ensures { IfOk result
        (λ out.
        plain_term out
        ≡ at
        (Tailed (terms_of (plain_helds held.now) (term_list (map plain_term elements.now))) (term_of (plain_helds held.now) (plain_term tail.now)))
        line) }
{
    let elements = terms_of(alloc, held, elements)?;
    let tail = boxed(alloc, held, tail)?;
    Ok(Term {
        node: Node::List(elements, Some(tail)),
        line,
    })
}

// A term of an atom, in a box.
#[cycle(atoms)]
fn boxed(alloc: Global, held: &[Held<'_>], term: &Term) -> Result<Box<Term>, Memory>
    ensures { IfOk result
        (λ out. plain_term out.value ≡ term_of (plain_helds held.now) (plain_term term.now)) }
{
    let written = term_of(alloc, held, term)?;
    let made = Box::new(alloc, written)?;
    Ok(made)
}

/// The terms of an atom with their state variables written out; `!X` is two terms.
#[cycle(atoms)]
#[tactic(auto, using(crate::proofs::Lists::adding))]
pub fn terms_of(alloc: Global, held: &[Held<'_>], terms: &[Term]) -> Result<Row<Term>, Memory>
    ensures { IfOk result
        (λ out.
        term_list (map plain_term out) ≡ terms_of (plain_helds held.now) (term_list (map plain_term terms.now))) }
{
    let mut out = Vec::new(alloc);
    for term in terms {
        if let Some(before) = version_before(alloc, held, term)? {
            out.push(before)?;
        }
        out.push(term_of(alloc, held, term)?)?;
    }
    Row::of(out)
}

// The version of a state variable that is asked for; of both the one after.
fn one_version(
    alloc: Global,
    held: &[Held<'_>],
    form: StateForm,
    variable: &[u8],
    line: u32,
) -> Result<Term, Memory>
    ensures { IfOk result
        (λ out. plain_term out ≡ one_version (plain_helds held.now) line (form, variable.now)) }
{
    match form {
        StateForm::Before => version(alloc, before_of(variable, held), line),
        StateForm::After | StateForm::Both => version(alloc, after_of(variable, held), line),
    }
}

// The version before, where a term is both versions.
fn version_before(alloc: Global, held: &[Held<'_>], term: &Term) -> Result<Option<Term>, Memory>
    ensures { IfOk result
        (λ before.
        (us : PlainTerms)
        → listed (behind_before (plain_helds held.now) (plain_term term.now) us)
        ≡ maybe_one (option_map plain_term before) ++ listed us) }
{
    let Node::App(name, parts) = &term.node else {
        return Ok(None);
    };
    match state_variable(name.as_slice(), parts.as_slice()) {
        Some((StateForm::Both, variable)) => {
            Ok(Some(version(alloc, before_of(variable, held), term.line)?))
        }
        _ => Ok(None),
    }
}
