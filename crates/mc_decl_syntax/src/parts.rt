ghost use Rattle.std.specs.Prelude.{◌≡◌, true, [], ◌∷◌, map, IfOk, MatchResult};
ghost use Rattle.std.specs.Option.{option_map, is_some};
ghost use Rattle.mc_term_data.specs.Plain.{plain_term, term_list};
ghost use Rattle.mc_term_data.specs.Shapes.{one, two, operands};
ghost use Rattle.mc_decl_syntax.specs.Terms.{path, paths, only, alternatives, conjuncts};

use mc_base::{Memory, Row, Text};
use mc_term_data::{Node, Term, has_none, operands};
use std::alloc::Global;

/// The two parts of a name that has no qualifiers, or else the term as it was. It takes no memory.
pub fn into_pair(name: &[u8], term: Term) -> Result<(Term, Term), Term>
    ensures { MatchResult result
        (λ p. Some (plain_term p.0, plain_term p.1) ≡ operands name.now (plain_term term))
        (λ t. (t ≡ term) × (None ≡ operands name.now (plain_term term))) }
{
    if operands(name, &term).is_none() {
        return Err(term);
    }
    match term.into_node() {
        Node::App(_, parts) => Ok(into_two(parts)),
        _ => unreachable!(),
    }
}

/// The two terms that these are.
#[tactic(auto, using(crate::proofs::Views::two_taken))]
fn into_two(mut terms: Row<Term>) -> (Term, Term)
    requires { is_some (two (term_list (map plain_term terms))) ≡ true }
    ensures { Some (plain_term result.0, plain_term result.1) ≡ two (term_list (map plain_term terms)) }
{
    match (terms.pop(), terms.pop()) {
        (Some(second), Some(first)) => (first, second),
        _ => unreachable!(),
    }
}

/// The one part of a name. It takes no memory.
pub fn into_only(term: Term) -> Option<Term>
    ensures { option_map plain_term result ≡ only (plain_term term) }
{
    match term.into_node() {
        Node::App(_, parts) => into_one(parts),
        _ => None,
    }
}

/// The one term that these are.
#[tactic(auto, using(crate::proofs::Views::not_one, crate::proofs::Views::one_taken))]
fn into_one(mut terms: Row<Term>) -> Option<Term>
    ensures { option_map plain_term result ≡ one (term_list (map plain_term terms)) }
{
    if terms.len() == 1 { terms.pop() } else { None }
}

/// The parts of a name without arguments. It takes no memory.
pub fn into_path(term: Term) -> Option<Row<Text>>
    ensures { result ≡ path (plain_term term) }
{
    match term.into_node() {
        Node::App(name, arguments) => {
            if has_none(&arguments) {
                Some(name)
            } else {
                None
            }
        }
        _ => None,
    }
}

/// The parts of each of these names, which have no arguments; None where a term is no such name.
#[tactic(auto, using(crate::proofs::Paths::with_path, crate::proofs::Paths::without_path, crate::proofs::Paths::all_paths))]
pub fn into_paths(alloc: Global, terms: Row<Term>) -> Result<Option<Row<Row<Text>>>, Memory>
    ensures { IfOk result (λ names. names ≡ paths (term_list (map plain_term terms))) }
{
    let mut names = Row::new(alloc);
    for term in terms.into_vec() {
        match into_path(term) {
            Some(name) => names.push(name)?,
            None => return Ok(None),
        }
    }
    Ok(Some(names))
}

/// The terms that `;` stands between.
pub fn into_alternatives(alloc: Global, term: Term) -> Result<Row<Term>, Memory>
    ensures { IfOk result (λ row. term_list (map plain_term row) ≡ alternatives (plain_term term)) }
{
    let line = term.line;
    match term.into_node() {
        Node::Disj(terms) => Ok(terms),
        node => Row::one(alloc, Term { node, line }),
    }
}

/// The terms that `,` stands between.
pub fn into_conjuncts(alloc: Global, term: Term) -> Result<Row<Term>, Memory>
    ensures { IfOk result (λ row. term_list (map plain_term row) ≡ conjuncts (plain_term term)) }
{
    let line = term.line;
    match term.into_node() {
        Node::Conj(terms) => Ok(terms),
        node => Row::one(alloc, Term { node, line }),
    }
}
