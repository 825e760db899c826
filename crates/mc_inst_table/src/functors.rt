ghost use Rattle.std.specs.Prelude.{◌≡◌, ◌∷◌, [], map, IfOk};
ghost use Rattle.mc_term_data.specs.Plain.{plain_term, term_list};
ghost use Rattle.mc_names.specs.Definitions.{symbol_name};
ghost use Rattle.mc_inst_table.specs.Plain.{plain_functor};
ghost use Rattle.mc_inst_table.specs.Written.{functor, functors, listed_functors};

use crate::inst::Functor;
use mc_base::{Memory, Row, Text};
use mc_names::symbol_name;
use mc_term_data::{Node, Term};
use std::alloc::Global;

/// The constructors that terms name.
///
/// # Errors
///
/// `Memory` where there is no room.
#[tactic(auto, using(crate::proofs::Listing::functors_more))]
pub fn functors(alloc: Global, terms: &[Term]) -> Result<Row<Functor>, Memory>
    ensures { IfOk result
        (λ all. map plain_functor all ≡ functors (term_list (map plain_term terms.now))) }
{
    let mut all = Vec::new(alloc);
    for term in terms {
        all.push(functor(alloc, term)?)?;
    }
    Row::of(all)
}

// The constructor that a term names.
fn functor(alloc: Global, term: &Term) -> Result<Functor, Memory>
    ensures { IfOk result (λ f. plain_functor f ≡ functor (symbol_name (plain_term term.now))) }
{
    let symbol = symbol_name(term);
    if symbol.arity > u32::MAX as usize {
        return Err(Memory);
    }
    let name = Text::new(alloc, symbol.name)?;
    let arity = symbol.arity as u32;
    Ok(Functor { name, arity })
}

/// The constructors that `bound` lists over a term.
///
/// # Errors
///
/// `Memory` where there is no room.
pub fn listed_functors(alloc: Global, term: &Term) -> Result<Row<Functor>, Memory>
    ensures { IfOk result
        (λ all. map plain_functor all ≡ listed_functors (plain_term term.now)) }
{
    match &term.node {
        Node::Disj(terms) => functors(alloc, terms.as_slice()),
        Node::App(_, _) => one_functor(alloc, term),
        Node::Var(_) => one_functor(alloc, term),
        Node::Int(_) => one_functor(alloc, term),
        Node::Str(_) => one_functor(alloc, term),
        Node::List(_, None) => one_functor(alloc, term),
        Node::List(_, Some(_)) => one_functor(alloc, term),
        Node::Conj(_) => one_functor(alloc, term),
    }
}

// The constructor that a term names, alone.
fn one_functor(alloc: Global, term: &Term) -> Result<Row<Functor>, Memory>
    ensures { IfOk result
        (λ all. map plain_functor all ≡ functor (symbol_name (plain_term term.now)) ∷ []) }
{
    let one = functor(alloc, term)?;
    Row::one(alloc, one)
}
