ghost use Rattle.std.specs.Prelude.{◌≡◌, ◌↔◌, IsTrue, not, ◌&&◌, [], None, codes, map};
ghost use Rattle.mc_term_data.specs.Plain.{plain_term, term_list};
ghost use Rattle.mc_term_data.specs.Shapes.{operands};
ghost use Rattle.mc_clause_syntax.specs.StateVariables.{is_state};
ghost use Rattle.mc_clause_syntax.specs.States.{states_of};
ghost use Rattle.mc_state_variables.specs.Numbered.{numbered_clause};
ghost use Rattle.mc_state_variables.specs.code.Stateless.{stateless, all_stateless};

use mc_base::Text;
use mc_clause_syntax::is_state;
use mc_term_data::{Node, Term, operands};

/// Whether a clause is a fact without state variables, which stays what it is when they are written out. It takes stack
/// for each level of the fact, and no memory.
pub fn stays_as_written(clause: &Term) -> bool
    ensures which { IsTrue result
        ↔ ((operands (codes ":-") (plain_term clause.now) ≡ None)
        × (states_of (plain_term clause.now) ≡ [])) }
    ensures same { IsTrue result → numbered_clause (plain_term clause.now) ≡ plain_term clause.now }
{
    match operands(b":-", clause) {
        Some(_) => false,
        None => is_stateless(clause),
    }
}

// Whether no state variable stands in a term.
#[cycle(stateless)]
fn is_stateless(term: &Term) -> bool
    ensures { result ≡ stateless (plain_term term.now) }
{
    match &term.node {
        Node::App(name, parts) => {
            is_other(name.as_slice(), parts.as_slice()) && are_stateless(parts.as_slice())
        }
        Node::List(elements, tail) => {
            if !are_stateless(elements.as_slice()) {
                return false;
            }
            match tail {
                Some(tail) => is_stateless(tail),
                None => true,
            }
        }
        Node::Conj(parts) | Node::Disj(parts) => are_stateless(parts.as_slice()),
        Node::Var(_) | Node::Int(_) | Node::Str(_) => true,
    }
}

#[cycle(stateless)]
fn are_stateless(terms: &[Term]) -> bool
    ensures { result ≡ all_stateless (term_list (map plain_term terms.now)) }
{
    for term in terms {
        if !is_stateless(term) {
            return false;
        }
    }
    true
}

// Whether a name over parts is no state variable. The parts are counted first, since most names have none or several.
#[tactic(auto, using(crate::proofs::Stateless::several_are_none))]
fn is_other(name: &[Text], parts: &[Term]) -> bool
    ensures { result ≡ not (is_state name.now (term_list (map plain_term parts.now))) }
{
    match parts {
        [_] => !is_state(name, parts),
        _ => true,
    }
}
