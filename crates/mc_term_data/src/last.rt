ghost use Rattle.std.specs.Prelude.{◌≡◌, option_map};
ghost use Rattle.mc_term_data.specs.Plain.{plain_term, plain_terms};
ghost use Rattle.mc_term_data.specs.code.LastParts.{last_term, last_part};

use crate::term::{Node, Term};
use mc_base::Row;

impl Term {
    // The last part: what follows a list's bar, else the last of the terms. None of a term without parts.
    pub(crate) fn last(&self) -> Option<&Term>
        ensures { last_part (plain_term self.now) ≡ option_map (λ last. plain_term last.now) result }
    {
        match &self.node {
            Node::Var(_) | Node::Int(_) | Node::Str(_) => None,
            Node::List(_, Some(tail)) => Some(tail),
            Node::List(terms, None) => last_of(terms),
            Node::App(_, terms) | Node::Conj(terms) | Node::Disj(terms) => last_of(terms),
        }
    }
}

fn last_of(terms: &Row<Term>) -> Option<&Term>
    ensures { last_term (plain_terms terms.now) ≡ option_map (λ last. plain_term last.now) result }
{
    match terms.as_slice() {
        [] => None,
        [.., last] => Some(last),
    }
}
