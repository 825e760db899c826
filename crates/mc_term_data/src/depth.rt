ghost use Rattle.std.specs.Prelude.{◌≡◌, ◌+◌, ◌-◌, ◌^◌, min, max, Some, None};
ghost use Rattle.mc_term_data.specs.Plain.{PlainTerm, plain_term, plain_terms, depth as depth_of, deepest};
ghost use Rattle.mc_term_data.specs.code.LastParts.{last_term, last_part};

use crate::term::{Node, Term};
use mc_base::Row;

impl Term {
    /// How deep the term is; 2^32 - 1 also stands for every greater depth. The last parts go by a loop, so that a
    /// long chain takes no stack.
    #[cycle(depth)]
    pub fn depth(&self) -> u32
        ensures { result ≡ min (depth_of (plain_term self.now)) (2 ^ 32 - 1) }
    {
        let mut deepest: u32 = 0;
        let mut above: u32 = 0;
        let mut rest = self;
        'down: loop {
            deepest = deepest.max(above.saturating_add(rest.depth_over()));
            match rest.last() {
                None => return deepest,
                Some(last) => rest = last,
            }
            above = above.saturating_add(1);
        }
    }

    // How deep the term is where its last part is left out.
    #[cycle(depth)]
    fn depth_over(&self) -> u32
        ensures leaf { last_part (plain_term self.now) ≡ None
            → result ≡ min (depth_of (plain_term self.now)) (2 ^ 32 - 1) }
        ensures over { (last : PlainTerm)
            → last_part (plain_term self.now) ≡ Some last
            → min (depth_of (plain_term self.now)) (2 ^ 32 - 1)
            ≡ min (max result (1 + depth_of last)) (2 ^ 32 - 1) }
    {
        let parts = match &self.node {
            Node::Var(_) | Node::Int(_) | Node::Str(_) => 0,
            Node::List(terms, Some(_)) => deepest(terms.as_slice()),
            Node::List(terms, None) => deepest_front(terms),
            Node::App(_, terms) | Node::Conj(terms) | Node::Disj(terms) => deepest_front(terms),
        };
        parts.saturating_add(1)
    }
}

// The depth of the deepest of a row of terms, the last of which is left out.
#[cycle(depth)]
fn deepest_front(terms: &Row<Term>) -> u32
    ensures none { last_term (plain_terms terms.now) ≡ None
        → result ≡ min (deepest (plain_terms terms.now)) (2 ^ 32 - 1) }
    ensures over { (last : PlainTerm)
        → last_term (plain_terms terms.now) ≡ Some last
        → min (deepest (plain_terms terms.now)) (2 ^ 32 - 1)
        ≡ min (max result (depth_of last)) (2 ^ 32 - 1) }
{
    match terms.as_slice() {
        [] => 0,
        [front @ .., _] => deepest(front),
    }
}

// The depth of the deepest of some terms.
#[cycle(depth)]
fn deepest(terms: &[Term]) -> u32
    ensures { result ≡ min (deepest (plain_terms terms.now)) (2 ^ 32 - 1) }
{
    let mut greatest: u32 = 0;
    for term in terms {
        greatest = greatest.max(term.depth());
    }
    greatest
}
