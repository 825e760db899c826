ghost use Rattle.std.specs.Prelude.{◌≡◌, ◌↔◌, IsTrue};
ghost use Rattle.mc_term_data.specs.Plain.{plain_term, plain_terms};
ghost use Rattle.mc_term_data.specs.code.LastParts.{last_term, last_part};

use crate::term::{Node, Term};
use mc_base::{Row, Text};

impl Term {
    /// Whether two terms are equal, their lines too. The last parts go by a loop, so that a long chain takes no
    /// stack.
    #[cycle(same)]
    pub fn same(&self, other: &Term) -> bool
        ensures { IsTrue result ↔ (plain_term self.now ≡ plain_term other.now) }
    {
        let mut left = self;
        let mut right = other;
        'down: loop {
            if !left.same_over(right) {
                return false;
            }
            match left.last() {
                None => return right.last().is_none(),
                Some(next) => match right.last() {
                    None => return false,
                    Some(other) => {
                        left = next;
                        right = other;
                    }
                },
            }
        }
    }

    // Whether two terms are equal, where their last parts are.
    #[cycle(same)]
    fn same_over(&self, other: &Term) -> bool
        ensures { last_part (plain_term self.now) ≡ last_part (plain_term other.now)
            → (IsTrue result ↔ (plain_term self.now ≡ plain_term other.now)) }
    {
        if self.line != other.line {
            return false;
        }
        match (&self.node, &other.node) {
            (Node::Var(a), Node::Var(b)) => a.same(b),
            (Node::Int(a), Node::Int(b)) => a == b,
            (Node::Str(a), Node::Str(b)) => a.same(b),
            (Node::App(f, a), Node::App(g, b)) => same_names(f, g) && same_rows(a, b),
            (Node::List(a, None), Node::List(b, None)) => same_rows(a, b),
            (Node::List(a, Some(_)), Node::List(b, Some(_))) => {
                same_terms(a.as_slice(), b.as_slice())
            }
            (Node::Conj(a), Node::Conj(b)) => same_rows(a, b),
            (Node::Disj(a), Node::Disj(b)) => same_rows(a, b),
            _ => false,
        }
    }
}

// Whether two rows of terms are equal, where their last terms are.
#[cycle(same)]
fn same_rows(left: &Row<Term>, right: &Row<Term>) -> bool
    ensures { last_term (plain_terms left.now) ≡ last_term (plain_terms right.now)
        → (IsTrue result ↔ (plain_terms left.now ≡ plain_terms right.now)) }
{
    match left.as_slice() {
        [] => right.is_empty(),
        [front @ .., _] => match right.as_slice() {
            [] => false,
            [other @ .., _] => same_terms(front, other),
        },
    }
}

// Whether two lists of terms are equal.
#[cycle(same)]
fn same_terms(left: &[Term], right: &[Term]) -> bool
    ensures { IsTrue result ↔ (plain_terms left.now ≡ plain_terms right.now) }
{
    if left.len() != right.len() {
        return false;
    }
    for (k, term) in left.iter().enumerate() {
        if !term.same(&right[k]) {
            return false;
        }
    }
    true
}

fn same_names(left: &Row<Text>, right: &Row<Text>) -> bool
    ensures { IsTrue result ↔ (left.now ≡ right.now) }
{
    left == right
}
