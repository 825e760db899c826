ghost use Rattle.std.specs.Prelude.{◌≡◌, map};
ghost use Rattle.std.specs.Option.{option_map};
ghost use Rattle.mc_term_data.specs.Plain.{plain_term, term_list};
ghost use Rattle.mc_term_data.specs.Shapes.{word, is_word, is_the_word, has_none, has_one, two, variable, constant, operands};

use crate::term::{Node, Term};
use mc_base::{Row, Text};

/// A name that has no qualifiers.
pub fn word(name: &Row<Text>) -> Option<&[u8]>
    ensures { option_map (λ w. w.now) result ≡ word name.now }
{
    match name.as_slice() {
        [word] => Some(word.bytes()),
        _ => None,
    }
}

/// Whether a name has no qualifiers.
#[tactic(auto, using(crate::proofs::Shapes::is_word_by_length))]
pub fn is_word(name: &Row<Text>) -> bool
    ensures { result ≡ is_word name.now }
{
    name.len() == 1
}

/// Whether a name is this one, without qualifiers.
pub fn is_the_word(wanted: &[u8], name: &Row<Text>) -> bool
    ensures { result ≡ is_the_word wanted.now name.now }
{
    match name.as_slice() {
        [word] => word.bytes() == wanted,
        _ => false,
    }
}

/// Whether there are no terms.
pub fn has_none(terms: &Row<Term>) -> bool
    ensures { result ≡ has_none (term_list (map plain_term terms.now)) }
{
    terms.is_empty()
}

/// Whether there is one term.
#[tactic(auto, using(crate::proofs::Shapes::has_one_by_length))]
pub fn has_one(terms: &Row<Term>) -> bool
    ensures { result ≡ has_one (term_list (map plain_term terms.now)) }
{
    terms.len() == 1
}

/// The two terms that these are.
#[tactic(auto, using(crate::proofs::Shapes::less_than_two, crate::proofs::Shapes::more_than_two))]
pub fn two(terms: &Row<Term>) -> Option<(&Term, &Term)>
    ensures { option_map (λ p. (plain_term p.0.now, plain_term p.1.now)) result
        ≡ two (term_list (map plain_term terms.now)) }
{
    match terms.as_slice() {
        [first, second] => Some((first, second)),
        _ => None,
    }
}

/// The name of a variable.
pub fn variable(term: &Term) -> Option<&[u8]>
    ensures { option_map (λ x. x.now) result ≡ variable (plain_term term.now) }
{
    match &term.node {
        Node::Var(name) => Some(name.bytes()),
        _ => None,
    }
}

/// A name that has no qualifiers and no arguments.
pub fn constant(term: &Term) -> Option<&[u8]>
    ensures { option_map (λ w. w.now) result ≡ constant (plain_term term.now) }
{
    match &term.node {
        Node::App(name, arguments) => {
            if has_none(arguments) {
                word(name)
            } else {
                None
            }
        }
        _ => None,
    }
}

/// The two parts of a name that has no qualifiers: of an operator, its operands.
pub fn operands<'a>(name: &[u8], term: &'a Term) -> Option<(&'a Term, &'a Term)>
    ensures { option_map (λ p. (plain_term p.0.now, plain_term p.1.now)) result
        ≡ operands name.now (plain_term term.now) }
{
    match &term.node {
        Node::App(found, parts) => {
            if is_the_word(name, found) {
                two(parts)
            } else {
                None
            }
        }
        _ => None,
    }
}
