ghost use Rattle.std.specs.Prelude.{◌≡◌, ◌<◌, ◌≤◌, ◌^◌, length, map, nat_lt, true, false};
ghost use Rattle.mc_term_data.specs.Plain.{plain_term, term_list};
ghost use Rattle.mc_clause_syntax.specs.Limits.{greatest_arguments, width, argument_count, too_many_arguments, any_too_many};

use crate::state::is_both_versions;
use mc_term_data::{Node, Term};

const GREATEST_ARGUMENTS: usize = 255;

/// Whether a name in a clause's term has too many arguments; both versions of a state variable count as two. It takes
/// stack for each level of the term, and no memory.
pub fn clause_has_too_many_arguments(term: &Term) -> bool
    ensures { result ≡ too_many_arguments true (plain_term term.now) }
{
    has_too_many_arguments(term, true)
}

/// Whether a name in a declaration's term has too many arguments. It takes stack for each level of the term, and no
/// memory.
pub fn declaration_has_too_many_arguments(term: &Term) -> bool
    ensures { result ≡ too_many_arguments false (plain_term term.now) }
{
    has_too_many_arguments(term, false)
}

#[cycle(arguments)]
fn has_too_many_arguments(term: &Term, in_clause: bool) -> bool
    ensures { result ≡ too_many_arguments in_clause (plain_term term.now) }
{
    match &term.node {
        Node::App(_, parts) => {
            count_as_too_many(parts.as_slice(), in_clause)
                || any_has_too_many(parts.as_slice(), in_clause)
        }
        Node::List(elements, tail) => {
            if any_has_too_many(elements.as_slice(), in_clause) {
                return true;
            }
            match tail {
                Some(tail) => has_too_many_arguments(tail, in_clause),
                None => false,
            }
        }
        Node::Conj(parts) | Node::Disj(parts) => any_has_too_many(parts.as_slice(), in_clause),
        Node::Var(_) | Node::Int(_) | Node::Str(_) => false,
    }
}

#[cycle(arguments)]
fn any_has_too_many(terms: &[Term], in_clause: bool) -> bool
    ensures { result ≡ any_too_many in_clause (term_list (map plain_term terms.now)) }
{
    for term in terms {
        if has_too_many_arguments(term, in_clause) {
            return true;
        }
    }
    false
}

// Whether these parts of a name are too many arguments. Where they would be few, were each two, none is looked at.
#[tactic(auto, using(crate::proofs::Widths::at_most_two_each))]
fn count_as_too_many(parts: &[Term], in_clause: bool) -> bool
    requires { length parts.now < 2 ^ 32 }
    ensures { result
        ≡ nat_lt greatest_arguments (argument_count in_clause (term_list (map plain_term parts.now))) }
{
    2 * parts.len() > GREATEST_ARGUMENTS && argument_count(parts, in_clause) > GREATEST_ARGUMENTS
}

/// How many arguments these parts of a name count as; in a clause both versions of a state variable count as two.
pub fn argument_count(parts: &[Term], in_clause: bool) -> usize
    requires { length parts.now < 2 ^ 32 }
    ensures { result ≡ argument_count in_clause (term_list (map plain_term parts.now)) }
{
    let mut count = 0;
    for part in parts {
        count += width(part, in_clause);
    }
    count
}

// How many arguments a part of a name counts as.
fn width(part: &Term, in_clause: bool) -> usize
    ensures value { result ≡ width in_clause (plain_term part.now) }
    ensures small { result ≤ 2 }
{
    match &part.node {
        Node::App(name, parts)
            if in_clause && is_both_versions(name.as_slice(), parts.as_slice()) => 2,
        _ => 1,
    }
}
