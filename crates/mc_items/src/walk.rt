ghost use Rattle.std.specs.Prelude.{◌≡◌, map};
ghost use Rattle.std.specs.Option.{option_or};
ghost use Rattle.mc_term_data.specs.Plain.{at, App, plain_term, term_list};
ghost use Rattle.mc_items.specs.Reasons.{left_out, left_out_all, item_left_out, goal_left_out};

use crate::reason::LeftOut;
use crate::refused::reason;
use crate::role::Role;
use mc_base::Text;
use mc_term_data::{Node, Term, arity};

/// The first form that is left out in a term: the term comes before its parts, and the parts come left to right.
#[cycle(walk)]
pub fn left_out(role: Role, term: &Term) -> Option<LeftOut>
    ensures { result ≡ left_out role (plain_term term.now) }
{
    match &term.node {
        Node::Var(_) => match role {
            Role::Goal => Some(LeftOut::HigherOrder),
            _ => None,
        },
        Node::Int(_) | Node::Str(_) => None,
        Node::App(name, parts) => left_out_over(role, name.as_slice(), parts.as_slice()),
        Node::List(elements, None) => left_out_all(role.inner(), elements.as_slice()),
        Node::List(elements, Some(tail)) => {
            left_out_tailed(role.inner(), elements.as_slice(), tail)
        }
        Node::Conj(parts) | Node::Disj(parts) => left_out_all(role.joined(), parts.as_slice()),
    }
}

// The first form that is left out in a name over parts.
#[cycle(walk)]
fn left_out_over(role: Role, name: &[Text], parts: &[Term]) -> Option<LeftOut>
    ensures { result ≡ left_out role (at (App name.now (term_list (map plain_term parts.now))) 0) }
{
    if let Some(form) = reason(role, name, parts) {
        return Some(form);
    }
    let (first_role, others_role) = role.parts(name, arity(parts));
    match parts {
        [first, others @ ..] => match left_out(first_role, first) {
            Some(form) => Some(form),
            None => left_out_all(others_role, others),
        },
        [] => None,
    }
}

// The first form that is left out in a list's elements and what follows the bar.
#[cycle(walk)]
fn left_out_tailed(role: Role, elements: &[Term], tail: &Term) -> Option<LeftOut>
    ensures { result
        ≡ option_or (left_out_all role (term_list (map plain_term elements.now)))
        (left_out role (plain_term tail.now)) }
{
    match left_out_all(role, elements) {
        Some(form) => Some(form),
        None => left_out(role, tail),
    }
}

// The first form that is left out in terms that are all the same there.
#[cycle(walk)]
fn left_out_all(role: Role, terms: &[Term]) -> Option<LeftOut>
    ensures { result ≡ left_out_all role (term_list (map plain_term terms.now)) }
{
    for term in terms {
        if let Some(form) = left_out(role, term) {
            return Some(form);
        }
    }
    None
}

/// The first form in an item that this profile leaves out: a term comes before its parts, and the parts come left
/// to right. It takes no memory, and stack for each level of the term.
pub fn item_left_out(term: &Term) -> Option<LeftOut>
    ensures { result ≡ item_left_out (plain_term term.now) }
{
    left_out(Role::Item, term)
}

/// The first form in a goal that this profile leaves out, found as in an item.
pub fn goal_left_out(term: &Term) -> Option<LeftOut>
    ensures { result ≡ goal_left_out (plain_term term.now) }
{
    left_out(Role::Goal, term)
}
