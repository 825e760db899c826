ghost use Rattle.std.specs.Prelude.{◌≡◌, map};
ghost use Rattle.mc_term_data.specs.Plain.{plain_term, term_list};
ghost use Rattle.mc_decl_syntax.specs.Terms.{alternatives};
ghost use Rattle.mc_decl_syntax.specs.Types.{is_type, are_types, is_field_name, is_field, are_fields, is_constructor, are_constructors};

use mc_term_data::{Node, Term, has_none, has_one, is_word, operands};

/// Whether a term is a type: a variable, or a name over types. It takes stack for each level of the term.
#[cycle(types)]
pub fn is_type(term: &Term) -> bool
    ensures { result ≡ is_type (plain_term term.now) }
{
    match &term.node {
        Node::Var(_) => true,
        Node::App(_, arguments) => are_types(arguments.as_slice()),
        _ => false,
    }
}

/// Whether each of these terms is a type.
#[cycle(types)]
fn are_types(terms: &[Term]) -> bool
    ensures { result ≡ are_types (term_list (map plain_term terms.now)) }
{
    for term in terms {
        if !is_type(term) {
            return false;
        }
    }
    true
}

/// Whether the terms between the `;` of a union's body are constructors.
#[tactic(auto, using(crate::proofs::Views::and_true))]
pub fn has_constructors(body: &Term) -> bool
    ensures { result ≡ are_constructors (alternatives (plain_term body.now)) }
{
    match &body.node {
        Node::Disj(terms) => are_constructors(terms.as_slice()),
        _ => is_constructor(body),
    }
}

/// Whether each of these terms is a constructor.
fn are_constructors(terms: &[Term]) -> bool
    ensures { result ≡ are_constructors (term_list (map plain_term terms.now)) }
{
    for term in terms {
        if !is_constructor(term) {
            return false;
        }
    }
    true
}

/// Whether a term is a constructor: a name without qualifiers over its arguments, `[]`, or `[T | U]`.
fn is_constructor(term: &Term) -> bool
    ensures { result ≡ is_constructor (plain_term term.now) }
{
    match &term.node {
        Node::App(name, arguments) => is_word(name) && are_fields(arguments.as_slice()),
        Node::List(items, None) => has_none(items),
        Node::List(items, Some(tail)) => {
            has_one(items) && are_fields(items.as_slice()) && is_field(tail)
        }
        _ => false,
    }
}

/// Whether each of these terms is an argument of a constructor.
fn are_fields(terms: &[Term]) -> bool
    ensures { result ≡ are_fields (term_list (map plain_term terms.now)) }
{
    for term in terms {
        if !is_field(term) {
            return false;
        }
    }
    true
}

/// Whether a term is an argument of a constructor: a type, with the name of a field or without.
fn is_field(term: &Term) -> bool
    ensures { result ≡ is_field (plain_term term.now) }
{
    match operands(b"::", term) {
        Some((name, field)) => is_field_name(name) && is_type(field),
        None => is_type(term),
    }
}

/// Whether a term is a name without qualifiers and arguments.
fn is_field_name(term: &Term) -> bool
    ensures { result ≡ is_field_name (plain_term term.now) }
{
    match &term.node {
        Node::App(name, arguments) => is_word(name) && has_none(arguments),
        _ => false,
    }
}
