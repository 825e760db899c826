ghost use Rattle.std.specs.Prelude.{◌≡◌, map};
ghost use Rattle.mc_term_data.specs.Plain.{plain_term, term_list};
ghost use Rattle.mc_items.specs.Declarations.{is_order, is_constraint, declares, declared, is_name_arity, indicates, is_predicate, indicates_pred, is_constant, is_number, is_string, is_fact_table, named_pragma, pragma, sole_pragma, is_constrained, is_existential, declaration};

use crate::reason::LeftOut;
use mc_term_data::{Node, Term, has_none};

/// What a declaration, a name over these parts, is left out for.
pub fn declaration(name: &[u8], parts: &[Term]) -> Option<LeftOut>
    ensures { result ≡ declaration name.now (term_list (map plain_term parts.now)) }
{
    if b"pragma".as_slice() == name {
        return sole_pragma(parts);
    }
    if b"<=".as_slice() == name {
        return is_constrained(parts).then_some(LeftOut::TypeClass);
    }
    if b"some".as_slice() == name {
        return is_existential(parts).then_some(LeftOut::ExistentialType);
    }
    (b"mutable".as_slice() == name).then_some(LeftOut::Mutable)
}

// The pragma of a declaration.
fn sole_pragma(parts: &[Term]) -> Option<LeftOut>
    ensures { result ≡ sole_pragma (term_list (map plain_term parts.now)) }
{
    match parts {
        [only] => pragma(only),
        _ => None,
    }
}

// Whether a declaration has constraints of type classes behind it.
fn is_constrained(parts: &[Term]) -> bool
    ensures { result ≡ is_constrained (term_list (map plain_term parts.now)) }
{
    match parts {
        [first, _] => declares(first),
        _ => false,
    }
}

// Whether a declaration has type variables in front of it.
fn is_existential(parts: &[Term]) -> bool
    ensures { result ≡ is_existential (term_list (map plain_term parts.now)) }
{
    match parts {
        [_, second] => declares(second),
        _ => false,
    }
}

// Whether a term declares a predicate or function, constraints of type classes behind it or not.
#[cycle(declares)]
fn declares(term: &Term) -> bool
    ensures { result ≡ declares (plain_term term.now) }
{
    match &term.node {
        Node::App(name, parts) => match name.as_slice() {
            [word] => declared(word.bytes(), parts.as_slice()),
            _ => false,
        },
        _ => false,
    }
}

#[cycle(declares)]
fn declared(name: &[u8], parts: &[Term]) -> bool
    ensures { result ≡ declared name.now (term_list (map plain_term parts.now)) }
{
    match parts {
        [_] => is_order(name),
        [first, _] => is_constraint(name) && declares(first),
        _ => false,
    }
}

// Whether constraints of type classes stand behind a name.
fn is_constraint(name: &[u8]) -> bool
    ensures { result ≡ is_constraint name.now }
{
    b"<=".as_slice() == name || b"=>".as_slice() == name
}

// A pragma that isn't one of those that this profile knows, or that it knows and doesn't have yet.
fn pragma(term: &Term) -> Option<LeftOut>
    ensures { result ≡ pragma (plain_term term.now) }
{
    match &term.node {
        Node::App(name, parts) => match name.as_slice() {
            [word] => named_pragma(word.bytes(), parts.as_slice()),
            _ => Some(LeftOut::Pragma),
        },
        _ => None,
    }
}

fn named_pragma(name: &[u8], parts: &[Term]) -> Option<LeftOut>
    ensures { result ≡ named_pragma name.now (term_list (map plain_term parts.now)) }
{
    if b"inline".as_slice() == name || b"no_inline".as_slice() == name {
        return None;
    }
    if b"fact_table".as_slice() == name {
        return is_fact_table(parts).then_some(LeftOut::Pragma);
    }
    Some(LeftOut::Pragma)
}

// Whether these are the arguments of a pragma that names a file of facts.
fn is_fact_table(parts: &[Term]) -> bool
    ensures { result ≡ is_fact_table (term_list (map plain_term parts.now)) }
{
    match parts {
        [predicate, file] => is_predicate(predicate) && is_string(file),
        _ => false,
    }
}

// Whether a term is a predicate, by its name and the number of its arguments.
fn is_predicate(term: &Term) -> bool
    ensures { result ≡ is_predicate (plain_term term.now) }
{
    match &term.node {
        Node::App(name, parts) => match name.as_slice() {
            [word] => {
                indicates(word.bytes(), parts.as_slice())
                    || indicates_pred(word.bytes(), parts.as_slice())
            }
            _ => false,
        },
        _ => false,
    }
}

// Whether a name over parts is `pred(p/2)`.
fn indicates_pred(name: &[u8], parts: &[Term]) -> bool
    ensures { result ≡ indicates_pred name.now (term_list (map plain_term parts.now)) }
{
    match parts {
        [only] => b"pred".as_slice() == name && is_name_arity(only),
        _ => false,
    }
}

fn is_name_arity(term: &Term) -> bool
    ensures { result ≡ is_name_arity (plain_term term.now) }
{
    match &term.node {
        Node::App(name, parts) => match name.as_slice() {
            [word] => indicates(word.bytes(), parts.as_slice()),
            _ => false,
        },
        _ => false,
    }
}

// Whether a name over parts is `p/2`.
fn indicates(name: &[u8], parts: &[Term]) -> bool
    ensures { result ≡ indicates name.now (term_list (map plain_term parts.now)) }
{
    match parts {
        [predicate, arity] => {
            b"/".as_slice() == name && is_constant(predicate) && is_number(arity)
        }
        _ => false,
    }
}

fn is_constant(term: &Term) -> bool
    ensures { result ≡ is_constant (plain_term term.now) }
{
    match &term.node {
        Node::App(_, parts) => has_none(parts),
        _ => false,
    }
}

fn is_number(term: &Term) -> bool
    ensures { result ≡ is_number (plain_term term.now) }
{
    matches!(&term.node, Node::Int(_))
}

fn is_string(term: &Term) -> bool
    ensures { result ≡ is_string (plain_term term.now) }
{
    matches!(&term.node, Node::Str(_))
}

/// Whether a name is `pred` or `func`.
pub fn is_order(name: &[u8]) -> bool
    ensures { result ≡ is_order name.now }
{
    b"pred".as_slice() == name || b"func".as_slice() == name
}
