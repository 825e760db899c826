ghost use Rattle.std.specs.Prelude.{◌≡◌, map, codes};
ghost use Rattle.mc_term_data.specs.Plain.{plain_term, term_list};
ghost use Rattle.mc_term_data.specs.Shapes.{operands};
ghost use Rattle.mc_decl_syntax.specs.Declarations.{is_moded, are_moded, is_plain, are_plain, is_pred, is_func, is_func_over, is_further, has_modes, is_pragma};
ghost use Rattle.mc_decl_syntax.specs.Insts.{are_modes};

use crate::insts::is_mode;
use crate::types::is_type;
use mc_base::NameSet;
use mc_term_data::{Node, Term, has_none, is_the_word, is_word, operands};
use std::alloc::Global;

/// Whether a term is a predicate over its arguments: each has a mode, or none has, and then no determinism stands
/// behind it.
pub fn is_pred(alloc: Global, term: &Term, has_determinism: bool) -> bool
    ensures { result ≡ is_pred (plain_term term.now) has_determinism }
{
    match &term.node {
        Node::App(name, arguments) => {
            is_word(name)
                && (are_moded(alloc, arguments.as_slice())
                    || !has_determinism && are_plain(arguments.as_slice()))
        }
        _ => false,
    }
}

/// Whether a term is a function over its arguments, with its result: each of these has a mode, or none has, and then
/// no determinism stands behind it.
pub fn is_func(alloc: Global, term: &Term, has_determinism: bool) -> bool
    ensures { result ≡ is_func (operands (codes "=") (plain_term term.now)) has_determinism }
{
    match operands(b"=", term) {
        Some((function, result_term)) => {
            is_func_over(alloc, function, result_term, has_determinism)
        }
        None => false,
    }
}

fn is_func_over(alloc: Global, function: &Term, result_term: &Term, has_determinism: bool) -> bool
    ensures { result ≡ is_func_over (plain_term function.now) (plain_term result_term.now) has_determinism }
{
    match &function.node {
        Node::App(name, arguments) => {
            let arguments = arguments.as_slice();
            is_word(name)
                && (are_moded(alloc, arguments) && is_moded(alloc, result_term)
                    || !has_determinism && are_plain(arguments) && is_plain(result_term))
        }
        _ => false,
    }
}

/// Whether a term is a further mode of a predicate or of a function.
pub fn is_further(alloc: Global, term: &Term) -> bool
    ensures { result ≡ is_further (plain_term term.now) (operands (codes "=") (plain_term term.now)) }
{
    match operands(b"=", term) {
        Some((function, mode)) => has_modes(alloc, function) && is_mode(&NameSet::new(alloc), mode),
        None => has_modes(alloc, term),
    }
}

/// Whether a term is a name without qualifiers over modes.
fn has_modes(alloc: Global, term: &Term) -> bool
    ensures { result ≡ has_modes (plain_term term.now) }
{
    match &term.node {
        Node::App(name, modes) => is_word(name) && are_modes(alloc, modes.as_slice()),
        _ => false,
    }
}

/// Whether each of these terms is a mode.
fn are_modes(alloc: Global, terms: &[Term]) -> bool
    ensures { result ≡ are_modes (term_list (map plain_term terms.now)) }
{
    let none = NameSet::new(alloc);
    for term in terms {
        if !is_mode(&none, term) {
            return false;
        }
    }
    true
}

/// Whether each of these terms is an argument with its mode.
pub fn are_moded(alloc: Global, terms: &[Term]) -> bool
    ensures { result ≡ are_moded (term_list (map plain_term terms.now)) }
{
    for term in terms {
        if !is_moded(alloc, term) {
            return false;
        }
    }
    true
}

/// Whether a term is an argument or a result with its mode, `T :: M`.
fn is_moded(alloc: Global, term: &Term) -> bool
    ensures { result ≡ is_moded (plain_term term.now) }
{
    match operands(b"::", term) {
        Some((of_type, mode)) => is_type(of_type) && is_mode(&NameSet::new(alloc), mode),
        None => false,
    }
}

/// Whether each of these terms is an argument without a mode.
fn are_plain(terms: &[Term]) -> bool
    ensures { result ≡ are_plain (term_list (map plain_term terms.now)) }
{
    for term in terms {
        if !is_plain(term) {
            return false;
        }
    }
    true
}

/// Whether a term is an argument or a result without a mode.
fn is_plain(term: &Term) -> bool
    ensures { result ≡ is_plain (plain_term term.now) }
{
    operands(b"::", term).is_none() && is_type(term)
}

/// Whether a term is a pragma without effect, `inline(..)` or `no_inline(..)`.
pub fn is_pragma(term: &Term) -> bool
    ensures { result ≡ is_pragma (plain_term term.now) }
{
    match &term.node {
        Node::App(name, arguments) => {
            (is_the_word(b"inline", name) || is_the_word(b"no_inline", name))
                && !has_none(arguments)
        }
        _ => false,
    }
}
