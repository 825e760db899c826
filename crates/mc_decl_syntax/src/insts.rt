ghost use Rattle.std.specs.Prelude.{◌≡◌, map};
ghost use Rattle.mc_term_data.specs.Plain.{plain_term, term_list};
ghost use Rattle.mc_decl_syntax.specs.Terms.{alternatives};
ghost use Rattle.mc_decl_syntax.specs.Insts.{is_inst, is_inst_over, are_insts, are_bound, is_symbol, are_symbols, is_mode};

use mc_base::NameSet;
use mc_term_data::{Node, Term, has_none, has_one, is_the_word};

/// Whether a term is an inst over these parameters: one of them, what `bound` lists, or a name over insts. It takes
/// stack for each level of the term.
#[cycle(insts)]
pub fn is_inst(parameters: &NameSet, term: &Term) -> bool
    ensures { result ≡ is_inst parameters.now (plain_term term.now) }
{
    match &term.node {
        Node::Var(name) => parameters.contains(name.bytes()),
        Node::App(name, arguments) => {
            is_inst_over(
                parameters,
                is_the_word(b"bound", name),
                arguments.as_slice(),
            )
        }
        _ => false,
    }
}

/// Whether a name over these terms is an inst, by whether it is `bound`.
#[cycle(insts)]
fn is_inst_over(parameters: &NameSet, is_bound: bool, arguments: &[Term]) -> bool
    ensures { result ≡ is_inst_over parameters.now is_bound (term_list (map plain_term arguments.now)) }
{
    match arguments {
        [] => true,
        [only] => {
            if is_bound {
                are_bound(parameters, only)
            } else {
                is_inst(parameters, only)
            }
        }
        _ => are_insts(parameters, arguments),
    }
}

/// Whether each of these terms is an inst.
#[cycle(insts)]
fn are_insts(parameters: &NameSet, terms: &[Term]) -> bool
    ensures { result ≡ are_insts parameters.now (term_list (map plain_term terms.now)) }
{
    for term in terms {
        if !is_inst(parameters, term) {
            return false;
        }
    }
    true
}

/// Whether a term lists symbols of a bound inst, with `;` between them.
#[cycle(insts)]
fn are_bound(parameters: &NameSet, term: &Term) -> bool
    ensures { result ≡ are_bound parameters.now (plain_term term.now) }
{
    match &term.node {
        Node::Disj(symbols) => are_symbols(parameters, symbols.as_slice()),
        Node::App(_, arguments) => are_insts(parameters, arguments.as_slice()),
        Node::List(items, None) => has_none(items),
        Node::List(items, Some(tail)) => {
            has_one(items) && are_insts(parameters, items.as_slice()) && is_inst(parameters, tail)
        }
        _ => false,
    }
}

/// Whether each of these terms is a symbol of a bound inst.
#[cycle(insts)]
fn are_symbols(parameters: &NameSet, terms: &[Term]) -> bool
    ensures { result ≡ are_symbols parameters.now (term_list (map plain_term terms.now)) }
{
    for term in terms {
        if !is_symbol(parameters, term) {
            return false;
        }
    }
    true
}

/// Whether a term is a symbol of a bound inst: a name over insts, `[]`, or `[I | J]`.
#[cycle(insts)]
fn is_symbol(parameters: &NameSet, term: &Term) -> bool
    ensures { result ≡ is_symbol parameters.now (plain_term term.now) }
{
    match &term.node {
        Node::App(_, arguments) => are_insts(parameters, arguments.as_slice()),
        Node::List(items, None) => has_none(items),
        Node::List(items, Some(tail)) => {
            has_one(items) && are_insts(parameters, items.as_slice()) && is_inst(parameters, tail)
        }
        _ => false,
    }
}

/// Whether the terms between the `;` of a bound inst's body are symbols.
#[tactic(auto, using(crate::proofs::Views::and_true))]
pub fn has_symbols(parameters: &NameSet, body: &Term) -> bool
    ensures { result ≡ are_symbols parameters.now (alternatives (plain_term body.now)) }
{
    match &body.node {
        Node::Disj(terms) => are_symbols(parameters, terms.as_slice()),
        _ => is_symbol(parameters, body),
    }
}

/// Whether a term is a mode over these parameters: `I >> J`, or a name over insts.
pub fn is_mode(parameters: &NameSet, term: &Term) -> bool
    ensures { result ≡ is_mode parameters.now (plain_term term.now) }
{
    match &term.node {
        Node::App(_, arguments) => are_insts(parameters, arguments.as_slice()),
        _ => false,
    }
}
