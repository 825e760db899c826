ghost use Rattle.std.specs.Prelude.{◌≡◌, ◌&&◌, ◌∷◌, [], codes, nat_eq, map, IfOk};
ghost use Rattle.std.specs.Option.{option_map, option_or};
ghost use Rattle.mc_term_data.specs.Plain.{plain_term, term_list};
ghost use Rattle.mc_term_data.specs.Names.{count};
ghost use Rattle.mc_decl_syntax.specs.Plain.{plain_item};
ghost use Rattle.mc_term_data.specs.Shapes.{operands, is_the_word};
ghost use Rattle.mc_names.specs.Plain.{plain_name_arity};
ghost use Rattle.mc_defs_uses.specs.Twice as T;

use crate::insts::is_bound;
use crate::name_arity_set::NameAritySet;
use mc_base::{Memory, Row, Text};
use mc_decl_syntax::Decl;
use mc_names::{NameArity, symbol_name};
use mc_term_data::{Node, Term, operands};
use std::alloc::Global;

/// The first name in the text of an item that stands twice in one union or in one bound inst. It takes stack for each
/// level of a term.
pub fn twice_in<'a>(alloc: Global, decl: &'a Decl) -> Result<Option<NameArity<'a>>, Memory>
    ensures { IfOk result (λ found. option_map plain_name_arity found ≡ T.twice_in (plain_item decl.now)) }
{
    match decl {
        Decl::UnionType(_, constructors) => again_among(alloc, constructors.as_slice()),
        Decl::SameInst(_, body) => again_in(alloc, body),
        Decl::BoundInst(_, symbols) => again_symbols(alloc, symbols.as_slice()),
        Decl::ModeDef(_, body) => again_in(alloc, body),
        Decl::Pred(term, _) => again_in_signature(alloc, term),
        Decl::Func(term, _) => again_in_func(alloc, term),
        Decl::Mode(term, _) => again_in_modes(alloc, term),
        _ => Ok(None),
    }
}

// The first of these constructors whose name stands before it too.
fn again_among<'a>(alloc: Global, terms: &'a [Term]) -> Result<Option<NameArity<'a>>, Memory>
    ensures { IfOk result
        (λ found.
        option_map plain_name_arity found ≡ T.again_among [] (term_list (map plain_term terms.now))) }
{
    match terms {
        [] | [_] => Ok(None),
        [first, second] => Ok(again_of_two(first, second)),
        _ => again_among_many(alloc, terms),
    }
}

// The same of two, without a set.
fn again_of_two<'a>(first: &'a Term, second: &'a Term) -> Option<NameArity<'a>>
    ensures { option_map plain_name_arity result
        ≡ T.again_among [] (term_list (plain_term first.now ∷ plain_term second.now ∷ [])) }
{
    let name = symbol_name(second);
    if symbol_name(first) == name {
        return Some(name);
    }
    None
}

fn again_among_many<'a>(alloc: Global, terms: &'a [Term]) -> Result<Option<NameArity<'a>>, Memory>
    ensures { IfOk result
        (λ found.
        option_map plain_name_arity found ≡ T.again_among [] (term_list (map plain_term terms.now))) }
{
    let mut names = NameAritySet::new(alloc);
    for term in terms {
        let name = symbol_name(term);
        if !names.insert(name)? {
            return Ok(Some(name));
        }
    }
    Ok(None)
}

// The first symbol of a bound inst in an inst whose name stands before it too, in the same bound inst.
#[cycle(again)]
fn again_in<'a>(alloc: Global, term: &'a Term) -> Result<Option<NameArity<'a>>, Memory>
    ensures { IfOk result (λ found. option_map plain_name_arity found ≡ T.again_in (plain_term term.now)) }
{
    match &term.node {
        Node::App(name, arguments) => again_over(alloc, name, arguments.as_slice()),
        _ => Ok(None),
    }
}

#[cycle(again)]
fn again_over<'a>(
    alloc: Global,
    name: &'a Row<Text>,
    arguments: &'a [Term],
) -> Result<Option<NameArity<'a>>, Memory>
    ensures { IfOk result
        (λ found.
        option_map plain_name_arity found
        ≡ T.again_over
        (is_the_word (codes "bound") name.now
        && nat_eq (count (term_list (map plain_term arguments.now))) 1)
        (term_list (map plain_term arguments.now))) }
{
    match arguments {
        [symbols, ..] if is_bound(name, arguments) => again_bound(alloc, symbols),
        _ => again_in_all(alloc, arguments),
    }
}

#[cycle(again)]
fn again_in_all<'a>(alloc: Global, terms: &'a [Term]) -> Result<Option<NameArity<'a>>, Memory>
    ensures { IfOk result
        (λ found.
        option_map plain_name_arity found ≡ T.again_in_all (term_list (map plain_term terms.now))) }
{
    for term in terms {
        if let Some(found) = again_in(alloc, term)? {
            return Ok(Some(found));
        }
    }
    Ok(None)
}

// The same of the symbols that `bound` lists, or of the only one.
#[cycle(again)]
fn again_bound<'a>(alloc: Global, term: &'a Term) -> Result<Option<NameArity<'a>>, Memory>
    ensures { IfOk result
        (λ found. option_map plain_name_arity found ≡ T.again_bound (plain_term term.now)) }
{
    match &term.node {
        Node::Disj(symbols) => again_symbols(alloc, symbols.as_slice()),
        Node::App(_, insts) => again_in_all(alloc, insts.as_slice()),
        Node::List(insts, Some(tail)) => again_tailed(alloc, insts.as_slice(), tail),
        _ => Ok(None),
    }
}

#[cycle(again)]
fn again_tailed<'a>(
    alloc: Global,
    insts: &'a [Term],
    tail: &'a Term,
) -> Result<Option<NameArity<'a>>, Memory>
    ensures { IfOk result
        (λ found.
        option_map plain_name_arity found
        ≡ option_or (T.again_in_all (term_list (map plain_term insts.now)))
        (T.again_in (plain_term tail.now))) }
{
    match again_in_all(alloc, insts)? {
        Some(found) => Ok(Some(found)),
        None => again_in(alloc, tail),
    }
}

#[cycle(again)]
fn again_symbols<'a>(alloc: Global, terms: &'a [Term]) -> Result<Option<NameArity<'a>>, Memory>
    ensures { IfOk result
        (λ found.
        option_map plain_name_arity found
        ≡ T.again_symbols [] (term_list (map plain_term terms.now))) }
{
    let mut names = NameAritySet::new(alloc);
    for term in terms {
        let name = symbol_name(term);
        if !names.insert(name)? {
            return Ok(Some(name));
        }
        if let Some(found) = again_bound(alloc, term)? {
            return Ok(Some(found));
        }
    }
    Ok(None)
}

fn again_in_signature<'a>(alloc: Global, term: &'a Term) -> Result<Option<NameArity<'a>>, Memory>
    ensures { IfOk result
        (λ found. option_map plain_name_arity found ≡ T.again_in_signature (plain_term term.now)) }
{
    match &term.node {
        Node::App(_, arguments) => again_in_parameters(alloc, arguments.as_slice()),
        _ => Ok(None),
    }
}

fn again_in_parameters<'a>(
    alloc: Global,
    terms: &'a [Term],
) -> Result<Option<NameArity<'a>>, Memory>
    ensures { IfOk result
        (λ found.
        option_map plain_name_arity found
        ≡ T.again_in_parameters (term_list (map plain_term terms.now))) }
{
    for term in terms {
        if let Some(found) = again_in_mode(alloc, term)? {
            return Ok(Some(found));
        }
    }
    Ok(None)
}

// The same of the mode that an argument or a result has.
fn again_in_mode<'a>(alloc: Global, term: &'a Term) -> Result<Option<NameArity<'a>>, Memory>
    ensures { IfOk result
        (λ found.
        option_map plain_name_arity found
        ≡ T.again_in_mode (operands (codes "::") (plain_term term.now))) }
{
    match operands(b"::", term) {
        Some((_, mode)) => again_in(alloc, mode),
        None => Ok(None),
    }
}

fn again_in_func<'a>(alloc: Global, term: &'a Term) -> Result<Option<NameArity<'a>>, Memory>
    ensures { IfOk result
        (λ found.
        option_map plain_name_arity found
        ≡ T.again_in_func (operands (codes "=") (plain_term term.now))) }
{
    match operands(b"=", term) {
        Some((function, answer)) => match again_in_signature(alloc, function)? {
            Some(found) => Ok(Some(found)),
            None => again_in_mode(alloc, answer),
        },
        None => Ok(None),
    }
}

fn again_in_modes<'a>(alloc: Global, term: &'a Term) -> Result<Option<NameArity<'a>>, Memory>
    ensures { IfOk result
        (λ found.
        option_map plain_name_arity found
        ≡ T.again_in_modes (plain_term term.now) (operands (codes "=") (plain_term term.now))) }
{
    match operands(b"=", term) {
        Some((function, mode)) => match again_in(alloc, function)? {
            Some(found) => Ok(Some(found)),
            None => again_in(alloc, mode),
        },
        None => again_in(alloc, term),
    }
}
