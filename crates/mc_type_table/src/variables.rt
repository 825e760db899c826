ghost use Rattle.std.specs.Prelude.{◌≡◌, ◌∷◌, ◌++◌, [], List, ℕ, map, IfOk, OnOk};
ghost use Rattle.std.specs.Option.{option_map};
ghost use Rattle.std.specs.Set.{is_member};
ghost use Rattle.std.specs.Str.{bytes_eq};
ghost use Rattle.mc_term_data.specs.Plain.{plain_term, term_list};
ghost use Rattle.mc_term_data.specs.Shapes.{variable};
ghost use Rattle.mc_decl_syntax.specs.Plain.{plain_item};
ghost use Rattle.mc_decl_syntax.specs.Terms.{with_name, names_in};
ghost use Rattle.mc_type_table.specs.Rules.{field, fields, constructor_fields, union_fields, named_parameters, stray, first_stray, first_of, stray_in};

use crate::fields::field;
use mc_base::{Memory, Row, Text};
use mc_decl_syntax::Decl;
use mc_term_data::{Node, Term, variable};
use std::alloc::Global;

/// The first variable in the body of a type that is none of its parameters. It takes stack for each level of a term.
///
/// # Errors
///
/// `Memory` where there is no room.
pub fn stray_variable<'a>(alloc: Global, decl: &'a Decl) -> Result<Option<&'a [u8]>, Memory>
    ensures { IfOk result (λ x. option_map (λ w. w.now) x ≡ stray_in (plain_item decl.now)) }
{
    match decl {
        Decl::UnionType(head, constructors) => {
            let parameters = named_parameters(alloc, head)?;
            Ok(stray_in_union(parameters.as_slice(), constructors.as_slice()))
        }
        Decl::SameType(head, body) => {
            let parameters = named_parameters(alloc, head)?;
            Ok(stray(parameters.as_slice(), body))
        }
        _ => Ok(None),
    }
}

fn stray_in_union<'a>(parameters: &[Text], constructors: &'a [Term]) -> Option<&'a [u8]>
    ensures { option_map (λ w. w.now) result
        ≡ first_of parameters.now (union_fields (term_list (map plain_term constructors.now))) }
{
    for constructor in constructors {
        if let Some(name) = stray_in_constructor(parameters, constructor) {
            return Some(name);
        }
    }
    None
}

fn stray_in_constructor<'a>(parameters: &[Text], constructor: &'a Term) -> Option<&'a [u8]>
    ensures { option_map (λ w. w.now) result
        ≡ first_of parameters.now (constructor_fields (plain_term constructor.now)) }
{
    match &constructor.node {
        Node::App(_, arguments) => stray_in_fields(parameters, arguments.as_slice()),
        Node::List(items, Some(tail)) => stray_in_cell(parameters, items.as_slice(), tail),
        _ => None,
    }
}

// The first stray variable of `[T | U]`.
fn stray_in_cell<'a>(parameters: &[Text], items: &'a [Term], tail: &'a Term) -> Option<&'a [u8]>
    ensures { option_map (λ w. w.now) result
        ≡ first_of parameters.now
        (fields (term_list (map plain_term items.now)) ++ field (plain_term tail.now) ∷ []) }
{
    match stray_in_fields(parameters, items) {
        Some(name) => Some(name),
        None => {
            let last = field(tail);
            stray(parameters, last)
        }
    }
}

fn stray_in_fields<'a>(parameters: &[Text], terms: &'a [Term]) -> Option<&'a [u8]>
    ensures { option_map (λ w. w.now) result
        ≡ first_of parameters.now (fields (term_list (map plain_term terms.now))) }
{
    for term in terms {
        if let Some(name) = stray(parameters, field(term)) {
            return Some(name);
        }
    }
    None
}

// The first variable of a type that is none of these.
#[cycle(stray)]
fn stray<'a>(parameters: &[Text], term: &'a Term) -> Option<&'a [u8]>
    ensures { option_map (λ w. w.now) result ≡ stray parameters.now (plain_term term.now) }
{
    match &term.node {
        Node::Var(name) => {
            if is_among(parameters, name.bytes()) {
                None
            } else {
                Some(name.bytes())
            }
        }
        Node::App(_, arguments) => first_stray(parameters, arguments.as_slice()),
        _ => None,
    }
}

#[cycle(stray)]
fn first_stray<'a>(parameters: &[Text], terms: &'a [Term]) -> Option<&'a [u8]>
    ensures { option_map (λ w. w.now) result
        ≡ first_stray parameters.now (term_list (map plain_term terms.now)) }
{
    for term in terms {
        if let Some(name) = stray(parameters, term) {
            return Some(name);
        }
    }
    None
}

fn is_among(names: &[Text], name: &[u8]) -> bool
    ensures { result ≡ is_member bytes_eq names.now name.now }
{
    for known in names {
        if known.bytes() == name {
            return true;
        }
    }
    false
}

// The names of a type's parameters; a `_` has none.
fn named_parameters(alloc: Global, head: &Term) -> Result<Row<Text>, Memory>
    ensures { IfOk result (λ names. names ≡ named_parameters (plain_term head.now)) }
{
    match &head.node {
        Node::App(_, arguments) => names_in(alloc, arguments.as_slice()),
        _ => Ok(Row::new(alloc)),
    }
}

fn names_in(alloc: Global, terms: &[Term]) -> Result<Row<Text>, Memory>
    ensures { IfOk result (λ names. names ≡ names_in (term_list (map plain_term terms.now))) }
{
    let mut names = Vec::new(alloc);
    for term in terms {
        put_name(alloc, term, &mut names)?;
    }
    Row::of(names)
}

// Puts in the name of a variable, where it has one.
#[tactic(auto, using(crate::proofs::Strays::unnamed, crate::proofs::Strays::nameless, crate::proofs::Strays::other_name))]
fn put_name(alloc: Global, term: &Term, names: &mut Vec<Text>) -> Result<(), Memory>
    ensures { OnOk result
        ((rest : List (List ℕ))
        → names.new.items ++ rest
        ≡ names.old.items ++ with_name (variable (plain_term term.now)) rest) }
{
    let Some(name) = variable(term) else {
        return Ok(());
    };
    if name == b"_".as_slice() {
        return Ok(());
    }
    names.push(Text::new(alloc, name)?)?;
    Ok(())
}
