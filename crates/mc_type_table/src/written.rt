ghost use Rattle.std.specs.Prelude.{◌≡◌, length, map, slice_get, IfOk};
ghost use Rattle.std.specs.Option.{option_map};
ghost use Rattle.mc_term_data.specs.Plain.{plain_term, term_list};
ghost use Rattle.mc_program.specs.Programs.{union_type, no_types};
ghost use Rattle.mc_program.specs.PlainPrograms.{plain_type, type_terms};
ghost use Rattle.mc_term_data.specs.Names.{count, found};
ghost use Rattle.mc_names.specs.Linked.{plain_names};
ghost use Rattle.mc_type_table.specs.Written.{builtin, builtin_rows, is_state, is_state_type, first_meaning, named_type, written_type, written_types};
ghost use Rattle.mc_names.specs.Parameters.{place_of};

use mc_base::{Memory, Row, Text};
use mc_names::{Names, place_of};
use mc_program::ty::Ty;
use mc_source::name::Name;
use mc_term_data::{Node, Term};
use std::alloc::Global;

/// The type that a term writes in the module of a number: a variable by its place among these names, a name by what it
/// means there. Equivalences stand by their names. It takes stack for each level of the term.
///
/// # Errors
///
/// `Memory` where there is no room.
#[cycle(written)]
pub fn type_of_term(
    alloc: Global,
    names: &Names,
    own: u32,
    variables: &[Text],
    term: &Term,
) -> Result<Ty, Memory>
    ensures { IfOk result
        (λ t.
        plain_type t
        ≡ written_type (plain_names names.now) own variables.now (plain_term term.now)) }
{
    match &term.node {
        Node::Var(name) => Ok(Ty::Var(place_of(name.bytes(), variables)?)),
        Node::App(name, arguments) => {
            type_over(alloc, names, own, variables, name, arguments.as_slice())
        }
        Node::Int(_) => Ok(no_type(alloc, names)),
        Node::Str(_) => Ok(no_type(alloc, names)),
        Node::List(_, None) => Ok(no_type(alloc, names)),
        Node::List(_, Some(_)) => Ok(no_type(alloc, names)),
        Node::Conj(_) => Ok(no_type(alloc, names)),
        Node::Disj(_) => Ok(no_type(alloc, names)),
    }
}

// The type that a name over arguments writes.
#[cycle(written)]
fn type_over(
    alloc: Global,
    names: &Names,
    own: u32,
    variables: &[Text],
    name: &Row<Text>,
    arguments: &[Term],
) -> Result<Ty, Memory>
    ensures { IfOk result
        (λ t.
        plain_type t
        ≡ named_type (plain_names names.now) own name.now
        (count (term_list (map plain_term arguments.now)))
        (written_types (plain_names names.now) own variables.now
        (term_list (map plain_term arguments.now)))) }
{
    let types = types_of_terms(alloc, names, own, variables, arguments)?;
    named_type(alloc, names, own, name, types)
}

// What a term is that is no type.
#[tactic(auto, using(crate::proofs::Rows::no_type_length))]
fn no_type(alloc: Global, names: &Names) -> Ty
    ensures { plain_type result ≡ union_type (length (plain_names names.now).types) no_types }
{
    Ty::Union(names.types.len(), Row::new(alloc))
}

#[cycle(written)]
fn types_of_terms(
    alloc: Global,
    names: &Names,
    own: u32,
    variables: &[Text],
    terms: &[Term],
) -> Result<Row<Ty>, Memory>
    ensures { IfOk result
        (λ ts.
        map plain_type ts
        ≡ map (λ t. written_type (plain_names names.now) own variables.now (plain_term t)) terms.now) }
{
    let mut types = Vec::new(alloc);
    for term in terms {
        types.push(type_of_term(alloc, names, own, variables, term)?)?;
    }
    Row::of(types)
}

/// A type's name over arguments, in the module of a number.
///
/// # Errors
///
/// `Memory` where there is no room.
pub fn named_type(
    alloc: Global,
    names: &Names,
    own: u32,
    name: &Row<Text>,
    arguments: Row<Ty>,
) -> Result<Ty, Memory>
    ensures { IfOk result
        (λ t.
        plain_type t
        ≡ named_type (plain_names names.now) own name.now (length arguments)
        (type_terms (map plain_type arguments))) }
{
    let arity = arguments.len();
    if let Some(builtin) = builtin(name.as_slice(), arity) {
        return Ok(builtin);
    }
    let meanings = names.type_candidates(alloc, own, name, arity)?;
    Ok(first_meaning(names, meanings.as_slice(), arguments))
}

// The builtin type that a name over so many arguments means.
fn builtin(name: &[Text], arity: u32) -> Option<Ty>
    ensures { option_map plain_type result ≡ builtin name.now arity }
{
    match name {
        [word] => builtin_type(word.bytes(), arity),
        [] => None,
        [_, _, ..] => None,
    }
}

#[tactic(auto, unfolding(crate::specs::Written::builtin_rows))]
fn builtin_type(name: &[u8], arity: u32) -> Option<Ty>
    ensures { option_map plain_type result ≡ found builtin_rows name.now arity }
{
    if arity != 0 {
        return None;
    }
    if b"int".as_slice() == name {
        return Some(Ty::Int);
    }
    if b"char".as_slice() == name {
        return Some(Ty::Char);
    }
    if b"string".as_slice() == name {
        return Some(Ty::Str);
    }
    None
}

// The first of these types over arguments; a number that no type has where there is none.
#[tactic(auto, using(crate::proofs::Rows::no_type_length))]
fn first_meaning(names: &Names, meanings: &[u32], arguments: Row<Ty>) -> Ty
    ensures { plain_type result
        ≡ first_meaning (plain_names names.now) (type_terms (map plain_type arguments)) meanings.now }
{
    match meanings {
        [] => Ty::Union(names.types.len(), arguments),
        [number, ..] => {
            if is_state_type(names, *number) {
                Ty::Io
            } else {
                Ty::Union(*number, arguments)
            }
        }
    }
}

// Whether the type of a number is the library's type of states.
fn is_state_type(names: &Names, number: u32) -> bool
    ensures { result ≡ is_state_type (slice_get (plain_names names.now).types number) }
{
    number < names.types.len() && is_state(&names.types.get(number).name)
}

// Whether this is the library's type of states.
fn is_state(name: &Name) -> bool
    ensures { result ≡ is_state name.now }
{
    name.module.bytes() == b"io".as_slice()
        && name.name.bytes() == b"state".as_slice()
        && name.arity == 0
}
