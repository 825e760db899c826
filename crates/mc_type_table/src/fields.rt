ghost use Rattle.std.specs.Prelude.{◌≡◌, [], ◌∷◌, ◌++◌, map, IfOk, OnOk};
ghost use Rattle.mc_term_data.specs.Plain.{plain_term, term_list};
ghost use Rattle.mc_type_table.specs.Rules.{field, fields, constructor_fields, union_fields};

use mc_base::Memory;
use mc_term_data::{Node, Term, operands};
use std::alloc::Global;

/// The type of a constructor's argument, which may have a name.
pub fn field(term: &Term) -> &Term
    ensures { plain_term result.now ≡ field (plain_term term.now) }
{
    match operands(b"::", term) {
        Some((_, field)) => field,
        None => term,
    }
}

/// The types of a constructor's arguments, in order.
///
/// # Errors
///
/// `Memory` where there is no room.
pub fn constructor_fields<'a>(alloc: Global, constructor: &'a Term) -> Result<Vec<&'a Term>, Memory>
    ensures { IfOk result
        (λ all.
        map (λ t. plain_term t.now) all.items ≡ constructor_fields (plain_term constructor.now)) }
{
    let mut all = Vec::new(alloc);
    put_constructor_fields(constructor, &mut all)?;
    Ok(all)
}

/// The types of the arguments of a union's constructors, in order.
///
/// # Errors
///
/// `Memory` where there is no room.
#[tactic(auto, using(crate::proofs::UnionFields::union_more))]
pub fn union_fields<'a>(alloc: Global, constructors: &'a [Term]) -> Result<Vec<&'a Term>, Memory>
    ensures { IfOk result
        (λ all.
        map (λ t. plain_term t.now) all.items
        ≡ union_fields (term_list (map plain_term constructors.now))) }
{
    let mut all = Vec::new(alloc);
    for constructor in constructors {
        put_constructor_fields(constructor, &mut all)?;
    }
    Ok(all)
}

fn put_constructor_fields<'a>(constructor: &'a Term, all: &mut Vec<&'a Term>) -> Result<(), Memory>
    ensures { OnOk result
        (map (λ t. plain_term t.now) all.new.items
        ≡ map (λ t. plain_term t.now) all.old.items
        ++ constructor_fields (plain_term constructor.now)) }
{
    match &constructor.node {
        Node::App(_, arguments) => put_fields(arguments.as_slice(), all),
        Node::List(items, Some(tail)) => put_cell_fields(items.as_slice(), tail, all),
        _ => Ok(()),
    }
}

// The types of the arguments of `[T | U]`.
fn put_cell_fields<'a>(
    items: &'a [Term],
    tail: &'a Term,
    all: &mut Vec<&'a Term>,
) -> Result<(), Memory>
    ensures { OnOk result
        (map (λ t. plain_term t.now) all.new.items
        ≡ map (λ t. plain_term t.now) all.old.items
        ++ (fields (term_list (map plain_term items.now)) ++ field (plain_term tail.now) ∷ [])) }
{
    put_fields(items, all)?;
    all.push(field(tail))?;
    Ok(())
}

#[tactic(auto, using(crate::proofs::UnionFields::fields_more))]
fn put_fields<'a>(terms: &'a [Term], all: &mut Vec<&'a Term>) -> Result<(), Memory>
    ensures { OnOk result
        (map (λ t. plain_term t.now) all.new.items
        ≡ map (λ t. plain_term t.now) all.old.items ++ fields (term_list (map plain_term terms.now))) }
{
    for term in terms {
        all.push(field(term))?;
    }
    Ok(())
}
