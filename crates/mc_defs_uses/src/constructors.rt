ghost use Rattle.std.specs.Prelude.{◌≡◌, ◌++◌, codes, map, OnOk};
ghost use Rattle.mc_term_data.specs.Plain.{plain_term, term_list};
ghost use Rattle.mc_term_data.specs.Shapes.{operands};
ghost use Rattle.mc_names.specs.Plain.{plain_occurrence};
ghost use Rattle.mc_defs_uses.specs.Occurrences.{field_by, all_fields, constructor_in, all_constructors};

use crate::types::add_types;
use mc_base::Memory;
use mc_names::Occurrence;
use mc_term_data::{Node, Term, operands};

/// Adds the types in the constructors of a union.
pub fn add_all_constructors<'a>(
    uses: &mut Vec<Occurrence<'a>>,
    terms: &'a [Term],
) -> Result<(), Memory>
    ensures { OnOk result
        (map plain_occurrence uses.new.items
        ≡ map plain_occurrence uses.old.items
        ++ all_constructors (term_list (map plain_term terms.now))) }
{
    for term in terms {
        add_constructor(uses, term)?;
    }
    Ok(())
}

fn add_constructor<'a>(uses: &mut Vec<Occurrence<'a>>, term: &'a Term) -> Result<(), Memory>
    ensures { OnOk result
        (map plain_occurrence uses.new.items
        ≡ map plain_occurrence uses.old.items ++ constructor_in (plain_term term.now)) }
{
    match &term.node {
        Node::App(_, fields) => add_all_fields(uses, fields.as_slice()),
        Node::List(fields, Some(last)) => add_fields_and(uses, fields.as_slice(), last),
        _ => Ok(()),
    }
}

fn add_fields_and<'a>(
    uses: &mut Vec<Occurrence<'a>>,
    fields: &'a [Term],
    last: &'a Term,
) -> Result<(), Memory>
    ensures { OnOk result
        (map plain_occurrence uses.new.items
        ≡ map plain_occurrence uses.old.items
        ++ (all_fields (term_list (map plain_term fields.now))
        ++ field_by (plain_term last.now) (operands (codes "::") (plain_term last.now)))) }
{
    add_all_fields(uses, fields)?;
    add_field(uses, last)
}

fn add_all_fields<'a>(uses: &mut Vec<Occurrence<'a>>, terms: &'a [Term]) -> Result<(), Memory>
    ensures { OnOk result
        (map plain_occurrence uses.new.items
        ≡ map plain_occurrence uses.old.items ++ all_fields (term_list (map plain_term terms.now))) }
{
    for term in terms {
        add_field(uses, term)?;
    }
    Ok(())
}

// An argument of a constructor is a type, with the name of a field or without.
fn add_field<'a>(uses: &mut Vec<Occurrence<'a>>, term: &'a Term) -> Result<(), Memory>
    ensures { OnOk result
        (map plain_occurrence uses.new.items
        ≡ map plain_occurrence uses.old.items
        ++ field_by (plain_term term.now) (operands (codes "::") (plain_term term.now))) }
{
    match operands(b"::", term) {
        Some((_, of_type)) => add_types(uses, of_type),
        None => add_types(uses, term),
    }
}
