ghost use Rattle.std.specs.Prelude.{◌≡◌, ◌++◌, nat_eq, ◌&&◌, map, OnOk};
ghost use Rattle.mc_term_data.specs.Plain.{plain_term, term_list};
ghost use Rattle.mc_term_data.specs.Names.{count};
ghost use Rattle.mc_names.specs.Plain.{plain_occurrence};
ghost use Rattle.mc_defs_uses.specs.Occurrences.{is_infix, types_in, types_over, all_types};

use crate::infixes::stands_between;
use mc_base::{Memory, Text};
use mc_names::{Kind, Occurrence};
use mc_term_data::{Node, Term, arity};

/// Adds the types in a type.
#[cycle(types)]
pub fn add_types<'a>(uses: &mut Vec<Occurrence<'a>>, term: &'a Term) -> Result<(), Memory>
    ensures { OnOk result
        (map plain_occurrence uses.new.items
        ≡ map plain_occurrence uses.old.items ++ types_in (plain_term term.now)) }
{
    match &term.node {
        Node::App(name, arguments) => {
            add_types_over(uses, name.as_slice(), arguments.as_slice())
        }
        _ => Ok(()),
    }
}

#[cycle(types)]
fn add_types_over<'a>(
    uses: &mut Vec<Occurrence<'a>>,
    name: &'a [Text],
    arguments: &'a [Term],
) -> Result<(), Memory>
    ensures { OnOk result
        (map plain_occurrence uses.new.items
        ≡ map plain_occurrence uses.old.items
        ++ types_over name.now
        (nat_eq (count (term_list (map plain_term arguments.now))) 2 && is_infix name.now)
        (count (term_list (map plain_term arguments.now)))
        (term_list (map plain_term arguments.now))) }
{
    let occurrence = Occurrence::of(Kind::DefinedType, name, arity(arguments));
    match arguments {
        [first, others @ ..] if stands_between(name, arity(arguments)) => {
            add_types(uses, first)?;
            uses.push(occurrence)?;
            add_all_types(uses, others)
        }
        _ => {
            uses.push(occurrence)?;
            add_all_types(uses, arguments)
        }
    }
}

#[cycle(types)]
fn add_all_types<'a>(uses: &mut Vec<Occurrence<'a>>, terms: &'a [Term]) -> Result<(), Memory>
    ensures { OnOk result
        (map plain_occurrence uses.new.items
        ≡ map plain_occurrence uses.old.items ++ all_types (term_list (map plain_term terms.now))) }
{
    for term in terms {
        add_types(uses, term)?;
    }
    Ok(())
}
