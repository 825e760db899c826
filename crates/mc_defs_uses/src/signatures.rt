ghost use Rattle.std.specs.Prelude.{◌≡◌, ◌++◌, codes, map, OnOk};
ghost use Rattle.mc_term_data.specs.Plain.{plain_term, term_list};
ghost use Rattle.mc_term_data.specs.Shapes.{operands};
ghost use Rattle.mc_names.specs.Plain.{plain_occurrence};
ghost use Rattle.mc_defs_uses.specs.Occurrences.{parameter_in, all_parameters, parameters_of, func_by, modes_of, further_by};

use crate::insts::{add_all_modes, add_modes};
use crate::types::add_types;
use mc_base::Memory;
use mc_names::Occurrence;
use mc_term_data::{Node, Term, operands};

/// Adds the types and modes of a predicate's or a function's arguments.
pub fn add_parameters_of<'a>(uses: &mut Vec<Occurrence<'a>>, term: &'a Term) -> Result<(), Memory>
    ensures { OnOk result
        (map plain_occurrence uses.new.items
        ≡ map plain_occurrence uses.old.items ++ parameters_of (plain_term term.now)) }
{
    match &term.node {
        Node::App(_, arguments) => add_all_parameters(uses, arguments.as_slice()),
        _ => Ok(()),
    }
}

fn add_all_parameters<'a>(uses: &mut Vec<Occurrence<'a>>, terms: &'a [Term]) -> Result<(), Memory>
    ensures { OnOk result
        (map plain_occurrence uses.new.items
        ≡ map plain_occurrence uses.old.items
        ++ all_parameters (term_list (map plain_term terms.now))) }
{
    for term in terms {
        add_parameter(uses, term)?;
    }
    Ok(())
}

// An argument or a result is a type, with a mode or without.
fn add_parameter<'a>(uses: &mut Vec<Occurrence<'a>>, term: &'a Term) -> Result<(), Memory>
    ensures { OnOk result
        (map plain_occurrence uses.new.items
        ≡ map plain_occurrence uses.old.items ++ parameter_in (plain_term term.now)) }
{
    match operands(b"::", term) {
        Some((of_type, mode)) => {
            add_types(uses, of_type)?;
            add_modes(uses, mode)
        }
        None => add_types(uses, term),
    }
}

/// Adds the types and modes of a function's arguments and of its result.
pub fn add_func<'a>(uses: &mut Vec<Occurrence<'a>>, term: &'a Term) -> Result<(), Memory>
    ensures { OnOk result
        (map plain_occurrence uses.new.items
        ≡ map plain_occurrence uses.old.items
        ++ func_by (operands (codes "=") (plain_term term.now))) }
{
    match operands(b"=", term) {
        Some((function, answer)) => {
            add_parameters_of(uses, function)?;
            add_parameter(uses, answer)
        }
        None => Ok(()),
    }
}

/// Adds the modes of a further mode.
pub fn add_further<'a>(uses: &mut Vec<Occurrence<'a>>, term: &'a Term) -> Result<(), Memory>
    ensures { OnOk result
        (map plain_occurrence uses.new.items
        ≡ map plain_occurrence uses.old.items
        ++ further_by (plain_term term.now) (operands (codes "=") (plain_term term.now))) }
{
    match operands(b"=", term) {
        Some((function, mode)) => {
            add_modes_of(uses, function)?;
            add_modes(uses, mode)
        }
        None => add_modes_of(uses, term),
    }
}

fn add_modes_of<'a>(uses: &mut Vec<Occurrence<'a>>, term: &'a Term) -> Result<(), Memory>
    ensures { OnOk result
        (map plain_occurrence uses.new.items
        ≡ map plain_occurrence uses.old.items ++ modes_of (plain_term term.now)) }
{
    match &term.node {
        Node::App(_, modes) => add_all_modes(uses, modes.as_slice()),
        _ => Ok(()),
    }
}
