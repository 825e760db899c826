ghost use Rattle.std.specs.Prelude.{◌≡◌, map, IfOk};
ghost use Rattle.mc_term_data.specs.Plain.{plain_term, term_list};
ghost use Rattle.mc_term_data.specs.Shapes.{variable};
ghost use Rattle.mc_names.specs.Parameters.{name_of, variable_names, parameters_of, place_of};

use mc_base::{Memory, Row, Text};
use mc_term_data::{Node, Term, variable};
use std::alloc::Global;

/// The parameters of a type, by its head, in order.
///
/// # Errors
///
/// `Memory` where there is no room.
pub fn parameters_of(alloc: Global, head: &Term) -> Result<Row<Text>, Memory>
    ensures { IfOk result (λ names. names ≡ parameters_of (plain_term head.now)) }
{
    match &head.node {
        Node::App(_, arguments) => variable_names(alloc, arguments.as_slice()),
        _ => Ok(Row::new(alloc)),
    }
}

// The names of variables; what is no variable has the empty name.
fn variable_names(alloc: Global, terms: &[Term]) -> Result<Row<Text>, Memory>
    ensures { IfOk result (λ names. names ≡ variable_names (term_list (map plain_term terms.now))) }
{
    let mut names = Vec::new(alloc);
    for term in terms {
        names.push(name_of(alloc, term)?)?;
    }
    Row::of(names)
}

fn name_of(alloc: Global, term: &Term) -> Result<Text, Memory>
    ensures { IfOk result (λ name. name ≡ name_of (variable (plain_term term.now))) }
{
    match variable(term) {
        Some(name) => Text::new(alloc, name),
        None => Ok(Text::empty(alloc)),
    }
}

/// The place of a name among names, or that of their end.
pub fn place_of(name: &[u8], names: &[Text]) -> Result<u32, Memory>
    ensures { IfOk result (λ k. k ≡ place_of name.now names.now) }
{
    if names.len() > u32::MAX as usize {
        return Err(Memory);
    }
    let mut place = 0;
    for known in names {
        if known.bytes() == name {
            return Ok(place);
        }
        place += 1;
    }
    Ok(place)
}
