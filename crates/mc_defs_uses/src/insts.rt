ghost use Rattle.std.specs.Prelude.{◌≡◌, ◌++◌, [], cond, codes, false, nat_eq, ◌&&◌, map, OnOk};
ghost use Rattle.mc_term_data.specs.Plain.{plain_term, term_list};
ghost use Rattle.mc_term_data.specs.Names.{count};
ghost use Rattle.mc_term_data.specs.Shapes.{is_the_word};
ghost use Rattle.mc_names.specs.Plain.{plain_occurrence, used};
ghost use Rattle.mc_defs_uses.specs.Occurrences.{is_infix, insts_in, insts_over, all_insts, symbols_in, all_symbols, modes_in, all_modes};

use crate::infixes::stands_between;
use mc_base::{Memory, Row, Text};
use mc_names::{Kind, Occurrence};
use mc_term_data::{Node, Term, arity, is_the_word};

/// Adds the insts in an inst; the symbols that `bound` lists aren't looked up.
#[cycle(insts)]
pub fn add_insts<'a>(uses: &mut Vec<Occurrence<'a>>, term: &'a Term) -> Result<(), Memory>
    ensures { OnOk result
        (map plain_occurrence uses.new.items
        ≡ map plain_occurrence uses.old.items ++ insts_in (plain_term term.now)) }
{
    match &term.node {
        Node::App(name, arguments) => add_insts_over(uses, name, arguments.as_slice()),
        _ => Ok(()),
    }
}

#[cycle(insts)]
fn add_insts_over<'a>(
    uses: &mut Vec<Occurrence<'a>>,
    name: &'a Row<Text>,
    arguments: &'a [Term],
) -> Result<(), Memory>
    ensures { OnOk result
        (map plain_occurrence uses.new.items
        ≡ map plain_occurrence uses.old.items
        ++ insts_over name.now
        (is_the_word (codes "bound") name.now
        && nat_eq (count (term_list (map plain_term arguments.now))) 1)
        (nat_eq (count (term_list (map plain_term arguments.now))) 2 && is_infix name.now)
        (count (term_list (map plain_term arguments.now)))
        (term_list (map plain_term arguments.now))) }
{
    match arguments {
        [symbols, ..] if is_bound(name, arguments) => add_symbols(uses, symbols),
        _ => add_named_inst(uses, name.as_slice(), arguments),
    }
}

/// Whether a name over arguments is `bound` over the symbols that it lists.
pub fn is_bound(name: &Row<Text>, arguments: &[Term]) -> bool
    ensures { result
        ≡ (is_the_word (codes "bound") name.now
        && nat_eq (count (term_list (map plain_term arguments.now))) 1) }
{
    is_the_word(b"bound", name) && arity(arguments) == 1
}

#[cycle(insts)]
fn add_named_inst<'a>(
    uses: &mut Vec<Occurrence<'a>>,
    name: &'a [Text],
    arguments: &'a [Term],
) -> Result<(), Memory>
    ensures { OnOk result
        (map plain_occurrence uses.new.items
        ≡ map plain_occurrence uses.old.items
        ++ insts_over name.now false
        (nat_eq (count (term_list (map plain_term arguments.now))) 2 && is_infix name.now)
        (count (term_list (map plain_term arguments.now)))
        (term_list (map plain_term arguments.now))) }
{
    let occurrence = Occurrence::of(Kind::Inst, name, arity(arguments));
    match arguments {
        [first, others @ ..] if stands_between(name, arity(arguments)) => {
            add_insts(uses, first)?;
            uses.push(occurrence)?;
            add_all_insts(uses, others)
        }
        _ => {
            uses.push(occurrence)?;
            add_all_insts(uses, arguments)
        }
    }
}

#[cycle(insts)]
fn add_all_insts<'a>(uses: &mut Vec<Occurrence<'a>>, terms: &'a [Term]) -> Result<(), Memory>
    ensures { OnOk result
        (map plain_occurrence uses.new.items
        ≡ map plain_occurrence uses.old.items ++ all_insts (term_list (map plain_term terms.now))) }
{
    for term in terms {
        add_insts(uses, term)?;
    }
    Ok(())
}

// Adds the insts in the symbols that `bound` lists, or in the only one.
#[cycle(insts)]
fn add_symbols<'a>(uses: &mut Vec<Occurrence<'a>>, term: &'a Term) -> Result<(), Memory>
    ensures { OnOk result
        (map plain_occurrence uses.new.items
        ≡ map plain_occurrence uses.old.items ++ symbols_in (plain_term term.now)) }
{
    match &term.node {
        Node::App(_, insts) => add_all_insts(uses, insts.as_slice()),
        Node::Disj(symbols) => add_all_symbols(uses, symbols.as_slice()),
        Node::List(insts, Some(tail)) => add_insts_and(uses, insts.as_slice(), tail),
        _ => Ok(()),
    }
}

#[cycle(insts)]
fn add_insts_and<'a>(
    uses: &mut Vec<Occurrence<'a>>,
    insts: &'a [Term],
    tail: &'a Term,
) -> Result<(), Memory>
    ensures { OnOk result
        (map plain_occurrence uses.new.items
        ≡ map plain_occurrence uses.old.items
        ++ (all_insts (term_list (map plain_term insts.now)) ++ insts_in (plain_term tail.now))) }
{
    add_all_insts(uses, insts)?;
    add_insts(uses, tail)
}

/// Adds the insts in symbols of an inst.
#[cycle(insts)]
pub fn add_all_symbols<'a>(uses: &mut Vec<Occurrence<'a>>, terms: &'a [Term]) -> Result<(), Memory>
    ensures { OnOk result
        (map plain_occurrence uses.new.items
        ≡ map plain_occurrence uses.old.items ++ all_symbols (term_list (map plain_term terms.now))) }
{
    for term in terms {
        add_symbols(uses, term)?;
    }
    Ok(())
}

/// Adds the modes and insts in a mode, `I >> J` or a name over insts.
pub fn add_modes<'a>(uses: &mut Vec<Occurrence<'a>>, term: &'a Term) -> Result<(), Memory>
    ensures { OnOk result
        (map plain_occurrence uses.new.items
        ≡ map plain_occurrence uses.old.items ++ modes_in (plain_term term.now)) }
{
    match &term.node {
        Node::App(name, insts) => {
            add_mode_name(uses, name, arity(insts.as_slice()))?;
            add_all_insts(uses, insts.as_slice())
        }
        _ => Ok(()),
    }
}

fn add_mode_name<'a>(
    uses: &mut Vec<Occurrence<'a>>,
    name: &'a Row<Text>,
    arity: usize,
) -> Result<(), Memory>
    ensures { OnOk result
        (map plain_occurrence uses.new.items
        ≡ map plain_occurrence uses.old.items
        ++ cond (is_the_word (codes ">>") name.now && nat_eq arity 2) []
        (used Kind.Mode name.now arity)) }
{
    if is_the_word(b">>", name) && arity == 2 {
        return Ok(());
    }
    uses.push(Occurrence::of(Kind::Mode, name.as_slice(), arity))?;
    Ok(())
}

/// Adds what these modes use.
pub fn add_all_modes<'a>(uses: &mut Vec<Occurrence<'a>>, terms: &'a [Term]) -> Result<(), Memory>
    ensures { OnOk result
        (map plain_occurrence uses.new.items
        ≡ map plain_occurrence uses.old.items ++ all_modes (term_list (map plain_term terms.now))) }
{
    for term in terms {
        add_modes(uses, term)?;
    }
    Ok(())
}
