ghost use Rattle.std.specs.Prelude.{◌≡◌, length, map, None, IfOk};
ghost use Rattle.std.specs.Option.{option_map};
ghost use Rattle.mc_term_data.specs.Plain.{plain_term, term_list};
ghost use Rattle.mc_term_data.specs.Names.{count, found};
ghost use Rattle.mc_accepted.specs.InstRules.{no_insts};
ghost use Rattle.mc_names.specs.Linked.{plain_names};
ghost use Rattle.mc_inst_table.specs.Plain.{plain_mode};
ghost use Rattle.mc_inst_table.specs.Written.{builtin_modes, builtin, over_one, defined_mode, meaning, mode_over, user_mode, written_insts, named_mode, written_mode};

use crate::inst::{Inst, Mode};
use crate::meaning::meaning;
use crate::written::{inst_of_term, insts_of_terms};
use mc_base::{Memory, Row, Text};
use mc_names::Names;
use mc_term_data::{Node, Term, is_the_word, operands};
use std::alloc::Global;

/// The mode that a term writes in the module of a number: `I >> J`, or a name over insts, by what it means there. It takes
/// stack for each level of the term.
///
/// # Errors
///
/// `Memory` where there is no room.
pub fn mode_of_term(
    alloc: Global,
    names: &Names,
    own: u32,
    variables: &[Text],
    term: &Term,
) -> Result<Mode, Memory>
    ensures { IfOk result
        (λ m.
        plain_mode m
        ≡ written_mode (plain_names names.now) own variables.now (plain_term term.now)) }
{
    match operands(b">>", term) {
        Some((first, last)) => {
            let first = inst_of_term(alloc, names, own, variables, first)?;
            let last = inst_of_term(alloc, names, own, variables, last)?;
            Ok(Mode::FromTo(first, last))
        }
        None => named_mode(alloc, names, own, variables, term),
    }
}

// The mode that a term writes which isn't `I >> J`.
fn named_mode(
    alloc: Global,
    names: &Names,
    own: u32,
    variables: &[Text],
    term: &Term,
) -> Result<Mode, Memory>
    ensures { IfOk result
        (λ m.
        plain_mode m
        ≡ named_mode (plain_names names.now) own variables.now (plain_term term.now) None) }
{
    match &term.node {
        Node::App(name, arguments) => mode_over(alloc, names, own, variables, name, arguments),
        Node::Var(_) => Ok(no_mode(alloc, names)),
        Node::Int(_) => Ok(no_mode(alloc, names)),
        Node::Str(_) => Ok(no_mode(alloc, names)),
        Node::List(_, None) => Ok(no_mode(alloc, names)),
        Node::List(_, Some(_)) => Ok(no_mode(alloc, names)),
        Node::Conj(_) => Ok(no_mode(alloc, names)),
        Node::Disj(_) => Ok(no_mode(alloc, names)),
    }
}

// The mode that a name over terms writes.
#[tactic(auto, using(mc_names::proofs::Places::count_is_length))]
fn mode_over(
    alloc: Global,
    names: &Names,
    own: u32,
    variables: &[Text],
    name: &Row<Text>,
    arguments: &Row<Term>,
) -> Result<Mode, Memory>
    ensures { IfOk result
        (λ m.
        plain_mode m
        ≡ mode_over (plain_names names.now) own variables.now name.now
        (term_list (map plain_term arguments.now))) }
{
    let builtin = builtin(name.as_slice(), arguments.len());
    match builtin {
        Some(mode) => Ok(mode),
        None => {
            let mode = user_mode(alloc, names, own, variables, name, arguments)?;
            Ok(mode)
        }
    }
}

// The mode that a name over terms writes which is no builtin one.
fn user_mode(
    alloc: Global,
    names: &Names,
    own: u32,
    variables: &[Text],
    name: &Row<Text>,
    arguments: &Row<Term>,
) -> Result<Mode, Memory>
    ensures { IfOk result
        (λ m.
        plain_mode m
        ≡ user_mode (plain_names names.now) own variables.now name.now
        (term_list (map plain_term arguments.now))) }
{
    let over = over_one(alloc, names, own, variables, name, arguments.as_slice())?;
    match over {
        Some(mode) => Ok(mode),
        None => {
            let mode = defined_over(alloc, names, own, variables, name, arguments)?;
            Ok(mode)
        }
    }
}

// A definition's name over terms.
#[tactic(auto, using(mc_names::proofs::Places::count_is_length))]
fn defined_over(
    alloc: Global,
    names: &Names,
    own: u32,
    variables: &[Text],
    name: &Row<Text>,
    arguments: &Row<Term>,
) -> Result<Mode, Memory>
    ensures { IfOk result
        (λ m.
        plain_mode m
        ≡ defined_mode
        (meaning (plain_names names.now) own (plain_names names.now).modes name.now
        (count (term_list (map plain_term arguments.now))))
        (written_insts (plain_names names.now) own variables.now
        (term_list (map plain_term arguments.now)))) }
{
    let number = meaning(alloc, names, own, &names.modes, name, arguments.len())?;
    let insts = insts_of_terms(alloc, names, own, variables, arguments.as_slice())?;
    Ok(Mode::Defined(number, insts))
}

// `in(I)` or `out(I)`.
#[tactic(auto, using(crate::proofs::ModesOver::one_over, crate::proofs::ModesOver::none_over))]
fn over_one(
    alloc: Global,
    names: &Names,
    own: u32,
    variables: &[Text],
    name: &Row<Text>,
    arguments: &[Term],
) -> Result<Option<Mode>, Memory>
    ensures { IfOk result
        (λ m.
        option_map plain_mode m
        ≡ over_one name.now
        (written_insts (plain_names names.now) own variables.now (term_list (map plain_term arguments.now)))) }
{
    if arguments.len() != 1 {
        return Ok(None);
    }
    let argument = &arguments[0];
    if is_the_word(b"in", name) {
        let first = inst_of_term(alloc, names, own, variables, argument)?;
        let last = inst_of_term(alloc, names, own, variables, argument)?;
        return Ok(Some(Mode::FromTo(first, last)));
    }
    if is_the_word(b"out", name) {
        let last = inst_of_term(alloc, names, own, variables, argument)?;
        return Ok(Some(Mode::FromTo(Inst::Node(0), last)));
    }
    Ok(None)
}

// What a term is that is no mode.
fn no_mode(alloc: Global, names: &Names) -> Mode
    ensures { plain_mode result ≡ defined_mode (length (plain_names names.now).modes) no_insts }
{
    Mode::Defined(names.modes.len(), Row::new(alloc))
}

// The builtin mode that a name over so many arguments means.
fn builtin(name: &[Text], arity: u32) -> Option<Mode>
    ensures { option_map plain_mode result ≡ builtin builtin_modes name.now arity }
{
    match name {
        [word] => builtin_mode(word.bytes(), arity),
        [] => None,
        [_, _, ..] => None,
    }
}

#[tactic(auto, unfolding(crate::specs::Written::builtin_modes))]
fn builtin_mode(name: &[u8], arity: u32) -> Option<Mode>
    ensures { option_map plain_mode result ≡ found builtin_modes name.now arity }
{
    if arity != 0 {
        return None;
    }
    if b"in".as_slice() == name {
        return Some(Mode::FromTo(Inst::Node(1), Inst::Node(1)));
    }
    if b"out".as_slice() == name {
        return Some(Mode::FromTo(Inst::Node(0), Inst::Node(1)));
    }
    if b"di".as_slice() == name {
        return Some(Mode::FromTo(Inst::Node(2), Inst::Node(3)));
    }
    if b"uo".as_slice() == name {
        return Some(Mode::FromTo(Inst::Node(0), Inst::Node(2)));
    }
    None
}
