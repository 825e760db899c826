ghost use Rattle.std.specs.Prelude.{◌≡◌, ◌++◌, [], map, IfOk, OnOk};
ghost use Rattle.mc_base.specs.NameSets.{put_all};
ghost use Rattle.mc_term_data.specs.Plain.{plain_term, term_list};
ghost use Rattle.mc_clause_syntax.specs.StateVariables.{state};
ghost use Rattle.mc_clause_syntax.specs.States.{names_of, wanted_name, state_name, quantified_in, quantified, condition_names, condition_names_by, states_in, states_in_all};

use crate::goal_form::GoalForm;
use crate::state::{StateForm, state_variable};
use mc_base::{Memory, NameSet, Text};
use mc_term_data::{Node, Term, arity};
use std::alloc::Global;

/// Which of the state variables in a term are wanted.
#[derive(Clone, Copy, Debug, PartialEq, Eq)]
pub enum StatesWanted {
    /// every one
    Every,
    /// those whose version after stands there: `!X` and `!:X`
    Updated,
}

/// Puts the names of the wanted state variables in a term behind others, as often as they stand there. It takes stack for
/// each level of the term.
#[cycle(states)]
#[tactic(auto, using(crate::proofs::Names::adding))]
pub fn push_states<'a>(
    names: &mut Vec<&'a [u8]>,
    wanted: StatesWanted,
    term: &'a Term,
) -> Result<(), Memory>
    ensures { OnOk result
        (names_of names.new.items
        ≡ names_of names.old.items ++ states_in wanted (plain_term term.now)) }
{
    match &term.node {
        Node::App(name, parts) => {
            push_state(names, wanted, name.as_slice(), parts.as_slice())?;
            push_all_states(names, wanted, parts.as_slice())
        }
        Node::List(elements, tail) => {
            push_all_states(names, wanted, elements.as_slice())?;
            match tail {
                Some(tail) => push_states(names, wanted, tail),
                None => Ok(()),
            }
        }
        Node::Conj(parts) | Node::Disj(parts) => push_all_states(names, wanted, parts.as_slice()),
        Node::Var(_) | Node::Int(_) | Node::Str(_) => Ok(()),
    }
}

/// The same of each of these terms, one after another.
#[cycle(states)]
#[tactic(auto, using(crate::proofs::Names::adding))]
pub fn push_all_states<'a>(
    names: &mut Vec<&'a [u8]>,
    wanted: StatesWanted,
    terms: &'a [Term],
) -> Result<(), Memory>
    ensures { OnOk result
        (names_of names.new.items
        ≡ names_of names.old.items ++ states_in_all wanted (term_list (map plain_term terms.now))) }
{
    for term in terms {
        push_states(names, wanted, term)?;
    }
    Ok(())
}

// Puts in the name of a state variable, where a name over parts is one that is wanted.
#[tactic(auto, using(crate::proofs::Names::adding))]
fn push_state<'a>(
    names: &mut Vec<&'a [u8]>,
    wanted: StatesWanted,
    name: &[Text],
    parts: &'a [Term],
) -> Result<(), Memory>
    ensures { OnOk result
        (names_of names.new.items
        ≡ names_of names.old.items ++ wanted_name wanted (state name.now (term_list (map plain_term parts.now)))) }
{
    match (state_variable(name, parts), wanted) {
        (None, _) | (Some((StateForm::Before, _)), StatesWanted::Updated) => Ok(()),
        (Some((_, variable)), _) => {
            names.push(variable)?;
            Ok(())
        }
    }
}

/// Puts the names of the state variables in a list behind a quantifier behind others.
pub fn push_quantified<'a>(names: &mut Vec<&'a [u8]>, list: &'a Term) -> Result<(), Memory>
    ensures { OnOk result
        (names_of names.new.items ≡ names_of names.old.items ++ quantified (plain_term list.now)) }
{
    match &list.node {
        Node::List(elements, None) => push_each_state(names, elements.as_slice()),
        _ => Ok(()),
    }
}

#[tactic(auto, using(crate::proofs::Names::adding))]
fn push_each_state<'a>(names: &mut Vec<&'a [u8]>, terms: &'a [Term]) -> Result<(), Memory>
    ensures { OnOk result
        (names_of names.new.items
        ≡ names_of names.old.items ++ quantified_in (term_list (map plain_term terms.now))) }
{
    for term in terms {
        push_state_of(names, term)?;
    }
    Ok(())
}

// Puts in the name of a state variable, where a term is one.
#[tactic(auto, using(crate::proofs::Names::adding))]
fn push_state_of<'a>(names: &mut Vec<&'a [u8]>, term: &'a Term) -> Result<(), Memory>
    ensures { OnOk result
        (names_of names.new.items ≡ names_of names.old.items ++ state_name (plain_term term.now)) }
{
    match &term.node {
        Node::App(name, parts) => {
            push_state(
                names,
                StatesWanted::Every,
                name.as_slice(),
                parts.as_slice(),
            )
        }
        _ => Ok(()),
    }
}

/// The names of the state variables in a list behind a quantifier, as a set.
pub fn quantified<'a>(alloc: Global, list: &'a Term) -> Result<NameSet<'a>, Memory>
    ensures { IfOk result (λ names. names ≡ put_all [] (quantified (plain_term list.now))) }
{
    let mut names = Vec::new(alloc);
    push_quantified(&mut names, list)?;
    name_set(alloc, &names)
}

/// Puts the names of the state variables that a condition quantifies as a whole behind others.
#[tactic(auto, using(crate::proofs::Names::adding))]
pub fn push_condition_names<'a>(
    names: &mut Vec<&'a [u8]>,
    condition: &'a Term,
) -> Result<(), Memory>
    ensures { OnOk result
        (names_of names.new.items
        ≡ names_of names.old.items ++ condition_names (plain_term condition.now)) }
{
    match &condition.node {
        Node::App(name, parts) => {
            match GoalForm::of(name.as_slice(), arity(parts.as_slice())) {
                GoalForm::Existential => push_first_quantified(names, parts.as_slice()),
                _ => Ok(()),
            }
        }
        _ => Ok(()),
    }
}

// Those that a quantifier's list names, the first of these parts.
#[tactic(auto, using(crate::proofs::Names::adding))]
fn push_first_quantified<'a>(names: &mut Vec<&'a [u8]>, parts: &'a [Term]) -> Result<(), Memory>
    ensures { OnOk result
        (names_of names.new.items
        ≡ names_of names.old.items
        ++ condition_names_by GoalForm.Existential (term_list (map plain_term parts.now))) }
{
    match parts {
        [list, ..] => push_quantified(names, list),
        [] => Ok(()),
    }
}

/// The names of the state variables that a condition quantifies as a whole, as a set.
pub fn condition_names<'a>(alloc: Global, condition: &'a Term) -> Result<NameSet<'a>, Memory>
    ensures { IfOk result (λ names. names ≡ put_all [] (condition_names (plain_term condition.now))) }
{
    let mut names = Vec::new(alloc);
    push_condition_names(&mut names, condition)?;
    name_set(alloc, &names)
}

/// These names as a set.
pub fn name_set<'a>(alloc: Global, names: &[&'a [u8]]) -> Result<NameSet<'a>, Memory>
    ensures { IfOk result (λ set. set ≡ put_all [] (names_of names.now)) }
{
    let mut set = NameSet::new(alloc);
    for name in names {
        set.insert(name)?;
    }
    Ok(set)
}
