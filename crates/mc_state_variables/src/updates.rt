ghost use Rattle.std.specs.Prelude.{◌≡◌, ◌++◌, [], map, IfOk, OnOk};
ghost use Rattle.mc_base.specs.NameSets.{put_all};
ghost use Rattle.mc_term_data.specs.Plain.{plain_term, term_list};
ghost use Rattle.mc_clause_syntax.specs.States.{names_of, quantified, condition_names};
ghost use Rattle.mc_state_variables.specs.Updates.{leave_out, joined, updated_by, updated, updated_each};

use mc_base::{Memory, NameSet};
use mc_clause_syntax::{
    GoalForm, StatesWanted, name_set, push_all_states, push_condition_names, push_quantified,
};
use mc_term_data::{Node, Term, arity};
use std::alloc::Global;

/// The names of the state variables that a goal updates, as far as that is seen outside it, as often as it does. It
/// takes stack for each level of the goal.
#[tactic(auto, using(crate::proofs::Lists::adding))]
pub fn updated<'a>(alloc: Global, goal: &'a Term) -> Result<Vec<&'a [u8]>, Memory>
    ensures { IfOk result (λ names. names_of names.items ≡ updated (plain_term goal.now)) }
{
    let mut names = Vec::new(alloc);
    push_updated(alloc, &mut names, goal)?;
    Ok(names)
}

/// The same as a set.
pub fn updated_set<'a>(alloc: Global, goal: &'a Term) -> Result<NameSet<'a>, Memory>
    ensures { IfOk result (λ names. names ≡ put_all [] (updated (plain_term goal.now))) }
{
    let names = updated(alloc, goal)?;
    name_set(alloc, &names)
}

/// Puts them behind other names.
#[cycle(updates)]
#[tactic(auto, using(crate::proofs::Lists::adding))]
pub fn push_updated<'a>(
    alloc: Global,
    names: &mut Vec<&'a [u8]>,
    goal: &'a Term,
) -> Result<(), Memory>
    ensures { OnOk result (names_of names.new.items ≡ names_of names.old.items ++ updated (plain_term goal.now)) }
{
    match &goal.node {
        Node::Conj(goals) | Node::Disj(goals) => push_each(alloc, names, goals.as_slice()),
        Node::App(name, parts) => {
            let form = GoalForm::of(name.as_slice(), arity(parts.as_slice()));
            push_by(alloc, names, form, parts.as_slice())
        }
        Node::Var(_) | Node::Int(_) | Node::Str(_) | Node::List(_, _) => Ok(()),
    }
}

// Those of a goal, by its form and its parts.
#[cycle(updates)]
#[tactic(auto, using(crate::proofs::Lists::adding))]
fn push_by<'a>(
    alloc: Global,
    names: &mut Vec<&'a [u8]>,
    form: GoalForm,
    parts: &'a [Term],
) -> Result<(), Memory>
    ensures { OnOk result
        (names_of names.new.items
        ≡ names_of names.old.items
        ++ updated_by form (term_list (map plain_term parts.now)) (updated_each (term_list (map plain_term parts.now)))) }
{
    match form {
        GoalForm::Conjunction | GoalForm::Disjunction | GoalForm::Else | GoalForm::If => {
            push_each(alloc, names, parts)
        }
        GoalForm::Arrow | GoalForm::Then => match parts {
            [condition, others @ ..] => push_conditional(alloc, names, condition, others),
            [] => Ok(()),
        },
        GoalForm::Existential => match parts {
            [list, ..] => push_quantified_goal(alloc, names, list, parts),
            [] => Ok(()),
        },
        GoalForm::Unification | GoalForm::Call => {
            push_all_states(names, StatesWanted::Updated, parts)
        }
        _ => Ok(()),
    }
}

// Those of a condition and its then part.
#[cycle(updates)]
#[tactic(auto, using(crate::proofs::Lists::adding, crate::proofs::Sets::sets))]
fn push_conditional<'a>(
    alloc: Global,
    names: &mut Vec<&'a [u8]>,
    condition: &'a Term,
    others: &'a [Term],
) -> Result<(), Memory>
    ensures { OnOk result
        (names_of names.new.items
        ≡ names_of names.old.items
        ++ (updated (plain_term condition.now)
        ++ leave_out (condition_names (plain_term condition.now))
        (joined (updated_each (term_list (map plain_term others.now)))))) }
{
    push_updated(alloc, names, condition)?;
    let mut inner = Vec::new(alloc);
    push_each(alloc, &mut inner, others)?;
    let mut hidden = Vec::new(alloc);
    push_condition_names(&mut hidden, condition)?;
    push_others(names, &name_set(alloc, &hidden)?, &inner)
}

// Those of goals under a quantifier.
#[cycle(updates)]
#[tactic(auto, using(crate::proofs::Lists::adding, crate::proofs::Sets::sets))]
fn push_quantified_goal<'a>(
    alloc: Global,
    names: &mut Vec<&'a [u8]>,
    list: &'a Term,
    goals: &'a [Term],
) -> Result<(), Memory>
    ensures { OnOk result
        (names_of names.new.items
        ≡ names_of names.old.items
        ++ leave_out (quantified (plain_term list.now))
        (joined (updated_each (term_list (map plain_term goals.now))))) }
{
    let mut inner = Vec::new(alloc);
    push_each(alloc, &mut inner, goals)?;
    let mut hidden = Vec::new(alloc);
    push_quantified(&mut hidden, list)?;
    push_others(names, &name_set(alloc, &hidden)?, &inner)
}

#[cycle(updates)]
#[tactic(auto, using(crate::proofs::Lists::adding))]
fn push_each<'a>(alloc: Global, names: &mut Vec<&'a [u8]>, goals: &'a [Term]) -> Result<(), Memory>
    ensures { OnOk result
        (names_of names.new.items
        ≡ names_of names.old.items ++ joined (updated_each (term_list (map plain_term goals.now)))) }
{
    for goal in goals {
        push_updated(alloc, names, goal)?;
    }
    Ok(())
}

/// Puts the names that aren't hidden behind others.
#[tactic(auto, using(crate::proofs::Lists::adding))]
pub fn push_others<'a>(
    names: &mut Vec<&'a [u8]>,
    hidden: &NameSet<'_>,
    inner: &[&'a [u8]],
) -> Result<(), Memory>
    ensures { OnOk result
        (names_of names.new.items ≡ names_of names.old.items ++ leave_out hidden.now (names_of inner.now)) }
{
    for name in inner {
        if !hidden.contains(name) {
            names.push(*name)?;
        }
    }
    Ok(())
}
