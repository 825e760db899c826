ghost use Rattle.std.specs.Prelude.{◌≡◌, ◌++◌, map, OnOk};
ghost use Rattle.mc_term_data.specs.Plain.{plain_term, term_list};
ghost use Rattle.mc_term_data.specs.Names.{count};
ghost use Rattle.mc_clause_syntax.specs.GoalForms.{goal_form, parts};
ghost use Rattle.mc_names.specs.Plain.{plain_occurrence};
ghost use Rattle.mc_defs_uses.specs.Occurrences.{goals_in, goal_by, all_goals};

use crate::terms::{add_all_terms, add_over};
use mc_base::{Memory, Row, Text};
use mc_clause_syntax::{GoalForm, Parts};
use mc_names::{Kind, Occurrence};
use mc_term_data::{Node, Term, arity};

/// Adds the predicates in a goal, and what its terms use.
#[cycle(goals)]
pub fn add_goals<'a>(uses: &mut Vec<Occurrence<'a>>, goal: &'a Term) -> Result<(), Memory>
    ensures { OnOk result
        (map plain_occurrence uses.new.items
        ≡ map plain_occurrence uses.old.items ++ goals_in (plain_term goal.now)) }
{
    match &goal.node {
        Node::Conj(goals) | Node::Disj(goals) => add_all_goals(uses, goals.as_slice()),
        Node::App(name, parts) => {
            let form = GoalForm::of(name.as_slice(), arity(parts.as_slice()));
            add_parts(uses, name, form.parts(), parts)
        }
        Node::Var(_) | Node::Int(_) | Node::Str(_) | Node::List(_, _) => Ok(()),
    }
}

// What a name makes of its parts says what these are.
#[cycle(goals)]
#[tactic(auto, using(crate::proofs::Steps::adding, crate::proofs::Steps::parts_are_goals))]
fn add_parts<'a>(
    uses: &mut Vec<Occurrence<'a>>,
    name: &'a Row<Text>,
    form: Parts,
    parts: &'a Row<Term>,
) -> Result<(), Memory>
    ensures { OnOk result
        (map plain_occurrence uses.new.items
        ≡ map plain_occurrence uses.old.items
        ++ goal_by name.now form (term_list (map plain_term parts.now))) }
{
    match form {
        Parts::Nothing => Ok(()),
        Parts::Goals(_, _) => add_all_goals(uses, parts.as_slice()),
        Parts::Quantified => match parts.as_slice() {
            [_, goals @ ..] => add_all_goals(uses, goals),
            [] => Ok(()),
        },
        Parts::Sides => add_all_terms(uses, parts.as_slice()),
        Parts::Arguments => add_over(uses, Kind::Pred, name, parts),
    }
}

#[cycle(goals)]
fn add_all_goals<'a>(uses: &mut Vec<Occurrence<'a>>, goals: &'a [Term]) -> Result<(), Memory>
    ensures { OnOk result
        (map plain_occurrence uses.new.items
        ≡ map plain_occurrence uses.old.items ++ all_goals (term_list (map plain_term goals.now))) }
{
    for goal in goals {
        add_goals(uses, goal)?;
    }
    Ok(())
}
