ghost use Rattle.std.specs.Prelude.{◌≡◌, map};
ghost use Rattle.mc_term_data.specs.Plain.{at, App, plain_term, term_list};
ghost use Rattle.mc_term_data.specs.Names.{count};
ghost use Rattle.mc_clause_syntax.specs.Goals.{is_quantifiable, all_quantifiable, is_quantified_list, is_goal, have_form, are_goals, are_disjuncts};

use crate::goal_form::{GoalContext, GoalForm, Parts};
use crate::state::{is_both_versions, is_state};
use mc_base::Text;
use mc_term_data::{Node, Term, arity};

/// Whether a term is a goal that may stand there.
#[cycle(goals)]
pub fn is_goal(term: &Term, stand: GoalContext) -> bool
    ensures { result ≡ is_goal stand (plain_term term.now) }
{
    match &term.node {
        Node::Conj(goals) => stand.is_open() && are_goals(goals.as_slice(), GoalContext::Whole),
        Node::Disj(goals) => stand.is_open() && are_disjuncts(goals.as_slice()),
        Node::App(name, parts) => is_goal_of(name.as_slice(), parts.as_slice(), stand),
        Node::Var(_) | Node::Int(_) | Node::Str(_) | Node::List(_, _) => false,
    }
}

// Whether a name over parts is a goal that may stand there.
#[cycle(goals)]
fn is_goal_of(name: &[Text], parts: &[Term], stand: GoalContext) -> bool
    ensures { result ≡ is_goal stand (at (App name.now (term_list (map plain_term parts.now))) 0) }
{
    let form = GoalForm::of(name, arity(parts));
    !is_state(name, parts) && form.may_stand(stand) && have_form(parts, form.parts())
}

// Whether the parts of a goal are what they are to be.
#[cycle(goals)]
fn have_form(parts: &[Term], form: Parts) -> bool
    ensures { result ≡ have_form form (term_list (map plain_term parts.now)) }
{
    match form {
        Parts::Goals(first, others) => match parts {
            [] => true,
            [goal, goals @ ..] => is_goal(goal, first) && are_goals(goals, others),
        },
        Parts::Quantified => match parts {
            [] => false,
            [list, goals @ ..] => is_quantified_list(list) && are_goals(goals, GoalContext::Whole),
        },
        Parts::Nothing | Parts::Sides | Parts::Arguments => true,
    }
}

#[cycle(goals)]
fn are_goals(terms: &[Term], stand: GoalContext) -> bool
    ensures { result ≡ are_goals stand (term_list (map plain_term terms.now)) }
{
    for term in terms {
        if !is_goal(term, stand) {
            return false;
        }
    }
    true
}

#[cycle(goals)]
fn are_disjuncts(terms: &[Term]) -> bool
    ensures { result ≡ are_disjuncts (term_list (map plain_term terms.now)) }
{
    match terms {
        [] => true,
        [front @ .., last] => are_goals(front, GoalContext::Disjunct)
            && is_goal(last, GoalContext::Whole),
    }
}

// Whether a term is a list of what a quantifier may name.
fn is_quantified_list(term: &Term) -> bool
    ensures { result ≡ is_quantified_list (plain_term term.now) }
{
    match &term.node {
        Node::List(elements, None) => are_quantifiable(elements.as_slice()),
        _ => false,
    }
}

fn are_quantifiable(terms: &[Term]) -> bool
    ensures { result ≡ all_quantifiable (term_list (map plain_term terms.now)) }
{
    for term in terms {
        if !is_quantifiable(term) {
            return false;
        }
    }
    true
}

fn is_quantifiable(term: &Term) -> bool
    ensures { result ≡ is_quantifiable (plain_term term.now) }
{
    match &term.node {
        Node::Var(_) => true,
        Node::App(name, parts) => is_both_versions(name.as_slice(), parts.as_slice()),
        _ => false,
    }
}
