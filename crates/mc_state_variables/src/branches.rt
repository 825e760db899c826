ghost use Rattle.std.specs.Prelude.{◌≡◌, ℕ, ◌+◌, List, map};
ghost use denote.Param.Weighed.{most};
ghost use Rattle.mc_term_data.specs.Plain.{plain_term, term_list};
ghost use Rattle.mc_term_data.specs.declared.term.Term.{size-Term};
ghost use Rattle.mc_state_variables.specs.Numbered.{goal_of, goals_of, goal_by};
ghost use Rattle.mc_state_variables.specs.code.Branches.{branch_writing, is_conditional_by, IsSmaller};

use mc_clause_syntax::GoalForm;
use mc_term_data::{Node, Term, arity};

/// What a goal is as one of several branches.
#[derive(Drop)]
pub enum Branch<'a> {
    /// a condition and its then part
    Conditional(&'a Term, &'a Term),
    /// the goal behind an `if`
    Behind(&'a Term),
    /// any other goal
    Plain,
}

/// What a goal is as a branch.
pub fn branch_kind(goal: &Term) -> Branch<'_>
    ensures same { branch_writing goal.now.line (goal_of (plain_term goal.now)).part result
        ≡ (goal_of (plain_term goal.now)).branch.writing }
    ensures conditional { is_conditional_by result ≡ (goal_of (plain_term goal.now)).is_conditional }
    ensures small { IsSmaller result (size-Term goal.now) }
{
    match &goal.node {
        Node::App(name, parts) => {
            let form = GoalForm::of(name.as_slice(), arity(parts.as_slice()));
            kind_by(form, parts.as_slice())
        }
        _ => Branch::Plain,
    }
}

// What a name over parts is as a branch, by its form.
#[tactic(auto, using(crate::proofs::ByForm::by_form))]
fn kind_by(form: GoalForm, parts: &[Term]) -> Branch<'_>
    ensures same { (us w : List (List ℕ)) (l : ℕ)
        → branch_writing l (goal_by form us w l (term_list (map plain_term parts.now)) (goals_of (term_list (map plain_term parts.now)))).part result
        ≡ (goal_by form us w l (term_list (map plain_term parts.now)) (goals_of (term_list (map plain_term parts.now)))).branch.writing }
    ensures conditional { (us w : List (List ℕ)) (l : ℕ)
        → is_conditional_by result
        ≡ (goal_by form us w l (term_list (map plain_term parts.now)) (goals_of (term_list (map plain_term parts.now)))).is_conditional }
    ensures small { IsSmaller result (most size-Term parts.now + 1) }
{
    match form {
        GoalForm::Arrow | GoalForm::Then => match parts {
            [condition, then, ..] => Branch::Conditional(condition, then),
            _ => Branch::Plain,
        },
        GoalForm::If => match parts {
            [goal, ..] => Branch::Behind(goal),
            [] => Branch::Plain,
        },
        _ => Branch::Plain,
    }
}

/// Whether a goal is a conditional, `C -> T`, before its else part.
pub fn is_conditional(goal: &Term) -> bool
    ensures { result ≡ (goal_of (plain_term goal.now)).is_conditional }
{
    match branch_kind(goal) {
        Branch::Conditional(_, _) => true,
        Branch::Behind(goal) => is_conditional(goal),
        Branch::Plain => false,
    }
}
