ghost use Rattle.std.specs.Prelude.{◌≡◌, map, nat_le};
ghost use Rattle.mc_term_data.specs.Plain.{plain_term, term_list};
ghost use Rattle.mc_clause_syntax.specs.Goals.{equivalences, equivalences_within, most_equivalences};

use crate::goal_form::{GoalForm, Parts};
use mc_term_data::{Node, Term, arity};

/// Whether at most so many equivalences stand inside one another in a goal.
#[cycle(equivalences)]
#[tactic(auto, using(crate::proofs::Nested::sum_at_most))]
pub fn nests_at_most(term: &Term, limit: u32) -> bool
    ensures { result ≡ nat_le (equivalences (plain_term term.now)) limit }
{
    match &term.node {
        Node::Conj(goals) | Node::Disj(goals) => all_nest_at_most(goals.as_slice(), limit),
        Node::App(name, parts) => {
            let form = GoalForm::of(name.as_slice(), arity(parts.as_slice()));
            let own = form.equivalences();
            own <= limit && parts_nest_at_most(parts.as_slice(), form.parts(), limit - own)
        }
        Node::Var(_) | Node::Int(_) | Node::Str(_) | Node::List(_, _) => true,
    }
}

#[cycle(equivalences)]
#[tactic(auto, using(crate::proofs::Nested::within_goals, crate::proofs::Nested::within_quantified))]
fn parts_nest_at_most(parts: &[Term], form: Parts, limit: u32) -> bool
    ensures { result ≡ nat_le (equivalences_within form (term_list (map plain_term parts.now))) limit }
{
    match form {
        Parts::Goals(_, _) | Parts::Quantified => all_nest_at_most(parts, limit),
        Parts::Nothing | Parts::Sides | Parts::Arguments => true,
    }
}

#[cycle(equivalences)]
#[tactic(auto, using(crate::proofs::Nested::max_at_most))]
fn all_nest_at_most(terms: &[Term], limit: u32) -> bool
    ensures { result ≡ nat_le (most_equivalences (term_list (map plain_term terms.now))) limit }
{
    for term in terms {
        if !nests_at_most(term, limit) {
            return false;
        }
    }
    true
}
