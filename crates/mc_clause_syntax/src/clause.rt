ghost use Rattle.std.specs.Prelude.{◌≡◌, IfOk};
ghost use Rattle.mc_term_data.specs.Plain.{plain_term};
ghost use Rattle.mc_clause_syntax.specs.Clauses.{is_headed, is_head, is_body, is_fact, is_rule, is_clause, is_query};
ghost use Rattle.mc_clause_syntax.specs.code.Scopes.{all_names};

use crate::equivalences::nests_at_most;
use crate::goal::is_goal;
use crate::goal_form::GoalContext;
use crate::scope::Scope;
use crate::state::is_state;
use mc_base::Memory;
use mc_term_data::{Node, Term, operands};
use std::alloc::Global;

const GREATEST_EQUIVALENCES: u32 = 8;

/// Whether an item's term is a clause. It takes stack for each level of the term.
pub fn is_clause(alloc: Global, term: &Term) -> Result<bool, Memory>
    ensures { IfOk result (λ holds. holds ≡ is_clause (plain_term term.now)) }
{
    match operands(b":-", term) {
        Some((head, body)) => is_rule(alloc, head, body),
        None => is_fact(alloc, term),
    }
}

/// Whether a term is the goal of a query. It takes stack for each level of the term.
pub fn is_query(alloc: Global, term: &Term) -> Result<bool, Memory>
    ensures { IfOk result (λ holds. holds ≡ is_query (plain_term term.now)) }
{
    let mut scope = Scope::empty(alloc);
    is_body(&mut scope, term)
}

fn is_fact(alloc: Global, head: &Term) -> Result<bool, Memory>
    ensures { IfOk result (λ holds. holds ≡ is_fact (plain_term head.now)) }
{
    let scope = Scope::of_head(alloc, head)?;
    Ok(is_head(&scope, head))
}

fn is_rule(alloc: Global, head: &Term, body: &Term) -> Result<bool, Memory>
    ensures { IfOk result (λ holds. holds ≡ is_rule (plain_term head.now) (plain_term body.now)) }
{
    let mut scope = Scope::of_head(alloc, head)?;
    if !is_head(&scope, head) {
        return Ok(false);
    }
    is_body(&mut scope, body)
}

// Whether a term is a clause's head, where these names are in scope.
fn is_head(scope: &Scope, term: &Term) -> bool
    ensures { result ≡ is_head (all_names scope.now.sets.items) (plain_term term.now) }
{
    match operands(b"=", term) {
        Some((function, value)) => {
            is_headed(function) && scope.places(function, false) && scope.places(value, false)
        }
        None => is_headed(term) && scope.places(term, false),
    }
}

// Whether a term is a body, where these names are in scope.
fn is_body<'a>(scope: &mut Scope<'a>, goal: &'a Term) -> Result<bool, Memory>
    ensures { IfOk result
        (λ holds. holds ≡ is_body (all_names scope.old.sets.items) (plain_term goal.now)) }
{
    if is_goal(goal, GoalContext::Whole) && nests_at_most(goal, GREATEST_EQUIVALENCES) {
        scope.places_goal(goal)
    } else {
        Ok(false)
    }
}

// Whether a term is a name without qualifiers, over any arguments.
fn is_headed(term: &Term) -> bool
    ensures { result ≡ is_headed (plain_term term.now) }
{
    match &term.node {
        Node::App(name, parts) => match name.as_slice() {
            [_] => !is_state(name.as_slice(), parts.as_slice()),
            _ => false,
        },
        _ => false,
    }
}
