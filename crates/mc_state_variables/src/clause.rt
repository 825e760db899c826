ghost use Rattle.std.specs.Prelude.{◌≡◌, [], map, IfOk};
ghost use Rattle.mc_term_data.specs.Plain.{plain_term, term_list};
ghost use Rattle.mc_state_variables.specs.Versions.{behind, distinct, closings};
ghost use Rattle.mc_base.specs.NameSets.{put_all};
ghost use Rattle.mc_clause_syntax.specs.States.{names_of, states_of};
ghost use Rattle.mc_state_variables.specs.Numbered.{numbered_clause, numbered_goal, rule_of, fact_of, line_of, head_states, goal_of, term_of};
ghost use Rattle.mc_state_variables.specs.code.Helds.{plain_helds};

use crate::atoms::term_of;
use crate::held::{Held, closings};
use crate::numbering::Numbering;
use crate::terms::{conjunction_term, operator};
use mc_base::{Memory, NameSet};
use mc_clause_syntax::{StatesWanted, name_set, push_states};
use mc_term_data::{Term, operands};
use std::alloc::Global;

/// A clause with its state variables written out; their versions have names that no variable of a source has. It takes
/// stack for each level of the clause. `Memory` alone comes in place of it.
pub fn numbered_clause(alloc: Global, clause: &Term) -> Result<Term, Memory>
    ensures { IfOk result
        (λ numbered. plain_term numbered ≡ numbered_clause (plain_term clause.now)) }
{
    match operands(b":-", clause) {
        Some((head, body)) => numbered_rule(alloc, head, body, clause.line),
        None => numbered_fact(alloc, clause),
    }
}

/// The goal of a query with its state variables written out, as those of a clause are.
pub fn numbered_goal(alloc: Global, goal: &Term) -> Result<Term, Memory>
    ensures { IfOk result (λ numbered. plain_term numbered ≡ numbered_goal (plain_term goal.now)) }
{
    let mut numbering = Numbering { alloc, next: 0 };
    let text = numbering.part(&[], goal)?;
    Ok(text)
}

fn numbered_rule(alloc: Global, head: &Term, body: &Term, line: u32) -> Result<Term, Memory>
    ensures { IfOk result
        (λ rule.
        plain_term rule
        ≡ rule_of line (term_of (head_states (plain_term head.now)) (plain_term head.now))
        ((goal_of (plain_term body.now)).branch.writing (states_of (plain_term head.now))
        (head_states (plain_term head.now))
        (behind 0 (distinct (states_of (plain_term head.now))))).text) }
{
    let mut numbering = Numbering { alloc, next: 0 };
    let names = head_names(alloc, head)?;
    let held = numbering.entered(&[], &names)?;
    rule_in(&mut numbering, &names, &held, head, body, line)
}

// The names of the state variables of a head, as often as it has them.
fn head_names<'a>(alloc: Global, head: &'a Term) -> Result<Vec<&'a [u8]>, Memory>
    ensures { IfOk result (λ names. names_of names.items ≡ states_of (plain_term head.now)) }
{
    let mut names = Vec::new(alloc);
    push_states(&mut names, StatesWanted::Every, head)?;
    Ok(names)
}

// A rule, from the state variables of its head, which have these names.
fn rule_in<'a>(
    numbering: &mut Numbering,
    names: &[&[u8]],
    held: &[Held<'a>],
    head: &Term,
    body: &'a Term,
    line: u32,
) -> Result<Term, Memory>
    ensures { IfOk result
        (λ rule.
        plain_term rule
        ≡ rule_of line (term_of (plain_helds held.now) (plain_term head.now))
        ((goal_of (plain_term body.now)).branch.writing (put_all [] (names_of names.now)) (plain_helds held.now) numbering.old.next).text) }
{
    let body = body_in(numbering, names, held, body)?;
    let head = term_of(numbering.alloc, held, head)?;
    operator(numbering.alloc, b":-", head, body, line)
}

// A body, which ends with the equations of those that it doesn't update.
fn body_in<'a>(
    numbering: &mut Numbering,
    names: &[&[u8]],
    held: &[Held<'a>],
    body: &'a Term,
) -> Result<Term, Memory>
    ensures { IfOk result
        (λ text.
        plain_term text
        ≡ ((goal_of (plain_term body.now)).branch.writing (put_all [] (names_of names.now)) (plain_helds held.now) numbering.old.next).text) }
{
    let wanted = name_set(numbering.alloc, names)?;
    let text = numbering.branch(&wanted, held, body)?;
    Ok(text)
}

// A fact whose head has state variables gets the equations of their last versions with their first as its body.
fn numbered_fact(alloc: Global, head: &Term) -> Result<Term, Memory>
    ensures { IfOk result
        (λ fact.
        plain_term fact
        ≡ fact_of (line_of (plain_term head.now)) (term_of (head_states (plain_term head.now)) (plain_term head.now))
        (closings (states_of (plain_term head.now)) [] (line_of (plain_term head.now))
        (head_states (plain_term head.now)))) }
{
    let mut numbering = Numbering { alloc, next: 0 };
    let names = head_names(alloc, head)?;
    let held = numbering.entered(&[], &names)?;
    fact_in(alloc, &names, &held, head)
}

// A fact, from the state variables of its head, which have these names.
fn fact_in(alloc: Global, names: &[&[u8]], held: &[Held<'_>], head: &Term) -> Result<Term, Memory>
    ensures { IfOk result
        (λ fact.
        plain_term fact
        ≡ fact_of head.now.line (term_of (plain_helds held.now) (plain_term head.now))
        (closings (put_all [] (names_of names.now)) [] head.now.line (plain_helds held.now))) }
{
    let goals = all_closings(alloc, names, held, head.line)?;
    let written = term_of(alloc, held, head)?;
    with_body(alloc, written, goals, head.line)
}

// The equations of all of these names, none of which is updated.
#[tactic(auto, using(crate::proofs::Lists::adding))]
fn all_closings(
    alloc: Global,
    names: &[&[u8]],
    held: &[Held<'_>],
    line: u32,
) -> Result<Vec<Term>, Memory>
    ensures { IfOk result
        (λ goals.
        term_list (map plain_term goals.items)
        ≡ closings (put_all [] (names_of names.now)) [] line (plain_helds held.now)) }
{
    let wanted = name_set(alloc, names)?;
    let updated = NameSet::new(alloc);
    closings(alloc, &wanted, &updated, held, line)
}

// A head with these goals as its body; without goals it is a fact.
fn with_body(alloc: Global, head: Term, mut goals: Vec<Term>, line: u32) -> Result<Term, Memory>
    ensures { IfOk result
        (λ fact. plain_term fact ≡ fact_of line (plain_term head) (term_list (map plain_term goals.items))) }
{
    if goals.len() > 1 {
        let body = conjunction_term(goals, line)?;
        return operator(alloc, b":-", head, body, line);
    }
    match goals.pop() {
        Some(goal) => operator(alloc, b":-", head, goal, line),
        None => Ok(head),
    }
}
