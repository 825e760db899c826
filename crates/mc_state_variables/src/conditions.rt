ghost use Rattle.std.specs.Prelude.{◌≡◌, ◌≤◌, ◌++◌, [], map, IfOk};
ghost use Rattle.std.specs.Option.{option_map};
ghost use Rattle.mc_base.specs.NameSets.{put_all};
ghost use Rattle.mc_term_data.specs.Plain.{plain_term, term_list};
ghost use Rattle.mc_term_data.specs.declared.term.Term.{size-Term};
ghost use Rattle.mc_clause_syntax.specs.States.{names_of};
ghost use Rattle.mc_state_variables.specs.Updates.{leave_out, updated};
ghost use Rattle.mc_state_variables.specs.Versions.{closings, seen_outside};
ghost use Rattle.mc_state_variables.specs.Numbered.{goal_of};
ghost use Rattle.mc_state_variables.specs.code.Helds.{plain_helds, listed};
ghost use Rattle.mc_state_variables.specs.code.Conditions.{condition_by, condition_names, condition_of, IsTried};

use crate::held::{Held, closings_behind};
use crate::numbering::{Numbering, ScopeChange};
use crate::quantifiers::quantified;
use crate::updates::{push_others, push_updated, updated};
use mc_base::{Memory, NameSet};
use mc_clause_syntax::{GoalForm, name_set, push_quantified};
use mc_term_data::{Node, Term, arity};
use std::alloc::Global;

/// A condition: the list of what it quantifies as a whole, and the goal under it.
#[derive(Drop)]
pub struct Condition<'a> {
    pub list: Option<&'a Term>,
    pub goal: &'a Term,
    pub line: u32,
}

/// What a condition is.
#[tactic(auto, using(crate::proofs::ByForm::by_form))]
pub fn condition_parts(condition: &Term) -> Condition<'_>
    ensures same { condition_by result.line (option_map (λ list. plain_term list.now) result.list) (plain_term result.goal.now)
        ≡ (goal_of (plain_term condition.now)).condition }
    ensures small { size-Term result.goal.now ≤ size-Term condition.now }
{
    let whole = Condition {
        list: None,
        goal: condition,
        line: condition.line,
    };
    let Node::App(name, parts) = &condition.node else {
        return whole;
    };
    match GoalForm::of(name.as_slice(), arity(parts.as_slice())) {
        GoalForm::Existential => match parts.as_slice() {
            [list, goal, ..] => Condition {
                list: Some(list),
                goal,
                line: condition.line,
            },
            _ => whole,
        },
        _ => whole,
    }
}

impl<'a> Condition<'a> {
    /// The names of the state variables that it quantifies as a whole.
    pub fn names(&self, alloc: Global) -> Result<Vec<&'a [u8]>, Memory>
        ensures { IfOk result
            (λ names.
            names_of names.items
            ≡ condition_names (option_map (λ list. plain_term list.now) self.now.list)) }
    {
        let mut names = Vec::new(alloc);
        if let Some(list) = self.list {
            push_quantified(&mut names, list)?;
        }
        Ok(names)
    }

    /// The condition that is written so under its quantifier, which reaches over the then part.
    #[tactic(auto, using(crate::proofs::Lists::adding, crate::proofs::Sets::sets))]
    pub fn quantified(
        &self,
        alloc: Global,
        then: &'a Term,
        inside: &[Held<'_>],
        text: Term,
    ) -> Result<Term, Memory>
        ensures { IfOk result
            (λ out.
            plain_term out
            ≡ (condition_by self.now.line (option_map (λ list. plain_term list.now) self.now.list) (plain_term self.now.goal.now)).quantify
            (plain_helds inside.now)
            (updated (plain_term self.now.goal.now) ++ updated (plain_term then.now))
            (plain_term text)) }
    {
        match self.list {
            None => Ok(text),
            Some(list) => {
                let updates = updates_of_both(alloc, self.goal, then)?;
                quantified(alloc, b"some", inside, &updates, list, text, self.line)
            }
        }
    }
}

// What two goals update.
fn updates_of_both<'a>(
    alloc: Global,
    first: &'a Term,
    second: &'a Term,
) -> Result<NameSet<'a>, Memory>
    ensures { IfOk result
        (λ names. names ≡ put_all [] (updated (plain_term first.now) ++ updated (plain_term second.now))) }
{
    let mut names = updated(alloc, first)?;
    push_updated(alloc, &mut names, second)?;
    name_set(alloc, &names)
}

/// A condition, and what is in scope in it and behind it.
#[derive(Drop)]
pub struct Tried<'a> {
    pub condition: Condition<'a>,
    /// the names of the state variables that it quantifies as a whole
    pub names: Vec<&'a [u8]>,
    /// what is in scope in it
    pub inside: Vec<Held<'a>>,
    /// the same as its goal is given it, and as it is behind that goal
    pub around: ScopeChange<'a>,
}

impl Numbering {
    /// A condition where these are in scope.
    pub fn tried<'a>(&mut self, held: &[Held<'a>], condition: &'a Term) -> Result<Tried<'a>, Memory>
        ensures same { IfOk result (λ tried. condition_of tried ≡ (goal_of (plain_term condition.now)).condition) }
        ensures small { IfOk result (λ tried. size-Term tried.condition.goal.now ≤ size-Term condition.now) }
        ensures around { IfOk result (λ tried. IsTried tried (plain_helds held.now) self.old.next self.new.next) }
    {
        let condition = condition_parts(condition);
        let names = condition.names(self.alloc)?;
        let inside = self.entered(held, &names)?;
        let around = self.around_whole(&inside, condition.goal)?;
        Ok(Tried {
            condition,
            names,
            inside,
            around,
        })
    }
}

/// The equations that close a then part, behind a condition that quantifies these names and reached those versions.
#[tactic(auto, using(crate::proofs::Lists::adding, crate::proofs::Sets::sets))]
pub fn closings_of_then(
    alloc: Global,
    wanted: &NameSet<'_>,
    names: &[&[u8]],
    then: &Term,
    reached: &[Held<'_>],
    held: &[Held<'_>],
    line: u32,
) -> Result<Vec<Term>, Memory>
    ensures { IfOk result
        (λ goals.
        map plain_term goals.items
        ≡ listed
        (closings wanted.now (leave_out (names_of names.now) (updated (plain_term then.now))) line
        (seen_outside (names_of names.now) (plain_helds reached.now) (plain_helds held.now)))) }
{
    let hidden = name_set(alloc, names)?;
    closings_hiding(alloc, wanted, &hidden, then, reached, held, line)
}

// The same, by the set of those names.
#[tactic(auto, using(crate::proofs::Lists::adding, crate::proofs::Sets::sets))]
fn closings_hiding(
    alloc: Global,
    wanted: &NameSet<'_>,
    hidden: &NameSet<'_>,
    then: &Term,
    reached: &[Held<'_>],
    held: &[Held<'_>],
    line: u32,
) -> Result<Vec<Term>, Memory>
    ensures { IfOk result
        (λ goals.
        map plain_term goals.items
        ≡ listed
        (closings wanted.now (leave_out hidden.now (updated (plain_term then.now))) line
        (seen_outside hidden.now (plain_helds reached.now) (plain_helds held.now)))) }
{
    let updates = updates_outside(alloc, hidden, then)?;
    closings_behind(alloc, wanted, &updates, hidden, reached, held, line)
}

// The names that a then part updates, without those that its condition hides.
#[tactic(auto, using(crate::proofs::Lists::adding))]
fn updates_outside<'a>(
    alloc: Global,
    hidden: &NameSet<'_>,
    then: &'a Term,
) -> Result<NameSet<'a>, Memory>
    ensures { IfOk result
        (λ names. names ≡ put_all [] (leave_out hidden.now (updated (plain_term then.now)))) }
{
    let inner = updated(alloc, then)?;
    let mut seen = Vec::new(alloc);
    push_others(&mut seen, hidden, &inner)?;
    name_set(alloc, &seen)
}
