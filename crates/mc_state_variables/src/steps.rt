ghost use Rattle.std.specs.Prelude.{◌≡◌, [], map, ◌∷◌, ◌++◌, List, reverse, IfOk, OnOk};
ghost use Rattle.mc_base.specs.NameSets.{put_all};
ghost use Rattle.mc_term_data.specs.Plain.{plain_term, term_list};
ghost use Rattle.mc_clause_syntax.specs.States.{names_of};
ghost use Rattle.mc_state_variables.specs.Updates.{updated};
ghost use Rattle.mc_state_variables.specs.code.Steps.{step_of, steps_of, stepwise, wholes_of};
ghost use Rattle.mc_state_variables.specs.Numbered.{Part, with_rest};
ghost use Rattle.mc_state_variables.specs.code.Helds.{plain_helds};

use crate::held::Held;
use crate::names::{common, put_names, put_new_names};
use crate::numbering::{Numbering, ScopeChange};
use crate::updates::updated;
use mc_base::{Memory, NameSet};
use mc_clause_syntax::name_set;
use mc_term_data::Term;
use std::alloc::Global;

/// What a goal does to the state variables in scope.
#[derive(Drop)]
pub struct Step<'a> {
    /// those that it updates
    pub updated: NameSet<'a>,
    /// those of which it ends with new versions
    pub renewed: NameSet<'a>,
}

impl<'a> Step<'a> {
    // The step of a goal that updates these, behind which those are updated.
    fn before(alloc: Global, names: &[&'a [u8]], behind: &NameSet<'_>) -> Result<Step<'a>, Memory>
        ensures { IfOk result (λ step. step ≡ step_of (names_of names.now) behind.now) }
    {
        let both = common(alloc, names, behind)?;
        Ok(Step {
            updated: name_set(alloc, names)?,
            renewed: name_set(alloc, &both)?,
        })
    }
}

/// Goals one behind another, as far as they are written.
#[derive(Drop)]
pub struct Conjuncts<'a> {
    /// the steps of those that are left, the first one's last
    pub steps: Vec<Step<'a>>,
    /// what is in scope behind those that are written
    pub current: Vec<Held<'a>>,
    pub texts: Vec<Term>,
}

impl<'a> Conjuncts<'a> {
    /// None of these goals is written yet.
    pub fn of(alloc: Global, held: &[Held<'a>], goals: &'a [Term]) -> Result<Conjuncts<'a>, Memory>
        ensures steps { IfOk result
            (λ made. made.steps.items ≡ reverse (steps_of (term_list (map plain_term goals.now)))) }
        ensures current { IfOk result (λ made. made.current.items ≡ held.now) }
        ensures texts { IfOk result (λ made. made.texts.items ≡ []) }
    {
        let steps = steps_in_order(alloc, goals)?;
        let current = Vec::from_slice(alloc, held)?;
        Ok(Conjuncts {
            steps,
            current,
            texts: Vec::new(alloc),
        })
    }
}

impl Numbering {
    /// What the next of these goals is given; it is left behind.
    pub fn passed<'a>(&mut self, goals: &mut Conjuncts<'a>) -> Result<Vec<Held<'a>>, Memory>
        ensures step { IfOk result
            (λ given.
            (p : Part) (rest : List Part)
            → stepwise (reverse goals.old.steps.items) (p ∷ rest) (plain_helds goals.old.current.items) self.old.next
            ≡ with_rest (p.writing (plain_helds given.items) self.new.next)
            (stepwise (reverse goals.new.steps.items) rest (plain_helds goals.new.current.items))) }
        ensures texts { OnOk result (goals.new.texts.items ≡ goals.old.texts.items) }
    {
        // each goal has a step
        let Some(step) = goals.steps.pop() else {
            return Err(Memory);
        };
        let ScopeChange { given, behind } = self.around(
            &step.updated,
            &step.renewed,
            &goals.current,
        )?;
        goals.current = behind;
        Ok(given)
    }
}

/// The steps of the goals of a conjunction, the first goal's last: the last goal that updates a state variable ends with
/// its version after the whole.
pub fn steps_in_order<'a>(alloc: Global, goals: &'a [Term]) -> Result<Vec<Step<'a>>, Memory>
    ensures { IfOk result
        (λ steps. steps.items ≡ reverse (steps_of (term_list (map plain_term goals.now)))) }
{
    let mut steps = Vec::new(alloc);
    let mut seen = NameSet::new(alloc);
    let mut k = goals.len();
    'back: while k > 0 {
        k -= 1;
        push_step(alloc, &mut steps, &mut seen, &goals[k])?;
    }
    Ok(steps)
}

// Puts the step of a goal behind others, and what it updates to what is updated behind it.
fn push_step<'a>(
    alloc: Global,
    steps: &mut Vec<Step<'a>>,
    seen: &mut NameSet<'a>,
    goal: &'a Term,
) -> Result<(), Memory>
    ensures steps { OnOk result
        (steps.new.items ≡ steps.old.items ++ step_of (updated (plain_term goal.now)) seen.old ∷ []) }
    ensures seen { OnOk result (seen.new ≡ put_all seen.old (updated (plain_term goal.now))) }
{
    let names = updated(alloc, goal)?;
    steps.push(Step::before(alloc, &names, seen)?)?;
    put_names(seen, &names)
}

/// The names that each of these goals and those behind it update, the first goal's last.
pub fn wholes<'a>(alloc: Global, goals: &'a [Term]) -> Result<Vec<NameSet<'a>>, Memory>
    ensures { IfOk result
        (λ wholes. wholes.items ≡ reverse (wholes_of (term_list (map plain_term goals.now)))) }
{
    let mut wholes = Vec::new(alloc);
    let mut seen = NameSet::new(alloc);
    let mut distinct = Vec::new(alloc);
    let mut k = goals.len();
    'back: while k > 0 {
        k -= 1;
        push_whole(alloc, &mut wholes, &mut seen, &mut distinct, &goals[k])?;
    }
    Ok(wholes)
}

// Puts what a goal updates to what is updated behind it, whose names stand in order too, and both behind other sets.
fn push_whole<'a>(
    alloc: Global,
    wholes: &mut Vec<NameSet<'a>>,
    seen: &mut NameSet<'a>,
    in_order: &mut Vec<&'a [u8]>,
    goal: &'a Term,
) -> Result<(), Memory>
    ensures seen { OnOk result (seen.new ≡ put_all seen.old (updated (plain_term goal.now))) }
    ensures order { OnOk result (names_of in_order.old.items ≡ seen.old → names_of in_order.new.items ≡ seen.new) }
    ensures wholes { OnOk result
        (names_of in_order.old.items ≡ seen.old → wholes.new.items ≡ wholes.old.items ++ put_all [] seen.new ∷ []) }
{
    let names = updated(alloc, goal)?;
    put_new_names(seen, in_order, &names)?;
    wholes.push(name_set(alloc, in_order)?)?;
    Ok(())
}
