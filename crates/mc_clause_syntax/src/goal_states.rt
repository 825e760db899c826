ghost use Rattle.std.specs.Prelude.{◌≡◌, ◌++◌, map, IfOk, OnOk};
ghost use Rattle.mc_term_data.specs.Plain.{plain_term, term_list};
ghost use Rattle.mc_clause_syntax.specs.declared.goal_form.Parts.TheVariants.{Goals};
ghost use Rattle.mc_clause_syntax.specs.declared.goal_form.GoalContext.TheVariants.{Whole};
ghost use Rattle.mc_clause_syntax.specs.States.{quantified, condition_names, first_names, goal_placed, parts_placed, goals_placed};
ghost use Rattle.mc_clause_syntax.specs.code.Scopes.{all_names};

use crate::goal_form::{GoalForm, Parts};
use crate::scope::Scope;
use crate::state_names::{condition_names, quantified};
use mc_base::Memory;
use mc_term_data::{Node, Term, arity};

impl<'a> Scope<'a> {
    /// Whether the state variables in a goal stand where they may. Behind the goal the same names are in scope as before
    /// it, but after want of memory there may be more.
    #[cycle(goals_placed)]
    pub fn places_goal(&mut self, goal: &'a Term) -> Result<bool, Memory>
        ensures answer { IfOk result
            (λ placed. placed ≡ goal_placed (all_names self.old.sets.items) (plain_term goal.now)) }
        ensures kept { OnOk result (self.new.sets.items ≡ self.old.sets.items) }
    {
        match &goal.node {
            Node::Conj(goals) | Node::Disj(goals) => self.places_goals(goals.as_slice()),
            Node::App(name, parts) => {
                match GoalForm::of(name.as_slice(), arity(parts.as_slice())) {
                    GoalForm::Arrow | GoalForm::Then => self.places_conditional(parts.as_slice()),
                    form => self.places_parts(parts.as_slice(), form.parts()),
                }
            }
            Node::Var(_) | Node::Int(_) | Node::Str(_) | Node::List(_, _) => Ok(true),
        }
    }

    // The parts of a goal, each in the scope around.
    #[cycle(goals_placed)]
    #[tactic(auto, using(crate::proofs::Scoped::parts_are_goals))]
    fn places_parts(&mut self, parts: &'a [Term], form: Parts) -> Result<bool, Memory>
        ensures answer { IfOk result
            (λ placed.
            placed
            ≡ parts_placed (all_names self.old.sets.items) (all_names self.old.sets.items) form
            (term_list (map plain_term parts.now))) }
        ensures kept { OnOk result (self.new.sets.items ≡ self.old.sets.items) }
    {
        match form {
            Parts::Nothing => Ok(true),
            Parts::Goals(_, _) => self.places_goals(parts),
            Parts::Quantified => match parts {
                [] => Ok(true),
                [list, goals @ ..] => self.places_quantified(list, goals),
            },
            Parts::Sides => Ok(self.places_all(parts, false)),
            Parts::Arguments => Ok(self.places_all(parts, true)),
        }
    }

    // A condition, and its then part, over which the condition's own quantifier reaches.
    #[cycle(goals_placed)]
    fn places_conditional(&mut self, parts: &'a [Term]) -> Result<bool, Memory>
        ensures answer { IfOk result
            (λ placed.
            placed
            ≡ parts_placed (all_names self.old.sets.items)
            (first_names (term_list (map plain_term parts.now)) ++ all_names self.old.sets.items)
            (Goals Whole Whole)
            (term_list (map plain_term parts.now))) }
        ensures kept { OnOk result (self.new.sets.items ≡ self.old.sets.items) }
    {
        match parts {
            [] => Ok(true),
            [condition, then_part @ ..] => {
                if !self.places_goal(condition)? {
                    return Ok(false);
                }
                self.places_then_part(condition, then_part)
            }
        }
    }

    #[cycle(goals_placed)]
    fn places_then_part(
        &mut self,
        condition: &'a Term,
        then_part: &'a [Term],
    ) -> Result<bool, Memory>
        ensures answer { IfOk result
            (λ placed.
            placed
            ≡ goals_placed
            (condition_names (plain_term condition.now) ++ all_names self.old.sets.items)
            (term_list (map plain_term then_part.now))) }
        ensures kept { OnOk result (self.new.sets.items ≡ self.old.sets.items) }
    {
        self.sets.push(condition_names(self.alloc, condition)?)?;
        let placed = self.places_goals(then_part)?;
        let _ = self.sets.pop();
        Ok(placed)
    }

    #[cycle(goals_placed)]
    fn places_quantified(&mut self, list: &'a Term, goals: &'a [Term]) -> Result<bool, Memory>
        ensures answer { IfOk result
            (λ placed.
            placed
            ≡ goals_placed
            (quantified (plain_term list.now) ++ all_names self.old.sets.items)
            (term_list (map plain_term goals.now))) }
        ensures kept { OnOk result (self.new.sets.items ≡ self.old.sets.items) }
    {
        self.sets.push(quantified(self.alloc, list)?)?;
        let placed = self.places_goals(goals)?;
        let _ = self.sets.pop();
        Ok(placed)
    }

    #[cycle(goals_placed)]
    fn places_goals(&mut self, goals: &'a [Term]) -> Result<bool, Memory>
        ensures answer { IfOk result
            (λ placed.
            placed
            ≡ goals_placed (all_names self.old.sets.items) (term_list (map plain_term goals.now))) }
        ensures kept { OnOk result (self.new.sets.items ≡ self.old.sets.items) }
    {
        for goal in goals {
            if !self.places_goal(goal)? {
                return Ok(false);
            }
        }
        Ok(true)
    }
}
