ghost use Rattle.std.specs.Prelude.{◌≡◌, [], ◌∷◌, List, true, map, codes, IfOk, OnOk};
ghost use Rattle.mc_term_data.specs.Plain.{plain_term, term_list};
ghost use Rattle.mc_state_variables.specs.Numbered.{Part, written, branch_of, goal_of, goals_of, conditional, conjunction_of, disjunction_of, quantified_goal, negated, implied, both_ways, applied, in_negation};
ghost use Rattle.mc_state_variables.specs.code.Conditions.{written_goal, is_apart, test_of, then_of, arrow_of};
ghost use Rattle.mc_state_variables.specs.code.Helds.{plain_helds};
ghost use Rattle.mc_state_variables.specs.code.Pieces.{plain_piece, pieces_of};
ghost use Rattle.mc_state_variables.specs.code.Steps.{gone_on, wholes_of};

use crate::atoms::atom;
use crate::branches::{Branch, branch_kind, is_conditional};
use crate::conditions::{Tried, closings_of_then};
use crate::finishing::{all_over, closings_of_goal, some_over};
use crate::held::Held;
use crate::numbering::{Numbering, ScopeChange};
use crate::pieces::{Opening, Piece, and_then, begins, disjunction_of};
use crate::steps::{Conjuncts, wholes};
use crate::terms::{both, conjunction_term, operator, over, over_one};
use mc_base::{Copied, Memory, NameSet, Row, Text};
use mc_clause_syntax::GoalForm;
use mc_term_data::{Node, Term, arity};

impl Numbering {
    /// A goal as one among others. It takes stack for each level of the goal.
    #[cycle(goals)]
    pub fn part<'a>(&mut self, held: &[Held<'a>], goal: &'a Term) -> Result<Term, Memory>
        ensures { IfOk result
            (λ text.
            written (plain_term text) self.new.next
            ≡ (goal_of (plain_term goal.now)).part.writing (plain_helds held.now) self.old.next) }
    {
        match &goal.node {
            Node::Conj(goals) => self.conjunction(held, goals.as_slice(), goal.line),
            Node::Disj(goals) => self.disjunction(held, goals.as_slice(), goal.line),
            Node::App(name, parts) => {
                let form = GoalForm::of(name.as_slice(), arity(parts.as_slice()));
                self.formed(held, form, name, parts, goal.line)
            }
            _ => goal.copied(self.alloc),
        }
    }

    // A goal, by its form.
    #[cycle(goals)]
    fn formed<'a>(
        &mut self,
        held: &[Held<'a>],
        form: GoalForm,
        name: &Row<Text>,
        parts: &'a Row<Term>,
        line: u32,
    ) -> Result<Term, Memory>
        ensures { IfOk result
            (λ text.
            written (plain_term text) self.new.next
            ≡ written_goal form name.now line (term_list (map plain_term parts.now)) (plain_helds held.now) self.old.next) }
    {
        match form {
            GoalForm::Conjunction => self.conjunction(held, parts.as_slice(), line),
            GoalForm::Disjunction | GoalForm::Else => self.disjunction(
                held,
                parts.as_slice(),
                line,
            ),
            GoalForm::Arrow | GoalForm::Then => match parts.as_slice() {
                [condition, then, ..] => {
                    let wanted = NameSet::new(self.alloc);
                    self.conditional(&wanted, held, condition, then, line)
                }
                _ => over(self.alloc, name, parts, line),
            },
            GoalForm::If => match parts.as_slice() {
                [goal, ..] => self.part(held, goal),
                [] => over(self.alloc, name, parts, line),
            },
            _ => self.formed_apart(held, form, name, parts, line),
        }
    }

    // A goal that negates or quantifies others, or an atom.
    #[cycle(goals)]
    fn formed_apart<'a>(
        &mut self,
        held: &[Held<'a>],
        form: GoalForm,
        name: &Row<Text>,
        parts: &'a Row<Term>,
        line: u32,
    ) -> Result<Term, Memory>
        ensures { IfOk result
            (λ text.
            is_apart form ≡ true
            → written (plain_term text) self.new.next
            ≡ written_goal form name.now line (term_list (map plain_term parts.now)) (plain_helds held.now) self.old.next) }
    {
        match form {
            GoalForm::Existential => match parts.as_slice() {
                [list, goal, ..] => self.existential(held, list, goal, line),
                _ => over(self.alloc, name, parts, line),
            },
            GoalForm::Universal => match parts.as_slice() {
                [list, goal, ..] => self.universal(held, list, goal, line),
                _ => over(self.alloc, name, parts, line),
            },
            GoalForm::Negation => match parts.as_slice() {
                [goal, ..] => self.negation(held, name, goal, line),
                [] => over(self.alloc, name, parts, line),
            },
            GoalForm::Implication => match parts.as_slice() {
                [premise, conclusion, ..] => self.implied(held, premise, conclusion, line),
                _ => over(self.alloc, name, parts, line),
            },
            GoalForm::ReverseImplication => match parts.as_slice() {
                [conclusion, premise, ..] => self.implied(held, premise, conclusion, line),
                _ => over(self.alloc, name, parts, line),
            },
            GoalForm::Equivalence => match parts.as_slice() {
                [left, right, ..] => self.both_ways(held, left, right, line),
                _ => over(self.alloc, name, parts, line),
            },
            GoalForm::Unification | GoalForm::Call => atom(
                self.alloc,
                held,
                name,
                parts.as_slice(),
                line,
            ),
            GoalForm::Disunification => self.disunification(held, name, parts, line),
            _ => over(self.alloc, name, parts, line),
        }
    }

    // The goals of a conjunction: the last that updates a state variable ends with its version after the whole, each
    // earlier one with a new one.
    #[cycle(goals)]
    fn conjunction<'a>(
        &mut self,
        held: &[Held<'a>],
        goals: &'a [Term],
        line: u32,
    ) -> Result<Term, Memory>
        ensures { IfOk result
            (λ text.
            written (plain_term text) self.new.next
            ≡ conjunction_of line (goals_of (term_list (map plain_term goals.now))) (plain_helds held.now) self.old.next) }
    {
        let mut written = Conjuncts::of(self.alloc, held, goals)?;
        for goal in goals {
            self.conjunct(&mut written, goal)?;
        }
        let Conjuncts {
            steps: _,
            current: _,
            texts,
        } = written;
        conjunction_term(texts, line)
    }

    // One goal more of a conjunction.
    #[cycle(goals)]
    fn conjunct<'a>(&mut self, written: &mut Conjuncts<'a>, goal: &'a Term) -> Result<(), Memory>
        ensures { OnOk result
            ((rest : List Part)
            → gone_on written.new rest self.new.next
            ≡ gone_on written.old ((goal_of (plain_term goal.now)).part ∷ rest) self.old.next) }
    {
        let given = self.passed(written)?;
        let text = self.part(&given, goal)?;
        written.texts.push(text)?;
        Ok(())
    }

    // A goal that ends with new versions of all that it updates, of which nothing is seen outside.
    #[cycle(goals)]
    fn whole<'a>(&mut self, held: &[Held<'a>], goal: &'a Term) -> Result<Term, Memory>
        ensures { IfOk result
            (λ text.
            written (plain_term text) self.new.next
            ≡ (negated (goal_of (plain_term goal.now)).part).writing (plain_helds held.now) self.old.next) }
    {
        let around = self.around_whole(held, goal)?;
        let text = self.part(&around.given, goal)?;
        Ok(text)
    }

    // The disjuncts of a disjunction: each starts from the versions before the whole and ends with those after it, and
    // a conditional before others is one with them behind its else.
    #[cycle(goals)]
    fn disjunction<'a>(
        &mut self,
        held: &[Held<'a>],
        goals: &'a [Term],
        line: u32,
    ) -> Result<Term, Memory>
        ensures { IfOk result
            (λ text.
            written (plain_term text) self.new.next
            ≡ disjunction_of line (goals_of (term_list (map plain_term goals.now))) (plain_helds held.now) self.old.next) }
    {
        let pieces = self.pieces(held, goals, line)?;
        let text = disjunction_of(self.alloc, pieces, line)?;
        Ok(text)
    }

    // The disjuncts as they are written one after another.
    #[cycle(goals)]
    fn pieces<'a>(
        &mut self,
        held: &[Held<'a>],
        goals: &'a [Term],
        line: u32,
    ) -> Result<Vec<Piece>, Memory>
        ensures { IfOk result
            (λ pieces.
            written (map plain_piece pieces.items) self.new.next
            ≡ pieces_of line (wholes_of (term_list (map plain_term goals.now))) [] true (goals_of (term_list (map plain_term goals.now))) (plain_helds held.now) self.old.next) }
    {
        let mut wholes = wholes(self.alloc, goals)?;
        let mut wanted = NameSet::new(self.alloc);
        let mut fresh = true;
        let mut pieces = Vec::new(self.alloc);
        for goal in goals {
            // each disjunct has those names
            let Some(whole) = wholes.pop() else {
                return Err(Memory);
            };
            let conditional = is_conditional(goal);
            let begins = begins(fresh, conditional, &wholes);
            let Opening {
                wanted: around,
                closings: opened,
            } = Opening::of(self.alloc, begins, wanted, whole, held, line)?;
            wanted = around;
            let text = self.branch(&wanted, held, goal)?;
            pieces.push(Piece { text, opened })?;
            fresh = conditional;
        }
        Ok(pieces)
    }

    // A goal as one of several branches, which ends with the equations of the wanted state variables that it doesn't
    // update.
    #[cycle(goals)]
    pub fn branch<'a>(
        &mut self,
        wanted: &NameSet<'_>,
        held: &[Held<'a>],
        goal: &'a Term,
    ) -> Result<Term, Memory>
        ensures { IfOk result
            (λ text.
            written (plain_term text) self.new.next
            ≡ (goal_of (plain_term goal.now)).branch.writing wanted.now (plain_helds held.now) self.old.next) }
    {
        match branch_kind(goal) {
            Branch::Conditional(condition, then) => {
                self.conditional(wanted, held, condition, then, goal.line)
            }
            Branch::Behind(goal) => self.branch(wanted, held, goal),
            Branch::Plain => self.closed(wanted, held, goal),
        }
    }

    // A goal that isn't a conditional, with the equations that close it.
    #[cycle(goals)]
    fn closed<'a>(
        &mut self,
        wanted: &NameSet<'_>,
        held: &[Held<'a>],
        goal: &'a Term,
    ) -> Result<Term, Memory>
        ensures { IfOk result
            (λ text.
            written (plain_term text) self.new.next
            ≡ (branch_of goal.now.line (goal_of (plain_term goal.now)).part).writing wanted.now (plain_helds held.now) self.old.next) }
    {
        let text = self.part(held, goal)?;
        let goals = closings_of_goal(self.alloc, wanted, held, goal)?;
        and_then(self.alloc, text, goals)
    }

    // A condition and its then part, which are one conjunction in which the condition ends with new versions.
    #[cycle(goals)]
    fn conditional<'a>(
        &mut self,
        wanted: &NameSet<'_>,
        held: &[Held<'a>],
        condition: &'a Term,
        then: &'a Term,
        line: u32,
    ) -> Result<Term, Memory>
        ensures { IfOk result
            (λ text.
            written (plain_term text) self.new.next
            ≡ (conditional line (goal_of (plain_term condition.now)).condition (goal_of (plain_term then.now)).part []).writing
            wanted.now (plain_helds held.now) self.old.next) }
    {
        let tried = self.tried(held, condition)?;
        let text = self.arrow(&tried, then, wanted, held, line)?;
        Ok(text)
    }

    // A condition that is tried, and its then part.
    #[cycle(goals)]
    fn arrow<'a>(
        &mut self,
        tried: &Tried<'a>,
        then: &'a Term,
        wanted: &NameSet<'_>,
        held: &[Held<'a>],
        line: u32,
    ) -> Result<Term, Memory>
        ensures { IfOk result
            (λ text.
            written (plain_term text) self.new.next
            ≡ arrow_of tried.now (plain_term then.now) wanted.now (plain_helds held.now) line self.old.next) }
    {
        let test = self.test(tried, then)?;
        let result = self.then_part(tried, then, wanted, held, line)?;
        operator(self.alloc, b"->", test, result, line)
    }

    // The condition by itself.
    #[cycle(goals)]
    fn test<'a>(&mut self, tried: &Tried<'a>, then: &'a Term) -> Result<Term, Memory>
        ensures { IfOk result
            (λ text.
            written (plain_term text) self.new.next
            ≡ test_of tried.now (plain_term then.now) self.old.next) }
    {
        let text = self.part(&tried.around.given, tried.condition.goal)?;
        tried
            .condition
            .quantified(self.alloc, then, &tried.inside, text)
    }

    // The then part behind it.
    #[cycle(goals)]
    fn then_part<'a>(
        &mut self,
        tried: &Tried<'a>,
        then: &'a Term,
        wanted: &NameSet<'_>,
        held: &[Held<'a>],
        line: u32,
    ) -> Result<Term, Memory>
        ensures { IfOk result
            (λ text.
            written (plain_term text) self.new.next
            ≡ then_of tried.now (plain_term then.now) wanted.now (plain_helds held.now) line self.old.next) }
    {
        let behind = &tried.around.behind;
        let result = self.part(behind, then)?;
        let goals = closings_of_then(self.alloc, wanted, &tried.names, then, behind, held, line)?;
        and_then(self.alloc, result, goals)
    }

    // A goal under `some`, whose state variables begin anew.
    #[cycle(goals)]
    fn existential<'a>(
        &mut self,
        held: &[Held<'a>],
        list: &'a Term,
        goal: &'a Term,
        line: u32,
    ) -> Result<Term, Memory>
        ensures { IfOk result
            (λ text.
            written (plain_term text) self.new.next
            ≡ quantified_goal (codes "some") line (plain_term list.now) (goal_of (plain_term goal.now)).part (plain_helds held.now) self.old.next) }
    {
        let inside = self.entered_by(held, list)?;
        let text = self.part(&inside, goal)?;
        some_over(self.alloc, &inside, list, goal, text, line)
    }

    // A goal under `all`, which is a negation.
    #[cycle(goals)]
    fn universal<'a>(
        &mut self,
        held: &[Held<'a>],
        list: &'a Term,
        goal: &'a Term,
        line: u32,
    ) -> Result<Term, Memory>
        ensures { IfOk result
            (λ text.
            written (plain_term text) self.new.next
            ≡ quantified_goal (codes "all") line (plain_term list.now) (negated (goal_of (plain_term goal.now)).part) (plain_helds held.now) self.old.next) }
    {
        let inside = self.entered_by(held, list)?;
        let text = self.whole(&inside, goal)?;
        all_over(self.alloc, &inside, list, text, line)
    }

    // What is updated in a negation ends with new versions, and isn't seen outside.
    #[cycle(goals)]
    fn negation<'a>(
        &mut self,
        held: &[Held<'a>],
        name: &Row<Text>,
        goal: &'a Term,
        line: u32,
    ) -> Result<Term, Memory>
        ensures { IfOk result
            (λ text.
            written (plain_term text) self.new.next
            ≡ applied name.now line (in_negation ((goal_of (plain_term goal.now)).part ∷ []) (plain_helds held.now) self.old.next)) }
    {
        let text = self.whole(held, goal)?;
        over_one(self.alloc, name, text, line)
    }

    // What `A => B` says is the negation of `A, not B`.
    #[cycle(goals)]
    fn implied<'a>(
        &mut self,
        held: &[Held<'a>],
        premise: &'a Term,
        conclusion: &'a Term,
        line: u32,
    ) -> Result<Term, Memory>
        ensures { IfOk result
            (λ text.
            written (plain_term text) self.new.next
            ≡ implied line (goal_of (plain_term premise.now)).part (goal_of (plain_term conclusion.now)).part (plain_helds held.now) self.old.next) }
    {
        let ScopeChange { given, behind } = self.around_whole(held, premise)?;
        let left = self.part(&given, premise)?;
        let right = self.whole(&behind, conclusion)?;
        operator(self.alloc, b"=>", left, right, line)
    }

    // `A <=> B` is `A => B` and `B => A`.
    #[cycle(goals)]
    fn both_ways<'a>(
        &mut self,
        held: &[Held<'a>],
        left: &'a Term,
        right: &'a Term,
        line: u32,
    ) -> Result<Term, Memory>
        ensures { IfOk result
            (λ text.
            written (plain_term text) self.new.next
            ≡ both_ways line (goal_of (plain_term left.now)).part (goal_of (plain_term right.now)).part (plain_helds held.now) self.old.next) }
    {
        let forth = self.implied(held, left, right, line)?;
        let back = self.implied(held, right, left, line)?;
        both(self.alloc, forth, back, line)
    }
}
