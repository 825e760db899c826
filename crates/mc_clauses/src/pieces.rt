ghost use Rattle.std.specs.Prelude.{◌≡◌, ◌++◌, ◌∷◌, [], map, IfOk, OnOk};
ghost use Rattle.mc_accepted.specs.Resolving.{all_of, choice, negation, exists};
ghost use Rattle.mc_unresolved.specs.Unresolved.{plain_unresolved_goal, unresolved_goals};
ghost use Rattle.mc_clauses.specs.Unresolved.{one_or_several, two_goals};
ghost use Rattle.mc_clauses.specs.code.GoalWalks.{before_else, closed, one_around};

use mc_base::{Memory, Row};
use mc_unresolved::UnresolvedGoal;
use std::alloc::Global;
use std::mem;

/// A condition and its then part, under the variables that the condition quantifies as a whole.
#[derive(Drop)]
pub struct Chosen {
    pub vars: Row<u32>,
    pub condition: UnresolvedGoal,
    pub then_part: UnresolvedGoal,
}

/// Disjuncts before one that is being made: where the condition and the then part of that one are made, its else part
/// is to follow.
#[derive(Drop)]
pub struct OuterDisjunction {
    pub before: Vec<UnresolvedGoal>,
    pub chosen: Option<Chosen>,
}

/// A disjunction that is being made: the disjuncts that are made, and what stands around them, the outermost first.
#[derive(Drop)]
pub struct Unclosed {
    pub around: Vec<OuterDisjunction>,
    pub made: Vec<UnresolvedGoal>,
}

impl Unclosed {
    /// No disjunct is made.
    pub fn new(alloc: Global) -> Unclosed
        ensures around { result.around.items ≡ [] }
        ensures made { result.made.items ≡ [] }
    {
        Unclosed {
            around: Vec::new(alloc),
            made: Vec::new(alloc),
        }
    }

    /// Begins the disjunction that follows those that are made: the last disjunct, or an else part.
    pub fn begin(&mut self, alloc: Global, chosen: Option<Chosen>) -> Result<(), Memory>
        ensures around { OnOk result (self.new.around.items ≡ self.old.around.items
            ++ one_around self.old.made chosen ∷ []) }
        ensures made { OnOk result (self.new.made.items ≡ []) }
    {
        let before = mem::replace(&mut self.made, Vec::new(alloc));
        self.around.push(OuterDisjunction { before, chosen })?;
        Ok(())
    }

    /// The whole disjunction, where no disjunct is left.
    pub fn close(self, alloc: Global) -> Result<UnresolvedGoal, Memory>
        ensures { IfOk result (λ made. plain_unresolved_goal made
            ≡ closed self.around.items (unresolved_goals (map plain_unresolved_goal self.made.items))) }
    {
        let Unclosed { mut around, made } = self;
        let mut whole = several(made)?;
        while let Some(OuterDisjunction { mut before, chosen }) = around.pop() {
            let last = conditional(alloc, chosen, whole)?;
            before.push(last)?;
            whole = several(before)?;
        }
        Ok(whole)
    }
}

/// What follows some disjuncts: a conditional with its else part, or that part alone.
fn conditional(
    alloc: Global,
    chosen: Option<Chosen>,
    else_part: UnresolvedGoal,
) -> Result<UnresolvedGoal, Memory>
    ensures { IfOk result (λ made. plain_unresolved_goal made
        ≡ before_else chosen (plain_unresolved_goal else_part)) }
{
    match chosen {
        Some(chosen) => {
            let made = choice(alloc, chosen, else_part)?;
            Ok(made)
        }
        None => Ok(else_part),
    }
}

/// A conditional.
pub fn choice(
    alloc: Global,
    chosen: Chosen,
    else_part: UnresolvedGoal,
) -> Result<UnresolvedGoal, Memory>
    ensures { IfOk result (λ made. plain_unresolved_goal made
        ≡ choice chosen.vars (plain_unresolved_goal chosen.condition)
        (plain_unresolved_goal chosen.then_part) (plain_unresolved_goal else_part)) }
{
    let Chosen {
        vars,
        condition,
        then_part,
    } = chosen;
    let condition = Box::new(alloc, condition)?;
    let then_part = Box::new(alloc, then_part)?;
    let else_part = Box::new(alloc, else_part)?;
    Ok(UnresolvedGoal::Choice(vars, condition, then_part, else_part))
}

/// The negation of a goal.
pub fn negation(alloc: Global, goal: UnresolvedGoal) -> Result<UnresolvedGoal, Memory>
    ensures { IfOk result (λ made. plain_unresolved_goal made ≡ negation (plain_unresolved_goal goal)) }
{
    let goal = Box::new(alloc, goal)?;
    Ok(UnresolvedGoal::Negation(goal))
}

/// A goal under the variables that a quantifier names.
pub fn exists(alloc: Global, vars: Vec<u32>, goal: UnresolvedGoal) -> Result<UnresolvedGoal, Memory>
    ensures { IfOk result (λ made. plain_unresolved_goal made
        ≡ exists vars.items (plain_unresolved_goal goal)) }
{
    let vars = Row::of(vars)?;
    let goal = Box::new(alloc, goal)?;
    Ok(UnresolvedGoal::Exists(vars, goal))
}

/// Two goals one behind another.
pub fn two_goals(
    alloc: Global,
    first: UnresolvedGoal,
    second: UnresolvedGoal,
) -> Result<UnresolvedGoal, Memory>
    ensures { IfOk result (λ made. plain_unresolved_goal made
        ≡ all_of (two_goals (plain_unresolved_goal first) (plain_unresolved_goal second))) }
{
    let mut goals = Vec::with_capacity(alloc, 2)?;
    goals.push(first)?;
    goals.push(second)?;
    let goals = Row::of(goals)?;
    Ok(UnresolvedGoal::AllOf(goals))
}

/// Several disjuncts are a disjunction, one is itself.
fn several(mut goals: Vec<UnresolvedGoal>) -> Result<UnresolvedGoal, Memory>
    ensures { IfOk result (λ made. plain_unresolved_goal made
        ≡ one_or_several (unresolved_goals (map plain_unresolved_goal goals.items))) }
{
    if goals.len() == 1 {
        let only = goals.remove(0);
        return Ok(only);
    }
    let goals = Row::of(goals)?;
    Ok(UnresolvedGoal::OneOf(goals))
}
