ghost use Rattle.std.specs.Prelude.{◌≡◌, ◌<◌, ◌^◌, ◌++◌, map, IfOk, OnOk};
ghost use Rattle.mc_program.specs.Programs.{expressions, Call, Exists, If, Not, Or};
ghost use Rattle.mc_program.specs.PlainPrograms.{plain_expression, plain_goal, formulas};
ghost use Rattle.mc_model.specs.PlainGoals.{plain_flat};
ghost use Rattle.mc_accepted.specs.Normal.{around, conjunction, all_disjuncts, disjuncts, one_or_and, equate, equation, conjuncts_of, disjuncts_of, name_terms};
ghost use Rattle.mc_goals.specs.code.Numbering.{number_at};
ghost use Rattle.mc_goals.specs.code.Naming.{held, followed, with_goal, goal_over, added, numbered, variable_in};

use crate::building::{Building, Head};
use crate::numbers::Numbers;
use crate::terms::{named, named_all};
use mc_base::{Copied, Memory, Row};
use mc_model::flat::Flat;
use mc_program::expr::Expr;
use mc_program::program::Goal;
use mc_program::value::Value;
use std::alloc::Global;

/// Puts the conjuncts that a goal adds to the conjunction around it at the end.
#[cycle(goals)]
pub fn add_goal(
    alloc: Global,
    numbers: &Numbers,
    into: &mut Building,
    goal: &Goal,
) -> Result<(), Memory>
    ensures { OnOk result (held into.new ≡ followed (held into.old)
        (conjuncts_of (number_at numbers.now) (held into.old).next (plain_goal goal.now))) }
{
    match goal {
        Goal::True => Ok(()),
        Goal::Conj(goals) => {
            let goals = goals.as_slice();
            for goal in goals {
                add_goal(alloc, numbers, into, goal)?;
            }
            Ok(())
        }
        Goal::Disj(goals) => add_disjunction(alloc, numbers, into, goals.as_slice()),
        Goal::Ite(vars, condition, then_part, else_part) => {
            let vars = vars.as_slice();
            add_choice(alloc, numbers, into, vars, condition, then_part, else_part)
        }
        Goal::Not(goal) => add_negation(alloc, numbers, into, goal),
        Goal::Some(vars, goal) => add_quantified(alloc, numbers, into, vars.as_slice(), goal),
        Goal::Equal(left, right) => add_equation(alloc, numbers, into, left, right),
        Goal::Call(pred, args) => add_call(alloc, numbers, into, *pred, args.as_slice()),
    }
}

/// Puts a disjunction at the end.
#[cycle(goals)]
fn add_disjunction(
    alloc: Global,
    numbers: &Numbers,
    into: &mut Building,
    goals: &[Goal],
) -> Result<(), Memory>
    ensures { OnOk result (held into.new ≡ followed (held into.old)
        (conjuncts_of (number_at numbers.now) (held into.old).next
        (Or (formulas (map plain_goal goals.now))))) }
{
    let disjuncts = either(alloc, numbers, into, goals)?;
    into.add(Flat::Disj(Row::of(disjuncts)?))
}

/// Puts a choice at the end.
#[cycle(goals)]
fn add_choice(
    alloc: Global,
    numbers: &Numbers,
    into: &mut Building,
    vars: &[u32],
    condition: &Goal,
    then_part: &Goal,
    else_part: &Goal,
) -> Result<(), Memory>
    ensures { OnOk result (held into.new ≡ followed (held into.old)
        (conjuncts_of (number_at numbers.now) (held into.old).next
        (If vars.now (plain_goal condition.now) (plain_goal then_part.now) (plain_goal else_part.now)))) }
{
    let vars = Row::of(numbers.all(alloc, vars)?)?;
    let condition = enclosed_part(alloc, numbers, into, condition)?;
    let then_part = enclosed_part(alloc, numbers, into, then_part)?;
    let else_part = enclosed_part(alloc, numbers, into, else_part)?;
    into.add(Flat::Ite(vars, condition, then_part, else_part))
}

/// Puts a negation at the end.
#[cycle(goals)]
fn add_negation(
    alloc: Global,
    numbers: &Numbers,
    into: &mut Building,
    goal: &Goal,
) -> Result<(), Memory>
    ensures { OnOk result (held into.new ≡ followed (held into.old)
        (conjuncts_of (number_at numbers.now) (held into.old).next (Not (plain_goal goal.now)))) }
{
    let goal = enclosed_part(alloc, numbers, into, goal)?;
    into.add(Flat::Not(goal))
}

/// Puts a goal at the end over which variables are quantified.
#[cycle(goals)]
fn add_quantified(
    alloc: Global,
    numbers: &Numbers,
    into: &mut Building,
    vars: &[u32],
    goal: &Goal,
) -> Result<(), Memory>
    ensures { OnOk result (held into.new ≡ followed (held into.old)
        (conjuncts_of (number_at numbers.now) (held into.old).next
        (Exists vars.now (plain_goal goal.now)))) }
{
    let vars = numbers.all(alloc, vars)?;
    let inner = inside(alloc, numbers, into, goal)?;
    into.add(inner.under(alloc, vars)?)
}

/// Puts a call at the end, behind the goals that define its arguments.
fn add_call(
    alloc: Global,
    numbers: &Numbers,
    into: &mut Building,
    pred: u32,
    args: &[Expr],
) -> Result<(), Memory>
    ensures { OnOk result (held into.new ≡ followed (held into.old)
        (conjuncts_of (number_at numbers.now) (held into.old).next
        (Call pred (expressions (map plain_expression args.now))))) }
{
    let args = named_all(alloc, numbers, into, args)?;
    into.call(pred, args)
}

/// A conjunction of its own, with the variables that were made for it, which nothing quantifies yet.
#[derive(Drop)]
struct Inner {
    goal: Flat,
    made: Vec<u32>,
}

impl Inner {
    ghost use Rattle.mc_model.specs.Flat.{Exists};

    /// The goal with variables quantified around it, and behind them those that were made.
    fn under(self, alloc: Global, mut vars: Vec<u32>) -> Result<Flat, Memory>
        ensures { IfOk result (λ flat. plain_flat flat
            ≡ Exists (vars.items ++ self.made.items) (plain_flat self.goal)) }
    {
        let Inner { goal, made } = self;
        vars.extend_from_slice(made.as_slice())?;
        Ok(Flat::Some(Row::of(vars)?, Box::new(alloc, goal)?))
    }

    /// The goal with the variables that were made quantified around it, where there are any.
    fn whole(self, alloc: Global) -> Result<Flat, Memory>
        ensures { IfOk result (λ flat. plain_flat flat
            ≡ around self.made.items (plain_flat self.goal)) }
    {
        let Inner { goal, made } = self;
        if made.is_empty() {
            return Ok(goal);
        }
        Ok(Flat::Some(Row::of(made)?, Box::new(alloc, goal)?))
    }
}

/// A goal as a conjunction of its own. The numbers of the variables that are made for it are no longer free.
#[cycle(goals)]
#[tactic(auto, using(crate::proofs::Conjunctions::goal_conjunction))]
fn inside(
    alloc: Global,
    numbers: &Numbers,
    outer: &mut Building,
    goal: &Goal,
) -> Result<Inner, Memory>
    ensures goal { IfOk result (λ inner. plain_flat inner.goal
        ≡ conjunction (conjuncts_of (number_at numbers.now) (held outer.old).next (plain_goal goal.now)).goals) }
    ensures made { IfOk result (λ inner. inner.made.items
        ≡ (conjuncts_of (number_at numbers.now) (held outer.old).next (plain_goal goal.now)).made_variables) }
    ensures outer { OnOk result (held outer.new
        ≡ numbered (conjuncts_of (number_at numbers.now) (held outer.old).next (plain_goal goal.now)).next (held outer.old)) }
{
    let mut inner = Building {
        goals: Vec::new(alloc),
        made: Vec::new(alloc),
        next: outer.next,
    };
    add_goal(alloc, numbers, &mut inner, goal)?;
    let Building { goals, made, next } = inner;
    outer.next = next;
    let goal = conjunction_of(goals)?;
    Ok(Inner { goal, made })
}

/// A goal with the variables that are made for it quantified around it.
#[cycle(goals)]
fn enclosed(
    alloc: Global,
    numbers: &Numbers,
    outer: &mut Building,
    goal: &Goal,
) -> Result<Flat, Memory>
    ensures goal { IfOk result (λ flat. let r = conjuncts_of (number_at numbers.now) (held outer.old).next (plain_goal goal.now) in
        plain_flat flat ≡ around r.made_variables (conjunction r.goals)) }
    ensures outer { OnOk result (held outer.new
        ≡ numbered (conjuncts_of (number_at numbers.now) (held outer.old).next (plain_goal goal.now)).next (held outer.old)) }
{
    inside(alloc, numbers, outer, goal)?.whole(alloc)
}

/// The same as a part of another goal. It is boxed here, since a tree in hand is dear to prove where memory may be wanting.
#[cycle(goals)]
fn enclosed_part(
    alloc: Global,
    numbers: &Numbers,
    outer: &mut Building,
    goal: &Goal,
) -> Result<Box<Flat>, Memory>
    ensures goal { IfOk result (λ part. let r = conjuncts_of (number_at numbers.now) (held outer.old).next (plain_goal goal.now) in
        plain_flat part.value ≡ around r.made_variables (conjunction r.goals)) }
    ensures outer { OnOk result (held outer.new
        ≡ numbered (conjuncts_of (number_at numbers.now) (held outer.old).next (plain_goal goal.now)).next (held outer.old)) }
{
    let goal = enclosed(alloc, numbers, outer, goal)?;
    Ok(Box::new(alloc, goal)?)
}

/// The disjuncts of goals, those of disjunctions among them in their places.
#[cycle(goals)]
fn either(
    alloc: Global,
    numbers: &Numbers,
    outer: &mut Building,
    goals: &[Goal],
) -> Result<Vec<Flat>, Memory>
    ensures goals { IfOk result (λ flats. map plain_flat flats.items
        ≡ all_disjuncts (disjuncts_of (number_at numbers.now) (held outer.old).next (formulas (map plain_goal goals.now))).goals) }
    ensures outer { OnOk result (held outer.new
        ≡ numbered (disjuncts_of (number_at numbers.now) (held outer.old).next (formulas (map plain_goal goals.now))).next (held outer.old)) }
{
    let mut flats = Vec::new(alloc);
    for goal in goals {
        add_disjunct(&mut flats, enclosed(alloc, numbers, outer, goal)?)?;
    }
    Ok(flats)
}

/// Puts a goal at the end of a disjunction, whose parts a disjunction joins.
pub fn add_disjunct(flats: &mut Vec<Flat>, goal: Flat) -> Result<(), Memory>
    ensures { OnOk result (map plain_flat flats.new.items
        ≡ map plain_flat flats.old.items ++ disjuncts (plain_flat goal)) }
{
    match goal {
        Flat::Disj(goals) => {
            let mut goals = goals.into_vec();
            flats.append(&mut goals)?;
            Ok(())
        }
        goal => {
            flats.push(goal)?;
            Ok(())
        }
    }
}

/// The conjunction of goals; one goal stands alone.
pub fn conjunction_of(mut goals: Vec<Flat>) -> Result<Flat, Memory>
    ensures { IfOk result (λ flat. plain_flat flat ≡ one_or_and (map plain_flat goals.items)) }
{
    if goals.len() > 1 {
        goals.shrink_to_fit();
        return Ok(Flat::Conj(Row::of(goals)?));
    }
    match goals.pop() {
        None => Ok(Flat::True),
        Some(goal) => Ok(goal),
    }
}

/// Puts an equation at the end, behind the goals that define its parts.
fn add_equation(
    alloc: Global,
    numbers: &Numbers,
    into: &mut Building,
    left: &Expr,
    right: &Expr,
) -> Result<(), Memory>
    ensures { OnOk result (held into.new ≡ followed (held into.old)
        (equation (number_at numbers.now) (held into.old).next (plain_expression left.now) (plain_expression right.now))) }
{
    if let Some(x) = variable_of(left) {
        return add_equated(alloc, numbers, into, numbers.of(x), right);
    }
    if let Some(y) = variable_of(right) {
        return add_equated(alloc, numbers, into, numbers.of(y), left);
    }
    let x = named(alloc, numbers, into, left)?;
    add_equated(alloc, numbers, into, x, right)
}

/// The variable that a term is.
pub fn variable_of(term: &Expr) -> Option<u32>
    ensures { result ≡ variable_in (plain_expression term.now) }
{
    match term {
        Expr::Var(v) => Some(*v),
        Expr::Int(_) => None,
        Expr::Char(_) => None,
        Expr::Str(_) => None,
        Expr::Con(_, _) => None,
        Expr::Apply(_, _) => None,
    }
}

/// Puts the equation of a variable and a term at the end, behind the goals that define the term's parts.
pub fn add_equated(
    alloc: Global,
    numbers: &Numbers,
    into: &mut Building,
    variable: u32,
    term: &Expr,
) -> Result<(), Memory>
    ensures { OnOk result (held into.new ≡ followed (held into.old)
        (equate (number_at numbers.now) (held into.old).next variable (plain_expression term.now))) }
{
    match term {
        Expr::Var(v) => into.add(Flat::Same(variable, numbers.of(*v))),
        Expr::Int(n) => into.add(Flat::Const(variable, Value::Int(*n))),
        Expr::Char(c) => into.add(Flat::Const(variable, Value::Char(*c))),
        Expr::Str(t) => into.add(Flat::Const(variable, Value::Str(t.copied(alloc)?))),
        Expr::Con(symbol, args) => match args.as_slice() {
            [] => into.add(Flat::Made(variable, *symbol, Row::new(alloc))),
            args => add_over(alloc, numbers, into, variable, Head::Con(*symbol), args),
        },
        Expr::Apply(function, args) => {
            let head = Head::Apply(*function);
            add_over(alloc, numbers, into, variable, head, args.as_slice())
        }
    }
}

/// Puts the goal at the end that gives a variable the value of a head over terms, behind the goals that define these.
fn add_over(
    alloc: Global,
    numbers: &Numbers,
    into: &mut Building,
    variable: u32,
    head: Head,
    terms: &[Expr],
) -> Result<(), Memory>
    ensures { OnOk result
        (let r = name_terms (number_at numbers.now) (held into.old).next (expressions (map plain_expression terms.now)) in
        held into.new ≡ with_goal (goal_over head variable r.variables) (followed (held into.old) (added r))) }
{
    let args = named_all(alloc, numbers, into, terms)?;
    into.add(head.goal(variable, args)?)
}
