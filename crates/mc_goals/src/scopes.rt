ghost use Rattle.std.specs.Prelude.{◌≡◌, ℕ, List, ◌<◌, ◌^◌, ◌++◌, map, IsTrue, IfOk, OnOk};
ghost use Rattle.mc_program.specs.Programs.{Equal, If};
ghost use Rattle.mc_program.specs.PlainPrograms.{plain_expression, plain_goal, plain_clause, formulas};
ghost use Rattle.mc_accepted.specs.Scope as scope;
ghost use Rattle.mc_accepted.specs.Scope.{clause_scoped, occurring, occurring_all};
ghost use Rattle.mc_goals.specs.code.Outside.{count, more, less, free_by, free_by_all, own_of, scoped_by, parts_by, disjuncts_by};

use crate::occurrences::{push_all_occurring, push_all_variables, push_occurring, push_variables};
use crate::outside::Outside;
use mc_base::{Copied, Memory, Row};
use mc_program::expr::{Expr, copy_expr};
use mc_program::program::{Clause, Goal};
use std::alloc::Global;

/// The clause with its scopes written out, the variables of its head being outside its body. Its head stays, and so does a
/// body that has no scopes, as that of a fact.
pub fn scoped_clause(alloc: Global, clause: Clause) -> Result<Clause, Memory>
    ensures scoped { IfOk result (λ made. plain_clause made ≡ clause_scoped (plain_clause clause)) }
    ensures variables { IfOk result (λ made. made.vars ≡ clause.vars) }
    ensures place { IfOk result (λ made. made.place ≡ clause.place) }
{
    if has_no_parts(&clause.body) {
        return Ok(clause);
    }
    let body = scoped_body(alloc, &clause)?;
    let Clause {
        vars,
        head,
        place,
        ..
    } = clause;
    Ok(Clause {
        vars,
        head,
        body,
        place,
    })
}

/// Whether a goal has no goal inside, and so no scope.
fn has_no_parts(goal: &Goal) -> bool
    ensures { IsTrue result → (O : List ℕ)
        → scope.scoped O (plain_goal goal.now) ≡ plain_goal goal.now }
{
    match goal {
        Goal::True => true,
        Goal::Equal(_, _) => true,
        Goal::Call(_, _) => true,
        Goal::Conj(goals) => goals.is_empty(),
        _ => false,
    }
}

/// The body of a clause with its scopes written out.
fn scoped_body(alloc: Global, clause: &Clause) -> Result<Goal, Memory>
    ensures { IfOk result (λ body. plain_goal body
        ≡ (clause_scoped (plain_clause clause.now)).body) }
{
    let mut variables = Vec::new(alloc);
    push_all_variables(&mut variables, clause.head.as_slice())?;
    let mut outside = Outside::nothing(alloc);
    outside.add_all(variables.as_slice())?;
    let body = scoped_goal(alloc, &mut outside, &clause.body)?;
    Ok(body)
}

/// Other terms that are the same.
fn copied_terms(alloc: Global, terms: &[Expr]) -> Result<Row<Expr>, Memory>
    ensures { IfOk result (λ copies. copies ≡ terms.now) }
{
    let mut copies = Vec::with_capacity(alloc, terms.len())?;
    for term in terms {
        copies.push(copy_expr(alloc, term)?)?;
    }
    Row::of(copies)
}

/// A goal with its scopes written out.
#[cycle(scopes)]
pub fn scoped_goal(alloc: Global, outside: &mut Outside, goal: &Goal) -> Result<Goal, Memory>
    ensures goal { IfOk result (λ made. plain_goal made
        ≡ scoped_by (count outside.old) (plain_goal goal.now)) }
    ensures kept { OnOk result (count outside.new ≡ count outside.old) }
{
    match goal {
        Goal::True => Ok(Goal::True),
        Goal::Conj(goals) => Ok(Goal::Conj(parts(alloc, outside, goals.as_slice())?)),
        Goal::Disj(goals) => Ok(Goal::Disj(disjuncts(alloc, outside, goals.as_slice())?)),
        Goal::Ite(vars, condition, then_part, else_part) => {
            scoped_choice(
                alloc,
                outside,
                vars.as_slice(),
                condition,
                then_part,
                else_part,
            )
        }
        Goal::Not(goal) => {
            let goal = scoped_goal(alloc, outside, goal)?;
            Ok(Goal::Not(own_quantified(alloc, outside, goal)?))
        }
        Goal::Some(vars, goal) => {
            let goal = scoped_under(alloc, outside, vars.as_slice(), goal)?;
            Ok(Goal::Some(vars.copied(alloc)?, goal))
        }
        Goal::Equal(left, right) => copied_equation(alloc, left, right),
        Goal::Call(pred, args) => Ok(Goal::Call(*pred, copied_terms(alloc, args.as_slice())?)),
    }
}

/// A choice with its scopes written out.
#[cycle(scopes)]
fn scoped_choice(
    alloc: Global,
    outside: &mut Outside,
    vars: &[u32],
    condition: &Goal,
    then_part: &Goal,
    else_part: &Goal,
) -> Result<Goal, Memory>
    ensures goal { IfOk result (λ made. plain_goal made
        ≡ scoped_by (count outside.old) (If vars.now (plain_goal condition.now) (plain_goal then_part.now) (plain_goal else_part.now))) }
    ensures kept { OnOk result (count outside.new ≡ count outside.old) }
{
    let made = beside(alloc, outside, condition, vars, then_part)?;
    let all = with_own(alloc, outside, vars, &made)?;
    let then_part = beside(alloc, outside, then_part, vars, condition)?;
    let else_part = scoped_part(alloc, outside, else_part)?;
    Ok(Goal::Ite(all, made, then_part, else_part))
}

/// A part of a goal with its scopes written out. It is boxed here, since a tree in hand is dear to prove where memory may
/// be wanting.
#[cycle(scopes)]
fn scoped_part(alloc: Global, outside: &mut Outside, goal: &Goal) -> Result<Box<Goal>, Memory>
    ensures goal { IfOk result (λ made. plain_goal made.value
        ≡ scoped_by (count outside.old) (plain_goal goal.now)) }
    ensures kept { OnOk result (count outside.new ≡ count outside.old) }
{
    let made = scoped_goal(alloc, outside, goal)?;
    Ok(Box::new(alloc, made)?)
}

/// A part of a goal with its scopes written out, under the variables that are quantified over it.
#[cycle(scopes)]
#[tactic(auto, using(crate::proofs::OutsideCounts::less_more))]
fn scoped_under(
    alloc: Global,
    outside: &mut Outside,
    vars: &[u32],
    goal: &Goal,
) -> Result<Box<Goal>, Memory>
    ensures goal { IfOk result (λ made. plain_goal made.value
        ≡ scoped_by (more (count outside.old) vars.now) (plain_goal goal.now)) }
    ensures kept { OnOk result (count outside.new ≡ count outside.old) }
{
    outside.add_all(vars)?;
    let made = scoped_part(alloc, outside, goal)?;
    outside.remove_all(vars);
    Ok(made)
}

/// A goal whose scopes are written out, with its own variables quantified around it.
fn own_quantified(alloc: Global, outside: &mut Outside, goal: Goal) -> Result<Box<Goal>, Memory>
    ensures goal { IfOk result (λ made. plain_goal made.value
        ≡ scope.quantified (own_of (count outside.old) (plain_goal goal)) (plain_goal goal)) }
    ensures kept { OnOk result (count outside.new ≡ count outside.old) }
{
    let own = own_variables(alloc, outside, &goal)?;
    let made = quantified(alloc, own, goal)?;
    Ok(Box::new(alloc, made)?)
}

/// An equation of the same terms.
fn copied_equation(alloc: Global, left: &Expr, right: &Expr) -> Result<Goal, Memory>
    ensures { IfOk result (λ goal. plain_goal goal
        ≡ Equal (plain_expression left.now) (plain_expression right.now)) }
{
    let left = copy_expr(alloc, left)?;
    Ok(Goal::Equal(left, copy_expr(alloc, right)?))
}

/// A condition or its then part with its scopes written out, under the variables that are quantified over both, where
/// the other one stands beside it.
#[cycle(scopes)]
#[tactic(auto, using(crate::proofs::OutsideCounts::less_more))]
fn beside(
    alloc: Global,
    outside: &mut Outside,
    goal: &Goal,
    vars: &[u32],
    other: &Goal,
) -> Result<Box<Goal>, Memory>
    ensures goal { IfOk result (λ made. plain_goal made.value
        ≡ scoped_by (more (more (count outside.old) vars.now) (occurring (plain_goal other.now))) (plain_goal goal.now)) }
    ensures kept { OnOk result (count outside.new ≡ count outside.old) }
{
    let variables = occurrences(alloc, other)?;
    outside.add_all(vars)?;
    outside.add_all(variables.as_slice())?;
    let made = scoped_part(alloc, outside, goal)?;
    outside.remove_all(variables.as_slice());
    outside.remove_all(vars);
    Ok(made)
}

/// Variables that are quantified over a condition, and behind them its own.
#[tactic(auto, using(crate::proofs::OutsideCounts::less_more))]
fn with_own(
    alloc: Global,
    outside: &mut Outside,
    vars: &[u32],
    condition: &Goal,
) -> Result<Row<u32>, Memory>
    ensures vars { IfOk result (λ all. all
        ≡ vars.now ++ own_of (more (count outside.old) vars.now) (plain_goal condition.now)) }
    ensures kept { OnOk result (count outside.new ≡ count outside.old) }
{
    outside.add_all(vars)?;
    let own = own_variables(alloc, outside, condition)?;
    outside.remove_all(vars);
    let mut all = Vec::from_slice(alloc, vars)?;
    all.extend_from_slice(own.as_slice())?;
    Row::of(all)
}

/// The variables that occur in a goal, in order.
fn occurrences(alloc: Global, goal: &Goal) -> Result<Vec<u32>, Memory>
    ensures { IfOk result (λ variables. variables.items ≡ occurring (plain_goal goal.now)) }
{
    let mut variables = Vec::new(alloc);
    push_occurring(&mut variables, goal)?;
    Ok(variables)
}

/// The goals of a conjunction with their scopes written out: each has the others outside.
#[cycle(scopes)]
#[tactic(auto, using(crate::proofs::OutsideCounts::less_more))]
fn parts(alloc: Global, outside: &mut Outside, goals: &[Goal]) -> Result<Row<Goal>, Memory>
    ensures goals { IfOk result (λ made. map plain_goal made
        ≡ parts_by (more (count outside.old) (occurring_all (formulas (map plain_goal goals.now)))) (formulas (map plain_goal goals.now))) }
    ensures kept { OnOk result (count outside.new ≡ count outside.old) }
{
    let mut all = Vec::new(alloc);
    push_all_occurring(&mut all, goals)?;
    outside.add_all(all.as_slice())?;
    let mut made = Vec::with_capacity(alloc, goals.len())?;
    for goal in goals {
        made.push(part(alloc, outside, goal)?)?;
    }
    outside.remove_all(all.as_slice());
    Row::of(made)
}

/// A part of a conjunction with its scopes written out, where the whole conjunction was outside.
#[cycle(scopes)]
fn part(alloc: Global, outside: &mut Outside, goal: &Goal) -> Result<Goal, Memory>
    ensures goal { IfOk result (λ made. plain_goal made
        ≡ scoped_by (less (count outside.old) (occurring (plain_goal goal.now))) (plain_goal goal.now)) }
    ensures counts { OnOk result (count outside.new
        ≡ more (less (count outside.old) (occurring (plain_goal goal.now))) (occurring (plain_goal goal.now))) }
{
    let own = occurrences(alloc, goal)?;
    outside.remove_all(own.as_slice());
    let made = scoped_goal(alloc, outside, goal)?;
    outside.add_all(own.as_slice())?;
    Ok(made)
}

/// The goals of a disjunction with their scopes written out.
#[cycle(scopes)]
fn disjuncts(alloc: Global, outside: &mut Outside, goals: &[Goal]) -> Result<Row<Goal>, Memory>
    ensures goals { IfOk result (λ made. map plain_goal made
        ≡ disjuncts_by (count outside.old) (formulas (map plain_goal goals.now))) }
    ensures kept { OnOk result (count outside.new ≡ count outside.old) }
{
    let mut made = Vec::with_capacity(alloc, goals.len())?;
    for goal in goals {
        made.push(scoped_goal(alloc, outside, goal)?)?;
    }
    Row::of(made)
}

/// Variables quantified around a goal, where there are any.
pub fn quantified(alloc: Global, vars: Vec<u32>, goal: Goal) -> Result<Goal, Memory>
    ensures { IfOk result (λ made. plain_goal made
        ≡ scope.quantified vars.items (plain_goal goal)) }
{
    if vars.is_empty() {
        return Ok(goal);
    }
    Ok(Goal::Some(Row::of(vars)?, Box::new(alloc, goal)?))
}

/// The free variables of a goal that don't occur outside, each once, in order.
pub fn own_variables(alloc: Global, outside: &mut Outside, goal: &Goal) -> Result<Vec<u32>, Memory>
    ensures own { IfOk result (λ own. own.items
        ≡ own_of (count outside.old) (plain_goal goal.now)) }
    ensures kept { OnOk result (count outside.new ≡ count outside.old) }
{
    let mut free = Vec::new(alloc);
    push_free(alloc, outside, &mut free, goal)?;
    outside.absent_once(alloc, free.as_slice())
}

/// Puts the free variables of a goal at the end that don't occur outside, in order.
#[cycle(free)]
fn push_free(
    alloc: Global,
    outside: &mut Outside,
    list: &mut Vec<u32>,
    goal: &Goal,
) -> Result<(), Memory>
    ensures free { OnOk result (list.new.items
        ≡ list.old.items ++ free_by (count outside.old) (plain_goal goal.now)) }
    ensures kept { OnOk result (count outside.new ≡ count outside.old) }
{
    match goal {
        Goal::True => Ok(()),
        Goal::Conj(goals) => push_all_free(alloc, outside, list, goals.as_slice()),
        Goal::Disj(goals) => push_all_free(alloc, outside, list, goals.as_slice()),
        Goal::Ite(vars, condition, then_part, else_part) => {
            push_free_under(alloc, outside, list, condition, vars.as_slice())?;
            push_free_under(alloc, outside, list, then_part, vars.as_slice())?;
            push_free(alloc, outside, list, else_part)
        }
        Goal::Not(goal) => push_free(alloc, outside, list, goal),
        Goal::Some(vars, goal) => push_free_under(alloc, outside, list, goal, vars.as_slice()),
        Goal::Equal(left, right) => {
            let mut variables = Vec::new(alloc);
            push_variables(&mut variables, left)?;
            push_variables(&mut variables, right)?;
            outside.push_absent(list, variables.as_slice())
        }
        Goal::Call(_, args) => {
            let mut variables = Vec::new(alloc);
            push_all_variables(&mut variables, args.as_slice())?;
            outside.push_absent(list, variables.as_slice())
        }
    }
}

/// The same of a goal over which variables are quantified.
#[cycle(free)]
#[tactic(auto, using(crate::proofs::OutsideCounts::less_more))]
fn push_free_under(
    alloc: Global,
    outside: &mut Outside,
    list: &mut Vec<u32>,
    goal: &Goal,
    vars: &[u32],
) -> Result<(), Memory>
    ensures free { OnOk result (list.new.items
        ≡ list.old.items ++ free_by (more (count outside.old) vars.now) (plain_goal goal.now)) }
    ensures kept { OnOk result (count outside.new ≡ count outside.old) }
{
    outside.add_all(vars)?;
    push_free(alloc, outside, list, goal)?;
    outside.remove_all(vars);
    Ok(())
}

#[cycle(free)]
fn push_all_free(
    alloc: Global,
    outside: &mut Outside,
    list: &mut Vec<u32>,
    goals: &[Goal],
) -> Result<(), Memory>
    ensures free { OnOk result (list.new.items
        ≡ list.old.items ++ free_by_all (count outside.old) (formulas (map plain_goal goals.now))) }
    ensures kept { OnOk result (count outside.new ≡ count outside.old) }
{
    for goal in goals {
        push_free(alloc, outside, list, goal)?;
    }
    Ok(())
}
