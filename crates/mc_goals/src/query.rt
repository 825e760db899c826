ghost use Rattle.std.specs.Prelude.{◌≡◌, [], map, get_or, IfOk};
ghost use Rattle.mc_program.specs.Programs.{variable};
ghost use Rattle.mc_program.specs.PlainPrograms.{plain_expression, plain_goal, plain_clause};
ghost use Rattle.mc_accepted.specs.Scope as scope;
ghost use Rattle.mc_accepted.specs.Scope.{scoped};
ghost use Rattle.mc_accepted.specs.NormalTypes as query;

use crate::outside::Outside;
use crate::scopes::{own_variables, quantified, scoped_goal};
use mc_base::{Memory, Row, Text};
use mc_program::expr::Expr;
use mc_program::program::{Clause, Goal};
use std::alloc::Global;

/// The clause that a query is: of its goal, as a clause without arguments, and the names of that clause's variables. Its
/// arguments are the free variables whose names don't begin with an underscore, in the order in which they occur first;
/// its scopes are written out with these outside, and the other free ones are quantified around its body.
pub fn query_clause(alloc: Global, goal: &Clause, names: &Row<Text>) -> Result<Clause, Memory>
    ensures clause { IfOk result (λ made. plain_clause made
        ≡ query.query_clause (λ v. get_or names.now v []) (plain_clause goal.now).body) }
    ensures variables { IfOk result (λ made. made.vars ≡ goal.now.vars) }
    ensures place { IfOk result (λ made. made.place ≡ goal.now.place) }
{
    let free = free_variables(alloc, &goal.body)?;
    let asked = asked_of(alloc, names, free.as_slice())?;
    let head = arguments(alloc, asked.as_slice())?;
    let body = query_body(alloc, names, free.as_slice(), asked.as_slice(), &goal.body)?;
    Ok(Clause {
        vars: goal.vars,
        head,
        body,
        place: goal.place,
    })
}

/// A query's goal with its scopes written out, where those that are asked for are outside, and the others of its free
/// variables quantified around it.
fn query_body(
    alloc: Global,
    names: &Row<Text>,
    free: &[u32],
    asked: &[u32],
    goal: &Goal,
) -> Result<Goal, Memory>
    ensures { IfOk result (λ body. plain_goal body
        ≡ scope.quantified (query.unasked_of (λ v. get_or names.now v []) free.now) (scoped asked.now (plain_goal goal.now))) }
{
    let unasked = unasked_of(alloc, names, free)?;
    let body = body_under(alloc, asked, goal)?;
    quantified(alloc, unasked, body)
}

/// The variables that a query's goal doesn't quantify, each once, in the order in which they occur first.
fn free_variables(alloc: Global, goal: &Goal) -> Result<Vec<u32>, Memory>
    ensures { IfOk result (λ free. free.items ≡ query.free_variables (plain_goal goal.now)) }
{
    let mut outside = Outside::nothing(alloc);
    let scoped = scoped_goal(alloc, &mut outside, goal)?;
    let free = own_variables(alloc, &mut outside, &scoped)?;
    Ok(free)
}

/// A goal with its scopes written out, where these variables are outside.
fn body_under(alloc: Global, variables: &[u32], goal: &Goal) -> Result<Goal, Memory>
    ensures { IfOk result (λ body. plain_goal body ≡ scoped variables.now (plain_goal goal.now)) }
{
    let mut outside = Outside::nothing(alloc);
    outside.add_all(variables)?;
    let body = scoped_goal(alloc, &mut outside, goal)?;
    Ok(body)
}

/// Whether nobody asks for the value of a variable.
fn is_unasked(names: &Row<Text>, variable: u32) -> bool
    ensures { result ≡ query.is_unasked (get_or names.now variable []) }
{
    if variable >= names.len() {
        return true;
    }
    match names.get(variable).bytes() {
        [] => true,
        [first, ..] => *first == b'_',
    }
}

/// Those that are asked for.
fn asked_of(alloc: Global, names: &Row<Text>, variables: &[u32]) -> Result<Vec<u32>, Memory>
    ensures { IfOk result (λ asked. asked.items
        ≡ query.asked_of (λ v. get_or names.now v []) variables.now) }
{
    let mut asked = Vec::new(alloc);
    for variable in variables {
        if !is_unasked(names, *variable) {
            asked.push(*variable)?;
        }
    }
    Ok(asked)
}

/// The others.
fn unasked_of(alloc: Global, names: &Row<Text>, variables: &[u32]) -> Result<Vec<u32>, Memory>
    ensures { IfOk result (λ unasked. unasked.items
        ≡ query.unasked_of (λ v. get_or names.now v []) variables.now) }
{
    let mut unasked = Vec::new(alloc);
    for variable in variables {
        if is_unasked(names, *variable) {
            unasked.push(*variable)?;
        }
    }
    Ok(unasked)
}

/// Variables as arguments.
fn arguments(alloc: Global, variables: &[u32]) -> Result<Row<Expr>, Memory>
    ensures { IfOk result (λ terms. map plain_expression terms ≡ map variable variables.now) }
{
    let mut terms = Vec::with_capacity(alloc, variables.len())?;
    for number in variables {
        terms.push(Expr::Var(*number))?;
    }
    Row::of(terms)
}
