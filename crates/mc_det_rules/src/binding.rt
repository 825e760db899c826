ghost use Rattle.std.specs.Prelude.{◌≡◌, ◌∷◌, [], map};
ghost use Rattle.std.specs.List.{list_any};
ghost use Rattle.mc_model.specs.Scheduled.{nodes};
ghost use Rattle.mc_model.specs.PlainGoals.{plain_node, plain_sched, plain_arm, arms_of};
ghost use Rattle.mc_accepted.specs.Ordered.{change_at, variables_of_node, variables_of_scheduled, variables_of_nodes, variables_of_arms};
ghost use Rattle.mc_det_rules.specs.code.Calls.{binds};

use crate::io::either;
use mc_det::Point;
use mc_model::inst::InstId;
use mc_model::sched::{Arm, GoalNode, Sched};

/// The inst that changes leave a variable which has that one before them. Of a variable that stands twice among them the
/// first place counts.
fn changed(changes: &[(u32, InstId)], x: u32, before: InstId) -> InstId
    ensures { result ≡ change_at x changes.now before }
{
    for change in changes {
        if change.0 == x {
            return change.1;
        }
    }
    before
}

/// Whether a variable that is free at the point is bound after these changes.
fn binds(point: &Point, changes: &[(u32, InstId)], x: u32) -> bool
    ensures { result ≡ binds point.now changes.now x }
{
    let before = point.get(x);
    before == 0 && changed(changes, x, before) != 0
}

/// The same of one of these variables.
fn binds_some(point: &Point, changes: &[(u32, InstId)], variables: &[u32]) -> bool
    ensures { result ≡ list_any (binds point.now changes.now) variables.now }
{
    for x in variables {
        if binds(point, changes, *x) {
            return true;
        }
    }
    false
}

/// The same of one of two variables.
fn binds_either(point: &Point, changes: &[(u32, InstId)], x: u32, y: u32) -> bool
    ensures { result ≡ list_any (binds point.now changes.now) (x ∷ y ∷ []) }
{
    let first = binds(point, changes, x);
    let second = binds(point, changes, y);
    either(first, second)
}

/// The same of one variable, or of one of others.
fn binds_made(point: &Point, changes: &[(u32, InstId)], x: u32, others: &[u32]) -> bool
    ensures { result ≡ list_any (binds point.now changes.now) (x ∷ others.now) }
{
    let first = binds(point, changes, x);
    let second = binds_some(point, changes, others);
    either(first, second)
}

/// The same of one of a goal's variables.
#[cycle(binding)]
pub(crate) fn binds_in(point: &Point, changes: &[(u32, InstId)], goal: &GoalNode) -> bool
    ensures { result
        ≡ list_any (binds point.now changes.now) (variables_of_node (plain_node goal.now)) }
{
    binds_in_part(point, changes, &goal.goal)
}

#[cycle(binding)]
fn binds_in_part(point: &Point, changes: &[(u32, InstId)], goal: &Sched) -> bool
    ensures { result
        ≡ list_any (binds point.now changes.now) (variables_of_scheduled (plain_sched goal.now)) }
{
    match goal {
        Sched::Conj(goals) => binds_in_one(point, changes, goals.as_slice()),
        Sched::Disj(goals) => binds_in_one(point, changes, goals.as_slice()),
        Sched::Switch(x, arms) => {
            let first = binds(point, changes, *x);
            let second = binds_in_arms(point, changes, arms.as_slice());
            either(first, second)
        }
        Sched::Ite(vars, condition, then_part, else_part) => {
            let first = binds_some(point, changes, vars.as_slice());
            let second = binds_in(point, changes, condition);
            let third = binds_in(point, changes, then_part);
            let fourth = binds_in(point, changes, else_part);
            either(first, either(second, either(third, fourth)))
        }
        Sched::Not(inner) => binds_in(point, changes, inner),
        Sched::Some(vars, inner) => {
            let first = binds_some(point, changes, vars.as_slice());
            let second = binds_in(point, changes, inner);
            either(first, second)
        }
        Sched::Assign(x, y) => binds_either(point, changes, *x, *y),
        Sched::Test(x, y) => binds_either(point, changes, *x, *y),
        Sched::Build(x, _, ys) => binds_made(point, changes, *x, ys.as_slice()),
        Sched::Take(x, _, ys) => binds_made(point, changes, *x, ys.as_slice()),
        Sched::Const(x, _) => binds(point, changes, *x),
        Sched::TestConst(x, _) => binds(point, changes, *x),
        Sched::Call(_, xs, _) => binds_some(point, changes, xs.as_slice()),
        Sched::Apply(_, xs, ys) => {
            let first = binds_some(point, changes, xs.as_slice());
            let second = binds_some(point, changes, ys.as_slice());
            either(first, second)
        }
    }
}

#[cycle(binding)]
fn binds_in_one(point: &Point, changes: &[(u32, InstId)], goals: &[GoalNode]) -> bool
    ensures { result ≡ list_any (binds point.now changes.now)
        (variables_of_nodes (nodes (map plain_node goals.now))) }
{
    let mut found = false;
    let mut n = goals.len();
    while n > 0 {
        n -= 1;
        let part = binds_in(point, changes, &goals[n]);
        found = either(part, found);
    }
    found
}

#[cycle(binding)]
fn binds_in_arms(point: &Point, changes: &[(u32, InstId)], arms: &[Arm]) -> bool
    ensures { result ≡ list_any (binds point.now changes.now)
        (variables_of_arms (arms_of (map plain_arm arms.now))) }
{
    let mut found = false;
    let mut n = arms.len();
    while n > 0 {
        n -= 1;
        let part = binds_in(point, changes, &arms[n].body);
        found = either(part, found);
    }
    found
}
