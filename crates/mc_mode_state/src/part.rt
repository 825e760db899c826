ghost use Rattle.std.specs.Prelude.{◌≡◌};
ghost use Rattle.mc_model.specs.PlainGoals.{plain_node, plain_sched};
ghost use Rattle.mc_accepted.specs.Unmarked.{unmarked};

use mc_base::Row;
use mc_model::sched::{GoalNode, Sched};
use mc_source::det::{Det, Most};
use std::alloc::Global;

/// What a goal is in its order: goals that run one after the other, whether the point after them is reachable, and a
/// builtin's arguments where fresh variables stand among them.
#[derive(Drop)]
pub struct Part {
    pub goals: Vec<GoalNode>,
    pub reachable: bool,
    pub freshened: Vec<u32>,
}

/// A goal that changes no inst, without what is told of it later.
pub fn unmarked(alloc: Global, goal: Sched) -> GoalNode
    ensures { plain_node result ≡ unmarked (plain_sched goal) }
{
    GoalNode {
        goal,
        changes: Row::new(alloc),
        det: Det {
            can_fail: false,
            most: Most::One,
            committed: false,
        },
        pruned: false,
    }
}
