ghost use Rattle.std.specs.Prelude.{◌≡◌, IfOk};
ghost use Rattle.mc_model.specs.PlainGoals.{plain_sched};
ghost use Rattle.mc_model.specs.Scheduled.{Disj, nodes};
ghost use Rattle.mc_switch.specs.code.Grouping.{nodes_of};

use mc_base::{Memory, Row};
use mc_model::sched::{GoalNode, Sched};
use std::alloc::Global;

/// A goal in switch form, and whether the point after it is unreachable.
#[derive(Drop)]
pub struct Formed {
    pub node: GoalNode,
    pub never_ends: bool,
}

/// The disjunction of these goals, as they are.
pub fn disjunction_of(alloc: Global, goals: Vec<Formed>) -> Result<Sched, Memory>
    ensures { IfOk result (λ s. plain_sched s ≡ Disj (nodes (nodes_of goals.items))) }
{
    let mut nodes = Vec::with_capacity(alloc, goals.len())?;
    for goal in goals {
        let Formed {
            node,
            never_ends: _,
        } = goal;
        nodes.push(node)?;
    }
    let nodes = Row::of(nodes)?;
    Ok(Sched::Disj(nodes))
}
