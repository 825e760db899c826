ghost use Rattle.std.specs.Prelude.{◌≡◌, nat_eq, IfOk};
ghost use Rattle.std.specs.HashMap.{get};
ghost use Rattle.mc_model.specs.PlainGoals.{plain_node};
ghost use Rattle.mc_accepted.specs.Switched.{openings};
ghost use Rattle.mc_switch.specs.Openings.{plain_openings};
ghost use Rattle.mc_switch.specs.code.Labels.{AreFirst, KeepsFirst, is_opened_by};

use crate::opening::{Opening, OpeningLabel, openings};
use mc_base::{Memory, Row};
use mc_model::sched::GoalNode;
use std::alloc::Global;
use std::collections::HashMap;

/// A disjunct with what it deconstructs, whether the point after it is unreachable, and each variable's first label. A
/// look-up takes the time of one hash.
#[derive(Drop)]
pub struct Opened<'a> {
    pub opens: Row<Opening<'a>>,
    pub goal: GoalNode,
    pub never_ends: bool,
    labels: HashMap<u32, OpeningLabel<'a>>,
}

impl<'a> Opened<'a> {
    /// A disjunct, and what its source deconstructs.
    pub fn of(
        alloc: Global,
        source: &'a GoalNode,
        goal: GoalNode,
        never_ends: bool,
    ) -> Result<Opened<'a>, Memory>
        ensures opens { IfOk result (λ o. plain_openings o.opens ≡ openings (plain_node source.now)) }
        ensures goal { IfOk result (λ o. o.goal ≡ goal) }
        ensures never { IfOk result (λ o. o.never_ends ≡ never_ends) }
        ensures first { IfOk result (λ o. KeepsFirst o) }
    {
        let opens = openings(alloc, source)?;
        let labels = first_labels(alloc, opens.as_slice())?;
        Ok(Opened {
            opens,
            goal,
            never_ends,
            labels,
        })
    }

    /// The first label with which a variable is deconstructed.
    pub fn label(&self, x: u32) -> Option<OpeningLabel<'a>>
        ensures { result ≡ get nat_eq self.now.labels x }
    {
        self.labels.get(&x).copied()
    }

    /// Whether a variable is deconstructed.
    pub fn takes(&self, x: u32) -> bool
        requires { AreFirst self.now.labels self.now.opens }
        ensures { result ≡ is_opened_by x self.now }
    {
        self.label(x).is_some()
    }

    /// The disjunct alone.
    pub fn into_goal(self) -> GoalNode
        ensures { result ≡ self.entry.goal }
    {
        let Opened {
            opens: _,
            goal,
            never_ends: _,
            labels: _,
        } = self;
        goal
    }
}

/// The first label of each variable.
fn first_labels<'a>(
    alloc: Global,
    opens: &[Opening<'a>],
) -> Result<HashMap<u32, OpeningLabel<'a>>, Memory>
    ensures { IfOk result (λ labels. AreFirst labels opens.now) }
{
    let mut labels = HashMap::new(alloc);
    let mut n = opens.len();
    while n > 0 {
        n -= 1;
        let opening = opens[n];
        labels.insert(opening.variable, opening.label)?;
    }
    Ok(labels)
}
