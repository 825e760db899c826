ghost use Rattle.std.specs.Prelude.{◌≡◌, length, Some, IfOk};
ghost use Rattle.mc_accepted.specs.Arranged.{faulty};
ghost use Rattle.mc_mode_state.specs.Answers.{plain_fault};
ghost use Rattle.mc_modes.specs.ModeFaults.{rule_of};
ghost use Rattle.mc_modes.specs.code.Steps.{Tells};

use crate::Refusal;
use crate::texts::{not_met, of_variable, stuck};
use mc_base::{Memory, Text};
use mc_mode_state::ModeFault;
use mc_model::flat::Normal;
use mc_source::rule::Rule;
use std::alloc::Global;

/// The rule that leaves a predicate's goal without an order, with what is told of it.
pub(crate) fn rule_of(
    alloc: Global,
    goal: &Normal,
    refusal: Refusal,
) -> Result<(Rule, Text), Memory>
    ensures { IfOk result (Tells goal.now refusal) }
{
    match refusal {
        Refusal::Fault(fault) => rule_of_fault(alloc, goal, fault),
        Refusal::Unmet(place) => Ok((Rule::M4, not_met(alloc, place)?)),
        Refusal::Memory => Err(Memory),
    }
}

fn rule_of_fault(alloc: Global, goal: &Normal, fault: ModeFault) -> Result<(Rule, Text), Memory>
    ensures { IfOk result (λ told. Some told
        ≡ rule_of (length goal.now.head) goal.now.var_names (faulty (plain_fault fault))) }
{
    match fault {
        ModeFault::Waits(count, _) => Ok((Rule::M1, stuck(alloc, count)?)),
        ModeFault::NegatedBinds(x) => {
            let what = of_variable(alloc, b"a negated goal binds ", goal, x)?;
            Ok((Rule::M2, what))
        }
        ModeFault::BranchesDiffer(x) => {
            let what = of_variable(alloc, b"branches bind differently: ", goal, x)?;
            Ok((Rule::M3, what))
        }
    }
}
