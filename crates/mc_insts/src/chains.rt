ghost use Rattle.std.specs.Prelude.{◌≡◌, ◌<◌, ℕ, true, List, length, IfOk, OnOk};
ghost use Rattle.mc_accepted.specs.InstRules.{PlainInstDef};

use crate::insts::InstId;
use mc_base::{Memory, Row};

/// Where a definition leads by names alone.
#[derive(Clone, Copy, Debug, PartialEq, Eq)]
pub enum Chain {
    /// It is another name of the definition in this place, and where that leads isn't known yet.
    Names(u32),
    /// To a node.
    Node(InstId),
    /// Back to itself.
    Ring,
    /// To no end, and not back to itself.
    Endless,
}

/// What a walk along names comes to first.
#[derive(Clone, Copy)]
enum Meeting {
    /// A definition of which it is known where it leads.
    Known(u32),
    /// A definition that leads back to itself.
    Ring(u32),
}

ghost use Rattle.mc_insts.specs.code.Chains.{is_known, AllThere, Meets, Settles, ChainsAre};

/// Walks along names, in the time of the definitions that it passes. One that was passed is remembered, and after ever
/// longer laps another one (Brent's search for a ring): where the walk comes back to it, it stands on a ring.
fn walk(chains: &Row<Chain>, start: u32) -> Result<Meeting, Memory>
    requires there { start < length chains.now }
    requires all { AllThere chains.now }
    ensures known { IfOk result (λ m. Meets chains.now start m) }
{
    let mut passed = start;
    let mut turn = 1;
    let mut at = start;
    for step in 1..4 * (chains.len() as u64 + 1) {
        match *chains.get(at) {
            Chain::Names(next) => at = next,
            _ => return Ok(Meeting::Known(at)),
        }
        if at == passed {
            return Ok(Meeting::Ring(at));
        }
        if step == turn {
            passed = at;
            turn = 2 * step + 1;
        }
    }
    Err(Memory)
}

/// Says where the definitions that come from this one by names lead, up to the first of which it is known.
fn settle(chains: &mut Row<Chain>, start: u32, lead: Chain) -> Result<(), Memory>
    requires there { start < length chains.old }
    requires all { AllThere chains.old }
    requires settled { is_known lead ≡ true }
    ensures settles { OnOk result (Settles chains.old chains.new start lead) }
{
    let mut at = start;
    for _ in 0..chains.len() as u64 + 1 {
        let Chain::Names(next) = *chains.get(at) else {
            return Ok(());
        };
        chains.set(at, lead);
        at = next;
    }
    Err(Memory)
}

/// Follows a definition's names to where they lead.
fn follow(chains: &mut Row<Chain>, k: u32) -> Result<(), Memory>
    requires there { k < length chains.old }
    requires all { AllThere chains.old }
    ensures all { OnOk result (AllThere chains.new) }
    ensures length { OnOk result (length chains.new ≡ length chains.old) }
    ensures are { OnOk result ((ds : List PlainInstDef) (first : ℕ) → ChainsAre ds first chains.old → ChainsAre ds first chains.new) }
{
    let end = match walk(chains, k)? {
        Meeting::Ring(j) => {
            settle(chains, j, Chain::Ring)?;
            Chain::Endless
        }
        Meeting::Known(j) => match *chains.get(j) {
            Chain::Node(i) => Chain::Node(i),
            _ => Chain::Endless,
        },
    };
    settle(chains, k, end)
}

/// Follows the names of all definitions, in the time of their number.
pub(crate) fn follow_all(chains: &mut Row<Chain>) -> Result<(), Memory>
    requires all { AllThere chains.old }
    ensures length { OnOk result (length chains.new ≡ length chains.old) }
    ensures are { OnOk result ((ds : List PlainInstDef) (first : ℕ) → ChainsAre ds first chains.old → ChainsAre ds first chains.new) }
{
    for k in 0..chains.len() {
        follow(chains, k)?;
    }
    Ok(())
}
