ghost use Rattle.std.specs.Prelude.{◌≡◌, ◌<◌, ◌≤◌, ◌^◌, ◌-◌, length, IfOk, IfNone, IfSome};
ghost use Rattle.mc_terms.specs.Lines.{line_at};
ghost use Rattle.mc_terms.specs.Answers.{IsOver, IsRefused, IsOnward, StandsAt};
ghost use Rattle.mc_items.specs.Files.{IsItem, IsUnread};
ghost use Rattle.mc_items.specs.code.VerdictViews.{plain_verdict};

use crate::judged::{Verdict, classify};
use crate::messages::fault_rule;
use mc_base::Memory;
use mc_terms::{ItemFault, Position, read_next};
use mc_tokens::Walk;
use std::alloc::Global;

// An item: what it is, its line, and the position behind its end.
#[derive(Drop)]
pub struct Next {
    pub verdict: Verdict,
    pub line: u32,
    pub end: Position,
}

// The item from a position on, that isn't read.
fn refused(alloc: Global, walk: &mut Walk, from: Position, fault: ItemFault) -> Result<Next, Memory>
    requires line { from.line ≡ line_at walk.old from.at }
    requires small { length walk.old < 2 ^ 32 - 1 }
    requires refused { IsRefused walk.old from.at fault.fault.kind fault.fault.line fault.fault.next }
    requires stands { StandsAt walk.old from.at fault.fault.kind fault.at }
    requires onward { IsOnward walk.old from.at fault.fault.kind fault.fault.next }
    ensures item { IfOk result (λ n. IsUnread walk.old from.at (plain_verdict n.verdict) n.line n.end.at) }
    ensures place { IfOk result
        (λ n.
        (n.end.line ≡ line_at walk.old n.end.at)
        × (from.at < n.end.at)
        × (n.end.at ≤ length walk.old)) }
    ensures same { walk.new ≡ walk.old }
{
    let (rule, what) = fault_rule(alloc, walk.text(), fault)?;
    let fault = fault.fault;
    Ok(Next {
        verdict: Verdict::Breaks(rule, what),
        line: fault.line,
        end: from.moved(walk.text(), fault.next),
    })
}

// The item from a position on; None where only blanks and comments are left.
pub fn next_item(alloc: Global, walk: &mut Walk, from: Position) -> Result<Option<Next>, Memory>
    requires within { from.at ≤ length walk.old }
    requires line { from.line ≡ line_at walk.old from.at }
    requires small { length walk.old < 2 ^ 32 - 1 }
    ensures over { IfOk result (λ answer. IfNone answer (IsOver walk.old from.at)) }
    ensures item { IfOk result
        (λ answer.
        IfSome answer (λ n. IsItem walk.old from.at (plain_verdict n.verdict) n.line n.end.at)) }
    ensures place { IfOk result
        (λ answer.
        IfSome answer
        (λ n.
        (n.end.line ≡ line_at walk.old n.end.at)
        × (from.at < n.end.at)
        × (n.end.at ≤ length walk.old))) }
    ensures same { walk.new ≡ walk.old }
{
    match read_next(alloc, walk, from) {
        Ok(None) => Ok(None),
        Ok(Some(item)) => Ok(Some(Next {
            verdict: classify(alloc, item.term)?,
            line: item.line,
            end: item.end,
        })),
        Err(fault) => Ok(Some(refused(alloc, walk, from, fault)?)),
    }
}
