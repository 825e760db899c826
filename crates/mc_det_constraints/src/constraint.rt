ghost use Rattle.std.specs.Prelude.{◌≡◌, IfOk, OnOk, OnErr};
ghost use Rattle.mc_source.specs.Determinism.{inferred, row_of};
ghost use Rattle.mc_det_constraints.specs.Skeletons.{after_step, value, may_fail};
ghost use Rattle.mc_det_constraints.specs.Least.{assigned};

use crate::order::{either, most_of};
use crate::stack::Stack;
use mc_base::Memory;
use mc_source::det::{Det, Most};
use std::alloc::Global;

/// A step of a skeleton, over a stack of determinisms.
#[derive(Clone, Copy, Debug, PartialEq, Eq)]
pub enum Step {
    /// A determinism that no procedure has a say in.
    Fixed(Det),
    /// A call of a procedure, and whether tests of implied arguments follow it.
    Call(u32, bool),
    /// The conjunction of the two on top, the first of them below the second.
    Conj,
    /// The disjunction of the two on top.
    Disj,
    /// Two arms of a switch, or an arm and those after it.
    Arms,
    /// A switch that misses a symbol can fail.
    Misses,
    /// The if-then-else of the three on top, the else part topmost.
    Ite,
    Not,
    /// A goal that is pruned to its first answer.
    Pruned,
}

const SEMIDET: Det = Det {
    can_fail: true,
    most: Most::One,
    committed: false,
};

/// The determinism of a procedure; a number past the end is no procedure.
fn assigned(dets: &[Det], k: u32) -> Det
    ensures { result ≡ assigned dets.now k }
{
    let k = k as usize;
    if k < dets.len() {
        dets[k]
    } else {
        Det {
            can_fail: false,
            most: Most::One,
            committed: false,
        }
    }
}

/// That of a goal that may fail besides.
fn may_fail(d: Det) -> Det
    ensures { result ≡ inferred (may_fail (row_of d)) }
{
    Det {
        can_fail: true,
        most: most_of(d),
        committed: false,
    }
}

/// Does one step.
fn do_step(stack: &mut Stack, step: Step, dets: &[Det]) -> Result<(), Memory>
    ensures { OnOk result (stack.new ≡ after_step (assigned dets.now) step stack.old) }
{
    match step {
        Step::Fixed(d) => stack.push(d),
        Step::Call(k, is_tested) => {
            let d = assigned(dets, k);
            stack.push(if is_tested { d.conj(SEMIDET) } else { d })
        }
        Step::Conj => {
            let second = stack.pop();
            let first = stack.pop();
            stack.push(first.conj(second))
        }
        Step::Disj => {
            let second = stack.pop();
            let first = stack.pop();
            stack.push(first.disj(second))
        }
        Step::Arms => {
            let second = stack.pop();
            let first = stack.pop();
            stack.push(either(first, second))
        }
        Step::Misses => {
            let d = stack.pop();
            stack.push(may_fail(d))
        }
        Step::Ite => {
            let otherwise = stack.pop();
            let then = stack.pop();
            let condition = stack.pop();
            stack.push(condition.ite(then, otherwise))
        }
        Step::Not => {
            let d = stack.pop();
            stack.push(d.negated())
        }
        Step::Pruned => {
            let d = stack.pop();
            stack.push(d.pruned())
        }
    }
}

/// The determinism that a skeleton comes to, where the procedures have these.
pub(crate) fn value(alloc: Global, steps: &[Step], dets: &[Det]) -> Result<Det, Memory>
    ensures { IfOk result (λ d. d ≡ inferred (value (assigned dets.now) steps.now)) }
{
    let mut stack = Stack::new(alloc);
    for step in steps {
        do_step(&mut stack, *step, dets)?;
    }
    Ok(stack.pop())
}
