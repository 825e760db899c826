ghost use Rattle.std.specs.Prelude.{◌≡◌, ◌<◌, ◌∷◌, ℕ, [], length, get_or, slice_index_or, false, IfOk, OnOk, OnErr};
ghost use Rattle.mc_source.specs.Determinism.{inferred, det};
ghost use Rattle.mc_model.specs.Scheduled.{node, Conj, no_nodes};
ghost use Rattle.mc_model.specs.PlainGoals.{plain_node, plain_proc};
ghost use Rattle.mc_model.specs.declared.sched.Proc.{Proc};
ghost use Rattle.mc_procs.specs.Fitting.{ProcedureFits};
ghost use Rattle.mc_switch.specs.Kept.{OnlyGrew};
ghost use Rattle.mc_switch.specs.SwitchedBodies.{IsForm, IsSwitched, Switches};

use crate::forming::SwitchDetection;
use crate::merging::Merger;
use mc_base::{Memory, Row};
use mc_det::{Point, replace_all, with_body};
use mc_model::sched::{GoalNode, Proc, Sched};
use mc_procs::Procs;
use mc_source::det::{Det, Most};
use std::alloc::Global;

/// Gives each procedure the switch form of its body: disjunctions are switches exactly where they have to be, and arms of
/// several disjuncts keep the insts that the ends of these are merged to. Whether a call has an answer is told by what its
/// procedure is declared to be, so all procedures have to be there. The graph of insts may grow. After want of memory, the
/// one refusal, the procedures are as before. (Manual: Determinism, switches.)
pub fn switches(alloc: Global, procs: &mut Procs) -> Result<(), Memory>
    ensures switched { OnOk result (Switches procs.old procs.new) }
    ensures err { OnErr result (OnlyGrew procs.old procs.new) }
{
    let switched = switched_procs(alloc, procs)?;
    procs.fit();
    replace_all(procs, switched);
    Ok(())
}

/// The procedures with their bodies in switch form.
fn switched_procs(alloc: Global, procs: &mut Procs) -> Result<Vec<Proc>, Memory>
    ensures count { IfOk result (λ ps. length ps.items ≡ length procs.old.added) }
    ensures switched { IfOk result (λ ps. (k : ℕ) (d : Proc) → k < length procs.old.added
        → IsSwitched procs.new (get_or procs.old.added k d) (get_or ps.items k d)) }
    ensures grew { OnlyGrew procs.old procs.new }
{
    let mut switched = Vec::new(alloc);
    for k in 0..procs.count() {
        let p = switched_proc(alloc, procs, k)?;
        switched.push(p)?;
    }
    Ok(switched)
}

/// A procedure with its body in switch form. While the graph of insts grows, another one stands in its place.
fn switched_proc(alloc: Global, procs: &mut Procs, k: u32) -> Result<Proc, Memory>
    requires there { k < length procs.old.added }
    ensures switched { IfOk result (λ p. IsSwitched procs.new (slice_index_or procs.old.added k p) p) }
    ensures grew { OnlyGrew procs.old procs.new }
{
    procs.fit();
    let stand_in = without_goals(alloc, procs.get(k))?;
    let p = procs.replace(k, stand_in);
    let body = formed_body(alloc, procs, &p);
    procs.fit();
    procs.replace(k, p);
    let body = body?;
    let p = procs.get(k);
    with_body(alloc, p, body, p.det)
}

/// A copy of a procedure, without the goals of its body.
fn without_goals(alloc: Global, p: &Proc) -> Result<Proc, Memory>
    ensures others { IfOk result (λ copy. copy ≡ record p.now { body = copy.body }) }
    ensures body { IfOk result (λ copy. plain_node copy.body ≡ node (Conj no_nodes) [] (inferred det) false) }
{
    with_body(alloc, p, no_goals(alloc), p.det)
}

/// The conjunction of no goals.
fn no_goals(alloc: Global) -> GoalNode
    ensures { plain_node result ≡ node (Conj no_nodes) [] (inferred det) false }
{
    GoalNode {
        goal: Sched::Conj(Row::new(alloc)),
        changes: Row::new(alloc),
        det: Det {
            can_fail: false,
            most: Most::One,
            committed: false,
        },
        pruned: false,
    }
}

/// The switch form of a procedure's body.
fn formed_body(alloc: Global, procs: &mut Procs, p: &Proc) -> Result<GoalNode, Memory>
    requires { ProcedureFits procs.old (plain_proc p.now) }
    ensures form { IfOk result (λ body. IsForm procs.new p.now body) }
    ensures grew { OnlyGrew procs.old procs.new }
{
    procs.fit();
    let point = Point::entered(
        alloc,
        p.var_types.len(),
        p.head.as_slice(),
        p.first.as_slice(),
    )?;
    let mut forming = SwitchDetection {
        point,
        merger: Merger::new(alloc),
        found: Vec::new(alloc),
    };
    let part = forming.formed(alloc, &p.body, true, procs, &p.var_types)?;
    Ok(part.node)
}
