ghost use Rattle.std.specs.Prelude.{◌≡◌, ◌<◌, length, IfOk, OnOk};
ghost use Rattle.mc_model.specs.PlainGoals.{plain_node, plain_proc};
ghost use Rattle.mc_procs.specs.Fitting.{ProcedureFits};
ghost use Rattle.mc_det.specs.Pruned.{pruned_body};
ghost use Rattle.mc_det.specs.PrunedProcedures.{IsPruned, Pruned};
ghost use Rattle.mc_det.specs.code.Places.{IsPlaced};
ghost use Rattle.mc_det.specs.code.Prunes.{InDeclared};

use crate::keeping::kept;
use crate::outside::Outside;
use crate::point::Point;
use crate::procedures::taken_out;
use crate::prune::Pruning;
use mc_base::Memory;
use mc_model::sched::Proc;
use mc_procs::Procs;
use std::alloc::Global;

/// Prunes the goals of procedures' bodies: a goal is pruned where it binds nothing outside it and the point after it can
/// be reached, and no other one. On a refusal, want of memory, the procedures are dropped. (Manual: Determinism, pruning of
/// goals without outputs.)
pub fn prune_goals(alloc: Global, procs: Procs) -> Result<Procs, Memory>
    ensures { IfOk result (Pruned procs) }
{
    let mut made = procs;
    let told = prune_all(alloc, &mut made);
    let ((), made) = kept(told, made)?;
    Ok(made)
}

/// Prunes the goals of procedures that are lent.
fn prune_all(alloc: Global, procs: &mut Procs) -> Result<(), Memory>
    ensures { OnOk result (Pruned procs.old procs.new) }
{
    for k in 0..procs.count() {
        prune_proc(alloc, procs, k)?;
    }
    Ok(())
}

/// Prunes the goals of a procedure's body.
fn prune_proc(alloc: Global, procs: &mut Procs, k: u32) -> Result<(), Memory>
    requires { k < length procs.old.added }
    ensures { OnOk result (IsPlaced (IsPruned procs.old) procs.old k procs.new) }
{
    procs.fit();
    let taken = taken_out(alloc, procs, k)?;
    let p = pruned(alloc, procs, taken)?;
    drop(procs.replace(k, p));
    Ok(())
}

/// A procedure with the goals of its body pruned.
fn pruned(alloc: Global, procs: &Procs, mut p: Proc) -> Result<Proc, Memory>
    requires { ProcedureFits procs.now (plain_proc p) }
    ensures others { IfOk result (λ made. made ≡ record p { body = made.body }) }
    ensures body { IfOk result (λ made. InDeclared procs.now
        (λ S. plain_node made.body ≡ pruned_body S (plain_proc p))) }
{
    let told = prune_body(alloc, procs, &mut p);
    let ((), p) = kept(told, p)?;
    Ok(p)
}

/// Prunes the goals of a body; the variables of the procedure's head occur outside.
fn prune_body(alloc: Global, procs: &Procs, p: &mut Proc) -> Result<(), Memory>
    requires { ProcedureFits procs.now (plain_proc p.old) }
    ensures others { OnOk result (p.new ≡ record p.old { body = p.new.body }) }
    ensures body { OnOk result (InDeclared procs.now
        (λ S. plain_node p.new.body ≡ pruned_body S (plain_proc p.old))) }
{
    procs.fit();
    let variables = p.var_types.len();
    let mut pruning = Pruning {
        point: Point::entered(alloc, variables, p.head.as_slice(), p.first.as_slice())?,
        outside: Outside::none(alloc, variables)?,
        found: Vec::new(alloc),
        all: Vec::new(alloc),
        own: Vec::new(alloc),
    };
    pruning.outside.enter(p.head.as_slice())?;
    pruning.prune(alloc, &mut p.body, procs, p.var_types.as_slice())?;
    Ok(())
}
