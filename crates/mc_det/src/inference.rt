ghost use Rattle.std.specs.Prelude.{◌≡◌, ◌<◌, ◌^◌, ℕ, length, map, get_or, IfOk};
ghost use Rattle.mc_model.specs.PlainGoals.{plain_proc};
ghost use Rattle.mc_model.specs.declared.sched.Proc.{Proc};
ghost use Rattle.mc_procs.specs.Fitting.{ProcedureFits};
ghost use Rattle.mc_procs.specs.Procedures.{procedure_at};
ghost use Rattle.mc_det_constraints.specs.Least.{body_at};
ghost use Rattle.mc_det.specs.ConstraintLaws.{constraint_of};
ghost use Rattle.mc_det.specs.Determinisms.{AreDeterminisms};
ghost use Rattle.mc_det.specs.code.Walks.{InSystems};

use crate::point::Point;
use crate::walk::Walk;
use mc_base::{Memory, Row};
use mc_det_constraints::{Step, least};
use mc_model::sched::Proc;
use mc_procs::Procs;
use mc_source::det::Det;
use std::alloc::Global;

/// The determinisms of procedures, by their numbers: declared ones as they are declared, the others the least that their
/// bodies allow. (Manual: Determinism, inference.)
pub fn determinisms(alloc: Global, procs: &Procs) -> Result<Vec<Det>, Memory>
    ensures count { IfOk result (λ ds. length ds.items ≡ length procs.now.added) }
    ensures least { IfOk result (λ ds. AreDeterminisms procs.now ds.items) }
{
    procs.fit();
    let bodies = constraints(alloc, procs)?;
    let declared = declared(alloc, procs)?;
    least(alloc, bodies.as_slice(), declared.as_slice())
}

/// The skeleton of each procedure's body.
fn constraints(alloc: Global, procs: &Procs) -> Result<Vec<Row<Step>>, Memory>
    ensures count { IfOk result (λ bodies. length bodies.items ≡ length procs.now.added) }
    ensures few { IfOk result (λ bodies. length bodies.items < 2 ^ 32) }
    ensures bodies { IfOk result (λ bodies. InSystems procs.now (λ S. (k : ℕ) → k < length procs.now.added
        → body_at bodies.items k ≡ constraint_of S (procedure_at procs.now.added k))) }
{
    procs.fit();
    let mut bodies = Vec::new(alloc);
    for k in 0..procs.count() {
        bodies.push(constraint_of(alloc, procs, procs.get(k))?)?;
    }
    Ok(bodies)
}

/// The skeleton of a procedure's body.
fn constraint_of(alloc: Global, procs: &Procs, p: &Proc) -> Result<Row<Step>, Memory>
    requires { ProcedureFits procs.now (plain_proc p.now) }
    ensures { IfOk result (λ steps. InSystems procs.now (λ S. steps ≡ constraint_of S (plain_proc p.now))) }
{
    procs.fit();
    let variables = p.var_types.len();
    let mut walk = Walk {
        point: Point::entered(alloc, variables, p.head.as_slice(), p.first.as_slice())?,
        known: Vec::new(alloc),
        steps: Vec::new(alloc),
        found: Vec::new(alloc),
    };
    walk.goal(alloc, &p.body, procs, p.var_types.as_slice())?;
    Row::of(walk.steps)
}

/// What is declared of each procedure.
fn declared(alloc: Global, procs: &Procs) -> Result<Vec<Option<Det>>, Memory>
    ensures { IfOk result (λ ds. ds.items ≡ map (λ (p : Proc). p.declared) procs.now.added) }
{
    let mut declared = Vec::new(alloc);
    for k in 0..procs.count() {
        declared.push(procs.get(k).declared)?;
    }
    Ok(declared)
}
