ghost use Rattle.std.specs.Prelude.{◌≡◌, ◌++◌, ◌∷◌, ◌<◌, [], length, slice_index_or, false, IfOk, OnOk, MatchOption};
ghost use Rattle.mc_source.specs.Determinism.{inferred, det};
ghost use Rattle.mc_model.specs.Scheduled.{node, Conj, no_nodes};
ghost use Rattle.mc_model.specs.PlainGoals.{plain_node, plain_proc};
ghost use Rattle.mc_procs.specs.Fitting.{ProcedureFits};
ghost use Rattle.mc_procs.specs.Procedures.{with_procs};
ghost use Rattle.mc_det.specs.Determinisms.{AreDeterminisms};
ghost use Rattle.mc_det.specs.MarkedProcedures.{IsMarked, Inferred, MarksHold, determinisms_of};
ghost use Rattle.mc_det.specs.Marked.{marked_body};
ghost use Rattle.mc_det_constraints.specs.Least.{assigned};
ghost use Rattle.mc_det.specs.code.Marks.{under, AllStand};
ghost use Rattle.mc_det.specs.code.Places.{IsPlaced, HasNoGoals};
ghost use Rattle.mc_det.specs.code.Walks.{InSystems};

use crate::inference::determinisms;
use crate::keeping::kept;
use crate::mark::assigned;
use crate::point::Point;
use crate::walk::{DET, Walk};
use mc_base::{Copied, Memory, Row};
use mc_model::inst::InstId;
use mc_model::sched::{GoalNode, Proc, Sched};
use mc_procs::Procs;
use mc_program::ty::{Ty, copy_type};
use mc_source::det::Det;
use std::alloc::Global;

/// Infers the determinisms of procedures: declared ones are as they are declared, the others the least that their bodies
/// allow. Each goal of a body gets the determinism that the table gives it then. On a refusal, want of memory, the
/// procedures are dropped. (Manual: Determinism, inference.)
pub fn infer(alloc: Global, procs: Procs) -> Result<Procs, Memory>
    ensures inferred { IfOk result (Inferred procs) }
    ensures marks { IfOk result MarksHold }
    ensures least { IfOk result (λ made. AreDeterminisms made (determinisms_of made)) }
{
    let mut made = procs;
    let told = infer_all(alloc, &mut made);
    let ((), made) = kept(told, made)?;
    Ok(made)
}

/// Infers the determinisms of procedures that are lent.
fn infer_all(alloc: Global, procs: &mut Procs) -> Result<(), Memory>
    ensures inferred { OnOk result (Inferred procs.old procs.new) }
    ensures marks { OnOk result (MarksHold procs.new) }
    ensures least { OnOk result (AreDeterminisms procs.new (determinisms_of procs.new)) }
{
    let dets = determinisms(alloc, procs)?;
    for k in 0..procs.count() {
        mark_proc(alloc, procs, k, dets.as_slice())?;
    }
    Ok(())
}

/// Gives a procedure its determinism, and the goals of its body theirs.
fn mark_proc(alloc: Global, procs: &mut Procs, k: u32, dets: &[Det]) -> Result<(), Memory>
    requires { k < length procs.old.added }
    ensures { OnOk result (IsPlaced (λ before after. IsMarked procs.old dets.now before after
        × (after.det ≡ assigned dets.now k)) procs.old k procs.new) }
{
    procs.fit();
    let taken = taken_out(alloc, procs, k)?;
    let mut p = marked(alloc, procs, taken, dets)?;
    p.det = assigned(dets, k);
    drop(procs.replace(k, p));
    Ok(())
}

/// A procedure with its body marked.
fn marked(alloc: Global, procs: &Procs, mut p: Proc, dets: &[Det]) -> Result<Proc, Memory>
    requires { ProcedureFits procs.now (plain_proc p) }
    ensures others { IfOk result (λ made. made ≡ record p { body = made.body }) }
    ensures body { IfOk result (λ made. InSystems procs.now
        (λ S. plain_node made.body ≡ marked_body (under dets.now S) (plain_proc p))) }
{
    let told = mark_body(alloc, procs, &mut p, dets);
    let ((), p) = kept(told, p)?;
    Ok(p)
}

/// Takes a procedure out; one without goals stands in its place.
pub(crate) fn taken_out(alloc: Global, procs: &mut Procs, k: u32) -> Result<Proc, Memory>
    requires { k < length procs.old.added }
    ensures taken { IfOk result (λ p. p ≡ slice_index_or procs.old.added k p) }
    ensures left { OnOk result (IsPlaced HasNoGoals procs.old k procs.new) }
{
    procs.fit();
    let stand_in = without_goals(alloc, procs.get(k))?;
    Ok(procs.replace(k, stand_in))
}

/// A copy of a procedure, without the goals of its body.
fn without_goals(alloc: Global, p: &Proc) -> Result<Proc, Memory>
    ensures { IfOk result (HasNoGoals p.now) }
{
    with_body(alloc, p, no_goals(alloc), p.det)
}

/// The conjunction of no goals.
fn no_goals(alloc: Global) -> GoalNode
    ensures { plain_node result ≡ node (Conj no_nodes) [] (inferred det) false }
{
    GoalNode {
        goal: Sched::Conj(Row::new(alloc)),
        changes: Row::new(alloc),
        det: DET,
        pruned: false,
    }
}

/// Marks the body of a procedure.
fn mark_body(alloc: Global, procs: &Procs, p: &mut Proc, dets: &[Det]) -> Result<(), Memory>
    requires { ProcedureFits procs.now (plain_proc p.old) }
    ensures others { OnOk result (p.new ≡ record p.old { body = p.new.body }) }
    ensures body { OnOk result (InSystems procs.now
        (λ S. plain_node p.new.body ≡ marked_body (under dets.now S) (plain_proc p.old))) }
{
    procs.fit();
    let variables = p.var_types.len();
    let mut walk = Walk {
        point: Point::entered(alloc, variables, p.head.as_slice(), p.first.as_slice())?,
        known: Vec::new(alloc),
        steps: Vec::new(alloc),
        found: Vec::new(alloc),
    };
    walk.mark(alloc, &mut p.body, dets, procs, p.var_types.as_slice())
}

/// A copy of a procedure with another body and another determinism.
pub fn with_body(alloc: Global, p: &Proc, body: GoalNode, det: Det) -> Result<Proc, Memory>
    ensures { IfOk result (λ copy. copy ≡ record p.now { body = body; det = det }) }
{
    let columns = columns_of(alloc, p);
    let (columns, body) = kept(columns, body)?;
    Ok(of_columns(p, columns, body, det))
}

/// The rows of a procedure.
#[derive(Drop)]
struct Columns {
    head: Row<u32>,
    var_types: Row<Ty>,
    first: Row<InstId>,
    last: Row<InstId>,
}

/// Copies of the rows of a procedure.
fn columns_of(alloc: Global, p: &Proc) -> Result<Columns, Memory>
    ensures head { IfOk result (λ copy. copy.head ≡ p.now.head) }
    ensures types { IfOk result (λ copy. copy.var_types ≡ p.now.var_types) }
    ensures first { IfOk result (λ copy. copy.first ≡ p.now.first) }
    ensures last { IfOk result (λ copy. copy.last ≡ p.now.last) }
{
    let head = p.head.copied(alloc)?;
    let var_types = copy_types(alloc, &p.var_types)?;
    let first = p.first.copied(alloc)?;
    let last = p.last.copied(alloc)?;
    Ok(Columns {
        head,
        var_types,
        first,
        last,
    })
}

/// A procedure as another one but for these rows, its body and its determinism.
fn of_columns(p: &Proc, columns: Columns, body: GoalNode, det: Det) -> Proc
    ensures { result ≡ record p.now {
      head = columns.head;
      var_types = columns.var_types;
      first = columns.first;
      last = columns.last;
      body = body;
      det = det;
    } }
{
    Proc {
        pred: p.pred,
        mode: p.mode,
        head: columns.head,
        var_types: columns.var_types,
        first: columns.first,
        last: columns.last,
        body,
        declared: p.declared,
        det,
        exported: p.exported,
        at: p.at,
    }
}

/// A copy of types.
fn copy_types(alloc: Global, types: &Row<Ty>) -> Result<Row<Ty>, Memory>
    ensures { IfOk result (λ copy. copy ≡ types.now) }
{
    let mut copy = Vec::new(alloc);
    for ty in types.as_slice() {
        copy.push(copy_type(alloc, ty)?)?;
    }
    Row::of(copy)
}

/// Puts procedures in the places of all, the last one first.
pub fn replace_all(procs: &mut Procs, marked: Vec<Proc>)
    requires count { length marked.items ≡ length procs.old.added }
    requires stand { AllStand procs.old marked.items }
    ensures { procs.new ≡ with_procs procs.old marked.items }
{
    let mut left = marked;
    let mut k = procs.count();
    while let Some(p) = last_of(&mut left) {
        k -= 1;
        procs.replace(k, p);
    }
}

/// Takes the last procedure off.
fn last_of(procs: &mut Vec<Proc>) -> Option<Proc>
    ensures { MatchOption result (procs.old.items ≡ []) (λ last. procs.old.items ≡ procs.new.items
        ++ last ∷ []) }
{
    procs.pop()
}
