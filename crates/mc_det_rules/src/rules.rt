ghost use Rattle.std.specs.Prelude.{◌≡◌, ◌<◌, ◌++◌, ℕ, List, length, codes, Some, IfOk};
ghost use Rattle.mc_source.specs.Determinism.{row_of, rank};
ghost use Rattle.mc_accepted.specs.DeterminismFaults.{allows, not_allowed, undeclared, shown, shown_procedure, misplaced_call, call_fault, io_fault};
ghost use Rattle.mc_accepted.specs.Inferred.{body_determinism};
ghost use Rattle.mc_procs.specs.Procedures.{as_system, procedure_at, source_of};
ghost use Rattle.mc_program.specs.Values.{Val};
ghost use Rattle.mc_program.specs.declared.builtin.Builtin.{Builtin};
ghost use Rattle.mc_model.specs.Outcomes.{Outcome};
ghost use Rattle.mc_det.specs.Determinisms.{declared_procedure};
ghost use Rattle.mc_det.specs.MarkedProcedures.{MarksHold};

use crate::calls::misplaced_call;
use crate::io::io;
use crate::texts::{both_named, most_of, of_name, of_no_name};
use mc_base::{Memory, Text};
use mc_procs::Procs;
use mc_source::det::{Det, Most};
use mc_source::rule::Rule;
use std::alloc::Global;

/// An io goal of a procedure that stands where it must not. The marks of its body tell.
pub fn io_fault(alloc: Global, procs: &Procs, k: u32) -> Result<Option<(Rule, Text)>, Memory>
    requires there { k < length procs.now.added }
    requires marks { MarksHold procs.now }
    ensures { IfOk result (λ fault. (outcome : Builtin → List Val → Outcome)
        → fault ≡ io_fault (as_system outcome procs.now) (procedure_at procs.now.added k)) }
{
    let p = procs.get(k);
    if io(procs, &p.body, p.det.committed).is_misplaced {
        let what = Text::new(alloc, b"io goal is misplaced")?;
        return Ok(Some((Rule::U1, what)));
    }
    Ok(None)
}

/// A committed call of a procedure's body that stands where all solutions are needed, the first one in the order of goals.
/// The marks of the body tell.
pub fn call_fault(alloc: Global, procs: &Procs, k: u32) -> Result<Option<(Rule, Text)>, Memory>
    requires there { k < length procs.now.added }
    requires marks { MarksHold procs.now }
    ensures { IfOk result (λ fault. (outcome : Builtin → List Val → Outcome)
        → fault ≡ call_fault (as_system outcome procs.now)
        (misplaced_call (as_system outcome procs.now) (procedure_at procs.now.added k))) }
{
    procs.fit();
    let found = misplaced_call(alloc, procs, procs.get(k))?;
    call_fault_of(alloc, procs, found)
}

/// What is said of a misplaced call of a procedure.
fn call_fault_of(
    alloc: Global,
    procs: &Procs,
    found: Option<u32>,
) -> Result<Option<(Rule, Text)>, Memory>
    ensures { IfOk result (λ fault. (outcome : Builtin → List Val → Outcome)
        → fault ≡ call_fault (as_system outcome procs.now) found) }
{
    match found {
        Some(k) => Ok(Some((Rule::E3, called(alloc, procs, k)?))),
        None => Ok(None),
    }
}

/// The text of a misplaced call of a procedure.
fn called(alloc: Global, procs: &Procs, k: u32) -> Result<Text, Memory>
    ensures { IfOk result (λ text. text
        ≡ shown ((source_of procs.now).preds (procedure_at procs.now.added k).pred).name
        ++ codes " is called where all solutions are needed") }
{
    let words = b" is called where all solutions are needed";
    of_predicate(alloc, procs, pred_of(procs, k), words)
}

/// The predicate of a procedure; a number past the end is no procedure, of the first one.
fn pred_of(procs: &Procs, k: u32) -> u32
    ensures { result ≡ (procedure_at procs.now.added k).pred }
{
    if k < procs.count() {
        procs.get(k).pred
    } else {
        0
    }
}

/// A body whose determinism its declaration doesn't allow. The mark of the body tells.
pub fn declaration_fault(
    alloc: Global,
    procs: &Procs,
    k: u32,
) -> Result<Option<(Rule, Text)>, Memory>
    requires there { k < length procs.now.added }
    requires marks { MarksHold procs.now }
    ensures { IfOk result (λ fault. (outcome : Builtin → List Val → Outcome)
        → fault ≡ not_allowed (declared_procedure procs.now.added k).declared
        (body_determinism (as_system outcome procs.now) (procedure_at procs.now.added k))) }
{
    let p = procs.get(k);
    let fault = not_allowed(alloc, p.declared, p.body.det)?;
    Ok(fault)
}

/// An exported procedure that declares no determinism.
pub fn undeclared_fault(
    alloc: Global,
    procs: &Procs,
    k: u32,
) -> Result<Option<(Rule, Text)>, Memory>
    requires { k < length procs.now.added }
    ensures { IfOk result (λ fault. (outcome : Builtin → List Val → Outcome)
        → fault ≡ undeclared (declared_procedure procs.now.added k).exported
        (declared_procedure procs.now.added k).declared
        (shown_procedure (as_system outcome procs.now) (procedure_at procs.now.added k))) }
{
    let p = procs.get(k);
    let name = of_predicate(alloc, procs, p.pred, b" has no determinism")?;
    let fault = undeclared(p.exported, p.declared, name);
    Ok(fault)
}

fn undeclared(exported: bool, declared: Option<Det>, what: Text) -> Option<(Rule, Text)>
    ensures { (name : List ℕ) → what ≡ name ++ codes " has no determinism"
        → result ≡ undeclared exported declared name }
{
    if !exported {
        return None;
    }
    match declared {
        Some(_) => None,
        None => Some((Rule::E2, what)),
    }
}

/// The name of a predicate with the number of its arguments, and what is said of it.
fn of_predicate(alloc: Global, procs: &Procs, pred: u32, words: &[u8]) -> Result<Text, Memory>
    ensures { IfOk result
        (λ text. text ≡ shown ((source_of procs.now).preds pred).name ++ words.now) }
{
    let program = procs.program();
    if pred >= program.preds.len() {
        return of_no_name(alloc, words);
    }
    let found = program.preds.get(pred);
    of_name(alloc, &found.name, words)
}

/// What is said where a declaration doesn't allow a determinism.
fn not_allowed(
    alloc: Global,
    declared: Option<Det>,
    body: Det,
) -> Result<Option<(Rule, Text)>, Memory>
    ensures { IfOk result (λ fault. fault ≡ not_allowed declared (row_of body)) }
{
    match declared {
        Some(d) => not_allowed_by(alloc, d, body),
        None => Ok(None),
    }
}

fn not_allowed_by(alloc: Global, declared: Det, body: Det) -> Result<Option<(Rule, Text)>, Memory>
    ensures { IfOk result (λ fault. fault ≡ not_allowed (Some declared) (row_of body)) }
{
    if allows(declared, body) {
        return Ok(None);
    }
    let what = both_named(alloc, declared, body)?;
    Ok(Some((Rule::E1, what)))
}

/// Whether a declared determinism allows an inferred one.
fn allows(declared: Det, body: Det) -> bool
    ensures { result ≡ allows (row_of declared) (row_of body) }
{
    (!body.can_fail || declared.can_fail) && rank(most_of(body)) <= rank(most_of(declared))
}

/// How many answers: none, one, more.
fn rank(most: Most) -> u8
    ensures { result ≡ rank most }
{
    match most {
        Most::Zero => 0,
        Most::One => 1,
        Most::Many => 2,
    }
}
