ghost use Rattle.std.specs.Prelude.{◌≡◌, ◌<◌, ◌++◌, ℕ, List, length, IfOk, OnOk};
ghost use Rattle.mc_source.specs.Rules.{broken_at, first_rules};
ghost use Rattle.mc_program.specs.Values.{Val};
ghost use Rattle.mc_program.specs.declared.builtin.Builtin.{Builtin};
ghost use Rattle.mc_model.specs.Lists.{from};
ghost use Rattle.mc_model.specs.Outcomes.{Outcome};
ghost use Rattle.mc_accepted.specs.DeterminismFaults.{procedure_fault, determinism_faults};
ghost use Rattle.mc_procs.specs.Procedures.{as_system, procedure_at};
ghost use Rattle.mc_det_constraints.specs.Least.{assigned};
ghost use Rattle.mc_det.specs.Determinisms.{declared_procedure, declared_system};
ghost use Rattle.mc_det.specs.MarkedProcedures.{MarksHold, determinisms_of};
ghost use Rattle.mc_det_rules.specs.code.Listed.{place_of, rule_of};

use crate::entry::main_fault;
use crate::rules::{call_fault, declaration_fault, io_fault, undeclared_fault};
use mc_base::{Memory, Text};
use mc_procs::Procs;
use mc_source::place::Place;
use mc_source::rule::{Broken, Rule};
use mc_source::sort_by_place;
use std::alloc::Global;

/// Where a program begins, of which the rule of `main` is told.
const BEGINNING: Place = Place { file: 0, line: 1 };

/// The rules of determinism that procedures break where they have the determinisms that they have: what `run` asks of `main`
/// first, where it is asked for, then the first rule of each faulty procedure, in the order of the places where they are
/// declared, and of their numbers in one place. The marks of their bodies tell.
pub fn faults(alloc: Global, procs: &Procs, runs: bool) -> Result<Vec<Broken>, Memory>
    requires { MarksHold procs.now }
    ensures { IfOk result (λ faults. (outcome : Builtin → List Val → Outcome)
        → faults.items ≡ determinism_faults runs (declared_system outcome procs.now)
        (assigned (determinisms_of procs.now))) }
{
    let mut sorted = faulty_procedures(alloc, procs)?;
    sort_by_place(&mut sorted)?;
    let mut faults = Vec::new(alloc);
    put(&mut faults, BEGINNING, main_fault(alloc, procs, runs)?)?;
    faults.append(&mut sorted)?;
    Ok(faults)
}

/// The first rule of each faulty procedure, in the order of their numbers.
fn faulty_procedures(alloc: Global, procs: &Procs) -> Result<Vec<Broken>, Memory>
    requires { MarksHold procs.now }
    ensures { IfOk result (λ faults. (outcome : Builtin → List Val → Outcome)
        → faults.items ≡ first_rules (place_of procs.now) (rule_of (as_system outcome procs.now)
        procs.now) (from 0 (length procs.now.added))) }
{
    let mut faults = Vec::new(alloc);
    for k in 0..procs.count() {
        let fault = procedure_fault(alloc, procs, k)?;
        put(&mut faults, procs.get(k).at, fault)?;
    }
    Ok(faults)
}

/// What is listed of a place: the rule that is broken there, if one is.
fn put(faults: &mut Vec<Broken>, at: Place, fault: Option<(Rule, Text)>) -> Result<(), Memory>
    ensures { OnOk result (faults.new.items ≡ faults.old.items ++ broken_at at fault) }
{
    if let Some((rule, what)) = fault {
        faults.push(Broken { rule, at, what })?;
    }
    Ok(())
}

/// The first rule of determinism that a procedure breaks.
fn procedure_fault(alloc: Global, procs: &Procs, k: u32) -> Result<Option<(Rule, Text)>, Memory>
    requires there { k < length procs.now.added }
    requires marks { MarksHold procs.now }
    ensures { IfOk result (λ fault. (outcome : Builtin → List Val → Outcome)
        → fault ≡ rule_of (as_system outcome procs.now) procs.now k) }
{
    if let Some(fault) = declaration_fault(alloc, procs, k)? {
        return Ok(Some(fault));
    }
    if let Some(fault) = undeclared_fault(alloc, procs, k)? {
        return Ok(Some(fault));
    }
    if let Some(fault) = call_fault(alloc, procs, k)? {
        return Ok(Some(fault));
    }
    io_fault(alloc, procs, k)
}
