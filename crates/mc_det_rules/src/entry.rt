ghost use Rattle.std.specs.Prelude.{◌≡◌, ◌&&◌, ◌≤◌, ◌⊎◌, ◌∷◌, ℕ, List, [], length, map, nat_eq, not, IfOk};
ghost use Rattle.std.specs.List.{list_any};
ghost use Rattle.mc_source.specs.declared.det.Det.{Det};
ghost use Rattle.mc_program.specs.Values.{Val};
ghost use Rattle.mc_program.specs.PlainPrograms.{plain_name, plain_pred, plain_type};
ghost use Rattle.mc_program.specs.declared.builtin.Builtin.{Builtin};
ghost use Rattle.mc_model.specs.Lists.{from};
ghost use Rattle.mc_model.specs.Outcomes.{Outcome};
ghost use Rattle.mc_model.specs.declared.sched.Proc.{Proc};
ghost use Rattle.mc_accepted.specs.Ordered.{is_state, zipped};
ghost use Rattle.mc_accepted.specs.Inferred.{system_of};
ghost use Rattle.mc_accepted.specs.DeterminismFaults.{is_main_name, are_states, takes_states, is_det_or_cc_multi, is_main, main_fault};
ghost use Rattle.mc_procs.specs.Procedures.{source_of};
ghost use Rattle.mc_det.specs.Determinisms.{as_declared, declared_procedure, declared_system};
ghost use Rattle.mc_det_rules.specs.Main.{MainIsThere, main_number};
ghost use Rattle.mc_det_rules.specs.code.Entry.{main_by, is_wanted};

use mc_base::{Memory, Text};
use mc_model::inst::InstId;
use mc_model::sched::Proc;
use mc_procs::Procs;
use mc_program::program::{Name, Pred};
use mc_program::ty::Ty;
use mc_source::det::{Det, Most};
use mc_source::rule::Rule;
use std::alloc::Global;

/// What `run` asks of a program, and no other command: a `main(io::di, io::uo)` that is det or cc_multi, in the interface
/// of the first file's module.
pub fn main_fault(alloc: Global, procs: &Procs, runs: bool) -> Result<Option<(Rule, Text)>, Memory>
    ensures { IfOk result (λ fault. (outcome : Builtin → List Val → Outcome) (ds : ℕ → Det)
        → fault ≡ main_fault runs (list_any (λ k. is_main (system_of (declared_system outcome
        procs.now) ds) (declared_procedure procs.now.added k)) (from 0 (length procs.now.added)))) }
{
    let has_main = main_procedure(procs).is_some();
    if is_missing(runs, has_main) {
        let what = Text::new(alloc, b"main is not a det or cc_multi predicate on io")?;
        return Ok(Some((Rule::E4, what)));
    }
    Ok(None)
}

/// Whether `main` is asked for and isn't there.
fn is_missing(runs: bool, has_main: bool) -> bool
    ensures { result ≡ runs && not has_main }
{
    runs && !has_main
}

/// The number of the `main` that `run` asks for, where there is one: that of the first such procedure.
pub fn main_procedure(procs: &Procs) -> Option<u32>
    ensures { result ≡ main_number procs.now }
{
    for k in 0..procs.count() {
        if is_main(procs, procs.get(k)) {
            return Some(k);
        }
    }
    None
}

/// Where no rule of determinism is broken by what is to be run, there is a `main`: a law, and nothing to run.
pub fn main_is_there()
    ensures { MainIsThere }
{}

/// Whether a procedure is the `main` that is asked for.
fn is_main(procs: &Procs, p: &Proc) -> bool
    ensures { result ≡ main_by (source_of procs.now).preds (as_declared p.now) }
{
    let program = procs.program();
    if p.pred >= program.preds.len() {
        return false;
    }
    let is_called_so = is_main_pred(program.preds.get(p.pred));
    let takes_states = takes_states(p.first.as_slice(), p.last.as_slice());
    let is_det = is_det_or_cc_multi(p.declared);
    all_hold(p.exported, p.at.file, is_called_so, takes_states, is_det)
}

/// Whether all that is asked of `main` holds; the first file's number is 0.
fn all_hold(exported: bool, file: u32, is_called_so: bool, takes_states: bool, is_det: bool) -> bool
    ensures { result ≡ exported && (nat_eq file 0 && (is_called_so && (takes_states && is_det))) }
{
    exported && file == 0 && is_called_so && takes_states && is_det
}

/// Whether a predicate is `main` over two states.
fn is_main_pred(pred: &Pred) -> bool
    ensures { result ≡ is_main_name (plain_pred pred.now).name
        && are_states (plain_pred pred.now).types }
{
    let is_name = is_main_name(&pred.name);
    let are_states = are_states(pred.types.as_slice());
    is_name && are_states
}

/// Whether a name is `main` with two arguments, of whatever module.
fn is_main_name(name: &Name) -> bool
    ensures { result ≡ is_main_name (plain_name name.now) }
{
    name.name.bytes() == b"main".as_slice() && name.arity == 2
}

/// Whether these are two types, of the state of io each.
fn are_states(types: &[Ty]) -> bool
    ensures { result ≡ are_states (map plain_type types.now) }
{
    if types.len() != 2 {
        return false;
    }
    let first = is_state(&types[0]);
    let second = is_state(&types[1]);
    first && second
}

fn is_state(ty: &Ty) -> bool
    ensures { result ≡ is_state (plain_type ty.now) }
{
    matches!(ty, Ty::Io)
}

/// Whether the modes of arguments are those of `main`: the state goes in, and comes out.
fn takes_states(first: &[InstId], last: &[InstId]) -> bool
    ensures { result ≡ takes_states (zipped first.now last.now) }
{
    if fewer(first.len(), last.len()) != 2 {
        return false;
    }
    are_wanted(first[0], last[0], first[1], last[1])
}

/// Whether one argument's inst at the call and at the answer, and then the other's, are those of `main`.
fn are_wanted(first: InstId, last: InstId, next_first: InstId, next_last: InstId) -> bool
    ensures { result ≡ takes_states ((first, last) ∷ (next_first, next_last) ∷ []) }
{
    first == 2 && last == 3 && next_first == 0 && next_last == 2
}

/// The less of two numbers.
fn fewer(a: usize, b: usize) -> usize
    ensures first { result ≤ a }
    ensures second { result ≤ b }
    ensures either { (result ≡ a) ⊎ (result ≡ b) }
{
    if a < b {
        return a;
    }
    b
}

/// Whether a declared determinism is det or cc_multi.
fn is_det_or_cc_multi(declared: Option<Det>) -> bool
    ensures { result ≡ is_det_or_cc_multi declared }
{
    match declared {
        Some(d) => is_wanted(d),
        None => false,
    }
}

fn is_wanted(d: Det) -> bool
    ensures { result ≡ is_wanted d }
{
    let wanted = if d.committed { Most::Many } else { Most::One };
    !d.can_fail && d.most == wanted
}
