//! What atoms wait for: variables that are free at a point and that none of some goals holds.
ghost use Rattle.std.specs.Prelude.{◌≡◌, ◌<◌, ◌≤◌, ℕ, true, length, not, get_or, IsTrue};
ghost use Rattle.std.specs.List.{list_any};
ghost use Rattle.mc_model.specs.PlainGoals.{plain_flat};
ghost use Rattle.mc_model.specs.Stream.{is_bound};
ghost use Rattle.mc_accepted.specs.Ordered.{modes_of, out_mode};
ghost use Rattle.mc_procs.specs.Named.{NumbersBelow};
ghost use Rattle.mc_procs.specs.Procedures.{source_of};
ghost use Rattle.mc_mode_state.specs.Modes.{declared_mode, never_answers};
ghost use Rattle.mc_modes.specs.Fitting.{Known};
ghost use Rattle.mc_modes.specs.Signatures.{declared_in};
ghost use Rattle.mc_modes.specs.code.Sleeping.{call_sleeps, call_returns, may_be_mild, input_is_free, free_beside, free_now};

use crate::atoms::modes_at;
use mc_mode_state::{State, has};
use mc_model::flat::Flat;
use mc_model::inst::{InstId, ModeDecl, Sig};
use mc_procs::Procs;
use mc_program::builtin::Builtin;
use mc_source::det::{Det, Most};

/// The node of `free`.
const FREE: InstId = 0;

/// Whether a variable is free, and none of these others.
pub fn is_free(state: &State, others: &[u32], x: u32) -> bool
    requires { x < length state.now.insts.items }
    ensures { result ≡ free_beside (free_now state.now) others.now x }
{
    state.inst(x) == FREE && !has(others, x)
}

/// Whether one of these variables is.
pub fn one_is_free(state: &State, others: &[u32], xs: &[u32]) -> bool
    requires { NumbersBelow (length state.now.insts.items) xs.now }
    ensures { IsTrue result → list_any (free_beside (free_now state.now) others.now) xs.now ≡ true }
{
    for x in xs {
        if is_free(state, others, *x) {
            return true;
        }
    }
    false
}

/// Whether one of a mode's inputs is.
fn input_is_free(state: &State, others: &[u32], mode: &ModeDecl, xs: &[u32]) -> bool
    requires { NumbersBelow (length state.now.insts.items) xs.now }
    ensures { IsTrue result → input_is_free (free_beside (free_now state.now) others.now)
        (declared_mode mode.now).modes xs.now ≡ true }
{
    for k in 0..xs.len() {
        if is_input(mode, k) && is_free(state, others, xs[k]) {
            return true;
        }
    }
    false
}

/// Whether a mode has an input in a place.
fn is_input(mode: &ModeDecl, place: usize) -> bool
    ensures { IsTrue result → (place < length mode.now.first) × (place < length mode.now.last)
        × (is_bound (get_or mode.now.first place 0) ≡ true) }
{
    let first = mode.first.as_slice();
    place < first.len() && place < mode.last.as_slice().len() && first[place] != FREE
}

/// The places of a builtin's inputs: from the first number on, below the second.
fn builtin_inputs(op: Builtin) -> (usize, usize)
    ensures inputs { (k : ℕ) → result.0 ≤ k → k < result.1 → is_bound (get_or (modes_of op) k out_mode).0 ≡ true }
    ensures within { result.1 ≤ length (modes_of op) }
{
    match op {
        Builtin::ReadLine => (1, 2),
        Builtin::IntPlus
        | Builtin::IntMinus
        | Builtin::IntTimes
        | Builtin::IntQuotient
        | Builtin::IntDiv
        | Builtin::IntMod
        | Builtin::IntRem
        | Builtin::StringJoin
        | Builtin::IntLess
        | Builtin::IntGreater
        | Builtin::IntAtMost
        | Builtin::IntAtLeast
        | Builtin::WriteString
        | Builtin::WriteChar
        | Builtin::WriteInt
        | Builtin::Write => (0, 2),
        _ => (0, 1),
    }
}

/// Whether one of a builtin's inputs is.
fn builtin_input_is_free(state: &State, others: &[u32], op: Builtin, xs: &[u32]) -> bool
    requires { NumbersBelow (length state.now.insts.items) xs.now }
    ensures { IsTrue result → input_is_free (free_beside (free_now state.now) others.now)
        (modes_of op) xs.now ≡ true }
{
    let inputs = builtin_inputs(op);
    for k in inputs.0..inputs.1 {
        if k < xs.len() && is_free(state, others, xs[k]) {
            return true;
        }
    }
    false
}

/// Whether a call waits for one of its inputs, in each of its modes.
pub fn call_sleeps(
    procs: &Procs,
    sigs: &[Sig],
    state: &State,
    others: &[u32],
    pred: u32,
    xs: &[u32],
) -> bool
    requires pred { pred < length procs.now.program.preds }
    requires variables { NumbersBelow (length state.now.insts.items) xs.now }
    ensures { IsTrue result → call_sleeps (source_of procs.now) (declared_in sigs.now)
        (free_beside (free_now state.now) others.now)
        ((source_of procs.now).preds pred).builtin pred xs.now ≡ true }
{
    if let Some(op) = procs.program().preds.get(pred).builtin {
        return builtin_input_is_free(state, others, op, xs);
    }
    for mode in modes_at(sigs, pred) {
        if !input_is_free(state, others, mode, xs) {
            return false;
        }
    }
    true
}

/// Whether a call in a mode comes back.
fn comes_back(det: Option<Det>) -> bool
    ensures { result ≡ not (never_answers det) }
{
    match det {
        None => true,
        Some(det) => det.most != Most::Zero,
    }
}

/// Whether calls of a predicate come back, in each of its modes.
fn call_returns(procs: &Procs, sigs: &[Sig], pred: u32) -> bool
    requires { pred < length procs.now.program.preds }
    ensures { IsTrue result → call_returns (source_of procs.now) (declared_in sigs.now)
        ((source_of procs.now).preds pred).builtin pred ≡ true }
{
    if let Some(op) = procs.program().preds.get(pred).builtin {
        return !matches!(op, Builtin::Error);
    }
    for mode in modes_at(sigs, pred) {
        if !comes_back(mode.det) {
            return false;
        }
    }
    true
}

/// Whether a goal either waits or runs to a reachable end, as an equation of variables does and a call that comes back;
/// but equations with constructors and constants have to be looked at beside the others.
pub fn may_be_mild(procs: &Procs, sigs: &[Sig], goal: &Flat) -> bool
    requires { Known procs.now.program (plain_flat goal.now) }
    ensures { IsTrue result → may_be_mild (source_of procs.now) (declared_in sigs.now) (plain_flat goal.now) ≡ true }
{
    match goal {
        Flat::Same(_, _) => true,
        Flat::Made(_, _, _) => true,
        Flat::Const(_, _) => true,
        Flat::Call(pred, _) => call_returns(procs, sigs, *pred),
        _ => false,
    }
}
