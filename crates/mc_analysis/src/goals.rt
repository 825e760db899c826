ghost use Rattle.std.specs.Prelude.{◌≡◌, ◌↔◌, ◌<◌, None, IsTrue, IsFalse, length, map};
ghost use Rattle.mc_model.specs.Flat.{flats};
ghost use Rattle.mc_model.specs.PlainGoals.{plain_flat};
ghost use Rattle.mc_modes.specs.Schedules.{NormalFits};
ghost use Rattle.mc_procs.specs.Named.{NumbersBelow};
ghost use Rattle.mc_analysis.specs.Premises.{GoalsFitModes};
ghost use Rattle.mc_analysis.specs.code.Tests.{PredFits, FitsEach, NormalParts, FitsFlat, AllFitFlat, MakesKnown};

use crate::signatures::numbers_below;
use mc_model::flat::{Flat, Normal};
use mc_model::inst::{ModeDecl, Sig};
use mc_modes::modes_at;
use mc_procs::Procs;
use mc_program::program::{Pred, Program};

/// Whether goals name what is there, and have a head variable for each inst of their modes.
pub(crate) fn goals_fit(procs: &Procs, sigs: &[Sig], goals: &[Normal]) -> bool
    requires { length goals.now ≡ length procs.now.program.preds }
    ensures { IsTrue result ↔ GoalsFitModes procs.now sigs.now goals.now }
{
    for pred in 0..procs.program().preds.len() {
        if !pred_fits(procs, sigs, goals, pred) {
            return false;
        }
    }
    true
}

/// Whether a predicate's goal fits each of its modes; that of a builtin isn't asked.
fn pred_fits(procs: &Procs, sigs: &[Sig], goals: &[Normal], pred: u32) -> bool
    requires there { pred < length procs.now.program.preds }
    requires as_many { length goals.now ≡ length procs.now.program.preds }
    ensures { IsTrue result ↔ PredFits procs.now sigs.now goals.now pred }
{
    if has_builtin(procs.program().preds.get(pred)) {
        return true;
    }
    fits_each(procs, &goals[pred as usize], modes_at(sigs, pred))
}

/// Whether a builtin stands for a predicate's clauses.
pub(crate) fn has_builtin(pred: &Pred) -> bool
    ensures none { IsFalse result → pred.now.builtin ≡ None }
    ensures some { IsTrue result → pred.now.builtin ≡ None → ⊥ }
{
    match pred.builtin {
        None => false,
        Some(_) => true,
    }
}

/// Whether a goal fits each of these modes.
fn fits_each(procs: &Procs, goal: &Normal, modes: &[ModeDecl]) -> bool
    ensures { IsTrue result ↔ FitsEach procs.now goal.now modes.now }
{
    for mode in modes {
        if !normal_fits(procs, goal, mode) {
            return false;
        }
    }
    true
}

/// Whether what a goal names is there, and it has a head variable for each inst of the mode.
fn normal_fits(procs: &Procs, goal: &Normal, mode: &ModeDecl) -> bool
    ensures { IsTrue result ↔ NormalFits procs.now mode.now goal.now }
{
    has_parts(procs, goal, mode)
}

fn has_parts(procs: &Procs, goal: &Normal, mode: &ModeDecl) -> bool
    ensures { IsTrue result ↔ NormalParts procs.now mode.now goal.now }
{
    let top = goal.var_types.len();
    numbers_below(top, goal.head.as_slice())
        && mode.first.len() == goal.head.len()
        && fits_flat(top, procs.program(), &goal.body)
}

/// Whether a goal's variables are below a number, and its constructors and predicates are there.
#[cycle(flat)]
fn fits_flat(top: u32, program: &Program, goal: &Flat) -> bool
    ensures { IsTrue result ↔ FitsFlat top program.now (plain_flat goal.now) }
{
    match goal {
        Flat::True => true,
        Flat::Conj(goals) => all_fit_flat(top, program, goals.as_slice()),
        Flat::Disj(goals) => all_fit_flat(top, program, goals.as_slice()),
        Flat::Ite(vars, condition, then_part, else_part) => {
            numbers_below(top, vars.as_slice())
                && fits_flat(top, program, condition)
                && fits_flat(top, program, then_part)
                && fits_flat(top, program, else_part)
        }
        Flat::Not(inner) => fits_flat(top, program, inner),
        Flat::Some(vars, inner) => scope_fits(top, program, vars.as_slice(), inner),
        Flat::Same(x, y) => *x < top && *y < top,
        Flat::Made(x, symbol, args) => made_fits(top, program, *x, *symbol, args.as_slice()),
        Flat::Const(x, _) => *x < top,
        Flat::Call(pred, args) => {
            *pred < program.preds.len() && numbers_below(top, args.as_slice())
        }
    }
}

#[cycle(flat)]
fn all_fit_flat(top: u32, program: &Program, goals: &[Flat]) -> bool
    ensures { IsTrue result
        ↔ AllFitFlat top program.now (flats (map plain_flat goals.now)) }
{
    for goal in goals {
        if !fits_flat(top, program, goal) {
            return false;
        }
    }
    true
}

#[cycle(flat)]
fn scope_fits(top: u32, program: &Program, vars: &[u32], inner: &Flat) -> bool
    ensures { IsTrue result
        ↔ (NumbersBelow top vars.now × FitsFlat top program.now (plain_flat inner.now)) }
{
    numbers_below(top, vars) && fits_flat(top, program, inner)
}

/// Whether a variable and the arguments of a constructor are below a number, and the constructor is there.
fn made_fits(top: u32, program: &Program, x: u32, symbol: u32, args: &[u32]) -> bool
    ensures { IsTrue result
        ↔ ((x < top) × NumbersBelow top args.now × MakesKnown program.now symbol args.now) }
{
    x < top && numbers_below(top, args) && makes_known(program, symbol, args)
}

/// Whether a constructor is there, and has that many arguments.
fn makes_known(program: &Program, symbol: u32, args: &[u32]) -> bool
    ensures { IsTrue result ↔ MakesKnown program.now symbol args.now }
{
    if symbol >= program.symbols.len() {
        return false;
    }
    let made = program.symbols.get(symbol);
    args.len() == made.name.arity as usize
}
