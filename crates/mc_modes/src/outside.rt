//! Variables of a conjunction's goals among what occurs outside; for its atoms no lists are made.
ghost use Rattle.std.specs.Prelude.{ℕ, length, map, OnOk};
ghost use Rattle.mc_model.specs.Flat.{flats, variables_of, variables_of_all};
ghost use Rattle.mc_model.specs.PlainGoals.{plain_flat};
ghost use Rattle.mc_procs.specs.Named.{NumbersBelow};
ghost use Rattle.mc_modes.specs.code.Frames.{Entered, Left};
ghost use Rattle.mc_modes.specs.code.Waiting.{Counted};

use crate::variables::variables_of;
use mc_base::Memory;
use mc_mode_state::State;
use mc_model::flat::Flat;
use std::alloc::Global;

/// A goal's variables occur outside too, each as often as in the goal.
fn enter_goal(alloc: Global, state: &mut State, goal: &Flat) -> Result<(), Memory>
    requires { NumbersBelow (length state.old.outside.items) (variables_of (plain_flat goal.now)) }
    ensures { OnOk result (Entered (variables_of (plain_flat goal.now)) state.old state.new) }
{
    match goal {
        Flat::Same(x, y) => state.enter(&[*x, *y]),
        Flat::Made(x, _, ys) => {
            state.enter(&[*x])?;
            state.enter(ys.as_slice())
        }
        Flat::Const(x, _) => state.enter(&[*x]),
        Flat::Call(_, xs) => state.enter(xs.as_slice()),
        _ => {
            let vars = variables_of(alloc, goal)?;
            state.enter(&vars)
        }
    }
}

/// Those of several goals do.
pub fn enter_goals(alloc: Global, state: &mut State, goals: &[Flat]) -> Result<(), Memory>
    requires { NumbersBelow (length state.old.outside.items)
        (variables_of_all (flats (map plain_flat goals.now))) }
    ensures { OnOk result (Entered (variables_of_all (flats (map plain_flat goals.now))) state.old
        state.new) }
{
    for goal in goals {
        enter_goal(alloc, state, goal)?;
    }
    Ok(())
}

/// Takes back what `enter_goal` did.
fn leave_goal(alloc: Global, state: &mut State, goal: &Flat) -> Result<(), Memory>
    requires below { NumbersBelow (length state.old.outside.items) (variables_of (plain_flat goal.now)) }
    requires enough { Counted (variables_of (plain_flat goal.now)) state.old }
    ensures { OnOk result (Left (variables_of (plain_flat goal.now)) state.old state.new) }
{
    match goal {
        Flat::Same(x, y) => state.leave(&[*x, *y]),
        Flat::Made(x, _, ys) => {
            state.leave(&[*x]);
            state.leave(ys.as_slice());
        }
        Flat::Const(x, _) => state.leave(&[*x]),
        Flat::Call(_, xs) => state.leave(xs.as_slice()),
        _ => {
            let vars = variables_of(alloc, goal)?;
            state.leave(&vars);
        }
    }
    Ok(())
}

/// Takes back what `enter_goals` did.
pub fn leave_goals(alloc: Global, state: &mut State, goals: &[Flat]) -> Result<(), Memory>
    requires below { NumbersBelow (length state.old.outside.items)
        (variables_of_all (flats (map plain_flat goals.now))) }
    requires enough { Counted (variables_of_all (flats (map plain_flat goals.now))) state.old }
    ensures { OnOk result (Left (variables_of_all (flats (map plain_flat goals.now))) state.old
        state.new) }
{
    for goal in goals {
        leave_goal(alloc, state, goal)?;
    }
    Ok(())
}
