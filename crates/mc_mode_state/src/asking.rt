ghost use Rattle.std.specs.Prelude.{◌≡◌, ◌<◌, ◌≤◌, MatchOption, insert, if◌then◌else◌, ◌∷◌, [], ◌||◌, ℕ, length, map, not, nat_eq, IfOk, OnOk};
ghost use Rattle.std.specs.List.{list_any};
ghost use Rattle.mc_model.specs.Stream.{is_bound};
ghost use Rattle.mc_procs.specs.Named.{NumbersBelow};
ghost use Rattle.mc_accepted.specs.Arranged.{ascending, placed};
ghost use Rattle.mc_accepted.specs.Ordered.{is_state};
ghost use Rattle.mc_program.specs.PlainPrograms.{plain_type};
ghost use Rattle.mc_mode_state.specs.Nodes.{type_in};
ghost use Rattle.mc_mode_state.specs.States.{point_of};
ghost use Rattle.mc_mode_state.specs.Answers.{IsWaiting};

use crate::fault::{Failed, ModeFault};
use crate::state::State;
use mc_base::{Memory, Row};
use mc_model::inst::InstId;
use mc_program::ty::Ty;
use std::alloc::Global;

/// The node of `free`.
pub const FREE: InstId = 0;

/// The node of `ground`.
pub const GROUND: InstId = 1;

/// The node of `unique`.
pub const UNIQUE: InstId = 2;

/// The node of `dead`.
pub const DEAD: InstId = 3;

/// Whether an inst isn't free.
pub fn is_bound(inst: InstId) -> bool
    ensures { result ≡ is_bound inst }
{
    inst != 0
}

/// Whether a type is that of the state of io.
fn is_state(ty: &Ty) -> bool
    ensures { result ≡ is_state (plain_type ty.now) }
{
    matches!(ty, Ty::Io)
}

/// Before which place of a row that ascends a number goes; None where it is there.
fn place_in(row: &[u32], x: u32) -> Option<usize>
    ensures { MatchOption result (placed x row.now ≡ row.now)
        (λ k. (k ≤ length row.now) × (placed x row.now ≡ insert row.now k x)) }
{
    for k in 0..row.len() {
        if x < row[k] {
            return Some(k);
        }
        if x == row[k] {
            return None;
        }
    }
    Some(row.len())
}

/// Puts a number into a row that ascends, where it is wanted and isn't there yet.
pub(crate) fn place(row: &mut Vec<u32>, x: u32, is_wanted: bool) -> Result<(), Memory>
    ensures { OnOk result (row.new.items
        ≡ (if is_wanted then placed x row.old.items else row.old.items)) }
{
    if !is_wanted {
        return Ok(());
    }
    match place_in(row, x) {
        None => Ok(()),
        Some(k) => {
            row.insert(k, x)?;
            Ok(())
        }
    }
}

impl State {
    /// Whether one of these variables is dead.
    pub(crate) fn one_is_dead(&self, xs: &[u32]) -> bool
        requires { NumbersBelow (length self.now.insts.items) xs.now }
        ensures { result ≡ list_any (λ x. nat_eq (point_of self.now.insts.items x) 3) xs.now }
    {
        for x in xs {
            if self.inst(*x) == DEAD {
                return true;
            }
        }
        false
    }

    /// Whether a variable's type is that of the state of io.
    pub(crate) fn is_state(&self, x: u32) -> bool
        requires { x < length self.now.types.items }
        ensures { result ≡ is_state (type_in self.now.types.items x) }
    {
        is_state(&self.types[x as usize])
    }

    /// Those of these variables that are free, ascending, each once.
    pub fn free(&self, alloc: Global, xs: &[u32]) -> Result<Row<u32>, Memory>
        requires { NumbersBelow (length self.now.insts.items) xs.now }
        ensures { IfOk result (λ row. row
            ≡ ascending (λ x. not (is_bound (point_of self.now.insts.items x))) xs.now) }
    {
        let mut row = Vec::new(alloc);
        let mut k = xs.len();
        while k > 0 {
            k -= 1;
            place(&mut row, xs[k], !is_bound(self.inst(xs[k])))?;
        }
        Row::of(row)
    }

    /// The fault of an atom that waits.
    pub(crate) fn waiting(&self, alloc: Global, xs: &[u32]) -> Failed
        requires { NumbersBelow (length self.now.insts.items) xs.now }
        ensures { IsWaiting xs.now (point_of self.now.insts.items) result }
    {
        match self.free(alloc, xs) {
            Ok(free) => Failed::Fault(ModeFault::Waits(1, free)),
            Err(_) => Failed::Memory,
        }
    }
}
