ghost use Rattle.std.specs.Prelude.{◌≡◌, ◌<◌, ◌+◌, ◌++◌, ◌∷◌, [], length, take, IfOk, OnOk, if◌then◌else◌};
ghost use Rattle.mc_accepted.specs.Arranged.{fresh_at, tests_at};
ghost use Rattle.mc_procs.specs.Named.{NumbersBelow};
ghost use Rattle.mc_procs.specs.Procedures.{PlainProcs};
ghost use Rattle.mc_mode_state.specs.Nodes.{type_in};
ghost use Rattle.mc_mode_state.specs.States.{point_of, SameLengths};
ghost use Rattle.mc_mode_state.specs.Agreeing.{StateInvariant, LaterByTrail};
ghost use Rattle.mc_mode_state.specs.code.Applying.{AlikeIn};

use crate::asking::FREE;
use crate::calls::has;
use crate::finding::place_number;
use crate::state::State;
use mc_base::{Memory, Row};
use mc_model::inst::ModeDecl;
use mc_program::ty::copy_type;
use std::alloc::Global;

/// A builtin's arguments, with fresh variables in the places of implied outputs, and each fresh variable with the one for
/// which it stands.
#[derive(Drop)]
pub(crate) struct Freshened {
    pub args: Vec<u32>,
    pub tests: Vec<(u32, u32)>,
}

impl State {
    /// A new variable of the type of another. It is free, and occurs nowhere.
    fn new_variable(&mut self, alloc: Global, like: u32) -> Result<u32, Memory>
        requires even { SameLengths self.old }
        requires like { like < length self.old.insts.items }
        ensures number { IfOk result (λ z. z ≡ length self.old.insts.items) }
        ensures count { OnOk result (length self.new.insts.items ≡ length self.old.insts.items + 1) }
        ensures point { OnOk result (point_of self.new.insts.items ≡ point_of self.old.insts.items) }
        ensures typed { OnOk result (type_in self.new.types.items (length self.old.insts.items)
            ≡ type_in self.old.types.items like) }
        ensures types { OnOk result (take (length self.old.types.items) self.new.types.items
            ≡ self.old.types.items) }
        ensures even { OnOk result (SameLengths self.new) }
        ensures stepped { OnOk result ((q : PlainProcs) → StateInvariant q self.old
            → LaterByTrail q q self.old self.new) }
    {
        let z = place_number(self.insts.len())?;
        let ty = copy_type(alloc, &self.types[like as usize])?;
        self.insts.push(FREE)?;
        self.outside.push(0)?;
        self.types.push(ty)?;
        Ok(z)
    }

    /// A fresh variable for an implied output, which is to be tested. Any other argument stands for itself.
    fn stand_in(
        &mut self,
        alloc: Global,
        tests: &mut Vec<(u32, u32)>,
        x: u32,
        is_implied: bool,
    ) -> Result<u32, Memory>
        requires even { SameLengths self.old }
        requires variable { x < length self.old.insts.items }
        requires alike { AlikeIn self.old.types.items tests.old.items }
        ensures arg { IfOk result (λ z. z ≡ (if is_implied then length self.old.insts.items else x)) }
        ensures tests { OnOk result (tests.new.items ≡ (if is_implied
            then tests.old.items ++ (length self.old.insts.items, x) ∷ [] else tests.old.items)) }
        ensures count { OnOk result (length self.new.insts.items
            ≡ (if is_implied then length self.old.insts.items + 1 else length self.old.insts.items)) }
        ensures alike { OnOk result (AlikeIn self.new.types.items tests.new.items) }
        ensures point { OnOk result (point_of self.new.insts.items ≡ point_of self.old.insts.items) }
        ensures even { OnOk result (SameLengths self.new) }
        ensures stepped { OnOk result ((q : PlainProcs) → StateInvariant q self.old
            → LaterByTrail q q self.old self.new) }
    {
        if !is_implied {
            return Ok(x);
        }
        let z = self.new_variable(alloc, x)?;
        tests.push((z, x))?;
        Ok(z)
    }

    /// Fresh variables for the implied outputs of a builtin, numbered on.
    pub(crate) fn freshen(
        &mut self,
        alloc: Global,
        mode: &ModeDecl,
        implied: &Row<u32>,
        xs: &[u32],
    ) -> Result<Freshened, Memory>
        requires even { SameLengths self.old }
        requires variables { NumbersBelow (length self.old.insts.items) xs.now }
        requires arguments { length mode.now.first ≡ length xs.now }
        ensures args { IfOk result (λ made. made.args.items
            ≡ fresh_at 0 implied.now xs.now (length self.old.insts.items)) }
        ensures tests { IfOk result (λ made. made.tests.items
            ≡ tests_at 0 implied.now xs.now (length self.old.insts.items)) }
        ensures many { IfOk result (λ made. length made.args.items ≡ length xs.now) }
        ensures there { IfOk result (λ made. NumbersBelow (length self.new.insts.items) made.args.items) }
        ensures count { IfOk result (λ made. length self.new.insts.items
            ≡ length self.old.insts.items + length made.tests.items) }
        ensures alike { IfOk result (λ made. AlikeIn self.new.types.items made.tests.items) }
        ensures point { OnOk result (point_of self.new.insts.items ≡ point_of self.old.insts.items) }
        ensures stepped { OnOk result ((q : PlainProcs) → StateInvariant q self.old
            → LaterByTrail q q self.old self.new) }
    {
        let mut args = Vec::new(alloc);
        let mut tests = Vec::new(alloc);
        for k in 0..mode.first.len() {
            let is_implied = has(implied.as_slice(), k);
            let z = self.stand_in(alloc, &mut tests, xs[k as usize], is_implied)?;
            args.push(z)?;
        }
        Ok(Freshened { args, tests })
    }
}
