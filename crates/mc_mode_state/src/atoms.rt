ghost use Rattle.std.specs.Prelude.{◌≡◌, ◌<◌, ◌∷◌, [], ◌&&◌, ℕ, List, length, map, not, nat_eq, nat_lt, IfOk, OnOk, if◌then◌else◌};
ghost use Rattle.mc_program.specs.Values.{plain_value};
ghost use Rattle.mc_model.specs.Flat.{Same, Is};
ghost use Rattle.mc_accepted.specs.Arranged.{Declared, with_inst};
ghost use Rattle.mc_accepted.specs.Ordered.{is_state};
ghost use Rattle.mc_procs.specs.Named.{NumbersBelow};
ghost use Rattle.mc_procs.specs.Procedures.{PlainProcs};
ghost use Rattle.mc_mode_state.specs.Nodes.{type_in};
ghost use Rattle.mc_mode_state.specs.States.{point_of};
ghost use Rattle.mc_mode_state.specs.Agreeing.{StateInvariant, LaterByTrail};
ghost use Rattle.mc_mode_state.specs.Answers.{tried, Answers, FreshAlike};

use crate::asking::{DEAD, GROUND, is_bound};
use crate::fault::Failed;
use crate::part::Part;
use crate::state::State;
use mc_base::Memory;
use mc_model::inst::InstId;
use mc_model::sched::Sched;
use mc_procs::Procs;
use mc_program::copy::copy_value;
use mc_program::value::Value;
use std::alloc::Global;

/// Whether an inst allows constants, as the builtin ones but `free` do.
fn takes_constants(inst: InstId) -> bool
    ensures { result ≡ (not (nat_eq inst 0) && nat_lt inst 4) }
{
    is_bound(inst) && inst <= DEAD
}

impl State {
    /// An equation of two variables.
    pub fn same(&mut self, alloc: Global, procs: &Procs, x: u32, y: u32) -> Result<Part, Failed>
        requires stands { StateInvariant procs.now self.old }
        requires variables { NumbersBelow (length self.old.insts.items) (x ∷ y ∷ []) }
        ensures answer { (declared : ℕ → List Declared) (outside : List ℕ)
            → Answers (tried declared (Same x y) outside procs.now self.old) procs.now procs.now
            self.old self.new result }
        ensures alike { IfOk result (FreshAlike (Same x y) self.new) }
    {
        let _ = procs;
        let trail = self.trail.len();
        if self.one_is_dead(&[x, y]) {
            return Err(self.waiting(alloc, &[x, y]));
        }
        let x_is_bound = is_bound(self.inst(x));
        let y_is_bound = is_bound(self.inst(y));
        if x_is_bound && y_is_bound {
            if self.is_state(x) {
                return Err(self.waiting(alloc, &[x, y]));
            }
            let part = self.one(alloc, Sched::Test(x, y), trail, true)?;
            return Ok(part);
        }
        if x_is_bound {
            self.assign(y, x)?;
            let part = self.one(alloc, Sched::Assign(y, x), trail, true)?;
            return Ok(part);
        }
        if y_is_bound {
            self.assign(x, y)?;
            let part = self.one(alloc, Sched::Assign(x, y), trail, true)?;
            return Ok(part);
        }
        Err(self.waiting(alloc, &[x, y]))
    }

    /// A variable gets the inst of another, which is dead afterwards where it is a state of io.
    fn assign(&mut self, x: u32, y: u32) -> Result<(), Memory>
        requires first { x < length self.old.insts.items }
        requires second { y < length self.old.insts.items }
        requires types { y < length self.old.types.items }
        ensures point { OnOk result (point_of self.new.insts.items
            ≡ with_inst ℕ x (point_of self.old.insts.items y)
            (if is_state (type_in self.old.types.items y)
            then with_inst ℕ y 3 (point_of self.old.insts.items)
            else point_of self.old.insts.items)) }
        ensures count { OnOk result (length self.new.insts.items ≡ length self.old.insts.items) }
        ensures stepped { OnOk result ((q : PlainProcs) → StateInvariant q self.old → LaterByTrail q q self.old self.new) }
    {
        let inst = self.inst(y);
        if self.is_state(y) {
            self.set(y, DEAD)?;
            self.set(x, inst)?;
            return Ok(());
        }
        self.set(x, inst)?;
        Ok(())
    }

    /// An equation of a variable and a constant.
    pub fn constant(
        &mut self,
        alloc: Global,
        procs: &Procs,
        x: u32,
        value: &Value,
    ) -> Result<Part, Failed>
        requires stands { StateInvariant procs.now self.old }
        requires variable { x < length self.old.insts.items }
        ensures answer { (declared : ℕ → List Declared) (outside : List ℕ)
            → Answers (tried declared (Is x (plain_value value.now)) outside procs.now self.old)
            procs.now procs.now self.old self.new result }
        ensures alike { IfOk result (FreshAlike (Is x (plain_value value.now)) self.new) }
    {
        let _ = procs;
        let trail = self.trail.len();
        if self.one_is_dead(&[x]) {
            return Err(self.waiting(alloc, &[x]));
        }
        let inst = self.inst(x);
        let value = copy_value(alloc, value)?;
        if is_bound(inst) {
            let goal = Sched::TestConst(x, value);
            let part = self.one(alloc, goal, trail, takes_constants(inst))?;
            return Ok(part);
        }
        self.set(x, GROUND)?;
        let part = self.one(alloc, Sched::Const(x, value), trail, true)?;
        Ok(part)
    }
}
