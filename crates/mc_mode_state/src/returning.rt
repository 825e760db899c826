ghost use Rattle.std.specs.Prelude.{◌≡◌, length};
ghost use Rattle.mc_procs.specs.Procedures.{PlainProcs};
ghost use Rattle.mc_mode_state.specs.States.{point_of, snapshot_of, TrailWithin, SameState, SameLengths};
ghost use Rattle.mc_mode_state.specs.Agreeing.{StateInvariant, StateExtends, LaterByTrail};
ghost use Rattle.mc_mode_state.specs.declared.state.State.{State};

use crate::state::{Snapshot, State};

impl State {
    /// Gives variables back the insts of a moment, as after a negation and between branches. New variables stay, and are
    /// free.
    pub fn rewind(&mut self, mark: Snapshot)
        requires trail { TrailWithin (length self.old.insts.items) self.old.trail.items }
        ensures point { (q r : PlainProcs) (s : State) → LaterByTrail q r s self.old → mark ≡ snapshot_of s
            → point_of self.new.insts.items ≡ point_of s.insts.items }
        ensures count { length self.new.insts.items ≡ length self.old.insts.items }
        ensures stepped { (q r : PlainProcs) (s : State) → StateInvariant q s → LaterByTrail q r s self.old
            → mark ≡ snapshot_of s → LaterByTrail q r s self.new }
        ensures outside { self.new.outside ≡ self.old.outside }
        ensures types { self.new.types ≡ self.old.types }
        ensures nodes { self.new.nodes ≡ self.old.nodes }
    {
        self.back(mark.trail);
    }

    /// Goes back to a moment after a fault: all is as it was then, but for nodes that were found.
    pub fn abandon(&mut self, mark: Snapshot)
        requires trail { TrailWithin (length self.old.insts.items) self.old.trail.items }
        requires even { SameLengths self.old }
        ensures same { (q r : PlainProcs) (s : State) → StateInvariant q s → LaterByTrail q r s self.old
            → mark ≡ snapshot_of s → SameState s self.new }
        ensures moved { (q r : PlainProcs) (s : State) → StateInvariant q s → LaterByTrail q r s self.old
            → mark ≡ snapshot_of s → StateExtends q r s self.new }
        ensures nodes { self.new.nodes ≡ self.old.nodes }
    {
        self.undo(mark);
    }
}
