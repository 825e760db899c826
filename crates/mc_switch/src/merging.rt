ghost use Rattle.std.specs.Prelude.{◌≡◌, ◌<◌, ◌++◌, ℕ, [], List, true, map, All, length, get_or, IfOk, OnOk};
ghost use Rattle.mc_model.specs.Good.{System};
ghost use Rattle.mc_accepted.specs.Ordered.{change_at};
ghost use Rattle.mc_insts.specs.Graphs.{count_of};
ghost use Rattle.mc_procs.specs.VariableTypes.{type_in};
ghost use Rattle.mc_mode_state.specs.Tables.{Entry};
ghost use Rattle.mc_switch.specs.code.Grouping.{AroundFits};
ghost use Rattle.mc_switch.specs.Types.{inst_in};
ghost use Rattle.mc_switch.specs.Kept.{all_are, inst_merged, change_of, kept_by, Extends, AreMerged, Merges, OnlyGrew, Suits};
ghost use Rattle.mc_switch.specs.code.Labels.{plain_opened};
ghost use Rattle.mc_switch.specs.code.Ends.{inst_at_end, insts_at_ends, one_ends, KeepsEnd, ChangesSo};

use crate::context::VariableContext;
use crate::disjunct::Opened;
use mc_base::{Memory, Row};
use mc_mode_state::NodeTable;
use mc_model::inst::InstId;
use mc_procs::Procs;
use mc_program::ty::Ty;
use std::alloc::Global;

/// The insts that variables were merged to, each by the variable and by its insts at the ends, so that the same ends give
/// the same inst.
#[derive(Drop)]
pub struct Merger {
    found: NodeTable,
}

impl Merger {
    /// Nothing was merged yet, which takes no memory.
    pub fn new(alloc: Global) -> Merger
        ensures { result.found ≡ [] }
    {
        Merger {
            found: NodeTable::new(alloc),
        }
    }

    /// The inst of a variable that has these insts at the ends: the one that they all are, or else the least above them.
    fn merged(
        &mut self,
        alloc: Global,
        procs: &mut Procs,
        types: &Row<Ty>,
        x: u32,
        insts: &[InstId],
    ) -> Result<InstId, Memory>
        requires merged { AreMerged procs.old types.now self.old.found }
        requires variable { x < length types.now }
        requires some { 0 < length insts.now }
        requires insts { (n : ℕ) → n < length insts.now → get_or insts.now n 0 < count_of procs.old.insts }
        ensures inst { IfOk result (λ k. (M : List Entry) → Extends self.new.found M → k ≡ inst_merged M x insts.now) }
        ensures there { IfOk result (λ k. k < count_of procs.new.insts) }
        ensures merges { OnOk result (Merges procs.new types.now self.old.found self.new.found) }
        ensures grew { OnlyGrew procs.old procs.new }
    {
        if all_are(insts[0], insts) {
            return Ok(insts[0]);
        }
        match self.found.get(alloc, x, insts)? {
            Some(node) => Ok(node),
            None => {
                let node = procs.merge_all(alloc, insts, types.get(x))?;
                self.found.put(alloc, x, insts, node)?;
                Ok(node)
            }
        }
    }

    /// Puts in what a variable changes to, where it changes.
    fn push_change(
        &mut self,
        alloc: Global,
        procs: &mut Procs,
        around: &VariableContext,
        x: u32,
        disjuncts: &[Opened],
        changes: &mut Vec<(u32, InstId)>,
    ) -> Result<(), Memory>
        requires merged { AreMerged procs.old around.now.types.now self.old.found }
        requires around { AroundFits procs.old around.now }
        requires variable { x < length around.now.types.now }
        requires ends { All (KeepsEnd procs.old around.now) disjuncts.now }
        requires some { one_ends disjuncts.now ≡ true }
        ensures change { OnOk result (ChangesSo procs.old around.now self.new.found disjuncts.now
            (λ M b c es. changes.new.items ≡ changes.old.items ++ change_of M b c es x)) }
        ensures merges { OnOk result (Merges procs.new around.now.types.now self.old.found self.new.found) }
        ensures grew { OnlyGrew procs.old procs.new }
    {
        let from = around.before[x as usize];
        if from == 0 && around.after[x as usize] == 0 {
            return Ok(());
        }
        let insts = insts_at_ends(alloc, from, x, disjuncts)?;
        let to = self.merged(alloc, procs, around.types, x, insts.as_slice())?;
        if to != from {
            changes.push((x, to))?;
        }
        Ok(())
    }

    /// What an arm of several disjuncts changes: each variable that is bound before or after the whole gets the inst that
    /// its insts at the reachable ends are merged to.
    pub(crate) fn changes(
        &mut self,
        alloc: Global,
        procs: &mut Procs,
        around: &VariableContext,
        disjuncts: &[Opened],
    ) -> Result<Row<(u32, InstId)>, Memory>
        requires merged { AreMerged procs.old around.now.types.now self.old.found }
        requires around { AroundFits procs.old around.now }
        requires ends { All (KeepsEnd procs.old around.now) disjuncts.now }
        ensures kept { IfOk result (λ row. (S : System) (M : List Entry) → Suits procs.new S → Extends self.new.found M
            → row ≡ kept_by S (type_in around.now.types.now) M (length around.now.types.now)
            (inst_in around.now.before.now) (inst_in around.now.after.now) (map plain_opened disjuncts.now)) }
        ensures merges { OnOk result (Merges procs.new around.now.types.now self.old.found self.new.found) }
        ensures grew { OnlyGrew procs.old procs.new }
    {
        if !one_ends(disjuncts) {
            return Ok(Row::new(alloc));
        }
        let mut changes = Vec::new(alloc);
        for x in 0..around.types.len() {
            self.push_change(alloc, procs, around, x, disjuncts, &mut changes)?;
        }
        Row::of(changes)
    }
}

/// Whether each inst is this one.
fn all_are(i: InstId, insts: &[InstId]) -> bool
    ensures { result ≡ all_are i insts.now }
{
    for inst in insts {
        if *inst != i {
            return false;
        }
    }
    true
}

/// Whether the point after one of these disjuncts is reachable.
fn one_ends(disjuncts: &[Opened]) -> bool
    ensures { result ≡ one_ends disjuncts.now }
{
    for disjunct in disjuncts {
        if !disjunct.never_ends {
            return true;
        }
    }
    false
}

/// The insts that a variable has at the reachable ends of disjuncts, from the one before them.
fn insts_at_ends(
    alloc: Global,
    from: InstId,
    x: u32,
    disjuncts: &[Opened],
) -> Result<Vec<InstId>, Memory>
    ensures { IfOk result (λ insts. insts.items ≡ insts_at_ends from x disjuncts.now) }
{
    let mut insts = Vec::with_capacity(alloc, disjuncts.len())?;
    for disjunct in disjuncts {
        push_end(from, x, disjunct, &mut insts)?;
    }
    Ok(insts)
}

/// Puts in the inst that a variable has at the end of a disjunct, where that is reachable.
fn push_end(from: InstId, x: u32, disjunct: &Opened, insts: &mut Vec<InstId>) -> Result<(), Memory>
    ensures { OnOk result (insts.new.items ≡ insts.old.items ++ inst_at_end from x disjunct.now) }
{
    if !disjunct.never_ends {
        insts.push(change_at(x, disjunct.goal.changes.as_slice(), from))?;
    }
    Ok(())
}

/// The inst to which a variable changes, or the one that it has.
fn change_at(x: u32, changes: &[(u32, InstId)], from: InstId) -> InstId
    ensures { result ≡ change_at x changes.now from }
{
    for change in changes {
        if change.0 == x {
            return change.1;
        }
    }
    from
}
