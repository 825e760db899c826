ghost use Rattle.std.specs.Prelude.{◌≡◌, ◌<◌, ◌∷◌, [], ◌||◌, ℕ, List, length, map, get_or, not, nat_eq, true, Some, IfOk, OnOk, OnErr};
ghost use Rattle.std.specs.List.{list_any};
ghost use Rattle.mc_program.specs.Programs.{TypeTerm};
ghost use Rattle.mc_model.specs.Flat.{Made};
ghost use Rattle.mc_model.specs.Stream.{is_bound};
ghost use Rattle.mc_model.specs.PlainGoals.{plain_node};
ghost use Rattle.mc_model.specs.Scheduled.{Take, Build, nodes, node_then, no_nodes};
ghost use Rattle.mc_accepted.specs.Arranged.{Declared, take, took, one, built, changing};
ghost use Rattle.mc_accepted.specs.NodeOracle.{NodeOracle, of_nodes, other_node};
ghost use Rattle.mc_accepted.specs.Ordered.{is_state};
ghost use Rattle.mc_insts.specs.Graphs.{count_of};
ghost use Rattle.mc_procs.specs.Named.{NumbersBelow};
ghost use Rattle.mc_procs.specs.Procedures.{PlainProcs, source_of};
ghost use Rattle.mc_mode_state.specs.Nodes.{type_in};
ghost use Rattle.mc_mode_state.specs.States.{point_of, TrailWithin, TrailRestores};
ghost use Rattle.mc_mode_state.specs.Agreeing.{OracleAgrees, StateInvariant, LaterByTrail, OnlyGrown};
ghost use Rattle.mc_mode_state.specs.Answers.{tried, IsWaiting, Ran, Answers, FreshAlike, end_of};
ghost use Rattle.mc_mode_state.specs.declared.state.State.{State};
ghost use Rattle.mc_mode_state.specs.code.Applying.{TestsAgree};
ghost use Rattle.mc_mode_state.specs.code.Taking.{take_each};

use crate::asking::{DEAD, is_bound};
use crate::fault::Failed;
use crate::part::Part;
use crate::state::State;
use mc_base::{Memory, Row};
use mc_model::inst::InstId;
use mc_model::sched::Sched;
use mc_procs::Procs;
use std::alloc::Global;

/// A variable before others.
fn before(alloc: Global, x: u32, ys: &[u32]) -> Result<Vec<u32>, Memory>
    ensures { IfOk result (λ xs. xs.items ≡ x ∷ ys.now) }
{
    let mut xs = Vec::with_capacity(alloc, 1)?;
    xs.push(x)?;
    xs.extend_from_slice(ys)?;
    Ok(xs)
}

/// A row of variables.
pub(crate) fn row_of(alloc: Global, xs: &[u32]) -> Result<Row<u32>, Memory>
    ensures { IfOk result (λ row. row ≡ xs.now) }
{
    if xs.is_empty() {
        return Ok(Row::new(alloc));
    }
    let row = Row::of(Vec::from_slice(alloc, xs)?)?;
    Ok(row)
}

impl State {
    /// Whether a variable or one of these is dead.
    fn one_dies(&self, x: u32, ys: &[u32]) -> bool
        requires { NumbersBelow (length self.now.insts.items) (x ∷ ys.now) }
        ensures { result ≡ list_any (λ z. nat_eq (point_of self.now.insts.items z) 3) (x ∷ ys.now) }
    {
        self.inst(x) == DEAD || self.one_is_dead(ys)
    }

    /// The fault of an atom over a variable and others that waits.
    fn waiting_on(&self, alloc: Global, x: u32, ys: &[u32]) -> Failed
        requires { NumbersBelow (length self.now.insts.items) (x ∷ ys.now) }
        ensures { IsWaiting (x ∷ ys.now) (point_of self.now.insts.items) result }
    {
        match before(alloc, x, ys) {
            Ok(xs) => self.waiting(alloc, xs.as_slice()),
            Err(_) => Failed::Memory,
        }
    }

    /// An equation of a variable and a constructor over variables.
    #[tactic(auto, using(crate::proofs::Growths::refused_here, crate::proofs::Growths::refused_by, crate::proofs::Growths::refused_stepped, crate::proofs::Growths::refused_after))]
    pub fn made(
        &mut self,
        alloc: Global,
        procs: &mut Procs,
        x: u32,
        symbol: u32,
        ys: &[u32],
    ) -> Result<Part, Failed>
        requires stands { StateInvariant procs.old self.old }
        requires variables { NumbersBelow (length self.old.insts.items) (x ∷ ys.now) }
        requires symbol { symbol < length procs.old.program.symbols }
        requires arity { length ys.now ≡ ((source_of procs.old).symbols symbol).name.arity }
        ensures answer { (declared : ℕ → List Declared) (outside : List ℕ)
            → Answers (tried declared (Made x symbol ys.now) outside procs.old self.old) procs.old
            procs.new self.old self.new result }
        ensures alike { IfOk result (FreshAlike (Made x symbol ys.now) self.new) }
        ensures kept { OnErr result (OnlyGrown procs.old procs.new) }
    {
        if self.one_dies(x, ys) {
            return Err(self.waiting_on(alloc, x, ys));
        }
        if is_bound(self.inst(x)) {
            let part = self.take(alloc, procs, x, symbol, ys)?;
            return Ok(part);
        }
        if self.one_is_free_or_state(ys) {
            return Err(self.waiting_on(alloc, x, ys));
        }
        let part = self.build(alloc, procs, x, symbol, ys)?;
        Ok(part)
    }

    /// A bound variable is taken apart.
    #[tactic(auto, using(crate::proofs::Growths::refused_here, crate::proofs::Growths::refused_by, crate::proofs::Growths::refused_stepped, crate::proofs::Growths::refused_after))]
    fn take(
        &mut self,
        alloc: Global,
        procs: &mut Procs,
        x: u32,
        symbol: u32,
        ys: &[u32],
    ) -> Result<Part, Memory>
        requires stands { StateInvariant procs.old self.old }
        requires variables { NumbersBelow (length self.old.insts.items) (x ∷ ys.now) }
        requires symbol { symbol < length procs.old.program.symbols }
        requires arity { length ys.now ≡ ((source_of procs.old).symbols symbol).name.arity }
        ensures ran { IfOk result (λ part. (declared : ℕ → List Declared)
            → Ran (λ C T. take (of_nodes C) (source_of procs.old) declared T x symbol ys.now
            (length self.old.insts.items) (point_of self.old.insts.items)
            (C.narrowed (point_of self.old.insts.items x) symbol))
            procs.old procs.new self.old self.new part) }
        ensures alike { IfOk result (TestsAgree self.new) }
        ensures kept { OnErr result (OnlyGrown procs.old procs.new) }
    {
        let trail = self.trail.len();
        match procs.narrow(alloc, self.inst(x), symbol)? {
            None => {
                let part = self.taking(alloc, x, symbol, ys, trail, false)?;
                Ok(part)
            }
            Some(insts) => {
                self.take_as(alloc, procs, x, symbol, ys, insts.as_slice())?;
                let part = self.taking(alloc, x, symbol, ys, trail, true)?;
                Ok(part)
            }
        }
    }

    /// The goal that takes a variable apart, with what was changed since the trail had this length.
    fn taking(
        &self,
        alloc: Global,
        x: u32,
        symbol: u32,
        ys: &[u32],
        trail: usize,
        reachable: bool,
    ) -> Result<Part, Memory>
        requires { TrailWithin (length self.now.insts.items) self.now.trail.items }
        ensures goals { IfOk result (λ part. (s : State) → TrailRestores s self.now
            → length s.trail.items ≡ trail
            → nodes (map plain_node part.goals.items) ≡ node_then
            (changing other_node (length self.now.insts.items) (point_of s.insts.items)
            (end_of reachable self.now) (Take x symbol ys.now)) no_nodes) }
        ensures reachable { IfOk result (λ part. part.reachable ≡ reachable) }
        ensures freshened { IfOk result (λ part. part.freshened.items ≡ []) }
    {
        let row = row_of(alloc, ys)?;
        let part = self.one(alloc, Sched::Take(x, symbol, row), trail, reachable)?;
        Ok(part)
    }

    /// A variable is taken apart, where these are the insts of the constructor's arguments.
    #[tactic(auto, using(crate::proofs::Growths::refused_here, crate::proofs::Growths::refused_by, crate::proofs::Growths::refused_stepped, crate::proofs::Growths::refused_after))]
    fn take_as(
        &mut self,
        alloc: Global,
        procs: &mut Procs,
        x: u32,
        symbol: u32,
        ys: &[u32],
        insts: &[InstId],
    ) -> Result<(), Memory>
        requires stands { StateInvariant procs.old self.old }
        requires variables { NumbersBelow (length self.old.insts.items) (x ∷ ys.now) }
        requires symbol { symbol < length procs.old.program.symbols }
        requires arity { length insts.now ≡ ((source_of procs.old).symbols symbol).name.arity }
        requires many { length insts.now ≡ length ys.now }
        requires insts { (n : ℕ) → n < length insts.now → get_or insts.now n 0 < count_of procs.old.insts }
        ensures took { OnOk result ((declared : ℕ → List Declared) (C : NodeOracle) (T : ℕ → TypeTerm)
            → OracleAgrees procs.new self.new C T
            → took (of_nodes C) (source_of procs.old) declared T x symbol ys.now insts.now
            (length self.old.insts.items) (point_of self.old.insts.items) (C.over symbol insts.now)
            ≡ one (of_nodes C) (point_of self.old.insts.items) (Take x symbol ys.now)
            (Some (point_of self.new.insts.items)) (length self.old.insts.items)) }
        ensures stepped { OnOk result (LaterByTrail procs.old procs.new self.old self.new) }
        ensures count { OnOk result (length self.new.insts.items ≡ length self.old.insts.items) }
        ensures kept { OnErr result (OnlyGrown procs.old procs.new) }
    {
        let inst = self.over(alloc, procs, symbol, insts)?;
        self.set(x, inst)?;
        self.take_each(ys, insts)?;
        Ok(())
    }

    /// Free variables of a deconstruction get the insts of the constructor's arguments.
    fn take_each(&mut self, ys: &[u32], insts: &[InstId]) -> Result<(), Memory>
        requires variables { NumbersBelow (length self.old.insts.items) ys.now }
        requires many { length insts.now ≡ length ys.now }
        ensures point { OnOk result (point_of self.new.insts.items
            ≡ take_each ys.now insts.now (point_of self.old.insts.items)) }
        ensures stepped { OnOk result ((q : PlainProcs) → StateInvariant q self.old
            → ((n : ℕ) → n < length insts.now → get_or insts.now n 0 < count_of q.insts)
            → LaterByTrail q q self.old self.new) }
        ensures count { OnOk result (length self.new.insts.items ≡ length self.old.insts.items) }
    {
        for k in 0..ys.len() {
            self.take_one(ys[k], insts[k])?;
        }
        Ok(())
    }

    fn take_one(&mut self, y: u32, inst: InstId) -> Result<(), Memory>
        requires { y < length self.old.insts.items }
        ensures point { OnOk result (point_of self.new.insts.items
            ≡ take_each (y ∷ []) (inst ∷ []) (point_of self.old.insts.items)) }
        ensures stepped { OnOk result ((q : PlainProcs) → StateInvariant q self.old
            → inst < count_of q.insts → LaterByTrail q q self.old self.new) }
        ensures count { OnOk result (length self.new.insts.items ≡ length self.old.insts.items) }
    {
        if is_bound(self.inst(y)) {
            return Ok(());
        }
        self.set(y, inst)?;
        Ok(())
    }

    /// Whether one of these variables is free, or a state of io.
    fn one_is_free_or_state(&self, ys: &[u32]) -> bool
        requires insts { NumbersBelow (length self.now.insts.items) ys.now }
        requires types { NumbersBelow (length self.now.types.items) ys.now }
        ensures { result ≡ list_any (λ y. not (is_bound (point_of self.now.insts.items y))
            || is_state (type_in self.now.types.items y)) ys.now }
    {
        for y in ys {
            if !is_bound(self.inst(*y)) || self.is_state(*y) {
                return true;
            }
        }
        false
    }

    /// The insts of variables.
    pub fn insts_at(&self, alloc: Global, xs: &[u32]) -> Result<Vec<InstId>, Memory>
        requires { NumbersBelow (length self.now.insts.items) xs.now }
        ensures { IfOk result (λ found. found.items ≡ map (point_of self.now.insts.items) xs.now) }
    {
        let mut found = Vec::with_capacity(alloc, xs.len())?;
        for x in xs {
            found.push(self.inst(*x))?;
        }
        Ok(found)
    }

    /// A free variable gets a constructor over bound ones.
    #[tactic(auto, using(crate::proofs::Growths::refused_here, crate::proofs::Growths::refused_by, crate::proofs::Growths::refused_stepped, crate::proofs::Growths::refused_after))]
    fn build(
        &mut self,
        alloc: Global,
        procs: &mut Procs,
        x: u32,
        symbol: u32,
        ys: &[u32],
    ) -> Result<Part, Memory>
        requires stands { StateInvariant procs.old self.old }
        requires variables { NumbersBelow (length self.old.insts.items) (x ∷ ys.now) }
        requires symbol { symbol < length procs.old.program.symbols }
        requires arity { length ys.now ≡ ((source_of procs.old).symbols symbol).name.arity }
        ensures ran { IfOk result (λ part. (declared : ℕ → List Declared)
            → Ran (λ C T. built (of_nodes C) (source_of procs.old) declared T x symbol ys.now
            (length self.old.insts.items) (point_of self.old.insts.items)
            (C.over symbol (map (point_of self.old.insts.items) ys.now)))
            procs.old procs.new self.old self.new part) }
        ensures alike { IfOk result (TestsAgree self.new) }
        ensures kept { OnErr result (OnlyGrown procs.old procs.new) }
    {
        let trail = self.trail.len();
        let inst = self.over_these(alloc, procs, symbol, ys)?;
        self.set(x, inst)?;
        let part = self.building(alloc, x, symbol, ys, trail)?;
        Ok(part)
    }

    /// The inst of a constructor over variables.
    #[tactic(auto, using(crate::proofs::Growths::refused_here, crate::proofs::Growths::refused_by, crate::proofs::Growths::refused_stepped, crate::proofs::Growths::refused_after))]
    fn over_these(
        &mut self,
        alloc: Global,
        procs: &mut Procs,
        symbol: u32,
        ys: &[u32],
    ) -> Result<InstId, Memory>
        requires stands { StateInvariant procs.old self.old }
        requires variables { NumbersBelow (length self.old.insts.items) ys.now }
        requires symbol { symbol < length procs.old.program.symbols }
        requires arity { length ys.now ≡ ((source_of procs.old).symbols symbol).name.arity }
        ensures found { IfOk result (λ node. (C : NodeOracle) (T : ℕ → TypeTerm)
            → OracleAgrees procs.new self.new C T
            → C.over symbol (map (point_of self.old.insts.items) ys.now) ≡ Some node) }
        ensures there { IfOk result (λ node. node < count_of procs.new.insts) }
        ensures insts { OnOk result (self.new.insts ≡ self.old.insts) }
        ensures stepped { OnOk result (LaterByTrail procs.old procs.new self.old self.new) }
        ensures kept { OnErr result (OnlyGrown procs.old procs.new) }
    {
        let insts = self.insts_at(alloc, ys)?;
        let inst = self.over(alloc, procs, symbol, &insts)?;
        Ok(inst)
    }

    /// The goal that gives a variable a constructor, with what was changed since the trail had this length.
    fn building(
        &self,
        alloc: Global,
        x: u32,
        symbol: u32,
        ys: &[u32],
        trail: usize,
    ) -> Result<Part, Memory>
        requires { TrailWithin (length self.now.insts.items) self.now.trail.items }
        ensures goals { IfOk result (λ part. (s : State) → TrailRestores s self.now
            → length s.trail.items ≡ trail
            → nodes (map plain_node part.goals.items) ≡ node_then
            (changing other_node (length self.now.insts.items) (point_of s.insts.items)
            (end_of true self.now) (Build x symbol ys.now)) no_nodes) }
        ensures reachable { IfOk result (λ part. part.reachable ≡ true) }
        ensures freshened { IfOk result (λ part. part.freshened.items ≡ []) }
    {
        let row = row_of(alloc, ys)?;
        let part = self.one(alloc, Sched::Build(x, symbol, row), trail, true)?;
        Ok(part)
    }
}
