ghost use Rattle.std.specs.Prelude.{◌≡◌, ◌<◌, ℕ, List, [], length, get_or, IfOk, OnErr};
ghost use Rattle.mc_program.specs.Programs.{TypeTerm, Source};
ghost use Rattle.mc_model.specs.Lists.{is_in};
ghost use Rattle.mc_accepted.specs.Arranged.{Declared, entry, first_unmet, with_inst};
ghost use Rattle.mc_accepted.specs.NodeOracle.{NodeOracle, of_nodes};
ghost use Rattle.mc_accepted.specs.Ordered.{times_in};
ghost use Rattle.mc_insts.specs.Graphs.{count_of};
ghost use Rattle.mc_procs.specs.Fitting.{AllFit};
ghost use Rattle.mc_procs.specs.Named.{NumbersBelow};
ghost use Rattle.mc_procs.specs.Procedures.{PlainProcs, source_of};
ghost use Rattle.mc_mode_state.specs.Nodes.{NodesAre};
ghost use Rattle.mc_mode_state.specs.States.{point_of, is_outside};
ghost use Rattle.mc_mode_state.specs.Agreeing.{OracleAgrees, StateInvariant, LaterByTrail, OnlyGrown};
ghost use Rattle.mc_mode_state.specs.code.Entries.{entered};

use crate::nodes::Nodes;
use crate::state::{State, count_up};
use mc_base::{Memory, Row};
use mc_model::inst::InstId;
use mc_procs::Procs;
use mc_program::ty::Ty;
use std::alloc::Global;

/// So many zeros: free insts, or counts of nothing.
fn zeros(alloc: Global, many: usize) -> Result<Vec<u32>, Memory>
    ensures many { IfOk result (λ row. length row.items ≡ many) }
    ensures zeros { IfOk result (λ row. (x : ℕ) → get_or row.items x 0 ≡ 0) }
{
    let mut row = Vec::new(alloc);
    while row.len() < many {
        row.push(0)?;
    }
    Ok(row)
}

fn put(insts: &mut Vec<InstId>, x: u32, i: InstId)
    requires { x < length insts.old.items }
    ensures point { point_of insts.new.items ≡ with_inst ℕ x i (point_of insts.old.items) }
    ensures count { length insts.new.items ≡ length insts.old.items }
{
    insts[x as usize] = i;
}

/// The insts at the beginning of a clause: those of its head's variables, by their first places; every other is free.
fn first_insts(
    alloc: Global,
    many: usize,
    head: &[u32],
    first: &[InstId],
) -> Result<Vec<InstId>, Memory>
    requires head { NumbersBelow many head.now }
    requires arguments { length first.now ≡ length head.now }
    ensures many { IfOk result (λ insts. length insts.items ≡ many) }
    ensures point { IfOk result (λ insts. point_of insts.items ≡ entered head.now first.now) }
{
    let mut insts = zeros(alloc, many)?;
    let mut k = head.len();
    while k > 0 {
        k -= 1;
        put(&mut insts, head[k], first[k]);
    }
    Ok(insts)
}

/// How often each of so many variables stands in a list.
fn counts_of(alloc: Global, many: usize, vars: &[u32]) -> Result<Vec<u32>, Memory>
    requires { NumbersBelow many vars.now }
    ensures many { IfOk result (λ row. length row.items ≡ many) }
    ensures counts { IfOk result (λ row. (x : ℕ) → get_or row.items x 0 ≡ times_in x vars.now) }
{
    let mut row = zeros(alloc, many)?;
    count_up(&mut row, vars)?;
    Ok(row)
}

/// The insts of a clause's variables at its beginning, and how often each occurs outside.
#[derive(Drop)]
struct AtEntry {
    insts: Vec<InstId>,
    outside: Vec<u32>,
}

/// Both of them: the insts by the first places of the head, which alone occurs outside. They are made before a state
/// holds anything: much that is in hand across a `?` is dear to prove.
fn at_entry(alloc: Global, many: usize, head: &[u32], first: &[InstId]) -> Result<AtEntry, Memory>
    requires head { NumbersBelow many head.now }
    requires arguments { length first.now ≡ length head.now }
    ensures insts { IfOk result (λ entry. length entry.insts.items ≡ many) }
    ensures point { IfOk result (λ entry. point_of entry.insts.items ≡ entered head.now first.now) }
    ensures outside { IfOk result (λ entry. length entry.outside.items ≡ many) }
    ensures counts { IfOk result (λ entry. (x : ℕ)
        → get_or entry.outside.items x 0 ≡ times_in x head.now) }
{
    let insts = first_insts(alloc, many, head, first)?;
    let outside = counts_of(alloc, many, head)?;
    Ok(AtEntry { insts, outside })
}

impl State {
    /// The beginning of a clause whose variables have these types: the arguments of its head have the first insts of a
    /// mode, every other variable is free, and the head alone occurs outside. The nodes are those that were found so far.
    pub fn begin(
        alloc: Global,
        nodes: Nodes,
        types: Vec<Ty>,
        head: &[u32],
        first: &[InstId],
    ) -> Result<State, Memory>
        requires head { NumbersBelow (length types.items) head.now }
        requires arguments { length first.now ≡ length head.now }
        ensures point { IfOk result (λ s. (P : Source) (declared : ℕ → List Declared) (C : NodeOracle)
            (T : ℕ → TypeTerm) → entry (of_nodes C) P declared T head.now first.now ≡ point_of s.insts.items) }
        ensures types { IfOk result (λ s. s.types ≡ types) }
        ensures trail { IfOk result (λ s. s.trail.items ≡ []) }
        ensures outside { IfOk result (λ s. (x : ℕ)
            → is_outside s.outside.items x ≡ is_in x head.now) }
        ensures stands { IfOk result (λ s. (q : PlainProcs) → AllFit q
            → NumbersBelow (count_of q.insts) first.now → NodesAre (source_of q) q.insts nodes
            → StateInvariant q s) }
    {
        let many = types.as_slice().len();
        let entry = at_entry(alloc, many, head, first)?;
        let AtEntry { insts, outside } = entry;
        Ok(State {
            insts,
            trail: Vec::new(alloc),
            outside,
            types,
            nodes,
        })
    }

    /// The place of the first argument whose final inst isn't met.
    #[tactic(auto, using(crate::proofs::Growths::refused_here, crate::proofs::Growths::refused_by, crate::proofs::Growths::refused_stepped, crate::proofs::Growths::refused_after))]
    pub fn unmet(
        &self,
        alloc: Global,
        procs: &mut Procs,
        head: &Row<u32>,
        last: &Row<InstId>,
    ) -> Result<Option<u32>, Memory>
        requires stands { StateInvariant procs.old self.now }
        requires head { NumbersBelow (length self.now.insts.items) head.now }
        requires last { NumbersBelow (count_of procs.old.insts) last.now }
        requires arguments { length last.now ≡ length head.now }
        ensures unmet { IfOk result (λ place. (declared : ℕ → List Declared) (C : NodeOracle)
            (T : ℕ → TypeTerm) → OracleAgrees procs.new self.now C T
            → first_unmet (of_nodes C) (source_of procs.old) declared T 0 head.now last.now
            (point_of self.now.insts.items) ≡ place) }
        ensures stepped { IfOk result (λ place. LaterByTrail procs.old procs.new self.now self.now) }
        ensures kept { OnErr result (OnlyGrown procs.old procs.new) }
    {
        for k in 0..head.len() {
            let fits = self.fits(alloc, procs, *head.get(k), *last.get(k))?;
            if !fits {
                return Ok(Some(k));
            }
        }
        Ok(None)
    }
}
