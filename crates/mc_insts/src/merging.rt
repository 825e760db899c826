ghost use Rattle.std.specs.Prelude.{◌≡◌, ◌∷◌, ◌<◌, ℕ, [], length, get_or, take, IfOk, OnOk, OnErr};
ghost use Rattle.mc_program.specs.PlainPrograms.{plain_type, plain_program};
ghost use Rattle.mc_insts.specs.Merging.{StandsForAll, OneIncludesTheOther, EachIs};
ghost use Rattle.mc_insts.specs.code.Lists.{SameElements};
ghost use Rattle.mc_insts.specs.code.TypeRows.{terms, term_at, AllBelow};
ghost use Rattle.mc_insts.specs.code.Pairs.{Stood};

use crate::grow::cut;
use crate::insts::{InstId, Insts};
use crate::pairs::MergedPairs;
use crate::triples::Triple;
use indexmap::IndexSet;
use mc_base::Memory;
use mc_program::program::Program;
use mc_program::ty::Ty;
use std::alloc::Global;

/// The insts of a list, each once, in the order in which they first come. It takes the time of one hash for each.
fn distinct(alloc: Global, insts: &[u32]) -> Result<IndexSet<u32>, Memory>
    ensures { IfOk result (λ once. SameElements once.keys insts.now) }
{
    let mut once = IndexSet::new(alloc);
    for inst in insts {
        once.insert(*inst)?;
    }
    Ok(once)
}

impl Insts {
    ghost use Rattle.mc_insts.specs.Graphs.{graph_of, count_of};
    ghost use Rattle.mc_insts.specs.Growing.{Grown};
    ghost use Rattle.mc_insts.specs.Kept.{AreOf};
    ghost use Rattle.mc_insts.specs.code.Ready.{Ready, Onward};

    /// The least inst above two at a type. Where one of the two includes the other no node is made, and the same two at
    /// the same type make no nodes again. After want of memory the graph is as before.
    pub fn merge(
        &mut self,
        alloc: Global,
        i: InstId,
        j: InstId,
        t: &Ty,
        program: &Program,
    ) -> Result<InstId, Memory>
        requires program { AreOf (plain_program program.now) self.old }
        requires first { i < count_of self.old }
        requires second { j < count_of self.old }
        ensures there { IfOk result (λ k. k < count_of self.new) }
        ensures merged { IfOk result
            (λ k. StandsForAll (plain_program program.now) (graph_of self.new) (i ∷ j ∷ []) k
            (plain_type t.now)) }
        ensures kept { OnOk result
            (OneIncludesTheOther (plain_program program.now) (graph_of self.old) i j (plain_type t.now)
            → count_of self.new ≡ count_of self.old) }
        ensures alike { IfOk result (λ k. i ≡ j → k ≡ i) }
        ensures program { AreOf (plain_program program.now) self.new }
        ensures grown { Grown (plain_program program.now) self.old self.new }
        ensures graph { OnErr result (graph_of self.new ≡ graph_of self.old) }
        ensures count { OnErr result (count_of self.new ≡ count_of self.old) }
    {
        let r = self.row(alloc, t, program)?;
        self.merge_pair(alloc, i, j, r, program)
    }

    /// The least inst above all of these at a type. The distinct ones are merged by halves, so that n insts, m of them
    /// distinct and of one constructor each, take the time of n hashes and of m log m constructors. After want of memory
    /// the graph is as before.
    pub fn merge_all(
        &mut self,
        alloc: Global,
        insts: &[InstId],
        t: &Ty,
        program: &Program,
    ) -> Result<InstId, Memory>
        requires program { AreOf (plain_program program.now) self.old }
        requires some { 0 < length insts.now }
        requires insts { (n : ℕ) → n < length insts.now → get_or insts.now n 0 < count_of self.old }
        ensures there { IfOk result (λ k. k < count_of self.new) }
        ensures merged { IfOk result
            (λ k. StandsForAll (plain_program program.now) (graph_of self.new) insts.now k
            (plain_type t.now)) }
        ensures alike { IfOk result (λ k. (i : ℕ) → EachIs i insts.now → k ≡ i) }
        ensures program { AreOf (plain_program program.now) self.new }
        ensures grown { Grown (plain_program program.now) self.old self.new }
        ensures graph { OnErr result (graph_of self.new ≡ graph_of self.old) }
        ensures count { OnErr result (count_of self.new ≡ count_of self.old) }
    {
        let once = distinct(alloc, insts)?;
        let r = self.row(alloc, t, program)?;
        let count = self.graph.nodes.len();
        match self.merge_halves(alloc, once.as_slice(), r, program) {
            Ok(k) => Ok(k),
            Err(_) => {
                self.forget(alloc, count);
                Err(Memory)
            }
        }
    }

    /// What two insts are merged to at the type of a row: by the table, where they were merged before. An inst merged
    /// with itself is that inst. Where there is no memory for the table, the answer stands all the same.
    fn merge_pair(
        &mut self,
        alloc: Global,
        i: u32,
        j: u32,
        r: u32,
        program: &Program,
    ) -> Result<u32, Memory>
        requires ready { Ready (plain_program program.now) self.old }
        requires first { i < length self.old.graph.nodes }
        requires second { j < length self.old.graph.nodes }
        requires row { r < length self.old.shapes.rows }
        ensures ready { Ready (plain_program program.now) self.new }
        ensures onward { Onward self.old self.new }
        ensures stood { IfOk result
            (λ k. Stood (plain_program program.now) self.new.graph (terms self.new.types)
            (i ∷ j ∷ []) r k) }
        ensures same { OnOk result
            (OneIncludesTheOther (plain_program program.now) (graph_of self.old) i j
            (term_at (terms self.old.types) r)
            → self.new.graph ≡ self.old.graph) }
        ensures alike { IfOk result (λ k. i ≡ j → k ≡ i) }
        ensures err { OnErr result (self.new ≡ self.old) }
    {
        let _ = program;
        if i == j {
            return Ok(i);
        }
        let pair = Triple {
            low: i,
            high: j,
            row: r,
        };
        if let Some(k) = self.pairs.get(pair) {
            return Ok(k);
        }
        let k = self.graph.merge(alloc, i, j, r, &self.shapes)?;
        let _ = self.pairs.put(pair, k);
        Ok(k)
    }

    /// What these insts, of which there is one at least, are merged to at the type of a row.
    fn merge_halves(
        &mut self,
        alloc: Global,
        insts: &[u32],
        r: u32,
        program: &Program,
    ) -> Result<u32, Memory>
        requires ready { Ready (plain_program program.now) self.old }
        requires some { 0 < length insts.now }
        requires there { AllBelow (length self.old.graph.nodes) insts.now }
        requires row { r < length self.old.shapes.rows }
        ensures ready { Ready (plain_program program.now) self.new }
        ensures onward { Onward self.old self.new }
        ensures stood { IfOk result
            (λ k. Stood (plain_program program.now) self.new.graph (terms self.new.types)
            insts.now r k) }
        ensures alike { IfOk result (λ k. (i : ℕ) → EachIs i insts.now → k ≡ i) }
    {
        let n = insts.len();
        if n == 1 {
            return Ok(insts[0]);
        }
        let half = n / 2;
        let i = self.merge_halves(alloc, &insts[..half], r, program)?;
        let j = self.merge_halves(alloc, &insts[half..], r, program)?;
        self.merge_pair(alloc, i, j, r, program)
    }

    /// Drops the nodes from the n-th on, and what pairs were merged to.
    fn forget(&mut self, alloc: Global, n: u32)
        ensures nodes { self.new.graph.nodes ≡ take n self.old.graph.nodes }
        ensures functors { self.new.graph.functors ≡ self.old.graph.functors }
        ensures symbols { self.new.symbols ≡ self.old.symbols }
        ensures types { self.new.types ≡ self.old.types }
        ensures shapes { self.new.shapes ≡ self.old.shapes }
        ensures pairs { self.new.pairs ≡ [] }
    {
        cut(alloc, &mut self.graph.nodes, n);
        self.pairs = MergedPairs::new(alloc);
    }
}
