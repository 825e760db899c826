ghost use Rattle.std.specs.Prelude.{◌≡◌, ◌<◌, ◌↔◌, ℕ, true, false, length, IsTrue, IfOk, OnOk};
ghost use Rattle.mc_program.specs.Programs.{TypeTerm, Source};
ghost use Rattle.mc_accepted.specs.Tidy.{Tidy};
ghost use Rattle.mc_insts.specs.declared.graph.Shape.TheVariants as kinds;
ghost use Rattle.mc_insts.specs.code.Lists.{Extends, Stands};
ghost use Rattle.mc_insts.specs.code.OverArgs.{OverWide};
ghost use Rattle.mc_insts.specs.code.Pushes.{triple_of, NewAmong};
ghost use Rattle.mc_insts.specs.code.Shown.{plain_graph, Distinct, RowsAre};
ghost use Rattle.mc_insts.specs.code.Steps.{Arities};
ghost use Rattle.mc_insts.specs.code.Walks.{scene, Proper, Within, Counts, Fresh, arity_of, low_of, row_of};
ghost use Rattle.mc_insts.specs.code.TidyWalks.{IsFair, AreSeen, SeenCases, Looked};

use crate::graph::{Case, InstGraph, Node, Shape, Shapes};
use crate::over::{Over, over_node, over_row};
use crate::triples::{Triple, TripleSet};
use mc_base::Memory;
use std::alloc::Global;

/// Whether a node may stand at a row of types: `unique` and `dead` may at io's state alone.
fn is_fair(node: &Node, row: &Shape) -> bool
    ensures { IsTrue result ↔ IsFair node.now row.now }
{
    match node {
        Node::Free => true,
        Node::Ground => true,
        Node::Unique => is_state(row),
        Node::Dead => is_state(row),
        Node::Bound(_) => true,
    }
}

fn is_state(row: &Shape) -> bool
    ensures { IsTrue result ↔ (row.now ≡ kinds.State) }
{
    match row {
        Shape::State => true,
        Shape::Constants => false,
        Shape::Any => false,
        Shape::Union(_) => false,
    }
}

/// Puts in the insts of the first n arguments with the rows of their types.
fn see_all(insts: &Over<'_>, types: &Over<'_>, n: u32, seen: &mut TripleSet) -> Result<(), Memory>
    requires insts { OverWide insts.now n }
    requires types { OverWide types.now n }
    ensures extends { Extends seen.old seen.new }
    ensures seen { OnOk result ((k : ℕ) → k < n → (m : ℕ) × Stands seen.new m (triple_of insts.now insts.now types.now k)) }
    ensures new { OnOk result (NewAmong (triple_of insts.now insts.now types.now) n seen.old seen.new) }
{
    for k in 0..n {
        let inst = insts.argument(k);
        seen.insert(Triple {
            low: inst,
            high: inst,
            row: types.argument(k),
        })?;
    }
    Ok(())
}

impl InstGraph {
    /// Puts in the arguments of a constructor that an inst lists, where it counts at the type.
    fn look_at_case(
        &self,
        shapes: &Shapes,
        functor: u32,
        arity: u32,
        t: Triple,
        seen: &mut TripleSet,
    ) -> Result<(), Memory>
        requires proper { Proper (scene self.now shapes.now) }
        requires within { Within (scene self.now shapes.now) t }
        requires alone { t.low ≡ t.high }
        requires arity { arity ≡ arity_of (scene self.now shapes.now) functor }
        ensures extends { Extends seen.old seen.new }
        ensures fresh { OnOk result (Fresh (scene self.now shapes.now) t seen.old seen.new) }
        ensures seen { OnOk result (Counts (scene self.now shapes.now) t functor → AreSeen (scene self.now shapes.now) seen.new t functor) }
    {
        let Some(insts) = over_node(self.node(t.low), t.low, functor) else {
            return Ok(());
        };
        let Some(types) = over_row(shapes.row(t.row), t.row, shapes.known, functor) else {
            return Ok(());
        };
        see_all(&insts, &types, arity, seen)
    }

    /// The same for all constructors that an inst lists.
    fn look_at_cases(
        &self,
        shapes: &Shapes,
        cases: &[Case],
        t: Triple,
        seen: &mut TripleSet,
    ) -> Result<(), Memory>
        requires proper { Proper (scene self.now shapes.now) }
        requires within { Within (scene self.now shapes.now) t }
        requires alone { t.low ≡ t.high }
        requires arities { Arities (scene self.now shapes.now) cases.now }
        ensures extends { Extends seen.old seen.new }
        ensures fresh { OnOk result (Fresh (scene self.now shapes.now) t seen.old seen.new) }
        ensures seen { OnOk result (SeenCases (scene self.now shapes.now) seen.new t cases.now (length cases.now)) }
    {
        for case in cases {
            self.look_at_case(shapes, case.functor, case.args.len(), t, seen)?;
        }
        Ok(())
    }

    /// Whether an inst may stand at its type; puts in what it lists.
    fn look(&self, shapes: &Shapes, t: Triple, seen: &mut TripleSet) -> Result<bool, Memory>
        requires proper { Proper (scene self.now shapes.now) }
        requires within { Within (scene self.now shapes.now) t }
        requires alone { t.low ≡ t.high }
        ensures extends { Extends seen.old seen.new }
        ensures fresh { OnOk result (Fresh (scene self.now shapes.now) t seen.old seen.new) }
        ensures looked { IfOk result (λ b. b ≡ true → Looked (scene self.now shapes.now) seen.new t) }
        ensures unfair { IfOk result (λ b. b ≡ false → IsFair (low_of (scene self.now shapes.now) t) (row_of (scene self.now shapes.now) t) → ⊥) }
    {
        let node = self.node(t.low);
        if !is_fair(node, shapes.row(t.row)) {
            return Ok(false);
        }
        match node {
            Node::Free => Ok(true),
            Node::Ground => Ok(true),
            Node::Unique => Ok(true),
            Node::Dead => Ok(true),
            Node::Bound(cases) => {
                self.look_at_cases(shapes, cases.as_slice(), t, seen)?;
                Ok(true)
            }
        }
    }

    /// Whether `unique` and `dead` stand at io's state alone, at any depth of an inst at the type of a row: each inst that
    /// is listed is looked at once with each of its types.
    pub fn is_tidy(&self, alloc: Global, i: u32, r: u32, shapes: &Shapes) -> Result<bool, Memory>
        requires proper { Proper (scene self.now shapes.now) }
        requires distinct { Distinct self.now.functors }
        requires inst { i < length self.now.nodes }
        requires row { r < length shapes.now.rows }
        ensures { IfOk result (λ b. (P : Source) (type : ℕ → TypeTerm) → RowsAre P (scene self.now shapes.now) type → IsTrue b ↔ Tidy P (plain_graph self.now.functors self.now.nodes) i (type r)) }
    {
        let root = Triple {
            low: i,
            high: i,
            row: r,
        };
        let mut seen = TripleSet::new(alloc);
        seen.insert(root)?;
        let mut next = 0;
        while let Some(t) = seen.get(next) {
            if !self.look(shapes, t, &mut seen)? {
                return Ok(false);
            }
            next += 1;
        }
        Ok(true)
    }
}
