ghost use Rattle.std.specs.Prelude.{◌≡◌, ℕ, ◌<◌, ◌≤◌, ◌↔◌, false, true, length, get_or, IsTrue, IfOk, OnOk};
ghost use Rattle.mc_insts.specs.code.Cases.{node_has, node_arg, row_has, row_arg};
ghost use Rattle.mc_insts.specs.code.Lists.{Extends, Stands};
ghost use Rattle.mc_insts.specs.code.OverArgs.{over_arg, OverWide};
ghost use Rattle.mc_insts.specs.code.Walks.{node_at, shape_at, scene, Tips, Under, Settled, Covered, Counts, Passed, Visited, Fresh, Below, Within, Proper, low_of, high_of, row_of, arity_of};
ghost use Rattle.mc_insts.specs.declared.triples.Triple.{Triple};
ghost use Rattle.mc_program.specs.Programs.{TypeTerm, Source};
ghost use Rattle.mc_accepted.specs.Inclusion.{Included};
ghost use Rattle.mc_insts.specs.code.Shown.{plain_graph, Distinct, RowsAre};
ghost use Rattle.mc_insts.specs.code.Pushes.{triple_of, NewAmong};
ghost use Rattle.mc_insts.specs.code.Steps.{Refused, Arities, PassedCases, PassedUnion, same_of};

use crate::graph::{Case, InstGraph, Node, Shape, Shapes};
use crate::over::{Over, over_node, over_row};
use crate::triples::{Triple, TripleSet};
use mc_base::Memory;
use std::alloc::Global;

/// Which states a node allows, as a number: none, those with one holder, those with several too, all.
pub(crate) fn marks(node: &Node) -> u32
    ensures { result ≡ Rattle.mc_insts.specs.code.Cases.marks node.now }
{
    match node {
        Node::Free => 0,
        Node::Ground => 2,
        Node::Unique => 1,
        Node::Dead => 3,
        Node::Bound(_) => 0,
    }
}

/// Whether a node allows no more constants and states than another, at a row.
fn tips(low: &Node, high: &Node, row: &Shape) -> bool
    ensures { IsTrue result ↔ Tips low.now high.now row.now }
{
    match row {
        Shape::Constants => marks(low) == 0 || marks(high) > 0,
        Shape::State => marks(low) <= marks(high),
        Shape::Any => marks(low) <= marks(high),
        Shape::Union(_) => true,
    }
}

/// Whether a node is below another at every type, as can be seen from the two alone.
pub(crate) fn under(low: &Node, high: &Node) -> bool
    ensures { IsTrue result ↔ Under low.now high.now }
{
    match low {
        Node::Free => true,
        Node::Ground => marks(high) >= 2,
        Node::Unique => marks(high) >= 1,
        Node::Dead => marks(high) >= 3,
        Node::Bound(_) => false,
    }
}

impl Shapes {
    pub(crate) fn row(&self, r: u32) -> &Shape
        requires { r < length self.now.rows }
        ensures { result.now ≡ shape_at self.now.rows r }
    {
        self.rows.get(r)
    }
}

impl InstGraph {
    pub(crate) fn node(&self, i: u32) -> &Node
        requires { i < length self.now.nodes }
        ensures { result.now ≡ node_at self.now.nodes i }
    {
        self.nodes.get(i)
    }

    /// Whether two insts need no visit.
    fn settled(&self, t: Triple) -> bool
        requires low { t.low < length self.now.nodes }
        requires high { t.high < length self.now.nodes }
        ensures { IsTrue result ↔ Settled self.now.nodes t }
    {
        t.low == t.high || under(self.node(t.low), self.node(t.high))
    }

    /// Puts a triple in, where it needs a visit.
    fn put(&self, t: Triple, seen: &mut TripleSet) -> Result<(), Memory>
        requires low { t.low < length self.now.nodes }
        requires high { t.high < length self.now.nodes }
        ensures extends { Extends seen.old seen.new }
        ensures covered { OnOk result (Covered self.now.nodes seen.new t) }
        ensures new { OnOk result ((m : ℕ) (u : Triple) → length seen.old ≤ m → Stands seen.new m u → t ≡ u) }
    {
        if self.settled(t) {
            return Ok(());
        }
        seen.insert(t)?;
        Ok(())
    }

    /// Puts in the triples of the first n arguments, where they need a visit.
    fn push_all(
        &self,
        lows: &Over,
        highs: &Over,
        types: &Over,
        n: u32,
        seen: &mut TripleSet,
    ) -> Result<(), Memory>
        requires lows_wide { OverWide lows.now n }
        requires highs_wide { OverWide highs.now n }
        requires types_wide { OverWide types.now n }
        requires lows_there { (k : ℕ) → k < n → over_arg lows.now k < length self.now.nodes }
        requires highs_there { (k : ℕ) → k < n → over_arg highs.now k < length self.now.nodes }
        ensures extends { Extends seen.old seen.new }
        ensures covered { OnOk result ((k : ℕ) → k < n → Covered self.now.nodes seen.new (triple_of lows.now highs.now types.now k)) }
        ensures new { OnOk result (NewAmong (triple_of lows.now highs.now types.now) n seen.old seen.new) }
    {
        for k in 0..n {
            let t = Triple {
                low: lows.argument(k),
                high: highs.argument(k),
                row: types.argument(k),
            };
            self.put(t, seen)?;
        }
        Ok(())
    }

    /// The arguments of one constructor: puts in their triples where it counts, and tells whether the second inst
    /// lists it then.
    fn step_case(
        &self,
        shapes: &Shapes,
        functor: u32,
        arity: u32,
        t: Triple,
        seen: &mut TripleSet,
    ) -> Result<bool, Memory>
        requires proper { Proper (scene self.now shapes.now) }
        requires within { Within (scene self.now shapes.now) t }
        requires arity { arity ≡ arity_of (scene self.now shapes.now) functor }
        ensures extends { Extends seen.old seen.new }
        ensures fresh { OnOk result (Fresh (scene self.now shapes.now) t seen.old seen.new) }
        ensures passed { IfOk result (λ b. b ≡ true → Counts (scene self.now shapes.now) t functor → Passed (scene self.now shapes.now) seen.new t functor) }
        ensures refused { IfOk result (λ b. b ≡ false → Refused (scene self.now shapes.now) t) }
    {
        let Some(lows) = over_node(self.node(t.low), t.low, functor) else {
            return Ok(true);
        };
        let Some(types) = over_row(shapes.row(t.row), t.row, shapes.known, functor) else {
            return Ok(true);
        };
        let Some(highs) = over_node(self.node(t.high), t.high, functor) else {
            return Ok(false);
        };
        self.push_all(&lows, &highs, &types, arity, seen)?;
        Ok(true)
    }

    /// The same for the constructors of these cases, until one is refused.
    fn step_cases(
        &self,
        shapes: &Shapes,
        cases: &[Case],
        t: Triple,
        seen: &mut TripleSet,
    ) -> Result<bool, Memory>
        requires proper { Proper (scene self.now shapes.now) }
        requires within { Within (scene self.now shapes.now) t }
        requires arities { Arities (scene self.now shapes.now) cases.now }
        ensures extends { Extends seen.old seen.new }
        ensures fresh { OnOk result (Fresh (scene self.now shapes.now) t seen.old seen.new) }
        ensures passed { IfOk result (λ b. b ≡ true → PassedCases (scene self.now shapes.now) seen.new t cases.now (length cases.now)) }
        ensures refused { IfOk result (λ b. b ≡ false → Refused (scene self.now shapes.now) t) }
    {
        for case in cases {
            if !self.step_case(shapes, case.functor, case.args.len(), t, seen)? {
                return Ok(false);
            }
        }
        Ok(true)
    }

    /// The same for the constructors of a row, where the first inst is a builtin one.
    fn step_types(
        &self,
        shapes: &Shapes,
        row: &Shape,
        t: Triple,
        seen: &mut TripleSet,
    ) -> Result<bool, Memory>
        requires proper { Proper (scene self.now shapes.now) }
        requires within { Within (scene self.now shapes.now) t }
        requires row { row.now ≡ row_of (scene self.now shapes.now) t }
        ensures extends { Extends seen.old seen.new }
        ensures fresh { OnOk result (Fresh (scene self.now shapes.now) t seen.old seen.new) }
        ensures passed { IfOk result (λ b. b ≡ true → PassedUnion (scene self.now shapes.now) seen.new t (row_of (scene self.now shapes.now) t)) }
        ensures refused { IfOk result (λ b. b ≡ false → Refused (scene self.now shapes.now) t) }
    {
        match row {
            Shape::Constants => Ok(true),
            Shape::State => Ok(true),
            Shape::Any => Ok(true),
            Shape::Union(cases) => self.step_cases(shapes, cases.as_slice(), t, seen),
        }
    }

    /// Visits a triple: puts in what stands at its arguments, where it needs a visit, and tells whether the first inst
    /// allows no more than the second here.
    fn step(&self, shapes: &Shapes, t: Triple, seen: &mut TripleSet) -> Result<bool, Memory>
        requires proper { Proper (scene self.now shapes.now) }
        requires within { Within (scene self.now shapes.now) t }
        requires there { Covered self.now.nodes seen.old t }
        ensures extends { Extends seen.old seen.new }
        ensures fresh { OnOk result (Fresh (scene self.now shapes.now) t seen.old seen.new) }
        ensures visited { IfOk result (λ b. b ≡ true → Visited (scene self.now shapes.now) seen.new t) }
        ensures refused { IfOk result (λ b. b ≡ false → Below (scene self.now shapes.now) t → ⊥) }
    {
        let low = self.node(t.low);
        let row = shapes.row(t.row);
        if !tips(low, self.node(t.high), row) {
            return Ok(false);
        }
        match low {
            Node::Free => Ok(true),
            Node::Bound(cases) => self.step_cases(shapes, cases.as_slice(), t, seen),
            Node::Ground => self.step_types(shapes, row, t, seen),
            Node::Unique => self.step_types(shapes, row, t, seen),
            Node::Dead => self.step_types(shapes, row, t, seen),
        }
    }

    /// Whether the first inst is below the second at a row of types.
    pub fn below(
        &self,
        alloc: Global,
        i: u32,
        j: u32,
        r: u32,
        shapes: &Shapes,
    ) -> Result<bool, Memory>
        requires proper { Proper (scene self.now shapes.now) }
        requires low { i < length self.now.nodes }
        requires high { j < length self.now.nodes }
        requires row { r < length shapes.now.rows }
        ensures { IfOk result (λ b. IsTrue b ↔ Below (scene self.now shapes.now) (same_of i j r)) }
    {
        let root = Triple {
            low: i,
            high: j,
            row: r,
        };
        let mut seen = TripleSet::new(alloc);
        self.put(root, &mut seen)?;
        let mut next = 0;
        while let Some(t) = seen.get(next) {
            if !self.step(shapes, t, &mut seen)? {
                return Ok(false);
            }
            next += 1;
        }
        Ok(true)
    }

    /// Whether the first inst is included in the second at the type of a row.
    pub fn includes(
        &self,
        alloc: Global,
        i: u32,
        j: u32,
        r: u32,
        shapes: &Shapes,
    ) -> Result<bool, Memory>
        requires proper { Proper (scene self.now shapes.now) }
        requires distinct { Distinct self.now.functors }
        requires low { i < length self.now.nodes }
        requires high { j < length self.now.nodes }
        requires row { r < length shapes.now.rows }
        ensures { IfOk result (λ b. (P : Source) (type : ℕ → TypeTerm) → RowsAre P (scene self.now shapes.now) type → IsTrue b ↔ Included P (plain_graph self.now.functors self.now.nodes) i j (type r)) }
    {
        match (self.node(i), self.node(j)) {
            (Node::Free, Node::Free) => Ok(true),
            (Node::Free, _) => Ok(false),
            (_, Node::Free) => Ok(false),
            (_, Node::Dead) => Ok(true),
            (Node::Dead, _) => Ok(false),
            (_, _) => self.below(alloc, i, j, r, shapes),
        }
    }
}
