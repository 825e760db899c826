ghost use Rattle.std.specs.Prelude.{◌≡◌, ℕ, ◌+◌, ◌<◌, ◌≤◌, ◌++◌, ◌∷◌, [], List, map, length, get_or, replicate, IsTrue, IfOk, OnOk, OnErr, MatchOption, true, false};
ghost use Rattle.mc_insts.specs.declared.triples.Triple.{Triple};
ghost use Rattle.mc_insts.specs.declared.graph.Node.TheVariants.{Bound};
ghost use Rattle.mc_insts.specs.code.Lists.{Extends, Stands};
ghost use Rattle.mc_insts.specs.code.Cases.{node_has, row_arg, Rising};
ghost use Rattle.mc_insts.specs.code.Walks.{scene, node_at, functor_at, arity_of, low_of, high_of, row_of, Proper, Within, ProperCases};
ghost use Rattle.mc_insts.specs.code.Formed.{Filled, AllFilled, Formed};
ghost use Rattle.mc_insts.specs.code.OverArgs.{OverWide};
ghost use Rattle.mc_insts.specs.code.Pushes.{joined_of};
ghost use Rattle.mc_insts.specs.code.Shown.{Distinct, plain_graph, RowsAre};
ghost use Rattle.mc_program.specs.Programs.{TypeTerm, Source};
ghost use Rattle.mc_insts.specs.Merging.{OneIncludesTheOther};
ghost use Rattle.mc_insts.specs.code.Answers.{Unkept, IsMerge};
ghost use Rattle.mc_insts.specs.code.Merges.{Widened, Builtins, Done, Refers, Bare, Open, Sound, Both, spread_over, spread_cases, Made, Merges, Fits, top_of, JoinedCases};

use crate::graph::{Case, InstGraph, Node, Shape, Shapes};
use crate::grow::append;
use crate::narrow::repeated;
use crate::over::{Over, over_row};
use crate::triples::{Triple, TripleSet};
use crate::walk::{marks, under};
use mc_base::{Copied, Memory, Row};
use std::alloc::Global;

/// A builtin inst over the constructors of a row.
fn spread(alloc: Global, i: u32, row: &Shape) -> Result<Row<Case>, Memory>
    ensures { IfOk result (λ cases. cases ≡ spread_over i row.now) }
{
    match row {
        Shape::Constants => Ok(Row::new(alloc)),
        Shape::State => Ok(Row::new(alloc)),
        Shape::Any => Ok(Row::new(alloc)),
        Shape::Union(cases) => spread_all(alloc, i, cases.as_slice()),
    }
}

fn spread_all(alloc: Global, i: u32, cases: &[Case]) -> Result<Row<Case>, Memory>
    ensures { IfOk result (λ row. row ≡ map (Rattle.mc_insts.specs.code.Merges.spread i) cases.now) }
{
    let mut out = Vec::new(alloc);
    for case in cases {
        out.push(Case {
            functor: case.functor,
            args: repeated(alloc, i, case.args.len())?,
        })?;
    }
    Row::of(out)
}

fn copy_case(alloc: Global, case: &Case) -> Result<Case, Memory>
    ensures { IfOk result (λ copy. copy ≡ case.now) }
{
    let args = case.args.copied(alloc)?;
    Ok(Case {
        functor: case.functor,
        args,
    })
}

/// The cases of a node at a row: those that it has, or those that are made of a builtin inst.
#[derive(Drop)]
enum Listing<'a> {
    There(&'a Row<Case>),
    Made(Row<Case>),
}

impl<'a> Listing<'a> {
    ghost use Rattle.mc_insts.specs.code.Listings.{listed};

    fn as_slice(&self) -> &[Case]
        ensures { result.now ≡ listed self.now }
    {
        match self {
            Listing::There(cases) => cases.as_slice(),
            Listing::Made(cases) => cases.as_slice(),
        }
    }
}

ghost use Rattle.mc_insts.specs.code.Listings.{listed};

fn cases_of<'a>(alloc: Global, node: &'a Node, i: u32, row: &Shape) -> Result<Listing<'a>, Memory>
    ensures { IfOk result (λ l. listed l ≡ spread_cases node.now i row.now) }
{
    match node {
        Node::Free => Ok(Listing::Made(Row::new(alloc))),
        Node::Ground => Ok(Listing::Made(spread(alloc, i, row)?)),
        Node::Unique => Ok(Listing::Made(spread(alloc, i, row)?)),
        Node::Dead => Ok(Listing::Made(spread(alloc, i, row)?)),
        Node::Bound(cases) => Ok(Listing::There(cases)),
    }
}

/// Nodes that are made, and what stands for their pair.
#[derive(Drop)]
struct MadeNodes {
    stands: u32,
    nodes: Row<Node>,
}

impl InstGraph {
    /// The inst of a builtin one and a bound one at a type variable: the builtin one where it includes the other, else
    /// the next builtin one that does.
    fn widened(&self, alloc: Global, shapes: &Shapes, b: u32, j: u32, r: u32) -> Result<u32, Memory>
        requires proper { Proper (scene self.now shapes.now) }
        requires builtins { Builtins self.now.nodes }
        requires there { (b < length self.now.nodes) × (j < length self.now.nodes) × (r < length shapes.now.rows) }
        requires builtin { (1 ≤ Rattle.mc_insts.specs.code.Cases.marks (node_at self.now.nodes b)) × (Rattle.mc_insts.specs.code.Cases.marks (node_at self.now.nodes b) ≤ 2) }
        ensures { IfOk result (λ k. Widened (scene self.now shapes.now) b j r k) }
    {
        if self.below(alloc, j, b, r, shapes)? {
            return Ok(b);
        }
        if self.below(alloc, j, 1, r, shapes)? {
            return Ok(1);
        }
        Ok(3)
    }

    /// The old node that stands for a pair at a row, where one does as far as can be seen here.
    fn direct(&self, alloc: Global, shapes: &Shapes, u: Triple) -> Result<Option<u32>, Memory>
        requires proper { Proper (scene self.now shapes.now) }
        requires builtins { Builtins self.now.nodes }
        requires within { Within (scene self.now shapes.now) u }
        ensures { IfOk result (λ o. MatchOption o (Bare (low_of (scene self.now shapes.now) u) (high_of (scene self.now shapes.now) u) (row_of (scene self.now shapes.now) u)) (λ k. Done (scene self.now shapes.now) u k)) }
    {
        let low = self.node(u.low);
        let high = self.node(u.high);
        if u.low == u.high {
            return Ok(Some(u.high));
        }
        if under(low, high) {
            return Ok(Some(u.high));
        }
        if under(high, low) {
            return Ok(Some(u.low));
        }
        let left = marks(low);
        let right = marks(high);
        if right == 3 {
            return Ok(Some(u.high));
        }
        if left == 3 {
            return Ok(Some(u.low));
        }
        match shapes.row(u.row) {
            Shape::Constants => {
                if left == 0 {
                    return Ok(Some(u.high));
                }
                Ok(Some(u.low))
            }
            Shape::State => {
                if left == 0 {
                    return Ok(Some(u.high));
                }
                Ok(Some(u.low))
            }
            Shape::Any => {
                if left != 0 {
                    let k = self.widened(alloc, shapes, u.low, u.high, u.row)?;
                    return Ok(Some(k));
                }
                if right != 0 {
                    let k = self.widened(alloc, shapes, u.high, u.low, u.row)?;
                    return Ok(Some(k));
                }
                Ok(None)
            }
            Shape::Union(_) => {
                if left != 0 {
                    if self.below(alloc, u.high, u.low, u.row, shapes)? {
                        return Ok(Some(u.low));
                    }
                    return Ok(None);
                }
                if right != 0 {
                    if self.below(alloc, u.low, u.high, u.row, shapes)? {
                        return Ok(Some(u.high));
                    }
                    return Ok(None);
                }
                Ok(None)
            }
        }
    }

    /// What stands for a pair at a row: an old node, or the number of the new one, whose triple is put in.
    fn resolve(
        &self,
        alloc: Global,
        shapes: &Shapes,
        u: Triple,
        seen: &mut TripleSet,
    ) -> Result<u32, Memory>
        requires proper { Proper (scene self.now shapes.now) }
        requires builtins { Builtins self.now.nodes }
        requires within { Within (scene self.now shapes.now) u }
        requires sound { Sound (scene self.now shapes.now) seen.old }
        ensures extends { Extends seen.old seen.new }
        ensures sound { Sound (scene self.now shapes.now) seen.new }
        ensures refers { IfOk result (λ k. Refers (scene self.now shapes.now) seen.new u k) }
        ensures there { IfOk result (λ k. k < top_of (scene self.now shapes.now) seen.new) }
    {
        if let Some(k) = self.direct(alloc, shapes, u)? {
            return Ok(k);
        }
        let n = seen.insert(u)?;
        let base = self.nodes.len();
        if n >= (u32::MAX - base) as usize {
            return Err(Memory);
        }
        Ok(base + n as u32)
    }

    /// The arguments of a constructor that both insts list.
    fn join_args(
        &self,
        alloc: Global,
        shapes: &Shapes,
        t: Triple,
        functor: u32,
        lows: &Row<u32>,
        highs: &Row<u32>,
        seen: &mut TripleSet,
    ) -> Result<Row<u32>, Memory>
        requires proper { Proper (scene self.now shapes.now) }
        requires builtins { Builtins self.now.nodes }
        requires within { Within (scene self.now shapes.now) t }
        requires sound { Sound (scene self.now shapes.now) seen.old }
        requires lengths { (length lows.now ≡ arity_of (scene self.now shapes.now) functor) × (length highs.now ≡ arity_of (scene self.now shapes.now) functor) }
        requires lows_there { (k : ℕ) → k < length lows.now → get_or lows.now k 0 < length self.now.nodes }
        requires highs_there { (k : ℕ) → k < length highs.now → get_or highs.now k 0 < length self.now.nodes }
        ensures extends { Extends seen.old seen.new }
        ensures sound { Sound (scene self.now shapes.now) seen.new }
        ensures length { IfOk result (λ row. length row ≡ arity_of (scene self.now shapes.now) functor) }
        ensures both { IfOk result (λ row. Both (scene self.now shapes.now) seen.new t functor lows.now highs.now row) }
        ensures there { IfOk result (λ row. (k : ℕ) → k < length row → get_or row k 0 < top_of (scene self.now shapes.now) seen.new) }
        ensures filled { IfOk result (λ row. Filled lows.now → Filled highs.now → Filled row) }
    {
        match over_row(shapes.row(t.row), t.row, shapes.known, functor) {
            None => lows.copied(alloc),
            Some(types) => self.join_typed(alloc, shapes, lows, highs, &types, seen),
        }
    }

    /// The same, where the constructor counts.
    fn join_typed(
        &self,
        alloc: Global,
        shapes: &Shapes,
        lows: &Row<u32>,
        highs: &Row<u32>,
        types: &Over,
        seen: &mut TripleSet,
    ) -> Result<Row<u32>, Memory>
        requires proper { Proper (scene self.now shapes.now) }
        requires builtins { Builtins self.now.nodes }
        requires sound { Sound (scene self.now shapes.now) seen.old }
        requires lengths { length highs.now ≡ length lows.now }
        requires wide { OverWide types.now (length lows.now) }
        requires within { (k : ℕ) → k < length lows.now → Within (scene self.now shapes.now) (joined_of lows.now highs.now types.now k) }
        ensures extends { Extends seen.old seen.new }
        ensures sound { Sound (scene self.now shapes.now) seen.new }
        ensures length { IfOk result (λ row. length row ≡ length lows.now) }
        ensures refers { IfOk result (λ row. (k : ℕ) → k < length lows.now → Refers (scene self.now shapes.now) seen.new (joined_of lows.now highs.now types.now k) (get_or row k 0)) }
        ensures there { IfOk result (λ row. (k : ℕ) → k < length row → get_or row k 0 < top_of (scene self.now shapes.now) seen.new) }
    {
        let mut out = Vec::new(alloc);
        for k in 0..lows.len() {
            let u = Triple {
                low: *lows.get(k),
                high: *highs.get(k),
                row: types.argument(k),
            };
            let x = self.resolve(alloc, shapes, u, seen)?;
            out.push(x)?;
        }
        Row::of(out)
    }

    /// Joins two lists of cases, in the order of their functors.
    fn join(
        &self,
        alloc: Global,
        shapes: &Shapes,
        t: Triple,
        lows: &[Case],
        highs: &[Case],
        seen: &mut TripleSet,
    ) -> Result<Row<Case>, Memory>
        requires proper { Proper (scene self.now shapes.now) }
        requires builtins { Builtins self.now.nodes }
        requires within { Within (scene self.now shapes.now) t }
        requires sound { Sound (scene self.now shapes.now) seen.old }
        requires rising { Rising lows.now × Rising highs.now }
        requires fits { Fits (scene self.now shapes.now) (length self.now.nodes) lows.now × Fits (scene self.now shapes.now) (length self.now.nodes) highs.now }
        ensures extends { Extends seen.old seen.new }
        ensures sound { Sound (scene self.now shapes.now) seen.new }
        ensures joined { IfOk result (λ out. JoinedCases (scene self.now shapes.now) seen.new t lows.now highs.now out) }
        ensures filled { IfOk result (λ out. AllFilled lows.now → AllFilled highs.now → AllFilled out) }
    {
        let mut out = Vec::new(alloc);
        let mut a = 0;
        let mut b = 0;
        loop {
            if a == lows.len() {
                if b == highs.len() {
                    break;
                }
                let copy = copy_case(alloc, &highs[b])?;
                out.push(copy)?;
                b += 1;
                continue;
            }
            if b == highs.len() {
                let copy = copy_case(alloc, &lows[a])?;
                out.push(copy)?;
                a += 1;
                continue;
            }
            let low = &lows[a];
            let high = &highs[b];
            if low.functor < high.functor {
                let copy = copy_case(alloc, low)?;
                out.push(copy)?;
                a += 1;
                continue;
            }
            if high.functor < low.functor {
                let copy = copy_case(alloc, high)?;
                out.push(copy)?;
                b += 1;
                continue;
            }
            let args = self.join_args(alloc, shapes, t, low.functor, &low.args, &high.args, seen)?;
            out.push(Case {
                functor: low.functor,
                args,
            })?;
            a += 1;
            b += 1;
        }
        Row::of(out)
    }

    /// The node that a pair at a row makes, where no old node stands for it.
    fn merged_node(
        &self,
        alloc: Global,
        shapes: &Shapes,
        t: Triple,
        seen: &mut TripleSet,
    ) -> Result<Node, Memory>
        requires proper { Proper (scene self.now shapes.now) }
        requires builtins { Builtins self.now.nodes }
        requires sound { Sound (scene self.now shapes.now) seen.old }
        requires opened { Open (scene self.now shapes.now) t }
        ensures extends { Extends seen.old seen.new }
        ensures sound { Sound (scene self.now shapes.now) seen.new }
        ensures merges { IfOk result (λ m. Merges (scene self.now shapes.now) seen.new t m) }
        ensures fits { IfOk result (λ m. (cs : List Case) → m ≡ Node.Bound cs → ProperCases (scene self.now shapes.now) (top_of (scene self.now shapes.now) seen.new) cs) }
        ensures filled { IfOk result (λ m. Formed self.now.nodes → (cs : List Case) → m ≡ Node.Bound cs → AllFilled cs) }
    {
        let row = shapes.row(t.row);
        let lows = cases_of(alloc, self.node(t.low), t.low, row)?;
        let highs = cases_of(alloc, self.node(t.high), t.high, row)?;
        let cases = self.join(alloc, shapes, t, lows.as_slice(), highs.as_slice(), seen)?;
        Ok(Node::Bound(cases))
    }

    /// The nodes that merging a pair at a row makes, and what stands for the pair.
    fn made(&self, alloc: Global, shapes: &Shapes, root: Triple) -> Result<MadeNodes, Memory>
        requires proper { Proper (scene self.now shapes.now) }
        requires builtins { Builtins self.now.nodes }
        requires within { Within (scene self.now shapes.now) root }
        ensures { IfOk result (λ m. Made (scene self.now shapes.now) root m.stands m.nodes) }
    {
        let mut seen = TripleSet::new(alloc);
        let stands = self.resolve(alloc, shapes, root, &mut seen)?;
        let mut nodes = Vec::new(alloc);
        let mut next = 0;
        while let Some(t) = seen.get(next) {
            let node = self.merged_node(alloc, shapes, t, &mut seen)?;
            nodes.push(node)?;
            next += 1;
        }
        let nodes = Row::of(nodes)?;
        Ok(MadeNodes { stands, nodes })
    }

    /// The old node that stands for two insts at a row by itself, where one includes the other.
    fn kept(
        &self,
        alloc: Global,
        i: u32,
        j: u32,
        r: u32,
        shapes: &Shapes,
    ) -> Result<Option<u32>, Memory>
        requires proper { Proper (scene self.now shapes.now) }
        requires distinct { Distinct self.now.functors }
        requires builtins { Builtins self.now.nodes }
        requires low { i < length self.now.nodes }
        requires high { j < length self.now.nodes }
        requires row { r < length shapes.now.rows }
        ensures { IfOk result (λ o. MatchOption o (Unkept (scene self.now shapes.now) i j r) (λ k. IsMerge self.now self.now shapes.now (i ∷ j ∷ []) r k)) }
    {
        let low = self.node(i);
        let high = self.node(j);
        if let Node::Free = low {
            return Ok(Some(j));
        }
        if let Node::Free = high {
            return Ok(Some(i));
        }
        if let Node::Dead = low {
            return Ok(Some(i));
        }
        if let Node::Dead = high {
            return Ok(Some(j));
        }
        if self.below(alloc, i, j, r, shapes)? {
            return Ok(Some(j));
        }
        if self.below(alloc, j, i, r, shapes)? {
            return Ok(Some(i));
        }
        Ok(None)
    }

    /// The least inst above two at the type of a row. After want of memory the graph is as it was.
    pub fn merge(
        &mut self,
        alloc: Global,
        i: u32,
        j: u32,
        r: u32,
        shapes: &Shapes,
    ) -> Result<u32, Memory>
        requires proper { Proper (scene self.old shapes.now) }
        requires distinct { Distinct self.old.functors }
        requires builtins { Builtins self.old.nodes }
        requires low { i < length self.old.nodes }
        requires high { j < length self.old.nodes }
        requires row { r < length shapes.now.rows }
        ensures merge { IfOk result (λ k. IsMerge self.old self.new shapes.now (i ∷ j ∷ []) r k) }
        ensures same { OnOk result ((P : Source) (type : ℕ → TypeTerm) → RowsAre P (scene self.old shapes.now) type → OneIncludesTheOther P (plain_graph self.old.functors self.old.nodes) i j (type r) → self.new ≡ self.old) }
        ensures err { OnErr result (self.new ≡ self.old) }
    {
        if let Some(k) = self.kept(alloc, i, j, r, shapes)? {
            return Ok(k);
        }
        let root = Triple {
            low: i,
            high: j,
            row: r,
        };
        let MadeNodes { stands, nodes } = self.made(alloc, shapes, root)?;
        append(alloc, &mut self.nodes, nodes)?;
        Ok(stands)
    }
}
