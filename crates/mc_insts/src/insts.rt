ghost use Rattle.std.specs.Prelude.{◌≡◌, ◌<◌, ◌↔◌, ℕ, ◌∷◌, [], length, IsTrue, IfOk};
ghost use Rattle.mc_program.specs.Programs.{Source};
ghost use Rattle.mc_program.specs.PlainPrograms.{plain_type, plain_program};
ghost use Rattle.mc_accepted.specs.Inclusion.{Included};
ghost use Rattle.mc_accepted.specs.Tidy.{Tidy};
ghost use Rattle.mc_insts.specs.Programs.{FitsConstructors};
ghost use Rattle.mc_insts.specs.Narrowed.{Narrowed};
ghost use Rattle.mc_insts.specs.code.Walks.{scene, Proper};
ghost use Rattle.mc_insts.specs.code.Shown.{Distinct, RowsAre};
ghost use Rattle.mc_insts.specs.code.TypeRows.{terms, term_at};
ghost use Rattle.mc_insts.specs.code.Tables.{ConstructorsAre};

use crate::functors::Functors;
use crate::graph::{InstGraph, Node, Shapes};
use crate::intern::row_of;
use crate::pairs::MergedPairs;
use crate::rows::{complete, functor_of};
use crate::types::TypeSet;
use mc_base::{Memory, Row, Text};
use mc_program::program::Program;
use mc_program::ty::Ty;
use std::alloc::Global;

/// The number of an inst: 0 is `free`, 1 `ground`, 2 `unique`, 3 `dead`.
pub type InstId = u32;

/// The insts of a program: a graph of nodes, which may have cycles, the types that were met, each a row, and the pairs
/// that were merged.
#[derive(Drop)]
pub struct Insts {
    pub(crate) graph: InstGraph,
    symbols: Row<u32>,
    types: TypeSet,
    pub(crate) shapes: Shapes,
    pub(crate) pairs: MergedPairs,
}

/// The functors of a program's constructors, and that of each symbol.
#[derive(Drop)]
struct ProgramFunctors {
    functors: Functors,
    symbols: Row<u32>,
}

/// The functors of these symbols. That of a constructor without a name comes first: numbers past the symbols are such
/// constructors.
fn functors_of(alloc: Global, program: &Program) -> Result<ProgramFunctors, Memory>
    ensures are { IfOk result (λ c. ConstructorsAre (plain_program program.now) c.functors (length c.functors) c.symbols) }
    ensures distinct { IfOk result (λ c. Distinct c.functors) }
{
    let mut functors = Functors::new(alloc);
    functors.insert(alloc, &Text::empty(alloc), 0)?;
    let mut symbols = Vec::new(alloc);
    let listed = program.symbols.as_slice();
    for symbol in listed {
        symbols.push(functors.insert(alloc, &symbol.name.name, symbol.name.arity)?)?;
    }
    let symbols = Row::of(symbols)?;
    Ok(ProgramFunctors { functors, symbols })
}

/// The nodes of the builtin insts.
fn builtin_nodes(alloc: Global) -> Result<Row<Node>, Memory>
    ensures { IfOk result (λ nodes. nodes ≡ Node.Free ∷ Node.Ground ∷ Node.Unique ∷ Node.Dead ∷ []) }
{
    let mut nodes = Vec::with_capacity(alloc, 4)?;
    nodes.push(Node::Free)?;
    nodes.push(Node::Ground)?;
    nodes.push(Node::Unique)?;
    nodes.push(Node::Dead)?;
    Row::of(nodes)
}

impl Insts {
    ghost use Rattle.mc_insts.specs.Graphs.{graph_of, count_of, BuiltinAlone};
    ghost use Rattle.mc_insts.specs.Kept.{AreOf};

    /// The builtin insts alone, for a program.
    pub fn new(alloc: Global, program: &Program) -> Result<Insts, Memory>
        requires { FitsConstructors (plain_program program.now) }
        ensures program { IfOk result (λ insts. AreOf (plain_program program.now) insts) }
        ensures nodes { IfOk result (λ insts. BuiltinAlone insts) }
    {
        let ProgramFunctors { functors, symbols } = functors_of(alloc, program)?;
        let known = functors.len();
        let nodes = builtin_nodes(alloc)?;
        Ok(Insts {
            graph: InstGraph { functors, nodes },
            symbols,
            types: TypeSet::new(alloc),
            shapes: Shapes {
                rows: Row::new(alloc),
                known,
            },
            pairs: MergedPairs::new(alloc),
        })
    }

    /// How many insts there are; their numbers are those below.
    pub fn count(&self) -> u32
        ensures { result ≡ count_of self.now }
    {
        self.graph.nodes.len()
    }

    /// The row of a type. All rows that a walk can meet are there then.
    pub(crate) fn row(&mut self, alloc: Global, t: &Ty, program: &Program) -> Result<u32, Memory>
        requires { AreOf (plain_program program.now) self.old }
        ensures program { AreOf (plain_program program.now) self.new }
        ensures graph { self.new.graph ≡ self.old.graph }
        ensures symbols { self.new.symbols ≡ self.old.symbols }
        ensures known { self.new.shapes.known ≡ self.old.shapes.known }
        ensures there { IfOk result (λ r. r < length self.new.shapes.rows) }
        ensures is { IfOk result (λ r. term_at (terms self.new.types) r ≡ plain_type t.now) }
        ensures proper { IfOk result (λ _. Proper (scene self.new.graph self.new.shapes)) }
        ensures rows { IfOk result
            (λ _. RowsAre (plain_program program.now) (scene self.new.graph self.new.shapes)
            (term_at (terms self.new.types))) }
    {
        let r = row_of(alloc, &mut self.types, &[], t)?;
        complete(
            alloc,
            program,
            &self.symbols,
            &mut self.types,
            &mut self.shapes,
        )?;
        Ok(r)
    }

    /// Whether the first inst is included in the second at a type.
    pub fn includes(
        &mut self,
        alloc: Global,
        i: InstId,
        j: InstId,
        t: &Ty,
        program: &Program,
    ) -> Result<bool, Memory>
        requires program { AreOf (plain_program program.now) self.old }
        requires first { i < count_of self.old }
        requires second { j < count_of self.old }
        ensures included { IfOk result
            (λ b. IsTrue b
            ↔ Included (plain_program program.now) (graph_of self.old) i j (plain_type t.now)) }
        ensures program { AreOf (plain_program program.now) self.new }
        ensures graph { graph_of self.new ≡ graph_of self.old }
        ensures count { count_of self.new ≡ count_of self.old }
    {
        let r = self.row(alloc, t, program)?;
        self.graph.includes(alloc, i, j, r, &self.shapes)
    }

    /// Whether `unique` and `dead` stand at io's state alone, at any depth of an inst at a type.
    pub fn is_tidy(
        &mut self,
        alloc: Global,
        i: InstId,
        t: &Ty,
        program: &Program,
    ) -> Result<bool, Memory>
        requires program { AreOf (plain_program program.now) self.old }
        requires inst { i < count_of self.old }
        ensures tidy { IfOk result
            (λ b. IsTrue b ↔ Tidy (plain_program program.now) (graph_of self.old) i (plain_type t.now)) }
        ensures program { AreOf (plain_program program.now) self.new }
        ensures graph { graph_of self.new ≡ graph_of self.old }
        ensures count { count_of self.new ≡ count_of self.old }
    {
        let r = self.row(alloc, t, program)?;
        self.graph.is_tidy(alloc, i, r, &self.shapes)
    }

    /// The insts of a constructor's arguments, by its symbol; None exactly where the inst excludes it.
    pub fn narrow(
        &self,
        alloc: Global,
        i: InstId,
        symbol: u32,
        program: &Program,
    ) -> Result<Option<Row<InstId>>, Memory>
        requires program { AreOf (plain_program program.now) self.now }
        requires inst { i < count_of self.now }
        ensures { IfOk result (λ o. Narrowed (plain_program program.now) (graph_of self.now) i symbol o) }
    {
        let _ = program;
        self.graph
            .arguments(alloc, i, functor_of(&self.symbols, symbol))
    }
}
