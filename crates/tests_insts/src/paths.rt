//! Small graphs: inclusion, merging and narrowing by an enumeration of paths, against what insts answer.

ghost use Rattle.std.specs.Prelude.{IfOk};
ghost use Rattle.test_support.specs.Kept.{AreKept};

use crate::small_graphs::{
    BoundTree, COUNT, DEAD, DEPTH, FIRST, FREE, Forks, GROUND, Held, SmallGraph, Top, UNIQUE,
    small_graph,
};
use mc_base::{Memory, Row};
use mc_insts::{InstDef, InstId};
use mc_model::inst::{Choice, InstRef};
use mc_program::program::Program;
use mc_program::ty::Ty;
use std::alloc::Global;
use std::test::Fail;
use test_support::{NoAnswer, TestedInsts, add_constructor, add_type, choice, empty_program};

const LEAF: u32 = 0;

const IO: u32 = 1;

const FORK: u32 = 2;

fn inst_ref(i: InstId) -> InstRef {
    if i < FIRST {
        InstRef::Old(i)
    } else {
        InstRef::New(i - FIRST)
    }
}

fn add_leaf(alloc: Global, choices: &mut Vec<Choice>, tree: &BoundTree) -> Result<(), Memory> {
    if tree.leaf {
        choices.push(choice(alloc, b"leaf", &[])?)?;
    }
    Ok(())
}

fn add_io(alloc: Global, choices: &mut Vec<Choice>, tree: &BoundTree) -> Result<(), Memory> {
    if let Some(i) = tree.io {
        choices.push(choice(alloc, b"io", &[inst_ref(i)])?)?;
    }
    Ok(())
}

fn add_fork(alloc: Global, choices: &mut Vec<Choice>, tree: &BoundTree) -> Result<(), Memory> {
    if let Some(Forks { left, right }) = tree.fork {
        choices.push(choice(alloc, b"fork", &[inst_ref(left), inst_ref(right)])?)?;
    }
    Ok(())
}

/// The definition of a bound inst.
fn definition(alloc: Global, tree: &BoundTree) -> Result<InstDef, Memory> {
    let mut choices = Vec::new(alloc);
    add_leaf(alloc, &mut choices, tree)?;
    add_io(alloc, &mut choices, tree)?;
    add_fork(alloc, &mut choices, tree)?;
    Ok(InstDef::Bound(Row::of(choices)?))
}

/// The definitions of the bound insts of a graph.
fn definitions(alloc: Global, graph: &SmallGraph) -> Result<Vec<InstDef>, Memory> {
    let mut defs = Vec::new(alloc);
    defs.push(definition(alloc, &graph.first)?)?;
    defs.push(definition(alloc, &graph.second)?)?;
    Ok(defs)
}

/// The type of trees.
fn tree(alloc: Global) -> Ty {
    Ty::Union(0, Row::new(alloc))
}

fn two_trees(alloc: Global) -> Result<Vec<Ty>, Memory> {
    let mut trees = Vec::new(alloc);
    trees.push(tree(alloc))?;
    trees.push(tree(alloc))?;
    Ok(trees)
}

fn one_state(alloc: Global) -> Result<Vec<Ty>, Memory> {
    let mut states = Vec::new(alloc);
    states.push(Ty::Io)?;
    Ok(states)
}

fn add_trees(alloc: Global, program: &mut Program) -> Result<(), Memory> {
    let states = one_state(alloc)?;
    let trees = two_trees(alloc)?;
    add_type(alloc, program, b"tree", 0)?;
    add_constructor(alloc, program, b"leaf", Vec::new(alloc))?;
    add_constructor(alloc, program, b"io", states)?;
    add_constructor(alloc, program, b"fork", trees)
}

/// The program whose one type is that of trees.
fn tree_program(alloc: Global) -> Result<Program, Memory> {
    let mut program = empty_program(alloc);
    add_trees(alloc, &mut program)?;
    Ok(program)
}

/// The builtin insts of trees.
fn builtin_insts(alloc: Global) -> Result<TestedInsts, NoAnswer>
    ensures { IfOk result AreKept }
{
    let program = tree_program(alloc)?;
    TestedInsts::new(alloc, program)
}

/// Whether one inst is included in another as the paths show.
fn inclusion_agrees(
    alloc: Global,
    graph: &SmallGraph,
    tested: &mut TestedInsts,
    i: InstId,
    j: InstId,
) -> Result<bool, NoAnswer>
    requires { AreKept tested.old }
    ensures { AreKept tested.new }
{
    let tree = tree(alloc);
    let included = tested.includes(alloc, i, j, &tree)?;
    Ok(included == graph.includes(i, j))
}

/// Whether an inst is included in each as the paths show.
fn inclusions_agree(
    alloc: Global,
    graph: &SmallGraph,
    tested: &mut TestedInsts,
    i: InstId,
) -> Result<bool, NoAnswer>
    requires { AreKept tested.old }
    ensures { AreKept tested.new }
{
    for j in FREE..COUNT {
        if !inclusion_agrees(alloc, graph, tested, i, j)? {
            return Ok(false);
        }
    }
    Ok(true)
}

/// Whether each two insts are included in one another as the paths show.
fn all_inclusions_agree(
    alloc: Global,
    graph: &SmallGraph,
    tested: &mut TestedInsts,
) -> Result<bool, NoAnswer>
    requires { AreKept tested.old }
    ensures { AreKept tested.new }
{
    for i in FREE..COUNT {
        if !inclusions_agree(alloc, graph, tested, i)? {
            return Ok(false);
        }
    }
    Ok(true)
}

/// The insts of two arguments.
fn two(args: &[InstId]) -> Result<Forks, NoAnswer> {
    match *args {
        [left, right] => Ok(Forks { left, right }),
        _ => Err(NoAnswer::Unfit),
    }
}

/// The insts of the arguments of `fork`, as narrowing says.
fn narrowed_forks(alloc: Global, tested: &TestedInsts, i: InstId) -> Result<Option<Forks>, NoAnswer>
    requires { AreKept tested.now }
{
    let narrowed = tested.narrow(alloc, i, FORK)?;
    match narrowed {
        Some(args) => Ok(Some(two(args.as_slice())?)),
        None => Ok(None),
    }
}

/// The inst of the state in `io`, as narrowing says.
fn narrowed_state(
    alloc: Global,
    tested: &TestedInsts,
    i: InstId,
) -> Result<Option<InstId>, NoAnswer>
    requires { AreKept tested.now }
{
    let narrowed = tested.narrow(alloc, i, IO)?;
    match narrowed {
        Some(args) => Ok(args.as_slice().first().copied()),
        None => Ok(None),
    }
}

fn allows(alloc: Global, tested: &TestedInsts, i: InstId, symbol: u32) -> Result<bool, NoAnswer>
    requires { AreKept tested.now }
{
    let narrowed = tested.narrow(alloc, i, symbol)?;
    Ok(narrowed.is_some())
}

/// What an inst allows of a state, as inclusion says.
fn held_there(alloc: Global, tested: &mut TestedInsts, i: InstId) -> Result<Held, NoAnswer>
    requires { AreKept tested.old }
    ensures { AreKept tested.new }
{
    let sole = tested.includes(alloc, UNIQUE, i, &Ty::Io)?;
    let shared = tested.includes(alloc, GROUND, i, &Ty::Io)?;
    let gone = tested.includes(alloc, DEAD, i, &Ty::Io)?;
    Ok(Held { sole, shared, gone })
}

/// What an inst allows of the state in `io`, as narrowing and inclusion say.
fn narrowed_held(alloc: Global, tested: &mut TestedInsts, i: InstId) -> Result<Held, NoAnswer>
    requires { AreKept tested.old }
    ensures { AreKept tested.new }
{
    let narrowed = narrowed_state(alloc, tested, i)?;
    match narrowed {
        Some(state) => held_there(alloc, tested, state),
        None => Ok(Held {
            sole: false,
            shared: false,
            gone: false,
        }),
    }
}

/// What an inst allows at a tree by itself.
fn narrowed_top(alloc: Global, tested: &mut TestedInsts, i: InstId) -> Result<Top, NoAnswer>
    requires { AreKept tested.old }
    ensures { AreKept tested.new }
{
    let leaf = allows(alloc, tested, i, LEAF)?;
    let io = allows(alloc, tested, i, IO)?;
    let fork = allows(alloc, tested, i, FORK)?;
    let held = narrowed_held(alloc, tested, i)?;
    Ok(Top {
        leaf,
        io,
        fork,
        held,
    })
}

/// An inst, and two, neither of which is free, of which it is to allow what one of them allows.
#[derive(Clone, Copy)]
struct Merged {
    inst: InstId,
    i: InstId,
    j: InstId,
}

/// Whether a merged inst allows what one of the two allows, by itself.
fn allows_either_here(
    alloc: Global,
    graph: &SmallGraph,
    tested: &mut TestedInsts,
    merged: Merged,
) -> Result<bool, NoAnswer>
    requires { AreKept tested.old }
    ensures { AreKept tested.new }
{
    let top = narrowed_top(alloc, tested, merged.inst)?;
    Ok(top == graph.top(merged.i).either(graph.top(merged.j)))
}

/// The merged insts behind `fork`.
#[derive(Clone, Copy)]
struct Behind {
    left: Merged,
    right: Merged,
}

/// What is behind `fork` in a merged inst and the two; None where it excludes `fork`.
fn behind_fork(
    alloc: Global,
    graph: &SmallGraph,
    tested: &TestedInsts,
    merged: Merged,
) -> Result<Option<Behind>, NoAnswer>
    requires { AreKept tested.now }
{
    let forks = narrowed_forks(alloc, tested, merged.inst)?;
    let Some(Forks { left, right }) = forks else {
        return Ok(None);
    };
    let Some((first, second)) = graph.forks_of_either(merged.i, merged.j) else {
        return Err(NoAnswer::Unfit);
    };
    Ok(Some(Behind {
        left: Merged {
            inst: left,
            i: first.left,
            j: second.left,
        },
        right: Merged {
            inst: right,
            i: first.right,
            j: second.right,
        },
    }))
}

/// Whether a merged inst allows what one of the two allows, on the paths of at most so many steps.
fn allows_either(
    alloc: Global,
    graph: &SmallGraph,
    tested: &mut TestedInsts,
    merged: Merged,
    steps: u32,
) -> Result<bool, NoAnswer>
    requires { AreKept tested.old }
    ensures { AreKept tested.new }
{
    if !allows_either_here(alloc, graph, tested, merged)? {
        return Ok(false);
    }
    if steps == 0 {
        return Ok(true);
    }
    let forks = behind_fork(alloc, graph, tested, merged)?;
    let Some(Behind { left, right }) = forks else {
        return Ok(true);
    };
    if !allows_either(alloc, graph, tested, left, steps - 1)? {
        return Ok(false);
    }
    let agrees = allows_either(alloc, graph, tested, right, steps - 1)?;
    Ok(agrees)
}

/// Whether two insts, neither of which is free, merge as the paths show.
fn merge_agrees(
    alloc: Global,
    graph: &SmallGraph,
    tested: &mut TestedInsts,
    i: InstId,
    j: InstId,
) -> Result<bool, NoAnswer>
    requires { AreKept tested.old }
    ensures { AreKept tested.new }
{
    let tree = tree(alloc);
    let inst = tested.merge(alloc, i, j, &tree)?;
    allows_either(alloc, graph, tested, Merged { inst, i, j }, DEPTH)
}

/// Whether an inst merges with each that isn't free as the paths show.
fn merges_agree(
    alloc: Global,
    graph: &SmallGraph,
    tested: &mut TestedInsts,
    i: InstId,
) -> Result<bool, NoAnswer>
    requires { AreKept tested.old }
    ensures { AreKept tested.new }
{
    for j in GROUND..COUNT {
        if !merge_agrees(alloc, graph, tested, i, j)? {
            return Ok(false);
        }
    }
    Ok(true)
}

/// Whether each two insts, neither of which is free, merge as the paths show.
fn all_merges_agree(
    alloc: Global,
    graph: &SmallGraph,
    tested: &mut TestedInsts,
) -> Result<bool, NoAnswer>
    requires { AreKept tested.old }
    ensures { AreKept tested.new }
{
    for i in GROUND..COUNT {
        if !merges_agree(alloc, graph, tested, i)? {
            return Ok(false);
        }
    }
    Ok(true)
}

/// Whether all answers on a graph are as the paths show, also after merges, and merging again makes no nodes.
fn all_agree(alloc: Global, graph: &SmallGraph, tested: &mut TestedInsts) -> Result<bool, NoAnswer>
    requires { AreKept tested.old }
{
    let defs = definitions(alloc, graph)?;
    tested.define(alloc, defs)?;
    let merged = all_merges_agree(alloc, graph, tested)?;
    let count = tested.insts.count();
    let again = all_merges_agree(alloc, graph, tested)?;
    let included = all_inclusions_agree(alloc, graph, tested)?;
    Ok(merged && again && included && tested.insts.count() == count)
}

fn graph_agrees(alloc: Global, graph: &SmallGraph) -> Result<bool, NoAnswer> {
    let mut tested = builtin_insts(alloc)?;
    all_agree(alloc, graph, &mut tested)
}

#[test]
fn small_graphs_by_their_paths(rt: HostRuntime) -> Result<(), Fail> {
    for k in 0u32..20 {
        assert!(rt; graph_agrees(rt.alloc(), &small_graph(k))?, "graph {k}");
    }
    Ok(())
}
