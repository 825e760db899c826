//! Insts of lists of integers: ground ones, those of one element or more, and the empty one.

ghost use Rattle.std.specs.Prelude.{IfOk};
ghost use Rattle.test_support.specs.Kept.{AreKept};

use crate::defining::is_fault;
use mc_base::{Memory, Row};
use mc_insts::{InstDef, InstFault, InstId};
use mc_model::inst::{Choice, InstRef};
use mc_program::ty::Ty;
use std::alloc::Global;
use std::test::Fail;
use test_support::{NoAnswer, TestedInsts, bound, choice, list_program, named};

const FREE: InstId = 0;

const GROUND: InstId = 1;

const EMPTY: u32 = 0;

const CELL: u32 = 1;

/// Three insts of lists.
#[derive(Clone, Copy)]
struct ListInsts {
    ground: InstId,
    filled: InstId,
    empty: InstId,
}

/// One of the insts of lists, or what the filled and the empty ones are merged to.
#[derive(Clone, Copy)]
enum Lists {
    Ground,
    Filled,
    Merged,
}

/// Whether an inst is included in `ground`, and `ground` in it.
#[derive(Clone, Copy)]
struct AgainstGround {
    below: bool,
    above: bool,
}

/// How many insts there are after a merge, and after the same merge again.
#[derive(Clone, Copy)]
struct Counts {
    once: u32,
    twice: u32,
}

fn list_of_ints(alloc: Global) -> Result<Ty, Memory> {
    Ok(Ty::Union(0, Row::one(alloc, Ty::Int)?))
}

/// What lists two constructors.
fn either(alloc: Global, one: Choice, other: Choice) -> Result<InstDef, Memory> {
    let mut choices = Vec::new(alloc);
    choices.push(one)?;
    choices.push(other)?;
    Ok(InstDef::Bound(Row::of(choices)?))
}

/// The ground lists, where they are the first of their row.
fn ground_lists(alloc: Global) -> Result<InstDef, Memory> {
    let empty = choice(alloc, b"[]", &[])?;
    let cell = choice(alloc, b"[|]", &[InstRef::Old(GROUND), InstRef::New(0)])?;
    either(alloc, empty, cell)
}

/// The definitions of the three insts.
fn list_definitions(alloc: Global) -> Result<Vec<InstDef>, Memory> {
    let ground = [InstRef::Old(GROUND), InstRef::Old(GROUND)];
    let mut defs = Vec::new(alloc);
    defs.push(ground_lists(alloc)?)?;
    defs.push(bound(alloc, b"[|]", &ground)?)?;
    defs.push(bound(alloc, b"[]", &[])?)?;
    Ok(defs)
}

/// The builtin insts of a program of lists.
fn builtin_insts(alloc: Global) -> Result<TestedInsts, NoAnswer>
    ensures { IfOk result AreKept }
{
    let program = list_program(alloc)?;
    TestedInsts::new(alloc, program)
}

/// A row of three insts.
fn three(made: &[InstId]) -> Result<ListInsts, NoAnswer> {
    match *made {
        [ground, filled, empty] => Ok(ListInsts {
            ground,
            filled,
            empty,
        }),
        _ => Err(NoAnswer::Unfit),
    }
}

/// Defines the three insts.
fn list_insts(alloc: Global, tested: &mut TestedInsts) -> Result<ListInsts, NoAnswer>
    requires { AreKept tested.old }
    ensures { AreKept tested.new }
{
    let defs = list_definitions(alloc)?;
    let made = tested.define(alloc, defs)?;
    three(made.as_slice())
}

/// Whether one inst is included in another at lists of integers.
fn includes(alloc: Global, tested: &mut TestedInsts, i: InstId, j: InstId) -> Result<bool, NoAnswer>
    requires { AreKept tested.old }
    ensures { AreKept tested.new }
{
    let list = list_of_ints(alloc)?;
    tested.includes(alloc, i, j, &list)
}

/// What the filled and the empty lists are merged to.
fn merge(alloc: Global, tested: &mut TestedInsts, lists: ListInsts) -> Result<InstId, NoAnswer>
    requires { AreKept tested.old }
    ensures { AreKept tested.new }
{
    let list = list_of_ints(alloc)?;
    tested.merge(alloc, lists.filled, lists.empty, &list)
}

fn inst_of(alloc: Global, tested: &mut TestedInsts, which: Lists) -> Result<InstId, NoAnswer>
    requires { AreKept tested.old }
    ensures { AreKept tested.new }
{
    let lists = list_insts(alloc, tested)?;
    match which {
        Lists::Ground => Ok(lists.ground),
        Lists::Filled => Ok(lists.filled),
        Lists::Merged => merge(alloc, tested, lists),
    }
}

fn compare(alloc: Global, tested: &mut TestedInsts, which: Lists) -> Result<AgainstGround, NoAnswer>
    requires { AreKept tested.old }
{
    let inst = inst_of(alloc, tested, which)?;
    let below = includes(alloc, tested, inst, GROUND)?;
    let above = includes(alloc, tested, GROUND, inst)?;
    Ok(AgainstGround { below, above })
}

fn against_ground(alloc: Global, which: Lists) -> Result<AgainstGround, NoAnswer> {
    let mut tested = builtin_insts(alloc)?;
    compare(alloc, &mut tested, which)
}

#[test]
fn lists_against_ground(rt: HostRuntime) -> Result<(), Fail> {
    let ground = against_ground(rt.alloc(), Lists::Ground)?;
    assert!(rt; ground.below && ground.above);
    let filled = against_ground(rt.alloc(), Lists::Filled)?;
    assert!(rt; filled.below && !filled.above);
    let merged = against_ground(rt.alloc(), Lists::Merged)?;
    assert!(rt; merged.below && merged.above);
    Ok(())
}

fn merge_twice(alloc: Global, tested: &mut TestedInsts) -> Result<Counts, NoAnswer>
    requires { AreKept tested.old }
{
    let lists = list_insts(alloc, tested)?;
    merge(alloc, tested, lists)?;
    let once = tested.insts.count();
    merge(alloc, tested, lists)?;
    Ok(Counts {
        once,
        twice: tested.insts.count(),
    })
}

fn merged_twice(alloc: Global) -> Result<Counts, NoAnswer> {
    let mut tested = builtin_insts(alloc)?;
    merge_twice(alloc, &mut tested)
}

#[test]
fn merged_again_makes_no_nodes(rt: HostRuntime) -> Result<(), Fail> {
    let counts = merged_twice(rt.alloc())?;
    assert!(rt; counts.once == 8 && counts.twice == 8);
    Ok(())
}

/// Whether an inst excludes a constructor.
fn excludes(alloc: Global, tested: &TestedInsts, i: InstId, symbol: u32) -> Result<bool, NoAnswer>
    requires { AreKept tested.now }
{
    let args = tested.narrow(alloc, i, symbol)?;
    Ok(args.is_none())
}

/// Whether both arguments of a cell are ground.
fn has_ground_cell(alloc: Global, tested: &TestedInsts, i: InstId) -> Result<bool, NoAnswer>
    requires { AreKept tested.now }
{
    let args = tested.narrow(alloc, i, CELL)?;
    match args {
        Some(args) => Ok(args.as_slice() == [GROUND, GROUND].as_slice()),
        None => Ok(false),
    }
}

/// Whether lists of one element or more exclude the empty one, and give the insts of a cell's arguments.
fn filled_narrows(alloc: Global, tested: &mut TestedInsts) -> Result<bool, NoAnswer>
    requires { AreKept tested.old }
{
    let lists = list_insts(alloc, tested)?;
    let excluded = excludes(alloc, tested, lists.filled, EMPTY)?;
    let given = has_ground_cell(alloc, tested, lists.filled)?;
    Ok(excluded && given)
}

fn narrows(alloc: Global) -> Result<bool, NoAnswer> {
    let mut tested = builtin_insts(alloc)?;
    filled_narrows(alloc, &mut tested)
}

#[test]
fn filled_lists_narrow(rt: HostRuntime) -> Result<(), Fail> {
    assert!(rt; narrows(rt.alloc())?);
    Ok(())
}

/// Whether a definition by itself is refused by this fault, and there are as many insts as before.
fn refuses(
    alloc: Global,
    tested: &mut TestedInsts,
    def: InstDef,
    want: InstFault,
) -> Result<bool, NoAnswer>
    requires { AreKept tested.old }
{
    let before = tested.insts.count();
    let mut defs = Vec::new(alloc);
    defs.push(def)?;
    let answer = tested.define(alloc, defs);
    Ok(is_fault(&answer, want) && tested.insts.count() == before)
}

fn is_refused(alloc: Global, def: InstDef, want: InstFault) -> Result<bool, NoAnswer> {
    let mut tested = builtin_insts(alloc)?;
    refuses(alloc, &mut tested, def, want)
}

#[test]
fn faulty_definitions(rt: HostRuntime) -> Result<(), Fail> {
    let alloc = rt.alloc();
    let free_inside = bound(alloc, b"[|]", &[InstRef::Old(FREE), InstRef::Old(GROUND)])?;
    assert!(rt; is_refused(alloc, free_inside, InstFault::FreeInside(0))?);
    assert!(rt; is_refused(alloc, named(0), InstFault::NotFounded(0))?);
    Ok(())
}
