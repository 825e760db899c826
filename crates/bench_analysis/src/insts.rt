//! Merged insts of facts, cycles of insts of lists, an inst of many constructors. The times go to the error output.

ghost use Rattle.std.specs.Prelude.{IfOk};
ghost use Rattle.test_support.specs.Kept.{AreKept};

use mc_base::{Memory, Row};
use mc_insts::{InstDef, InstId};
use mc_model::inst::InstRef;
use mc_program::program::Program;
use mc_program::ty::Ty;
use std::alloc::{AllocError, Global};
use std::io;
use std::time::Instant;
use test_support::{
    NoAnswer, TestedInsts, add_constructor, add_type, bound, choice, empty_program, list_program,
};

const GROUND: InstId = 1;

const CONSTANTS: u32 = 1000;

/// The time since a moment, in microseconds, where the clock tells it.
fn micros(rt: &HostRuntime, start: io::Result<Instant>) -> u64 {
    let Ok(start) = start else {
        return 0;
    };
    match start.elapsed(rt) {
        Ok(took) => u64::try_from(took.as_micros()).unwrap_or(u64::MAX),
        Err(_) => 0,
    }
}

/// Writes whether something is so.
fn tell(rt: &HostRuntime, what: &str, holds: bool) {
    let _ = println!(rt; "{what}: {holds}");
}

/// Writes how long something took, on the error output.
fn tell_time(rt: &HostRuntime, what: &str, took: u64) {
    let _ = eprintln!(rt; "{what}: {took} us");
}

/// A program whose one type is an enumeration.
fn enumeration(alloc: Global) -> Result<Program, Memory> {
    let mut program = empty_program(alloc);
    add_type(alloc, &mut program, b"item", 0)?;
    for k in 0..CONSTANTS {
        let name = format!(in alloc; "c{k}")?;
        add_constructor(alloc, &mut program, name.as_bytes(), Vec::new(alloc))?;
    }
    Ok(program)
}

/// The insts of one constant each.
fn constants(alloc: Global) -> Result<Vec<InstDef>, Memory> {
    let mut defs = Vec::new(alloc);
    for k in 0..CONSTANTS {
        let name = format!(in alloc; "c{k}")?;
        defs.push(bound(alloc, name.as_bytes(), &[])?)?;
    }
    Ok(defs)
}

/// The insts of so many facts.
fn of_facts(alloc: Global, made: &Row<InstId>, facts: u32) -> Result<Vec<InstId>, Memory> {
    let mut insts = Vec::new(alloc);
    for k in 0..facts {
        if let Some(inst) = made
            .as_slice()
            .get((k.wrapping_mul(7) % CONSTANTS) as usize)
        {
            insts.push(*inst)?;
        }
    }
    Ok(insts)
}

/// An answer, and how long it took, in microseconds.
#[derive(Clone, Copy)]
struct Timed {
    inst: InstId,
    took: u64,
}

/// Merges insts, and tells how long it takes.
fn merge_all(
    rt: &HostRuntime,
    tested: &mut TestedInsts,
    insts: &[InstId],
    t: &Ty,
) -> Result<Timed, NoAnswer>
    requires { AreKept tested.old }
    ensures { AreKept tested.new }
{
    let start = Instant::now(rt);
    let inst = tested.merge_all(rt.alloc(), insts, t)?;
    let took = micros(rt, start);
    Ok(Timed { inst, took })
}

/// Merges insts twice, tells how long it takes, and whether the second answer was the first, without a new node.
fn merge_all_twice(
    rt: &HostRuntime,
    tested: &mut TestedInsts,
    insts: &[InstId],
    t: &Ty,
) -> Result<InstId, NoAnswer>
    requires { AreKept tested.old }
    ensures { AreKept tested.new }
{
    let first = merge_all(rt, tested, insts, t)?;
    let count = tested.insts.count();
    let again = merge_all(rt, tested, insts, t)?;
    let same = again.inst == first.inst && tested.insts.count() == count;
    tell(rt, "merged again the same", same);
    tell_time(rt, "merge", first.took);
    tell_time(rt, "again", again.took);
    Ok(first.inst)
}

/// The insts of an enumeration.
fn enumeration_insts(alloc: Global) -> Result<TestedInsts, NoAnswer>
    ensures { IfOk result AreKept }
{
    let program = enumeration(alloc)?;
    TestedInsts::new(alloc, program)
}

/// Defines the insts of constants, and gives those of so many facts.
fn fact_insts(alloc: Global, tested: &mut TestedInsts, facts: u32) -> Result<Vec<InstId>, NoAnswer>
    requires { AreKept tested.old }
    ensures { AreKept tested.new }
{
    let defs = constants(alloc)?;
    let made = tested.define(alloc, defs)?;
    let insts = of_facts(alloc, &made, facts)?;
    Ok(insts)
}

/// Merges the insts of facts twice, and tells whether all constants are in what they are merged to.
fn merge_insts(rt: &HostRuntime, tested: &mut TestedInsts, insts: &[InstId]) -> Result<(), NoAnswer>
    requires { AreKept tested.old }
    ensures { AreKept tested.new }
{
    let item = Ty::Union(0, Row::new(rt.alloc()));
    let merged = merge_all_twice(rt, tested, insts, &item)?;
    let all = tested.includes(rt.alloc(), GROUND, merged, &item)?;
    tell(rt, "all constants", all);
    Ok(())
}

fn merge_facts(rt: &HostRuntime, facts: u32) -> Result<(), NoAnswer> {
    let mut tested = enumeration_insts(rt.alloc())?;
    let insts = fact_insts(rt.alloc(), &mut tested, facts)?;
    merge_insts(rt, &mut tested, insts.as_slice())
}

/// A cycle of insts of lists; those in places that the step divides may be empty.
fn cycle(alloc: Global, nodes: u32, step: u32) -> Result<Vec<InstDef>, Memory> {
    let mut defs = Vec::new(alloc);
    for k in 0..nodes {
        let next = if k < nodes - 1 { k + 1 } else { 0 };
        let args = [InstRef::Old(GROUND), InstRef::New(next)];
        let cell = choice(alloc, b"[|]", &args)?;
        let mut choices = Vec::new(alloc);
        if step != 0 && k % step == 0 {
            choices.push(choice(alloc, b"[]", &[])?)?;
        }
        choices.push(cell)?;
        defs.push(InstDef::Bound(Row::of(choices)?))?;
    }
    Ok(defs)
}

/// The first inst of such a cycle.
fn first_of_cycle(
    alloc: Global,
    tested: &mut TestedInsts,
    nodes: u32,
    step: u32,
) -> Result<InstId, NoAnswer>
    requires { AreKept tested.old }
    ensures { AreKept tested.new }
{
    let made = tested.define(alloc, cycle(alloc, nodes, step)?)?;
    match made.as_slice().first() {
        Some(inst) => Ok(*inst),
        None => Err(NoAnswer::Unfit),
    }
}

fn list_of_ints(alloc: Global) -> Result<Ty, Memory> {
    Ok(Ty::Union(0, Row::one(alloc, Ty::Int)?))
}

/// Tells how long the inclusion of one inst of lists in another takes, and whether it is included.
fn include(rt: &HostRuntime, tested: &mut TestedInsts, i: InstId, j: InstId) -> Result<(), NoAnswer>
    requires { AreKept tested.old }
    ensures { AreKept tested.new }
{
    let list = list_of_ints(rt.alloc())?;
    let start = Instant::now(rt);
    let included = tested.includes(rt.alloc(), i, j, &list)?;
    let took = micros(rt, start);
    tell(rt, "included", included);
    tell_time(rt, "inclusion", took);
    Ok(())
}

/// The first insts of three cycles.
#[derive(Clone, Copy)]
struct Cycles {
    whole: InstId,
    second: InstId,
    third: InstId,
}

/// Three cycles of so many insts: of all lists, and of those that may end at each second or third place.
fn make_cycles(alloc: Global, tested: &mut TestedInsts, nodes: u32) -> Result<Cycles, NoAnswer>
    requires { AreKept tested.old }
    ensures { AreKept tested.new }
{
    let whole = first_of_cycle(alloc, tested, nodes, 1)?;
    let second = first_of_cycle(alloc, tested, nodes, 2)?;
    let third = first_of_cycle(alloc, tested, nodes, 3)?;
    Ok(Cycles {
        whole,
        second,
        third,
    })
}

/// The insts of lists.
fn insts_of_lists(alloc: Global) -> Result<TestedInsts, NoAnswer>
    ensures { IfOk result AreKept }
{
    let program = list_program(alloc)?;
    TestedInsts::new(alloc, program)
}

/// Includes cycles in `ground` and in one another.
fn include_cycles(
    rt: &HostRuntime,
    tested: &mut TestedInsts,
    cycles: Cycles,
) -> Result<(), NoAnswer>
    requires { AreKept tested.old }
    ensures { AreKept tested.new }
{
    include(rt, tested, cycles.whole, GROUND)?;
    include(rt, tested, GROUND, cycles.whole)?;
    include(rt, tested, cycles.second, cycles.whole)
}

/// Merges two cycles twice.
fn merge_cycles(rt: &HostRuntime, tested: &mut TestedInsts, cycles: Cycles) -> Result<(), NoAnswer>
    requires { AreKept tested.old }
    ensures { AreKept tested.new }
{
    let list = list_of_ints(rt.alloc())?;
    merge_all_twice(rt, tested, &[cycles.second, cycles.third], &list)?;
    Ok(())
}

fn walk_cycles(rt: &HostRuntime, nodes: u32) -> Result<(), NoAnswer> {
    let mut tested = insts_of_lists(rt.alloc())?;
    let cycles = make_cycles(rt.alloc(), &mut tested, nodes)?;
    include_cycles(rt, &mut tested, cycles)?;
    merge_cycles(rt, &mut tested, cycles)
}

/// An inst of so many constructors, each over itself.
fn wide(alloc: Global, symbols: u32) -> Result<Vec<InstDef>, Memory> {
    let mut choices = Vec::new(alloc);
    for k in 0..symbols {
        let name = format!(in alloc; "f{k}")?;
        choices.push(choice(alloc, name.as_bytes(), &[InstRef::New(0)])?)?;
    }
    let mut defs = Vec::new(alloc);
    defs.push(InstDef::Bound(Row::of(choices)?))?;
    Ok(defs)
}

/// Defines an inst of so many constructors.
fn define_wide(rt: &HostRuntime, symbols: u32) -> Result<(), NoAnswer> {
    let alloc = rt.alloc();
    let mut tested = TestedInsts::new(alloc, empty_program(alloc))?;
    let defs = wide(alloc, symbols)?;
    let start = Instant::now(rt);
    let made = tested.define(alloc, defs)?;
    let took = micros(rt, start);
    tell(rt, "one inst", made.len() == 1);
    tell_time(rt, "definition, with the test that it fits", took);
    Ok(())
}

fn measured(rt: &HostRuntime, facts: u32, nodes: u32, symbols: u32) -> Result<(), NoAnswer> {
    if facts > 0 {
        merge_facts(rt, facts)?;
    }
    if nodes > 0 {
        walk_cycles(rt, nodes)?;
    }
    if symbols > 0 {
        define_wide(rt, symbols)?;
    }
    Ok(())
}

fn no_room(_: NoAnswer) -> io::Error {
    io::Error::from(AllocError)
}

pub fn measure(rt: &HostRuntime, facts: u32, nodes: u32, symbols: u32) -> io::Result<()> {
    measured(rt, facts, nodes, symbols).map_err(no_room)
}
