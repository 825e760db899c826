ghost use Rattle.std.specs.Prelude.{◌≡◌, ◌<◌, ◌++◌, [], ℕ, true, length, IfOk, OnOk};
ghost use Rattle.mc_model.specs.Lists.{is_in};
ghost use Rattle.mc_inst_table.specs.Plain.{plain_inst, plain_insts};
ghost use Rattle.mc_inst_table.specs.code.Ends.{IsFull, ends, head_at, bodies_of, AreHeads};
ghost use Rattle.mc_inst_table.specs.code.Insides.{inside_at, ends_at, put_ends, all_put_ends, all_in, once_more, with_end, gathered, AreInside, AreClosed};

use crate::heads::{Head, end_at, end_of};
use crate::inst::Inst;
use mc_base::{Memory, Row};
use std::alloc::Global;

/// The parameters that definitions put into constructors, by the numbers of the definitions.
///
/// # Errors
///
/// `Memory` where there is no room.
pub fn insides_of(
    alloc: Global,
    heads: &Row<Head>,
    bodies: &Row<Inst>,
) -> Result<Row<Row<u32>>, Memory>
    requires full { (d : ℕ) → IsFull (bodies_of bodies.now) (bodies_of bodies.now d) }
    requires heads { AreHeads (bodies_of bodies.now) heads.now }
    ensures inside { IfOk result (λ inside. AreInside (bodies_of bodies.now) inside) }
    ensures closed { IfOk result
        (λ inside. AreClosed (bodies_of bodies.now) (head_at heads.now) inside) }
{
    let mut inside = none_inside(alloc, bodies)?;
    for _ in 0..u32::MAX {
        if !find_all(alloc, heads, bodies, &mut inside)? {
            break;
        }
    }
    if !are_closed(alloc, heads, bodies, &inside)? {
        return Err(Memory);
    }
    Ok(inside)
}

// For each definition that it puts no parameter into a constructor.
#[tactic(auto, using(crate::proofs::PuttingInside::none_more))]
fn none_inside(alloc: Global, bodies: &Row<Inst>) -> Result<Row<Row<u32>>, Memory>
    ensures count { IfOk result (λ inside. length inside ≡ length bodies.now) }
    ensures inside { IfOk result (λ inside. AreInside (bodies_of bodies.now) inside) }
{
    let mut inside = Vec::new(alloc);
    for k in 0..bodies.len() {
        inside.push(Row::new(alloc))?;
    }
    let inside = Row::of(inside)?;
    Ok(inside)
}

// Finds further parameters that definitions put into constructors, forwards and backwards, and tells whether there were
// any.
fn find_all(
    alloc: Global,
    heads: &Row<Head>,
    bodies: &Row<Inst>,
    inside: &mut Row<Row<u32>>,
) -> Result<bool, Memory>
    requires full { (d : ℕ) → IsFull (bodies_of bodies.now) (bodies_of bodies.now d) }
    requires heads { AreHeads (bodies_of bodies.now) heads.now }
    requires count { length inside.old ≡ length bodies.now }
    requires inside { AreInside (bodies_of bodies.now) inside.old }
    ensures count { OnOk result (length inside.new ≡ length bodies.now) }
    ensures inside { OnOk result (AreInside (bodies_of bodies.now) inside.new) }
{
    let mut is_more = false;
    for k in 0..bodies.len() {
        is_more |= find(alloc, heads, bodies, inside, k)?;
    }
    for k in 0..bodies.len() {
        is_more |= find(alloc, heads, bodies, inside, bodies.len() - 1 - k)?;
    }
    Ok(is_more)
}

// Finds further parameters that a definition puts into constructors, and tells whether there were any.
fn find(
    alloc: Global,
    heads: &Row<Head>,
    bodies: &Row<Inst>,
    inside: &mut Row<Row<u32>>,
    number: u32,
) -> Result<bool, Memory>
    requires full { (d : ℕ) → IsFull (bodies_of bodies.now) (bodies_of bodies.now d) }
    requires heads { AreHeads (bodies_of bodies.now) heads.now }
    requires there { number < length bodies.now }
    requires count { length inside.old ≡ length bodies.now }
    requires inside { AreInside (bodies_of bodies.now) inside.old }
    ensures count { OnOk result (length inside.new ≡ length bodies.now) }
    ensures inside { OnOk result (AreInside (bodies_of bodies.now) inside.new) }
{
    let parameters = parameters_put(alloc, heads, inside, bodies.get(number))?;
    let is_more = !are_in(parameters.as_slice(), inside.get(number).as_slice());
    inside.set(number, parameters);
    Ok(is_more)
}

// Whether no more can be found out.
fn are_closed(
    alloc: Global,
    heads: &Row<Head>,
    bodies: &Row<Inst>,
    inside: &Row<Row<u32>>,
) -> Result<bool, Memory>
    requires { length inside.now ≡ length bodies.now }
    ensures { IfOk result
        (λ b. b ≡ true → AreClosed (bodies_of bodies.now) (head_at heads.now) inside.now) }
{
    for k in 0..bodies.len() {
        if !is_closed(
            alloc,
            heads,
            inside,
            bodies.get(k),
            inside.get(k).as_slice(),
        )? {
            return Ok(false);
        }
    }
    Ok(true)
}

// Whether a body puts no other parameters into constructors than those.
fn is_closed(
    alloc: Global,
    heads: &Row<Head>,
    inside: &Row<Row<u32>>,
    body: &Inst,
    known: &[u32],
) -> Result<bool, Memory>
    ensures { IfOk result
        (λ b.
        b
        ≡ all_in known.now
        (gathered []
        (put_ends (head_at heads.now) (inside_at inside.now) (plain_inst body.now)))) }
{
    let parameters = parameters_put(alloc, heads, inside, body)?;
    Ok(are_in(parameters.as_slice(), known))
}

// The parameters that an inst puts into constructors, each once.
fn parameters_put(
    alloc: Global,
    heads: &Row<Head>,
    inside: &Row<Row<u32>>,
    inst: &Inst,
) -> Result<Row<u32>, Memory>
    ensures { IfOk result
        (λ row.
        row
        ≡ gathered []
        (put_ends (head_at heads.now) (inside_at inside.now) (plain_inst inst.now))) }
{
    let mut ends = Vec::new(alloc);
    put_ends(heads, inside, inst, &mut ends)?;
    parameters_among(alloc, ends.as_slice())
}

// The parameters among ends, each once.
fn parameters_among(alloc: Global, ends: &[Head]) -> Result<Row<u32>, Memory>
    ensures { IfOk result (λ row. row ≡ gathered [] ends.now) }
{
    let mut all = Vec::new(alloc);
    for end in ends {
        put_parameter(*end, &mut all)?;
    }
    Row::of(all)
}

fn put_parameter(end: Head, all: &mut Vec<u32>) -> Result<(), Memory>
    ensures { OnOk result (all.new.items ≡ with_end end all.old.items) }
{
    match end {
        Head::Parameter(k) => put_once(k, all),
        Head::Node(_) => Ok(()),
        Head::Bound => Ok(()),
        Head::Unknown => Ok(()),
    }
}

fn put_once(number: u32, all: &mut Vec<u32>) -> Result<(), Memory>
    ensures { OnOk result (all.new.items ≡ once_more number all.old.items) }
{
    if is_in(all.as_slice(), number) {
        return Ok(());
    }
    all.push(number)?;
    Ok(())
}

fn is_in(numbers: &[u32], number: u32) -> bool
    ensures { result ≡ is_in number numbers.now }
{
    for known in numbers {
        if *known == number {
            return true;
        }
    }
    false
}

// Whether numbers are among others.
fn are_in(numbers: &[u32], others: &[u32]) -> bool
    ensures { result ≡ all_in others.now numbers.now }
{
    for number in numbers {
        if !is_in(others, *number) {
            return false;
        }
    }
    true
}

// Puts in where the insts lead that an inst puts into constructors.
#[cycle(put_ends)]
fn put_ends(
    heads: &Row<Head>,
    inside: &Row<Row<u32>>,
    inst: &Inst,
    ends: &mut Vec<Head>,
) -> Result<(), Memory>
    ensures { OnOk result
        (ends.new.items
        ≡ ends.old.items ++ put_ends (head_at heads.now) (inside_at inside.now) (plain_inst inst.now)) }
{
    match inst {
        Inst::Parameter(_) => Ok(()),
        Inst::Node(_) => Ok(()),
        Inst::Defined(number, given) => {
            put_ends_at(heads, given.as_slice(), inside_at(inside, *number), ends)?;
            put_all_ends(heads, inside, given.as_slice(), ends)
        }
        Inst::Bound(_, listed) => {
            put_ends_of(heads, listed.as_slice(), ends)?;
            put_all_ends(heads, inside, listed.as_slice(), ends)
        }
    }
}

/// Puts in where the insts lead that some insts put into constructors. It takes stack for each level of an inst.
///
/// # Errors
///
/// `Memory` where there is no room.
#[cycle(put_ends)]
#[tactic(auto, using(crate::proofs::Parameters::all_put_more))]
pub fn put_all_ends(
    heads: &Row<Head>,
    inside: &Row<Row<u32>>,
    insts: &[Inst],
    ends: &mut Vec<Head>,
) -> Result<(), Memory>
    ensures { OnOk result
        (ends.new.items
        ≡ ends.old.items
        ++ all_put_ends (head_at heads.now) (inside_at inside.now) (plain_insts insts.now)) }
{
    for inst in insts {
        put_ends(heads, inside, inst, ends)?;
    }
    Ok(())
}

// Puts in where insts lead.
#[tactic(auto, using(crate::proofs::Parameters::ends_more))]
fn put_ends_of(heads: &Row<Head>, insts: &[Inst], all: &mut Vec<Head>) -> Result<(), Memory>
    ensures { OnOk result
        (all.new.items ≡ all.old.items ++ ends (head_at heads.now) (plain_insts insts.now)) }
{
    for inst in insts {
        all.push(end_of(heads, inst))?;
    }
    Ok(())
}

// Puts in where the insts at these places lead.
fn put_ends_at(
    heads: &Row<Head>,
    insts: &[Inst],
    places: &[u32],
    all: &mut Vec<Head>,
) -> Result<(), Memory>
    ensures { OnOk result
        (all.new.items
        ≡ all.old.items ++ ends_at (ends (head_at heads.now) (plain_insts insts.now)) places.now) }
{
    for place in places {
        all.push(end_at(heads, insts, *place))?;
    }
    Ok(())
}

// The parameters that a definition puts into constructors; one past the last puts none there.
fn inside_at(inside: &Row<Row<u32>>, number: u32) -> &[u32]
    ensures { result.now ≡ inside_at inside.now number }
{
    match inside.as_slice().get(number as usize) {
        Some(row) => row.as_slice(),
        None => &[],
    }
}
