ghost use Rattle.std.specs.Prelude.{◌≡◌, ◌++◌, ◌↔◌, ◌<◌, ◌+◌, ℕ, length, Some, IfOk, OnOk, slice_get, slice_index};
ghost use Rattle.mc_model.specs.Lists.{is_in};
ghost use Rattle.mc_inst_table.specs.code.Places.{firsts_from, place, links_at, is_inner, is_that, given_for, given_by, rows_of, all_rows, is_number_of, spoiled_for, spoiled_by, all_spoiled, same_number};

use crate::links::Link;
use mc_base::{Memory, Row};
use std::alloc::Global;

/// The parameters of the inst definitions, one behind another, and the definitions that stand in each.
#[derive(Drop)]
pub struct Places {
    /// Where the parameters of each definition begin.
    pub firsts: Row<u32>,
    /// The definitions that stand in each.
    pub links: Row<Row<Link>>,
    /// The numbers of the definitions' components, by what stands in what.
    pub inner: Row<u32>,
}

/// Where the parameters of each definition begin, by how many each has.
///
/// # Errors
///
/// `Memory` where there is no room.
pub fn firsts_of(alloc: Global, widths: &Row<u32>) -> Result<Row<u32>, Memory>
    ensures { IfOk result (λ firsts. firsts ≡ firsts_from 0 widths.now) }
{
    let mut firsts = Vec::new(alloc);
    let mut first: u32 = 0;
    for width in widths.as_slice() {
        firsts.push(first)?;
        first = sum(first, *width)?;
    }
    Row::of(firsts)
}

fn sum(first: u32, second: u32) -> Result<u32, Memory>
    ensures { IfOk result (λ both. both ≡ first + second) }
{
    match first.checked_add(second) {
        Some(both) => Ok(both),
        None => Err(Memory),
    }
}

/// For each place of a parameter those for which that parameter is given, on the ways by which definitions reach
/// themselves.
///
/// # Errors
///
/// `Memory` where there is no room.
pub fn graph_of(alloc: Global, places: &Places, widths: &Row<u32>) -> Result<Row<Row<u32>>, Memory>
    ensures { IfOk result
        (λ rows. rows ≡ all_rows places.now.firsts places.now.inner 0 widths.now places.now.links) }
{
    let mut rows = Vec::new(alloc);
    let mut number: u32 = 0;
    for width in widths.as_slice() {
        put_rows(alloc, places, number, *width, &mut rows)?;
        number = sum(number, 1)?;
    }
    Row::of(rows)
}

// Puts in the rows of the parameters of a definition.
#[tactic(auto, using(crate::proofs::Placing::rows_more))]
fn put_rows(
    alloc: Global,
    places: &Places,
    number: u32,
    width: u32,
    rows: &mut Vec<Row<u32>>,
) -> Result<(), Memory>
    ensures { OnOk result
        (rows.new.items
        ≡ rows.old.items
        ++ rows_of places.now.firsts places.now.inner number 0 width (links_at places.now.links number)) }
{
    for parameter in 0..width {
        rows.push(row(alloc, places, number, parameter)?)?;
    }
    Ok(())
}

// The places of those for which a parameter of a definition is given.
fn row(alloc: Global, places: &Places, number: u32, parameter: u32) -> Result<Row<u32>, Memory>
    ensures { IfOk result
        (λ row.
        row
        ≡ given_by places.now.firsts places.now.inner number parameter (links_at places.now.links number)) }
{
    let mut row = Vec::new(alloc);
    for link in links_at(&places.links, number) {
        if is_inner(&places.inner, number, link.to) {
            let first = place(&places.firsts, link.to, 0)?;
            put_given(parameter, first, link.given.as_slice(), &mut row)?;
        }
    }
    Row::of(row)
}

// Puts in the places, from one on, of those for which a parameter is given.
fn put_given(
    parameter: u32,
    first: u32,
    given: &[Option<u32>],
    row: &mut Vec<u32>,
) -> Result<(), Memory>
    ensures { OnOk result (row.new.items ≡ row.old.items ++ given_for parameter first given.now) }
{
    let mut place = first;
    for one in given {
        if is_that(parameter, *one) {
            row.push(place)?;
        }
        place = sum(place, 1)?;
    }
    Ok(())
}

fn is_that(parameter: u32, given: Option<u32>) -> bool
    ensures { result ≡ is_that parameter given }
{
    match given {
        Some(other) => other == parameter,
        None => false,
    }
}

/// The numbers of the parameters for which something else is given than one of their number, on the ways by which
/// definitions reach themselves; `numbers` are those of the places' components.
///
/// # Errors
///
/// `Memory` where there is no room.
pub fn spoiled(alloc: Global, places: &Places, numbers: &Row<u32>) -> Result<Vec<u32>, Memory>
    ensures { IfOk result
        (λ all.
        all.items
        ≡ all_spoiled numbers.now places.now.firsts places.now.inner 0 places.now.links) }
{
    let mut all = Vec::new(alloc);
    let mut number: u32 = 0;
    for links in places.links.as_slice() {
        put_spoiled(places, numbers, number, links.as_slice(), &mut all)?;
        number = sum(number, 1)?;
    }
    Ok(all)
}

// Puts in those for which a definition gives something else.
fn put_spoiled(
    places: &Places,
    numbers: &Row<u32>,
    number: u32,
    links: &[Link],
    all: &mut Vec<u32>,
) -> Result<(), Memory>
    ensures { OnOk result
        (all.new.items
        ≡ all.old.items
        ++ spoiled_by numbers.now places.now.firsts places.now.inner number links.now) }
{
    for link in links {
        if is_inner(&places.inner, number, link.to) {
            let first = place(&places.firsts, link.to, 0)?;
            put_spoiled_from(places, numbers, number, first, link.given.as_slice(), all)?;
        }
    }
    Ok(())
}

// Puts in those, from a place on, for which something else is given.
fn put_spoiled_from(
    places: &Places,
    numbers: &Row<u32>,
    number: u32,
    first: u32,
    given: &[Option<u32>],
    all: &mut Vec<u32>,
) -> Result<(), Memory>
    ensures { OnOk result
        (all.new.items
        ≡ all.old.items ++ spoiled_for numbers.now places.now.firsts number first given.now) }
{
    let mut place = first;
    for one in given {
        let wanted = number_at(numbers, place);
        if !is_number_of(places, numbers, number, *one, wanted)? {
            all.push(wanted)?;
        }
        place = sum(place, 1)?;
    }
    Ok(())
}

// Whether what is given is a parameter of a number.
fn is_number_of(
    places: &Places,
    numbers: &Row<u32>,
    number: u32,
    given: Option<u32>,
    wanted: u32,
) -> Result<bool, Memory>
    ensures { IfOk result
        (λ holds. holds ≡ is_number_of numbers.now places.now.firsts number given wanted) }
{
    match given {
        Some(parameter) => {
            let found = number_at(numbers, place(&places.firsts, number, parameter)?);
            Ok(found == wanted)
        }
        None => Ok(false),
    }
}

/// The place of a definition's parameter.
///
/// # Errors
///
/// `Memory` where it is past all numbers.
pub fn place(firsts: &Row<u32>, number: u32, parameter: u32) -> Result<u32, Memory>
    ensures { IfOk result (λ k. k ≡ place firsts.now number parameter) }
{
    sum(number_at(firsts, number), parameter)
}

/// The number at a place of a row, or 0 past its end.
pub fn number_at(numbers: &Row<u32>, place: u32) -> u32
    ensures { result ≡ slice_index numbers.now place }
{
    match numbers.as_slice().get(place as usize) {
        Some(number) => *number,
        None => 0,
    }
}

// Whether two definitions are in one component.
fn is_inner(inner: &Row<u32>, from: u32, to: u32) -> bool
    ensures { result ≡ is_inner inner.now from to }
{
    match inner.as_slice().get(from as usize) {
        Some(first) => is_component(inner, to, *first),
        None => false,
    }
}

fn is_component(inner: &Row<u32>, number: u32, wanted: u32) -> bool
    ensures { result ≡ same_number (Some wanted) (slice_get inner.now number) }
{
    match inner.as_slice().get(number as usize) {
        Some(found) => wanted == *found,
        None => false,
    }
}

// The definitions that stand in one; in one past the last there are none.
fn links_at(links: &Row<Row<Link>>, number: u32) -> &[Link]
    ensures { result.now ≡ links_at links.now number }
{
    match links.as_slice().get(number as usize) {
        Some(row) => row.as_slice(),
        None => &[],
    }
}
