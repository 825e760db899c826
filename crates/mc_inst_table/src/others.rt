ghost use Rattle.std.specs.Prelude.{◌≡◌, ◌≢◌, ◌↔◌, ◌<◌, ◌≤◌, ℕ, true, false, length, map, IfOk, slice_get, slice_index, slice_index_or};
ghost use Rattle.mc_accepted.specs.InstRules.{ReachesOthers};
ghost use Rattle.mc_names.specs.Linked.{Linked, plain_names};
ghost use Rattle.mc_inst_table.specs.Rules.{inst_bodies};
ghost use Rattle.mc_inst_table.specs.code.Places.{place, width_at, links_at};
ghost use Rattle.mc_inst_table.specs.code.Others.{inst_arity, AreSized, to_of, AreMarked, AreGiven};

use crate::bodies::inst_bodies;
use crate::links::{Link, links_of};
use crate::needs::needs_if_full;
use crate::places::{Places, firsts_of, graph_of, number_at, place, spoiled};
use mc_base::{Memory, Row};
use mc_components::components;
use mc_names::Names;
use std::alloc::Global;

/// What is given for the parameters of the inst definitions of a program on the ways by which those reach themselves.
#[derive(Drop)]
pub struct Given {
    /// How many parameters each definition has.
    pub widths: Row<u32>,
    pub places: Places,
    /// The numbers of the components of the parameters, by what is given for what.
    pub numbers: Row<u32>,
    /// For each of these numbers whether something else is given for one of its parameters.
    pub spoiled: Row<bool>,
}

impl Given {
    /// What is given for the parameters of the inst definitions of a program.
    ///
    /// # Errors
    ///
    /// `Memory` where there is no room, or where a definition stands over another number of insts than it has parameters,
    /// or has another parameter in its body, which reading and linking refuse.
    pub fn of(alloc: Global, names: &Names) -> Result<Given, Memory>
        ensures { IfOk result (λ given. AreGiven (plain_names names.now) given) }
    {
        let bodies = inst_bodies(alloc, names)?;
        let needs = needs_if_full(alloc, &bodies)?;
        let widths = widths_of(alloc, names)?;
        let links = links_of(alloc, &bodies)?;
        if !are_narrow(needs.as_slice(), &widths) || !are_sized(&links, &widths) {
            return Err(Memory);
        }
        let steps = steps_of(alloc, &links)?;
        let inner = components(alloc, &steps)?;
        let firsts = firsts_of(alloc, &widths)?;
        let places = Places {
            firsts,
            links,
            inner,
        };
        let graph = graph_of(alloc, &places, &widths)?;
        let numbers = components(alloc, &graph)?;
        let others = spoiled(alloc, &places, &numbers)?;
        let spoiled = marked(alloc, numbers.len(), others.as_slice())?;
        Ok(Given {
            widths,
            places,
            numbers,
            spoiled,
        })
    }

    /// Whether a definition reaches itself over others than its own parameters.
    ///
    /// # Errors
    ///
    /// `Memory` where the place of a parameter is past all numbers.
    pub fn reaches_others(&self, number: u32) -> Result<bool, Memory>
        ensures { IfOk result
            (λ holds.
            (l : Linked) → AreGiven l self.now
            → (holds ≡ true) ↔ ReachesOthers (inst_bodies l) (inst_arity l number) number) }
    {
        for parameter in 0..number_at(&self.widths, number) {
            if self.is_spoiled(number, parameter)? {
                return Ok(true);
            }
            if self.is_shared(number, parameter)? {
                return Ok(true);
            }
        }
        Ok(false)
    }

    // Whether something else is given for a parameter of the number of one.
    fn is_spoiled(&self, number: u32, parameter: u32) -> Result<bool, Memory>
        ensures { IfOk result
            (λ holds.
            holds
            ≡ slice_index_or self.now.spoiled
            (slice_index self.now.numbers (place self.now.places.firsts number parameter)) false) }
    {
        let found = number_at(
            &self.numbers,
            place(&self.places.firsts, number, parameter)?,
        );
        let holds = is_marked(&self.spoiled, found);
        Ok(holds)
    }

    // Whether an earlier parameter of a definition has the number of one.
    fn is_shared(&self, number: u32, parameter: u32) -> Result<bool, Memory>
        ensures shared { IfOk result
            (λ holds.
            holds ≡ true
            → (q : ℕ) × (q < parameter)
            × (slice_index self.now.numbers (place self.now.places.firsts number q)
            ≡ slice_index self.now.numbers (place self.now.places.firsts number parameter))) }
        ensures apart { IfOk result
            (λ holds.
            holds ≡ false
            → (q : ℕ) → q < parameter
            → slice_index self.now.numbers (place self.now.places.firsts number q)
            ≢ slice_index self.now.numbers (place self.now.places.firsts number parameter)) }
    {
        let wanted = number_at(
            &self.numbers,
            place(&self.places.firsts, number, parameter)?,
        );
        for earlier in 0..parameter {
            let found = number_at(&self.numbers, place(&self.places.firsts, number, earlier)?);
            if found == wanted {
                return Ok(true);
            }
        }
        Ok(false)
    }
}

fn is_marked(marks: &Row<bool>, number: u32) -> bool
    ensures { result ≡ slice_index_or marks.now number false }
{
    match marks.as_slice().get(number as usize) {
        Some(mark) => *mark,
        None => false,
    }
}

// How many parameters each definition has.
fn widths_of(alloc: Global, names: &Names) -> Result<Row<u32>, Memory>
    ensures { IfOk result (λ widths. widths ≡ map (λ n. n.name.arity) names.now.insts) }
{
    let mut widths = Vec::new(alloc);
    for named in names.insts.as_slice() {
        widths.push(named.name.arity)?;
    }
    Row::of(widths)
}

// Whether definitions have as many parameters as they need.
fn are_narrow(needs: &[u64], widths: &Row<u32>) -> bool
    ensures { result ≡ true → (d : ℕ) → slice_index_or needs.now d 0 ≤ width_at widths.now d }
{
    for k in 0..needs.len() {
        if needs[k] > width_of(widths.as_slice(), k) {
            return false;
        }
    }
    true
}

fn width_of(widths: &[u32], number: usize) -> u64
    ensures { result ≡ width_at widths.now number }
{
    match widths.get(number) {
        Some(width) => *width as u64,
        None => 0,
    }
}

// Whether each definition that stands in others stands over as many insts as it has parameters.
fn are_sized(links: &Row<Row<Link>>, widths: &Row<u32>) -> bool
    ensures { result ≡ true → (d : ℕ) → AreSized widths.now (links_at links.now d) }
{
    for row in links.as_slice() {
        if !row_is_sized(row.as_slice(), widths) {
            return false;
        }
    }
    true
}

#[tactic(auto, using(crate::proofs::Sizing::sized_more))]
fn row_is_sized(links: &[Link], widths: &Row<u32>) -> bool
    ensures { result ≡ true → AreSized widths.now links.now }
{
    for link in links {
        if link.given.len() != number_at(widths, link.to) {
            return false;
        }
    }
    true
}

// The definitions that stand in each.
fn steps_of(alloc: Global, links: &Row<Row<Link>>) -> Result<Row<Row<u32>>, Memory>
    ensures { IfOk result (λ rows. rows ≡ map to_of links.now) }
{
    let mut rows = Vec::new(alloc);
    for row in links.as_slice() {
        rows.push(to_of(alloc, row.as_slice())?)?;
    }
    Row::of(rows)
}

fn to_of(alloc: Global, links: &[Link]) -> Result<Row<u32>, Memory>
    ensures { IfOk result (λ row. row ≡ to_of links.now) }
{
    let mut numbers = Vec::new(alloc);
    for link in links {
        numbers.push(link.to)?;
    }
    Row::of(numbers)
}

// For each of so many numbers whether it is among some, which are all below that.
#[tactic(auto, using(crate::proofs::Sizing::marked_more, crate::proofs::Sizing::none_are_marked))]
fn marked(alloc: Global, count: u32, numbers: &[u32]) -> Result<Row<bool>, Memory>
    ensures { IfOk result (λ marks. AreMarked marks numbers.now) }
{
    let mut marks = none_marked(alloc, count)?;
    for number in numbers {
        if *number >= marks.len() {
            return Err(Memory);
        }
        marks.set(*number, true);
    }
    Ok(marks)
}

#[tactic(auto, using(crate::proofs::Sizing::none_more))]
fn none_marked(alloc: Global, count: u32) -> Result<Row<bool>, Memory>
    ensures { IfOk result (λ marks. (c : ℕ) → slice_index_or marks c false ≡ false) }
{
    let mut marks = Vec::new(alloc);
    for k in 0..count {
        marks.push(false)?;
    }
    let marks = Row::of(marks)?;
    Ok(marks)
}
