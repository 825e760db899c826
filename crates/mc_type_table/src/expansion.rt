ghost use Rattle.std.specs.Prelude.{◌≡◌, ◌+◌, ◌<◌, ℕ, true, length, slice_set, Some, IfOk, OnOk};
ghost use Rattle.mc_components.specs.Components.{steps};
ghost use Rattle.mc_names.specs.Linked.{Linked};
ghost use Rattle.mc_type_table.specs.Expanded.{after_rounds};
ghost use Rattle.mc_type_table.specs.Held.{held};
ghost use Rattle.mc_type_table.specs.code.Hidden.{not_hidden};
ghost use Rattle.mc_type_table.specs.code.Kept.{AreEquivalences, IsKnown, is_done, all_done};

use crate::definitions::Equivalences;
use crate::replaced::{SizeBudget, with_definitions};
use mc_base::{Memory, Row};
use mc_program::ty::Ty;
use std::alloc::Global;

/// What each type of a program is defined as, without equivalences: each is expanded once, behind those that stand in
/// it. One that goes round, or that is hidden, has no definition here.
///
/// # Errors
///
/// `Memory` where there is no room, or none for the parts of the types.
pub fn expanded_definitions(
    alloc: Global,
    equivalences: &Equivalences,
    hidden: &[bool],
    room: &mut SizeBudget,
) -> Result<Vec<Option<Ty>>, Memory>
    ensures { IfOk result
        (λ all.
        (l : Linked) → AreEquivalences l equivalences.now
        → (u : ℕ) → held all.items u ≡ after_rounds (length l.types) (not_hidden l hidden.now) u) }
{
    let mut known = Known::of(alloc, equivalences, hidden)?;
    let order = by_component(alloc, equivalences.components.as_slice())?;
    if order.len() > equivalences.graph.len() as usize {
        return Err(Memory);
    }
    for number in order.as_slice() {
        known.expand(alloc, equivalences, hidden, *number, room)?;
    }
    let Known { bodies, done } = known;
    if !are_all_done(done.as_slice()) {
        return Err(Memory);
    }
    Ok(bodies)
}

// One type of each component, those to which others lead before these. (A component is one type alone where it has a
// definition that doesn't go round.)
fn by_component(alloc: Global, components: &[u32]) -> Result<Vec<u32>, Memory> {
    let mut order = Vec::from_elem(alloc, 0, components.len())?;
    let mut number: u32 = 0;
    for component in components {
        if let Some(place) = order.get_mut(*component as usize) {
            *place = number;
        }
        number = number.saturating_add(1);
    }
    Ok(order)
}

/// Expanded definitions of types, by their numbers, as far as they are done.
#[derive(Drop)]
pub struct Known {
    pub bodies: Vec<Option<Ty>>,
    pub done: Vec<bool>,
}

impl Known {
    // Done are those types that have no definition.
    fn of(alloc: Global, equivalences: &Equivalences, hidden: &[bool]) -> Result<Known, Memory>
        ensures { IfOk result
            (λ k.
            (l : Linked) → AreEquivalences l equivalences.now → IsKnown l hidden.now 0 k) }
    {
        let mut bodies = Vec::new(alloc);
        let mut done = Vec::new(alloc);
        for number in 0..equivalences.graph.len() {
            bodies.push(None)?;
            done.push(equivalences.definition(hidden, number).is_none())?;
        }
        Ok(Known { bodies, done })
    }

    // Expands the definition of a type whose body's types are done.
    fn expand(
        &mut self,
        alloc: Global,
        equivalences: &Equivalences,
        hidden: &[bool],
        number: u32,
        room: &mut SizeBudget,
    ) -> Result<(), Memory>
        ensures { OnOk result
            ((l : Linked) (rounds : ℕ) → AreEquivalences l equivalences.now
            → IsKnown l hidden.now rounds self.old → IsKnown l hidden.now (rounds + 1) self.new) }
    {
        if is_done(self.done.as_slice(), number) {
            return Ok(());
        }
        let Some(body) = equivalences.definition(hidden, number) else {
            return Ok(());
        };
        if !all_done(self.done.as_slice(), row(&equivalences.graph, number)) {
            return Err(Memory);
        }
        let body = with_definitions(alloc, self.bodies.as_slice(), body, room)?;
        self.put(number as usize, body)
    }

    fn put(&mut self, number: usize, body: Ty) -> Result<(), Memory>
        ensures { OnOk result
            ((self.new.bodies.items ≡ slice_set self.old.bodies.items number (Some body))
            × (self.new.done.items ≡ slice_set self.old.done.items number true)
            × (number < length self.old.bodies.items)) }
    {
        if number >= self.bodies.len() || number >= self.done.len() {
            return Err(Memory);
        }
        self.bodies[number] = Some(body);
        self.done[number] = true;
        Ok(())
    }
}

/// The row of a number; the empty one for a number past the rows.
pub fn row(graph: &Row<Row<u32>>, number: u32) -> &[u32]
    ensures { result.now ≡ steps graph.now number }
{
    if number < graph.len() {
        graph.get(number).as_slice()
    } else {
        &[]
    }
}

fn is_done(done: &[bool], number: u32) -> bool
    ensures { result ≡ is_done done.now number }
{
    match done.get(number as usize) {
        Some(is_done) => *is_done,
        None => true,
    }
}

#[tactic(auto, using(crate::proofs::Expanding::done_more, crate::proofs::Expanding::done_no_more))]
fn all_done(done: &[bool], numbers: &[u32]) -> bool
    ensures { result ≡ all_done done.now numbers.now }
{
    for number in numbers {
        if !is_done(done, *number) {
            return false;
        }
    }
    true
}

fn are_all_done(done: &[bool]) -> bool
    ensures { result ≡ true → (u : ℕ) → is_done done.now u ≡ true }
{
    for is_done in done {
        if !*is_done {
            return false;
        }
    }
    true
}
