ghost use Rattle.std.specs.Prelude.{◌≡◌, ◌++◌, ◌↔◌, ◌<◌, [], ℕ, true, map, IfOk, OnOk, slice_index_or};
ghost use Rattle.mc_accepted.specs.InstRules.{ComesBack};
ghost use Rattle.mc_names.specs.Linked.{Linked, plain_names};
ghost use Rattle.mc_inst_table.specs.Plain.{plain_inst, plain_insts};
ghost use Rattle.mc_inst_table.specs.Rules.{inst_bodies, OnePutsFreeInside};
ghost use Rattle.mc_inst_table.specs.code.Insides.{is_free_end, has_free_end};
ghost use Rattle.mc_inst_table.specs.code.Ends.{head_at};
ghost use Rattle.mc_inst_table.specs.code.Passed.{passed, each_passed};
ghost use Rattle.mc_inst_table.specs.code.Known.{AreDefinitions};

use crate::bodies::inst_bodies;
use crate::heads::{Head, head_at, heads_of};
use crate::inside::{insides_of, put_all_ends};
use crate::inst::Inst;
use crate::needs::{are_full, needs_if_full};
use mc_base::{Memory, Row};
use mc_components::{components, reaches_itself};
use mc_names::Names;
use std::alloc::Global;

/// The inst definitions of a program, by their numbers: what each stands for, over how many parameters at least, and
/// where that leads before any constructor; which parameters it puts into constructors; which definitions it passes
/// itself on the way, and the components of that graph.
#[derive(Drop)]
pub struct InstDefinitions {
    pub bodies: Row<Inst>,
    pub needs: Vec<u64>,
    pub heads: Row<Head>,
    pub inside: Row<Row<u32>>,
    pub graph: Row<Row<u32>>,
    pub components: Row<u32>,
}

impl InstDefinitions {
    /// The inst definitions of a program.
    ///
    /// # Errors
    ///
    /// `Memory` where there is no room, or where a definition stands over fewer insts than its body needs, which reading
    /// and linking refuse.
    pub fn of(alloc: Global, names: &Names) -> Result<InstDefinitions, Memory>
        ensures { IfOk result (λ d. AreDefinitions (plain_names names.now) d) }
    {
        let bodies = inst_bodies(alloc, names)?;
        let needs = needs_if_full(alloc, &bodies)?;
        let heads = heads_of(alloc, &bodies)?;
        let inside = insides_of(alloc, &heads, &bodies)?;
        let graph = graph(alloc, &heads, &bodies)?;
        let components = components(alloc, &graph)?;
        Ok(InstDefinitions {
            bodies,
            needs,
            heads,
            inside,
            graph,
            components,
        })
    }

    /// Whether an inst comes back to itself before any constructor.
    #[tactic(auto, using(crate::proofs::Knowing::back_within, crate::proofs::Knowing::back_past))]
    pub fn comes_back(&self, number: u32) -> bool
        ensures { (l : Linked) → AreDefinitions l self.now
            → (result ≡ true) ↔ ComesBack (inst_bodies l) number }
    {
        number < self.graph.len() && reaches_itself(&self.graph, &self.components, number)
    }

    /// Whether one of some insts puts `free` into a constructor.
    ///
    /// # Errors
    ///
    /// `Memory` where there is no room, or where a definition in them stands over fewer insts than its body needs.
    pub fn one_puts_free(&self, alloc: Global, insts: &[Inst]) -> Result<bool, Memory>
        ensures { IfOk result
            (λ b.
            (l : Linked) → AreDefinitions l self.now
            → (b ≡ true) ↔ OnePutsFreeInside (inst_bodies l) (plain_insts insts.now)) }
    {
        if !are_full(self.needs.as_slice(), insts) {
            return Err(Memory);
        }
        let mut ends = Vec::new(alloc);
        put_all_ends(&self.heads, &self.inside, insts, &mut ends)?;
        Ok(is_free_among(ends.as_slice()))
    }
}

// Whether `free` is among ends.
fn is_free_among(ends: &[Head]) -> bool
    ensures { result ≡ has_free_end ends.now }
{
    for end in ends {
        if is_free(*end) {
            return true;
        }
    }
    false
}

fn is_free(end: Head) -> bool
    ensures { result ≡ is_free_end end }
{
    match end {
        Head::Node(node) => node == 0,
        Head::Parameter(_) => false,
        Head::Bound => false,
        Head::Unknown => false,
    }
}

// Which definitions the bodies of definitions pass themselves.
fn graph(alloc: Global, heads: &Row<Head>, bodies: &Row<Inst>) -> Result<Row<Row<u32>>, Memory>
    ensures { IfOk result
        (λ rows. rows ≡ map (λ i. passed (head_at heads.now) (plain_inst i)) bodies.now) }
{
    let mut rows = Vec::new(alloc);
    for body in bodies.as_slice() {
        rows.push(passed(alloc, heads, body)?)?;
    }
    Row::of(rows)
}

fn passed(alloc: Global, heads: &Row<Head>, inst: &Inst) -> Result<Row<u32>, Memory>
    ensures { IfOk result (λ row. row ≡ passed (head_at heads.now) (plain_inst inst.now)) }
{
    let mut numbers = Vec::new(alloc);
    put_passed(heads, inst, &mut numbers)?;
    Row::of(numbers)
}

// Puts in the definitions that an inst passes itself before any constructor. It takes stack for each level of the inst.
#[cycle(passed)]
fn put_passed(heads: &Row<Head>, inst: &Inst, numbers: &mut Vec<u32>) -> Result<(), Memory>
    ensures { OnOk result
        (numbers.new.items
        ≡ numbers.old.items ++ passed (head_at heads.now) (plain_inst inst.now)) }
{
    match inst {
        Inst::Parameter(_) => Ok(()),
        Inst::Node(_) => Ok(()),
        Inst::Bound(_, _) => Ok(()),
        Inst::Defined(number, given) => {
            numbers.push(*number)?;
            match head_at(heads, *number) {
                Head::Parameter(k) => put_passed_at(heads, given.as_slice(), k, numbers),
                Head::Node(_) => Ok(()),
                Head::Bound => Ok(()),
                Head::Unknown => Ok(()),
            }
        }
    }
}

// Puts in what the inst at a place among some passes; past their end there is none.
#[cycle(passed)]
#[tactic(auto, using(crate::proofs::Finding::passed_there, crate::proofs::Finding::passed_past))]
fn put_passed_at(
    heads: &Row<Head>,
    insts: &[Inst],
    place: u32,
    numbers: &mut Vec<u32>,
) -> Result<(), Memory>
    ensures { OnOk result
        (numbers.new.items
        ≡ numbers.old.items
        ++ slice_index_or (each_passed (head_at heads.now) (plain_insts insts.now)) place []) }
{
    if place as usize >= insts.len() {
        return Ok(());
    }
    put_passed(heads, &insts[place as usize], numbers)
}
