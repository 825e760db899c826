ghost use Rattle.std.specs.Prelude.{◌≡◌, ℕ, true, map, IfOk, OnOk, slice_index_or};
ghost use Rattle.mc_accepted.specs.InstRules.{Bodies};
ghost use Rattle.mc_inst_table.specs.Plain.{plain_inst, plain_insts};
ghost use Rattle.mc_inst_table.specs.code.Ends.{needs, all_need, IsFull, AreFull, AreNeeds, bodies_of};

use crate::inst::Inst;
use mc_base::{Memory, Row};
use std::alloc::Global;

/// How many parameters the definitions need, where each definition in their bodies stands over as many insts as its
/// body needs. (In what is read and linked it does.)
///
/// # Errors
///
/// `Memory` where there is no room, or where one stands over fewer.
#[tactic(auto, using(crate::proofs::Needing::bodies_full, crate::proofs::Needing::needs_are))]
pub fn needs_if_full(alloc: Global, bodies: &Row<Inst>) -> Result<Vec<u64>, Memory>
    ensures needs { IfOk result (λ all. AreNeeds (bodies_of bodies.now) all.items) }
    ensures full { OnOk result ((d : ℕ) → IsFull (bodies_of bodies.now) (bodies_of bodies.now d)) }
{
    let needs = needs_of(alloc, bodies)?;
    if !are_full(needs.as_slice(), bodies.as_slice()) {
        return Err(Memory);
    }
    Ok(needs)
}

// How many parameters the definitions need.
fn needs_of(alloc: Global, bodies: &Row<Inst>) -> Result<Vec<u64>, Memory>
    ensures { IfOk result (λ all. all.items ≡ map (λ i. needs (plain_inst i)) bodies.now) }
{
    let mut all = Vec::new(alloc);
    for body in bodies.as_slice() {
        all.push(needs(body))?;
    }
    Ok(all)
}

// How many parameters a definition needs at least, by those in its body.
#[cycle(needs)]
fn needs(inst: &Inst) -> u64
    ensures { result ≡ needs (plain_inst inst.now) }
{
    match inst {
        Inst::Parameter(k) => *k as u64 + 1,
        Inst::Node(_) => 0,
        Inst::Defined(_, insts) => all_need(insts.as_slice()),
        Inst::Bound(_, insts) => all_need(insts.as_slice()),
    }
}

#[cycle(needs)]
#[tactic(auto, using(crate::proofs::Needing::need_more))]
fn all_need(insts: &[Inst]) -> u64
    ensures { result ≡ all_need (plain_insts insts.now) }
{
    let mut most = 0;
    for inst in insts {
        let needed = needs(inst);
        if needed > most {
            most = needed;
        }
    }
    most
}

/// Whether each definition in an inst stands over as many insts as its body needs. It takes stack for each level of it.
#[cycle(full)]
pub fn is_full(needs: &[u64], inst: &Inst) -> bool
    ensures { (body : Bodies) → AreNeeds body needs.now → result ≡ true
        → IsFull body (plain_inst inst.now) }
{
    match inst {
        Inst::Parameter(_) => true,
        Inst::Node(_) => true,
        Inst::Defined(number, insts) => {
            need_at(needs, *number) <= insts.len() as u64 && are_full(needs, insts.as_slice())
        }
        Inst::Bound(_, insts) => are_full(needs, insts.as_slice()),
    }
}

/// Whether each definition in insts stands over as many insts as its body needs. It takes stack for each level of an inst.
#[cycle(full)]
#[tactic(auto, using(crate::proofs::Needing::full_more))]
pub fn are_full(needs: &[u64], insts: &[Inst]) -> bool
    ensures { (body : Bodies) → AreNeeds body needs.now → result ≡ true
        → AreFull body (plain_insts insts.now) }
{
    for inst in insts {
        if !is_full(needs, inst) {
            return false;
        }
    }
    true
}

// How many parameters the definition of a number needs; one past the last needs none.
fn need_at(needs: &[u64], number: u32) -> u64
    ensures { result ≡ slice_index_or needs.now number 0 }
{
    match needs.get(number as usize) {
        Some(need) => *need,
        None => 0,
    }
}
