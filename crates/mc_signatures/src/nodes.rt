ghost use Rattle.std.specs.Prelude.{◌≡◌, ◌<◌, ◌+◌, ℕ, [], ◌∷◌, length, get_or, IfOk};
ghost use Rattle.mc_insts.specs.Defining.{bounds_of, node_made, IsNode, plain_definition, plain_definitions};
ghost use Rattle.mc_signatures.specs.code.Rows.{reference, AreMade, AreNumbered, IsPlaced, ModesPlaced, SigsPlaced};

use crate::rows::reference;
use mc_base::{Memory, Row};
use mc_insts::InstDef;
use mc_model::inst::{InstId, InstRef, ModeDecl, Sig};
use std::alloc::Global;

/// Signatures with the nodes that definitions make, in the place of the numbers of their insts.
///
/// # Errors
///
/// `Memory` where there is no room, where there are 2^32 nodes or more, or where an inst is no node, which is refused.
#[tactic(auto, using(crate::proofs::Placing::sigs_step, crate::proofs::Placing::sigs_all))]
pub fn placed(alloc: Global, defs: &Row<InstDef>, sigs: Vec<Sig>) -> Result<Vec<Sig>, Memory>
    ensures { IfOk result (λ after. SigsPlaced (plain_definitions defs.now) sigs.items after.items) }
{
    let made = made(alloc, defs)?;
    let mut all = Vec::with_capacity(alloc, sigs.len())?;
    for sig in sigs.as_slice() {
        let modes = modes_placed(alloc, defs, made.as_slice(), sig.modes.as_slice())?;
        all.push(Sig {
            pred: sig.pred,
            modes,
        })?;
    }
    Ok(all)
}

// The node that each definition makes where it lists constructors; that which the next one makes where it is a name.
fn made(alloc: Global, defs: &Row<InstDef>) -> Result<Vec<InstId>, Memory>
    ensures { IfOk result (λ made. AreMade (plain_definitions defs.now) made.items) }
{
    let mut made = Vec::with_capacity(alloc, defs.len() as usize)?;
    let mut next = 4;
    for def in defs.as_slice() {
        made.push(next)?;
        next = next_node(def, next)?;
    }
    Ok(made)
}

// The next node behind a definition, which makes one where it lists constructors.
fn next_node(def: &InstDef, next: u32) -> Result<u32, Memory>
    ensures { IfOk result (λ behind. behind ≡ next + bounds_of (plain_definition def.now ∷ [])) }
{
    match def {
        InstDef::Is(_) => Ok(next),
        InstDef::Bound(_) => {
            if next == u32::MAX {
                return Err(Memory);
            }
            Ok(next + 1)
        }
    }
}

#[tactic(auto, using(crate::proofs::Placing::placed_step, crate::proofs::Placing::placed_all))]
fn modes_placed(
    alloc: Global,
    defs: &Row<InstDef>,
    made: &[InstId],
    modes: &[ModeDecl],
) -> Result<Row<ModeDecl>, Memory>
    requires { AreMade (plain_definitions defs.now) made.now }
    ensures { IfOk result (λ after. ModesPlaced (plain_definitions defs.now) modes.now after) }
{
    let mut all = Vec::with_capacity(alloc, modes.len())?;
    for mode in modes {
        let mode = mode_placed(alloc, defs, made, mode)?;
        all.push(mode)?;
    }
    Row::of(all)
}

fn mode_placed(
    alloc: Global,
    defs: &Row<InstDef>,
    made: &[InstId],
    mode: &ModeDecl,
) -> Result<ModeDecl, Memory>
    requires { AreMade (plain_definitions defs.now) made.now }
    ensures { IfOk result (λ after. IsPlaced (plain_definitions defs.now) mode.now after) }
{
    let first = nodes(alloc, defs, made, mode.first.as_slice())?;
    let last = nodes(alloc, defs, made, mode.last.as_slice())?;
    Ok(ModeDecl {
        proc: mode.proc,
        first,
        last,
        det: mode.det,
        at: mode.at,
    })
}

// The nodes of insts.
#[tactic(auto, using(crate::proofs::Placing::numbered_step, crate::proofs::Placing::numbered_all))]
fn nodes(
    alloc: Global,
    defs: &Row<InstDef>,
    made: &[InstId],
    numbers: &[u32],
) -> Result<Row<InstId>, Memory>
    requires { AreMade (plain_definitions defs.now) made.now }
    ensures { IfOk result (λ nodes. AreNumbered (plain_definitions defs.now) numbers.now nodes) }
{
    let mut nodes = Vec::with_capacity(alloc, numbers.len())?;
    for number in numbers {
        nodes.push(node(defs, made, reference(*number))?)?;
    }
    Row::of(nodes)
}

// The node of an inst, which may be the name of another. Where names lead to no end, which is refused, there is none.
#[tactic(auto, using(crate::proofs::Placing::node_by_name))]
fn node(defs: &Row<InstDef>, made: &[InstId], inst: InstRef) -> Result<InstId, Memory>
    requires { AreMade (plain_definitions defs.now) made.now }
    ensures { IfOk result (λ node. IsNode (plain_definitions defs.now) 4 inst node) }
{
    let mut named = inst;
    for _ in 0..=defs.len() as u64 {
        let place = match named {
            InstRef::Old(node) => return Ok(node),
            InstRef::New(place) => place,
        };
        if place >= defs.len() {
            return Err(Memory);
        }
        match defs.get(place) {
            InstDef::Is(inst) => named = *inst,
            InstDef::Bound(_) => return Ok(made[place as usize]),
        }
    }
    Err(Memory)
}
