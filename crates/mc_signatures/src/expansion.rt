ghost use Rattle.std.specs.Prelude.{◌≡◌, List, length, map, IfOk};
ghost use Rattle.mc_accepted.specs.InstRules.{InstTerm, inst_at, inst_node};
ghost use Rattle.mc_insts.specs.code.Lists.{Extends};
ghost use Rattle.mc_inst_table.specs.Plain.{plain_functor, plain_inst};
ghost use Rattle.mc_signatures.specs.declared.keys.InstKey.{InstKey};
ghost use Rattle.mc_signatures.specs.code.Keys.{terms, terms_at, functor_of, AllBelow, IsInst, AreInsts, with_insts};

use crate::keys::{InstKey, InstSet, ListedFunctor};
use mc_base::Memory;
use mc_inst_table::{Functor, Inst};
use std::alloc::Global;

/// The number of an inst whose parameters are the insts of these numbers. It takes stack for each level of the inst.
///
/// # Errors
///
/// `Memory` where there is no room, or where the inst has a parameter past these or no builtin inst's node. (Neither is
/// written.)
#[cycle(inst)]
pub fn expanded(
    alloc: Global,
    insts: &mut InstSet,
    over: &[u32],
    inst: &Inst,
) -> Result<u32, Memory>
    requires { AllBelow (length (terms insts.old)) over.now }
    ensures extends { Extends (terms insts.old) (terms insts.new) }
    ensures inst { IfOk result
        (λ k. IsInst (terms insts.new) k (with_insts (terms insts.old) over.now (plain_inst inst.now))) }
{
    match inst {
        Inst::Parameter(place) => parameter(over, *place),
        Inst::Node(node) => builtin(*node),
        Inst::Defined(number, given) => {
            let given = all_expanded(alloc, insts, over, given.as_slice())?;
            let key = InstKey::Defined(*number, given);
            insts.insert(key)
        }
        Inst::Bound(functors, listed) => {
            let listed = all_expanded(alloc, insts, over, listed.as_slice())?;
            let named = named(alloc, functors.as_slice())?;
            let key = InstKey::Listed(named, listed);
            insts.insert(key)
        }
    }
}

/// The numbers of insts whose parameters are the insts of these numbers.
///
/// # Errors
///
/// As for one of them.
#[cycle(inst)]
pub fn all_expanded(
    alloc: Global,
    insts: &mut InstSet,
    over: &[u32],
    listed: &[Inst],
) -> Result<Vec<u32>, Memory>
    requires { AllBelow (length (terms insts.old)) over.now }
    ensures extends { Extends (terms insts.old) (terms insts.new) }
    ensures insts { IfOk result
        (λ all.
        AreInsts (terms insts.new) all.items
        (map (with_insts (terms insts.old) over.now) (map plain_inst listed.now))) }
{
    let mut all = Vec::new(alloc);
    for inst in listed {
        let number = expanded(alloc, insts, over, inst)?;
        all.push(number)?;
    }
    Ok(all)
}

// The number of a parameter.
#[tactic(auto, using(crate::proofs::Expanding::parameter_is))]
fn parameter(over: &[u32], place: u32) -> Result<u32, Memory>
    ensures { IfOk result
        (λ k. (ts : List InstTerm) → AllBelow (length ts) over.now → IsInst ts k (inst_at (terms_at ts over.now) place)) }
{
    match over.get(place as usize) {
        Some(number) => Ok(*number),
        None => Err(Memory),
    }
}

// The number of a builtin inst.
fn builtin(node: u32) -> Result<u32, Memory>
    ensures { IfOk result (λ k. (keys : List InstKey) → IsInst (terms keys) k (inst_node node)) }
{
    if node >= 4 {
        return Err(Memory);
    }
    Ok(node)
}

// Constructors as they stand in a key.
#[tactic(auto, using(crate::proofs::Choosing::named_more))]
fn named(alloc: Global, functors: &[Functor]) -> Result<Vec<ListedFunctor>, Memory>
    ensures { IfOk result
        (λ named. map functor_of named.items ≡ map plain_functor functors.now) }
{
    let mut named = Vec::with_capacity(alloc, functors.len())?;
    for functor in functors {
        let name = Vec::from_slice(alloc, functor.name.bytes())?;
        named.push(ListedFunctor {
            name,
            arity: functor.arity,
        })?;
    }
    Ok(named)
}
