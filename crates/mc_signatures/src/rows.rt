ghost use Rattle.std.specs.Prelude.{◌≡◌, ◌≤◌, ◌<◌, ◌+◌, false, length, map, IfOk, MatchOption};
ghost use Rattle.mc_accepted.specs.InstRules.{Bodies};
ghost use Rattle.mc_insts.specs.code.Lists.{Extends};
ghost use Rattle.mc_insts.specs.Defining.{plain_choice, plain_definition, plain_definitions};
ghost use Rattle.mc_inst_table.specs.Plain.{plain_inst};
ghost use Rattle.mc_signatures.specs.code.Keys.{terms, term_at, functor_of};
ghost use Rattle.mc_signatures.specs.code.Rows.{reference, Chosen, IsChoice, NoneSame, AreUnlisted, IsRow, IsExpanded, BodiesAre, StepIs};

use crate::expansion::expanded;
use crate::keys::{InstKey, InstSet, ListedFunctor};
use mc_base::{Memory, Row, Text};
use mc_inst_table::Inst;
use mc_insts::InstDef;
use mc_model::inst::{Choice, InstRef};
use std::alloc::Global;

/// The definitions that insts are, and those of which their definitions speak: one for each inst that is no builtin one,
/// in the order of their numbers.
///
/// # Errors
///
/// `Memory` where there is no room, where there is no end of insts, where a definition stands over too few insts or isn't
/// there, or where a constructor is listed twice. (All that is refused.)
pub fn rows(alloc: Global, insts: &mut InstSet, bodies: &Row<Inst>) -> Result<Row<InstDef>, Memory>
    ensures extends { Extends (terms insts.old) (terms insts.new) }
    ensures rows { IfOk result
        (λ defs. (body : Bodies) → BodiesAre body bodies.now
        → IsExpanded body (terms insts.new) (plain_definitions defs)) }
{
    let mut defs = Vec::new(alloc);
    for place in 0..u32::MAX {
        match row(alloc, insts, bodies, place)? {
            Some(def) => defs.push(def)?,
            None => return Row::of(defs),
        }
    }
    Err(Memory)
}

// The definition that the inst in a place is; none past the last.
fn row(
    alloc: Global,
    insts: &mut InstSet,
    bodies: &Row<Inst>,
    place: u32,
) -> Result<Option<InstDef>, Memory>
    ensures extends { Extends (terms insts.old) (terms insts.new) }
    ensures row { IfOk result
        (λ def. MatchOption def (length (terms insts.new) ≤ 4 + place)
        (λ d.
        (4 + place < length (terms insts.new))
        × ((body : Bodies) → BodiesAre body bodies.now
        → IsRow body (terms insts.new) (term_at (terms insts.new) (4 + place)) (plain_definition d)))) }
{
    match next_step(alloc, insts, place)? {
        Some(Step::Listed(choices)) => Ok(Some(InstDef::Bound(choices))),
        Some(Step::Defined(number, over)) => {
            let body = body_of(bodies, number)?;
            let inst = expanded(alloc, insts, over.as_slice(), body)?;
            Ok(Some(InstDef::Is(reference(inst))))
        }
        None => Ok(None),
    }
}

// What is to be done for an inst: its constructors are at hand, or its definition is to be expanded.
#[derive(Drop)]
enum Step {
    Listed(Row<Choice>),
    Defined(u32, Vec<u32>),
}

fn next_step(alloc: Global, insts: &InstSet, place: u32) -> Result<Option<Step>, Memory>
    ensures { IfOk result (StepIs (terms insts.now) place) }
{
    match insts.get(place) {
        Some(InstKey::Listed(named, listed)) => {
            let choices = choices(alloc, named.as_slice(), listed.as_slice())?;
            Ok(Some(Step::Listed(choices)))
        }
        Some(InstKey::Defined(number, over)) => {
            let over = over.clone()?;
            Ok(Some(Step::Defined(*number, over)))
        }
        None => Ok(None),
    }
}

// What the definition of a number stands for.
fn body_of(bodies: &Row<Inst>, number: u32) -> Result<&Inst, Memory>
    ensures { IfOk result
        (λ inst. (body : Bodies) → BodiesAre body bodies.now → body number ≡ plain_inst inst.now) }
{
    if number >= bodies.len() {
        return Err(Memory);
    }
    Ok(bodies.get(number))
}

// What a number refers to.
pub fn reference(number: u32) -> InstRef
    ensures { result ≡ reference number }
{
    if number < 4 {
        return InstRef::Old(number);
    }
    InstRef::New(number - 4)
}

// Constructors with the insts of their arguments, which stand one behind another.
fn choices(alloc: Global, named: &[ListedFunctor], listed: &[u32]) -> Result<Row<Choice>, Memory>
    ensures chosen { IfOk result
        (λ choices. Chosen (map functor_of named.now) listed.now (map plain_choice choices)) }
    ensures unlisted { IfOk result (λ choices. AreUnlisted (map plain_choice choices)) }
{
    let mut choices = Vec::with_capacity(alloc, named.len())?;
    let mut rest = 0;
    for functor in named {
        let end = behind(rest, functor.arity, listed.len())?;
        let choice = choice(alloc, functor, &listed[rest..end])?;
        if is_listed(choices.as_slice(), &choice) {
            return Err(Memory);
        }
        choices.push(choice)?;
        rest = end;
    }
    if rest < listed.len() {
        return Err(Memory);
    }
    Row::of(choices)
}

// The place behind so many more, where they are there.
fn behind(start: usize, more: u32, length: usize) -> Result<usize, Memory>
    ensures there { IfOk result (λ end. end ≤ length) }
    ensures end { IfOk result (λ end. end ≡ start + more) }
{
    if start > length || length - start < more as usize {
        return Err(Memory);
    }
    Ok(start + more as usize)
}

// A constructor over insts.
#[tactic(auto, using(crate::proofs::Choosing::references_more))]
fn choice(alloc: Global, functor: &ListedFunctor, listed: &[u32]) -> Result<Choice, Memory>
    ensures { IfOk result (λ c. IsChoice (functor_of functor.now) listed.now (plain_choice c)) }
{
    let name = Text::new(alloc, functor.name.as_slice())?;
    let mut args = Vec::with_capacity(alloc, listed.len())?;
    for number in listed {
        args.push(reference(*number))?;
    }
    Ok(Choice {
        name,
        arity: functor.arity,
        args: Row::of(args)?,
    })
}

// Whether a constructor's name with its number of arguments is among these.
#[tactic(auto, using(crate::proofs::Choosing::none_same_more))]
fn is_listed(choices: &[Choice], choice: &Choice) -> bool
    ensures { result ≡ false → NoneSame (map plain_choice choices.now) (plain_choice choice.now) }
{
    for other in choices {
        if other.arity == choice.arity && other.name.same(&choice.name) {
            return true;
        }
    }
    false
}
