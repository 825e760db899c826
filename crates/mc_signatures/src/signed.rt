ghost use Rattle.std.specs.Prelude.{◌≡◌, map, IfOk};
ghost use Rattle.mc_names.specs.Linked.{Linked, plain_names};
ghost use Rattle.mc_insts.specs.Defining.{plain_definitions, DefinitionsFit};
ghost use Rattle.mc_insts.specs.code.Lists.{Extends};
ghost use Rattle.mc_inst_table.specs.Plain.{plain_mode};
ghost use Rattle.mc_signatures.specs.WrittenModes.{plain_written};
ghost use Rattle.mc_signatures.specs.MeantModes.{MeansMode};
ghost use Rattle.mc_signatures.specs.Signatures.{EachMeans, IsDeclared, AreSignatures, number_or_none, next_number, builtin_of};
ghost use Rattle.mc_signatures.specs.code.Keys.{terms};
ghost use Rattle.mc_signatures.specs.code.Definitions.{AreDefinitions, GoesBetween};
ghost use Rattle.mc_signatures.specs.code.Numbering.{NumberedModes};

use crate::WrittenMode;
use crate::keys::InstSet;
use crate::meant::Definitions;
use crate::nodes::placed;
use crate::rows::rows;
use mc_base::{Memory, Row};
use mc_inst_table::Mode;
use mc_insts::InstDef;
use mc_model::inst::{ModeDecl, Sig};
use mc_names::Names;
use mc_program::builtin::Builtin;
use mc_program::program::Pred;
use std::alloc::Global;

/// The declared modes of a program.
#[derive(Drop)]
pub struct ModeTable {
    /// The insts of which the modes speak, as definitions that are put behind the builtin insts.
    pub defs: Row<InstDef>,
    /// The modes of each predicate, over the builtin insts and the nodes that these definitions make.
    pub sigs: Vec<Sig>,
}

/// The signatures of predicates, by their numbers, from the modes that are written of each: the nodes between which they go,
/// by the definitions that are answered, and the numbers of their procedures, from 0 on, where a builtin's modes have none.
///
/// # Errors
///
/// `Memory` where there is no room, where there are 2^32 modes or nodes or more, or where there is no end of insts,
/// definitions stand over too few insts or aren't there, a constructor is listed twice, or a mode has an inst variable,
/// which is refused.
pub fn signatures(
    alloc: Global,
    names: &Names,
    preds: &[Pred],
    modes: &Row<Row<WrittenMode>>,
) -> Result<ModeTable, Memory>
    ensures signatures { IfOk result
        (λ table.
        AreSignatures (MeansMode (plain_names names.now) (plain_definitions table.defs))
        (builtin_of preds.now) 0 0 (map (map plain_written) modes.now) table.sigs.items) }
    ensures fit { IfOk result (λ table. DefinitionsFit 4 (plain_definitions table.defs)) }
{
    let definitions = Definitions::of(alloc, names)?;
    let mut insts = InstSet::new(alloc);
    let numbered = numbered(alloc, &definitions, &mut insts, preds, modes)?;
    let defs = rows(alloc, &mut insts, &definitions.insts)?;
    let sigs = placed(alloc, &defs, numbered)?;
    Ok(ModeTable { defs, sigs })
}

// The signatures of predicates over the numbers of insts.
fn numbered(
    alloc: Global,
    definitions: &Definitions,
    insts: &mut InstSet,
    preds: &[Pred],
    modes: &Row<Row<WrittenMode>>,
) -> Result<Vec<Sig>, Memory>
    ensures extends { Extends (terms insts.old) (terms insts.new) }
    ensures sigs { IfOk result
        (λ sigs.
        (l : Linked) → AreDefinitions l definitions.now
        → AreSignatures (GoesBetween l (terms insts.new)) (builtin_of preds.now) 0 0
        (map (map plain_written) modes.now) sigs.items) }
{
    let mut sigs = Vec::new(alloc);
    let mut next = 0;
    for pred in 0..modes.len() {
        let builtin = builtin_of(preds, pred);
        let written = modes.get(pred).as_slice();
        let declared = modes_of(alloc, definitions, insts, builtin, &mut next, written)?;
        sigs.push(Sig {
            pred,
            modes: Row::of(declared)?,
        })?;
    }
    Ok(sigs)
}

// The builtin that a predicate is.
fn builtin_of(preds: &[Pred], number: u32) -> Option<Builtin>
    ensures { result ≡ builtin_of preds.now number }
{
    match preds.get(number as usize) {
        Some(pred) => pred.builtin,
        None => None,
    }
}

// The declared modes of a predicate, with the numbers of their procedures from the next one on.
fn modes_of(
    alloc: Global,
    definitions: &Definitions,
    insts: &mut InstSet,
    builtin: Option<Builtin>,
    next: &mut u32,
    written: &[WrittenMode],
) -> Result<Vec<ModeDecl>, Memory>
    ensures extends { Extends (terms insts.old) (terms insts.new) }
    ensures modes { IfOk result
        (λ modes.
        (l : Linked) → AreDefinitions l definitions.now
        → NumberedModes (GoesBetween l (terms insts.new)) builtin next.old
        (map plain_written written.now) modes.items next.new) }
{
    let mut modes = Vec::new(alloc);
    for mode in written {
        let number = number_or_none(builtin, *next);
        let declared = mode_of(alloc, definitions, insts, number, mode)?;
        modes.push(declared)?;
        *next = next_number(builtin, *next)?;
    }
    Ok(modes)
}

// The number of a procedure; a builtin's mode has none.
fn number_or_none(builtin: Option<Builtin>, next: u32) -> u32
    ensures { result ≡ number_or_none builtin next }
{
    match builtin {
        Some(_) => 0,
        None => next,
    }
}

// The next number behind a mode.
fn next_number(builtin: Option<Builtin>, next: u32) -> Result<u32, Memory>
    ensures { IfOk result (λ n. n ≡ next_number builtin next) }
{
    if builtin.is_some() {
        return Ok(next);
    }
    if next == u32::MAX {
        return Err(Memory);
    }
    Ok(next + 1)
}

// A declared mode, whose procedure has this number.
fn mode_of(
    alloc: Global,
    definitions: &Definitions,
    insts: &mut InstSet,
    number: u32,
    written: &WrittenMode,
) -> Result<ModeDecl, Memory>
    ensures extends { Extends (terms insts.old) (terms insts.new) }
    ensures mode { IfOk result
        (λ mode.
        (l : Linked) → AreDefinitions l definitions.now
        → IsDeclared (GoesBetween l (terms insts.new)) number (plain_written written.now) mode) }
{
    let (first, last) = insts_of(alloc, definitions, insts, written.modes.as_slice())?;
    Ok(ModeDecl {
        proc: number,
        first,
        last,
        det: written.det,
        at: written.at,
    })
}

// The insts from which the modes of arguments go, and to which, by their numbers.
fn insts_of(
    alloc: Global,
    definitions: &Definitions,
    insts: &mut InstSet,
    modes: &[Mode],
) -> Result<(Row<u32>, Row<u32>), Memory>
    ensures extends { Extends (terms insts.old) (terms insts.new) }
    ensures means { IfOk result
        (λ ends.
        (l : Linked) → AreDefinitions l definitions.now
        → EachMeans (GoesBetween l (terms insts.new)) (map plain_mode modes.now) ends.0 ends.1) }
{
    let mut first = Vec::new(alloc);
    let mut last = Vec::new(alloc);
    for mode in modes {
        let ends = definitions.meant(alloc, insts, mode)?;
        first.push(ends.first)?;
        last.push(ends.last)?;
    }
    Ok((Row::of(first)?, Row::of(last)?))
}
