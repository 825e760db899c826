ghost use Rattle.std.specs.Prelude.{◌≡◌, ◌↔◌, ◌++◌, ◌∷◌, [], true, map, Some, None, IfOk, OnOk, if◌then◌else◌};
ghost use Rattle.mc_source.specs.declared.place.Place.{Place};
ghost use Rattle.mc_source.specs.Rules.{broken_at};
ghost use Rattle.mc_term_data.specs.Plain.{plain_term};
ghost use Rattle.mc_decl_syntax.specs.Plain.{plain_item};
ghost use Rattle.mc_names.specs.Plain.{plain_name_arity, shown};
ghost use Rattle.mc_names.specs.Definitions.{head_name};
ghost use Rattle.mc_decl_syntax.specs.Entries.{plain_entry, plain_files};
ghost use Rattle.mc_names.specs.Linked.{plain_names};
ghost use Rattle.mc_accepted.specs.InstRules.{NotWellFounded, ModeIsUnfounded, not_well_founded};
ghost use Rattle.mc_inst_table.specs.Rules.{inst_bodies, mode_named, own_number, module_items, items_from, item_name, IsUnfounded, InstSays, AreInstFaults};
ghost use Rattle.mc_inst_table.specs.code.Faults.{AreKnown, FoundedSays, AddsFaults};

use crate::items::insts_written;
use crate::meaning::own_number;
use crate::mode_rings::ModeRings;
use crate::others::Given;
use crate::rings::InstDefinitions;
use itoa::Buffer;
use mc_base::{Memory, Row, Text};
use mc_decl_syntax::{Decl, Entry};
use mc_names::{NameArity, Names, head_name};
use mc_source::place::Place;
use mc_source::rule::{Broken, Rule};
use mc_term_data::Term;
use std::alloc::Global;

/// What is known of the definitions of insts and modes of a program.
#[derive(Drop)]
pub struct Definitions {
    pub insts: InstDefinitions,
    pub given: Given,
    pub modes: ModeRings,
}

impl Definitions {
    /// What is known of those of a program.
    ///
    /// # Errors
    ///
    /// `Memory` where there is no room, or where a definition stands over another number of insts than it has parameters,
    /// or has another parameter in its body, which reading and linking refuse.
    pub fn of(alloc: Global, names: &Names) -> Result<Definitions, Memory>
        ensures { IfOk result (λ known. AreKnown (plain_names names.now) known) }
    {
        let insts = InstDefinitions::of(alloc, names)?;
        let given = Given::of(alloc, names)?;
        let modes = ModeRings::of(alloc, names)?;
        Ok(Definitions {
            insts,
            given,
            modes,
        })
    }
}

/// The rules of insts that the items of files break, of each item the first, in the order of the files and their items:
/// `free` inside a bound inst (M6), and definitions of insts and modes that aren't well founded (M7). The files are those
/// that were linked.
///
/// # Errors
///
/// `Memory` where there is no room, or where a definition stands over another number of insts than it has parameters, or
/// has another parameter in its body, which reading and linking refuse.
pub fn inst_faults(
    alloc: Global,
    names: &Names,
    files: &[Row<Entry>],
) -> Result<Vec<Broken>, Memory>
    ensures { IfOk result
        (λ broken.
        AreInstFaults (plain_names names.now) (items_from 0 (plain_files files.now)) broken.items) }
{
    let known = Definitions::of(alloc, names)?;
    let mut broken = Vec::new(alloc);
    let mut own: u32 = 0;
    for file in files {
        put_faults(alloc, names, &known, own, file.as_slice(), &mut broken)?;
        if own == u32::MAX {
            return Err(Memory);
        }
        own += 1;
    }
    Ok(broken)
}

// Puts in what the items of a module break.
fn put_faults(
    alloc: Global,
    names: &Names,
    known: &Definitions,
    own: u32,
    entries: &[Entry],
    broken: &mut Vec<Broken>,
) -> Result<(), Memory>
    requires { AreKnown (plain_names names.now) known.now }
    ensures { OnOk result
        (AddsFaults (plain_names names.now) (module_items own (map plain_entry entries.now))
        broken.old.items broken.new.items) }
{
    for entry in entries {
        put_fault(alloc, names, known, own, entry, broken)?;
    }
    Ok(())
}

// Puts in the first rule that an item breaks.
fn put_fault(
    alloc: Global,
    names: &Names,
    known: &Definitions,
    own: u32,
    entry: &Entry,
    broken: &mut Vec<Broken>,
) -> Result<(), Memory>
    requires { AreKnown (plain_names names.now) known.now }
    ensures { OnOk result
        (AddsFaults (plain_names names.now) (module_items own (plain_entry entry.now ∷ []))
        broken.old.items broken.new.items) }
{
    let fault = fault(alloc, names, known, own, &entry.decl)?;
    put_broken(fault, entry.at, broken)?;
    Ok(())
}

// Puts in what is told of an item at a place, where anything is.
fn put_broken(
    fault: Option<(Rule, Text)>,
    at: Place,
    broken: &mut Vec<Broken>,
) -> Result<(), Memory>
    ensures { OnOk result (broken.new.items ≡ broken.old.items ++ broken_at at fault) }
{
    if let Some((rule, what)) = fault {
        broken.push(Broken { rule, at, what })?;
    }
    Ok(())
}

// The first rule that an item breaks, with what is said of it.
fn fault(
    alloc: Global,
    names: &Names,
    known: &Definitions,
    own: u32,
    decl: &Decl,
) -> Result<Option<(Rule, Text)>, Memory>
    requires { AreKnown (plain_names names.now) known.now }
    ensures { IfOk result
        (λ f.
        (at : Place)
        → InstSays (plain_names names.now) (record { own = own; item = plain_item decl.now; at = at }) f) }
{
    let insts = insts_written(alloc, names, own, decl)?;
    if known.insts.one_puts_free(alloc, insts.as_slice())? {
        let what = Text::new(alloc, b"free inside a bound inst")?;
        return Ok(Some((Rule::M6, what)));
    }
    let fault = definition_fault(alloc, names, known, own, decl)?;
    Ok(fault)
}

// What is told of an item whose definition isn't well founded.
fn definition_fault(
    alloc: Global,
    names: &Names,
    known: &Definitions,
    own: u32,
    decl: &Decl,
) -> Result<Option<(Rule, Text)>, Memory>
    requires { AreKnown (plain_names names.now) known.now }
    ensures { IfOk result
        (λ f.
        FoundedSays (IsUnfounded (plain_names names.now) own (plain_item decl.now))
        (item_name (plain_item decl.now)) f) }
{
    match decl {
        Decl::SameInst(head, _) => inst_fault(alloc, names, known, own, head),
        Decl::BoundInst(head, _) => inst_fault(alloc, names, known, own, head),
        Decl::ModeDef(head, _) => mode_fault(alloc, names, known, own, head),
        _ => Ok(None),
    }
}

// What is told of an inst's definition that isn't well founded.
fn inst_fault(
    alloc: Global,
    names: &Names,
    known: &Definitions,
    own: u32,
    head: &Term,
) -> Result<Option<(Rule, Text)>, Memory>
    requires { AreKnown (plain_names names.now) known.now }
    ensures { IfOk result
        (λ f.
        FoundedSays
        (NotWellFounded (inst_bodies (plain_names names.now)) (head_name (plain_term head.now)).arity
        (own_number (plain_names names.now) own (plain_names names.now).insts
        (head_name (plain_term head.now))))
        (head_name (plain_term head.now)) f) }
{
    let id = head_name(head);
    let holds = inst_is_unfounded(names, known, own, id)?;
    let fault = told(alloc, id, holds)?;
    Ok(fault)
}

// Whether the definition of an inst's name that stands in a module isn't well founded.
fn inst_is_unfounded(
    names: &Names,
    known: &Definitions,
    own: u32,
    id: NameArity,
) -> Result<bool, Memory>
    requires { AreKnown (plain_names names.now) known.now }
    ensures { IfOk result
        (λ holds.
        (holds ≡ true)
        ↔ NotWellFounded (inst_bodies (plain_names names.now)) (plain_name_arity id.entry).arity
        (own_number (plain_names names.now) own (plain_names names.now).insts
        (plain_name_arity id.entry))) }
{
    let number = own_number(names, own, id, &names.insts);
    if known.insts.comes_back(number) {
        return Ok(true);
    }
    let holds = known.given.reaches_others(number)?;
    Ok(holds)
}

// What is told of a mode's definition that isn't well founded.
fn mode_fault(
    alloc: Global,
    names: &Names,
    known: &Definitions,
    own: u32,
    head: &Term,
) -> Result<Option<(Rule, Text)>, Memory>
    requires { AreKnown (plain_names names.now) known.now }
    ensures { IfOk result
        (λ f.
        FoundedSays
        (ModeIsUnfounded (mode_named (plain_names names.now))
        (own_number (plain_names names.now) own (plain_names names.now).modes
        (head_name (plain_term head.now))))
        (head_name (plain_term head.now)) f) }
{
    let id = head_name(head);
    let holds = known
        .modes
        .is_unfounded(own_number(names, own, id, &names.modes));
    told(alloc, id, holds)
}

// What is told of a definition of a name, where it isn't well founded.
fn told(alloc: Global, id: NameArity, is_unfounded: bool) -> Result<Option<(Rule, Text)>, Memory>
    ensures { IfOk result
        (λ f.
        f
        ≡ (if is_unfounded then Some (not_well_founded (shown (plain_name_arity id.entry)))
        else None)) }
{
    if !is_unfounded {
        return Ok(None);
    }
    let name = of_name(alloc, id, b" is not well founded")?;
    let mut what = Text::new(alloc, b"inst ")?;
    what.extend(name.bytes())?;
    Ok(Some((Rule::M7, what)))
}

// A name with the number of its arguments, and what is said of it.
fn of_name(alloc: Global, id: NameArity, words: &[u8]) -> Result<Text, Memory>
    ensures { IfOk result (λ text. text ≡ shown (plain_name_arity id.entry) ++ words.now) }
{
    let mut number = Buffer::new();
    let mut text = Text::new(alloc, id.name)?;
    text.push(b'/')?;
    text.extend(number.format(id.arity).as_bytes())?;
    text.extend(words)?;
    Ok(text)
}
