ghost use Rattle.std.specs.Prelude.{◌≡◌, ◌++◌, ◌∷◌, [], List, map, replicate, IfOk, OnOk, slice_index_or};
ghost use Rattle.std.specs.Option.{option_map, option_to_list};
ghost use Rattle.mc_decl_syntax.specs.Entries.{plain_entry, File, plain_files};
ghost use Rattle.mc_accepted.specs.InstRules.{inst_node};
ghost use Rattle.mc_names.specs.Linked.{plain_named, plain_names};
ghost use Rattle.mc_names.specs.code.Index.{listed};
ghost use Rattle.mc_inst_table.specs.Plain.{plain_mode};
ghost use Rattle.mc_inst_table.specs.Written.{from_to};
ghost use Rattle.mc_signatures.specs.WrittenModes.{plain_written, is_function, modes_by, modes_among, default_mode, or_default, modes_of, declared_modes};
ghost use Rattle.mc_signatures.specs.code.ByName.{entry_behind, items_kept, AreIndices};
ghost use Rattle.mc_signatures.specs.code.Callables.{plain_callable};

use crate::by_name::{ItemsByName, indices};
use crate::callable::{Callable, callable_of, is_of};
use crate::written::{WrittenMode, mode_by};
use mc_base::{Memory, Row};
use mc_decl_syntax::Entry;
use mc_inst_table::{Inst, Mode};
use mc_names::{Named, Names, defining_module};
use mc_source::det::{Det, Most};
use mc_source::place::Place;
use std::alloc::Global;

/// The declared modes of the predicates and functions of a program, by their numbers, each as its item writes it, in the
/// order of the items. A function without a mode has the default one. The files are those that were linked.
///
/// # Errors
///
/// `Memory` where there is no room.
pub fn declared_modes(
    alloc: Global,
    names: &Names,
    files: &[Row<Entry>],
) -> Result<Row<Row<WrittenMode>>, Memory>
    ensures { IfOk result
        (λ rows.
        map (map plain_written) rows ≡ declared_modes (plain_names names.now) (plain_files files.now)) }
{
    let indices = indices(alloc, files)?;
    let mut rows = Vec::new(alloc);
    for named in names.preds.as_slice() {
        rows.push(modes_of(alloc, names, indices.as_slice(), named)?)?;
    }
    let rows = Row::of(rows)?;
    Ok(rows)
}

// The modes of a predicate or a function, by the indices of the files.
fn modes_of(
    alloc: Global,
    names: &Names,
    indices: &[ItemsByName<'_>],
    named: &Named,
) -> Result<Row<WrittenMode>, Memory>
    ensures { IfOk result
        (λ modes. (files : List File) → AreIndices indices.now files
        → map plain_written modes ≡ modes_of (plain_names names.now) files (plain_named named.now)) }
{
    let own = defining_module(names, named);
    let wanted = callable_of(named);
    let modes = modes_in(alloc, names, own, wanted, indices)?;
    let all = or_default(alloc, named, wanted.is_function, modes)?;
    let row = Row::of(all)?;
    Ok(row)
}

// The modes of one that the items of its module declare.
fn modes_in(
    alloc: Global,
    names: &Names,
    own: u32,
    wanted: Callable<'_>,
    indices: &[ItemsByName<'_>],
) -> Result<Vec<WrittenMode>, Memory>
    ensures { IfOk result
        (λ modes.
        map plain_written modes.items
        ≡ modes_among (plain_names names.now) own (plain_callable wanted.entry)
        (listed (slice_index_or (map items_kept indices.now) own []) wanted.entry.id.name.now)) }
{
    match indices.get(own as usize) {
        Some(index) => modes_listed(alloc, names, own, wanted, index),
        None => Ok(Vec::new(alloc)),
    }
}

// The modes of one that the items of its name declare.
fn modes_listed(
    alloc: Global,
    names: &Names,
    own: u32,
    wanted: Callable<'_>,
    index: &ItemsByName<'_>,
) -> Result<Vec<WrittenMode>, Memory>
    ensures { IfOk result
        (λ modes.
        map plain_written modes.items
        ≡ modes_among (plain_names names.now) own (plain_callable wanted.entry)
        (listed (items_kept index.now) wanted.entry.id.name.now)) }
{
    match index.named.get(wanted.id.name) {
        Some(entries) => modes_among(alloc, names, own, wanted, entries.as_slice()),
        None => Ok(Vec::new(alloc)),
    }
}

// The modes of one that items declare.
#[tactic(auto, using(crate::proofs::Behind::among_more))]
fn modes_among(
    alloc: Global,
    names: &Names,
    own: u32,
    wanted: Callable<'_>,
    entries: &[&Entry],
) -> Result<Vec<WrittenMode>, Memory>
    ensures { IfOk result
        (λ modes.
        map plain_written modes.items
        ≡ modes_among (plain_names names.now) own (plain_callable wanted.entry) (map entry_behind entries.now)) }
{
    let mut modes = Vec::new(alloc);
    for &entry in entries {
        put_mode(alloc, names, own, wanted, entry, &mut modes)?;
    }
    Ok(modes)
}

// The mode of one that an item declares.
fn put_mode(
    alloc: Global,
    names: &Names,
    own: u32,
    wanted: Callable<'_>,
    entry: &Entry,
    modes: &mut Vec<WrittenMode>,
) -> Result<(), Memory>
    ensures { OnOk result
        (map plain_written modes.new.items
        ≡ map plain_written modes.old.items
        ++ modes_by (plain_names names.now) own (plain_callable wanted.entry) (plain_entry entry.now)) }
{
    if !is_of(wanted, &entry.decl) {
        return Ok(());
    }
    let mode = mode_by(alloc, names, own, entry)?;
    put_some(mode, modes)
}

#[tactic(auto, using(crate::proofs::Behind::written_behind))]
fn put_some(mode: Option<WrittenMode>, modes: &mut Vec<WrittenMode>) -> Result<(), Memory>
    ensures { OnOk result
        (map plain_written modes.new.items
        ≡ map plain_written modes.old.items ++ option_to_list (option_map plain_written mode)) }
{
    match mode {
        Some(mode) => {
            modes.push(mode)?;
            Ok(())
        }
        None => Ok(()),
    }
}

// These modes, or a function's default one where there are none.
fn or_default(
    alloc: Global,
    named: &Named,
    has_default: bool,
    mut modes: Vec<WrittenMode>,
) -> Result<Vec<WrittenMode>, Memory>
    requires { has_default ≡ is_function (plain_named named.now).item }
    ensures { IfOk result
        (λ all. map plain_written all.items ≡ or_default (plain_named named.now) (map plain_written modes.items)) }
{
    if !modes.is_empty() {
        return Ok(modes);
    }
    if has_default {
        modes.push(default_mode(alloc, named.name.arity, named.at)?)?;
    }
    Ok(modes)
}

// The mode of a function without one.
fn default_mode(alloc: Global, arity: u32, at: Place) -> Result<WrittenMode, Memory>
    ensures { IfOk result (λ m. plain_written m ≡ default_mode arity at) }
{
    let modes = default_modes(alloc, arity)?;
    let modes = Row::of(modes)?;
    let det = Some(Det {
        can_fail: false,
        most: Most::One,
        committed: false,
    });
    Ok(WrittenMode { modes, det, at })
}

fn default_modes(alloc: Global, arity: u32) -> Result<Vec<Mode>, Memory>
    ensures { IfOk result
        (λ modes.
        map plain_mode modes.items
        ≡ replicate arity (from_to (inst_node 1) (inst_node 1))
        ++ (from_to (inst_node 0) (inst_node 1) ∷ [])) }
{
    let mut modes = Vec::new(alloc);
    for argument in 0..arity {
        modes.push(input())?;
    }
    modes.push(output())?;
    Ok(modes)
}

fn input() -> Mode
    ensures { plain_mode result ≡ from_to (inst_node 1) (inst_node 1) }
{
    Mode::FromTo(Inst::Node(1), Inst::Node(1))
}

fn output() -> Mode
    ensures { plain_mode result ≡ from_to (inst_node 0) (inst_node 1) }
{
    Mode::FromTo(Inst::Node(0), Inst::Node(1))
}
