ghost use Rattle.std.specs.Prelude.{◌≡◌, ◌++◌, ◌<◌, map, length, IfOk, OnOk};
ghost use Rattle.mc_decl_syntax.specs.Plain.{plain_item};
ghost use Rattle.mc_names.specs.Definitions.{definitions};
ghost use Rattle.mc_decl_syntax.specs.Entries.{plain_entry, plain_files};
ghost use Rattle.mc_modules.specs.Visible.{file_at};
ghost use Rattle.mc_modules.specs.Kept.{plain_item_in_file};
ghost use Rattle.mc_modules.specs.Linked.{symbols_by, of_kind, is_pred, is_inst, is_mode, types_of, symbols_of, preds_of, insts_of, modes_defined, symbols_in, sorted_in, name_of};
ghost use Rattle.mc_names.specs.Linked.{plain_named};
ghost use Rattle.mc_modules.specs.code.Passes.{types_with, types_pass};

use crate::named::{put_sorted, put_symbols, put_whole};
use crate::{ItemInFile, Linking, Table, module_name};
use mc_base::{Memory, Row, Text};
use mc_decl_syntax::{Decl, Entry};
use mc_names::{Definition, Kind, NameArity, Named, PerKind, head_name, joined, nothing, rows};
use std::alloc::Global;

/// The name of the module that a file is, or none.
pub fn name_of(alloc: Global, file: &[Entry]) -> Result<Text, Memory>
    ensures { IfOk result (λ name. name ≡ name_of (map plain_entry file.now)) }
{
    match module_name(file) {
        Some(name) => joined(alloc, name),
        None => Ok(Text::empty(alloc)),
    }
}

// Puts the type of an item of a file with this table behind others.
fn put_type<'a>(
    alloc: Global,
    module: &Text,
    table: &Table<'a>,
    item: &ItemInFile<'a>,
    types: &mut Vec<Named>,
) -> Result<(), Memory>
    ensures { OnOk result
        (map plain_named types.new.items
        ≡ map plain_named types.old.items
        ++ types_with «module».now table.now (plain_item_in_file item.now)
        (plain_item_in_file item.now).item) }
{
    let kind = Kind::DefinedType;
    match &item.entry.decl {
        Decl::AbstractType(head) => {
            let id = head_name(head);
            if table.definitions.contains(Definition { kind, id }) {
                return Ok(());
            }
            put_whole(alloc, module, item, table.has(false, kind, id), id, types)
        }
        Decl::UnionType(head, _) => {
            let id = head_name(head);
            put_whole(alloc, module, item, table.has(false, kind, id), id, types)
        }
        Decl::SameType(head, _) => {
            let id = head_name(head);
            put_whole(alloc, module, item, table.has(false, kind, id), id, types)
        }
        _ => Ok(()),
    }
}

fn is_pred(decl: &Decl) -> bool
    ensures { result ≡ is_pred (plain_item decl.now) }
{
    matches!(decl, Decl::Pred(_, _) | Decl::Func(_, _))
}

fn is_inst(decl: &Decl) -> bool
    ensures { result ≡ is_inst (plain_item decl.now) }
{
    matches!(decl, Decl::SameInst(_, _) | Decl::BoundInst(_, _))
}

fn is_mode(decl: &Decl) -> bool
    ensures { result ≡ is_mode (plain_item decl.now) }
{
    matches!(decl, Decl::ModeDef(_, _))
}

// Puts what an item has behind the others.
fn put_item<'a>(
    alloc: Global,
    module: &Text,
    table: &Table<'a>,
    item: &ItemInFile<'a>,
    part: &mut PerKind<Vec<Named>>,
) -> Result<(), Memory>
    ensures types { OnOk result
        (map plain_named part.new.types.items
        ≡ map plain_named part.old.types.items
        ++ types_with «module».now table.now (plain_item_in_file item.now)
        (plain_item_in_file item.now).item) }
    ensures symbols { OnOk result
        (map plain_named part.new.symbols.items
        ≡ map plain_named part.old.symbols.items
        ++ symbols_by «module».now (plain_item_in_file item.now)
        (plain_item_in_file item.now).item) }
    ensures preds { OnOk result
        (map plain_named part.new.preds.items
        ≡ map plain_named part.old.preds.items
        ++ of_kind «module».now (plain_item_in_file item.now)
        (is_pred (plain_item_in_file item.now).item)
        (definitions (plain_item_in_file item.now).item)) }
    ensures insts { OnOk result
        (map plain_named part.new.insts.items
        ≡ map plain_named part.old.insts.items
        ++ of_kind «module».now (plain_item_in_file item.now)
        (is_inst (plain_item_in_file item.now).item)
        (definitions (plain_item_in_file item.now).item)) }
    ensures modes { OnOk result
        (map plain_named part.new.modes.items
        ≡ map plain_named part.old.modes.items
        ++ of_kind «module».now (plain_item_in_file item.now)
        (is_mode (plain_item_in_file item.now).item)
        (definitions (plain_item_in_file item.now).item)) }
{
    let decl = &item.entry.decl;
    put_type(alloc, module, table, item, &mut part.types)?;
    put_symbols(alloc, module, item, &mut part.symbols)?;
    put_sorted(alloc, module, item, is_pred(decl), &mut part.preds)?;
    put_sorted(alloc, module, item, is_inst(decl), &mut part.insts)?;
    put_sorted(alloc, module, item, is_mode(decl), &mut part.modes)
}

// What the items of a file with this table have, of each sort, in order.
fn part_with<'a>(
    alloc: Global,
    module: &Text,
    table: &Table<'a>,
    items: &[ItemInFile<'a>],
) -> Result<PerKind<Row<Named>>, Memory>
    ensures types { IfOk result
        (λ p.
        map plain_named p.types
        ≡ types_pass «module».now table.now (map plain_item_in_file items.now)) }
    ensures symbols { IfOk result
        (λ p.
        map plain_named p.symbols
        ≡ symbols_in «module».now (map plain_item_in_file items.now)) }
    ensures preds { IfOk result
        (λ p.
        map plain_named p.preds
        ≡ sorted_in is_pred «module».now (map plain_item_in_file items.now)) }
    ensures insts { IfOk result
        (λ p.
        map plain_named p.insts
        ≡ sorted_in is_inst «module».now (map plain_item_in_file items.now)) }
    ensures modes { IfOk result
        (λ p.
        map plain_named p.modes
        ≡ sorted_in is_mode «module».now (map plain_item_in_file items.now)) }
{
    let mut part = nothing(alloc);
    for item in items {
        put_item(alloc, module, table, item, &mut part)?;
    }
    rows(part)
}

/// What a file has of each sort, in order.
#[tactic(auto, using(crate::proofs::FileLaws::types_are))]
pub fn part_of(alloc: Global, linking: &Linking, own: u32) -> Result<PerKind<Row<Named>>, Memory>
    requires { own < length linking.now }
    ensures types { IfOk result
        (λ p. map plain_named p.types ≡ types_of (file_at (plain_files linking.now) own)) }
    ensures symbols { IfOk result
        (λ p. map plain_named p.symbols ≡ symbols_of (file_at (plain_files linking.now) own)) }
    ensures preds { IfOk result
        (λ p. map plain_named p.preds ≡ preds_of (file_at (plain_files linking.now) own)) }
    ensures insts { IfOk result
        (λ p. map plain_named p.insts ≡ insts_of (file_at (plain_files linking.now) own)) }
    ensures modes { IfOk result
        (λ p. map plain_named p.modes ≡ modes_defined (file_at (plain_files linking.now) own)) }
{
    let module = name_of(alloc, linking.file(own))?;
    part_with(alloc, &module, linking.table(own), linking.items(own))
}
