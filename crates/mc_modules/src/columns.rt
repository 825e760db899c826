ghost use Rattle.std.specs.Prelude.{◌≡◌, ◌++◌, ◌∷◌, ◌<◌, [], length, map, IfOk, OnOk};
ghost use Rattle.mc_decl_syntax.specs.Entries.{plain_files};
ghost use Rattle.mc_modules.specs.Visible.{file_at};
ghost use Rattle.mc_modules.specs.Linked.{types_of, symbols_of, preds_of, insts_of, modes_defined};
ghost use Rattle.mc_names.specs.Linked.{plain_named};
ghost use Rattle.mc_modules.specs.code.Passes.{AreParts};

use crate::Linking;
use crate::by_module::ByModule;
use crate::part::part_of;
use mc_base::{Memory, Row};
use mc_names::{Named, PerKind, nothing};
use std::alloc::Global;

// Puts what a file has behind what the others have.
fn put_part(
    alloc: Global,
    linking: &Linking,
    own: u32,
    parts: &mut PerKind<Vec<Row<Named>>>,
) -> Result<(), Memory>
    requires { own < length linking.now }
    ensures types { OnOk result
        (map (map plain_named) parts.new.types.items
        ≡ map (map plain_named) parts.old.types.items
        ++ types_of (file_at (plain_files linking.now) own) ∷ []) }
    ensures symbols { OnOk result
        (map (map plain_named) parts.new.symbols.items
        ≡ map (map plain_named) parts.old.symbols.items
        ++ symbols_of (file_at (plain_files linking.now) own) ∷ []) }
    ensures preds { OnOk result
        (map (map plain_named) parts.new.preds.items
        ≡ map (map plain_named) parts.old.preds.items
        ++ preds_of (file_at (plain_files linking.now) own) ∷ []) }
    ensures insts { OnOk result
        (map (map plain_named) parts.new.insts.items
        ≡ map (map plain_named) parts.old.insts.items
        ++ insts_of (file_at (plain_files linking.now) own) ∷ []) }
    ensures modes { OnOk result
        (map (map plain_named) parts.new.modes.items
        ≡ map (map plain_named) parts.old.modes.items
        ++ modes_defined (file_at (plain_files linking.now) own) ∷ []) }
{
    let PerKind {
        types,
        symbols,
        preds,
        insts,
        modes,
    } = part_of(alloc, linking, own)?;
    parts.types.push(types)?;
    parts.symbols.push(symbols)?;
    parts.preds.push(preds)?;
    parts.insts.push(insts)?;
    parts.modes.push(modes)?;
    Ok(())
}

// What each file has of each sort.
fn parts(alloc: Global, linking: &Linking) -> Result<PerKind<Vec<Row<Named>>>, Memory>
    ensures { IfOk result
        (λ c.
        AreParts (plain_files linking.now) c.types.items c.symbols.items c.preds.items
        c.insts.items c.modes.items) }
{
    let mut parts = nothing(alloc);
    for own in 0..linking.len() {
        put_part(alloc, linking, own, &mut parts)?;
    }
    Ok(parts)
}

/// What each file has of each sort, with the numbers.
pub fn columns(alloc: Global, linking: &Linking) -> Result<PerKind<ByModule>, Memory>
    ensures { IfOk result
        (λ c.
        AreParts (plain_files linking.now) c.types.has.items c.symbols.has.items
        c.preds.has.items c.insts.has.items c.modes.has.items) }
{
    let PerKind {
        types,
        symbols,
        preds,
        insts,
        modes,
    } = parts(alloc, linking)?;
    Ok(PerKind {
        types: ByModule::of(alloc, types)?,
        symbols: ByModule::of(alloc, symbols)?,
        preds: ByModule::of(alloc, preds)?,
        insts: ByModule::of(alloc, insts)?,
        modes: ByModule::of(alloc, modes)?,
    })
}
