ghost use Rattle.std.specs.Prelude.{◌≡◌, ◌<◌, map, length, IfOk};
ghost use Rattle.mc_decl_syntax.specs.Entries.{plain_files};
ghost use Rattle.mc_names.specs.Linked.{plain_named};
ghost use Rattle.mc_modules.specs.Linked.{scope, scopes_from};
ghost use Rattle.mc_modules.specs.code.Passes.{AreParts, scope_over};

use crate::by_module::ByModule;
use crate::part::name_of;
use crate::{Linking, Visibility};
use mc_base::{Copied, Memory, Row, Text};
use mc_names::{PerKind, Scope};
use std::alloc::Global;

// What a module of this name sees.
fn scope(
    alloc: Global,
    name: Text,
    own: u32,
    visibility: &Visibility,
    columns: &PerKind<ByModule>,
) -> Result<Scope, Memory>
    ensures { IfOk result
        (λ s.
        s
        ≡ scope_over name visibility.now own (map (map plain_named) columns.now.types.has.items)
        (map (map plain_named) columns.now.symbols.has.items)
        (map (map plain_named) columns.now.preds.has.items)
        (map (map plain_named) columns.now.insts.has.items)
        (map (map plain_named) columns.now.modes.has.items)) }
{
    let seen = visibility.seen.copied(alloc)?;
    Ok(Scope {
        module: name,
        types: columns.types.visible(alloc, own, &seen)?,
        symbols: columns.symbols.visible(alloc, own, &seen)?,
        preds: columns.preds.visible(alloc, own, &seen)?,
        insts: columns.insts.visible(alloc, own, &seen)?,
        modes: columns.modes.visible(alloc, own, &seen)?,
        unqualified: visibility.unqualified.copied(alloc)?,
        seen,
    })
}

// What a file sees.
fn scope_of(
    alloc: Global,
    linking: &Linking,
    own: u32,
    columns: &PerKind<ByModule>,
) -> Result<Scope, Memory>
    requires own { own < length linking.now }
    requires columns { AreParts (plain_files linking.now) columns.now.types.has.items
        columns.now.symbols.has.items columns.now.preds.has.items columns.now.insts.has.items
        columns.now.modes.has.items }
    ensures { IfOk result (λ s. s ≡ scope (plain_files linking.now) own) }
{
    let name = name_of(alloc, linking.file(own))?;
    scope(alloc, name, own, linking.visibility(own), columns)
}

/// What each module sees.
pub fn scopes(
    alloc: Global,
    linking: &Linking,
    columns: &PerKind<ByModule>,
) -> Result<Row<Scope>, Memory>
    requires { AreParts (plain_files linking.now) columns.now.types.has.items
        columns.now.symbols.has.items columns.now.preds.has.items columns.now.insts.has.items
        columns.now.modes.has.items }
    ensures { IfOk result
        (λ all. all ≡ scopes_from (plain_files linking.now) 0 (plain_files linking.now)) }
{
    let mut all = Vec::new(alloc);
    for own in 0..linking.len() {
        all.push(scope_of(alloc, linking, own, columns)?)?;
    }
    Row::of(all)
}
