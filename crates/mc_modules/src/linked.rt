ghost use Rattle.std.specs.Prelude.{◌≡◌, [], IfOk, IfErr};
ghost use Rattle.mc_decl_syntax.specs.Entries.{plain_files};
ghost use Rattle.mc_modules.specs.Faults.{link_faults};
ghost use Rattle.mc_modules.specs.Linked.{linked};
ghost use Rattle.mc_names.specs.Linked.{plain_names};
ghost use Rattle.mc_modules.specs.Refused.{IsRefusedLink};

use crate::Linking;
use crate::columns::columns;
use crate::numbered::declared;
use crate::scopes::scopes;
use mc_base::{Memory, Row};
use mc_decl_syntax::{Entry, ItemsFault};
use mc_names::{Names, PerKind};
use std::alloc::Global;

/// The names of a program, whatever rules it breaks.
pub fn program_names(alloc: Global, linking: &Linking) -> Result<Names, Memory>
    ensures { IfOk result (λ names. plain_names names ≡ linked (plain_files linking.now)) }
{
    let columns = columns(alloc, linking)?;
    let declared = declared(alloc, linking, &columns)?;
    let scopes = scopes(alloc, linking, &columns)?;
    let named = PerKind {
        types: columns.types.flat(alloc)?,
        symbols: columns.symbols.flat(alloc)?,
        preds: columns.preds.flat(alloc)?,
        insts: columns.insts.flat(alloc)?,
        modes: columns.modes.flat(alloc)?,
    };
    Names::indexed(alloc, named, scopes, declared)
}

/// The names of a program that breaks no rule of the phase that links.
///
/// # Errors
///
/// `Broken` where items of the given files break rules: one for each such item, its first, in the order of the files.
pub fn legal_names(alloc: Global, linking: &Linking) -> Result<Names, ItemsFault>
    ensures names { IfOk result (λ names. plain_names names ≡ linked (plain_files linking.now)) }
    ensures legal { IfOk result (λ _. link_faults (plain_files linking.now) ≡ []) }
    ensures refusal { IfErr result (IsRefusedLink (plain_files linking.now)) }
{
    let broken = linking.faults(alloc)?;
    if broken.is_empty() {
        return Ok(program_names(alloc, linking)?);
    }
    Err(ItemsFault::Broken(Row::of(broken)?))
}

/// The names of a program, by the items of its files, which are as they were read. The last nine files are the
/// library's modules.
///
/// # Errors
///
/// `Broken` where items of the given files break rules of the phase that links: one for each such item, its first, in
/// the order of the files.
pub fn link(alloc: Global, files: &Row<Row<Entry>>) -> Result<Names, ItemsFault>
    ensures names { IfOk result (λ names. plain_names names ≡ linked (plain_files files.now)) }
    ensures legal { IfOk result (λ _. link_faults (plain_files files.now) ≡ []) }
    ensures refusal { IfErr result (IsRefusedLink (plain_files files.now)) }
{
    legal_names(alloc, &Linking::of(alloc, files.as_slice())?)
}
