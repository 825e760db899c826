ghost use Rattle.std.specs.Prelude.{◌≡◌, map, IfOk};
ghost use Rattle.mc_decl_syntax.specs.Entries.{plain_entry};
ghost use Rattle.mc_names.specs.Plain.{joined};
ghost use Rattle.mc_modules.specs.Files.{module_name};
ghost use Rattle.mc_modules.specs.Faults.{is_misplaced, is_module_of, structure_fault};
ghost use Rattle.mc_modules.specs.Kept.{plain_item_in_file};

use crate::item_in_file::ItemInFile;
use crate::module_names::module_name;
use crate::section::Section;
use mc_base::{Memory, Text};
use mc_decl_syntax::{Decl, Entry};
use mc_names::joined;
use mc_source::rule::Rule;
use std::alloc::Global;

/// The rule N1, where an item of a file stands where it must not.
pub fn structure_fault(
    alloc: Global,
    file: &[Entry],
    item: &ItemInFile<'_>,
) -> Result<Option<(Rule, Text)>, Memory>
    ensures { IfOk result
        (λ fault.
        fault
        ≡ structure_fault (module_name (map plain_entry file.now))
        (plain_item_in_file item.now)) }
{
    if !is_misplaced(alloc, file, item)? {
        return Ok(None);
    }
    Ok(Some((Rule::N1, Text::new(alloc, b"module structure")?)))
}

// A module begins with its name and may end with it; items stand in sections, and clauses not in an interface.
fn is_misplaced(alloc: Global, file: &[Entry], item: &ItemInFile<'_>) -> Result<bool, Memory>
    ensures { IfOk result
        (λ is.
        is
        ≡ is_misplaced (module_name (map plain_entry file.now)) (plain_item_in_file item.now)
        (plain_item_in_file item.now).item) }
{
    let is_nowhere = matches!(item.section, Section::Nowhere);
    match &item.entry.decl {
        Decl::ModuleStart(_) => Ok(!item.is_first),
        Decl::ModuleEnd(name) => Ok(
            item.is_first
                || is_nowhere
                || !item.is_last
                || !is_name_of(alloc, file, name.as_slice())?,
        ),
        Decl::Interface | Decl::Implementation => Ok(item.is_first),
        Decl::Clause(_) => { Ok(item.is_first || !matches!(item.section, Section::Implementation)) }
        _ => Ok(item.is_first || is_nowhere),
    }
}

// Whether a name is that of the module that a file is.
fn is_name_of(alloc: Global, file: &[Entry], name: &[Text]) -> Result<bool, Memory>
    ensures { IfOk result (λ is. is ≡ is_module_of (module_name (map plain_entry file.now)) name.now) }
{
    match module_name(file) {
        Some(own) => {
            let own = joined(alloc, own)?;
            let name = joined(alloc, name)?;
            Ok(own.bytes() == name.bytes())
        }
        None => Ok(false),
    }
}
