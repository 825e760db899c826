ghost use Rattle.std.specs.Prelude.{◌≡◌, map, IfOk};
ghost use Rattle.mc_decl_syntax.specs.Entries.{plain_entry, plain_files};
ghost use Rattle.mc_modules.specs.Files.{items_in_file};
ghost use Rattle.mc_modules.specs.Kept.{plain_item_in_file};
ghost use Rattle.mc_modules.specs.code.Tables.{all_items};

use crate::item_in_file::ItemInFile;
use crate::section::Section;
use mc_base::{Memory, Row};
use mc_decl_syntax::Entry;
use mc_defs_uses::definitions;
use std::alloc::Global;

// The items of a file, each as it stands there.
fn items_in_file<'a>(alloc: Global, file: &'a [Entry]) -> Result<Row<ItemInFile<'a>>, Memory>
    ensures { IfOk result
        (λ all. map plain_item_in_file all ≡ items_in_file (map plain_entry file.now)) }
{
    let mut all = Vec::new(alloc);
    let mut section = Section::Nowhere;
    for (index, entry) in file.iter().enumerate() {
        let is_first = index == 0;
        let is_last = index + 1 == file.len();
        let definitions = definitions(alloc, &entry.decl)?;
        all.push(ItemInFile {
            entry,
            section,
            is_first,
            is_last,
            definitions,
        })?;
        section = section.after(&entry.decl);
    }
    Row::of(all)
}

/// The items of each file, each as it stands there.
pub fn all_items<'a>(
    alloc: Global,
    files: &'a [Row<Entry>],
) -> Result<Vec<Row<ItemInFile<'a>>>, Memory>
    ensures { IfOk result
        (λ all. map (map plain_item_in_file) all.items ≡ all_items (plain_files files.now)) }
{
    let mut all = Vec::new(alloc);
    for file in files {
        all.push(items_in_file(alloc, file.as_slice())?)?;
    }
    Ok(all)
}
