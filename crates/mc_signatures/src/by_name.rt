ghost use Rattle.std.specs.Prelude.{◌≡◌, ℕ, ◌++◌, ◌∷◌, [], List, map, if◌then◌else◌, IfOk, OnOk};
ghost use Rattle.std.specs.Str.{bytes_eq};
ghost use Rattle.mc_decl_syntax.specs.Entries.{plain_entry, plain_files};
ghost use Rattle.mc_names.specs.code.Index.{listed};
ghost use Rattle.mc_signatures.specs.WrittenModes.{callable};
ghost use Rattle.mc_signatures.specs.code.ByName.{entry_behind, items_kept, if_named, of_name, AreIndices};

use crate::callable::of_item;
use indexmap::IndexMap;
use mc_base::{Memory, Row};
use mc_decl_syntax::Entry;
use std::alloc::Global;

/// The items of a file by the names of what they declare a mode of. A look-up takes the time of one hash.
#[derive(Drop)]
pub struct ItemsByName<'a> {
    /// The items of each name, in the order of the file.
    pub named: IndexMap<&'a [u8], Vec<&'a Entry>>,
}

impl<'a> ItemsByName<'a> {
    fn new(alloc: Global) -> ItemsByName<'a>
        ensures { items_kept result ≡ [] }
    {
        ItemsByName {
            named: IndexMap::new(alloc),
        }
    }

    // Takes the items of a name out, in order.
    fn take(&mut self, alloc: Global, name: &'a [u8]) -> Result<Vec<&'a Entry>, Memory>
        ensures taken { IfOk result
            (λ group. map entry_behind group.items ≡ listed (items_kept self.old) name.now) }
        ensures left { OnOk result ((w : List ℕ) → listed (items_kept self.new) w
            ≡ (if bytes_eq w name.now then [] else listed (items_kept self.old) w)) }
    {
        match self.named.insert(name, Vec::new(alloc))? {
            Some(group) => Ok(group),
            None => Ok(Vec::new(alloc)),
        }
    }

    // Puts an item behind the others of its name. These are taken out and put back, so that they aren't copied.
    fn put(&mut self, alloc: Global, name: &'a [u8], entry: &'a Entry) -> Result<(), Memory>
        ensures { OnOk result ((w : List ℕ) → listed (items_kept self.new) w
            ≡ listed (items_kept self.old) w ++ (if bytes_eq w name.now then plain_entry entry.now ∷ [] else [])) }
    {
        let mut group = self.take(alloc, name)?;
        group.push(entry)?;
        self.named.insert(name, group)?;
        Ok(())
    }

    // Puts an item behind the others of its name, if it declares a mode.
    fn put_item(&mut self, alloc: Global, entry: &'a Entry) -> Result<(), Memory>
        ensures { OnOk result ((w : List ℕ) → listed (items_kept self.new) w
            ≡ listed (items_kept self.old) w ++ if_named w (callable (plain_entry entry.now).0) (plain_entry entry.now)) }
    {
        match of_item(&entry.decl) {
            Some(callable) => self.put(alloc, callable.id.name, entry),
            None => Ok(()),
        }
    }
}

// The items of a file by name.
fn items_by_name(alloc: Global, entries: &[Entry]) -> Result<ItemsByName<'_>, Memory>
    ensures { IfOk result
        (λ index. (w : List ℕ) → listed (items_kept index) w ≡ of_name w (map plain_entry entries.now)) }
{
    let mut index = ItemsByName::new(alloc);
    for entry in entries {
        index.put_item(alloc, entry)?;
    }
    Ok(index)
}

/// The items of each file by name.
pub fn indices(alloc: Global, files: &[Row<Entry>]) -> Result<Vec<ItemsByName<'_>>, Memory>
    ensures { IfOk result (λ all. AreIndices all.items (plain_files files.now)) }
{
    let mut all = Vec::new(alloc);
    for entries in files {
        all.push(items_by_name(alloc, entries.as_slice())?)?;
    }
    Ok(all)
}
