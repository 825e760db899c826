ghost use Rattle.std.specs.Prelude.{◌≡◌, ◌-◌, ◌<◌, ◌^◌, nat_eq, length, map, IfOk};
ghost use Rattle.std.specs.Set.{is_member};
ghost use Rattle.mc_names.specs.Plain.{plain_name_arity, joined};
ghost use Rattle.mc_decl_syntax.specs.Entries.{plain_entry, plain_files};
ghost use Rattle.mc_modules.specs.Files.{items_in_file};
ghost use Rattle.mc_modules.specs.Visible.{library_size, module_of, unqualified, seen, file_at, has_definition};
ghost use Rattle.mc_modules.specs.Visibilities.{visibility};
ghost use Rattle.mc_modules.specs.Kept.{plain_item_in_file, table};

use crate::item_in_file::ItemInFile;
use crate::items::all_items;
use crate::module_names::{LIBRARY_SIZE, ModuleNames};
use crate::table::{Table, tables};
use crate::visibility::{Visibility, visibilities};
use mc_base::{Memory, Row, Text};
use mc_decl_syntax::Entry;
use mc_names::{Kind, NameArity};
use std::alloc::Global;
use std::marker::Model;

/// Files, of which the last nine are the library's, with what their modules are named, see and declare. It is seen as
/// the files.
#[derive(Drop)]
pub struct Linking<'a> {
    files: &'a [Row<Entry>],
    names: ModuleNames,
    visibilities: Vec<Visibility>,
    items: Vec<Row<ItemInFile<'a>>>,
    tables: Vec<Table<'a>>,
}

impl<'a> Model for Linking<'a> {
    ghost use Rattle.std.specs.Prelude.{List};
    ghost use Rattle.mc_decl_syntax.specs.declared.entry.Entry.{Entry};

    ghost Value = { List (List Entry) };

    ghost use Rattle.mc_term_data.specs.contracts.term.Node as node;
    ghost use Rattle.std.specs.Coded.{codes};

    ghost coded = { Prim.hlevel (codes, node.the_row.coded) };

    ghost use Rattle.mc_modules.specs.code.Tables.{IsKept};

    ghost view = { λ l. l.files.now };

    ghost invariant = { λ l. IsKept l.files.now l.names l.visibilities.items l.items.items l.tables.items };
}

impl<'a> Linking<'a> {
    /// What files are named, see and declare.
    pub fn of(alloc: Global, files: &'a [Row<Entry>]) -> Result<Linking<'a>, Memory>
        ensures { IfOk result (λ linking. linking ≡ files.now) }
    {
        if files.len() > u32::MAX as usize {
            return Err(Memory);
        }
        let names = ModuleNames::of(alloc, files)?;
        let visibilities = visibilities(alloc, files, &names)?;
        let items = all_items(alloc, files)?;
        let tables = tables(alloc, &items)?;
        Ok(Linking {
            files,
            names,
            visibilities,
            items,
            tables,
        })
    }

    /// How many files there are.
    pub fn len(&self) -> u32
        ensures { result ≡ length self.now }
    {
        self.files.len() as u32
    }

    /// A file, by its number.
    pub fn file(&self, own: u32) -> &'a [Entry]
        requires { own < length self.now }
        ensures { map plain_entry result.now ≡ file_at (plain_files self.now) own }
    {
        self.files[own as usize].as_slice()
    }

    /// How many files there are before the library's.
    pub fn given(&self) -> u32
        ensures { result ≡ length self.now - library_size }
    {
        self.files.len().saturating_sub(LIBRARY_SIZE) as u32
    }

    /// The items of a file, each as it stands there.
    pub fn items(&self, own: u32) -> &[ItemInFile<'a>]
        requires { own < length self.now }
        ensures { map plain_item_in_file result.now ≡ items_in_file (file_at (plain_files self.now) own) }
    {
        self.items[own as usize].as_slice()
    }

    /// The number of the module that a name means.
    pub fn number(&self, alloc: Global, name: &[Text]) -> Result<Option<u32>, Memory>
        ensures { IfOk result
            (λ number. number ≡ module_of (plain_files self.now) (joined name.now)) }
    {
        let number = self.names.number(alloc, name)?;
        Ok(number)
    }

    /// What a module sees.
    pub fn visibility(&self, own: u32) -> &Visibility
        requires { own < length self.now }
        ensures { result.now ≡ visibility (plain_files self.now) own }
    {
        &self.visibilities[own as usize]
    }

    /// The modules whose names a module may write unqualified.
    pub fn unqualified(&self, own: u32) -> &[u32]
        requires own { own < length self.now }
        ensures items { result.now ≡ unqualified (plain_files self.now) own }
        ensures small { length result.now < 2 ^ 32 }
    {
        self.visibility(own).unqualified.as_slice()
    }

    // The modules that a module sees.
    fn seen(&self, own: u32) -> &[u32]
        requires own { own < length self.now }
        ensures items { result.now ≡ seen (plain_files self.now) own }
    {
        self.visibility(own).seen.as_slice()
    }

    /// Whether a module sees another.
    #[tactic(auto, using(crate::proofs::ModulesSeen::contains_is))]
    pub fn is_seen(&self, own: u32, number: u32) -> bool
        requires own { own < length self.now }
        ensures { result ≡ is_member nat_eq (seen (plain_files self.now) own) number }
    {
        self.seen(own).contains(&number)
    }

    /// What a module declares.
    pub fn table(&self, own: u32) -> &Table<'a>
        requires own { own < length self.now }
        ensures { result.now ≡ table (items_in_file (file_at (plain_files self.now) own)) }
    {
        &self.tables[own as usize]
    }

    /// Whether a module has a definition, for itself or for another.
    pub fn has_definition(&self, own: u32, number: u32, kind: Kind, id: NameArity<'a>) -> bool
        ensures { result
            ≡ has_definition (plain_files self.now) own kind (plain_name_arity id.entry) number }
    {
        if number as usize >= self.files.len() {
            return false;
        }
        self.table(number).has(own == number, kind, id)
    }
}
