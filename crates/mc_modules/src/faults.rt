ghost use Rattle.std.specs.Prelude.{◌≡◌, ◌++◌, ◌<◌, List, [], length, map, IfOk, OnOk};
ghost use Rattle.mc_source.specs.Rules.{broken_at};
ghost use Rattle.mc_decl_syntax.specs.Entries.{File, plain_files};
ghost use Rattle.mc_modules.specs.Files.{items_in_file};
ghost use Rattle.mc_modules.specs.Visible.{file_at};
ghost use Rattle.mc_modules.specs.Faults.{fault, faults_of, link_faults};
ghost use Rattle.mc_modules.specs.Kept.{plain_item_in_file};
ghost use Rattle.mc_modules.specs.code.Steps.{with_set, faults_behind};

use crate::item_in_file::ItemInFile;
use crate::linking::Linking;
use crate::table::put_all;
use mc_base::{Memory, Row, Text};
use mc_decl_syntax::Entry;
use mc_defs_uses::DefinitionSet;
use mc_source::place::Place;
use mc_source::rule::{Broken, Rule};
use std::alloc::Global;

impl<'a> Linking<'a> {
    /// The rules that the given files break, one for each faulty item, in their order. The library's modules break none.
    pub fn faults(&self, alloc: Global) -> Result<Vec<Broken>, Memory>
        ensures { IfOk result (λ broken. broken.items ≡ link_faults (plain_files self.now)) }
    {
        let mut broken = Vec::new(alloc);
        for own in 0..self.given() {
            self.file_faults(alloc, own, &mut broken)?;
        }
        Ok(broken)
    }

    // Adds the rules that the items of a file break.
    fn file_faults(&self, alloc: Global, own: u32, broken: &mut Vec<Broken>) -> Result<(), Memory>
        requires own { own < length self.now }
        ensures { OnOk result
            (broken.new.items
            ≡ broken.old.items
            ++ faults_of (plain_files self.now) own
            (file_at (plain_files self.now) own)) }
    {
        let items = self.items(own);
        if items.is_empty() {
            add_empty(alloc, own, broken)?;
            return Ok(());
        }
        self.item_faults(alloc, own, items, broken)?;
        Ok(())
    }

    fn item_faults(
        &self,
        alloc: Global,
        own: u32,
        items: &[ItemInFile<'a>],
        broken: &mut Vec<Broken>,
    ) -> Result<(), Memory>
        requires own { own < length self.now }
        ensures { OnOk result
            (broken.new.items
            ≡ broken.old.items
            ++ faults_behind (plain_files self.now) own
            (items_in_file (file_at (plain_files self.now) own))
            (with_set [] (map plain_item_in_file items.now))) }
    {
        let mut before = DefinitionSet::new(alloc);
        for item in items {
            self.add_fault(alloc, own, &before, item, broken)?;
            put_all(&mut before, &item.definitions)?;
        }
        Ok(())
    }

    // Adds the first rule that an item breaks.
    fn add_fault(
        &self,
        alloc: Global,
        own: u32,
        before: &DefinitionSet<'a>,
        item: &ItemInFile<'a>,
        broken: &mut Vec<Broken>,
    ) -> Result<(), Memory>
        requires own { own < length self.now }
        ensures { OnOk result
            (broken.new.items
            ≡ broken.old.items
            ++ broken_at (plain_item_in_file item.now).at
            (fault (plain_files self.now) own
            (items_in_file (file_at (plain_files self.now) own)) before.now
            (plain_item_in_file item.now))) }
    {
        if let Some((rule, what)) = self.fault(alloc, own, before, item)? {
            let at = item.entry.at;
            broken.push(Broken { rule, at, what })?;
        }
        Ok(())
    }
}

// A file without items is no module.
fn add_empty(alloc: Global, own: u32, broken: &mut Vec<Broken>) -> Result<(), Memory>
    ensures { OnOk result
        ((files : List File) → broken.new.items ≡ broken.old.items ++ faults_of files own []) }
{
    let rule = Rule::N1;
    let at = Place { file: own, line: 1 };
    let what = Text::new(alloc, b"module structure")?;
    broken.push(Broken { rule, at, what })?;
    Ok(())
}

/// The rules that the given files break, one for each faulty item, in their order. The last nine files are the
/// library's modules, which break none.
pub fn link_faults(alloc: Global, files: &[Row<Entry>]) -> Result<Vec<Broken>, Memory>
    ensures { IfOk result (λ broken. broken.items ≡ link_faults (plain_files files.now)) }
{
    Linking::of(alloc, files)?.faults(alloc)
}
