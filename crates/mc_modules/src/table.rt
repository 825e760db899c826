ghost use Rattle.std.specs.Prelude.{◌≡◌, cond, [], map, OnOk, IfOk};
ghost use Rattle.std.specs.Option.{option_map};
ghost use Rattle.mc_names.specs.Plain.{plain_name_arity, plain_definition};
ghost use Rattle.mc_defs_uses.specs.Sets.{put_all};
ghost use Rattle.mc_modules.specs.Files.{as_list, has};
ghost use Rattle.mc_modules.specs.Kept.{plain_item_in_file, table};
ghost use Rattle.mc_modules.specs.code.Tables.{with_item, tables};

use crate::item_in_file::ItemInFile;
use mc_base::{Memory, Row};
use mc_defs_uses::{DefinitionSet, clause_of, mode_of};
use mc_names::{Definition, Kind, NameArity};
use std::alloc::Global;

/// What the items of a file declare, what its interface shows of that, and what its clauses and further modes are of.
#[derive(Drop)]
pub struct Table<'a> {
    pub definitions: DefinitionSet<'a>,
    pub shown: DefinitionSet<'a>,
    pub clauses: DefinitionSet<'a>,
    pub modes: DefinitionSet<'a>,
}

impl<'a> Table<'a> {
    /// The table of a file's items.
    pub fn of(alloc: Global, items: &[ItemInFile<'a>]) -> Result<Table<'a>, Memory>
        ensures { IfOk result (λ t. t ≡ table (map plain_item_in_file items.now)) }
    {
        let mut table = Table {
            definitions: DefinitionSet::new(alloc),
            shown: DefinitionSet::new(alloc),
            clauses: DefinitionSet::new(alloc),
            modes: DefinitionSet::new(alloc),
        };
        for item in items {
            table.add(item)?;
        }
        Ok(table)
    }

    fn add(&mut self, item: &ItemInFile<'a>) -> Result<(), Memory>
        ensures { OnOk result (self.new ≡ with_item self.old (plain_item_in_file item.now)) }
    {
        let decl = &item.entry.decl;
        put_all(&mut self.definitions, &item.definitions)?;
        if item.section.is_shown() {
            put_all(&mut self.shown, &item.definitions)?;
        }
        put_one(&mut self.clauses, clause_of(decl))?;
        put_one(&mut self.modes, mode_of(decl))
    }

    /// Whether the file has a definition that a name of a kind may mean, for itself or for another.
    pub fn has(&self, is_own: bool, kind: Kind, id: NameArity<'a>) -> bool
        ensures { result
            ≡ has kind (plain_name_arity id.entry)
            (cond is_own self.now.definitions self.now.shown) }
    {
        let definitions = if is_own {
            &self.definitions
        } else {
            &self.shown
        };
        if definitions.contains(Definition { kind, id }) {
            return true;
        }
        match kind {
            Kind::DefinedType => definitions.contains(Definition {
                kind: Kind::AbstractType,
                id,
            }),
            _ => false,
        }
    }
}

/// Puts definitions into a set.
pub fn put_all<'a>(
    set: &mut DefinitionSet<'a>,
    definitions: &[Definition<'a>],
) -> Result<(), Memory>
    ensures { OnOk result (set.new ≡ put_all set.old (map plain_definition definitions.now)) }
{
    for definition in definitions {
        set.insert(*definition)?;
    }
    Ok(())
}

fn put_one<'a>(
    set: &mut DefinitionSet<'a>,
    definition: Option<Definition<'a>>,
) -> Result<(), Memory>
    ensures { OnOk result
        (set.new ≡ put_all set.old (as_list (option_map plain_definition definition.entry))) }
{
    if let Some(definition) = definition {
        set.insert(definition)?;
    }
    Ok(())
}

/// The tables of files, each by its items.
pub fn tables<'a>(alloc: Global, files: &[Row<ItemInFile<'a>>]) -> Result<Vec<Table<'a>>, Memory>
    ensures { IfOk result
        (λ all. all.items ≡ tables (map (map plain_item_in_file) files.now)) }
{
    let mut all = Vec::new(alloc);
    for items in files {
        all.push(Table::of(alloc, items.as_slice())?)?;
    }
    Ok(all)
}
