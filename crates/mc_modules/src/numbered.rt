ghost use Rattle.std.specs.Prelude.{◌≡◌, ◌+◌, ◌++◌, List, [], map, length, IfOk, OnOk};
ghost use Rattle.mc_names.specs.Plain.{PlainDefinition, plain_definition};
ghost use Rattle.mc_modules.specs.Files.{definitions_of};
ghost use Rattle.mc_decl_syntax.specs.Entries.{plain_files};
ghost use Rattle.mc_modules.specs.Kept.{plain_item_in_file};
ghost use Rattle.mc_modules.specs.Linked.{as_numbered, next_con, next_pred, numbered, declared_from};
ghost use Rattle.mc_modules.specs.code.Passes.{AreParts};

use crate::by_module::ByModule;
use crate::{ItemInFile, Linking};
use mc_base::{Memory, Row};
use mc_names::{Definition, Kind, PerKind};
use mc_source::name::Candidate;
use std::alloc::Global;

// Candidates that are numbered so far, and the numbers of the next ones.
#[derive(Drop)]
struct Numbered {
    all: Vec<Candidate>,
    con: u32,
    pred: u32,
}

// The number behind another.
fn next(number: u32) -> Result<u32, Memory>
    ensures { IfOk result (λ n. n ≡ number + 1) }
{
    if number == u32::MAX {
        return Err(Memory);
    }
    Ok(number + 1)
}

impl Numbered {
    fn put(&mut self, kind: Kind) -> Result<(), Memory>
        ensures all { OnOk result
            (self.new.all.items
            ≡ self.old.all.items ++ as_numbered kind self.old.con self.old.pred) }
        ensures con { OnOk result (self.new.con ≡ next_con kind self.old.con) }
        ensures pred { OnOk result (self.new.pred ≡ next_pred kind self.old.pred) }
    {
        match kind {
            Kind::Symbol => {
                self.all.push(Candidate::Con(self.con))?;
                self.con = next(self.con)?;
                Ok(())
            }
            Kind::Func => {
                self.all.push(Candidate::Func(self.pred))?;
                self.pred = next(self.pred)?;
                Ok(())
            }
            Kind::Pred => {
                self.all.push(Candidate::Pred(self.pred))?;
                self.pred = next(self.pred)?;
                Ok(())
            }
            _ => Ok(()),
        }
    }

    fn put_all(&mut self, definitions: &[Definition]) -> Result<(), Memory>
        ensures { OnOk result ((ts : List PlainDefinition) → self.new.all.items ++ numbered self.new.con self.new.pred ts ≡ self.old.all.items ++ numbered self.old.con self.old.pred (map plain_definition definitions.now ++ ts)) }
    {
        for definition in definitions {
            self.put(definition.kind)?;
        }
        Ok(())
    }
}

// The constructors, functions and predicates of a file's items, each by its number.
fn numbered_in(
    alloc: Global,
    con: u32,
    pred: u32,
    items: &[ItemInFile],
) -> Result<Row<Candidate>, Memory>
    ensures { IfOk result
        (λ all. all ≡ numbered con pred (definitions_of (map plain_item_in_file items.now))) }
{
    let all = Vec::new(alloc);
    let mut found = Numbered { all, con, pred };
    for item in items {
        found.put_all(item.definitions.as_slice())?;
    }
    Row::of(found.all)
}

/// What each module has that a name in a term or a goal may mean.
pub fn declared(
    alloc: Global,
    linking: &Linking,
    columns: &PerKind<ByModule>,
) -> Result<Row<Row<Candidate>>, Memory>
    requires { AreParts (plain_files linking.now) columns.now.types.has.items
        columns.now.symbols.has.items columns.now.preds.has.items columns.now.insts.has.items
        columns.now.modes.has.items }
    ensures { IfOk result
        (λ all. all ≡ declared_from (plain_files linking.now) 0 (plain_files linking.now)) }
{
    let mut all = Vec::new(alloc);
    for own in 0..linking.len() {
        let con = columns.symbols.start(own as usize);
        let pred = columns.preds.start(own as usize);
        all.push(numbered_in(alloc, con, pred, linking.items(own))?)?;
    }
    Row::of(all)
}
