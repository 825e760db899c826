ghost use Rattle.std.specs.Prelude.{◌≡◌, ◌+◌, ◌<◌, ◌≤◌, ◌^◌, ◌++◌, [], IfOk, IfErr, OnOk};
ghost use Rattle.std.specs.Option.{option_copied};
ghost use Rattle.mc_compile.specs.Sources.{text_of};
ghost use Rattle.mc_compile.specs.code.Reader.{IsOneMore, IsQueryRead, IsRejected};

use crate::given::{CompileFault, Query};
use mc_base::{Memory, Row};
use mc_decl_syntax::{Entry, ItemsFault};
use mc_items::{GREATEST_TEXT, read_items, read_query, too_long};
use mc_source::rule::Broken;
use mc_term_data::Term;
use std::alloc::Global;

// The greatest length of the files together, in bytes: 16 MiB.
const GREATEST_SOURCES: usize = 16_777_216;

// What is read of files one after another: the number of the next one, how many bytes those before count, the items of
// those that break no rule, and the rules that the others break.
#[derive(Drop)]
pub struct Reader {
    pub number: u32,
    pub bytes: usize,
    pub files: Vec<Row<Entry>>,
    pub broken: Vec<Broken>,
}

impl Reader {
    // Before any file is read, the first of which has a number.
    pub fn new(alloc: Global, number: u32) -> Reader
        ensures number { result.number ≡ number }
        ensures bytes { result.bytes ≡ 0 }
        ensures files { result.files.items ≡ [] }
        ensures broken { result.broken.items ≡ [] }
    {
        Reader {
            number,
            bytes: 0,
            files: Vec::new(alloc),
            broken: Vec::new(alloc),
        }
    }

    // Puts rules that are broken behind the others.
    fn put(&mut self, broken: Row<Broken>) -> Result<(), Memory>
        ensures broken { OnOk result (self.new.broken.items ≡ self.old.broken.items ++ broken) }
        ensures same { OnOk result (self.new ≡ record self.old { broken = self.new.broken }) }
    {
        let mut broken = broken.into_vec();
        self.broken.append(&mut broken)?;
        Ok(())
    }

    // Reads the next file. A text that is too long counts as one byte more than may be.
    pub fn read(&mut self, alloc: Global, text: &[u8]) -> Result<(), Memory>
        requires number { self.old.number + 1 < 2 ^ 32 }
        requires bytes { self.old.bytes < 2 ^ 60 }
        ensures { OnOk result (IsOneMore text.now self.old self.new) }
    {
        let number = self.number;
        self.number += 1;
        self.bytes += text.len().min(GREATEST_TEXT + 1);
        if self.bytes > GREATEST_SOURCES {
            return self.put(too_long(alloc, number)?);
        }
        match read_items(alloc, number, text) {
            Ok(entries) => self.files.push(entries)?,
            Err(ItemsFault::Broken(broken)) => self.put(broken)?,
            Err(ItemsFault::Memory) => return Err(Memory),
        }
        Ok(())
    }

    // The goal of the query, whose number is that of a file behind the others.
    pub fn read_goal(
        &mut self,
        alloc: Global,
        query: Option<&Query>,
    ) -> Result<Option<Term>, Memory>
        ensures { IfOk result
            (λ goal. IsQueryRead (text_of (option_copied query.entry)) goal self.old self.new) }
    {
        let Some(query) = query else {
            return Ok(None);
        };
        match read_query(alloc, self.number, query.text.bytes()) {
            Ok(goal) => Ok(Some(goal)),
            Err(ItemsFault::Broken(broken)) => {
                self.put(broken)?;
                Ok(None)
            }
            Err(ItemsFault::Memory) => Err(Memory),
        }
    }

    // The items of the files, or the rules that are broken.
    pub fn answer(self) -> Result<Row<Row<Entry>>, CompileFault>
        ensures files { IfOk result (λ files. (files ≡ self.files.items) × (self.broken.items ≡ [])) }
        ensures broken { IfErr result (IsRejected self.broken.items) }
    {
        let Reader { files, broken, .. } = self;
        if broken.is_empty() {
            return Ok(Row::of(files)?);
        }
        Err(CompileFault::Rejected(Row::of(broken)?))
    }
}
