ghost use Rattle.std.specs.Prelude.{◌≡◌, ◌++◌, IfOk, IfErr, OnOk, [], ◌∷◌, map, length, ◌≤◌};
ghost use Rattle.mc_items.specs.Files.{IsWhole, IsRefusal, kept_in, broken_in, too_long_in};
ghost use Rattle.mc_decl_syntax.specs.Entries.{plain_entry};
ghost use Rattle.mc_items.specs.code.Faults.{IsBrokenIn};
ghost use Rattle.mc_items.specs.code.VerdictViews.{plain_verdict};

use crate::judged::Verdict;
use crate::next::next_item;
use mc_base::{Memory, Row, Text};
use mc_decl_syntax::{Entry, ItemsFault};
use mc_source::place::Place;
use mc_source::rule::{Broken, Rule};
use mc_terms::Position;
use mc_tokens::Walk;
use std::alloc::Global;

/// The greatest length of one file's text, in bytes: 4 MiB.
pub const GREATEST_TEXT: usize = 4_194_304;

// The items that are read so far.
#[derive(Drop)]
struct Found {
    entries: Vec<Entry>,
    broken: Vec<Broken>,
}

impl Found {
    fn nothing(alloc: Global) -> Found
        ensures entries { result.entries.items ≡ [] }
        ensures broken { result.broken.items ≡ [] }
    {
        Found {
            entries: Vec::new(alloc),
            broken: Vec::new(alloc),
        }
    }

    // Puts what an item is, with its place, behind the others.
    fn put(&mut self, verdict: Verdict, at: Place) -> Result<(), Memory>
        ensures entries { OnOk result
            (map plain_entry self.new.entries.items
            ≡ map plain_entry self.old.entries.items
            ++ kept_in at.file ((plain_verdict verdict, at.line) ∷ [])) }
        ensures broken { OnOk result
            (self.new.broken.items
            ≡ self.old.broken.items ++ broken_in at.file ((plain_verdict verdict, at.line) ∷ [])) }
    {
        match verdict {
            Verdict::Kept(decl) => self.entries.push(Entry { decl, at })?,
            Verdict::Breaks(rule, what) => self.broken.push(Broken { rule, at, what })?,
        }
        Ok(())
    }

    // The items, or the rules that are broken.
    fn answer(self) -> Result<Row<Entry>, ItemsFault>
        ensures entries { IfOk result (λ entries. (entries ≡ self.entries.items) × (self.broken.items ≡ [])) }
        ensures broken { IfErr result (IsBrokenIn self.broken.items) }
    {
        let Found { entries, broken } = self;
        if broken.is_empty() {
            return Ok(Row::of(entries)?);
        }
        Err(ItemsFault::Broken(Row::of(broken)?))
    }
}

/// The one rule that a text breaks which is too long.
pub fn too_long(alloc: Global, file: u32) -> Result<Row<Broken>, Memory>
    ensures { IfOk result (λ broken. broken ≡ too_long_in file) }
{
    let rule = Rule::L1;
    let at = Place { file, line: 1 };
    let what = Text::new(alloc, b"sources are too long")?;
    Row::one(alloc, Broken { rule, at, what })
}

/// The items of a file, which has a number, each with its place, in the order of the file.
///
/// # Errors
///
/// `Broken` where items break rules of the phase that reads: one rule for each faulty item, in the order of the
/// file. An item that isn't read breaks the rule of the reader's fault. One that is read breaks X1 where a form
/// stands in it that is left out, then S6 where it is no item, then L3 and L4. A text of more than 4 MiB breaks
/// L1 and is read no further.
pub fn read_items(alloc: Global, file: u32, text: &[u8]) -> Result<Row<Entry>, ItemsFault>
    ensures whole { IfOk result (IsWhole file text.now) }
    ensures refusal { IfErr result (IsRefusal file text.now) }
{
    if text.len() > GREATEST_TEXT {
        return Err(ItemsFault::Broken(too_long(alloc, file)?));
    }
    let mut walk = Walk::new(text);
    let mut from = Position::START;
    let mut found = Found::nothing(alloc);
    'items: loop {
        match next_item(alloc, &mut walk, from)? {
            None => return found.answer(),
            Some(item) => {
                let line = item.line;
                found.put(item.verdict, Place { file, line })?;
                from = item.end;
            }
        }
    }
}
