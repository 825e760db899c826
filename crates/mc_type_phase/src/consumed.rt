ghost use Rattle.std.specs.Prelude.{◌≡◌, ◌++◌, ◌∷◌, [], map, OnOk};
ghost use Rattle.mc_decl_syntax.specs.Entries.{plain_entry};
ghost use Rattle.mc_type_phase.specs.Items.{without_clauses};

use crate::alike::is_clause;
use mc_base::Memory;
use mc_decl_syntax::Entry;
use std::alloc::Global;

/// How many judged clauses are given up together.
const GIVEN_UP_TOGETHER: usize = 1024;

/// The items of a file that were taken: those that are no clause, and judged clauses that wait to be given up. Clauses that
/// were read one behind another lie side by side, and where they are given up together, what comes then finds wide room.
#[derive(Drop)]
pub struct ConsumedItems {
    pub others: Vec<Entry>,
    pub judged: Vec<Entry>,
}

impl ConsumedItems {
    /// Nothing was taken yet.
    pub fn new(alloc: Global) -> ConsumedItems
        ensures { result.others.items ≡ [] }
    {
        ConsumedItems {
            others: Vec::new(alloc),
            judged: Vec::new(alloc),
        }
    }

    /// Takes an item behind the others of its file.
    pub fn put(&mut self, alloc: Global, entry: Entry) -> Result<(), Memory>
        ensures { OnOk result (map plain_entry self.new.others.items
            ≡ map plain_entry self.old.others.items ++ without_clauses (plain_entry entry ∷ [])) }
    {
        if !is_clause(&entry.decl) {
            self.others.push(entry)?;
            return Ok(());
        }
        self.put_judged(alloc, entry)?;
        Ok(())
    }

    // Takes a judged clause; where many wait to be given up, they are.
    fn put_judged(&mut self, alloc: Global, clause: Entry) -> Result<(), Memory>
        ensures { OnOk result (self.new.others.items ≡ self.old.others.items) }
    {
        if self.judged.len() >= GIVEN_UP_TOGETHER {
            self.judged = Vec::with_capacity(alloc, GIVEN_UP_TOGETHER)?;
        }
        self.judged.push(clause)?;
        Ok(())
    }
}
