use crate::item::Decl;
use mc_base::{Memory, Row};
use mc_source::place::Place;
use mc_source::rule::Broken;

/// An item, with the place of its first token.
#[derive(Drop)]
pub struct Entry {
    pub decl: Decl,
    pub at: Place,
}

/// Why the items of a file aren't answered.
#[derive(Debug, PartialEq, Eq, Drop)]
pub enum ItemsFault {
    /// The rules that are broken, one for each faulty item, in the order of the file.
    Broken(Row<Broken>),
    /// There is no room.
    Memory,
}

impl From<Memory> for ItemsFault {
    ghost use Rattle.std.specs.Prelude.{◌≡◌};
    ghost use Rattle.mc_decl_syntax.specs.declared.entry.ItemsFault.TheVariants as fault_of;

    ghost from_gives = { λ _ fault. fault ≡ fault_of.Memory };

    fn from(_: Memory) -> ItemsFault {
        ItemsFault::Memory
    }
}
