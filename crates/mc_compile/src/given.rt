use mc_base::{Memory, Row, Text};
use mc_source::rule::Broken;

/// A file, by its name and its bytes.
#[derive(Debug, Drop)]
pub struct Given {
    pub name: Text,
    pub bytes: Text,
}

/// A query: the text of its goal with a full stop behind it, and whether its first answer alone is wanted.
#[derive(Debug, Drop)]
pub struct Query {
    pub text: Text,
    pub first: bool,
}

/// Why sources aren't compiled.
#[derive(Debug, PartialEq, Eq, Drop)]
pub enum CompileFault {
    /// The rules that are broken, of the first phase that has a fault: one for each faulty item, in the order of the
    /// files, and the query's last.
    Rejected(Row<Broken>),
    /// There is no room, or a test of what the phases made fails, which no source is known to show.
    Memory,
}

impl From<Memory> for CompileFault {
    ghost use Rattle.std.specs.Prelude.{◌≡◌};
    ghost use Rattle.mc_compile.specs.declared.given.CompileFault.TheVariants as fault_of;

    ghost from_gives = { λ _ fault. fault ≡ fault_of.Memory };

    fn from(_: Memory) -> CompileFault {
        CompileFault::Memory
    }
}
