use mc_base::{Memory, Row};
use mc_command_line::Bounds;
use mc_compile::{Given, Goal};
use mc_procs::Procs;
use mc_source::rule::Broken;

/// What is to be answered, before anything is written.
#[derive(Drop)]
pub enum Decision {
    /// The words mean no command.
    Usage,
    /// There is no such file: the line that says so.
    Absent(Vec<u8>),
    /// The file could not be read: the line that says so.
    Unreadable(Vec<u8>),
    /// The files, and the rules that they and the query break.
    Rejected(Row<Given>, Row<Broken>),
    /// The sources compile, and nothing is asked of them.
    Checked,
    /// The run of the query, or of `main`, over procedures, within these bounds.
    Ran(Bounds, Procs, Goal),
    /// There is no room.
    Memory,
}

impl From<Memory> for Decision {
    ghost use Rattle.std.specs.Prelude.{◌≡◌};
    ghost use Rattle.mc_cmd.specs.declared.decision.Decision.TheVariants as decision;

    ghost from_gives = { λ _ decided. decided ≡ decision.Memory };

    fn from(_: Memory) -> Decision {
        Decision::Memory
    }
}
