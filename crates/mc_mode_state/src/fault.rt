use mc_base::{Memory, Row};
use std::alloc::{AllocError, AllocFailed};

/// Why a goal can't be put in order.
#[derive(Debug, PartialEq, Eq, Drop)]
pub enum ModeFault {
    /// So many goals wait, and these of their variables are free, ascending.
    Waits(u32, Row<u32>),
    /// A negated goal or a condition binds the variable.
    NegatedBinds(u32),
    /// Some branches bind the variable and some don't.
    BranchesDiffer(u32),
}

/// Why there is no answer: the goal breaks a rule, or memory is wanted.
#[derive(Debug, PartialEq, Eq, Drop)]
pub enum Failed {
    Fault(ModeFault),
    Memory,
}

impl From<Memory> for Failed {
    ghost use Rattle.std.specs.Prelude.{◌≡◌};
    ghost use Rattle.mc_mode_state.specs.declared.fault.Failed.TheVariants as failed;

    ghost from_gives = { λ _ answer. answer ≡ failed.Memory };

    fn from(_: Memory) -> Failed {
        Failed::Memory
    }
}

impl From<AllocError> for Failed {
    ghost use Rattle.std.specs.Prelude.{◌≡◌};
    ghost use Rattle.mc_mode_state.specs.declared.fault.Failed.TheVariants as failed;

    ghost from_gives = { λ _ answer. answer ≡ failed.Memory };

    fn from(_: AllocError) -> Failed {
        Failed::Memory
    }
}

impl<T: Drop> From<AllocFailed<T>> for Failed {
    ghost use Rattle.std.specs.Prelude.{◌≡◌};
    ghost use Rattle.mc_mode_state.specs.declared.fault.Failed.TheVariants as failed;

    ghost from_gives = { λ _ answer. answer ≡ failed.Memory };

    fn from(_: AllocFailed<T>) -> Failed {
        Failed::Memory
    }
}
