//! Compiling: from the bytes of files and of a query, phase by phase.
#![tactic(auto)]

mod checked;
mod compiling;
mod executable;
mod given;
mod law;
mod library;
mod linking;
mod moded;
mod named;
mod reader;
mod reading;
mod rules;
mod typed;

pub use checked::Checked;
pub use compiling::compile;
pub use executable::{Executable, Goal};
pub use given::{CompileFault, Given, Query};
pub use law::{at_most_one_phase, main_is_run, query_is_asked};
pub use library::LIBRARY;
pub use moded::Moded;
pub use named::Named;
pub use reading::Read;
pub use typed::Typed;
