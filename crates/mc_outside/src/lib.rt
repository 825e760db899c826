//! The outside of a program: files by name, a source of bytes and a sink for bytes, and the forms of the three
//! in memory, which fail at the calls that their maker names.
#![tactic(auto)]

mod calls;
mod memory;
mod named;
mod traits;

pub use memory::{MemFiles, MemSink, MemSource};
pub use traits::{Failed, FileAnswer, Files, PutFault, READ_LIMIT, Sink, Source};
