//! The variables of a body that runs, as Refs of a heap, and what its atoms do to them.
//! The plain executor: runs procedures as flat code, with a dump and one stack of resume points.
#![tactic(auto)]

mod apply;
mod atom;
mod atoms;
mod begin;
mod call;
mod calls;
mod cases;
mod control;
mod feeding;
mod frame;
mod law;
mod names;
mod plain;
mod reading;
mod results;
mod state;
mod step;

pub use apply::{Application, applied};
pub use atom::{constant, made, met, same};
pub use call::{answer, enter, ready, returned, unbound};
pub use feeding::feed;
pub use frame::{Frame, gather, meet, unify, unify_refs};
pub use law::{good_runs, made_code_is_named};
pub use names::names_all;
pub use plain::Plain;
pub use results::{AtomResult, BuiltinResult, ReadLineResult};
