//! What phases promise, and what acceptance and runs ask: the laws between the two.
//! Laws of compiled programs: what sources are built to runs true.
#![tactic(auto)]

mod laws;
pub mod program_laws;

pub use laws::{bodies_mention_declared, resolved_scopes_fit};
