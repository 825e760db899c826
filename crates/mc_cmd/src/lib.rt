//! The command: its words, what it answers, and the top call.
#![tactic(auto)]

mod decide;
mod decision;
mod law;
mod main_run;
mod messages;
mod named;
mod procs_run;
mod run;
mod status;
mod stop;
mod top;
mod write;

pub use law::at_most_one_answer;
pub use status::{Status, status_code};
pub use top::merc;
