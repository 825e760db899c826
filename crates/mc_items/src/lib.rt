//! The items of a file, with each faulty item's first broken rule, and the goal of a query.
//! The forms that this profile of the language leaves out, found in terms that were read.
#![tactic(auto)]

mod declaration;
mod goal;
mod judged;
mod law;
mod messages;
mod next;
mod query;
mod read;
mod reason;
mod refused;
mod role;
mod walk;

pub use law::{at_most_one_answer, at_most_one_goal, at_most_one_list};
pub use mc_decl_syntax::{Decl, Entry, ItemsFault};
pub use query::read_query;
pub use read::{GREATEST_TEXT, read_items, too_long};
pub use reason::LeftOut;
pub use walk::{goal_left_out, item_left_out};
