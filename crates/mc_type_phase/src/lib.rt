//! What typing says of a program's clauses and its query: what each is resolved to, or the rules T1, T2 and L5.
#![tactic(auto)]

mod alike;
mod checker;
mod consumed;
mod difference;
mod judged;
mod law;
mod phase;
mod subject;

pub use judged::{TypecheckResult, TypedClause};
pub use law::at_most_one_list;
pub use phase::{TypecheckOutput, typecheck};
