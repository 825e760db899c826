//! Whether a program's types and its procedures fit, tested as the program runs.
//! Whether the library in a program is the one that the language defines, tested as the program runs.
#![tactic(auto)]

mod constructors;
mod declared;
mod fit;
mod functors;
mod instance;
mod laws;
mod library_fit_constructors;
mod library_fit_types;
mod listed;
mod matching;
mod named;
mod predicates;
mod procedure;
mod proper;
mod scopes;
mod tested;
mod typed;
mod types;
mod variables;

pub use constructors::constructors_fit;
pub use fit::library_fits;
pub use laws::has_library;
pub use procedure::procedure_fits;
pub use tested::self_check;
pub use typed::goal_is_typed;
pub use types::types_fit;
