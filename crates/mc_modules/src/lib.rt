//! What stands where in a file, what the modules of files see of one another, and the rules of linking.
//! Linking: the names of a program, made of its files.
#![tactic(auto)]

mod builtin;
mod by_module;
mod columns;
mod examples;
mod fault;
mod faults;
mod goal;
mod item_in_file;
mod items;
mod linked;
mod linking;
mod meanings;
mod messages;
mod module_names;
mod named;
mod numbered;
mod part;
mod scopes;
mod section;
mod structure;
mod table;
mod visibility;

pub use examples::linked_files;
pub use faults::link_faults;
pub use goal::goal_rule;
pub use item_in_file::ItemInFile;
pub use linked::{legal_names, link, program_names};
pub use linking::Linking;
pub use module_names::{ModuleNames, module_name};
pub use section::Section;
pub use table::Table;
pub use visibility::Visibility;
