use mc_base::{Row, Text};
use mc_procs::Procs;

/// What is run over procedures, by the number of one of them.
#[derive(Drop)]
pub enum Goal {
    /// The query's procedure, with the names of the variables that it asks for
    Query { number: u32, variables: Row<Text> },
    /// `main`
    Main(u32),
}

/// What sources are compiled to: procedures, and what is run over them, where something is.
#[derive(Drop)]
pub struct Executable {
    pub procs: Procs,
    pub goal: Option<Goal>,
}
