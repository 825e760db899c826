use crate::written_types::Written;

/// What the search for the choices that type all steps comes to.
#[derive(Drop)]
pub enum Outcome {
    /// No choices type them
    None,
    /// Exactly these do, with these types of the clause's variables
    One(Vec<usize>, Vec<Written>),
    /// These two are the first
    Two(Vec<usize>, Vec<usize>),
    /// At one moment too many choices are live
    TooMany,
}
