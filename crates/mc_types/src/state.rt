use crate::Graph;

/// A choice, and the numbers of cells and changes that stood when it was made.
#[derive(Clone, Copy)]
pub struct Level {
    pub choice: usize,
    pub cells: usize,
    pub changes: usize,
}

/// Where a search stands: the choices so far, and the candidate of the next step that is to be tried.
#[derive(Drop)]
pub struct Search {
    pub graph: Graph,
    pub marks: Vec<usize>,
    pub round: usize,
    pub path: Vec<Level>,
    pub next: usize,
}
