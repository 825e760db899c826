use crate::place::Place;
use mc_base::Text;

/// The rules that a source can break, by the names that the program prints, in the order of its phases; those of fact
/// tables (F) stand where their phases have them. Those of certificate files (C) stand last, for they are of a file alone.
#[derive(Clone, Copy, Debug, PartialEq, Eq)]
pub enum Rule {
    S1,
    S2,
    S3,
    S4,
    S5,
    S6,
    X1,
    L1,
    L2,
    L3,
    L4,
    F3,
    N1,
    N2,
    N3,
    N4,
    N5,
    N6,
    N7,
    N8,
    M5,
    F1,
    F2,
    F4,
    T3,
    T4,
    T5,
    L5,
    T1,
    T2,
    M6,
    M7,
    M8,
    M1,
    M2,
    M3,
    M4,
    E1,
    E2,
    E3,
    E4,
    U1,
    C1,
    C2,
    C3,
}

/// A broken rule, with its place and what the program says of it.
#[derive(Debug, PartialEq, Eq, Drop)]
pub struct Broken {
    pub rule: Rule,
    pub at: Place,
    pub what: Text,
}
