use crate::goal::UnresolvedGoal;
use crate::term::Unresolved;
use mc_base::{Row, Text};
use mc_source::place::Place;

/// A clause of a predicate, whose names are not resolved; a query is one of a predicate without arguments. There is a
/// name for each of its variables, which is empty where the source has none.
#[derive(Drop)]
pub struct UnresolvedClause {
    pub pred: u32,
    pub head: Row<Unresolved>,
    pub body: UnresolvedGoal,
    pub names: Row<Text>,
    pub place: Place,
}
