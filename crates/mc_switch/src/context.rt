use mc_base::Row;
use mc_model::inst::InstId;
use mc_program::ty::Ty;

/// Variables where a disjunction stands: their types, and their insts before it and after it.
#[derive(Clone, Copy)]
pub struct VariableContext<'a> {
    pub types: &'a Row<Ty>,
    pub before: &'a [InstId],
    pub after: &'a [InstId],
}
