use mc_base::Row;
use mc_decl_syntax::Entry;
use mc_names::Names;
use mc_term_data::Term;

/// Sources with their names: the items of each file and behind them those of the library's modules, how many files are
/// given, what their names mean, and the goal of the query where there is one.
#[derive(Drop)]
pub struct Named {
    pub files: Row<Row<Entry>>,
    pub given: u32,
    pub names: Names,
    pub goal: Option<Term>,
}
