//! The forms of clauses and goals, judged on terms that were read.
#![tactic(auto)]

mod arguments;
mod clause;
mod equivalences;
mod goal;
mod goal_form;
mod goal_states;
mod scope;
mod state;
mod state_names;
mod variables;

pub use arguments::{
    argument_count, clause_has_too_many_arguments, declaration_has_too_many_arguments,
};
pub use clause::{is_clause, is_query};
pub use goal_form::{GoalContext, GoalForm, Parts};
pub use state::{StateForm, is_state, state_variable};
pub use state_names::{
    StatesWanted, name_set, push_all_states, push_condition_names, push_quantified, push_states,
};
pub use variables::has_too_many_variables;
