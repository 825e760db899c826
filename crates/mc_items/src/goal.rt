ghost use Rattle.std.specs.Prelude.{◌≡◌, IfOk, Some};
ghost use Rattle.mc_term_data.specs.Plain.{plain_term};
ghost use Rattle.mc_items.specs.Queries as Q;

use crate::goal_left_out;
use crate::messages::left_out;
use mc_base::{Memory, Text};
use mc_clause_syntax::{clause_has_too_many_arguments, has_too_many_variables, is_query};
use mc_source::rule::Rule;
use mc_term_data::Term;
use std::alloc::Global;

fn broken_rule(alloc: Global, rule: Rule, words: &[u8]) -> Result<Option<(Rule, Text)>, Memory>
    ensures { IfOk result (λ broken. broken ≡ Some (rule, words.now)) }
{
    Ok(Some((rule, Text::new(alloc, words)?)))
}

// The rule that a term breaks in which nothing is left out; None where it is a goal.
fn form_rule(alloc: Global, term: &Term) -> Result<Option<(Rule, Text)>, Memory>
    ensures { IfOk result (λ broken. broken ≡ Q.form_rule (plain_term term.now)) }
{
    if !is_query(alloc, term)? {
        return broken_rule(alloc, Rule::S6, b"not an item");
    }
    if clause_has_too_many_arguments(term) {
        return broken_rule(alloc, Rule::L3, b"more than 255 arguments");
    }
    if has_too_many_variables(alloc, term)? {
        return broken_rule(alloc, Rule::L4, b"more than 4096 variables");
    }
    Ok(None)
}

// The first rule that a query's term breaks, and what is said of it; None where the term is a goal.
pub fn query_rule(alloc: Global, term: &Term) -> Result<Option<(Rule, Text)>, Memory>
    ensures { IfOk result (λ broken. broken ≡ Q.query_verdict (plain_term term.now)) }
{
    match goal_left_out(term) {
        Some(form) => Ok(Some((Rule::X1, left_out(alloc, form)?))),
        None => form_rule(alloc, term),
    }
}
