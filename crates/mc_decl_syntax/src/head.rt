ghost use Rattle.std.specs.Prelude.{◌≡◌, true, map, cond, None, IfOk, IsTrue};
ghost use Rattle.mc_term_data.specs.Plain.{PlainTerms, more_terms, plain_term, term_list};
ghost use Rattle.mc_term_data.specs.Shapes.{variable};
ghost use Rattle.mc_decl_syntax.specs.Terms.{is_distinct, parameters_in, parameters};
ghost use Rattle.mc_decl_syntax.specs.code.Steps.{parameters_with};

use mc_base::{Memory, NameSet};
use mc_term_data::{Node, Term, is_word, variable};
use std::alloc::Global;

/// The parameters of a definition, by its head, which is a name without qualifiers over distinct variables; None where
/// it is none. A `_` is a parameter that no name names.
pub fn parameters<'a>(alloc: Global, head: &'a Term) -> Result<Option<NameSet<'a>>, Memory>
    ensures { IfOk result (λ names. names ≡ parameters (plain_term head.now)) }
{
    match &head.node {
        Node::App(name, arguments) => {
            if is_word(name) {
                parameters_in(alloc, arguments.as_slice())
            } else {
                Ok(None)
            }
        }
        _ => Ok(None),
    }
}

/// The names of distinct variables.
fn parameters_in<'a>(alloc: Global, terms: &'a [Term]) -> Result<Option<NameSet<'a>>, Memory>
    ensures { IfOk result (λ names. names ≡ parameters_in (term_list (map plain_term terms.now))) }
{
    let mut names = NameSet::new(alloc);
    for term in terms {
        if !insert(&mut names, term)? {
            return Ok(None);
        }
    }
    Ok(Some(names))
}

/// Puts the name of a variable in, and answers whether the term is a variable of a new name.
#[tactic(auto, using(crate::proofs::Distinct::fresh, crate::proofs::Distinct::with_unnamed, crate::proofs::Distinct::with_new, crate::proofs::Distinct::with_old, crate::proofs::Distinct::with_other))]
fn insert<'a>(names: &mut NameSet<'a>, term: &'a Term) -> Result<bool, Memory>
    ensures rest { IfOk result (λ new. (ts : PlainTerms) → parameters_with names.old (more_terms (plain_term term.now) ts) ≡ cond new (parameters_with names.new ts) None) }
    ensures distinct { IfOk result
        (λ new. IsTrue new → is_distinct names.old ≡ true → is_distinct names.new ≡ true) }
{
    match variable(term) {
        Some(name) => {
            if name == b"_".as_slice() {
                Ok(true)
            } else {
                names.insert(name)
            }
        }
        None => Ok(false),
    }
}
