ghost use Rattle.std.specs.Prelude.{◌≡◌, IfOk};
ghost use Rattle.mc_term_data.specs.Plain.{plain_term};
ghost use Rattle.mc_items.specs.Verdicts as V;
ghost use Rattle.std.specs.Option.{option_map};
ghost use Rattle.mc_decl_syntax.specs.Declarations as D;
ghost use Rattle.mc_decl_syntax.specs.Terms as T;
ghost use Rattle.mc_decl_syntax.specs.Plain.{plain_item};
ghost use Rattle.mc_items.specs.code.VerdictViews.{plain_verdict};

use crate::item_left_out;
use crate::messages::left_out;
use mc_base::{Memory, Text};
use mc_clause_syntax::{
    clause_has_too_many_arguments, declaration_has_too_many_arguments, has_too_many_variables,
    is_clause,
};
use mc_decl_syntax::{Decl, declaration, declared_part, is_declaration};
use mc_source::rule::Rule;
use mc_term_data::Term;
use std::alloc::Global;

/// What an item is.
#[derive(Drop)]
pub enum Verdict {
    Kept(Decl),
    /// A rule that it breaks, and what is said of it.
    Breaks(Rule, Text),
}

fn breaks(alloc: Global, rule: Rule, words: &[u8]) -> Result<Verdict, Memory>
    ensures { IfOk result (λ v. plain_verdict v ≡ V.breaks rule words.now) }
{
    Ok(Verdict::Breaks(rule, Text::new(alloc, words)?))
}

// What a declaration is, by its form, where it has one.
fn declaration_judged(
    alloc: Global,
    too_many_arguments: bool,
    declared: Option<Decl>,
) -> Result<Verdict, Memory>
    ensures { IfOk result
        (λ v.
        plain_verdict v ≡ V.declaration_verdict too_many_arguments (option_map plain_item declared)) }
{
    match declared {
        None => breaks(alloc, Rule::S6, b"not an item"),
        Some(_) if too_many_arguments => breaks(alloc, Rule::L3, b"more than 255 arguments"),
        Some(decl) => Ok(Verdict::Kept(decl)),
    }
}

// What a clause is.
fn clause_judged(alloc: Global, term: Term) -> Result<Verdict, Memory>
    ensures { IfOk result (λ v. plain_verdict v ≡ V.clause_verdict (plain_term term)) }
{
    if !is_clause(alloc, &term)? {
        return breaks(alloc, Rule::S6, b"not an item");
    }
    if clause_has_too_many_arguments(&term) {
        return breaks(alloc, Rule::L3, b"more than 255 arguments");
    }
    if has_too_many_variables(alloc, &term)? {
        return breaks(alloc, Rule::L4, b"more than 4096 variables");
    }
    Ok(Verdict::Kept(Decl::Clause(term)))
}

// What a term is behind `:-`.
fn declared_judged(alloc: Global, too_many_arguments: bool, term: Term) -> Result<Verdict, Memory>
    ensures { IfOk result
        (λ v.
        plain_verdict v ≡ V.declaration_verdict too_many_arguments (D.declaration (plain_term term))) }
{
    let declared = declaration(alloc, term)?;
    declaration_judged(alloc, too_many_arguments, declared)
}

// What an item is in which nothing is left out.
fn form_judged(alloc: Global, term: Term) -> Result<Verdict, Memory>
    ensures { IfOk result
        (λ v. plain_verdict v ≡ V.form_verdict (plain_term term) (T.declared_part (plain_term term))) }
{
    if !is_declaration(&term) {
        return clause_judged(alloc, term);
    }
    let too_many_arguments = declaration_has_too_many_arguments(&term);
    match declared_part(term) {
        Some(declared) => declared_judged(alloc, too_many_arguments, declared),
        None => breaks(alloc, Rule::S6, b"not an item"),
    }
}

// What an item is, by its term.
pub fn classify(alloc: Global, term: Term) -> Result<Verdict, Memory>
    ensures { IfOk result (λ v. plain_verdict v ≡ V.classify (plain_term term)) }
{
    match item_left_out(&term) {
        Some(form) => Ok(Verdict::Breaks(Rule::X1, left_out(alloc, form)?)),
        None => form_judged(alloc, term),
    }
}
