ghost use Rattle.std.specs.Prelude.{◌≡◌, Some, IfOk};
ghost use Rattle.std.specs.Option.{option_map};
ghost use Rattle.mc_term_data.specs.Plain.{plain_term};
ghost use Rattle.mc_decl_syntax.specs.Plain.{plain_item};
ghost use Rattle.mc_decl_syntax.specs.Terms.{declared_as};
ghost use Rattle.mc_decl_syntax.specs.Declarations.{declaration, declared, pred_item, func_item, mode_item, further_mode};

use crate::definition::{inst_item, mode_definition, type_item};
use crate::determinism::declared_as;
use crate::item::Decl;
use crate::keyword::Keyword;
use crate::parts::{into_conjuncts, into_only, into_pair, into_path, into_paths};
use crate::signature::{is_func, is_further, is_pragma, is_pred};
use mc_base::Memory;
use mc_term_data::Term;
use std::alloc::Global;

/// What a declaration declares, by the term behind `:-`; None where it has no form. The terms of the answer are those
/// of the given term, moved. It takes stack for each level of the term.
pub fn declaration(alloc: Global, term: Term) -> Result<Option<Decl>, Memory>
    ensures { IfOk result (λ item. option_map plain_item item ≡ declaration (plain_term term)) }
{
    let keyword = Keyword::of(&term);
    match (keyword, into_only(term)) {
        (Some(Keyword::Interface), None) => Ok(Some(Decl::Interface)),
        (Some(Keyword::Implementation), None) => Ok(Some(Decl::Implementation)),
        (Some(keyword), Some(part)) => declared(alloc, keyword, part),
        _ => Ok(None),
    }
}

/// What a word declares by its part.
fn declared(alloc: Global, keyword: Keyword, part: Term) -> Result<Option<Decl>, Memory>
    ensures { IfOk result
        (λ item. option_map plain_item item ≡ declared (Some keyword) (Some (plain_term part))) }
{
    match keyword {
        Keyword::Module => Ok(into_path(part).map(Decl::ModuleStart)),
        Keyword::EndModule => Ok(into_path(part).map(Decl::ModuleEnd)),
        Keyword::ImportModule => {
            let names = into_paths(alloc, into_conjuncts(alloc, part)?)?;
            Ok(names.map(Decl::Imports))
        }
        Keyword::UseModule => {
            let names = into_paths(alloc, into_conjuncts(alloc, part)?)?;
            Ok(names.map(Decl::UseOnly))
        }
        Keyword::TypeWord => type_item(alloc, part),
        Keyword::Inst => inst_item(alloc, part),
        Keyword::Mode => mode_item(alloc, part),
        Keyword::Pred => Ok(pred_item(alloc, part)),
        Keyword::Func => Ok(func_item(alloc, part)),
        Keyword::Pragma if is_pragma(&part) => Ok(Some(Decl::Pragma)),
        Keyword::Pragma | Keyword::Interface | Keyword::Implementation => Ok(None),
    }
}

fn pred_item(alloc: Global, term: Term) -> Option<Decl>
    ensures { option_map plain_item result ≡ pred_item (declared_as (plain_term term)) }
{
    match declared_as(term) {
        Some((term, det)) => {
            if is_pred(alloc, &term, det.is_some()) {
                Some(Decl::Pred(term, det))
            } else {
                None
            }
        }
        None => None,
    }
}

fn func_item(alloc: Global, term: Term) -> Option<Decl>
    ensures { option_map plain_item result ≡ func_item (declared_as (plain_term term)) }
{
    match declared_as(term) {
        Some((term, det)) => {
            if is_func(alloc, &term, det.is_some()) {
                Some(Decl::Func(term, det))
            } else {
                None
            }
        }
        None => None,
    }
}

/// What stands behind the word `mode`.
fn mode_item(alloc: Global, term: Term) -> Result<Option<Decl>, Memory>
    ensures { IfOk result (λ item. option_map plain_item item ≡ mode_item (plain_term term)) }
{
    match into_pair(b"==", term) {
        Ok((head, body)) => mode_definition(alloc, head, body),
        Err(term) => Ok(further_mode(alloc, term)),
    }
}

/// A further mode of a predicate or of a function.
fn further_mode(alloc: Global, term: Term) -> Option<Decl>
    ensures { option_map plain_item result ≡ further_mode (declared_as (plain_term term)) }
{
    match declared_as(term) {
        Some((term, det)) => {
            if is_further(alloc, &term) {
                Some(Decl::Mode(term, det))
            } else {
                None
            }
        }
        None => None,
    }
}
