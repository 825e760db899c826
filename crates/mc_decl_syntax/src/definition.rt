ghost use Rattle.std.specs.Prelude.{◌≡◌, IfOk};
ghost use Rattle.std.specs.Option.{option_map};
ghost use Rattle.mc_term_data.specs.Plain.{plain_term};
ghost use Rattle.mc_decl_syntax.specs.Plain.{plain_item};
ghost use Rattle.mc_decl_syntax.specs.Terms.{parameters};
ghost use Rattle.mc_decl_syntax.specs.Types.{type_item, union_type, same_type, abstract_type};
ghost use Rattle.mc_decl_syntax.specs.Insts.{inst_item, bound_inst, same_inst, mode_definition, is_inst_body, is_bound_body, is_mode_body};

use crate::head::parameters;
use crate::insts::{has_symbols, is_inst, is_mode};
use crate::item::Decl;
use crate::parts::{into_alternatives, into_pair};
use crate::types::{has_constructors, is_type};
use mc_base::Memory;
use mc_term_data::Term;
use std::alloc::Global;

/// What stands behind the word `type`; None where it has no form.
pub fn type_item(alloc: Global, term: Term) -> Result<Option<Decl>, Memory>
    ensures { IfOk result (λ item. option_map plain_item item ≡ type_item (plain_term term)) }
{
    match into_pair(b"--->", term) {
        Ok((head, body)) => union_type(alloc, head, body),
        Err(term) => match into_pair(b"==", term) {
            Ok((head, body)) => same_type(alloc, head, body),
            Err(head) => abstract_type(alloc, head),
        },
    }
}

fn union_type(alloc: Global, head: Term, body: Term) -> Result<Option<Decl>, Memory>
    ensures { IfOk result
        (λ item. option_map plain_item item ≡ union_type (plain_term head, plain_term body)) }
{
    if parameters(alloc, &head)?.is_some() && has_constructors(&body) {
        let constructors = into_alternatives(alloc, body)?;
        Ok(Some(Decl::UnionType(head, Box::new(alloc, constructors)?)))
    } else {
        Ok(None)
    }
}

fn same_type(alloc: Global, head: Term, body: Term) -> Result<Option<Decl>, Memory>
    ensures { IfOk result
        (λ item. option_map plain_item item ≡ same_type (plain_term head, plain_term body)) }
{
    if parameters(alloc, &head)?.is_some() && is_type(&body) {
        Ok(Some(Decl::SameType(head, Box::new(alloc, body)?)))
    } else {
        Ok(None)
    }
}

fn abstract_type(alloc: Global, head: Term) -> Result<Option<Decl>, Memory>
    ensures { IfOk result (λ item. option_map plain_item item ≡ abstract_type (plain_term head)) }
{
    if parameters(alloc, &head)?.is_some() {
        Ok(Some(Decl::AbstractType(head)))
    } else {
        Ok(None)
    }
}

/// What stands behind the word `inst`; None where it has no form.
pub fn inst_item(alloc: Global, term: Term) -> Result<Option<Decl>, Memory>
    ensures { IfOk result (λ item. option_map plain_item item ≡ inst_item (plain_term term)) }
{
    match into_pair(b"--->", term) {
        Ok((head, body)) => bound_inst(alloc, head, body),
        Err(term) => match into_pair(b"==", term) {
            Ok((head, body)) => same_inst(alloc, head, body),
            Err(_) => Ok(None),
        },
    }
}

fn bound_inst(alloc: Global, head: Term, body: Term) -> Result<Option<Decl>, Memory>
    ensures { IfOk result
        (λ item. option_map plain_item item ≡ bound_inst (plain_term head, plain_term body)) }
{
    if is_bound_body(alloc, &head, &body)? {
        let symbols = into_alternatives(alloc, body)?;
        Ok(Some(Decl::BoundInst(head, Box::new(alloc, symbols)?)))
    } else {
        Ok(None)
    }
}

fn same_inst(alloc: Global, head: Term, body: Term) -> Result<Option<Decl>, Memory>
    ensures { IfOk result
        (λ item. option_map plain_item item ≡ same_inst (plain_term head, plain_term body)) }
{
    if is_inst_body(alloc, &head, &body)? {
        Ok(Some(Decl::SameInst(head, Box::new(alloc, body)?)))
    } else {
        Ok(None)
    }
}

/// The definition of a mode, by the two sides of `==`; None where it has no form.
pub fn mode_definition(alloc: Global, head: Term, body: Term) -> Result<Option<Decl>, Memory>
    ensures { IfOk result
        (λ item. option_map plain_item item ≡ mode_definition (plain_term head, plain_term body)) }
{
    if is_mode_body(alloc, &head, &body)? {
        Ok(Some(Decl::ModeDef(head, Box::new(alloc, body)?)))
    } else {
        Ok(None)
    }
}

/// Whether a head has parameters, and the body is an inst over them.
fn is_inst_body(alloc: Global, head: &Term, body: &Term) -> Result<bool, Memory>
    ensures { IfOk result
        (λ is. is ≡ is_inst_body (parameters (plain_term head.now)) (plain_term body.now)) }
{
    match parameters(alloc, head)? {
        Some(parameters) => Ok(is_inst(&parameters, body)),
        None => Ok(false),
    }
}

/// Whether a head has parameters, and the body lists symbols over them.
fn is_bound_body(alloc: Global, head: &Term, body: &Term) -> Result<bool, Memory>
    ensures { IfOk result
        (λ is. is ≡ is_bound_body (parameters (plain_term head.now)) (plain_term body.now)) }
{
    match parameters(alloc, head)? {
        Some(parameters) => Ok(has_symbols(&parameters, body)),
        None => Ok(false),
    }
}

/// Whether a head has parameters, and the body is a mode over them.
fn is_mode_body(alloc: Global, head: &Term, body: &Term) -> Result<bool, Memory>
    ensures { IfOk result
        (λ is. is ≡ is_mode_body (parameters (plain_term head.now)) (plain_term body.now)) }
{
    match parameters(alloc, head)? {
        Some(parameters) => Ok(is_mode(&parameters, body)),
        None => Ok(false),
    }
}
