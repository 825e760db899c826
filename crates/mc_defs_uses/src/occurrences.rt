ghost use Rattle.std.specs.Prelude.{◌≡◌, ◌++◌, codes, map, IfOk, OnOk};
ghost use Rattle.mc_term_data.specs.Plain.{plain_term};
ghost use Rattle.mc_term_data.specs.Shapes.{operands};
ghost use Rattle.mc_decl_syntax.specs.Plain.{plain_item};
ghost use Rattle.mc_names.specs.Plain.{plain_occurrence};
ghost use Rattle.mc_defs_uses.specs.Occurrences.{goals_in, arguments_of, head_in, clause_by};
ghost use Rattle.mc_defs_uses.specs.Occurrences as O;

use crate::constructors::add_all_constructors;
use crate::goals::add_goals;
use crate::insts::{add_all_symbols, add_insts, add_modes};
use crate::signatures::{add_func, add_further, add_parameters_of};
use crate::terms::{add_all_terms, add_terms};
use crate::types::add_types;
use mc_base::Memory;
use mc_decl_syntax::Decl;
use mc_names::Occurrence;
use mc_term_data::{Node, Term, operands};
use std::alloc::Global;

/// The names that an item uses, in the order of its text. It takes stack for each level of a term.
pub fn uses<'a>(alloc: Global, decl: &'a Decl) -> Result<Vec<Occurrence<'a>>, Memory>
    ensures { IfOk result (λ all. map plain_occurrence all.items ≡ O.uses (plain_item decl.now)) }
{
    let mut uses = Vec::new(alloc);
    add_uses(&mut uses, decl)?;
    Ok(uses)
}

/// The names that a goal uses, in the order of its text. It takes stack for each level of the term.
pub fn goal_uses<'a>(alloc: Global, goal: &'a Term) -> Result<Vec<Occurrence<'a>>, Memory>
    ensures { IfOk result (λ all. map plain_occurrence all.items ≡ goals_in (plain_term goal.now)) }
{
    let mut uses = Vec::new(alloc);
    add_goals(&mut uses, goal)?;
    Ok(uses)
}

fn add_uses<'a>(uses: &mut Vec<Occurrence<'a>>, decl: &'a Decl) -> Result<(), Memory>
    ensures { OnOk result
        (map plain_occurrence uses.new.items
        ≡ map plain_occurrence uses.old.items ++ O.uses (plain_item decl.now)) }
{
    match decl {
        Decl::UnionType(_, constructors) => add_all_constructors(uses, constructors.as_slice()),
        Decl::SameType(_, body) => add_types(uses, body),
        Decl::SameInst(_, body) => add_insts(uses, body),
        Decl::BoundInst(_, symbols) => add_all_symbols(uses, symbols.as_slice()),
        Decl::ModeDef(_, body) => add_modes(uses, body),
        Decl::Pred(term, _) => add_parameters_of(uses, term),
        Decl::Func(term, _) => add_func(uses, term),
        Decl::Mode(term, _) => add_further(uses, term),
        Decl::Clause(term) => add_clause(uses, term),
        _ => Ok(()),
    }
}

fn add_clause<'a>(uses: &mut Vec<Occurrence<'a>>, term: &'a Term) -> Result<(), Memory>
    ensures { OnOk result
        (map plain_occurrence uses.new.items
        ≡ map plain_occurrence uses.old.items
        ++ clause_by (plain_term term.now) (operands (codes ":-") (plain_term term.now))) }
{
    match operands(b":-", term) {
        Some((head, body)) => {
            add_head(uses, head)?;
            add_goals(uses, body)
        }
        None => add_head(uses, term),
    }
}

// Adds the terms in a head; its own name is looked up as a declaration is.
fn add_head<'a>(uses: &mut Vec<Occurrence<'a>>, head: &'a Term) -> Result<(), Memory>
    ensures { OnOk result
        (map plain_occurrence uses.new.items
        ≡ map plain_occurrence uses.old.items ++ head_in (plain_term head.now)) }
{
    match operands(b"=", head) {
        Some((function, value)) => {
            add_arguments_of(uses, function)?;
            add_terms(uses, value)
        }
        None => add_arguments_of(uses, head),
    }
}

fn add_arguments_of<'a>(uses: &mut Vec<Occurrence<'a>>, head: &'a Term) -> Result<(), Memory>
    ensures { OnOk result
        (map plain_occurrence uses.new.items
        ≡ map plain_occurrence uses.old.items ++ arguments_of (plain_term head.now)) }
{
    match &head.node {
        Node::App(_, arguments) => add_all_terms(uses, arguments.as_slice()),
        _ => Ok(()),
    }
}
