ghost use Rattle.std.specs.Prelude.{◌≡◌, map, Some, IfOk};
ghost use Rattle.mc_term_data.specs.Plain.{plain_term, term_list};
ghost use Rattle.mc_accepted.specs.InstRules.{bound_over};
ghost use Rattle.mc_names.specs.Linked.{plain_named, plain_names};
ghost use Rattle.mc_names.specs.Parameters.{parameters_of};
ghost use Rattle.mc_inst_table.specs.Plain.{plain_inst};
ghost use Rattle.mc_inst_table.specs.Written.{functors, written_inst, all_listed};
ghost use Rattle.mc_inst_table.specs.Rules.{inst_body_of};

use crate::functors::functors;
use crate::inst::Inst;
use crate::written::{inst_of_term, insts_listed};
use mc_base::{Memory, Row};
use mc_decl_syntax::Decl;
use mc_names::{Named, Names, defining_module, parameters_of};
use mc_term_data::Term;
use std::alloc::Global;

/// What the inst definitions of a program stand for, over their parameters, by their numbers.
///
/// # Errors
///
/// `Memory` where there is no room.
pub fn inst_bodies(alloc: Global, names: &Names) -> Result<Row<Inst>, Memory>
    ensures { IfOk result
        (λ bodies.
        map plain_inst bodies
        ≡ map (λ n. inst_body_of (plain_names names.now) (Some (plain_named n))) names.now.insts) }
{
    let mut bodies = Vec::new(alloc);
    for named in names.insts.as_slice() {
        bodies.push(inst_body(alloc, names, named)?)?;
    }
    Row::of(bodies)
}

// What an inst definition stands for, as its own module writes it.
fn inst_body(alloc: Global, names: &Names, named: &Named) -> Result<Inst, Memory>
    ensures { IfOk result
        (λ i. plain_inst i ≡ inst_body_of (plain_names names.now) (Some (plain_named named.now))) }
{
    let own = defining_module(names, named);
    match &named.decl {
        Decl::SameInst(head, body) => same_inst(alloc, names, own, head, body),
        Decl::BoundInst(head, symbols) => bound_inst(alloc, names, own, head, symbols.as_slice()),
        _ => Ok(Inst::Bound(Row::new(alloc), Row::new(alloc))),
    }
}

/// The inst that an item `:- inst HEAD == BODY.` defines.
///
/// # Errors
///
/// `Memory` where there is no room.
pub fn same_inst(
    alloc: Global,
    names: &Names,
    own: u32,
    head: &Term,
    body: &Term,
) -> Result<Inst, Memory>
    ensures { IfOk result
        (λ i.
        plain_inst i
        ≡ written_inst (plain_names names.now) own (parameters_of (plain_term head.now))
        (plain_term body.now)) }
{
    let variables = parameters_of(alloc, head)?;
    inst_of_term(alloc, names, own, variables.as_slice(), body)
}

/// The inst that an item `:- inst HEAD ---> SYMBOLS.` defines.
///
/// # Errors
///
/// `Memory` where there is no room.
pub fn bound_inst(
    alloc: Global,
    names: &Names,
    own: u32,
    head: &Term,
    symbols: &[Term],
) -> Result<Inst, Memory>
    ensures { IfOk result
        (λ i.
        plain_inst i
        ≡ bound_over (functors (term_list (map plain_term symbols.now)))
        (all_listed (plain_names names.now) own (parameters_of (plain_term head.now))
        (term_list (map plain_term symbols.now)))) }
{
    let variables = parameters_of(alloc, head)?;
    let insts = insts_listed(alloc, names, own, variables.as_slice(), symbols)?;
    Ok(Inst::Bound(functors(alloc, symbols)?, insts))
}
