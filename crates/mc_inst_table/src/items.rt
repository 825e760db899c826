ghost use Rattle.std.specs.Prelude.{◌≡◌, [], map, codes, IfOk};
ghost use Rattle.std.specs.Option.{option_map};
ghost use Rattle.mc_term_data.specs.Plain.{plain_term, term_list};
ghost use Rattle.mc_term_data.specs.Shapes.{operands};
ghost use Rattle.mc_decl_syntax.specs.Plain.{plain_item};
ghost use Rattle.mc_accepted.specs.InstRules.{no_insts, inst_then};
ghost use Rattle.mc_names.specs.Linked.{plain_names};
ghost use Rattle.mc_inst_table.specs.Plain.{plain_inst, plain_insts, plain_mode};
ghost use Rattle.mc_inst_table.specs.Written.{append_insts, written_mode, insts_of_mode};
ghost use Rattle.mc_inst_table.specs.Rules.{insts_of_modes, insts_of_moded, insts_of_arguments, insts_of_signature, insts_of_function, insts_of_mode_head, insts_of_further, insts_written};

use crate::bodies::{bound_inst, same_inst};
use crate::inst::{Inst, Mode};
use crate::modes::mode_of_term;
use mc_base::{Memory, Row, Text};
use mc_decl_syntax::Decl;
use mc_names::{Names, parameters_of};
use mc_term_data::{Node, Term, operands};
use std::alloc::Global;

/// The insts that are written in an item of the module of a number: what an inst is defined as, and those of the modes in
/// a mode's definition and in the declaration of a predicate or a function. It takes stack for each level of a term.
///
/// # Errors
///
/// `Memory` where there is no room.
pub fn insts_written(
    alloc: Global,
    names: &Names,
    own: u32,
    decl: &Decl,
) -> Result<Row<Inst>, Memory>
    ensures { IfOk result
        (λ insts. plain_insts insts ≡ insts_written (plain_names names.now) own (plain_item decl.now)) }
{
    let insts = written(alloc, names, own, decl)?;
    Row::of(insts)
}

fn written(alloc: Global, names: &Names, own: u32, decl: &Decl) -> Result<Vec<Inst>, Memory>
    ensures { IfOk result
        (λ insts.
        plain_insts insts.items
        ≡ insts_written (plain_names names.now) own (plain_item decl.now)) }
{
    match decl {
        Decl::SameInst(head, body) => {
            let inst = same_inst(alloc, names, own, head, body)?;
            alone(alloc, inst)
        }
        Decl::BoundInst(head, symbols) => {
            let inst = bound_inst(alloc, names, own, head, symbols.as_slice())?;
            alone(alloc, inst)
        }
        Decl::ModeDef(head, mode) => {
            let variables = parameters_of(alloc, head)?;
            of_mode(alloc, names, own, variables.as_slice(), mode)
        }
        Decl::Pred(term, _) => signature(alloc, names, own, term),
        Decl::Func(term, _) => function(alloc, names, own, term),
        Decl::Mode(term, _) => further(alloc, names, own, term),
        _ => Ok(Vec::new(alloc)),
    }
}

// One inst.
fn alone(alloc: Global, inst: Inst) -> Result<Vec<Inst>, Memory>
    ensures { IfOk result (λ insts. plain_insts insts.items ≡ inst_then (plain_inst inst) no_insts) }
{
    let mut insts = Vec::new(alloc);
    insts.push(inst)?;
    Ok(insts)
}

// Insts, and others behind them.
#[tactic(auto, using(crate::proofs::Writing::several_more))]
fn both(mut insts: Vec<Inst>, mut others: Vec<Inst>) -> Result<Vec<Inst>, Memory>
    ensures { IfOk result
        (λ all.
        plain_insts all.items ≡ append_insts (plain_insts insts.items) (plain_insts others.items)) }
{
    insts.append(&mut others)?;
    Ok(insts)
}

// Those of the mode that a term writes, over variables of these names.
fn of_mode(
    alloc: Global,
    names: &Names,
    own: u32,
    variables: &[Text],
    term: &Term,
) -> Result<Vec<Inst>, Memory>
    ensures { IfOk result
        (λ insts.
        plain_insts insts.items
        ≡ insts_of_mode (written_mode (plain_names names.now) own variables.now (plain_term term.now))) }
{
    let mode = mode_of_term(alloc, names, own, variables, term)?;
    let insts = insts_of_mode(alloc, mode)?;
    Ok(insts)
}

fn insts_of_mode(alloc: Global, mode: Mode) -> Result<Vec<Inst>, Memory>
    ensures { IfOk result (λ insts. plain_insts insts.items ≡ insts_of_mode (plain_mode mode)) }
{
    match mode {
        Mode::FromTo(first, last) => {
            let mut insts = Vec::new(alloc);
            insts.push(first)?;
            insts.push(last)?;
            Ok(insts)
        }
        Mode::Defined(_, over) => Ok(over.into_vec()),
    }
}

// Those of the mode behind `::`.
fn moded(
    alloc: Global,
    names: &Names,
    own: u32,
    parts: Option<(&Term, &Term)>,
) -> Result<Vec<Inst>, Memory>
    ensures { IfOk result
        (λ insts.
        plain_insts insts.items
        ≡ insts_of_moded (plain_names names.now) own (option_map (λ p. (plain_term p.0.now, plain_term p.1.now)) parts.entry)) }
{
    match parts {
        Some((_, mode)) => of_mode(alloc, names, own, &[], mode),
        None => Ok(Vec::new(alloc)),
    }
}

// Those of the modes of arguments, `T :: M`.
#[tactic(auto, using(crate::proofs::Writing::arguments_more))]
fn arguments(alloc: Global, names: &Names, own: u32, terms: &[Term]) -> Result<Vec<Inst>, Memory>
    ensures { IfOk result
        (λ insts.
        plain_insts insts.items
        ≡ insts_of_arguments (plain_names names.now) own (term_list (map plain_term terms.now))) }
{
    let mut insts = Vec::new(alloc);
    for term in terms {
        let mut more = moded(alloc, names, own, operands(b"::", term))?;
        insts.append(&mut more)?;
    }
    Ok(insts)
}

// Those of a predicate's declaration.
fn signature(alloc: Global, names: &Names, own: u32, term: &Term) -> Result<Vec<Inst>, Memory>
    ensures { IfOk result
        (λ insts.
        plain_insts insts.items
        ≡ insts_of_signature (plain_names names.now) own (plain_term term.now)) }
{
    match &term.node {
        Node::App(_, terms) => arguments(alloc, names, own, terms.as_slice()),
        Node::Var(_) => Ok(Vec::new(alloc)),
        Node::Int(_) => Ok(Vec::new(alloc)),
        Node::Str(_) => Ok(Vec::new(alloc)),
        Node::List(_, None) => Ok(Vec::new(alloc)),
        Node::List(_, Some(_)) => Ok(Vec::new(alloc)),
        Node::Conj(_) => Ok(Vec::new(alloc)),
        Node::Disj(_) => Ok(Vec::new(alloc)),
    }
}

// Those of a function's declaration.
fn function(alloc: Global, names: &Names, own: u32, term: &Term) -> Result<Vec<Inst>, Memory>
    ensures { IfOk result
        (λ insts.
        plain_insts insts.items
        ≡ insts_of_function (plain_names names.now) own (operands (codes "=") (plain_term term.now))) }
{
    match operands(b"=", term) {
        Some((head, value)) => {
            let insts = signature(alloc, names, own, head)?;
            let others = moded(alloc, names, own, operands(b"::", value))?;
            let all = both(insts, others)?;
            Ok(all)
        }
        None => Ok(Vec::new(alloc)),
    }
}

// Those of modes.
#[tactic(auto, using(crate::proofs::Writing::modes_more))]
fn modes(alloc: Global, names: &Names, own: u32, terms: &[Term]) -> Result<Vec<Inst>, Memory>
    ensures { IfOk result
        (λ insts.
        plain_insts insts.items
        ≡ insts_of_modes (plain_names names.now) own (term_list (map plain_term terms.now))) }
{
    let mut insts = Vec::new(alloc);
    for term in terms {
        let mut more = of_mode(alloc, names, own, &[], term)?;
        insts.append(&mut more)?;
    }
    Ok(insts)
}

// Those of the modes over which a name stands.
fn mode_head(alloc: Global, names: &Names, own: u32, term: &Term) -> Result<Vec<Inst>, Memory>
    ensures { IfOk result
        (λ insts.
        plain_insts insts.items
        ≡ insts_of_mode_head (plain_names names.now) own (plain_term term.now)) }
{
    match &term.node {
        Node::App(_, terms) => modes(alloc, names, own, terms.as_slice()),
        Node::Var(_) => Ok(Vec::new(alloc)),
        Node::Int(_) => Ok(Vec::new(alloc)),
        Node::Str(_) => Ok(Vec::new(alloc)),
        Node::List(_, None) => Ok(Vec::new(alloc)),
        Node::List(_, Some(_)) => Ok(Vec::new(alloc)),
        Node::Conj(_) => Ok(Vec::new(alloc)),
        Node::Disj(_) => Ok(Vec::new(alloc)),
    }
}

// Those of a further mode of a predicate or a function.
fn further(alloc: Global, names: &Names, own: u32, term: &Term) -> Result<Vec<Inst>, Memory>
    ensures { IfOk result
        (λ insts.
        plain_insts insts.items
        ≡ insts_of_further (plain_names names.now) own (plain_term term.now) (operands (codes "=") (plain_term term.now))) }
{
    match operands(b"=", term) {
        Some((head, mode)) => {
            let insts = mode_head(alloc, names, own, head)?;
            let others = of_mode(alloc, names, own, &[], mode)?;
            let all = both(insts, others)?;
            Ok(all)
        }
        None => mode_head(alloc, names, own, term),
    }
}
