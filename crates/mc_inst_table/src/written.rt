ghost use Rattle.std.specs.Prelude.{◌≡◌, length, map, codes, IfOk};
ghost use Rattle.mc_term_data.specs.Plain.{plain_term, term_list, more_terms, no_term};
ghost use Rattle.mc_term_data.specs.Names.{found};
ghost use Rattle.mc_term_data.specs.Shapes.{is_the_word};
ghost use Rattle.mc_accepted.specs.InstRules.{defined, no_insts, inst_then};
ghost use Rattle.mc_names.specs.Linked.{plain_names};
ghost use Rattle.mc_names.specs.Parameters.{place_of};
ghost use Rattle.mc_inst_table.specs.Plain.{plain_inst, plain_insts};
ghost use Rattle.mc_inst_table.specs.Written.{builtin_insts, builtin, named_inst, append_insts, inst_over, written_inst, written_insts, listed_insts, all_listed};

use crate::functors::listed_functors;
use crate::inst::Inst;
use crate::meaning::meaning;
use mc_base::{Memory, Row, Text};
use mc_names::{Names, place_of};
use mc_term_data::{Node, Term, is_the_word};
use std::alloc::Global;

/// The inst that a term writes in the module of a number: a variable by its place among these names, what `bound`
/// lists, a name by what it means there. It takes stack for each level of the term.
///
/// # Errors
///
/// `Memory` where there is no room.
#[cycle(written)]
pub fn inst_of_term(
    alloc: Global,
    names: &Names,
    own: u32,
    variables: &[Text],
    term: &Term,
) -> Result<Inst, Memory>
    ensures { IfOk result
        (λ i.
        plain_inst i
        ≡ written_inst (plain_names names.now) own variables.now (plain_term term.now)) }
{
    match &term.node {
        Node::Var(name) => Ok(Inst::Parameter(place_of(name.bytes(), variables)?)),
        Node::App(name, arguments) => { inst_over(alloc, names, own, variables, name, arguments) }
        Node::Int(_) => Ok(no_inst(alloc, names)),
        Node::Str(_) => Ok(no_inst(alloc, names)),
        Node::List(_, None) => Ok(no_inst(alloc, names)),
        Node::List(_, Some(_)) => Ok(no_inst(alloc, names)),
        Node::Conj(_) => Ok(no_inst(alloc, names)),
        Node::Disj(_) => Ok(no_inst(alloc, names)),
    }
}

// The inst that a name over terms writes.
#[cycle(written)]
#[tactic(auto, using(crate::proofs::Writing::over_single, crate::proofs::Writing::over_several))]
fn inst_over(
    alloc: Global,
    names: &Names,
    own: u32,
    variables: &[Text],
    name: &Row<Text>,
    arguments: &Row<Term>,
) -> Result<Inst, Memory>
    ensures { IfOk result
        (λ i.
        plain_inst i
        ≡ inst_over (plain_names names.now) own variables.now name.now
        (is_the_word (codes "bound") name.now) (term_list (map plain_term arguments.now))) }
{
    let count = arguments.len();
    if count == 1 {
        let inst = inst_over_one(alloc, names, own, variables, name, arguments.get(0))?;
        return Ok(inst);
    }
    let insts = written(alloc, names, own, variables, arguments.as_slice())?;
    let inst = named_inst(alloc, names, own, name, count, Row::of(insts)?)?;
    Ok(inst)
}

// The inst that a name over one term writes.
#[cycle(written)]
fn inst_over_one(
    alloc: Global,
    names: &Names,
    own: u32,
    variables: &[Text],
    name: &Row<Text>,
    argument: &Term,
) -> Result<Inst, Memory>
    ensures { IfOk result
        (λ i.
        plain_inst i
        ≡ inst_over (plain_names names.now) own variables.now name.now
        (is_the_word (codes "bound") name.now) (more_terms (plain_term argument.now) no_term)) }
{
    if is_the_word(b"bound", name) {
        let functors = listed_functors(alloc, argument)?;
        let insts = listed(alloc, names, own, variables, argument)?;
        return Ok(Inst::Bound(functors, Row::of(insts)?));
    }
    let inst = inst_of_term(alloc, names, own, variables, argument)?;
    named_inst(alloc, names, own, name, 1, Row::one(alloc, inst)?)
}

// The insts that terms write.
#[cycle(written)]
#[tactic(auto, using(crate::proofs::Writing::written_more))]
fn written(
    alloc: Global,
    names: &Names,
    own: u32,
    variables: &[Text],
    terms: &[Term],
) -> Result<Vec<Inst>, Memory>
    ensures { IfOk result
        (λ insts.
        plain_insts insts.items
        ≡ written_insts (plain_names names.now) own variables.now (term_list (map plain_term terms.now))) }
{
    let mut insts = Vec::new(alloc);
    for term in terms {
        insts.push(inst_of_term(alloc, names, own, variables, term)?)?;
    }
    Ok(insts)
}

// The insts of the arguments of the constructors that a term lists.
#[cycle(written)]
fn listed(
    alloc: Global,
    names: &Names,
    own: u32,
    variables: &[Text],
    term: &Term,
) -> Result<Vec<Inst>, Memory>
    ensures { IfOk result
        (λ insts.
        plain_insts insts.items
        ≡ listed_insts (plain_names names.now) own variables.now (plain_term term.now)) }
{
    match &term.node {
        Node::Disj(terms) => all_listed(alloc, names, own, variables, terms.as_slice()),
        Node::App(_, terms) => written(alloc, names, own, variables, terms.as_slice()),
        Node::List(items, Some(tail)) => {
            let front = written(alloc, names, own, variables, items.as_slice())?;
            let last = inst_of_term(alloc, names, own, variables, tail)?;
            let insts = with_last(front, last)?;
            Ok(insts)
        }
        Node::Var(_) => Ok(Vec::new(alloc)),
        Node::Int(_) => Ok(Vec::new(alloc)),
        Node::Str(_) => Ok(Vec::new(alloc)),
        Node::List(_, None) => Ok(Vec::new(alloc)),
        Node::Conj(_) => Ok(Vec::new(alloc)),
    }
}

// The insts of the arguments of all constructors that terms list.
#[cycle(written)]
#[tactic(auto, using(crate::proofs::Writing::listed_more))]
fn all_listed(
    alloc: Global,
    names: &Names,
    own: u32,
    variables: &[Text],
    terms: &[Term],
) -> Result<Vec<Inst>, Memory>
    ensures { IfOk result
        (λ insts.
        plain_insts insts.items
        ≡ all_listed (plain_names names.now) own variables.now (term_list (map plain_term terms.now))) }
{
    let mut insts = Vec::new(alloc);
    for term in terms {
        let mut more = listed(alloc, names, own, variables, term)?;
        insts.append(&mut more)?;
    }
    Ok(insts)
}

/// The insts that terms write.
///
/// # Errors
///
/// `Memory` where there is no room.
pub fn insts_of_terms(
    alloc: Global,
    names: &Names,
    own: u32,
    variables: &[Text],
    terms: &[Term],
) -> Result<Row<Inst>, Memory>
    ensures { IfOk result
        (λ insts.
        plain_insts insts
        ≡ written_insts (plain_names names.now) own variables.now (term_list (map plain_term terms.now))) }
{
    let insts = written(alloc, names, own, variables, terms)?;
    Row::of(insts)
}

/// The insts of the arguments of all constructors that terms list.
///
/// # Errors
///
/// `Memory` where there is no room.
pub fn insts_listed(
    alloc: Global,
    names: &Names,
    own: u32,
    variables: &[Text],
    terms: &[Term],
) -> Result<Row<Inst>, Memory>
    ensures { IfOk result
        (λ insts.
        plain_insts insts
        ≡ all_listed (plain_names names.now) own variables.now (term_list (map plain_term terms.now))) }
{
    let insts = all_listed(alloc, names, own, variables, terms)?;
    Row::of(insts)
}

// Insts with one more.
#[tactic(auto, using(crate::proofs::Writing::one_more))]
fn with_last(mut insts: Vec<Inst>, last: Inst) -> Result<Vec<Inst>, Memory>
    ensures { IfOk result
        (λ all.
        plain_insts all.items
        ≡ append_insts (plain_insts insts.items) (inst_then (plain_inst last) no_insts)) }
{
    insts.push(last)?;
    Ok(insts)
}

// What a term is that is no inst.
fn no_inst(alloc: Global, names: &Names) -> Inst
    ensures { plain_inst result ≡ defined (length (plain_names names.now).insts) no_insts }
{
    Inst::Defined(names.insts.len(), Row::new(alloc))
}

// An inst's name over insts, in the module of a number.
fn named_inst(
    alloc: Global,
    names: &Names,
    own: u32,
    name: &Row<Text>,
    arity: u32,
    insts: Row<Inst>,
) -> Result<Inst, Memory>
    ensures { IfOk result
        (λ i.
        plain_inst i ≡ named_inst (plain_names names.now) own name.now arity (plain_insts insts)) }
{
    if let Some(node) = builtin(name.as_slice(), arity) {
        return Ok(Inst::Node(node));
    }
    let number = meaning(alloc, names, own, &names.insts, name, arity)?;
    Ok(Inst::Defined(number, insts))
}

// The builtin inst that a name over so many arguments means.
fn builtin(name: &[Text], arity: u32) -> Option<u32>
    ensures { result ≡ builtin builtin_insts name.now arity }
{
    match name {
        [word] => builtin_inst(word.bytes(), arity),
        [] => None,
        [_, _, ..] => None,
    }
}

#[tactic(auto, unfolding(crate::specs::Written::builtin_insts))]
fn builtin_inst(name: &[u8], arity: u32) -> Option<u32>
    ensures { result ≡ found builtin_insts name.now arity }
{
    if arity != 0 {
        return None;
    }
    if b"free".as_slice() == name {
        return Some(0);
    }
    if b"ground".as_slice() == name {
        return Some(1);
    }
    if b"unique".as_slice() == name {
        return Some(2);
    }
    if b"dead".as_slice() == name {
        return Some(3);
    }
    if b"clobbered".as_slice() == name {
        return Some(3);
    }
    None
}
