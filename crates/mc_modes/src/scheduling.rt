ghost use Rattle.std.specs.Prelude.{◌≡◌, ◌<◌, length, IfOk};
ghost use Rattle.mc_insts.specs.Graphs.{count_of};
ghost use Rattle.mc_modes.specs.Signatures.{modes_at, mode_in, SigsFit};
ghost use Rattle.mc_modes.specs.Schedules.{NormalFits, first_determinism, Schedules};
ghost use Rattle.mc_modes.specs.code.Making.{IsMadeOf};

use crate::arranging::{Arrangement, Refusal, arrange};
use crate::atoms::modes_at;
use mc_base::{Copied, Memory, Row};
use mc_model::flat::Normal;
use mc_model::inst::{InstId, ModeDecl, Sig};
use mc_model::sched::Proc;
use mc_procs::Procs;
use mc_program::ty::{Ty, copy_type};
use mc_source::det::{Det, Most};
use std::alloc::Global;

/// The procedure of a predicate's normal goal in one of its declared modes, which are counted from 0: the goal in its
/// order, with the insts that each of its goals changes, and the declared determinism. Determinisms that aren't declared,
/// marks and whether it is exported are told later.
pub fn schedule(
    alloc: Global,
    procs: &mut Procs,
    sigs: &[Sig],
    goal: &Normal,
    mode: u32,
) -> Result<Proc, Refusal>
    requires sigs { SigsFit (count_of procs.old.insts) sigs.now }
    requires mode { mode < length (modes_at sigs.now goal.now.pred) }
    requires fits { NormalFits procs.old (mode_in sigs.now goal.now.pred mode) goal.now }
    ensures { Schedules sigs.now goal.now mode procs.old procs.new result }
{
    let declared = mode_of(sigs, goal.pred, mode);
    let types = types_of(alloc, &goal.var_types)?;
    match arrange(
        alloc,
        procs,
        sigs,
        types,
        &goal.head,
        &declared.first,
        &declared.last,
        &goal.body,
    ) {
        Ok(arranged) => {
            let proc = procedure_of(alloc, goal, mode, declared, arranged)?;
            Ok(proc)
        }
        Err(refusal) => Err(refusal),
    }
}

/// A predicate's mode, by its number.
fn mode_of(sigs: &[Sig], pred: u32, mode: u32) -> &ModeDecl
    requires { mode < length (modes_at sigs.now pred) }
    ensures { result.now ≡ mode_in sigs.now pred mode }
{
    &modes_at(sigs, pred)[mode as usize]
}

/// Types of variables, to which those of fresh ones may be added.
fn types_of(alloc: Global, types: &Row<Ty>) -> Result<Vec<Ty>, Memory>
    ensures { IfOk result (λ list. list.items ≡ types.now) }
{
    let mut list = Vec::new(alloc);
    for t in types.as_slice() {
        list.push(copy_type(alloc, t)?)?;
    }
    Ok(list)
}

/// The determinism that is declared; `det` where none is.
fn first_determinism(declared: Option<Det>) -> Det
    ensures { result ≡ first_determinism declared }
{
    match declared {
        Some(det) => det,
        None => Det {
            can_fail: false,
            most: Most::One,
            committed: false,
        },
    }
}

/// The rows of a procedure.
#[derive(Drop)]
struct Columns {
    head: Row<u32>,
    var_types: Row<Ty>,
    first: Row<InstId>,
    last: Row<InstId>,
}

/// The rows of a goal's procedure in a mode, where its variables have these types.
fn columns_of(
    alloc: Global,
    goal: &Normal,
    declared: &ModeDecl,
    types: Vec<Ty>,
) -> Result<Columns, Memory>
    ensures head { IfOk result (λ rows. rows.head ≡ goal.now.head) }
    ensures types { IfOk result (λ rows. rows.var_types ≡ types.items) }
    ensures first { IfOk result (λ rows. rows.first ≡ declared.now.first) }
    ensures last { IfOk result (λ rows. rows.last ≡ declared.now.last) }
{
    let var_types = Row::of(types)?;
    let head = goal.head.copied(alloc)?;
    let first = declared.first.copied(alloc)?;
    let last = declared.last.copied(alloc)?;
    Ok(Columns {
        head,
        var_types,
        first,
        last,
    })
}

/// The procedure of a goal that is in its order.
fn procedure_of(
    alloc: Global,
    goal: &Normal,
    mode: u32,
    declared: &ModeDecl,
    arranged: Arrangement,
) -> Result<Proc, Memory>
    ensures { IfOk result (IsMadeOf goal.now mode declared.now arranged) }
{
    let Arrangement { body, types } = arranged;
    let Columns {
        head,
        var_types,
        first,
        last,
    } = columns_of(alloc, goal, declared, types)?;
    Ok(Proc {
        pred: goal.pred,
        mode,
        head,
        var_types,
        first,
        last,
        body,
        declared: declared.det,
        det: first_determinism(declared.det),
        exported: false,
        at: declared.at,
    })
}
