ghost use Rattle.std.specs.Prelude.{◌≡◌, ◌&&◌, ◌||◌, not, map};
ghost use Rattle.mc_source.specs.Determinism.{row_of};
ghost use Rattle.mc_model.specs.Scheduled.{nodes, Disj};
ghost use Rattle.mc_model.specs.PlainGoals.{plain_node, plain_sched, plain_arm, arms_of};
ghost use Rattle.mc_accepted.specs.Determined.{leaves_dead};
ghost use Rattle.mc_accepted.specs.DeterminismFaults.{is_wrong_io};
ghost use Rattle.mc_det_rules.specs.code.Io.{InSystems, dead_at, joined, forbidden, outer, alone, found_in, found_in_part, found_in_all, found_in_arms};

use mc_model::inst::InstId;
use mc_model::sched::{Arm, GoalNode, Sched};
use mc_procs::Procs;
use mc_program::builtin::Builtin;
use mc_source::det::{Det, Most};

/// What a walk sees of io in a goal: whether there is some, and whether some of it stands where it must not.
#[derive(Clone, Copy)]
pub(crate) struct IoSeen {
    pub(crate) is_there: bool,
    pub(crate) is_misplaced: bool,
}

const NO_IO: IoSeen = IoSeen {
    is_there: false,
    is_misplaced: false,
};

/// Whether an io goal can fail, is pruned, or may succeed more than once where all its answers are asked for.
fn is_wrong(is_io: bool, is_first: bool, is_pruned: bool, det: Det) -> bool
    ensures { result ≡ is_wrong_io is_io is_first is_pruned (row_of det) }
{
    is_io && (is_pruned || det.can_fail || (!is_first && (det.committed || det.most == Most::Many)))
}

/// Whether a builtin does io.
fn is_io_builtin(op: Builtin) -> bool
    ensures { result ≡ Rattle.mc_accepted.specs.Determined.is_io_builtin op }
{
    match op {
        Builtin::WriteString
        | Builtin::WriteChar
        | Builtin::WriteInt
        | Builtin::Write
        | Builtin::Nl
        | Builtin::ReadLine => true,
        _ => false,
    }
}

/// Whether one of these insts is dead.
fn leaves_dead(insts: &[InstId]) -> bool
    ensures { result ≡ dead_at insts.now }
{
    for i in insts {
        if *i == 3 {
            return true;
        }
    }
    false
}

/// Whether a call of a procedure does io.
fn is_io_call(procs: &Procs, k: u32) -> bool
    ensures { InSystems procs.now (λ S type. result ≡ leaves_dead S type (S.procs k).last) }
{
    procs.fit();
    if k >= procs.count() {
        return false;
    }
    leaves_dead(procs.get(k).last.as_slice())
}

/// A goal without parts.
fn alone(is_there: bool) -> IoSeen
    ensures { result ≡ alone is_there }
{
    IoSeen {
        is_there,
        is_misplaced: false,
    }
}

/// Both, one beside the other.
fn both(a: IoSeen, b: IoSeen) -> IoSeen
    ensures { result ≡ joined a b }
{
    IoSeen {
        is_there: a.is_there || b.is_there,
        is_misplaced: a.is_misplaced || b.is_misplaced,
    }
}

/// An io goal that may not be one: all of it is misplaced.
fn forbidden(a: IoSeen) -> IoSeen
    ensures { result ≡ forbidden a }
{
    IoSeen {
        is_there: a.is_there,
        is_misplaced: a.is_there,
    }
}

/// A goal with what its form tells.
fn outer(inside: IoSeen, is_first: bool, is_pruned: bool, det: Det) -> IoSeen
    ensures { result ≡ outer inside is_first is_pruned det }
{
    let is_wrong = is_wrong(inside.is_there, is_first, is_pruned, det);
    IoSeen {
        is_there: inside.is_there,
        is_misplaced: is_wrong || inside.is_misplaced,
    }
}

/// A disjunction with what its disjuncts tell.
fn of_disjuncts(found: IoSeen, is_first: bool, is_sure: bool) -> IoSeen
    ensures { result ≡ record {
      is_there = found.is_there;
      is_misplaced = (is_first && (found.is_there && not is_sure)) || found.is_misplaced;
    } }
{
    IoSeen {
        is_there: found.is_there,
        is_misplaced: is_first && found.is_there && !is_sure || found.is_misplaced,
    }
}

/// Whether one of two holds.
pub(crate) fn either(a: bool, b: bool) -> bool
    ensures { result ≡ a || b }
{
    a || b
}

/// Whether both hold.
fn all_hold(a: bool, b: bool) -> bool
    ensures { result ≡ a && b }
{
    a && b
}

/// The io of a goal, where its first answer alone is asked for, or all are. Its marks tell.
#[cycle(io)]
pub(crate) fn io(procs: &Procs, goal: &GoalNode, is_first: bool) -> IoSeen
    ensures { InSystems procs.now (λ S type. result ≡ found_in S type is_first (plain_node
        goal.now)) }
{
    let inside = io_of(procs, &goal.goal, either(is_first, goal.pruned));
    outer(inside, is_first, goal.pruned, goal.det)
}

#[cycle(io)]
fn io_of(procs: &Procs, goal: &Sched, is_first: bool) -> IoSeen
    ensures { InSystems procs.now (λ S type. result ≡ found_in_part S type is_first (plain_sched
        goal.now)) }
{
    match goal {
        Sched::Conj(goals) => io_of_all(procs, goals.as_slice(), is_first),
        Sched::Disj(goals) => io_of_disjunction(procs, goals.as_slice(), is_first),
        Sched::Switch(_, arms) => io_of_arms(procs, arms.as_slice(), is_first),
        Sched::Ite(_, condition, then_part, else_part) => {
            let first = forbidden(io(procs, condition, is_first));
            let second = io(procs, then_part, is_first);
            let third = io(procs, else_part, is_first);
            both(first, both(second, third))
        }
        Sched::Not(inner) => forbidden(io(procs, inner, is_first)),
        Sched::Some(_, inner) => io(procs, inner, is_first),
        Sched::Call(k, _, _) => alone(is_io_call(procs, *k)),
        Sched::Apply(op, _, _) => alone(is_io_builtin(*op)),
        Sched::Assign(_, _) => NO_IO,
        Sched::Test(_, _) => NO_IO,
        Sched::Build(_, _, _) => NO_IO,
        Sched::Take(_, _, _) => NO_IO,
        Sched::Const(_, _) => NO_IO,
        Sched::TestConst(_, _) => NO_IO,
    }
}

/// The io of a conjunction, from its end: a goal is asked for its first answer alone where no goal after it can fail.
#[cycle(io)]
fn io_of_all(procs: &Procs, goals: &[GoalNode], is_first: bool) -> IoSeen
    ensures { InSystems procs.now (λ S type. result ≡ found_in_all S type is_first (nodes (map
        plain_node goals.now))) }
{
    let mut found = NO_IO;
    let mut is_sure = true;
    let mut n = goals.len();
    while n > 0 {
        n -= 1;
        let part = io(procs, &goals[n], all_hold(is_first, is_sure));
        found = both(part, found);
        is_sure = all_hold(!goals[n].det.can_fail, is_sure);
    }
    found
}

/// The io of a disjunction. Where its first answer alone is asked for, no disjunct may fail if there is some.
#[cycle(io)]
fn io_of_disjunction(procs: &Procs, goals: &[GoalNode], is_first: bool) -> IoSeen
    ensures { InSystems procs.now (λ S type. result ≡ found_in_part S type is_first (Disj (nodes
        (map plain_node goals.now)))) }
{
    let mut found = NO_IO;
    let mut is_sure = true;
    let mut n = goals.len();
    while n > 0 {
        n -= 1;
        let part = io(procs, &goals[n], is_first);
        found = both(part, found);
        is_sure = all_hold(!goals[n].det.can_fail, is_sure);
    }
    of_disjuncts(found, is_first, is_sure)
}

/// The io of the arms of a switch.
#[cycle(io)]
fn io_of_arms(procs: &Procs, arms: &[Arm], is_first: bool) -> IoSeen
    ensures { InSystems procs.now (λ S type. result ≡ found_in_arms S type is_first (arms_of (map
        plain_arm arms.now))) }
{
    let mut found = NO_IO;
    let mut n = arms.len();
    while n > 0 {
        n -= 1;
        let part = io(procs, &arms[n].body, is_first);
        found = both(part, found);
    }
    found
}
