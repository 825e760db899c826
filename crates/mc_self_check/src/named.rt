ghost use Rattle.std.specs.Prelude.{◌↔◌, ◌<◌, IsTrue, map, length};
ghost use Rattle.mc_model.specs.Scheduled.{nodes};
ghost use Rattle.mc_model.specs.PlainGoals.{plain_label, plain_node, plain_sched, plain_arm, arms_of};
ghost use Rattle.mc_procs.specs.Named.{NumbersBelow, ChangesNamed, LabelNamed, Named, NamedIn, EachNamed, EachArmNamed};
ghost use Rattle.mc_self_check.specs.code.Names.{bounds};

use mc_model::inst::InstId;
use mc_model::sched::{Arm, GoalNode, On, Sched};

/// How many variables, symbols, procedures and insts there are.
#[derive(Clone, Copy)]
pub(crate) struct Counts {
    pub(crate) variables: u32,
    pub(crate) symbols: u32,
    pub(crate) procedures: u32,
    pub(crate) insts: u32,
}

/// Whether all numbers are below another.
pub(crate) fn numbers_below(top: u32, numbers: &[u32]) -> bool
    ensures { IsTrue result ↔ NumbersBelow top numbers.now }
{
    for number in numbers {
        if *number >= top {
            return false;
        }
    }
    true
}

/// Whether all places are below a length.
fn places_below(count: usize, places: &[u32]) -> bool
    ensures { IsTrue result ↔ NumbersBelow count places.now }
{
    for place in places {
        if *place as usize >= count {
            return false;
        }
    }
    true
}

/// Whether what a goal names is there.
#[cycle(named)]
pub(crate) fn is_named(counts: Counts, goal: &GoalNode) -> bool
    ensures { IsTrue result ↔ Named (bounds counts) (plain_node goal.now) }
{
    counts.has_changes(goal.changes.as_slice()) && is_named_in(counts, &goal.goal)
}

#[cycle(named)]
fn is_named_in(counts: Counts, goal: &Sched) -> bool
    ensures { IsTrue result ↔ NamedIn (bounds counts) (plain_sched goal.now) }
{
    match goal {
        Sched::Conj(goals) => all_named(counts, goals.as_slice()),
        Sched::Disj(goals) => all_named(counts, goals.as_slice()),
        Sched::Switch(v, arms) => switch_named(counts, *v, arms.as_slice()),
        Sched::Ite(vars, condition, then_part, else_part) => {
            numbers_below(counts.variables, vars.as_slice())
                && is_named(counts, condition)
                && is_named(counts, then_part)
                && is_named(counts, else_part)
        }
        Sched::Not(inner) => is_named(counts, inner),
        Sched::Some(vars, inner) => scope_named(counts, vars.as_slice(), inner),
        Sched::Assign(v, w) => counts.has_both(*v, *w),
        Sched::Test(v, w) => counts.has_both(*v, *w),
        Sched::Build(v, s, args) => counts.has_made(*v, *s, args.as_slice()),
        Sched::Take(v, s, args) => counts.has_made(*v, *s, args.as_slice()),
        Sched::Const(v, _) => *v < counts.variables,
        Sched::TestConst(v, _) => *v < counts.variables,
        Sched::Call(k, args, implied) => {
            counts.has_call(*k, args.as_slice(), implied.as_slice())
        }
        Sched::Apply(_, inputs, outputs) => {
            counts.has_applied(inputs.as_slice(), outputs.as_slice())
        }
    }
}

#[cycle(named)]
fn all_named(counts: Counts, goals: &[GoalNode]) -> bool
    ensures { IsTrue result ↔ EachNamed (bounds counts) (nodes (map plain_node goals.now)) }
{
    for goal in goals {
        if !is_named(counts, goal) {
            return false;
        }
    }
    true
}

#[cycle(named)]
fn switch_named(counts: Counts, v: u32, arms: &[Arm]) -> bool
    ensures { IsTrue result
        ↔ ((v < counts.variables)
        × EachArmNamed (bounds counts) (arms_of (map plain_arm arms.now))) }
{
    for arm in arms {
        if !arm_named(counts, arm) {
            return false;
        }
    }
    v < counts.variables
}

#[cycle(named)]
fn arm_named(counts: Counts, arm: &Arm) -> bool
    ensures { IsTrue result
        ↔ (LabelNamed (bounds counts) (plain_label arm.now.on)
        × Named (bounds counts) (plain_node arm.now.body)) }
{
    counts.has_label(&arm.on) && is_named(counts, &arm.body)
}

#[cycle(named)]
fn scope_named(counts: Counts, vars: &[u32], inner: &GoalNode) -> bool
    ensures { IsTrue result
        ↔ (NumbersBelow counts.variables vars.now
        × Named (bounds counts) (plain_node inner.now)) }
{
    numbers_below(counts.variables, vars) && is_named(counts, inner)
}

impl Counts {
    fn has_changes(self, changes: &[(u32, InstId)]) -> bool
        ensures { IsTrue result ↔ ChangesNamed (bounds self) changes.now }
    {
        for (variable, inst) in changes {
            if *variable >= self.variables || *inst >= self.insts {
                return false;
            }
        }
        true
    }

    fn has_label(self, label: &On) -> bool
        ensures { IsTrue result ↔ LabelNamed (bounds self) (plain_label label.now) }
    {
        match label {
            On::Symbol(symbol) => *symbol < self.symbols,
            On::Const(_) => true,
        }
    }

    fn has_both(self, v: u32, w: u32) -> bool
        ensures { IsTrue result ↔ ((v < self.variables) × (w < self.variables)) }
    {
        v < self.variables && w < self.variables
    }

    fn has_made(self, v: u32, symbol: u32, args: &[u32]) -> bool
        ensures { IsTrue result
            ↔ ((v < self.variables) × (symbol < self.symbols)
            × NumbersBelow self.variables args.now) }
    {
        v < self.variables && symbol < self.symbols && numbers_below(self.variables, args)
    }

    fn has_call(self, procedure: u32, args: &[u32], implied: &[u32]) -> bool
        ensures { IsTrue result
            ↔ ((procedure < self.procedures) × NumbersBelow self.variables args.now
            × NumbersBelow (length args.now) implied.now) }
    {
        procedure < self.procedures
            && numbers_below(self.variables, args)
            && places_below(args.len(), implied)
    }

    fn has_applied(self, inputs: &[u32], outputs: &[u32]) -> bool
        ensures { IsTrue result
            ↔ (NumbersBelow self.variables inputs.now × NumbersBelow self.variables outputs.now) }
    {
        numbers_below(self.variables, inputs) && numbers_below(self.variables, outputs)
    }
}
