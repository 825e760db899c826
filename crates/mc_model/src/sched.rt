use crate::inst::InstId;
use mc_base::Row;
use mc_program::builtin::Builtin;
use mc_program::ty::Ty;
use mc_program::value::Value;
use mc_source::det::Det;
use mc_source::place::Place;

/// What an arm of a switch is for: a constructor, by its number, or a constant.
#[derive(Drop)]
pub enum On {
    Symbol(u32),
    Const(Value),
}

/// An arm of a switch.
#[cycle(sched)]
#[derive(Drop)]
pub struct Arm {
    pub on: On,
    pub body: GoalNode,
}

/// A scheduled goal with what is kept of it: the insts, in order of variables, that it leaves where they differ from
/// those before it, its determinism, and whether it is pruned to its first answer. No insts are kept where the point
/// after the goal is unreachable.
#[cycle(sched)]
#[derive(Drop)]
pub struct GoalNode {
    pub goal: Sched,
    pub changes: Row<(u32, InstId)>,
    pub det: Det,
    pub pruned: bool,
}

/// A scheduled goal: its parts in the order in which they run. (Somogyi, Henderson, Conway: The execution algorithm of
/// Mercury, 1996; this project's form of it.)
#[cycle(sched)]
#[derive(Drop)]
pub enum Sched {
    Conj(Row<GoalNode>),
    Disj(Row<GoalNode>),
    Switch(u32, Row<Arm>),
    /// The row holds the variables that are quantified over condition and then part.
    Ite(Row<u32>, Box<GoalNode>, Box<GoalNode>, Box<GoalNode>),
    Not(Box<GoalNode>),
    Some(Row<u32>, Box<GoalNode>),
    /// The first variable gets the value of the second.
    Assign(u32, u32),
    Test(u32, u32),
    /// The variable gets the constructor over the others.
    Build(u32, u32, Row<u32>),
    /// The variable is taken apart as that constructor over the others.
    Take(u32, u32, Row<u32>),
    Const(u32, Value),
    TestConst(u32, Value),
    /// A procedure, its arguments, and the places of its implied arguments.
    Call(u32, Row<u32>, Row<u32>),
    /// A builtin, its inputs and its outputs.
    Apply(Builtin, Row<u32>, Row<u32>),
}

/// A procedure: a predicate in one of its modes, whose number among these is `mode`. Its arguments are the variables of
/// `head`, which have the insts of `first` at a call and those of `last` at an answer.
#[derive(Drop)]
pub struct Proc {
    pub pred: u32,
    pub mode: u32,
    pub head: Row<u32>,
    pub var_types: Row<Ty>,
    pub first: Row<InstId>,
    pub last: Row<InstId>,
    pub body: GoalNode,
    pub declared: Option<Det>,
    pub det: Det,
    pub exported: bool,
    pub at: Place,
}
