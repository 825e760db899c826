use crate::Frame;
use mc_builtins::Library;
use mc_flat_code::code::{FlatProgram, Span};
use mc_model::run::Stop;
use mc_values::{Heap, Ref};

/// What an answer of a goal that is run apart means for what is around it.
#[derive(Clone, Copy)]
pub enum Continuation {
    /// A condition: the places after its answers, and where it has none.
    Condition(u32, u32),
    /// A condition that had an answer: the place after its answers.
    Answered(u32),
    /// A negated goal: the place after it.
    Negated(u32),
    /// A pruned goal: the place after it.
    Pruned(u32),
    /// A call, by its place.
    Called(u32),
}

/// What is around a goal that is run apart: its variables, levels, height, and where its resume points begin.
#[derive(Drop)]
pub struct Segment {
    pub around: Continuation,
    pub frame: Frame,
    pub level: u64,
    pub height: u32,
    pub below: usize,
}

/// A resume point.
#[derive(Drop)]
pub enum Point {
    /// A place, and the variables there.
    Resume(u32, Frame),
    /// A goal that was run apart and has more resume points: what is around it, its own levels and height, and where its
    /// resume points begin.
    Held(Continuation, Frame, u64, u32, usize),
}

/// What is done next.
#[derive(Drop)]
pub enum NextAction {
    At(u32),
    Failing,
    Ended,
    Stuck,
    Stopped(Stop),
}

/// What is run now and what is around it, but for the heap: the dump of goals that are run apart, the resume points, and
/// the variables, levels, height and budget of the goal that is run. `spare` has frames that are done with, whose room is
/// taken again by calls.
#[derive(Drop)]
pub struct Control {
    pub segments: Vec<Segment>,
    pub points: Vec<Point>,
    pub frame: Frame,
    pub base: usize,
    pub level: u64,
    pub height: u32,
    pub budget: u32,
    pub now: NextAction,
    pub spare: Vec<Frame>,
}

/// What stays as it is while a run goes on: the program, its code, Refs of the code's constants, and the head variables of
/// the run with the insts that they have at an answer.
#[derive(Drop)]
pub struct RunContext<'p> {
    pub library: Library<'p>,
    pub flat: FlatProgram,
    pub constants: Vec<Ref>,
    pub head: Span,
    pub last: Span,
}

/// A run that is under way, with its heap. `refs` is room to work in.
#[derive(Drop)]
pub struct RunState {
    pub heap: Heap,
    pub refs: Vec<Ref>,
    pub control: Control,
}
