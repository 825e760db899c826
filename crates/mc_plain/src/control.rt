ghost use Rattle.std.specs.Prelude.{◌≡◌, ◌<◌, ◌≤◌, ◌-◌, ◌∷◌, ◌++◌, List, IfOk, OnOk, All, length, take, if◌then◌else◌, false};
ghost use Rattle.mc_values.specs.declared.heap.Heap.{Heap as TheHeap};
ghost use Rattle.mc_program.specs.declared.program.Program.{Program};
ghost use Rattle.mc_plain.specs.Frames.{bindings};
ghost use Rattle.mc_plain.specs.Values.{AreLive, AreHeld};
ghost use Rattle.mc_plain.specs.code.Held.{AllHeld, PointsHeld};
ghost use Rattle.mc_plain.specs.code.Machine.{Point as PlainPoint, Holding, resume, held, at, called, went_back, went_out, after as after_of};
ghost use Rattle.mc_plain.specs.code.Views.{machine, plain_around, plain_now};

use crate::Frame;
use crate::state::{Continuation, Control, NextAction, Point, Segment};
use mc_base::Memory;
use std::alloc::Global;
use std::mem::replace;

/// A copy of variables.
fn copied(alloc: Global, frame: &Frame) -> Result<Frame, Memory>
    ensures { IfOk result (λ copy. copy.items ≡ frame.now.items) }
{
    Ok(frame.to_vec(alloc)?)
}

impl Control {
    /// Goes on at a place, and later at another.
    pub fn either(&mut self, alloc: Global, first: u32, second: u32) -> Result<(), Memory>
        ensures goes_on { OnOk result ((h : TheHeap) → machine h self.new
            ≡ record (machine h self.old) {
              points = resume second (machine h self.old).bindings ∷ (machine h self.old).points;
              now = at first;
            }) }
        ensures held { OnOk result ((P : Program) (h : TheHeap)
            → AllHeld P h self.old → AllHeld P h self.new) }
    {
        let copy = copied(alloc, &self.frame)?;
        self.points.push(Point::Resume(second, copy))?;
        self.now = NextAction::At(first);
        Ok(())
    }

    /// Runs a goal apart.
    pub fn apart(&mut self, alloc: Global, goal: u32, around: Continuation) -> Result<(), Memory>
        ensures goes_on { OnOk result ((h : TheHeap) → machine h self.new
            ≡ record (machine h self.old) {
              segments = record {
                around = plain_around around;
                bindings = (machine h self.old).bindings;
                level = self.old.level;
                height = self.old.height;
                below = self.old.base;
              } ∷ (machine h self.old).segments;
              base = length (machine h self.old).points;
              now = at goal;
            }) }
        ensures held { OnOk result ((P : Program) (h : TheHeap)
            → AllHeld P h self.old → AllHeld P h self.new) }
    {
        let copy = copied(alloc, &self.frame)?;
        self.segments.push(Segment {
            around,
            frame: copy,
            level: self.level,
            height: self.height,
            below: self.base,
        })?;
        self.base = self.points.len();
        self.now = NextAction::At(goal);
        Ok(())
    }

    /// Enters the body of a call, whose place and variables are kept.
    pub fn enter(
        &mut self,
        inner: Frame,
        entry: u32,
        place: u32,
        is_last: bool,
    ) -> Result<(), Memory>
        requires level { 0 < self.old.level }
        requires budget { 0 < self.old.budget }
        requires height { is_last ≡ false → 0 < self.old.height }
        ensures goes_on { OnOk result ((h : TheHeap) → machine h self.new
            ≡ record {
              budget = self.old.budget - 1;
              points = (machine h self.old).points;
              segments = record {
                around = called place;
                bindings = (machine h self.old).bindings;
                level = self.old.level;
                height = self.old.height;
                below = self.old.base;
              }
                  ∷ (machine h self.old).segments;
              base = length (machine h self.old).points;
              level = self.old.level - 1;
              height = (if is_last then self.old.height else self.old.height - 1);
              bindings = bindings h inner.items;
              now = at entry;
            }) }
        ensures held { OnOk result ((P : Program) (h : TheHeap)
            → AreHeld P h inner.items → AllHeld P h self.old → AllHeld P h self.new) }
    {
        let height = inner_height(self.height, is_last);
        let frame = replace(&mut self.frame, inner);
        self.segments.push(Segment {
            around: Continuation::Called(place),
            frame,
            level: self.level,
            height: self.height,
            below: self.base,
        })?;
        self.base = self.points.len();
        self.level -= 1;
        self.budget -= 1;
        self.height = height;
        self.now = NextAction::At(entry);
        Ok(())
    }

    /// Takes the last resume point, where there is one.
    pub fn resume(&mut self) -> Result<(), Memory>
        ensures goes_on { OnOk result ((h : TheHeap)
            → machine h self.new ≡ went_back (machine h self.old) (machine h self.old).points) }
        ensures held { OnOk result ((P : Program) (h : TheHeap)
            → AllHeld P h self.old → AllHeld P h self.new) }
    {
        match self.points.pop() {
            None => {}
            Some(Point::Resume(place, frame)) => {
                self.frame = frame;
                self.now = NextAction::At(place);
            }
            Some(Point::Held(around, frame, level, height, base)) => {
                if base < self.base || self.points.len() < base {
                    self.now = NextAction::Stuck;
                } else {
                    self.segments.push(Segment {
                        around,
                        frame,
                        level: self.level,
                        height: self.height,
                        below: self.base,
                    })?;
                    self.base = base;
                    self.level = level;
                    self.height = height;
                }
            }
        }
        Ok(())
    }

    /// Leaves a goal that was run apart and has no more answer; where there is none, the run ends.
    pub fn leave(&mut self)
        ensures goes_on { (h : TheHeap)
            → machine h self.new ≡ went_out (machine h self.old) (machine h self.old).segments }
        ensures held { (P : Program) (h : TheHeap)
            → AllHeld P h self.old → AllHeld P h self.new }
    {
        match self.segments.pop() {
            None => self.now = NextAction::Ended,
            Some(segment) => {
                let Segment {
                    around,
                    frame,
                    level,
                    height,
                    below,
                } = segment;
                self.frame = frame;
                self.level = level;
                self.height = height;
                self.base = below;
                self.now = after(around);
            }
        }
    }

    /// A goal that was run apart has an answer: its resume points stay, and what is around it goes on.
    pub fn keep(
        &mut self,
        alloc: Global,
        around: Continuation,
        frame: &Frame,
        level: u64,
        height: u32,
        below: usize,
        next: NextAction,
    ) -> Result<(), Memory>
        ensures held { OnOk result ((h : TheHeap) → Holding (plain_around around)
            (bindings h frame.now.items) self.old.level self.old.height self.old.base
            (machine h self.old).points (machine h self.new).points) }
        ensures goes_on { OnOk result ((h : TheHeap) → machine h self.new
            ≡ record (machine h self.old) {
              points = (machine h self.new).points;
              level = level;
              height = height;
              base = below;
              now = plain_now next;
            }) }
        ensures refs { OnOk result ((P : Program) (h : TheHeap)
            → AreHeld P h frame.now.items → AllHeld P h self.old → AllHeld P h self.new) }
        ensures frame { OnOk result (self.new.frame ≡ self.old.frame) }
    {
        self.hold(alloc, around, frame, level, height, below)?;
        self.now = next;
        Ok(())
    }

    /// A goal that was run apart has an answer, and no other is asked of it: its resume points are given up.
    pub fn give_up(&mut self, level: u64, height: u32, below: usize, next: NextAction)
        requires { self.old.base ≤ length self.old.points.items }
        ensures kept { (h : TheHeap) → self.old.base ≡ length (machine h self.new).points }
        ensures given_up { (h : TheHeap) → (given : List PlainPoint)
            × ((machine h self.old).points ≡ given ++ (machine h self.new).points) }
        ensures goes_on { (h : TheHeap) → machine h self.new
            ≡ record (machine h self.old) {
              points = (machine h self.new).points;
              level = level;
              height = height;
              base = below;
              now = plain_now next;
            } }
        ensures held { (P : Program) (h : TheHeap)
            → AllHeld P h self.old → AllHeld P h self.new }
    {
        self.prune(level, height, below);
        self.now = next;
    }

    /// What is run now was a goal run apart: its resume points are given up.
    fn prune(&mut self, level: u64, height: u32, below: usize)
        ensures points { self.new.points.items ≡ take self.old.base self.old.points.items }
        ensures others { self.new ≡ record self.old {
          points = self.new.points;
          level = level;
          height = height;
          base = below;
        } }
    {
        self.points.truncate(self.base);
        self.level = level;
        self.height = height;
        self.base = below;
    }

    /// What is run now was a goal run apart: its resume points stay, if there are any.
    fn hold(
        &mut self,
        alloc: Global,
        around: Continuation,
        frame: &Frame,
        level: u64,
        height: u32,
        below: usize,
    ) -> Result<(), Memory>
        ensures points { OnOk result ((h : TheHeap) → Holding (plain_around around)
            (bindings h frame.now.items) self.old.level self.old.height self.old.base
            (machine h self.old).points (machine h self.new).points) }
        ensures others { OnOk result (self.new ≡ record self.old {
          points = self.new.points;
          level = level;
          height = height;
          base = below;
        }) }
        ensures refs { OnOk result ((P : Program) (h : TheHeap) → AreHeld P h frame.now.items
            → PointsHeld P h self.old.points.items → PointsHeld P h self.new.points.items) }
    {
        if self.points.len() > self.base {
            let copy = copied(alloc, frame)?;
            self.points.push(Point::Held(around, copy, self.level, self.height, self.base))?;
        }
        self.level = level;
        self.height = height;
        self.base = below;
        Ok(())
    }
}

/// The height of a called body.
fn inner_height(height: u32, is_last: bool) -> u32
    requires { is_last ≡ false → 0 < height }
    ensures { result ≡ (if is_last then height else height - 1) }
{
    if is_last { height } else { height - 1 }
}

/// Where it goes on after a goal that was run apart and has no more answer.
fn after(around: Continuation) -> NextAction
    ensures { plain_now result ≡ after_of (plain_around around) }
{
    match around {
        Continuation::Condition(_, other) => NextAction::At(other),
        Continuation::Negated(next) => NextAction::At(next),
        Continuation::Answered(_) => NextAction::Failing,
        Continuation::Pruned(_) => NextAction::Failing,
        Continuation::Called(_) => NextAction::Failing,
    }
}

/// Makes room for a variable among those of a body; one that is new is unbound.
pub fn widen(frame: &mut Frame, variable: u32) -> Result<(), Memory>
    ensures room { OnOk result (variable < length frame.new.items) }
    ensures wider { OnOk result (length frame.old.items ≤ length frame.new.items) }
    ensures live { OnOk result ((h : TheHeap)
        → AreLive h frame.old.items → AreLive h frame.new.items) }
    ensures held { OnOk result ((P : Program) (h : TheHeap)
        → AreHeld P h frame.old.items → AreHeld P h frame.new.items) }
    ensures same { OnOk result ((h : TheHeap)
        → bindings h frame.new.items ≡ bindings h frame.old.items) }
{
    while frame.len() <= variable as usize {
        frame.push(None)?;
    }
    Ok(())
}

/// Makes room for variables among those of a body; those that are new are unbound.
pub fn widen_all(frame: &mut Frame, variables: &[u32]) -> Result<(), Memory>
    ensures room { OnOk result (All (λ x. x < length frame.new.items) variables.now) }
    ensures wider { OnOk result (length frame.old.items ≤ length frame.new.items) }
    ensures live { OnOk result ((h : TheHeap)
        → AreLive h frame.old.items → AreLive h frame.new.items) }
    ensures held { OnOk result ((P : Program) (h : TheHeap)
        → AreHeld P h frame.old.items → AreHeld P h frame.new.items) }
    ensures same { OnOk result ((h : TheHeap)
        → bindings h frame.new.items ≡ bindings h frame.old.items) }
{
    for variable in variables {
        widen(frame, *variable)?;
    }
    Ok(())
}
