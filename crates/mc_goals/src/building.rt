ghost use Rattle.std.specs.Prelude.{◌≡◌, ◌<◌, ◌^◌, ◌++◌, ◌∷◌, [], IfOk, OnOk};
ghost use Rattle.mc_program.specs.Values.{plain_value};
ghost use Rattle.mc_model.specs.Flat.{Is, Call};
ghost use Rattle.mc_model.specs.PlainGoals.{plain_flat};

use mc_base::{Memory, Row};
use mc_model::flat::Flat;
use mc_program::value::Value;

/// What stands over the arguments of a term: a constructor, or a function that is applied.
#[derive(Clone, Copy)]
pub enum Head {
    Con(u32),
    Apply(u32),
}

impl Head {
    ghost use Rattle.mc_goals.specs.code.Naming.{goal_over};

    /// The goal that gives a variable the value of this head over arguments.
    pub fn goal(self, variable: u32, mut args: Vec<u32>) -> Result<Flat, Memory>
        ensures { IfOk result (λ goal. plain_flat goal ≡ goal_over self variable args.items) }
    {
        match self {
            Head::Con(symbol) => Ok(Flat::Made(variable, symbol, Row::of(args)?)),
            Head::Apply(function) => {
                args.push(variable)?;
                Ok(Flat::Call(function, Row::of(args)?))
            }
        }
    }
}

/// A conjunction that is being built: its goals, the variables that were made for their parts, and the next number for
/// one.
#[derive(Drop)]
pub struct Building {
    pub goals: Vec<Flat>,
    pub made: Vec<u32>,
    pub next: u32,
}

impl Building {
    ghost use Rattle.mc_goals.specs.code.Naming.{held, with_goal, with_variable, goal_over};

    /// A new variable.
    pub fn fresh(&mut self) -> Result<u32, Memory>
        ensures value { IfOk result (λ v. v ≡ self.old.next) }
        ensures made { OnOk result (held self.new ≡ with_variable (held self.old)) }
    {
        let variable = self.next;
        match variable.checked_add(1) {
            None => Err(Memory),
            Some(next) => {
                self.made.push(variable)?;
                self.next = next;
                Ok(variable)
            }
        }
    }

    /// Puts a goal at the end.
    pub fn add(&mut self, goal: Flat) -> Result<(), Memory>
        ensures { OnOk result (held self.new ≡ with_goal (plain_flat goal) (held self.old)) }
    {
        self.goals.push(goal)?;
        Ok(())
    }

    /// Puts a call at the end.
    pub fn call(&mut self, pred: u32, args: Vec<u32>) -> Result<(), Memory>
        ensures { OnOk result (held self.new ≡ with_goal (Call pred args.items) (held self.old)) }
    {
        self.add(Flat::Call(pred, Row::of(args)?))
    }

    /// A new variable that is this constant.
    pub fn define(&mut self, value: Value) -> Result<u32, Memory>
        ensures value { IfOk result (λ v. v ≡ self.old.next) }
        ensures made { OnOk result (held self.new
            ≡ with_goal (Is self.old.next (plain_value value)) (with_variable (held self.old))) }
    {
        let variable = self.fresh()?;
        self.add(Flat::Const(variable, value))?;
        Ok(variable)
    }

    /// A new variable that has the value of a head over arguments.
    pub fn make(&mut self, head: Head, args: Vec<u32>) -> Result<u32, Memory>
        ensures value { IfOk result (λ v. v ≡ self.old.next) }
        ensures made { OnOk result (held self.new
            ≡ with_goal (goal_over head self.old.next args.items) (with_variable (held self.old))) }
    {
        let variable = self.fresh()?;
        self.add(head.goal(variable, args)?)?;
        Ok(variable)
    }
}
