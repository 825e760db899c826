use crate::term::Unresolved;
use mc_base::Row;
use mc_source::name::Candidate;

/// A goal of source whose names are not resolved. `OneOf` of an empty row is `fail`. The row in `Choice` holds the
/// variables that are quantified over condition and then part, and that in `Exists` those that `some` names.
pub enum UnresolvedGoal {
    Equation(Unresolved, Unresolved),
    Atom(Row<Candidate>, Row<Unresolved>),
    AllOf(Row<UnresolvedGoal>),
    OneOf(Row<UnresolvedGoal>),
    Choice(Row<u32>, Box<UnresolvedGoal>, Box<UnresolvedGoal>, Box<UnresolvedGoal>),
    Negation(Box<UnresolvedGoal>),
    Exists(Row<u32>, Box<UnresolvedGoal>),
}

/// A goal is dropped along its last parts by a loop, so that a long chain of conditionals takes no stack for each.
impl Drop for UnresolvedGoal {
    fn drop(mut self) {
        loop {
            match self {
                UnresolvedGoal::Equation(left, right) => {
                    drop(left);
                    drop(right);
                    return;
                }
                UnresolvedGoal::Atom(candidates, args) => {
                    drop(candidates);
                    drop(args);
                    return;
                }
                UnresolvedGoal::AllOf(mut goals) => match goals.pop() {
                    Some(last) => {
                        drop(goals);
                        self = last;
                    }
                    None => {
                        drop(goals);
                        return;
                    }
                },
                UnresolvedGoal::OneOf(mut goals) => match goals.pop() {
                    Some(last) => {
                        drop(goals);
                        self = last;
                    }
                    None => {
                        drop(goals);
                        return;
                    }
                },
                UnresolvedGoal::Choice(vars, condition, then_part, else_part) => {
                    drop(vars);
                    drop(condition);
                    drop(then_part);
                    self = Box::into_inner(else_part);
                }
                UnresolvedGoal::Negation(goal) => self = Box::into_inner(goal),
                UnresolvedGoal::Exists(vars, goal) => {
                    drop(vars);
                    self = Box::into_inner(goal);
                }
            }
        }
    }
}
