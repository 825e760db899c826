use crate::builtin::Builtin;
use crate::expr::Expr;
use crate::ty::Ty;
use mc_base::{Row, Text};
pub use mc_source::name::{Candidate, Name};
pub use mc_source::place::Place;

/// A constructor: the union type that it belongs to, and its arguments' types over that type's parameters.
#[derive(Drop)]
pub struct Symbol {
    pub name: Name,
    pub of_type: u32,
    pub args: Row<Ty>,
}

/// A union type: how many parameters it has, and its constructors in order.
#[derive(Drop)]
pub struct TypeDef {
    pub name: Name,
    pub params: u32,
    pub symbols: Row<u32>,
}

/// A goal of a clause. `Disj` of an empty row is `fail`. The row in `Ite` holds the variables that are quantified over
/// condition and then part.
pub enum Goal {
    True,
    Conj(Row<Goal>),
    Disj(Row<Goal>),
    Ite(Row<u32>, Box<Goal>, Box<Goal>, Box<Goal>),
    Not(Box<Goal>),
    Some(Row<u32>, Box<Goal>),
    Equal(Expr, Expr),
    Call(u32, Row<Expr>),
}

/// A goal is dropped along its last parts by a loop, so that a long chain of conditionals takes no stack for each.
impl Drop for Goal {
    fn drop(mut self) {
        loop {
            match self {
                Goal::True => return,
                Goal::Equal(left, right) => {
                    drop(left);
                    drop(right);
                    return;
                }
                Goal::Call(_, args) => {
                    drop(args);
                    return;
                }
                Goal::Conj(mut goals) => match goals.pop() {
                    Some(last) => {
                        drop(goals);
                        self = last;
                    }
                    None => {
                        drop(goals);
                        return;
                    }
                },
                Goal::Disj(mut goals) => match goals.pop() {
                    Some(last) => {
                        drop(goals);
                        self = last;
                    }
                    None => {
                        drop(goals);
                        return;
                    }
                },
                Goal::Ite(vars, condition, then_part, else_part) => {
                    drop(vars);
                    drop(condition);
                    drop(then_part);
                    self = Box::into_inner(else_part);
                }
                Goal::Not(goal) => self = Box::into_inner(goal),
                Goal::Some(vars, goal) => {
                    drop(vars);
                    self = Box::into_inner(goal);
                }
            }
        }
    }
}

/// A clause: the number of its variables, the head's arguments, and the body.
#[derive(Drop)]
pub struct Clause {
    pub vars: u32,
    pub head: Row<Expr>,
    pub body: Goal,
    pub place: Place,
}

/// A predicate, or a function, whose last type is its result's.
#[derive(Drop)]
pub struct Pred {
    pub name: Name,
    pub is_func: bool,
    pub types: Row<Ty>,
    pub clauses: Row<Clause>,
    pub builtin: Option<Builtin>,
}

/// A program: its types, symbols and predicates, each named by its place.
#[derive(Drop)]
pub struct Program {
    pub types: Row<TypeDef>,
    pub symbols: Row<Symbol>,
    pub preds: Row<Pred>,
}

/// A clause whose names are resolved, with its variables' types, and with their names in the source; a variable that
/// has none there has the empty name.
#[derive(Drop)]
pub struct Resolved {
    pub clause: Clause,
    pub var_types: Row<Ty>,
    pub var_names: Row<Text>,
}
