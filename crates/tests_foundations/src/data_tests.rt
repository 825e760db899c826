//! Small goals of each kind, built and dropped, all of them by the paths that mc_model passes on.
ghost use Rattle.std.specs.Prelude.{◌≡◌, [], ◌∷◌, IfOk};

use mc_model::builtin::Builtin;
use mc_model::det::{Det, Most};
use mc_model::expr::Expr;
use mc_model::flat::Flat;
use mc_model::inst::{Choice, InstRef, ModeDecl, Sig};
use mc_model::program::{Clause, Goal, Name, Place, Pred, Program, Resolved, Symbol, TypeDef};
use mc_model::rule::{Broken, Rule};
use mc_model::sched::{Arm, GoalNode, On, Proc, Sched};
use mc_model::ty::Ty;
use mc_model::value::Value;
use mc_model::{Memory, Row, Text};
use std::alloc::Global;

const DET: Det = Det {
    can_fail: false,
    most: Most::One,
    committed: false,
};

const HERE: Place = Place { file: 0, line: 1 };

/// The row of one element.
fn only<T: Drop>(alloc: Global, x: T) -> Result<Row<T>, Memory>
    ensures { IfOk result (λ row. row ≡ x ∷ []) }
{
    let mut row = Row::new(alloc);
    row.push(x)?;
    Ok(row)
}

/// The row of two elements.
fn both<T: Drop>(alloc: Global, x: T, y: T) -> Result<Row<T>, Memory>
    ensures { IfOk result (λ row. row ≡ x ∷ y ∷ []) }
{
    let mut row = Row::new(alloc);
    row.push(x)?;
    row.push(y)?;
    Ok(row)
}

fn name(alloc: Global, arity: u32) -> Result<Name, Memory> {
    Ok(Name {
        module: Text::new(alloc, b"family")?,
        name: Text::new(alloc, b"parent")?,
        arity,
    })
}

/// `( if some [X] X = 1 then not p(X) else true )`
fn condition(alloc: Global) -> Result<Goal, Memory> {
    let equal = Goal::Equal(Expr::Var(0), Expr::Int(1));
    let found = Goal::Some(only(alloc, 0)?, Box::new(alloc, equal)?);
    let call = Goal::Call(0, only(alloc, Expr::Var(0))?);
    let not = Goal::Not(Box::new(alloc, call)?);
    Ok(Goal::Ite(
        Row::new(alloc),
        Box::new(alloc, found)?,
        Box::new(alloc, not)?,
        Box::new(alloc, Goal::True)?,
    ))
}

/// A predicate with one clause, whose body holds two conditions.
fn predicate(alloc: Global) -> Result<Pred, Memory> {
    let body = Goal::Disj(both(alloc, condition(alloc)?, condition(alloc)?)?);
    let clause = Clause {
        vars: 1,
        head: only(alloc, Expr::Var(0))?,
        body,
        place: HERE,
    };
    Ok(Pred {
        name: name(alloc, 1)?,
        is_func: false,
        types: only(alloc, Ty::Int)?,
        clauses: only(alloc, clause)?,
        builtin: None,
    })
}

#[test]
fn a_program_is_built_and_dropped(rt: HostRuntime) -> Result<(), Memory> {
    let alloc = rt.alloc();
    let symbol = Symbol {
        name: name(alloc, 0)?,
        of_type: 0,
        args: Row::new(alloc),
    };
    let enumeration = TypeDef {
        name: name(alloc, 0)?,
        params: 0,
        symbols: only(alloc, 0)?,
    };
    let program = Program {
        types: only(alloc, enumeration)?,
        symbols: only(alloc, symbol)?,
        preds: only(alloc, predicate(alloc)?)?,
    };
    for pred in program.preds.as_slice() {
        for clause in pred.clauses.as_slice() {
            assert!(rt; matches!(clause.body, Goal::Disj(_)));
        }
    }
    drop(program);
    Ok(())
}

/// An equation of variables, or of a variable and a constructor.
fn either(alloc: Global) -> Result<Flat, Memory> {
    let made = Flat::Made(0, 7, both(alloc, 1, 2)?);
    Ok(Flat::Disj(both(alloc, Flat::Same(0, 1), made)?))
}

#[test]
fn a_flat_goal_is_built_and_dropped(rt: HostRuntime) -> Result<(), Memory> {
    let alloc = rt.alloc();
    let constant = Flat::Const(0, Value::Int(3));
    let call = Flat::Call(4, only(alloc, 0)?);
    let found = Flat::Some(only(alloc, 0)?, Box::new(alloc, call)?);
    let goal = Flat::Ite(
        only(alloc, 0)?,
        Box::new(alloc, either(alloc)?)?,
        Box::new(alloc, Flat::Not(Box::new(alloc, constant)?))?,
        Box::new(alloc, Flat::Conj(both(alloc, found, Flat::True)?))?,
    );
    assert!(rt; matches!(goal, Flat::Ite(_, _, _, _)));
    drop(goal);
    Ok(())
}

/// A goal that changes no inst.
fn kept(alloc: Global, goal: Sched) -> GoalNode {
    GoalNode {
        goal,
        changes: Row::new(alloc),
        det: DET,
        pruned: false,
    }
}

/// A switch on variable 0, with an arm for a constructor and one for a constant.
fn switch(alloc: Global) -> Result<GoalNode, Memory> {
    let take = Sched::Take(0, 1, both(alloc, 2, 3)?);
    let first = Arm {
        on: On::Symbol(1),
        body: kept(alloc, take),
    };
    let second = Arm {
        on: On::Const(Value::Char('a')),
        body: kept(alloc, Sched::TestConst(0, Value::Char('a'))),
    };
    Ok(kept(alloc, Sched::Switch(0, both(alloc, first, second)?)))
}

/// A conjunction of two goals.
fn conjunction(alloc: Global, first: Sched, second: Sched) -> Result<GoalNode, Memory> {
    let parts = both(alloc, kept(alloc, first), kept(alloc, second))?;
    Ok(kept(alloc, Sched::Conj(parts)))
}

/// Equations.
fn equations(alloc: Global) -> Result<GoalNode, Memory> {
    let build = Sched::Build(5, 1, both(alloc, 4, 0)?);
    let first = conjunction(alloc, Sched::Assign(4, 0), Sched::Test(4, 0))?;
    let second = conjunction(alloc, build, Sched::Const(6, Value::Int(2)))?;
    Ok(kept(alloc, Sched::Conj(both(alloc, first, second)?)))
}

/// A call with an implied argument, and a builtin.
fn calls(alloc: Global) -> Result<GoalNode, Memory> {
    let call = Sched::Call(0, both(alloc, 4, 5)?, only(alloc, 1)?);
    let apply = Sched::Apply(Builtin::IntNegate, only(alloc, 4)?, only(alloc, 7)?);
    conjunction(alloc, call, apply)
}

/// The switch inside a quantifier and a negation as a condition.
fn choice(alloc: Global) -> Result<Sched, Memory> {
    let found = Sched::Some(only(alloc, 2)?, Box::new(alloc, switch(alloc)?)?);
    let not = Sched::Not(Box::new(alloc, kept(alloc, found))?);
    Ok(Sched::Ite(
        Row::new(alloc),
        Box::new(alloc, kept(alloc, not))?,
        Box::new(alloc, calls(alloc)?)?,
        Box::new(alloc, kept(alloc, Sched::Disj(Row::new(alloc))))?,
    ))
}

#[test]
fn goals_are_built_and_dropped(rt: HostRuntime) -> Result<(), Memory> {
    let goals = equations(rt.alloc())?;
    assert!(rt; matches!(goals.goal, Sched::Conj(_)));
    drop(goals);
    let choice = choice(rt.alloc())?;
    assert!(rt; matches!(choice, Sched::Ite(_, _, _, _)));
    drop(choice);
    Ok(())
}

#[test]
fn a_procedure_is_built_and_dropped(rt: HostRuntime) -> Result<(), Memory> {
    let alloc = rt.alloc();
    let body = GoalNode {
        goal: Sched::Const(7, Value::Int(1)),
        changes: only(alloc, (7, 1))?,
        det: DET,
        pruned: true,
    };
    let procedure = Proc {
        pred: 0,
        mode: 0,
        head: both(alloc, 0, 7)?,
        var_types: both(alloc, Ty::Int, Ty::Int)?,
        first: both(alloc, 1, 0)?,
        last: both(alloc, 1, 1)?,
        body,
        declared: Some(DET),
        det: DET,
        exported: true,
        at: HERE,
    };
    assert_eq!(rt; procedure.head.len(), procedure.first.len());
    assert!(rt; procedure.body.pruned);
    drop(procedure);
    Ok(())
}

#[test]
fn declarations_are_built_and_dropped(rt: HostRuntime) -> Result<(), Memory> {
    let alloc = rt.alloc();
    let mode = ModeDecl {
        proc: 0,
        first: only(alloc, 0)?,
        last: only(alloc, 1)?,
        det: None,
        at: HERE,
    };
    let sig = Sig {
        pred: 0,
        modes: only(alloc, mode)?,
    };
    assert_eq!(rt; sig.modes.get(0).det, None);
    let choice = Choice {
        name: Text::new(alloc, b"yes")?,
        arity: 1,
        args: only(alloc, InstRef::New(0))?,
    };
    assert_eq!(rt; *choice.args.get(0), InstRef::New(0));
    assert_ne!(rt; *choice.args.get(0), InstRef::Old(0));
    Ok(())
}

#[test]
fn answers_of_phases_are_built_and_dropped(rt: HostRuntime) -> Result<(), Memory> {
    let alloc = rt.alloc();
    let resolved = Resolved {
        clause: Clause {
            vars: 0,
            head: Row::new(alloc),
            body: Goal::True,
            place: HERE,
        },
        var_types: Row::new(alloc),
        var_names: Row::new(alloc),
    };
    assert_eq!(rt; resolved.var_names.len(), 0);
    drop(resolved);
    let broken = Broken {
        rule: Rule::E2,
        at: HERE,
        what: Text::new(alloc, b"p/2 has no determinism")?,
    };
    let faults = only(alloc, broken)?;
    assert_eq!(rt; faults.get(0).rule, Rule::E2);
    drop(faults);
    Ok(())
}
