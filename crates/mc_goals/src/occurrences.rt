ghost use Rattle.std.specs.Prelude.{◌≡◌, ◌<◌, ◌^◌, ◌++◌, map, OnOk};
ghost use Rattle.mc_program.specs.Programs.{expressions};
ghost use Rattle.mc_program.specs.PlainPrograms.{plain_expression, plain_goal, formulas};
ghost use Rattle.mc_accepted.specs.Scope.{variables_in, variables_in_all, occurring, occurring_all};
ghost use Rattle.mc_accepted.specs.Normal.{named_by_quantifiers, named_by_quantifiers_of_all};

use mc_base::Memory;
use mc_program::expr::Expr;
use mc_program::program::Goal;

/// Puts the variables of a term at the end, in order. The last arguments are taken by a loop.
#[cycle(variables)]
pub fn push_variables(list: &mut Vec<u32>, term: &Expr) -> Result<(), Memory>
    ensures { OnOk result (list.new.items
        ≡ list.old.items ++ variables_in (plain_expression term.now)) }
{
    let mut rest = term;
    loop {
        match rest {
            Expr::Var(v) => {
                list.push(*v)?;
                return Ok(());
            }
            Expr::Int(_) => return Ok(()),
            Expr::Char(_) => return Ok(()),
            Expr::Str(_) => return Ok(()),
            Expr::Con(_, args) => match args.as_slice() {
                [] => return Ok(()),
                [front @ .., last] => {
                    push_all_variables(list, front)?;
                    rest = last;
                }
            },
            Expr::Apply(_, args) => match args.as_slice() {
                [] => return Ok(()),
                [front @ .., last] => {
                    push_all_variables(list, front)?;
                    rest = last;
                }
            },
        }
    }
}

/// Puts the variables of terms at the end, in order.
#[cycle(variables)]
pub fn push_all_variables(list: &mut Vec<u32>, terms: &[Expr]) -> Result<(), Memory>
    ensures { OnOk result (list.new.items
        ≡ list.old.items ++ variables_in_all (expressions (map plain_expression terms.now))) }
{
    for term in terms {
        push_variables(list, term)?;
    }
    Ok(())
}

/// Puts the variables that occur in a goal at the end, in order.
#[cycle(occurring)]
pub fn push_occurring(list: &mut Vec<u32>, goal: &Goal) -> Result<(), Memory>
    ensures { OnOk result (list.new.items ≡ list.old.items ++ occurring (plain_goal goal.now)) }
{
    match goal {
        Goal::True => Ok(()),
        Goal::Conj(goals) => push_all_occurring(list, goals.as_slice()),
        Goal::Disj(goals) => push_all_occurring(list, goals.as_slice()),
        Goal::Ite(_, condition, then_part, else_part) => {
            push_occurring(list, condition)?;
            push_occurring(list, then_part)?;
            push_occurring(list, else_part)
        }
        Goal::Not(goal) => push_occurring(list, goal),
        Goal::Some(_, goal) => push_occurring(list, goal),
        Goal::Equal(left, right) => {
            push_variables(list, left)?;
            push_variables(list, right)
        }
        Goal::Call(_, args) => push_all_variables(list, args.as_slice()),
    }
}

#[cycle(occurring)]
pub fn push_all_occurring(list: &mut Vec<u32>, goals: &[Goal]) -> Result<(), Memory>
    ensures { OnOk result (list.new.items
        ≡ list.old.items ++ occurring_all (formulas (map plain_goal goals.now))) }
{
    for goal in goals {
        push_occurring(list, goal)?;
    }
    Ok(())
}

/// Puts the variables that quantifiers of a goal name at the end, in order.
#[cycle(quantified)]
pub fn push_named(list: &mut Vec<u32>, goal: &Goal) -> Result<(), Memory>
    ensures { OnOk result (list.new.items
        ≡ list.old.items ++ named_by_quantifiers (plain_goal goal.now)) }
{
    match goal {
        Goal::True => Ok(()),
        Goal::Conj(goals) => push_all_named(list, goals.as_slice()),
        Goal::Disj(goals) => push_all_named(list, goals.as_slice()),
        Goal::Ite(vars, condition, then_part, else_part) => {
            list.extend_from_slice(vars.as_slice())?;
            push_named(list, condition)?;
            push_named(list, then_part)?;
            push_named(list, else_part)
        }
        Goal::Not(goal) => push_named(list, goal),
        Goal::Some(vars, goal) => {
            list.extend_from_slice(vars.as_slice())?;
            push_named(list, goal)
        }
        Goal::Equal(_, _) => Ok(()),
        Goal::Call(_, _) => Ok(()),
    }
}

#[cycle(quantified)]
fn push_all_named(list: &mut Vec<u32>, goals: &[Goal]) -> Result<(), Memory>
    ensures { OnOk result (list.new.items
        ≡ list.old.items ++ named_by_quantifiers_of_all (formulas (map plain_goal goals.now))) }
{
    for goal in goals {
        push_named(list, goal)?;
    }
    Ok(())
}
