ghost use Rattle.std.specs.Prelude.{◌≡◌, ◌<◌, ◌^◌, map, IfOk};
ghost use Rattle.mc_program.specs.Programs.{expressions};
ghost use Rattle.mc_program.specs.PlainPrograms.{plain_expression};
ghost use Rattle.mc_accepted.specs.Normal.{name_term, name_terms};
ghost use Rattle.mc_goals.specs.code.Numbering.{number_at};
ghost use Rattle.mc_goals.specs.code.Naming.{held, Named, NamedAll};

use crate::building::{Building, Head};
use crate::numbers::Numbers;
use mc_base::{Copied, Memory};
use mc_program::expr::Expr;
use mc_program::value::Value;
use std::alloc::Global;

/// The arguments, as variables, before the last one of a term that is being named.
#[derive(Drop)]
pub struct Front {
    pub head: Head,
    pub args: Vec<u32>,
}

/// The variable that stands for a term, after the goals that define it were put at the end. The last arguments are
/// taken by a loop, so that a long list takes no stack for each element.
#[cycle(terms)]
pub fn named(
    alloc: Global,
    numbers: &Numbers,
    into: &mut Building,
    term: &Expr,
) -> Result<u32, Memory>
    ensures { IfOk result (λ v. Named (number_at numbers.now) (held into.old) (held into.new)
        (plain_expression term.now) v) }
{
    let mut fronts = Vec::new(alloc);
    let mut rest = term;
    let mut variable = loop {
        match rest {
            Expr::Var(v) => break numbers.of(*v),
            Expr::Int(n) => break into.define(Value::Int(*n))?,
            Expr::Char(c) => break into.define(Value::Char(*c))?,
            Expr::Str(t) => break into.define(Value::Str(t.copied(alloc)?))?,
            Expr::Con(symbol, args) => match args.as_slice() {
                [] => break into.make(Head::Con(*symbol), Vec::new(alloc))?,
                [front @ .., last] => {
                    let args = named_all(alloc, numbers, into, front)?;
                    fronts.push(Front {
                        head: Head::Con(*symbol),
                        args,
                    })?;
                    rest = last;
                }
            },
            Expr::Apply(function, args) => match args.as_slice() {
                [] => break into.make(Head::Apply(*function), Vec::new(alloc))?,
                [front @ .., last] => {
                    let args = named_all(alloc, numbers, into, front)?;
                    fronts.push(Front {
                        head: Head::Apply(*function),
                        args,
                    })?;
                    rest = last;
                }
            },
        }
    };
    while let Some(front) = fronts.pop() {
        let Front { head, mut args } = front;
        args.push(variable)?;
        variable = into.make(head, args)?;
    }
    Ok(variable)
}

/// The variables that stand for terms, in order.
#[cycle(terms)]
pub fn named_all(
    alloc: Global,
    numbers: &Numbers,
    into: &mut Building,
    terms: &[Expr],
) -> Result<Vec<u32>, Memory>
    ensures { IfOk result (λ variables. NamedAll (number_at numbers.now) (held into.old)
        (held into.new) (expressions (map plain_expression terms.now)) variables.items) }
{
    let mut variables = Vec::with_capacity(alloc, terms.len())?;
    for term in terms {
        variables.push(named(alloc, numbers, into, term)?)?;
    }
    Ok(variables)
}
