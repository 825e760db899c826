ghost use Rattle.std.specs.Prelude.{◌≡◌, [], map, length, get_or, false, None, IfOk};
ghost use Rattle.mc_program.specs.Programs.{variable_type};
ghost use Rattle.mc_program.specs.PlainPrograms.{plain_type, plain_expression, plain_pred};
ghost use Rattle.mc_type_table.specs.Held.{held};
ghost use Rattle.mc_goals.specs.Resolved.{typed_clause};
ghost use Rattle.mc_core_program.specs.Whole.{whole_query};
ghost use Rattle.mc_core_program.specs.code.Rows.{argument_type, argument_name, predicate_over, names_over};

use crate::whole_program_program::MOST_PARTS;
use crate::whole_query;
use mc_base::{Copied, Memory, Row, Text};
use mc_program::expr::Expr;
use mc_program::program::{Name, Pred, Resolved};
use mc_program::ty::{Ty, copy_type};
use mc_type_table::SizeBudget;
use std::alloc::Global;

/// A query as a predicate without a name and its one clause, with the names of the variables that it asks for.
#[derive(Drop)]
pub struct Query {
    pub pred: Pred,
    pub names: Row<Text>,
    pub clause: Resolved,
}

/// A query that was typed as a clause without arguments, where `definitions` are what types are defined as.
pub fn query_over(
    alloc: Global,
    definitions: &[Option<Ty>],
    query: Resolved,
) -> Result<Query, Memory>
    ensures clause { IfOk result (λ made. typed_clause made.clause
        ≡ whole_query (held definitions.now) (typed_clause query)) }
    ensures pred { IfOk result (λ made. plain_pred made.pred
        ≡ predicate_over (typed_clause made.clause)) }
    ensures names { IfOk result (λ made. made.names ≡ names_over (typed_clause made.clause)) }
{
    let mut room = SizeBudget { parts: MOST_PARTS };
    let clause = whole_query(alloc, definitions, query, &mut room)?;
    let head = clause.clause.head.as_slice();
    let types = argument_types(alloc, &clause.var_types, head)?;
    let names = argument_names(alloc, &clause.var_names, head)?;
    let pred = without_name(alloc, types);
    Ok(Query {
        pred,
        names,
        clause,
    })
}

// A predicate without a name and without clauses.
fn without_name(alloc: Global, types: Row<Ty>) -> Pred
    ensures { plain_pred result ≡ record {
      name = record { module_name = []; bytes = []; arity = length types };
      types = map plain_type types;
      clauses = [];
      builtin = None;
    } }
{
    Pred {
        name: Name {
            module: Text::empty(alloc),
            name: Text::empty(alloc),
            arity: types.len(),
        },
        is_func: false,
        types,
        clauses: Row::new(alloc),
        builtin: None,
    }
}

// The types of arguments that are variables.
fn argument_types(alloc: Global, types: &Row<Ty>, head: &[Expr]) -> Result<Row<Ty>, Memory>
    ensures { IfOk result (λ all. map plain_type all
        ≡ map (argument_type (map plain_type types.now)) (map plain_expression head.now)) }
{
    let mut all = Vec::with_capacity(alloc, head.len())?;
    for argument in head {
        all.push(argument_type(alloc, types, argument)?)?;
    }
    Row::of(all)
}

fn argument_type(alloc: Global, types: &Row<Ty>, argument: &Expr) -> Result<Ty, Memory>
    ensures { IfOk result (λ t. plain_type t
        ≡ argument_type (map plain_type types.now) (plain_expression argument.now)) }
{
    match argument {
        Expr::Var(v) => type_of(alloc, types, *v),
        _ => Ok(Ty::Var(0)),
    }
}

// The type of a variable, where it has one.
fn type_of(alloc: Global, types: &Row<Ty>, variable: u32) -> Result<Ty, Memory>
    ensures { IfOk result (λ t. plain_type t
        ≡ get_or (map plain_type types.now) variable (variable_type variable)) }
{
    if variable >= types.len() {
        return Ok(Ty::Var(variable));
    }
    copy_type(alloc, types.get(variable))
}

// The names of arguments that are variables.
fn argument_names(alloc: Global, names: &Row<Text>, head: &[Expr]) -> Result<Row<Text>, Memory>
    ensures { IfOk result (λ all. all
        ≡ map (argument_name names.now) (map plain_expression head.now)) }
{
    let mut all = Vec::with_capacity(alloc, head.len())?;
    for argument in head {
        all.push(argument_name(alloc, names, argument)?)?;
    }
    Row::of(all)
}

fn argument_name(alloc: Global, names: &Row<Text>, argument: &Expr) -> Result<Text, Memory>
    ensures { IfOk result (λ name. name
        ≡ argument_name names.now (plain_expression argument.now)) }
{
    match argument {
        Expr::Var(v) => name_of(alloc, names, *v),
        _ => Ok(Text::empty(alloc)),
    }
}

fn name_of(alloc: Global, names: &Row<Text>, variable: u32) -> Result<Text, Memory>
    ensures { IfOk result (λ name. name ≡ get_or names.now variable []) }
{
    if variable >= names.len() {
        return Ok(Text::empty(alloc));
    }
    names.get(variable).copied(alloc)
}
