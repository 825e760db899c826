ghost use Rattle.std.specs.Prelude.{◌≡◌, ℕ, List, [], ◌<◌, ◌≤◌, ◌^◌, ◌++◌, map, length, drop, slice_index_or, IfOk, OnOk};
ghost use Rattle.mc_program.specs.Programs.{variable_type};
ghost use Rattle.mc_program.specs.PlainPrograms.{plain_type, plain_clause};
ghost use Rattle.mc_model.specs.Lists.{from};
ghost use Rattle.mc_model.specs.PlainGoals.{plain_flat};
ghost use Rattle.mc_accepted.specs.Normal as normal;
ghost use Rattle.mc_accepted.specs.Normal.{conjunction, all_disjuncts, one_or_either, clause_goal, clause_goals};
ghost use Rattle.mc_accepted.specs.NormalTypes.{clause_types, clause_names, clauses_types, clauses_names, normal_types, normal_names};
ghost use Rattle.mc_goals.specs.Resolved.{clause_of, typed_clause, EachAsManyTypes};

use crate::clauses::goal_of_clause;
use crate::goals::add_disjunct;
use crate::shape::below;
use mc_base::{Copied, Memory, Row, Text};
use mc_model::flat::{Flat, Normal};
use mc_program::program::{Pred, Resolved};
use mc_program::ty::{Ty, copy_type};
use std::alloc::Global;

/// The one goal of a predicate, whose number is given, and of its clauses, whose names are resolved and whose scopes are
/// written out. Where each clause has a type for each of its variables, the goal has one for each of its own.
pub fn normal_goal(
    alloc: Global,
    number: u32,
    pred: &Pred,
    clauses: &Row<Resolved>,
) -> Result<Normal, Memory>
    ensures pred { IfOk result (λ goal. goal.pred ≡ number) }
    ensures head { IfOk result (λ goal. goal.head ≡ from 0 (length pred.now.types)) }
    ensures body { IfOk result (λ goal. plain_flat goal.body
        ≡ (normal.normal_goal (length pred.now.types) (map clause_of clauses.now)).body) }
    ensures types { IfOk result (λ goal. map plain_type goal.var_types
        ≡ normal_types (map plain_type pred.now.types) (map typed_clause clauses.now)) }
    ensures names { IfOk result (λ goal. goal.var_names
        ≡ normal_names (map plain_type pred.now.types) (map typed_clause clauses.now)) }
    ensures count { EachAsManyTypes (map plain_type pred.now.types) (map typed_clause clauses.now)
        → IfOk result (λ goal. length goal.var_types
        ≡ (normal.normal_goal (length pred.now.types) (map clause_of clauses.now)).variables) }
{
    let mut variables = of_head(alloc, &pred.types)?;
    let body = variables.add_clauses(alloc, clauses.as_slice())?;
    finish(alloc, number, pred.types.len(), variables, body)
}

/// The variables of a normal goal so far, with their types and names, and the next number for one.
#[derive(Drop)]
struct Variables {
    types: Vec<Ty>,
    names: Vec<Text>,
    next: u32,
}

impl Variables {
    /// The goal of the next clause, whose variables are put behind the others.
    fn add_clause(&mut self, alloc: Global, resolved: &Resolved) -> Result<Flat, Memory>
        ensures goal { IfOk result (λ goal. plain_flat goal
            ≡ conjunction (clause_goal self.old.next (clause_of resolved.now)).goals) }
        ensures next { OnOk result (self.new.next
            ≡ (clause_goal self.old.next (clause_of resolved.now)).next) }
        ensures types { OnOk result (map plain_type self.new.types.items
            ≡ map plain_type self.old.types.items ++ clause_types (typed_clause resolved.now)) }
        ensures names { OnOk result (self.new.names.items
            ≡ self.old.names.items ++ clause_names (typed_clause resolved.now)) }
    {
        let made = goal_of_clause(alloc, self.next, &resolved.clause)?;
        let others = made.others.as_slice();
        add_types(
            alloc,
            &mut self.types,
            others,
            resolved.clause.vars,
            &resolved.var_types,
        )?;
        add_names(
            alloc,
            &mut self.names,
            others,
            resolved.clause.vars,
            resolved,
        )?;
        self.next = made.next;
        Ok(made.goal)
    }

    /// The one goal that clauses are.
    fn add_clauses(&mut self, alloc: Global, clauses: &[Resolved]) -> Result<Flat, Memory>
        ensures goal { IfOk result (λ goal. plain_flat goal
            ≡ one_or_either (clause_goals self.old.next (map clause_of clauses.now)).goals) }
        ensures types { OnOk result (map plain_type self.new.types.items
            ≡ map plain_type self.old.types.items ++ clauses_types (map typed_clause clauses.now)) }
        ensures names { OnOk result (self.new.names.items
            ≡ self.old.names.items ++ clauses_names (map typed_clause clauses.now)) }
    {
        match clauses {
            [clause] => self.add_clause(alloc, clause),
            [] => Ok(Flat::Disj(Row::new(alloc))),
            [_, _, ..] => Ok(Flat::Disj(Row::of(self.disjuncts(alloc, clauses)?)?)),
        }
    }

    /// The disjuncts that several clauses are.
    fn disjuncts(&mut self, alloc: Global, clauses: &[Resolved]) -> Result<Vec<Flat>, Memory>
        ensures goals { IfOk result (λ goals. map plain_flat goals.items
            ≡ all_disjuncts (clause_goals self.old.next (map clause_of clauses.now)).goals) }
        ensures types { OnOk result (map plain_type self.new.types.items
            ≡ map plain_type self.old.types.items ++ clauses_types (map typed_clause clauses.now)) }
        ensures names { OnOk result (self.new.names.items
            ≡ self.old.names.items ++ clauses_names (map typed_clause clauses.now)) }
    {
        let mut goals = Vec::with_capacity(alloc, clauses.len())?;
        for clause in clauses {
            add_disjunct(&mut goals, self.add_clause(alloc, clause)?)?;
        }
        Ok(goals)
    }
}

/// The head variables of a predicate.
fn of_head(alloc: Global, types: &Row<Ty>) -> Result<Variables, Memory>
    ensures types { IfOk result (λ v. map plain_type v.types.items ≡ map plain_type types.now) }
    ensures names { IfOk result (λ v. v.names.items ≡ map (λ t. []) (map plain_type types.now)) }
    ensures next { IfOk result (λ v. v.next ≡ length types.now) }
{
    let mut copies = Vec::with_capacity(alloc, types.as_slice().len())?;
    let mut names = Vec::with_capacity(alloc, types.as_slice().len())?;
    let slice = types.as_slice();
    for ty in slice {
        copies.push(copy_type(alloc, ty)?)?;
        names.push(Text::empty(alloc))?;
    }
    Ok(Variables {
        types: copies,
        names,
        next: types.len(),
    })
}

fn finish(
    alloc: Global,
    number: u32,
    arity: u32,
    variables: Variables,
    body: Flat,
) -> Result<Normal, Memory>
    ensures pred { IfOk result (λ goal. goal.pred ≡ number) }
    ensures head { IfOk result (λ goal. goal.head ≡ from 0 arity) }
    ensures types { IfOk result (λ goal. goal.var_types ≡ variables.types.items) }
    ensures names { IfOk result (λ goal. goal.var_names ≡ variables.names.items) }
    ensures body { IfOk result (λ goal. goal.body ≡ body) }
{
    let Columns { head, types, names } = columns_of(alloc, arity, variables)?;
    Ok(Normal {
        pred: number,
        head,
        var_types: types,
        var_names: names,
        body,
    })
}

/// The rows of a normal goal.
#[derive(Drop)]
struct Columns {
    head: Row<u32>,
    types: Row<Ty>,
    names: Row<Text>,
}

/// The head variables, and the types and names of all variables.
fn columns_of(alloc: Global, arity: u32, variables: Variables) -> Result<Columns, Memory>
    ensures head { IfOk result (λ columns. columns.head ≡ from 0 arity) }
    ensures types { IfOk result (λ columns. columns.types ≡ variables.types.items) }
    ensures names { IfOk result (λ columns. columns.names ≡ variables.names.items) }
{
    let Variables {
        types,
        names,
        next: _,
    } = variables;
    let types = Row::of(types)?;
    let names = Row::of(names)?;
    let head = below(alloc, arity)?;
    Ok(Columns { head, types, names })
}

/// Puts the types of a clause's own variables that are no head arguments at the end, and those of the variables that
/// were made.
fn add_types(
    alloc: Global,
    into: &mut Vec<Ty>,
    others: &[u32],
    own: u32,
    types: &Row<Ty>,
) -> Result<(), Memory>
    ensures { OnOk result (map plain_type into.new.items ≡ map plain_type into.old.items
        ++ (map (λ v. slice_index_or (map plain_type types.now) v (variable_type v)) others.now
        ++ drop own (map plain_type types.now))) }
{
    for variable in others {
        into.push(type_of(alloc, types, *variable)?)?;
    }
    for made in own..types.len() {
        into.push(copy_type(alloc, types.get(made))?)?;
    }
    Ok(())
}

/// The type of a variable.
fn type_of(alloc: Global, types: &Row<Ty>, variable: u32) -> Result<Ty, Memory>
    ensures { IfOk result (λ t. plain_type t
        ≡ slice_index_or (map plain_type types.now) variable (variable_type variable)) }
{
    if variable >= types.len() {
        return Ok(Ty::Var(variable));
    }
    copy_type(alloc, types.get(variable))
}

/// Puts the names of a clause's own variables that are no head arguments at the end, and empty names for the variables
/// that were made.
fn add_names(
    alloc: Global,
    into: &mut Vec<Text>,
    others: &[u32],
    own: u32,
    resolved: &Resolved,
) -> Result<(), Memory>
    ensures { OnOk result (into.new.items ≡ into.old.items
        ++ (map (λ v. slice_index_or resolved.now.var_names v []) others.now
        ++ map (λ t. []) (drop own (map plain_type resolved.now.var_types)))) }
{
    for variable in others {
        into.push(name_of(alloc, &resolved.var_names, *variable)?)?;
    }
    'made: for _ in own..resolved.var_types.len() {
        into.push(Text::empty(alloc))?;
    }
    Ok(())
}

/// The name of a variable.
fn name_of(alloc: Global, names: &Row<Text>, variable: u32) -> Result<Text, Memory>
    ensures { IfOk result (λ name. name ≡ slice_index_or names.now variable []) }
{
    if variable >= names.len() {
        return Ok(Text::empty(alloc));
    }
    names.get(variable).copied(alloc)
}
