ghost use Rattle.std.specs.Prelude.{◌≡◌, ◌↔◌, ◌<◌, IsTrue, IfOk, Some, length, map};
ghost use Rattle.std.specs.Str.{IsUtf8};
ghost use Rattle.mc_program.specs.Programs.{union_type};
ghost use Rattle.mc_program.specs.Values.{plain_value};
ghost use Rattle.mc_program.specs.PlainPrograms.{plain_program, plain_type, plain_symbol, type_terms, no_symbol};
ghost use Rattle.mc_model.specs.Flat as F;
ghost use Rattle.mc_model.specs.Flat.{flats};
ghost use Rattle.mc_model.specs.PlainGoals.{plain_flat};
ghost use Rattle.mc_model.specs.Lists.{In};
ghost use Rattle.mc_model.specs.Types.{IsValue, instance_of, type_at};
ghost use Rattle.mc_accepted.specs.Typing.{ConstantOf, TypedGoal, TypedGoals, constructor_types};
ghost use Rattle.mc_procs.specs.VariableTypes.{type_in};
ghost use Rattle.mc_self_check.specs.TypedGoals.{IsTyped};

use crate::instance::is_instance;
use crate::listed::is_listed;
use crate::matching::have_instance;
use crate::variables::{are_alike, has_type, have_types, type_of};
use mc_base::Memory;
use mc_model::flat::{Flat, Normal};
use mc_program::program::Program;
use mc_program::ty::Ty;
use mc_program::value::Value;
use std::alloc::Global;

/// Whether the goal of a predicate is typed, and its head variables have the predicate's types.
pub fn goal_is_typed(
    alloc: Global,
    program: &Program,
    pred: u32,
    goal: &Normal,
) -> Result<bool, Memory>
    requires { pred < length program.now.preds }
    ensures { IfOk result (λ b. IsTrue b ↔ IsTyped (plain_program program.now) pred goal.now) }
{
    let types = goal.var_types.as_slice();
    let expected = program.preds.get(pred).types.as_slice();
    if !have_types(types, goal.head.as_slice(), expected) {
        return Ok(false);
    }
    is_typed(alloc, program, types, &goal.body)
}

/// Whether the atoms of a goal are typed.
#[cycle(typed)]
pub(crate) fn is_typed(
    alloc: Global,
    program: &Program,
    types: &[Ty],
    goal: &Flat,
) -> Result<bool, Memory>
    ensures { IfOk result (λ b. IsTrue b
        ↔ TypedGoal (plain_program program.now) (type_in types.now) (plain_flat goal.now)) }
{
    match goal {
        Flat::True => Ok(true),
        Flat::Conj(goals) => all_typed(alloc, program, types, goals.as_slice()),
        Flat::Disj(goals) => all_typed(alloc, program, types, goals.as_slice()),
        Flat::Ite(_, condition, then_part, else_part) => {
            Ok(
                is_typed(alloc, program, types, condition)?
                    && is_typed(alloc, program, types, then_part)?
                    && is_typed(alloc, program, types, else_part)?,
            )
        }
        Flat::Not(inner) => is_typed(alloc, program, types, inner),
        Flat::Some(_, inner) => is_typed(alloc, program, types, inner),
        Flat::Same(x, y) => Ok(are_alike(types, *x, *y)),
        Flat::Made(x, symbol, args) => {
            Ok(made_is_typed(program, types, *x, *symbol, args.as_slice()))
        }
        Flat::Const(x, value) => Ok(constant_is_typed(program, types, *x, value)),
        Flat::Call(pred, args) => call_is_typed(alloc, program, types, *pred, args.as_slice()),
    }
}

#[cycle(typed)]
fn all_typed(alloc: Global, program: &Program, types: &[Ty], goals: &[Flat]) -> Result<bool, Memory>
    ensures { IfOk result (λ b. IsTrue b
        ↔ TypedGoals (plain_program program.now) (type_in types.now)
        (flats (map plain_flat goals.now))) }
{
    for goal in goals {
        if !is_typed(alloc, program, types, goal)? {
            return Ok(false);
        }
    }
    Ok(true)
}

/// Whether a constant is of its variable's type.
fn constant_is_typed(program: &Program, types: &[Ty], x: u32, value: &Value) -> bool
    ensures { IsTrue result
        ↔ (IsValue (plain_program program.now) (plain_value value.now)
        × ConstantOf (plain_value value.now) (type_in types.now x)) }
{
    let _ = program;
    match value {
        Value::Int(number) => {
            let _number = *number;
            has_type(types, x, &Ty::Int)
        }
        Value::Char(character) => {
            let _character = *character;
            has_type(types, x, &Ty::Char)
        }
        Value::Str(text) => is_text(text.bytes()) && has_type(types, x, &Ty::Str),
        Value::Con(_, _) => false,
        Value::Io(_, _) => false,
    }
}

/// Whether bytes are UTF-8.
fn is_text(bytes: &[u8]) -> bool
    ensures { IsTrue result ↔ IsUtf8 bytes.now }
{
    str::from_utf8(bytes).is_ok()
}

/// Whether the arguments of a call are of an instance of the predicate's types.
fn call_is_typed(
    alloc: Global,
    program: &Program,
    types: &[Ty],
    pred: u32,
    args: &[u32],
) -> Result<bool, Memory>
    ensures { IfOk result (λ b. IsTrue b
        ↔ TypedGoal (plain_program program.now) (type_in types.now) (F.Call pred args.now)) }
{
    if pred < program.preds.len() {
        have_instance(alloc, types, args, program.preds.get(pred).types.as_slice())
    } else {
        Ok(args.is_empty())
    }
}

/// Whether a constructor is one of its variable's type, and its arguments are of the types that it has there.
fn made_is_typed(program: &Program, types: &[Ty], x: u32, symbol: u32, args: &[u32]) -> bool
    ensures { IsTrue result
        ↔ (constructor_types (plain_program program.now) symbol (type_in types.now x)
        ≡ Some (map (type_in types.now) args.now)) }
{
    let place = x as usize;
    if place >= types.len() {
        return false;
    }
    match &types[place] {
        Ty::Union(u, inner) => of_union(program, types, symbol, *u, inner.as_slice(), args),
        _ => false,
    }
}

/// Whether a constructor is one of a union type, and its arguments are of the types that it has there.
fn of_union(
    program: &Program,
    types: &[Ty],
    symbol: u32,
    union: u32,
    inner: &[Ty],
    args: &[u32],
) -> bool
    ensures { IsTrue result
        ↔ (constructor_types (plain_program program.now) symbol
        (union_type union (type_terms (map plain_type inner.now)))
        ≡ Some (map (type_in types.now) args.now)) }
{
    if !lists(program, union, symbol) {
        return false;
    }
    if symbol < program.symbols.len() {
        let constructor = program.symbols.get(symbol);
        if constructor.of_type != union {
            return false;
        }
        have_instances(types, args, inner, constructor.args.as_slice())
    } else {
        union == 0 && args.is_empty()
    }
}

/// Whether a union type lists a constructor.
fn lists(program: &Program, union: u32, symbol: u32) -> bool
    ensures { IsTrue result ↔ In symbol ((plain_program program.now).symbols_of union) }
{
    union < program.types.len() && is_listed(program.types.get(union).symbols.as_slice(), symbol)
}

/// Whether variables are of these types, with the arguments of their union type.
fn have_instances(types: &[Ty], variables: &[u32], inner: &[Ty], patterns: &[Ty]) -> bool
    ensures { IsTrue result
        ↔ (map (type_in types.now) variables.now
        ≡ map (instance_of (type_at (type_terms (map plain_type inner.now))))
        (map plain_type patterns.now)) }
{
    if variables.len() != patterns.len() {
        return false;
    }
    for place in 0..variables.len() {
        let own = Ty::Var(variables[place]);
        let t = type_of(types, variables[place], &own);
        if !is_instance(inner, &patterns[place], t) {
            return false;
        }
    }
    true
}
