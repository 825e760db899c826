//! Whether a program has the symbols of values.
ghost use Rattle.std.specs.Prelude.{◌≡◌, ◌↔◌, map, All, IfOk, IsTrue, MatchOption, OnOk};
ghost use Rattle.mc_program.specs.Values.{con, vals, plain_value};
ghost use Rattle.mc_program.specs.Printed.{SymbolsBelow};
ghost use Rattle.mc_cmd.specs.code.Looking.{HasNoSymbol, IsLeft, IsLooked};

use mc_base::Memory;
use mc_program::value::Value;
use std::alloc::Global;

/// Whether each symbol of values is below `count`. What is still to be looked at is kept in a list, so that no value takes
/// stack for its depth, nor a long list room for each element.
pub fn are_named(alloc: Global, values: &[Value], count: u32) -> Result<bool, Memory>
    ensures { IfOk result
        (λ named. IsTrue named ↔ All (λ v. SymbolsBelow count (plain_value v)) values.now) }
{
    let mut left = Vec::new(alloc);
    put(&mut left, values)?;
    while let Some(next) = left.pop() {
        if !look(&mut left, next, count)? {
            return Ok(false);
        }
    }
    Ok(true)
}

/// Looks at the symbol of the first of values, and puts its arguments and the other values to what is left. Answers whether
/// the symbol is below `count`.
fn look<'v>(left: &mut Vec<&'v [Value]>, values: &'v [Value], count: u32) -> Result<bool, Memory>
    ensures { IfOk result (IsLooked count values.now left.old.items left.new.items) }
{
    let [first, rest @ ..] = values else {
        return Ok(true);
    };
    put(left, rest)?;
    match parts(first) {
        Some((symbol, args)) => {
            put(left, args)?;
            Ok(symbol < count)
        }
        None => Ok(true),
    }
}

/// The symbol of a constructor, and its arguments.
fn parts(value: &Value) -> Option<(u32, &[Value])>
    ensures { MatchOption result (HasNoSymbol (plain_value value.now))
        (λ p. plain_value value.now ≡ con p.0 (vals (map plain_value p.1.now))) }
{
    match value {
        Value::Con(symbol, args) => Some((*symbol, args.as_slice())),
        _ => None,
    }
}

/// Puts values to what is left to be looked at, where there are any.
fn put<'v>(left: &mut Vec<&'v [Value]>, values: &'v [Value]) -> Result<(), Memory>
    ensures { OnOk result (IsLeft values.now left.old.items left.new.items) }
{
    if !values.is_empty() {
        left.push(values)?;
    }
    Ok(())
}
