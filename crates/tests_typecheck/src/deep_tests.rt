use mc_base::{Memory, Row};
use mc_program::copy::copy_value;
use mc_program::expr::{Expr, copy_expr, same_expr};
use mc_program::same::same_value;
use mc_program::ty::{Ty, copy_type, same_type};
use mc_program::value::Value;
use std::alloc::Global;
use std::test::Fail;

/// The row of two parts.
fn two<T: Drop>(alloc: Global, first: T, last: T) -> Result<Row<T>, Memory> {
    let mut parts = Vec::new(alloc);
    parts.push(first)?;
    parts.push(last)?;
    Row::of(parts)
}

/// `pair(pair(.., int), int)`
fn deep_type(alloc: Global, levels: u32) -> Result<Ty, Memory> {
    let mut ty = Ty::Int;
    for _level in 0..levels {
        ty = Ty::Union(7, two(alloc, ty, Ty::Int)?);
    }
    Ok(ty)
}

/// `f(f(.., 0), 0)`
fn deep_term(alloc: Global, levels: u32) -> Result<Expr, Memory> {
    let mut term = Expr::Int(0);
    for _level in 0..levels {
        term = Expr::Apply(1, two(alloc, term, Expr::Int(0))?);
    }
    Ok(term)
}

/// `c(c(.., 0), 0)`
fn deep_value(alloc: Global, levels: u32) -> Result<Value, Memory> {
    let mut value = Value::Int(0);
    for _level in 0..levels {
        value = Value::Con(1, two(alloc, value, Value::Int(0))?);
    }
    Ok(value)
}

#[test]
fn deep_types(rt: HostRuntime) -> Result<(), Fail> {
    let ty = deep_type(rt.alloc(), 2_000)?;
    let copy = copy_type(rt.alloc(), &ty)?;
    assert!(rt; same_type(&ty, &copy));
    Ok(())
}

/// Terms as deep as those that are read may be.
#[test]
fn deep_terms(rt: HostRuntime) -> Result<(), Fail> {
    let term = deep_term(rt.alloc(), 256)?;
    let copy = copy_expr(rt.alloc(), &term)?;
    assert!(rt; same_expr(&term, &copy));
    Ok(())
}

/// Values as deep as those that are read may be.
#[test]
fn deep_values(rt: HostRuntime) -> Result<(), Fail> {
    let value = deep_value(rt.alloc(), 256)?;
    let copy = copy_value(rt.alloc(), &value)?;
    assert!(rt; same_value(&value, &copy));
    Ok(())
}
