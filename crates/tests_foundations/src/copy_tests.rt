//! Values, terms and types that are copied, compared and taken apart, and long ones, which take no stack for each
//! element.
use mc_base::{Memory, Row, Text};
use mc_program::copy::copy_value;
use mc_program::expr::{Expr, copy_expr, same_expr};
use mc_program::same::same_value;
use mc_program::ty::{Ty, copy_type, same_type};
use mc_program::value::Value;
use std::alloc::Global;

/// The list of the numbers from n - 1 down to 0, whose cells are constructors of two arguments.
fn list_of_numbers(alloc: Global, n: u32) -> Result<Value, Memory> {
    let mut list = Value::Con(0, Row::new(alloc));
    for k in 0..n {
        let mut args = Row::new(alloc);
        args.push(Value::Int(i64::from(k)))?;
        args.push(list)?;
        list = Value::Con(1, args);
    }
    Ok(list)
}

#[test]
fn long_values(rt: HostRuntime) -> Result<(), Memory> {
    let list = list_of_numbers(rt.alloc(), 1_000_000)?;
    let copy = copy_value(rt.alloc(), &list)?;
    assert!(rt; same_value(&list, &copy));
    drop(list);
    drop(copy);
    Ok(())
}

/// `f(f(.. [] .., 0), 0)`, n times f of two arguments, the first of which is nested.
fn nested_first(alloc: Global, n: u32) -> Result<Value, Memory> {
    let mut value = Value::Con(0, Row::new(alloc));
    for k in 0..n {
        let mut args = Row::new(alloc);
        args.push(value)?;
        args.push(Value::Int(i64::from(k)))?;
        value = Value::Con(1, args);
    }
    Ok(value)
}

/// A value that is nested in first arguments takes no stack when it is dropped.
#[test]
fn deep_first_arguments(rt: HostRuntime) -> Result<(), Memory> {
    let value = nested_first(rt.alloc(), 1_000_000)?;
    drop(value);
    Ok(())
}

#[test]
fn values_that_differ(rt: HostRuntime) -> Result<(), Memory> {
    let three = list_of_numbers(rt.alloc(), 3)?;
    let four = list_of_numbers(rt.alloc(), 4)?;
    assert!(rt; !same_value(&three, &four));
    match four.into_args() {
        Some(mut args) => {
            let rest = args.pop();
            assert!(rt; rest.is_some());
            if let Some(rest) = rest {
                assert!(rt; same_value(&three, &rest));
            }
        }
        None => assert!(rt; false),
    }
    Ok(())
}

/// The row of two terms.
fn pair(alloc: Global, first: Expr, second: Expr) -> Result<Row<Expr>, Memory> {
    let mut row = Row::new(alloc);
    row.push(first)?;
    row.push(second)?;
    Ok(row)
}

/// The list of the numbers from n - 1 down to 0, each cell made by a constructor or, at odd numbers, by a function.
fn term_of_numbers(alloc: Global, n: u32) -> Result<Expr, Memory> {
    let mut list = Expr::Con(0, Row::new(alloc));
    for k in 0..n {
        let args = pair(alloc, Expr::Int(i64::from(k)), list)?;
        list = if k % 2 == 0 {
            Expr::Con(1, args)
        } else {
            Expr::Apply(1, args)
        };
    }
    Ok(list)
}

#[test]
fn long_terms(rt: HostRuntime) -> Result<(), Memory> {
    let list = term_of_numbers(rt.alloc(), 1_000_000)?;
    let copy = copy_expr(rt.alloc(), &list)?;
    assert!(rt; same_expr(&list, &copy));
    drop(list);
    drop(copy);
    Ok(())
}

#[test]
fn terms_that_differ(rt: HostRuntime) -> Result<(), Memory> {
    let alloc = rt.alloc();
    let three = term_of_numbers(alloc, 3)?;
    let four = term_of_numbers(alloc, 4)?;
    assert!(rt; !same_expr(&three, &four));
    match four.into_args() {
        Some(mut args) => match args.pop() {
            Some(rest) => assert!(rt; same_expr(&three, &rest)),
            None => assert!(rt; false),
        },
        None => assert!(rt; false),
    }
    let made = Expr::Con(1, pair(alloc, Expr::Var(0), Expr::Char('a'))?);
    let applied = Expr::Apply(1, pair(alloc, Expr::Var(0), Expr::Char('a'))?);
    let other = Expr::Con(1, pair(alloc, Expr::Var(1), Expr::Char('a'))?);
    assert!(rt; !same_expr(&made, &applied));
    assert!(rt; !same_expr(&made, &other));
    let text = Expr::Str(Text::new(alloc, b"bound")?);
    assert!(rt; same_expr(&text, &copy_expr(alloc, &text)?));
    assert!(rt; text.into_args().is_none());
    Ok(())
}

/// `list(list(.. (int) ..))`, n times `list`.
fn nested(alloc: Global, n: u32) -> Result<Ty, Memory> {
    let mut t = Ty::Int;
    for _ in 0..n {
        let mut args = Row::new(alloc);
        args.push(t)?;
        t = Ty::Union(7, args);
    }
    Ok(t)
}

#[test]
fn long_types(rt: HostRuntime) -> Result<(), Memory> {
    let t = nested(rt.alloc(), 1_000_000)?;
    let copy = copy_type(rt.alloc(), &t)?;
    assert!(rt; same_type(&t, &copy));
    drop(t);
    drop(copy);
    Ok(())
}

#[test]
fn types_that_differ(rt: HostRuntime) -> Result<(), Memory> {
    let one = nested(rt.alloc(), 1)?;
    let two = nested(rt.alloc(), 2)?;
    assert!(rt; !same_type(&one, &two));
    assert!(rt; !same_type(&Ty::Var(0), &Ty::Var(1)));
    assert!(rt; !same_type(&Ty::Char, &Ty::Str));
    assert!(rt; same_type(&Ty::Io, &copy_type(rt.alloc(), &Ty::Io)?));
    match two.into_args() {
        Some(mut args) => match args.pop() {
            Some(rest) => assert!(rt; same_type(&one, &rest)),
            None => assert!(rt; false),
        },
        None => assert!(rt; false),
    }
    assert!(rt; Ty::Int.into_args().is_none());
    Ok(())
}
