ghost use Rattle.std.specs.Prelude.{◌≡◌, ◌<◌, ◌^◌, ◌+◌, ◌≤◌, ◌++◌, ◌∷◌, [], length, IfOk, IsTrue, ◌↔◌};

use crate::value::Value;
use mc_base::{Copied, Memory, Row};
use std::alloc::Global;

/// The arguments before the last one of a constructor that is being copied.
#[derive(Drop)]
struct Front {
    symbol: u32,
    args: Row<Value>,
    ghost has_room: { length args + 1 < 2 ^ 32 },
}

#[cycle(copy)]
pub fn copy_value(alloc: Global, v: &Value) -> Result<Value, Memory>
    ensures { IfOk result (λ copy. copy ≡ v.now) }
{
    let mut fronts = Vec::new(alloc);
    let mut rest = v;
    let mut copy = loop {
        match rest {
            Value::Int(n) => break Value::Int(*n),
            Value::Char(c) => break Value::Char(*c),
            Value::Str(t) => break Value::Str(t.copied(alloc)?),
            Value::Io(written, taken) => break Value::Io(written.copied(alloc)?, *taken),
            Value::Con(symbol, args) => match args.as_slice() {
                [] => break Value::Con(*symbol, Row::new(alloc)),
                [front @ .., last] => {
                    let args = copy_values(alloc, front)?;
                    let front = Front {
                        symbol: *symbol,
                        args,
                    };
                    match fronts.push(front) {
                        Ok(()) => rest = last,
                        Err(_) => return Err(Memory),
                    }
                }
            },
        }
    };
    while let Some(front) = fronts.pop() {
        let Front { symbol, mut args } = front;
        args.push(copy)?;
        copy = Value::Con(symbol, args);
    }
    Ok(copy)
}

#[cycle(copy)]
fn copy_values(alloc: Global, values: &[Value]) -> Result<Row<Value>, Memory>
    requires { length values.now + 1 < 2 ^ 32 }
    ensures { IfOk result (λ row. row ≡ values.now) }
{
    let mut row = Row::new(alloc);
    for v in values {
        row.push(copy_value(alloc, v)?)?;
    }
    Ok(row)
}
