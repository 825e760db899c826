ghost use Rattle.std.specs.Prelude.{◌≡◌, ◌+◌, ◌-◌, ◌<◌, ◌^◌, IsTrue, ◌↔◌, length, take};

use crate::value::Value;

/// Whether two values are equal, the last arguments by a loop.
#[cycle(same)]
pub fn same_value(a: &Value, b: &Value) -> bool
    ensures { IsTrue result ↔ (a.now ≡ b.now) }
{
    let mut left = a;
    let mut right = b;
    loop {
        match left {
            Value::Int(m) => match right {
                Value::Int(n) => return m == n,
                _ => return false,
            },
            Value::Char(c) => match right {
                Value::Char(d) => return c == d,
                _ => return false,
            },
            Value::Str(s) => match right {
                Value::Str(t) => return s.same(t),
                _ => return false,
            },
            Value::Io(s, m) => match right {
                Value::Io(t, n) => return m == n && s.same(t),
                _ => return false,
            },
            Value::Con(s, xs) => match right {
                Value::Con(t, ys) => {
                    let n = xs.len();
                    if *s != *t || ys.len() != n {
                        return false;
                    }
                    if n == 0 {
                        return true;
                    }
                    if !same_fronts(xs.as_slice(), ys.as_slice(), n - 1) {
                        return false;
                    }
                    left = xs.get(n - 1);
                    right = ys.get(n - 1);
                }
                _ => return false,
            },
        }
    }
}

/// Whether the first n values of two lists are equal.
#[cycle(same)]
fn same_fronts(xs: &[Value], ys: &[Value], n: u32) -> bool
    requires left { n < length xs.now }
    requires right { n < length ys.now }
    ensures { IsTrue result ↔ (take n xs.now ≡ take n ys.now) }
{
    for k in 0..n as usize {
        if !same_value(&xs[k], &ys[k]) {
            return false;
        }
    }
    true
}
