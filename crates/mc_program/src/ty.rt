ghost use Rattle.std.specs.Prelude.{◌≡◌, ◌+◌, ◌-◌, ◌<◌, ◌^◌, ℕ, List, length, take, IfOk, IfSome, IsTrue, ◌↔◌};

use crate::replaced_first::replace_first;
use mc_base::{Memory, Row};
use std::alloc::Global;

/// A type. `Var` is a type variable, `Union` a union type, by its number, over its arguments, and `Io` the state of io.
pub enum Ty {
    Int,
    Char,
    Str,
    Io,
    Var(u32),
    Union(u32, Row<Ty>),
}

/// A type is dropped by loops, without recursion and without memory, so that it takes no stack for its depth.
impl Drop for Ty {
    fn drop(self) {
        let mut left = match self.into_args() {
            Some(args) => args,
            None => return,
        };
        'left: while let Some(last) = left.pop() {
            let mut part = last;
            'down: while let Some(args) = part.into_args() {
                if left.is_empty() {
                    drop(left);
                    left = args;
                    break 'down;
                }
                if args.is_empty() {
                    drop(args);
                    break 'down;
                }
                (part, left) = replace_first(args, Ty::Union(0, left));
            }
        }
        drop(left);
    }
}

impl Ty {
    /// The arguments of a union type; None of any other type.
    pub fn into_args(self) -> Option<Row<Ty>>
        ensures arguments { (number : ℕ) (args : List Ty) → self ≡ Ty.Union number args
            → result ≡ Some args }
        ensures no_other { IfSome result (λ args. (number : ℕ) × (self ≡ Ty.Union number args)) }
    {
        match self {
            Ty::Union(_, args) => Some(args),
            Ty::Int => None,
            Ty::Char => None,
            Ty::Str => None,
            Ty::Io => None,
            Ty::Var(_) => None,
        }
    }
}

/// The arguments before the last one of a union type that is being copied.
#[derive(Drop)]
struct UnionFront {
    number: u32,
    args: Row<Ty>,
    ghost has_room: { length args + 1 < 2 ^ 32 },
}

/// Another type that is the same, the last arguments copied by a loop.
#[cycle(copy)]
pub fn copy_type(alloc: Global, t: &Ty) -> Result<Ty, Memory>
    ensures { IfOk result (λ copy. copy ≡ t.now) }
{
    let mut fronts = Vec::new(alloc);
    let mut rest = t;
    let mut copy = loop {
        match rest {
            Ty::Int => break Ty::Int,
            Ty::Char => break Ty::Char,
            Ty::Str => break Ty::Str,
            Ty::Io => break Ty::Io,
            Ty::Var(v) => break Ty::Var(*v),
            Ty::Union(number, args) => match args.as_slice() {
                [] => break Ty::Union(*number, Row::new(alloc)),
                [front @ .., last] => {
                    let args = copy_types(alloc, front)?;
                    let front = UnionFront {
                        number: *number,
                        args,
                    };
                    match fronts.push(front) {
                        Ok(()) => rest = last,
                        Err(_) => return Err(Memory),
                    }
                }
            },
        }
    };
    while let Some(front) = fronts.pop() {
        let UnionFront { number, mut args } = front;
        args.push(copy)?;
        copy = Ty::Union(number, args);
    }
    Ok(copy)
}

#[cycle(copy)]
fn copy_types(alloc: Global, types: &[Ty]) -> Result<Row<Ty>, Memory>
    requires { length types.now + 1 < 2 ^ 32 }
    ensures { IfOk result (λ row. row ≡ types.now) }
{
    let mut row = Row::new(alloc);
    for t in types {
        row.push(copy_type(alloc, t)?)?;
    }
    Ok(row)
}

/// Whether two types are the same, the last arguments by a loop.
#[cycle(same)]
pub fn same_type(a: &Ty, b: &Ty) -> bool
    ensures { IsTrue result ↔ (a.now ≡ b.now) }
{
    let mut left = a;
    let mut right = b;
    loop {
        match left {
            Ty::Int => return matches!(right, Ty::Int),
            Ty::Char => return matches!(right, Ty::Char),
            Ty::Str => return matches!(right, Ty::Str),
            Ty::Io => return matches!(right, Ty::Io),
            Ty::Var(v) => match right {
                Ty::Var(w) => return v == w,
                _ => return false,
            },
            Ty::Union(s, xs) => match right {
                Ty::Union(t, ys) => {
                    let n = xs.len();
                    if *s != *t || ys.len() != n {
                        return false;
                    }
                    if n == 0 {
                        return true;
                    }
                    if !same_fronts(xs.as_slice(), ys.as_slice(), n - 1) {
                        return false;
                    }
                    left = xs.get(n - 1);
                    right = ys.get(n - 1);
                }
                _ => return false,
            },
        }
    }
}

/// Whether the first n types of two lists are the same.
#[cycle(same)]
fn same_fronts(xs: &[Ty], ys: &[Ty], n: u32) -> bool
    requires left { n < length xs.now }
    requires right { n < length ys.now }
    ensures { IsTrue result ↔ (take n xs.now ≡ take n ys.now) }
{
    for k in 0..n as usize {
        if !same_type(&xs[k], &ys[k]) {
            return false;
        }
    }
    true
}
