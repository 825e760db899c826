ghost use Rattle.std.specs.Prelude.{◌≡◌, ◌+◌, ◌-◌, ◌<◌, ◌^◌, ℕ, List, length, take, IfOk, IfSome, IsTrue, ◌↔◌, ◌⊎◌};

use crate::replaced_first::replace_first;
use mc_base::{Copied, Memory, Row, Text};
use std::alloc::Global;

/// A term of a clause: `Con` is a constructor over its arguments, `Apply` the application of a function.
pub enum Expr {
    Var(u32),
    Int(i64),
    Char(char),
    Str(Text),
    Con(u32, Row<Expr>),
    Apply(u32, Row<Expr>),
}

/// A term is dropped by loops, without recursion and without memory, so that it takes no stack for its depth.
impl Drop for Expr {
    fn drop(self) {
        let mut left = match self.into_args() {
            Some(args) => args,
            None => return,
        };
        'left: while let Some(last) = left.pop() {
            let mut part = last;
            'down: while let Some(args) = part.into_args() {
                if left.is_empty() {
                    drop(left);
                    left = args;
                    break 'down;
                }
                if args.is_empty() {
                    drop(args);
                    break 'down;
                }
                (part, left) = replace_first(args, Expr::Con(0, left));
            }
        }
        drop(left);
    }
}

impl Expr {
    /// The arguments of a constructor or of a function's application; None of any other term.
    pub fn into_args(self) -> Option<Row<Expr>>
        ensures made { (symbol : ℕ) (args : List Expr) → self ≡ Expr.Con symbol args
            → result ≡ Some args }
        ensures applied { (function : ℕ) (args : List Expr) → self ≡ Expr.Apply function args
            → result ≡ Some args }
        ensures no_other { IfSome result (λ args. ((symbol : ℕ) × (self ≡ Expr.Con symbol args))
            ⊎ ((function : ℕ) × (self ≡ Expr.Apply function args))) }
    {
        match self {
            Expr::Con(_, args) => Some(args),
            Expr::Apply(_, args) => Some(args),
            Expr::Var(_) => None,
            Expr::Int(_) => None,
            Expr::Char(_) => None,
            Expr::Str(text) => {
                drop(text);
                None
            }
        }
    }
}

/// What stands over the arguments of a term.
#[derive(Clone, Copy)]
enum Head {
    Con(u32),
    Apply(u32),
}

impl Head {
    /// The term of this head and these arguments.
    fn over(self, args: Row<Expr>) -> Expr
        ensures made { (symbol : ℕ) → self ≡ Head.Con symbol → result ≡ Expr.Con symbol args }
        ensures applied { (function : ℕ) → self ≡ Head.Apply function
            → result ≡ Expr.Apply function args }
    {
        match self {
            Head::Con(symbol) => Expr::Con(symbol, args),
            Head::Apply(function) => Expr::Apply(function, args),
        }
    }
}

/// The arguments before the last one of a term that is being copied.
#[derive(Drop)]
struct TermFront {
    head: Head,
    args: Row<Expr>,
    ghost has_room: { length args + 1 < 2 ^ 32 },
}

/// Another term that is the same, the last arguments copied by a loop.
#[cycle(copy)]
pub fn copy_expr(alloc: Global, e: &Expr) -> Result<Expr, Memory>
    ensures { IfOk result (λ copy. copy ≡ e.now) }
{
    let mut fronts = Vec::new(alloc);
    let mut rest = e;
    let mut copy = loop {
        match rest {
            Expr::Var(v) => break Expr::Var(*v),
            Expr::Int(n) => break Expr::Int(*n),
            Expr::Char(c) => break Expr::Char(*c),
            Expr::Str(t) => break Expr::Str(t.copied(alloc)?),
            Expr::Con(symbol, args) => match args.as_slice() {
                [] => break Expr::Con(*symbol, Row::new(alloc)),
                [front @ .., last] => {
                    fronts.push(front_of(alloc, Head::Con(*symbol), front)?)?;
                    rest = last;
                }
            },
            Expr::Apply(function, args) => match args.as_slice() {
                [] => break Expr::Apply(*function, Row::new(alloc)),
                [front @ .., last] => {
                    fronts.push(front_of(alloc, Head::Apply(*function), front)?)?;
                    rest = last;
                }
            },
        }
    };
    while let Some(front) = fronts.pop() {
        let TermFront { head, mut args } = front;
        args.push(copy)?;
        copy = head.over(args);
    }
    Ok(copy)
}

#[cycle(copy)]
fn front_of(alloc: Global, head: Head, front: &[Expr]) -> Result<TermFront, Memory>
    requires { length front.now + 1 < 2 ^ 32 }
    ensures { IfOk result (λ made. (made.head ≡ head) × (made.args ≡ front.now)) }
{
    let mut args = Row::new(alloc);
    for e in front {
        args.push(copy_expr(alloc, e)?)?;
    }
    Ok(TermFront { head, args })
}

/// Whether two terms are the same, the last arguments by a loop.
#[cycle(same)]
pub fn same_expr(a: &Expr, b: &Expr) -> bool
    ensures { IsTrue result ↔ (a.now ≡ b.now) }
{
    let mut left = a;
    let mut right = b;
    loop {
        match left {
            Expr::Var(v) => match right {
                Expr::Var(w) => return v == w,
                _ => return false,
            },
            Expr::Int(m) => match right {
                Expr::Int(n) => return m == n,
                _ => return false,
            },
            Expr::Char(c) => match right {
                Expr::Char(d) => return c == d,
                _ => return false,
            },
            Expr::Str(s) => match right {
                Expr::Str(t) => return s.same(t),
                _ => return false,
            },
            Expr::Con(f, xs) => match right {
                Expr::Con(g, ys) => {
                    if *f != *g || !same_but_last(xs, ys) {
                        return false;
                    }
                    if xs.is_empty() {
                        return true;
                    }
                    left = xs.get(xs.len() - 1);
                    right = ys.get(ys.len() - 1);
                }
                _ => return false,
            },
            Expr::Apply(f, xs) => match right {
                Expr::Apply(g, ys) => {
                    if *f != *g || !same_but_last(xs, ys) {
                        return false;
                    }
                    if xs.is_empty() {
                        return true;
                    }
                    left = xs.get(xs.len() - 1);
                    right = ys.get(ys.len() - 1);
                }
                _ => return false,
            },
        }
    }
}

/// Whether two rows are of one length and are the same but for their last terms.
#[cycle(same)]
fn same_but_last(xs: &Row<Expr>, ys: &Row<Expr>) -> bool
    ensures { IsTrue result
        ↔ ((length xs.now ≡ length ys.now)
        × (take (length xs.now - 1) xs.now ≡ take (length ys.now - 1) ys.now)) }
{
    let n = xs.len();
    if ys.len() != n {
        return false;
    }
    for k in 1..n {
        if !same_expr(xs.get(k - 1), ys.get(k - 1)) {
            return false;
        }
    }
    true
}
