ghost use Rattle.std.specs.Prelude.{◌≡◌, ◌≢◌, ℕ, List, [], ◌∷◌, pos, Option};
ghost use Rattle.std.specs.Int.{w64, int_wrap};
ghost use Rattle.std.specs.Int.RustNames.{int_div, int_rem};
ghost use Rattle.mc_program.specs.Values.{int};
ghost use Rattle.mc_model.specs.Builtins.{outcome, int_floor, int_mod};
ghost use Rattle.mc_model.specs.Builtins.{Library as Known};
ghost use Rattle.mc_builtins.specs.code.Made.{made_outcome, number_made, test_made, quotient_of};

use crate::made::Made;
use mc_model::builtin::Builtin;
use mc_model::run::Exception;

/// What a builtin makes of two integers.
pub fn of_integers(op: Builtin, a: i64, b: i64) -> Made
    ensures { (library : Known) (input : List ℕ)
        → outcome library input op (int a ∷ int b ∷ []) ≡ made_outcome library result }
{
    match op {
        Builtin::IntPlus => Made::Int(a.wrapping_add(b)),
        Builtin::IntMinus => Made::Int(a.wrapping_sub(b)),
        Builtin::IntTimes => Made::Int(a.wrapping_mul(b)),
        Builtin::IntQuotient => number(quotient(a, b)),
        Builtin::IntDiv => number(floor(a, b)),
        Builtin::IntMod => number(modulo(a, b)),
        Builtin::IntRem => number(remainder(a, b)),
        Builtin::IntLess => test(a < b),
        Builtin::IntGreater => test(a > b),
        Builtin::IntAtMost => test(a <= b),
        Builtin::IntAtLeast => test(a >= b),
        _ => Made::Fails,
    }
}

/// A number, and where there is none a zero divisor is thrown.
fn number(n: Option<i64>) -> Made
    ensures { result ≡ number_made n }
{
    match n {
        Some(n) => Made::Int(n),
        None => Made::Throws(Exception::ZeroDivide),
    }
}

/// A test succeeds or fails.
pub fn test(holds: bool) -> Made
    ensures { result ≡ test_made holds }
{
    if holds { Made::Succeeds } else { Made::Fails }
}

/// The quotient, rounded toward zero; None of a zero divisor.
fn quotient(a: i64, b: i64) -> Option<i64>
    ensures { result ≡ quotient_of int_div a b }
{
    if b == 0 {
        None
    } else {
        Some(a.wrapping_div(b))
    }
}

/// The quotient, rounded down; None of a zero divisor.
fn floor(a: i64, b: i64) -> Option<i64>
    ensures { result ≡ quotient_of int_floor a b }
{
    if b == 0 { None } else { Some(floor_of(a, b)) }
}

/// What the quotient that is rounded down leaves; None of a zero divisor.
fn modulo(a: i64, b: i64) -> Option<i64>
    ensures { result ≡ quotient_of int_mod a b }
{
    if b == 0 {
        None
    } else {
        Some(a.wrapping_sub(floor_of(a, b).wrapping_mul(b)))
    }
}

/// What the quotient that is rounded toward zero leaves; None of a zero divisor.
fn remainder(a: i64, b: i64) -> Option<i64>
    ensures { result ≡ quotient_of int_rem a b }
{
    if b == 0 {
        None
    } else {
        Some(a.wrapping_rem(b))
    }
}

/// The quotient by a divisor that isn't zero, rounded down.
fn floor_of(a: i64, b: i64) -> i64
    requires { b ≢ pos 0 }
    ensures { result ≡ int_wrap w64 (int_floor a b) }
{
    if b > 0 {
        a.div_euclid(b)
    } else if a.wrapping_rem(b) > 0 {
        a.wrapping_div(b) - 1
    } else {
        a.wrapping_div(b)
    }
}
