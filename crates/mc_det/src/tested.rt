ghost use Rattle.std.specs.Prelude.{◌≡◌, ◌||◌};
ghost use Rattle.mc_model.specs.Stream.{is_bound};
ghost use Rattle.mc_accepted.specs.Determined.{tested};
ghost use Rattle.mc_det.specs.code.Points.{insts_in};
ghost use Rattle.mc_det.specs.code.Testing.{stands_in};

use crate::point::Point;

/// Whether an argument of a deconstruction is tested: it is bound at the point, or stood before.
pub fn is_tested(point: &Point, args: &[u32]) -> bool
    ensures { result ≡ tested args.now (λ y. is_bound (insts_in point.now y)) }
{
    for (n, y) in args.iter().enumerate() {
        if is_there(point, &args[..n], *y) {
            return true;
        }
    }
    false
}

/// Whether a variable is bound, or stood before.
fn is_there(point: &Point, before: &[u32], x: u32) -> bool
    ensures { result ≡ (stands_in before.now x || is_bound (insts_in point.now x)) }
{
    stands_in(before, x) || point.get(x) != 0
}

/// Whether a variable stands in a list.
fn stands_in(list: &[u32], x: u32) -> bool
    ensures { result ≡ stands_in list.now x }
{
    for y in list {
        if *y == x {
            return true;
        }
    }
    false
}
