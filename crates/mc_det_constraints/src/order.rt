ghost use Rattle.std.specs.Prelude.{◌≡◌};
ghost use Rattle.mc_source.specs.Determinism.{inferred, row_of};
ghost use Rattle.mc_det_constraints.specs.Skeletons.{either};

use mc_source::det::{Det, Most};

/// The greater of two.
pub fn greater(a: Most, b: Most) -> Most
    ensures { result ≡ Rattle.mc_source.specs.Determinism.greater a b }
{
    match a {
        Most::Zero => b,
        Most::One if b == Most::Many => Most::Many,
        Most::One => Most::One,
        Most::Many => Most::Many,
    }
}

/// At most how many answers there are, by the row of a determinism in the tables.
pub fn most_of(d: Det) -> Most
    ensures { result ≡ (row_of d).most }
{
    if d.committed { Most::Many } else { d.most }
}

/// The determinism of two arms, which is also the least that allows both.
pub fn either(a: Det, b: Det) -> Det
    ensures { result ≡ inferred (either (row_of a) (row_of b)) }
{
    Det {
        can_fail: a.can_fail || b.can_fail,
        most: greater(most_of(a), most_of(b)),
        committed: false,
    }
}
