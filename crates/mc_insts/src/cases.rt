ghost use Rattle.std.specs.Prelude.{◌≡◌, ℕ, ◌<◌, ◌≤◌, length, get_or, IfSome, IfNone, MatchOption, Some, None};
ghost use Rattle.mc_insts.specs.code.Cases.{find_case, Rising};

use crate::graph::Case;
use mc_base::Row;

/// The arguments of a functor's case.
pub fn find(cases: &[Case], functor: u32) -> Option<&Row<u32>>
    requires { Rising cases.now }
    ensures { MatchOption result (find_case cases.now functor ≡ None) (λ args. find_case cases.now functor ≡ Some args.now) }
{
    let mut low = 0;
    let mut high = cases.len();
    while low < high {
        let middle = low + (high - low) / 2;
        let case = &cases[middle];
        if case.functor == functor {
            return Some(&case.args);
        }
        if case.functor < functor {
            low = middle + 1;
        } else {
            high = middle;
        }
    }
    None
}
