ghost use Rattle.mc_cmd.specs.Laws.{AtMostOneAnswer};

use laws_one_answer::laws::{compiled_are_one, one_to_be_run};

/// Of words and of what files hold there is one defined answer at most: a law, and nothing to run.
pub fn at_most_one_answer()
    ensures { AtMostOneAnswer }
{
    compiled_are_one();
    one_to_be_run();
}
