ghost use Rattle.mc_compile.specs.Phases.{AtMostOne};
ghost use Rattle.mc_compile.specs.Reading.{Reads};
ghost use Rattle.mc_compile.specs.Linking.{Links};
ghost use Rattle.mc_compile.specs.Typing.{Types};
ghost use Rattle.mc_compile.specs.Checking.{Clauses};
ghost use Rattle.mc_compile.specs.Laws.{MainIsRun, QueryIsAsked};

use mc_det_rules::main_is_there;
use mc_items::{at_most_one_goal, at_most_one_list};

/// Each phase up to that of clauses answers one thing at most: a law, and nothing to run. (Of those behind it laws_one_answer
/// says so.)
pub fn at_most_one_phase()
    ensures reads { AtMostOne Reads }
    ensures links { AtMostOne Links }
    ensures types { AtMostOne Types }
    ensures clauses { AtMostOne Clauses }
{
    at_most_one_list();
    at_most_one_goal();
    mc_type_phase::at_most_one_list();
}

/// Where `main` isn't wanted, something is run of what sources are compiled to exactly where there is a query: a law, and
/// nothing to run.
pub fn query_is_asked()
    ensures { QueryIsAsked }
{}

/// Where `main` is wanted, it is what is run: a law, and nothing to run.
pub fn main_is_run()
    ensures { MainIsRun }
{
    main_is_there();
}
