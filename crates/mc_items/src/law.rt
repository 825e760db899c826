ghost use Rattle.mc_items.specs.Laws.{AtMostOneList, NotBoth, AtMostOneRefusal, AtMostOneGoal, NotGoalAndBroken, AtMostOneQueryRefusal};

use mc_term_parser::at_most_one_term;

/// At most one list of items stands for a text from a place on: a law, and nothing to run.
pub fn at_most_one_list()
    ensures { AtMostOneList }
{
    at_most_one_term();
}

/// No text is both whole and faulty, and it breaks one list of rules at most: a law, and nothing to run.
pub fn at_most_one_answer()
    ensures not_both { NotBoth }
    ensures one_refusal { AtMostOneRefusal }
{
    at_most_one_list();
}

/// A query's text is one goal at most, or it breaks one list of rules, and not both: a law, and nothing to run.
pub fn at_most_one_goal()
    ensures one_goal { AtMostOneGoal }
    ensures not_both { NotGoalAndBroken }
    ensures one_refusal { AtMostOneQueryRefusal }
{
    at_most_one_term();
}
