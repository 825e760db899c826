ghost use Rattle.mc_type_phase.specs.Laws.{AtMostOneList};

/// Items break one list of rules at most: a law, and nothing to run.
pub fn at_most_one_list()
    ensures { AtMostOneList }
{}
