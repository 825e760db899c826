ghost use Rattle.mc_term_parser.specs.Laws.{AtMostOne, NoDeeper};

/// At most one term stands for a list of tokens: a law, and nothing to run.
pub fn at_most_one_term()
    ensures { AtMostOne }
{}

/// A term is no deeper than what was read, where brackets count too: a law, and nothing to run.
pub fn terms_are_no_deeper()
    ensures { NoDeeper }
{}
