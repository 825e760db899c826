ghost use Rattle.mc_state_variables.specs.code.Examples.{Atoms, Conjunctions, Disjunctions, Conditionals, QuantifiedConditions, Negations, Implications, Heads, Quantifiers};

/// Clauses and goals, and what they are with their state variables written out.
pub fn written_out()
    ensures atoms { Atoms }
    ensures conjunctions { Conjunctions }
    ensures disjunctions { Disjunctions }
    ensures conditionals { Conditionals }
    ensures quantified_conditions { QuantifiedConditions }
    ensures negations { Negations }
    ensures implications { Implications }
    ensures heads { Heads }
    ensures quantifiers { Quantifiers }
{}
