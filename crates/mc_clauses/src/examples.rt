ghost use Rattle.mc_clauses.specs.code.Examples.{Conditionals, Conjunctions, Goals, Heads, Lists, Quantifiers, Universals, Variables};

/// Clauses, and what they are before their names are resolved.
pub fn unresolved_clauses()
    ensures variables { Variables }
    ensures heads { Heads }
    ensures quantifiers { Quantifiers }
    ensures universals { Universals }
    ensures conditionals { Conditionals }
    ensures goals { Goals }
    ensures lists { Lists }
    ensures conjunctions { Conjunctions }
{}
