//! The laws between what phases promise and what is asked behind them. Each is the contract of a function that does nothing.
ghost use Rattle.laws_truth.specs.Mentioned.{OrderedMentionDeclared, BodiesMentionDeclared};
ghost use Rattle.laws_truth.specs.Scopes.{ResolvedNameTheirOwn, ResolvedScopesFit};

/// An ordered goal mentions what is declared alone, where the goal that it is an order of is typed; so does the body of a
/// procedure that fits and is accepted.
pub fn bodies_mention_declared()
    ensures goals { OrderedMentionDeclared }
    ensures bodies { BodiesMentionDeclared }
{}

/// The quantifiers of a clause that is resolved name variables of their own; so the scopes of each clause and query are
/// those of the language where they are written out, and are named apart.
pub fn resolved_scopes_fit()
    ensures own { ResolvedNameTheirOwn }
    ensures scopes { ResolvedScopesFit }
{}
