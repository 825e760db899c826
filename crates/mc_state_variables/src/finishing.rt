ghost use Rattle.std.specs.Prelude.{◌≡◌, [], ◌∷◌, map, codes, IfOk};
ghost use Rattle.mc_term_data.specs.Plain.{at, App, no_term, more_terms, plain_term, term_list};
ghost use Rattle.mc_state_variables.specs.Updates.{updated};
ghost use Rattle.mc_state_variables.specs.Versions.{closings};
ghost use Rattle.mc_state_variables.specs.Numbered.{quantifier};
ghost use Rattle.mc_state_variables.specs.code.Helds.{plain_helds};

use crate::held::{Held, closings};
use crate::quantifiers::quantified;
use crate::updates::updated_set;
use mc_base::{Memory, NameSet};
use mc_term_data::Term;
use std::alloc::Global;

/// The equations that close a goal as one of several branches.
#[tactic(auto, using(crate::proofs::Lists::adding, crate::proofs::Sets::sets))]
pub fn closings_of_goal(
    alloc: Global,
    wanted: &NameSet<'_>,
    held: &[Held<'_>],
    goal: &Term,
) -> Result<Vec<Term>, Memory>
    ensures { IfOk result
        (λ goals.
        term_list (map plain_term goals.items)
        ≡ closings wanted.now (updated (plain_term goal.now)) goal.now.line (plain_helds held.now)) }
{
    let updates = updated_set(alloc, goal)?;
    closings(alloc, wanted, &updates, held, goal.line)
}

/// `some` over a goal that is written so.
#[tactic(auto, using(crate::proofs::Sets::sets))]
pub fn some_over(
    alloc: Global,
    held: &[Held<'_>],
    list: &Term,
    goal: &Term,
    text: Term,
    line: u32,
) -> Result<Term, Memory>
    ensures { IfOk result
        (λ out.
        plain_term out
        ≡ at
        (App (codes "some" ∷ [])
        (more_terms (quantifier (plain_helds held.now) (updated (plain_term goal.now)) (plain_term list.now)) (more_terms (plain_term text) no_term)))
        line) }
{
    let updates = updated_set(alloc, goal)?;
    quantified(alloc, b"some", held, &updates, list, text, line)
}

/// `all` over a goal that is written so, of which nothing is seen outside.
pub fn all_over(
    alloc: Global,
    held: &[Held<'_>],
    list: &Term,
    text: Term,
    line: u32,
) -> Result<Term, Memory>
    ensures { IfOk result
        (λ out.
        plain_term out
        ≡ at
        (App (codes "all" ∷ [])
        (more_terms (quantifier (plain_helds held.now) [] (plain_term list.now)) (more_terms (plain_term text) no_term)))
        line) }
{
    let updates = NameSet::new(alloc);
    quantified(alloc, b"all", held, &updates, list, text, line)
}
