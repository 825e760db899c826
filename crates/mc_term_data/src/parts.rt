ghost use Rattle.std.specs.Prelude.{◌≡◌, map};
ghost use Rattle.mc_term_data.specs.Plain.{term_list, plain_term};
ghost use Rattle.mc_term_data.specs.Names.{count};

use crate::term::Term;

/// How many parts these are. It takes no memory.
#[tactic(auto, using(crate::proofs::Counts::count_is_length))]
pub fn arity(parts: &[Term]) -> usize
    ensures { result ≡ count (term_list (map plain_term parts.now)) }
{
    parts.len()
}
