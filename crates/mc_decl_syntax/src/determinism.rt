ghost use Rattle.std.specs.Prelude.{◌≡◌, false, true};
ghost use Rattle.std.specs.Option.{option_map};
ghost use Rattle.mc_term_data.specs.Plain.{plain_term};
ghost use Rattle.mc_term_data.specs.Names.{found};
ghost use Rattle.mc_decl_syntax.specs.Terms.{determinism, common_determinisms, rare_determinisms, declared_as};

use crate::parts::into_pair;
use mc_source::det::{Det, Most};
use mc_term_data::{Term, constant};

/// A declaration, and its determinism where `is D` stands behind it; None where what stands behind `is` is no
/// determinism. It takes no memory.
pub fn declared_as(term: Term) -> Option<(Term, Option<Det>)>
    ensures { option_map (λ p. (plain_term p.0, p.1)) result ≡ declared_as (plain_term term) }
{
    match into_pair(b"is", term) {
        Ok((declared, name)) => match determinism(&name) {
            Some(det) => Some((declared, Some(det))),
            None => None,
        },
        Err(term) => Some((term, None)),
    }
}

/// The determinism of a name.
fn determinism(term: &Term) -> Option<Det>
    ensures { result ≡ determinism (plain_term term.now) }
{
    match constant(term) {
        Some(name) => common(name).or(rare(name)),
        None => None,
    }
}

#[tactic(auto, unfolding(crate::specs::Terms::common_determinisms))]
fn common(name: &[u8]) -> Option<Det>
    ensures { result ≡ found common_determinisms name.now 0 }
{
    if b"det".as_slice() == name {
        return Some(inferred(false, Most::One));
    }
    if b"semidet".as_slice() == name {
        return Some(inferred(true, Most::One));
    }
    if b"multi".as_slice() == name {
        return Some(inferred(false, Most::Many));
    }
    if b"nondet".as_slice() == name {
        return Some(inferred(true, Most::Many));
    }
    None
}

#[tactic(auto, unfolding(crate::specs::Terms::rare_determinisms))]
fn rare(name: &[u8]) -> Option<Det>
    ensures { result ≡ found rare_determinisms name.now 0 }
{
    if b"cc_multi".as_slice() == name {
        return Some(committed(false));
    }
    if b"cc_nondet".as_slice() == name {
        return Some(committed(true));
    }
    if b"erroneous".as_slice() == name {
        return Some(inferred(false, Most::Zero));
    }
    if b"failure".as_slice() == name {
        return Some(inferred(true, Most::Zero));
    }
    None
}

fn inferred(can_fail: bool, most: Most) -> Det
    ensures { result ≡ record { can_fail = can_fail; most = most; committed = false } }
{
    Det {
        can_fail,
        most,
        committed: false,
    }
}

/// A determinism of many answers that commits to its first.
fn committed(can_fail: bool) -> Det
    ensures { result ≡ record { can_fail = can_fail; most = Most.Many; committed = true } }
{
    Det {
        can_fail,
        most: Most::Many,
        committed: true,
    }
}
