ghost use Rattle.std.specs.Prelude.{◌≡◌, ◌+◌, ◌<◌, ◌≤◌, ◌++◌, ◌∷◌, [], Some, List, length, map, take, slice_index_or, nat_eq, if◌then◌else◌, option_to_list, Contains, IfOk, IfSome, OnOk};
ghost use Rattle.mc_program.specs.Programs.{Source};
ghost use Rattle.mc_accepted.specs.ProperTypes.{Parameters};
ghost use Rattle.mc_typecheck.specs.Ties.{Declared, Meaning, of_name, of_equation, of_head, declared, is_same, is_among, names_atom, offered, pick_of};
ghost use Rattle.mc_typecheck.specs.Searched.{plain_signature};
ghost use Rattle.mc_typecheck.specs.Walked.{entry, place_of, Shows};
ghost use Rattle.mc_source.specs.declared.name.Candidate.{Candidate as AnyCandidate};
ghost use Rattle.mc_typecheck.specs.code.Tables.{passes_as, listed, offer, IsSole};

use crate::table::Signatures;
use mc_base::Memory;
use mc_source::name::Candidate;
use mc_types::Signature;
use std::alloc::Global;

/// Where a number, a text, an equation and a character stand in a table. Constructors come behind them, then functions
/// and predicates, then these once more, with rigid variables, for heads.
pub const NUMBER: usize = 0;

pub const TEXT: usize = 1;

pub const EQUATION: usize = 2;

pub const CHARACTER: usize = 3;

pub const CONSTRUCTORS: usize = 4;

/// Whether two candidates are the same.
pub fn is_same(a: Candidate, b: Candidate) -> bool
    ensures { result ≡ is_same a b }
{
    match (a, b) {
        (Candidate::Con(s), Candidate::Con(t)) => s == t,
        (Candidate::Func(s), Candidate::Func(t)) => s == t,
        (Candidate::Pred(s), Candidate::Pred(t)) => s == t,
        (Candidate::Char(s), Candidate::Char(t)) => s == t,
        _ => false,
    }
}

fn is_among(c: Candidate, candidates: &[Candidate]) -> bool
    ensures { result ≡ is_among c candidates.now }
{
    for candidate in candidates {
        if is_same(c, *candidate) {
            return true;
        }
    }
    false
}

/// Whether a candidate is a predicate, which atoms name, and terms don't.
fn names_atom(c: Candidate) -> bool
    ensures { result ≡ names_atom c }
{
    matches!(c, Candidate::Pred(_))
}

/// The only candidate that a name may be, and what it is declared with.
#[derive(Clone, Copy)]
pub struct Only<'t> {
    pub pick: Candidate,
    pub signature: &'t Signature,
}

impl Signatures {
    /// Where a candidate stands, if it is there.
    fn place_of(&self, c: Candidate) -> Option<usize>
        ensures { (P : Source) (D : Parameters) → Shows P D self.now (of_name c)
            → result ≡ Some (place_of self.now (of_name c)) }
    {
        match c {
            Candidate::Char(_) => Some(CHARACTER),
            Candidate::Con(symbol) => {
                let symbol = symbol as usize;
                if symbol < self.symbols {
                    Some(CONSTRUCTORS + symbol)
                } else {
                    None
                }
            }
            Candidate::Func(pred) => self.place_of_pred(pred),
            Candidate::Pred(pred) => self.place_of_pred(pred),
        }
    }

    fn place_of_pred(&self, pred: u32) -> Option<usize>
        ensures { pred < self.now.preds → result ≡ Some (4 + (self.now.symbols + pred)) }
    {
        let pred = pred as usize;
        if pred < self.preds {
            Some(CONSTRUCTORS + self.symbols + pred)
        } else {
            None
        }
    }

    /// Where the head of a predicate stands, if it is there.
    pub fn place_of_head(&self, pred: u32) -> Option<usize>
        ensures { pred < self.now.preds → result ≡ Some (4 + (self.now.symbols + (self.now.preds + pred))) }
    {
        let pred = pred as usize;
        if pred < self.preds {
            Some(CONSTRUCTORS + self.symbols + self.preds + pred)
        } else {
            None
        }
    }

    /// What stands at a place.
    pub fn declared_at(&self, place: usize) -> Option<&Signature>
        ensures { IfSome result (λ signature. (d : Declared) → entry self.now place ≡ Some d
            → plain_signature signature.now ≡ d) }
    {
        if place < self.all.len() {
            Some(&self.all[place])
        } else {
            None
        }
    }

    /// What the head of a predicate is declared with, if it is there.
    pub fn declared_head(&self, pred: u32) -> Option<&Signature>
        ensures { IfSome result (λ signature. (P : Source) (D : Parameters) → Shows P D self.now (of_head pred)
            → plain_signature signature.now ≡ declared P D (of_head pred)) }
    {
        match self.place_of_head(pred) {
            Some(place) => self.declared_at(place),
            None => None,
        }
    }

    /// What stands at a place, where it has so many types.
    pub fn sole(&self, alloc: Global, place: usize, count: usize) -> Result<Vec<usize>, Memory>
        ensures { IfOk result (λ all. (d : Declared) → entry self.now place ≡ Some d
            → map (λ k. entry self.now k) all.items
            ≡ (if nat_eq (length d.types) count then Some d ∷ [] else [])) }
    {
        let mut all = Vec::new(alloc);
        if place < self.all.len() && self.all[place].types.len() == count {
            all.push(place)?;
        }
        Ok(all)
    }

    /// What the head of a predicate is, where it has so many types.
    pub fn sole_head(&self, alloc: Global, pred: u32, count: usize) -> Result<Vec<usize>, Memory>
        ensures { IfOk result (λ all. (d : Declared)
            → pred < self.now.preds
            → entry self.now (4 + (self.now.symbols + (self.now.preds + pred))) ≡ Some d
            → map (λ k. entry self.now k) all.items
            ≡ (if nat_eq (length d.types) count then Some d ∷ [] else [])) }
    {
        match self.place_of_head(pred) {
            Some(place) => self.sole(alloc, place, count),
            None => Ok(Vec::new(alloc)),
        }
    }

    /// The candidates that an atom, or a term, may name, and that have so many types, each where it is met first.
    pub fn offered(
        &self,
        alloc: Global,
        of_atom: bool,
        candidates: &[Candidate],
        count: usize,
    ) -> Result<Vec<usize>, Memory>
        ensures { IfOk result (λ all. (P : Source) (D : Parameters)
            → ((c : AnyCandidate) → Contains candidates.now c → Shows P D self.now (of_name c))
            → map (λ k. entry self.now k) all.items
            ≡ map (λ (m : Meaning). Some (declared P D m))
            (offered P D (passes_as of_atom) count [] candidates.now)) }
    {
        let mut all = Vec::new(alloc);
        for k in 0..candidates.len() {
            let place = self.offer(of_atom, candidates, k, count);
            put(&mut all, place)?;
        }
        Ok(all)
    }

    /// The candidate that an atom, or a term, may name, where one alone has so many types.
    pub fn only(&self, of_atom: bool, candidates: &[Candidate], count: usize) -> Option<Only<'_>>
        ensures { IfSome result (λ only. (P : Source) (D : Parameters)
            → ((c : AnyCandidate) → Contains candidates.now c → Shows P D self.now (of_name c))
            → (offered P D (passes_as of_atom) count [] candidates.now ≡ of_name only.pick ∷ [])
            × (plain_signature only.signature.now ≡ declared P D (of_name only.pick))) }
    {
        let (pick, place) = self.sole_offer(of_atom, candidates, count)?;
        let signature = self.declared_at(place)?;
        Some(Only { pick, signature })
    }

    /// The candidate that is so many places behind the first one that is offered.
    pub fn chosen(
        &self,
        of_atom: bool,
        candidates: &[Candidate],
        count: usize,
        choice: usize,
    ) -> Option<Candidate>
        ensures { (P : Source) (D : Parameters)
            → ((c : AnyCandidate) → Contains candidates.now c → Shows P D self.now (of_name c))
            → option_to_list result
            ≡ pick_of (slice_index_or (offered P D (passes_as of_atom) count [] candidates.now) choice of_equation) }
    {
        let mut left = choice;
        for k in 0..candidates.len() {
            if self.offer(of_atom, candidates, k, count).is_some() {
                if left == 0 {
                    return Some(candidates[k]);
                }
                left -= 1;
            }
        }
        None
    }

    /// The candidate that alone is offered, and where it stands.
    fn sole_offer(
        &self,
        of_atom: bool,
        candidates: &[Candidate],
        count: usize,
    ) -> Option<(Candidate, usize)>
        ensures { IfSome result (λ found. (P : Source) (D : Parameters)
            → ((c : AnyCandidate) → Contains candidates.now c → Shows P D self.now (of_name c))
            → IsSole P D self.now (passes_as of_atom) count candidates.now found.0 found.1) }
    {
        let mut found = None;
        for k in 0..candidates.len() {
            if let Some(place) = self.offer(of_atom, candidates, k, count) {
                if found.is_some() {
                    return None;
                }
                found = Some((candidates[k], place));
            }
        }
        found
    }

    /// Where candidate `k` stands, where it is offered.
    fn offer(
        &self,
        of_atom: bool,
        candidates: &[Candidate],
        k: usize,
        count: usize,
    ) -> Option<usize>
        requires { k < length candidates.now }
        ensures { (P : Source) (D : Parameters) (d : AnyCandidate)
            → Shows P D self.now (of_name (slice_index_or candidates.now k d))
            → map (λ j. entry self.now j) (listed result)
            ≡ map (λ (m : Meaning). Some (declared P D m))
            (offer P D (passes_as of_atom) count (take k candidates.now)
            (slice_index_or candidates.now k d)) }
    {
        let candidate = candidates[k];
        if names_atom(candidate) != of_atom || is_among(candidate, &candidates[..k]) {
            return None;
        }
        let place = self.place_of(candidate)?;
        if place < self.all.len() && self.all[place].types.len() == count {
            Some(place)
        } else {
            None
        }
    }
}

/// Puts in a place, where there is one.
fn put(all: &mut Vec<usize>, place: Option<usize>) -> Result<(), Memory>
    ensures { OnOk result (all.new.items ≡ all.old.items ++ listed place) }
{
    if let Some(place) = place {
        all.push(place)?;
    }
    Ok(())
}
