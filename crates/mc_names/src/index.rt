ghost use Rattle.std.specs.Prelude.{◌≡◌, ℕ, ◌++◌, ◌∷◌, [], List, cond, map, IfOk, OnOk, slice_get};
ghost use Rattle.std.specs.Option.{option_map, option_copied};
ghost use Rattle.std.specs.Str.{bytes_eq};
ghost use Rattle.mc_names.specs.code.Index.{listed, its_name, name_at, is_called, called, IsIndex, IsNumberIndex};

use crate::names::Named;
use indexmap::IndexMap;
use mc_base::{Memory, Row};
use mc_source::name::Candidate;
use std::alloc::Global;
use std::marker::Model;

/// Definitions by name. A look-up takes the time of one hash.
#[derive(Drop)]
pub struct Index<T> {
    named: IndexMap<Vec<u8>, Vec<T>>,
}

impl<T> Model for Index<T> {
    ghost use Rattle.std.specs.Prelude.{ℕ, List, map};

    ghost Value = { List (List ℕ × List T) };

    ghost view = { λ s. map (λ e. (e.0.items, e.1.items)) s.named.entries };
}

impl<T: Copy + Drop> Index<T> {
    fn new(alloc: Global) -> Index<T>
        ensures { result ≡ [] }
    {
        Index {
            named: IndexMap::new(alloc),
        }
    }

    /// Those of a name, in order.
    pub fn get(&self, name: &[u8]) -> &[T]
        ensures { result.now ≡ listed self.now name.now }
    {
        match self.named.get(name) {
            Some(group) => group.as_slice(),
            None => &[],
        }
    }

    // Puts a definition behind the others of its name, which are copied: in legal sources a module has one of each arity.
    fn put(&mut self, alloc: Global, name: &[u8], item: T) -> Result<(), Memory>
        ensures { OnOk result ((w : List ℕ) → listed self.new w ≡ cond (bytes_eq w name.now) (listed self.old w ++ item ∷ []) (listed self.old w)) }
    {
        let mut group = Vec::from_slice(alloc, self.get(name))?;
        group.push(item)?;
        self.named.insert(Vec::from_slice(alloc, name)?, group)?;
        Ok(())
    }

    fn put_named(&mut self, alloc: Global, name: Option<&[u8]>, item: T) -> Result<(), Memory>
        ensures { OnOk result ((w : List ℕ) → listed self.new w ≡ cond (is_called w (option_copied name.entry)) (listed self.old w ++ item ∷ []) (listed self.old w)) }
    {
        match name {
            Some(name) => self.put(alloc, name, item),
            None => Ok(()),
        }
    }
}

/// The numbers of definitions, by their names.
pub fn numbers_by_name(alloc: Global, names: &Row<Named>) -> Result<Index<u32>, Memory>
    ensures { IfOk result (λ index. IsNumberIndex names.now index) }
{
    let mut index = Index::new(alloc);
    for (number, named) in names.as_slice().iter().enumerate() {
        index.put(alloc, named.name.name.bytes(), number as u32)?;
    }
    Ok(index)
}

// Those of these candidates that have a name, by it.
fn candidates_by_name(
    alloc: Global,
    symbols: &Row<Named>,
    preds: &Row<Named>,
    candidates: &[Candidate],
) -> Result<Index<Candidate>, Memory>
    ensures { IfOk result
        (λ index. (w : List ℕ) → listed index w ≡ called symbols.now preds.now w candidates.now) }
{
    let mut index = Index::new(alloc);
    for candidate in candidates {
        index.put_named(alloc, name_of(symbols, preds, *candidate), *candidate)?;
    }
    Ok(index)
}

// The name of a candidate; a character has none.
fn name_of<'a>(
    symbols: &'a Row<Named>,
    preds: &'a Row<Named>,
    candidate: Candidate,
) -> Option<&'a [u8]>
    ensures { option_copied result ≡ name_at symbols.now preds.now candidate }
{
    match candidate {
        Candidate::Con(k) => name_in(symbols, k),
        Candidate::Func(k) => name_in(preds, k),
        Candidate::Pred(k) => name_in(preds, k),
        Candidate::Char(_) => None,
    }
}

fn name_in(names: &Row<Named>, k: u32) -> Option<&[u8]>
    ensures { option_copied result ≡ option_map its_name (slice_get names.now k) }
{
    if k < names.len() {
        Some(names.get(k).name.name.bytes())
    } else {
        None
    }
}

/// What each module has, by name.
pub fn indices(
    alloc: Global,
    symbols: &Row<Named>,
    preds: &Row<Named>,
    declared: &[Row<Candidate>],
) -> Result<Vec<Index<Candidate>>, Memory>
    ensures { IfOk result (λ all. IsIndex symbols.now preds.now all.items declared.now) }
{
    let mut all = Vec::new(alloc);
    for candidates in declared {
        all.push(candidates_by_name(alloc, symbols, preds, candidates.as_slice())?)?;
    }
    Ok(all)
}
