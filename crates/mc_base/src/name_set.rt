ghost use Rattle.std.specs.Prelude.{◌≡◌, ◌<◌, ◌^◌, [], not, false, length, IfOk, OnOk, OnErr};
ghost use Rattle.std.specs.Set.{is_member};
ghost use Rattle.std.specs.Str.{bytes_eq};
ghost use Rattle.mc_base.specs.NameSets.{put};

use crate::memory::Memory;
use indexmap::IndexSet;
use std::alloc::Global;
use std::marker::Model;

/// Names, each once, in the order in which they came. A look-up takes the time of one hash.
#[derive(Drop)]
pub struct NameSet<'a> {
    names: IndexSet<&'a [u8]>,
}

impl<'a> Model for NameSet<'a> {
    ghost use Rattle.std.specs.Prelude.{List, ℕ, map};

    ghost Value = { List (List ℕ) };

    ghost view = { λ s. map (λ name. name.now) s.names.keys };
}

impl<'a> NameSet<'a> {
    /// The set of no names, which takes no memory yet.
    pub fn new(alloc: Global) -> NameSet<'a>
        ensures { result ≡ [] }
    {
        NameSet {
            names: IndexSet::new(alloc),
        }
    }

    /// Puts a name in, where the set doesn't have it yet, and answers whether it was new. After want of memory the
    /// set is as it was; a name that is there wants none.
    pub fn insert(&mut self, name: &'a [u8]) -> Result<bool, Memory>
        ensures added { IfOk result (λ added. added ≡ not (is_member bytes_eq self.old name.now)) }
        ensures ok { OnOk result (self.new ≡ put self.old name.now) }
        ensures err { OnErr result (self.new ≡ self.old) }
        ensures absent { OnErr result (is_member bytes_eq self.old name.now ≡ false) }
    {
        let added = self.names.insert(name)?;
        Ok(added)
    }

    /// Whether the set has a name.
    pub fn contains(&self, name: &[u8]) -> bool
        ensures { result ≡ is_member bytes_eq self.now name.now }
    {
        self.names.contains(name)
    }

    /// How many names the set has.
    pub fn len(&self) -> usize
        ensures len { result ≡ length self.now }
        ensures small { result < 2 ^ 63 }
    {
        self.names.len()
    }
}
