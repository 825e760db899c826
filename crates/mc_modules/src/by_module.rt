ghost use Rattle.std.specs.Prelude.{◌≡◌, ◌<◌, ◌++◌, length, nat_eq, map, IfOk, OnOk};
ghost use Rattle.mc_modules.specs.Linked.{numbers, before, has_of, visible, flat};
ghost use Rattle.mc_names.specs.Linked.{plain_named};
ghost use Rattle.mc_modules.specs.code.Passes.{starts_from};

use mc_base::{Memory, Row};
use mc_names::{Named, put_where};
use std::alloc::Global;

/// What each file has of one sort, and how many the files before it have.
#[derive(Drop)]
pub struct ByModule {
    has: Vec<Row<Named>>,
    starts: Vec<u32>,
    ghost begin: { starts.items ≡ starts_from 0 has.items },
}

impl ByModule {
    pub fn of(alloc: Global, has: Vec<Row<Named>>) -> Result<ByModule, Memory>
        ensures { IfOk result (λ c. c.has.items ≡ has.items) }
    {
        let starts = starts(alloc, has.as_slice())?;
        Ok(ByModule { has, starts })
    }

    /// How many the files before this one have.
    #[tactic(auto, using(crate::proofs::Starts::starts_length, crate::proofs::Starts::start_there))]
    pub fn start(&self, file: usize) -> u32
        requires { file < length self.now.has.items }
        ensures { result ≡ before file (map (map plain_named) self.now.has.items) }
    {
        self.starts[file]
    }

    /// The numbers of what a module sees, in the order of the modules that it sees.
    pub fn visible(&self, alloc: Global, own: u32, seen: &Row<u32>) -> Result<Row<u32>, Memory>
        ensures { IfOk result
            (λ all. all ≡ visible own seen.now (map (map plain_named) self.now.has.items)) }
    {
        let mut all = Vec::new(alloc);
        for module in seen.as_slice() {
            self.put_visible(own, *module, &mut all)?;
        }
        Row::of(all)
    }

    #[tactic(auto, using(crate::proofs::Starts::has_past, crate::proofs::Starts::has_there))]
    fn put_visible(&self, own: u32, file: u32, all: &mut Vec<u32>) -> Result<(), Memory>
        ensures { OnOk result
            (all.new.items
            ≡ all.old.items
            ++ numbers (nat_eq own file)
            (before file (map (map plain_named) self.now.has.items))
            (has_of file (map (map plain_named) self.now.has.items))) }
    {
        let k = file as usize;
        if k < self.has.len() {
            put_numbers(own == file, self.start(k), self.has[k].as_slice(), all)
        } else {
            Ok(())
        }
    }

    /// All of them, in the order of the files.
    pub fn flat(self, alloc: Global) -> Result<Row<Named>, Memory>
        ensures { IfOk result (λ all. map plain_named all ≡ flat (map (map plain_named) self.has.items)) }
    {
        let ByModule { has, starts: _ } = self;
        let mut all = Vec::new(alloc);
        for names in has {
            append(&mut all, names)?;
        }
        Row::of(all)
    }
}

fn starts(alloc: Global, has: &[Row<Named>]) -> Result<Vec<u32>, Memory>
    ensures { IfOk result (λ starts. starts.items ≡ starts_from 0 has.now) }
{
    let mut starts = Vec::new(alloc);
    let mut n: u32 = 0;
    for names in has {
        starts.push(n)?;
        if names.len() > u32::MAX - n {
            return Err(Memory);
        }
        n += names.len();
    }
    Ok(starts)
}

// Puts in the numbers of those that a module sees, the first of which is `start`.
fn put_numbers(own: bool, start: u32, names: &[Named], all: &mut Vec<u32>) -> Result<(), Memory>
    ensures { OnOk result (all.new.items ≡ all.old.items ++ numbers own start (map plain_named names.now)) }
{
    let mut number = start;
    for named in names {
        put_where(own || named.exported, number, all)?;
        if number == u32::MAX {
            return Err(Memory);
        }
        number += 1;
    }
    Ok(())
}

fn append(all: &mut Vec<Named>, names: Row<Named>) -> Result<(), Memory>
    ensures { OnOk result (all.new.items ≡ all.old.items ++ names) }
{
    for named in names.into_vec() {
        all.push(named)?;
    }
    Ok(())
}
