ghost use Rattle.std.specs.Prelude.{◌≡◌, IfOk, OnOk};
ghost use Rattle.mc_base.specs.NameSets.{put_all};
ghost use Rattle.mc_clause_syntax.specs.States.{names_of};
ghost use Rattle.mc_state_variables.specs.Updates.{common};
ghost use Rattle.mc_state_variables.specs.Versions.{distinct};

use mc_base::{Memory, NameSet};
use std::alloc::Global;

/// Each name once, in the order in which they come first.
#[tactic(auto, using(crate::proofs::Sets::set_is_distinct))]
pub fn distinct<'a>(alloc: Global, names: &[&'a [u8]]) -> Result<Vec<&'a [u8]>, Memory>
    ensures { IfOk result (λ once. names_of once.items ≡ distinct (names_of names.now)) }
{
    let mut set = NameSet::new(alloc);
    let mut once = Vec::new(alloc);
    put_new_names(&mut set, &mut once, names)?;
    Ok(once)
}

/// Those of the first names that are among the others.
#[tactic(auto, using(crate::proofs::Lists::adding))]
pub fn common<'a>(
    alloc: Global,
    names: &[&'a [u8]],
    others: &NameSet<'_>,
) -> Result<Vec<&'a [u8]>, Memory>
    ensures { IfOk result (λ both. names_of both.items ≡ common (names_of names.now) others.now) }
{
    let mut both = Vec::new(alloc);
    for name in names {
        if others.contains(name) {
            both.push(*name)?;
        }
    }
    Ok(both)
}

/// Puts names into a set.
pub fn put_names<'a>(set: &mut NameSet<'a>, names: &[&'a [u8]]) -> Result<(), Memory>
    ensures { OnOk result (set.new ≡ put_all set.old (names_of names.now)) }
{
    for name in names {
        set.insert(name)?;
    }
    Ok(())
}

/// Puts names into a set, and those that are new there behind its names in order.
#[tactic(auto, using(crate::proofs::Lists::adding))]
pub fn put_new_names<'a>(
    set: &mut NameSet<'a>,
    in_order: &mut Vec<&'a [u8]>,
    names: &[&'a [u8]],
) -> Result<(), Memory>
    ensures set { OnOk result (set.new ≡ put_all set.old (names_of names.now)) }
    ensures order { OnOk result (names_of in_order.old.items ≡ set.old → names_of in_order.new.items ≡ set.new) }
{
    for name in names {
        if set.insert(name)? {
            in_order.push(*name)?;
        }
    }
    Ok(())
}
