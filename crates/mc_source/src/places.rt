ghost use Rattle.std.specs.Prelude.{◌≡◌, OnOk};
ghost use Rattle.mc_source.specs.Rules.{by_place};

use crate::rule::Broken;
use mc_base::Memory;

/// Puts broken rules into the order of their places; those of one place stay in their order.
pub fn sort_by_place(faults: &mut Vec<Broken>) -> Result<(), Memory>
    ensures { OnOk result (faults.new.items ≡ by_place faults.old.items) }
{
    faults.sort_by_key(|fault| (fault.at.file, fault.at.line))?;
    Ok(())
}
