ghost use Rattle.std.specs.Prelude.{◌≡◌, ◌++◌, OnOk};
ghost use Rattle.mc_names.specs.code.Kept.{kept};

use mc_base::Memory;

/// Puts something in, where a test holds.
pub fn put_where<T: Copy + Drop>(holds: bool, item: T, all: &mut Vec<T>) -> Result<(), Memory>
    ensures { OnOk result (all.new.items ≡ all.old.items ++ kept holds item) }
{
    if holds {
        all.push(item)?;
    }
    Ok(())
}
