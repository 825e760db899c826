ghost use Rattle.std.specs.Prelude.{◌≡◌, Ok, IfOk};

use mc_base::Memory;

/// A value that was in hand while something else was made, beside that; after want of memory it is dropped. It does so for
/// each type, so that the drop of a large value needn't be proved at each step that may fail.
pub fn kept<A: Drop, T: Drop>(made: Result<A, Memory>, value: T) -> Result<(A, T), Memory>
    ensures made { IfOk result (λ both. made ≡ Ok both.0) }
    ensures value { IfOk result (λ both. both.1 ≡ value) }
{
    match made {
        Ok(made) => Ok((made, value)),
        Err(memory) => Err(memory),
    }
}
