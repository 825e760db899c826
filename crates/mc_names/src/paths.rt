ghost use Rattle.std.specs.Prelude.{◌≡◌, IfOk};
ghost use Rattle.mc_names.specs.Plain.{joined};

use mc_base::{Memory, Text};
use std::alloc::Global;

/// A name by its parts, with a full stop between them.
pub fn joined(alloc: Global, name: &[Text]) -> Result<Text, Memory>
    ensures { IfOk result (λ text. text ≡ joined name.now) }
{
    match name {
        [] => Ok(Text::empty(alloc)),
        [first, others @ ..] => {
            let mut text = Text::new(alloc, first.bytes())?;
            for part in others {
                text.push(b'.')?;
                text.extend(part.bytes())?;
            }
            Ok(text)
        }
    }
}
