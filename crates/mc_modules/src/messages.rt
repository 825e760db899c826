ghost use Rattle.std.specs.Prelude.{◌≡◌, ◌++◌, codes, IfOk};
ghost use Rattle.mc_names.specs.Plain.{plain_name_arity, joined, shown};

use itoa::Buffer;
use mc_base::{Memory, Text};
use mc_names::{NameArity, joined};
use std::alloc::Global;

/// A name with the number of its arguments, and what is said of it.
pub fn of_name(alloc: Global, id: &NameArity<'_>, words: &[u8]) -> Result<Text, Memory>
    ensures { IfOk result (λ text. text ≡ shown (plain_name_arity id.now) ++ words.now) }
{
    let mut number = Buffer::new();
    let mut text = Text::new(alloc, id.name)?;
    text.push(b'/')?;
    text.extend(number.format(id.arity).as_bytes())?;
    text.extend(words)?;
    Ok(text)
}

/// The name of a module, and what is said of it.
pub fn of_module(alloc: Global, name: &[Text], words: &[u8]) -> Result<Text, Memory>
    ensures { IfOk result (λ text. text ≡ codes "module " ++ (joined name.now ++ words.now)) }
{
    let mut text = Text::new(alloc, b"module ")?;
    text.extend(joined(alloc, name)?.bytes())?;
    text.extend(words)?;
    Ok(text)
}
