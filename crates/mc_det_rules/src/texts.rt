ghost use Rattle.std.specs.Prelude.{◌≡◌, ◌++◌, codes, IfOk};
ghost use Rattle.mc_source.specs.Determinism.{row_of};
ghost use Rattle.mc_program.specs.PlainPrograms.{plain_name, no_name};
ghost use Rattle.mc_accepted.specs.DeterminismFaults.{name_of, declared_name, both_named, shown};

use itoa::Buffer;
use mc_base::{Memory, Text};
use mc_program::program::Name;
use mc_source::det::{Det, Most};
use std::alloc::Global;

/// At most how many answers the tables give: a committed determinism counts as one with many.
pub(crate) fn most_of(d: Det) -> Most
    ensures { result ≡ (row_of d).most }
{
    if d.committed { Most::Many } else { d.most }
}

/// The name of a determinism that isn't committed.
fn name_of(can_fail: bool, most: Most) -> &'static [u8]
    ensures { result.now ≡ name_of can_fail most }
{
    match most {
        Most::Zero if can_fail => b"failure",
        Most::Zero => b"erroneous",
        Most::One if can_fail => b"semidet",
        Most::One => b"det",
        Most::Many if can_fail => b"nondet",
        Most::Many => b"multi",
    }
}

/// The name of a declared determinism.
fn declared_name(alloc: Global, d: Det) -> Result<Text, Memory>
    ensures { IfOk result (λ text. text ≡ declared_name d) }
{
    let name = name_of(d.can_fail, d.most);
    if d.committed {
        let mut text = Text::new(alloc, b"cc_")?;
        text.extend(name)?;
        return Ok(text);
    }
    Text::new(alloc, name)
}

/// What is said of a body whose determinism its declaration doesn't allow.
pub(crate) fn both_named(alloc: Global, declared: Det, body: Det) -> Result<Text, Memory>
    ensures { IfOk result (λ text. text ≡ both_named declared (row_of body)) }
{
    let first = declared_name(alloc, declared)?;
    let mut text = Text::new(alloc, b"declared ")?;
    text.extend(first.bytes())?;
    text.extend(b", inferred ")?;
    text.extend(name_of(body.can_fail, most_of(body)))?;
    Ok(text)
}

/// A name with the number of its arguments, and what is said of it.
pub(crate) fn of_name(alloc: Global, name: &Name, words: &[u8]) -> Result<Text, Memory>
    ensures { IfOk result (λ text. text ≡ shown (plain_name name.now) ++ words.now) }
{
    let mut number = Buffer::new();
    let mut text = Text::new(alloc, name.name.bytes())?;
    text.push(b'/')?;
    text.extend(number.format(name.arity).as_bytes())?;
    text.extend(words)?;
    Ok(text)
}

/// What is said of no name.
pub(crate) fn of_no_name(alloc: Global, words: &[u8]) -> Result<Text, Memory>
    ensures { IfOk result (λ text. text ≡ shown no_name ++ words.now) }
{
    let mut number = Buffer::new();
    let mut text = Text::new(alloc, b"/")?;
    text.extend(number.format(0u32).as_bytes())?;
    text.extend(words)?;
    Ok(text)
}
