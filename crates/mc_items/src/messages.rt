ghost use Rattle.std.specs.Prelude.{◌≡◌, slice_index_or, IfOk, Some};
ghost use Rattle.mc_items.specs.Words as W;
ghost use Rattle.mc_items.specs.Verdicts.{unread};

use crate::LeftOut;
use mc_base::{Memory, Text};
use mc_source::rule::Rule;
use mc_terms::{ItemFault, ReadKind};
use mc_tokens::FaultKind;
use std::alloc::Global;

// What is said of a form that is left out.
pub fn left_out(alloc: Global, form: LeftOut) -> Result<Text, Memory>
    ensures { IfOk result (λ text. text ≡ W.left_out form) }
{
    let mut text = Text::new(alloc, b"left out of this profile: ")?;
    text.extend(form.words())?;
    Ok(text)
}

// The rule that an item breaks which isn't read, and what is said of it, by the reader's fault and the byte at
// its place; want of memory breaks none.
pub fn unread_rule(alloc: Global, kind: ReadKind, byte: u8) -> Result<Option<(Rule, Text)>, Memory>
    ensures { IfOk result (λ broken. broken ≡ unread kind byte) }
{
    let (rule, words): (Rule, &[u8]) = match kind {
        ReadKind::Token(FaultKind::BadChar) => (Rule::S1, b"bad character"),
        ReadKind::Token(FaultKind::Unterminated) => (Rule::S2, b"quote or comment is not closed"),
        ReadKind::Token(FaultKind::NotUtf8) => (Rule::S4, b"text is not UTF-8"),
        ReadKind::Token(FaultKind::LeftOut) => {
            let form = LeftOut::of_token(byte);
            return Ok(Some((Rule::X1, left_out(alloc, form)?)));
        }
        ReadKind::Token(FaultKind::IntTooLarge) | ReadKind::IntTooLarge => {
            (Rule::S3, b"integer is out of range")
        }
        ReadKind::NotATerm => (Rule::S5, b"not a term"),
        ReadKind::TooNested => (Rule::L2, b"term is nested deeper than 256"),
        ReadKind::Memory => return Ok(None),
    };
    Ok(Some((rule, Text::new(alloc, words)?)))
}

// The rule that an item of a text breaks which isn't read, and what is said of it, by the reader's fault.
pub fn fault_rule(alloc: Global, text: &[u8], fault: ItemFault) -> Result<(Rule, Text), Memory>
    ensures { IfOk result
        (λ broken. unread fault.fault.kind (slice_index_or text.now fault.at 0) ≡ Some broken) }
{
    let byte = text.get(fault.at).copied().unwrap_or(0);
    match unread_rule(alloc, fault.fault.kind, byte)? {
        Some(broken) => Ok(broken),
        None => Err(Memory),
    }
}
