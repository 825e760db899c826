ghost use Rattle.std.specs.Prelude.{◌≡◌, ◌≢◌, ◌-◌, ◌≤◌, ◌<◌, ◌^◌, length, IfOk, IfErr, IfSome, IfNone, MatchOption, None};
ghost use Rattle.mc_terms.specs.Lines.{line_at};
ghost use Rattle.mc_terms.specs.Answers.{IsOver, IsItem, IsRefused, IsOnward, StandsAt, item_line};

use crate::fault::{ItemFault, ReadFault, ReadKind};
use crate::item::{faulty_token, is_eof, item_tokens, want_of_memory};
use crate::position::Position;
use mc_term_data::Term;
use mc_term_parser::{Reading, read};
use mc_tokens::{Kind, Walk};
use std::alloc::Global;

/// An item that was read.
#[derive(Drop)]
pub struct ReadItem {
    pub term: Term,
    /// The line of the item's first token, counted from 1.
    pub line: u32,
    /// The position behind the item's end.
    pub end: Position,
}

// The fault of an item that is no term, which begins in a place and on a line, and the place behind it.
fn no_term(at: usize, line: u32, next: usize) -> ItemFault
    ensures kind { result.fault.kind ≡ ReadKind.NotATerm }
    ensures line { result.fault.line ≡ line }
    ensures next { result.fault.next ≡ next }
{
    let kind = ReadKind::NotATerm;
    let fault = ReadFault { kind, line, next };
    ItemFault { fault, at }
}

// An item that was read, which begins on a line and in a place, and ends before a position.
fn judged(reading: Reading, line: u32, at: usize, end: Position) -> Result<ReadItem, ItemFault>
    ensures kept { IfOk result
        (λ x.
        (x.term ≡ reading.term)
        × (x.line ≡ line)
        × (x.end ≡ end)
        × (reading.too_large ≡ None)
        × (reading.depth ≤ 256)) }
    ensures next { IfErr result (λ f. f.fault.next ≡ end.at) }
    ensures why { IfErr result
        (λ f.
        MatchOption reading.too_large
        ((f.fault.kind ≡ ReadKind.TooNested) × (f.fault.line ≡ line) × (256 < reading.depth))
        (λ large. (f.fault.kind ≡ ReadKind.IntTooLarge) × (f.fault.line ≡ large))) }
{
    let next = end.at;
    if let Some(line) = reading.too_large {
        let kind = ReadKind::IntTooLarge;
        let fault = ReadFault { kind, line, next };
        return Err(ItemFault { fault, at });
    }
    if reading.depth > 256 {
        let kind = ReadKind::TooNested;
        let fault = ReadFault { kind, line, next };
        return Err(ItemFault { fault, at });
    }
    let term = reading.term;
    Ok(ReadItem { term, line, end })
}

/// The item that begins in a position; None where only blanks and comments are left. An item that
/// the text's end cuts off before its full stop is no term. To read all items of a text in linear
/// time, pass one walk on from item to item, and after a fault go on at its `next`, to which
/// [`Position::moved`] leads.
pub fn read_next(
    alloc: Global,
    walk: &mut Walk,
    from: Position,
) -> Result<Option<ReadItem>, ItemFault>
    requires within { from.at ≤ length walk.old }
    requires line { from.line ≡ line_at walk.old from.at }
    requires small { length walk.old < 2 ^ 32 - 1 }
    ensures over { IfOk result (λ answer. IfNone answer (IsOver walk.old from.at)) }
    ensures item { IfOk result (λ answer. IfSome answer (λ x. IsItem walk.old from.at x.term x.end.at)) }
    ensures line { IfOk result (λ answer. IfSome answer (λ x. x.line ≡ item_line walk.old from.at)) }
    ensures place { IfOk result
        (λ answer.
        IfSome answer
        (λ x.
        (x.end.line ≡ line_at walk.old x.end.at)
        × (from.at < x.end.at)
        × (x.end.at ≤ length walk.old))) }
    ensures refused { IfErr result (λ f. IsRefused walk.old from.at f.fault.kind f.fault.line f.fault.next) }
    ensures stands { IfErr result (λ f. StandsAt walk.old from.at f.fault.kind f.at) }
    ensures onward { IfErr result (λ f. IsOnward walk.old from.at f.fault.kind f.fault.next) }
    ensures same { walk.new ≡ walk.old }
{
    let first = match walk.next(from.at, &Kind::Eof) {
        Ok(first) => first,
        Err(fault) => {
            let line = from.moved(walk.text(), fault.at).line;
            return Err(faulty_token(walk, from, line, fault));
        }
    };
    if is_eof(first.kind) {
        return Ok(None);
    }
    let begin = from.moved(walk.text(), first.start);
    let line = begin.line;
    let item = item_tokens(alloc, walk, from, first, begin)?;
    if item.cut_off {
        return Err(no_term(from.at, line, item.end.at));
    }
    match read(alloc, item.tokens.as_slice()) {
        Err(_) => Err(want_of_memory(from)),
        Ok(None) => Err(no_term(from.at, line, item.end.at)),
        Ok(Some(reading)) => match judged(reading, line, from.at, item.end) {
            Ok(item) => Ok(Some(item)),
            Err(fault) => Err(fault),
        },
    }
}

/// The term of the item that begins in a place of a text, and the place behind its end; None where
/// only blanks and comments are left.
pub fn read_term(alloc: Global, text: &[u8], at: usize) -> Result<Option<(Term, usize)>, ReadFault>
    requires within { at ≤ length text.now }
    requires small { length text.now < 2 ^ 32 - 1 }
    ensures over { IfOk result (λ answer. IfNone answer (IsOver text.now at)) }
    ensures item { IfOk result (λ answer. IfSome answer (λ x. IsItem text.now at x.0 x.1)) }
    ensures place { IfOk result (λ answer. IfSome answer (λ x. (at < x.1) × (x.1 ≤ length text.now))) }
    ensures refused { IfErr result (λ f. IsRefused text.now at f.kind f.line f.next) }
    ensures onward { IfErr result (λ f. IsOnward text.now at f.kind f.next) }
{
    let mut walk = Walk::new(text);
    let from = Position::START.moved(text, at);
    match read_next(alloc, &mut walk, from) {
        Ok(None) => Ok(None),
        Ok(Some(item)) => Ok(Some((item.term, item.end.at))),
        Err(fault) => Err(fault.fault),
    }
}
