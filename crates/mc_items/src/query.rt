ghost use Rattle.std.specs.Prelude.{◌≡◌, ◌≤◌, [], ◌∷◌, length, false, IfOk, IfErr, IsTrue};
ghost use Rattle.mc_terms.specs.Answers.{IsOver, IsItem, IsRefused, StandsAt, item_line};
ghost use Rattle.mc_items.specs.Files.{greatest_text};
ghost use Rattle.mc_items.specs.code.Faults.{IsBrokenIn};
ghost use Rattle.mc_items.specs.Queries.{IsGoal, IsQueryRefusal};
ghost use Rattle.mc_items.specs.Words as W;

use crate::goal::query_rule;
use crate::messages::fault_rule;
use crate::read::{GREATEST_TEXT, too_long};
use mc_base::{Memory, Row, Text};
use mc_decl_syntax::ItemsFault;
use mc_source::place::Place;
use mc_source::rule::{Broken, Rule};
use mc_term_data::Term;
use mc_terms::{ItemFault, Position, ReadItem, read_next};
use mc_tokens::{Kind, Walk};
use std::alloc::Global;

// The rule that a query's text breaks, which is no goal.
fn no_goal(alloc: Global, at: Place, rule: Rule, what: Text) -> ItemsFault
    ensures { IsBrokenIn (record { rule = rule; at = at; what = what } ∷ []) result }
{
    match Row::one(alloc, Broken { rule, at, what }) {
        Ok(broken) => ItemsFault::Broken(broken),
        Err(Memory) => ItemsFault::Memory,
    }
}

// A query's text that is no term.
fn no_term(alloc: Global, at: Place) -> ItemsFault
    ensures { IsBrokenIn (record { rule = Rule.S5; at = at; what = W.not_a_term } ∷ []) result }
{
    match Text::new(alloc, b"not a term") {
        Ok(what) => no_goal(alloc, at, Rule::S5, what),
        Err(_) => ItemsFault::Memory,
    }
}

// A query's text whose first item isn't read.
fn unread(alloc: Global, file: u32, text: &[u8], fault: ItemFault) -> ItemsFault
    requires short { length text.now ≤ greatest_text }
    requires refused { IsRefused text.now 0 fault.fault.kind fault.fault.line fault.fault.next }
    requires stands { StandsAt text.now 0 fault.fault.kind fault.at }
    ensures { IsQueryRefusal file text.now result }
{
    let line = fault.fault.line;
    match fault_rule(alloc, text, fault) {
        Ok((rule, what)) => no_goal(alloc, Place { file, line }, rule, what),
        Err(Memory) => ItemsFault::Memory,
    }
}

// Whether nothing but blanks and comments is left from a place on.
fn is_over(walk: &mut Walk, at: usize) -> bool
    requires { at ≤ length walk.old }
    ensures yes { IsTrue result → IsOver walk.old at }
    ensures no { result ≡ false → IsOver walk.old at → ⊥ }
    ensures same { walk.new ≡ walk.old }
{
    match walk.next(at, &Kind::Eof) {
        Ok(token) => matches!(token.kind, Kind::Eof),
        Err(_) => false,
    }
}

// The goal that a query's first item is, where nothing follows it.
fn sole_goal(alloc: Global, file: u32, walk: &mut Walk, item: ReadItem) -> Result<Term, ItemsFault>
    requires short { length walk.old ≤ greatest_text }
    requires within { item.end.at ≤ length walk.old }
    requires read { IsItem walk.old 0 item.term item.end.at }
    requires line { item.line ≡ item_line walk.old 0 }
    ensures goal { IfOk result (IsGoal walk.old) }
    ensures refusal { IfErr result (IsQueryRefusal file walk.old) }
{
    let ReadItem { term, line, end } = item;
    let at = Place { file, line };
    if !is_over(walk, end.at) {
        return Err(no_term(alloc, at));
    }
    match query_rule(alloc, &term)? {
        None => Ok(term),
        Some((rule, what)) => Err(no_goal(alloc, at, rule, what)),
    }
}

/// The goal of a query, by its text, which has a number as a file has. A full stop stands behind the goal, as behind
/// an item of a file.
///
/// # Errors
///
/// `Broken` with the one rule that the text breaks. A text of more than 4 MiB breaks L1 on line 1 and is read no
/// further. A text whose first item isn't read breaks the rule of the reader's fault, on the fault's line. A text
/// without an item breaks S5 on line 1, and one with anything but blanks and comments behind the first item breaks
/// S5 on that item's line. A term breaks X1 where a form stands in it that is left out, then S6 where it is no
/// goal, then L3 and L4, on its item's line.
pub fn read_query(alloc: Global, file: u32, text: &[u8]) -> Result<Term, ItemsFault>
    ensures goal { IfOk result (IsGoal text.now) }
    ensures refusal { IfErr result (IsQueryRefusal file text.now) }
{
    if text.len() > GREATEST_TEXT {
        return Err(ItemsFault::Broken(too_long(alloc, file)?));
    }
    let mut walk = Walk::new(text);
    match read_next(alloc, &mut walk, Position::START) {
        Ok(None) => Err(no_term(alloc, Place { file, line: 1 })),
        Ok(Some(item)) => sole_goal(alloc, file, &mut walk, item),
        Err(fault) => Err(unread(alloc, file, text, fault)),
    }
}
