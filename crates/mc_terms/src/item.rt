ghost use Rattle.std.specs.Prelude.{◌≡◌, ◌≢◌, ◌+◌, ◌≤◌, ◌<◌, ◌^◌, ◌-◌, ◌∷◌, ◌++◌, [], length, reverse, OnOk, IfOk, IfErr, MatchOption, MatchResult, List, ℕ, IsTrue, false, slice_range};
ghost use Rattle.mc_tokens.specs.Contents.{stands_for};
ghost use Rattle.mc_terms.specs.Lines.{line_at};
ghost use Rattle.mc_terms.specs.code.Walked.{qualifier, with_name, with_token, IsMark};
ghost use Rattle.mc_term_parser.specs.declared.lexeme.Lexeme.{Lexeme};
ghost use Rattle.mc_terms.specs.Answers.{AreItemTokens, IsRefused, IsOnward, StandsAt};
ghost use Rattle.mc_tokens.specs.Answers.{InOrder};
ghost use Rattle.mc_tokens.specs.Tokens.{Tok, lexed};
ghost use Rattle.mc_tokens.specs.Items.{Passes};
ghost use Rattle.std.specs.Prelude.{None, Some};

use crate::fault::{ItemFault, ReadFault, ReadKind};
use crate::position::Position;
use mc_base::{Memory, Row, Text};
use mc_term_parser::Lexeme;
use mc_tokens::{FaultKind, Kind, Token, TokenFault, Walk, token_text};
use std::alloc::Global;

// How many tokens of an item room is made for at once: a fact of three arguments has no more.
const FEW_TOKENS: usize = 8;

// The tokens of an item, and the position behind its end.
#[derive(Drop)]
pub struct ItemTokens {
    pub tokens: Vec<Lexeme>,
    pub end: Position,
    // Whether the text ends before a full stop.
    pub cut_off: bool,
}

// Whether a token of the kind is the text's end.
pub fn is_eof(kind: Kind) -> bool
    ensures yes { IsTrue result → kind ≡ Kind.Eof }
    ensures no { result ≡ false → kind ≢ Kind.Eof }
{
    matches!(kind, Kind::Eof)
}

// The parts and the line of a name that a dot goes on from, or the token where it is no name.
fn name_parts(alloc: Global, token: Lexeme) -> Result<Result<(Row<Text>, u32), Lexeme>, Memory>
    ensures { IfOk result
        (λ r.
        MatchResult r
        (λ q.
        (done : List Lexeme)
        → qualifier (Lexeme.Dot ∷ token ∷ done) ≡ Some (q.0, q.1, done))
        (λ t.
        (t ≡ token)
        × ((done : List Lexeme) → qualifier (Lexeme.Dot ∷ token ∷ done) ≡ None))) }
{
    match token {
        Lexeme::Word(name, _, line) => Ok(Ok((Row::one(alloc, name)?, line))),
        Lexeme::Path(parts, line) => Ok(Ok((parts, line))),
        token => Ok(Err(token)),
    }
}

// The same of the last token, where a dot behind it was taken off.
fn before_dot(alloc: Global, tokens: &mut Vec<Lexeme>) -> Result<Option<(Row<Text>, u32)>, Memory>
    ensures { IfOk result
        (λ q.
        MatchOption q
        ((qualifier (Lexeme.Dot ∷ reverse tokens.old.items) ≡ None)
        × (tokens.new.items ≡ tokens.old.items ++ Lexeme.Dot ∷ []))
        (λ q.
        qualifier (Lexeme.Dot ∷ reverse tokens.old.items)
        ≡ Some (q.0, q.1, reverse tokens.new.items))) }
{
    if let Some(token) = tokens.pop() {
        match name_parts(alloc, token)? {
            Ok(name) => return Ok(Some(name)),
            Err(token) => tokens.push(token)?,
        }
    }
    tokens.push(Lexeme::Dot)?;
    Ok(None)
}

// Whether the tokens end in a dot. Most end otherwise, and are left as they are.
fn end_in_dot(tokens: &[Lexeme]) -> bool
    ensures yes { IsTrue result → (front : List Lexeme) × (tokens.now ≡ front ++ Lexeme.Dot ∷ []) }
    ensures no { result ≡ false → qualifier (reverse tokens.now) ≡ None }
{
    match tokens {
        [.., last] => matches!(last, Lexeme::Dot),
        [] => false,
    }
}

// Takes off the name that a dot goes on from, with its dot, where the tokens end so.
fn take_qualifier(
    alloc: Global,
    tokens: &mut Vec<Lexeme>,
) -> Result<Option<(Row<Text>, u32)>, Memory>
    ensures { IfOk result
        (λ q.
        MatchOption q
        ((qualifier (reverse tokens.old.items) ≡ None)
        × (tokens.new.items ≡ tokens.old.items))
        (λ q.
        qualifier (reverse tokens.old.items) ≡ Some (q.0, q.1, reverse tokens.new.items))) }
{
    if !end_in_dot(tokens.as_slice()) {
        return Ok(None);
    }
    tokens.pop();
    before_dot(alloc, tokens)
}

fn push_name(
    alloc: Global,
    tokens: &mut Vec<Lexeme>,
    name: Text,
    quoted: bool,
    line: u32,
) -> Result<(), Memory>
    ensures { OnOk result
        (reverse tokens.new.items
        ≡ with_name (qualifier (reverse tokens.old.items)) (reverse tokens.old.items) name
        quoted line) }
{
    match take_qualifier(alloc, tokens)? {
        None => tokens.push(Lexeme::Word(name, quoted, line))?,
        Some((mut parts, first)) => {
            if parts.len() == u32::MAX {
                return Err(Memory);
            }
            parts.push(name)?;
            tokens.push(Lexeme::Path(parts, first))?;
        }
    }
    Ok(())
}

// Puts a token that begins on a line behind the others.
fn push_token(
    alloc: Global,
    tokens: &mut Vec<Lexeme>,
    token: &Token,
    line: u32,
) -> Result<(), Memory>
    ensures { OnOk result
        (reverse tokens.new.items
        ≡ with_token (reverse tokens.old.items) token.now.kind
        (stands_for token.now.kind token.now.text.now) line) }
{
    let lexeme = match token.kind {
        Kind::Name => {
            let name = token_text(alloc, token)?;
            return push_name(alloc, tokens, name, false, line);
        }
        Kind::Quoted => {
            let name = token_text(alloc, token)?;
            return push_name(alloc, tokens, name, true, line);
        }
        Kind::Var => Lexeme::Var(token_text(alloc, token)?, line),
        Kind::Str => Lexeme::Str(token_text(alloc, token)?, line),
        Kind::Int(value) => Lexeme::Int(value, line),
        kind => mark(kind, line),
    };
    tokens.push(lexeme)?;
    Ok(())
}

// A token that has no text of its own.
fn mark(kind: Kind, line: u32) -> Lexeme
    ensures { IsMark kind → (done : List Lexeme) (w : List ℕ)
        → result ∷ done ≡ with_token done kind w line }
{
    match kind {
        Kind::Open => Lexeme::Open(line),
        Kind::OpenCt => Lexeme::OpenCt(line),
        Kind::Close => Lexeme::Close,
        Kind::ListOpen => Lexeme::ListOpen(line),
        Kind::ListClose => Lexeme::ListClose,
        Kind::Bar => Lexeme::Bar,
        Kind::Comma => Lexeme::Comma,
        _ => Lexeme::Dot,
    }
}

// Want of memory for the item that begins in a position: reading can begin there again.
pub fn want_of_memory(from: Position) -> ItemFault
    ensures kind { result.fault.kind ≡ ReadKind.Memory }
    ensures line { result.fault.line ≡ from.line }
    ensures next { result.fault.next ≡ from.at }
{
    let fault = ReadFault {
        kind: ReadKind::Memory,
        line: from.line,
        next: from.at,
    };
    ItemFault { fault, at: from.at }
}

// The line that is told of a faulty token: that of its item, where its form is left out, else its
// own.
fn token_line(kind: FaultKind, item: u32, own: u32) -> u32
    ensures { result ≡ Rattle.mc_terms.specs.Answers.token_line kind item own }
{
    match kind {
        FaultKind::LeftOut => item,
        _ => own,
    }
}

// The fault of a faulty token, that comes first from a position on, in an item that begins on a
// line.
pub fn faulty_token(walk: &mut Walk, from: Position, line: u32, fault: TokenFault) -> ItemFault
    requires order { from.at ≤ fault.at }
    requires within { fault.at < length walk.old }
    requires line { from.line ≡ line_at walk.old from.at }
    requires small { length walk.old < 2 ^ 32 - 1 }
    ensures kind { result.fault.kind ≡ ReadKind.Token fault.kind }
    ensures line { result.fault.line
        ≡ Rattle.mc_terms.specs.Answers.token_line fault.kind line (line_at walk.old fault.at) }
    ensures at { result.at ≡ fault.at }
    ensures passes { Passes walk.old (fault.at + 1) Kind.Eof result.fault.next }
    ensures within { (fault.at < result.fault.next) × (result.fault.next ≤ length walk.old) }
    ensures same { walk.new ≡ walk.old }
{
    let own = from.moved(walk.text(), fault.at).line;
    let at = fault.at;
    let fault = ReadFault {
        kind: ReadKind::Token(fault.kind),
        line: token_line(fault.kind, line, own),
        next: walk.item_end(fault.at + 1, &Kind::Eof),
    };
    ItemFault { fault, at }
}

// The tokens of the item that begins in a position, by its first token, which begins in another, up
// to its full stop or the text's end.
pub fn item_tokens<'a>(
    alloc: Global,
    walk: &mut Walk<'a>,
    from: Position,
    first: Token<'a>,
    begin: Position,
) -> Result<ItemTokens, ItemFault>
    requires within { from.at ≤ length walk.old }
    requires line { from.line ≡ line_at walk.old from.at }
    requires first { Tok first.kind first.start first.end ≡ lexed walk.old from.at Kind.Eof }
    requires bytes { first.text.now ≡ slice_range walk.old first.start first.end }
    requires order { InOrder walk.old from.at first }
    requires behind { from.at < first.end }
    requires begin { (begin.at ≡ first.start) × (begin.line ≡ line_at walk.old first.start) }
    requires small { length walk.old < 2 ^ 32 - 1 }
    ensures whole { IfOk result
        (λ item.
        item.cut_off ≡ false
        → AreItemTokens walk.old from.at item.tokens.items Kind.End item.end.at) }
    ensures cut_off { IfOk result
        (λ item.
        IsTrue item.cut_off
        → AreItemTokens walk.old from.at item.tokens.items Kind.Eof item.end.at) }
    ensures end { IfOk result
        (λ item.
        (item.end.line ≡ line_at walk.old item.end.at)
        × (from.at < item.end.at)
        × (item.end.at ≤ length walk.old)) }
    ensures fault { IfErr result (λ f. IsRefused walk.old from.at f.fault.kind f.fault.line f.fault.next) }
    ensures place { IfErr result (λ f. StandsAt walk.old from.at f.fault.kind f.at) }
    ensures onward { IfErr result (λ f. IsOnward walk.old from.at f.fault.kind f.fault.next) }
    ensures same { walk.new ≡ walk.old }
{
    let Ok(mut tokens) = Vec::with_capacity(alloc, FEW_TOKENS) else {
        return Err(want_of_memory(from));
    };
    let mut token = first;
    let mut place = begin;
    'item: loop {
        if token.kind.ends_item() {
            return Ok(ItemTokens {
                tokens,
                end: place.moved(walk.text(), token.end),
                cut_off: is_eof(token.kind),
            });
        }
        let Ok(()) = push_token(alloc, &mut tokens, &token, place.line) else {
            return Err(want_of_memory(from));
        };
        token = match walk.next(token.end, &token.kind) {
            Ok(next) => next,
            Err(fault) => return Err(faulty_token(walk, place, begin.line, fault)),
        };
        place = place.moved(walk.text(), token.start);
    }
}
