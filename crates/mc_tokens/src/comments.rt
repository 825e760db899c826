// The walk over blanks and comments.
ghost use Rattle.std.specs.Prelude.{◌≡◌, ℕ, ◌+◌, ◌<◌, ◌≤◌, length, drop, IfOk, IfErr, is_some};
ghost use Rattle.mc_tokens.specs.Spots.{Line, Block, Between, layout};
ghost use Rattle.mc_tokens.specs.Answers.{Within, Placed};
ghost use Rattle.mc_tokens.specs.code.Walks.{spot, goes_on, comment_goes_on, HaltPlaced};
ghost use Rattle.mc_tokens.specs.code.Seen.{OpenComment};

use crate::chars::{byte_at, char_len};
use crate::classes::{Class, skip_class};
use crate::quoting::{Halt, no_text, unterminated};
use crate::token::{FaultKind, TokenFault};

// Passes the rest of a comment that ends with its line.
fn line_rest(text: &[u8], from: usize) -> Result<usize, TokenFault>
    requires { from ≤ length text.now }
    ensures value { layout Line from (drop from text.now) ≡ goes_on text.now result }
    ensures within { IfOk result (Within text.now from) }
    ensures placed { IfErr result (Placed text.now from) }
{
    let mut i = from;
    loop {
        i = skip_class(text, i, Class::Comment);
        if i == text.len() {
            return Ok(i);
        }
        if text[i] == b'\n' {
            return Ok(i + 1);
        }
        let len = char_len(text, i);
        if len == 0 {
            return Err(TokenFault {
                kind: FaultKind::NotUtf8,
                at: i,
            });
        }
        i += len;
    }
}

// Passes the rest of a comment that ends by a star and a slash.
fn block_rest(text: &[u8], from: usize) -> Result<usize, Halt>
    requires { from ≤ length text.now }
    ensures value { (start : ℕ)
        → layout (Block start) from (drop from text.now) ≡ comment_goes_on start text.now result }
    ensures within { IfOk result (Within text.now from) }
    ensures placed { IfErr result (HaltPlaced text.now from) }
{
    let mut i = from;
    loop {
        i = skip_class(text, i, Class::Comment);
        if i == text.len() {
            return Err(Halt::TextEnds);
        }
        if text[i] == b'*' && byte_at(text, i + 1) == b'/' {
            return Ok(i + 2);
        }
        let len = char_len(text, i);
        if len == 0 {
            return Err(no_text(i));
        }
        i += len;
    }
}

// Moves the place from which no */ follows on along the text, to the first character at or after
// `to`.
fn open_comment(text: &[u8], known: Option<usize>, to: usize) -> Option<usize>
    requires { OpenComment text.now known }
    ensures holds { OpenComment text.now result }
    ensures kept { is_some result ≡ is_some known }
{
    let mut i = known?;
    while i < to && i < text.len() {
        if text[i] == b'*' && byte_at(text, i + 1) == b'/' {
            break;
        }
        let len = char_len(text, i);
        if len == 0 {
            break;
        }
        i += len;
    }
    Some(i)
}

// Passes a comment that began at start with a slash and a star; known is the place, if any, from
// which no end is known to follow.
fn comment_rest(text: &[u8], start: usize, known: &mut Option<usize>) -> Result<usize, TokenFault>
    requires inside { start + 1 < length text.now }
    requires known { OpenComment text.now known.old }
    ensures value { layout (Block start) (start + 2) (drop (start + 2) text.now) ≡ goes_on text.now result }
    ensures within { IfOk result (Within text.now (start + 2)) }
    ensures placed { IfErr result (Placed text.now start) }
    ensures known { OpenComment text.now known.new }
{
    let from = start + 2;
    *known = open_comment(text, *known, from);
    if *known == Some(from) {
        return Err(unterminated(start));
    }
    match block_rest(text, from) {
        Ok(i) => Ok(i),
        Err(Halt::TextEnds) => {
            *known = Some(from);
            Err(unterminated(start))
        }
        Err(Halt::Bad(fault)) => Err(fault),
    }
}

// Passes blanks and comments.
pub fn layout_rest(text: &[u8], from: usize, known: &mut Option<usize>) -> Result<usize, TokenFault>
    requires inside { from ≤ length text.now }
    requires known { OpenComment text.now known.old }
    ensures value { layout Between from (drop from text.now) ≡ spot result }
    ensures within { IfOk result (Within text.now from) }
    ensures placed { IfErr result (Placed text.now from) }
    ensures known { OpenComment text.now known.new }
{
    let mut i = from;
    loop {
        i = skip_class(text, i, Class::Blank);
        let b = byte_at(text, i);
        if b == b'%' {
            i = line_rest(text, i + 1)?;
        } else if b == b'/' && byte_at(text, i + 1) == b'*' {
            i = comment_rest(text, i, known)?;
        } else {
            return Ok(i);
        }
    }
}
