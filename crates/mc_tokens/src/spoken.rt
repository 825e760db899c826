// What tokens stand for.
ghost use Rattle.std.specs.Prelude.{◌≡◌, ◌<◌, ◌++◌, IfOk, OnOk, drop};
ghost use Rattle.mc_tokens.specs.Spots.{Plain};
ghost use Rattle.mc_tokens.specs.Contents.{contents, stands_for};
ghost use Rattle.mc_tokens.specs.code.Walks.{escape_bytes};
ghost use Rattle.mc_tokens.specs.Answers.{IsUtf8Text};

use crate::chars::{byte_at, char_len};
use crate::quoting::escape_at;
use crate::token::{Kind, Token};
use mc_base::{Memory, Text};
use std::alloc::Global;

// Puts what an escape says at the end of a text.
fn push_said(text: &mut Text, says: Option<char>) -> Result<(), Memory>
    ensures { OnOk result (text.new ≡ text.old ++ escape_bytes says) }
{
    let Some(c) = says else {
        return Ok(());
    };
    let mut buffer = [0; 4];
    text.extend(c.encode_utf8(&mut buffer).as_bytes())
}

// What the quotes of a token with these bytes say.
fn spoken(alloc: Global, bytes: &[u8], quote: u8) -> Result<Text, Memory>
    requires { 0 < quote }
    ensures { IfOk result (λ text. text ≡ contents quote Plain 0 (drop 1 bytes.now)) }
{
    let mut text = Text::empty(alloc);
    let mut i = 1;
    while i < bytes.len() {
        let b = bytes[i];
        if b == quote {
            if byte_at(bytes, i + 1) != quote {
                return Ok(text);
            }
            text.push(quote)?;
            i += 2;
        } else if b == b'\\' {
            let Ok(escape) = escape_at(bytes, i) else {
                return Ok(text);
            };
            push_said(&mut text, escape.says)?;
            i = escape.next;
        } else {
            let len = char_len(bytes, i);
            if len == 0 {
                return Ok(text);
            }
            text.extend(&bytes[i..i + len])?;
            i += len;
        }
    }
    Ok(text)
}

/// The bytes that a name, a quoted name, a variable or a string stands for: those of the token, and
/// in quotes each escape as its character in UTF-8, a doubled quote as one quote, and a backslash
/// before a line end as nothing. Of any other token the answer is its own bytes.
///
/// # Errors
///
/// Want of memory.
pub fn token_text(alloc: Global, token: &Token) -> Result<Text, Memory>
    ensures value { IfOk result (λ text. text ≡ stands_for token.now.kind token.now.text.now) }
    ensures utf8 { IfOk result (IsUtf8Text token.now.kind token.now.text.now) }
{
    match token.kind {
        Kind::Quoted => spoken(alloc, token.text, b'\''),
        Kind::Str => spoken(alloc, token.text, b'"'),
        _ => Text::new(alloc, token.text),
    }
}
