//! The tokens of a text: names, variables, integers, strings, brackets and full stops.
//!
//! [`next_token`] answers the token that follows a place, or the first fault that the walk to it
//! meets. A reader that goes on past a fault begins again at the byte after the fault's place, and
//! there much of the text may have to be looked at again: after a quote that never ends the next
//! token may be a quote that never ends either. [`Walk`] answers the same and keeps the walk over a
//! whole text linear in its length. For each kind of fault:
//!
//! - `BadChar` of a byte, `LeftOut` of a bracket, a brace, a backquote or the tail of an integer:
//!   nothing after the place was looked at but a byte or two.
//! - `BadChar` of an escape stands at its backslash, and its digits may be many. After the
//!   backslash they are the tail of a name, which is one token, or a run of digits (below).
//! - `NotUtf8` stands at the bytes themselves, so nothing after the place was looked at.
//! - `Unterminated` of a comment looked at the text up to its end. The walk keeps a place from
//!   which no end of a comment follows. A later comment lies after it, and so never ends: the place
//!   moves on, one character after another, to where that comment begins, and never back.
//! - `Unterminated` of quotes is kept in the same way, once for single and once for double quotes.
//!   The place moves on from character to character as the walk inside the first quotes does. Where
//!   it comes to stand right inside later quotes, they never end. Otherwise they begin with the
//!   first of two quotes that were a doubled one, and end within that run of quotes, as the token
//!   that they then are.
//! - `IntTooLarge` and `LeftOut` of a float stand at the first digit of a run, and the next token
//!   begins at the next digit of it. The walk keeps the run's end, and a place in it up to which
//!   the numbers are known to be too large: beyond that, about twenty digits tell.
#![tactic(auto)]

mod begins;
mod chars;
mod classes;
mod comments;
mod digits;
mod next;
mod numbers;
mod quoting;
mod seen;
mod spoken;
mod token;
mod walker;

pub use classes::{Class, skip_class};
pub use next::next_token;
pub use spoken::token_text;
pub use token::{FaultKind, Kind, Token, TokenFault};
pub use walker::Walk;
