// A walk over a text that remembers what it has found out.
ghost use Rattle.std.specs.Prelude.{◌≡◌, ◌≤◌, length, IfOk, IfErr, slice_range};
ghost use Rattle.mc_tokens.specs.Tokens.{lexed};
ghost use Rattle.mc_tokens.specs.Answers.{Placed, Within, answer, InOrder, NotEmpty, AsciiName};
ghost use Rattle.mc_tokens.specs.Items.{Passes};
ghost use Rattle.mc_tokens.specs.code.Seen.{Holds};

use crate::next::next_seen;
use crate::seen::Seen;
use crate::token::{Kind, Token, TokenFault};
use std::marker::Model;

/// A text that is walked token by token, which contracts see as its bytes. It answers what
/// [`next_token`] answers, and remembers what it found out past a fault.
#[derive(Drop)]
pub struct Walk<'a> {
    text: &'a [u8],
    seen: Seen,
}

impl<'a> Model for Walk<'a> {
    ghost use Rattle.std.specs.Prelude.{List, ℕ};

    ghost Value = { List ℕ };

    ghost use Rattle.mc_tokens.specs.code.Seen.{Holds};

    ghost view = { λ w. w.text.now };

    ghost invariant = { λ w. Holds w.text.now w.seen };
}

impl<'a> Walk<'a> {
    /// A walk over a text, of which nothing is known yet.
    pub fn new(text: &'a [u8]) -> Walk<'a>
        ensures { result ≡ text.now }
    {
        Walk {
            text,
            seen: Seen::nothing(),
        }
    }

    /// The text.
    pub fn text(&self) -> &'a [u8]
        ensures { result.now ≡ self.now }
    {
        self.text
    }

    /// The next token from a place on, as `next_token` answers it. Takes no memory.
    ///
    /// # Errors
    ///
    /// As `next_token`'s.
    pub fn next(&mut self, at: usize, after: &Kind) -> Result<Token<'a>, TokenFault>
        requires { at ≤ length self.old }
        ensures value { answer result ≡ lexed self.old at after.now }
        ensures text { IfOk result (λ t. t.text.now ≡ slice_range self.old t.start t.end) }
        ensures order { IfOk result (InOrder self.old at) }
        ensures nonempty { IfOk result (λ t. NotEmpty t.kind t.start t.end) }
        ensures ascii { IfOk result (λ t. AsciiName t.kind t.text.now) }
        ensures placed { IfErr result (Placed self.old at) }
        ensures same { self.new ≡ self.old }
    {
        next_seen(self.text, at, *after, &mut self.seen)
    }

    /// The place after the item's end: after the next `End` token, or the text's length where none
    /// follows. After each fault the walk goes on at the byte after its place, where no token ends.
    /// Takes no memory.
    pub fn item_end(&mut self, at: usize, after: &Kind) -> usize
        requires { at ≤ length self.old }
        ensures passes { Passes self.old at after.now result }
        ensures within { Within self.old at result }
        ensures same { self.new ≡ self.old }
    {
        pass_item(self.text, at, *after, &mut self.seen)
    }
}

// The place after an item's end, past faults.
fn pass_item(text: &[u8], at: usize, after: Kind, seen: &mut Seen) -> usize
    requires inside { at ≤ length text.now }
    requires seen { Holds text.now seen.old }
    ensures passes { Passes text.now at after result }
    ensures within { Within text.now at result }
    ensures seen { Holds text.now seen.new }
{
    let mut place = at;
    let mut before = after;
    loop {
        match next_seen(text, place, before, seen) {
            Ok(token) => {
                place = token.end;
                before = token.kind;
                if before.ends_item() {
                    return place;
                }
            }
            Err(fault) => {
                place = fault.at + 1;
                before = Kind::Eof;
            }
        }
    }
}
