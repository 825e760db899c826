ghost use Rattle.std.specs.Prelude.{◌≡◌, ◌≤◌, ◌<◌, ◌^◌, ◌-◌, length};
ghost use Rattle.mc_terms.specs.Lines.{line_at};

/// A place in a text and its line, counted from 1.
#[derive(Clone, Copy, Debug, PartialEq, Eq)]
pub struct Position {
    pub at: usize,
    pub line: u32,
}

impl Position {
    /// The start of a text.
    pub const START: Position = Position { at: 0, line: 1 };

    /// The position of a later place. It takes no memory.
    pub fn moved(self, text: &[u8], to: usize) -> Position
        requires order { self.at ≤ to }
        requires within { to ≤ length text.now }
        requires line { self.line ≡ line_at text.now self.at }
        requires small { length text.now < 2 ^ 32 - 1 }
        ensures at { result.at ≡ to }
        ensures line { result.line ≡ line_at text.now to }
    {
        let mut line = self.line;
        for i in self.at..to {
            if text[i] == b'\n' {
                line += 1;
            }
        }
        Position { at: to, line }
    }
}
