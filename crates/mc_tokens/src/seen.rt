// What a walk over a text has found out.

// A run of decimal digits from a place to its end. From each place of the run before `large` the
// digits up to the end are known to spell a number above 2^63.
#[derive(Clone, Copy)]
pub struct Run {
    pub from: usize,
    pub end: usize,
    pub large: usize,
}

// The places from which no end of a comment, of single quotes and of double quotes follows, and the
// last run of digits.
#[derive(Clone, Copy)]
pub struct Seen {
    pub comment: Option<usize>,
    pub single: Option<usize>,
    pub double: Option<usize>,
    pub digits: Option<Run>,
}

impl Seen {
    ghost use Rattle.std.specs.Prelude.{List, ℕ};
    ghost use Rattle.mc_tokens.specs.code.Seen.{Holds};

    // Nothing found out yet.
    pub fn nothing() -> Seen
        ensures { (text : List ℕ) → Holds text result }
    {
        Seen {
            comment: None,
            single: None,
            double: None,
            digits: None,
        }
    }
}
