ghost use Rattle.std.specs.Prelude.{◌≡◌, ◌+◌, min, option_map};
ghost use Rattle.mc_program.specs.Values.{plain_value};
ghost use Rattle.mc_flat_code.specs.Running.{part_of, instr_at, variables_at, value_at, body_at};

use crate::code::{Body, Branch, Code, FlatProgram, Instr, Span};
use mc_program::value::Value;

/// A part without elements.
const NO_PART: Span = Span { start: 0, count: 0 };

impl Span {
    /// Where the part lies in a list of so many elements: where it starts and ends, as far as the list goes.
    fn range(self, length: usize) -> (usize, usize)
        ensures start { result.0 ≡ min self.start length }
        ensures end { result.1 ≡ min (self.start + self.count) length }
    {
        let start = self.start as usize;
        let end = start + self.count as usize;
        (start.min(length), end.min(length))
    }
}

impl Code {
    /// The goal in a place.
    pub fn goal(&self, place: u32) -> Option<Instr>
        ensures { result ≡ instr_at self.now place }
    {
        self.instrs.get(place as usize).copied()
    }

    /// The variables of a part.
    pub fn variables(&self, part: Span) -> &[u32]
        ensures { result.now ≡ variables_at self.now part }
    {
        let (start, end) = part.range(self.variables.len());
        &self.variables[start..end]
    }

    /// The branches of a part.
    pub fn branches(&self, part: Span) -> &[Branch]
        ensures { result.now ≡ part_of self.now.branches.items part }
    {
        let (start, end) = part.range(self.branches.len());
        &self.branches[start..end]
    }

    /// The value of a place among the values.
    pub fn value(&self, k: u32) -> Option<&Value>
        ensures { option_map (λ v. plain_value v.now) result ≡ value_at self.now k }
    {
        self.values.get(k as usize)
    }
}

impl FlatProgram {
    /// The code of a procedure, by its number; at a number that no procedure has, of one that does nothing.
    pub fn body(&self, number: u32) -> Body
        ensures { result ≡ body_at self.now number }
    {
        match self.bodies.get(number as usize) {
            Some(body) => *body,
            None => Body {
                entry: 0,
                head: NO_PART,
                first: NO_PART,
                last: NO_PART,
                size: 0,
            },
        }
    }
}
