ghost use Rattle.std.specs.Prelude.{◌≡◌, ℕ, ◌<◌, ◌≤◌, ◌+◌, ◌^◌, ◌++◌, ◌∷◌, [], ◌↔◌, IsTrue, IfOk, IfSome, OnErr, All, length, slice_index_or, option_copied};
ghost use Rattle.std.specs.Option.{ForSome};
ghost use Rattle.mc_program.specs.Values.{plain_value, int, char, str, con, state, vals};
ghost use Rattle.mc_values.specs.Heap.{MarksRise};
ghost use Rattle.mc_values.specs.Parts.{int_of, char_of, text_of, symbol_of, arguments, taken_of, IsState, with_written, with_taken};

use crate::cell::{Args, Cell, State};
use crate::part::Part;
use mc_base::{Copied, Memory, Row, Text};
use mc_program::value::Value;
use std::alloc::Global;
use std::marker::Model;

/// The number that names a value in a heap.
pub type Ref = usize;

/// A height of a heap, to which it can be released.
pub type Mark = usize;

/// Values, each named by a Ref.
#[derive(Drop)]
pub struct Heap {
    alloc: Global,
    cells: Vec<Cell>,
}

impl Model for Heap {
    ghost use Rattle.std.specs.Prelude.{List};
    ghost use Rattle.mc_program.specs.declared.value.Value.{Value as Owned};
    ghost use Rattle.mc_values.specs.code.Cells.{held_in, AreCells};

    ghost Value = { List Owned };

    ghost use Rattle.mc_program.specs.contracts.value.Value as owned;
    ghost use Rattle.std.specs.Coded.{coded_list};

    ghost coded = { coded_list owned.the_row.coded };

    ghost view = { λ h. held_in h.cells.items };

    ghost invariant = { λ h. AreCells h.cells.items };
}

/// What is below a mark is below a higher one.
pub fn marks_rise()
    ensures { MarksRise }
{}

impl Heap {
    ghost use Rattle.mc_values.specs.code.Cells.{named_of, plain_of, written_in, written_before};
    ghost use Rattle.mc_values.specs.code.Walks.{size, top_of, AreLivePairs, IsSplit, ArePut, joined, filled, AreLiveParts, parts_size};
    ghost use Rattle.mc_values.specs.Heap.{height, IsLive, IsBelow, value_at, values_at, StandsFor, Extends, KeepsBelow};

    /// The heap with no cells, which takes no room yet.
    pub fn new(alloc: Global) -> Heap
        ensures { height result ≡ 0 }
    {
        Heap {
            alloc,
            cells: Vec::new(alloc),
        }
    }

    /// A Ref of an integer.
    pub fn int(&mut self, i: i64) -> Result<Ref, Memory>
        ensures ok { IfOk result (λ r. StandsFor self.new r (int i)) }
        ensures keeps { Extends self.old self.new }
        ensures err { OnErr result (self.new ≡ self.old) }
    {
        self.push(Cell::Int(i))
    }

    /// A Ref of a character.
    pub fn char(&mut self, c: char) -> Result<Ref, Memory>
        ensures ok { IfOk result (λ r. StandsFor self.new r (char c)) }
        ensures keeps { Extends self.old self.new }
        ensures err { OnErr result (self.new ≡ self.old) }
    {
        self.push(Cell::Char(c))
    }

    /// A Ref of a string of these bytes.
    pub fn text(&mut self, t: &Text) -> Result<Ref, Memory>
        ensures ok { IfOk result (λ r. StandsFor self.new r (str t.now)) }
        ensures keeps { Extends self.old self.new }
        ensures err { OnErr result (self.new ≡ self.old) }
    {
        let bytes = t.copied(self.alloc)?;
        self.push(Cell::Text(bytes))
    }

    /// A Ref of the state of io in which these bytes are written and so many input bytes are taken.
    pub fn io(&mut self, written: &Text, taken: u64) -> Result<Ref, Memory>
        ensures ok { IfOk result (λ r. StandsFor self.new r (state written.now taken)) }
        ensures keeps { Extends self.old self.new }
        ensures err { OnErr result (self.new ≡ self.old) }
    {
        let bytes = written.copied(self.alloc)?;
        self.push_state(None, bytes, taken)
    }

    /// A Ref of a state of io in which these bytes are written after those of an earlier one.
    pub fn io_after(&mut self, before: Ref, added: &Text) -> Result<Ref, Memory>
        requires live { IsLive self.old before }
        requires state { IsState (value_at self.old before) }
        ensures ok { IfOk result
            (λ r. StandsFor self.new r (with_written (value_at self.old before) added.now)) }
        ensures keeps { Extends self.old self.new }
        ensures err { OnErr result (self.new ≡ self.old) }
    {
        match self.taken_at(before) {
            Some(taken) => {
                let added = added.copied(self.alloc)?;
                self.push_state(Some(before), added, taken)
            }
            None => unreachable!(),
        }
    }

    /// A Ref of a state of io in which so many more input bytes are taken than in an earlier one.
    pub fn io_took(&mut self, before: Ref, more: u64) -> Result<Ref, Memory>
        requires live { IsLive self.old before }
        requires state { IsState (value_at self.old before) }
        requires fits { ForSome (taken_of (value_at self.old before))
            (λ taken. taken + more < 2 ^ 64) }
        ensures ok { IfOk result
            (λ r. StandsFor self.new r (with_taken (value_at self.old before) more)) }
        ensures keeps { Extends self.old self.new }
        ensures err { OnErr result (self.new ≡ self.old) }
    {
        match self.taken_at(before) {
            Some(taken) => {
                let nothing = Text::empty(self.alloc);
                self.push_state(Some(before), nothing, taken + more)
            }
            None => unreachable!(),
        }
    }

    /// A Ref of a constructor over the values that these Refs stand for. 2^32 or more of them find no room.
    pub fn con(&mut self, symbol: u32, args: &[Ref]) -> Result<Ref, Memory>
        requires { All (IsLive self.old) args.now }
        ensures ok { IfOk result
            (λ r. StandsFor self.new r (con symbol (vals (values_at self.old args.now)))) }
        ensures keeps { Extends self.old self.new }
        ensures err { OnErr result (self.new ≡ self.old) }
    {
        let args = Args::new(self.alloc, args)?;
        self.push(Cell::Con(symbol, args))
    }

    /// The integer that a Ref stands for; None exactly where it stands for another kind of value.
    pub fn int_at(&self, r: Ref) -> Option<i64>
        requires { IsLive self.now r }
        ensures { result ≡ int_of (value_at self.now r) }
    {
        match self.cell(r) {
            Cell::Int(i) => Some(*i),
            _ => None,
        }
    }

    /// The character that a Ref stands for; None exactly where it stands for another kind of value.
    pub fn char_at(&self, r: Ref) -> Option<char>
        requires { IsLive self.now r }
        ensures { result ≡ char_of (value_at self.now r) }
    {
        match self.cell(r) {
            Cell::Char(c) => Some(*c),
            _ => None,
        }
    }

    /// The string that a Ref stands for; None exactly where it stands for another kind of value.
    pub fn text_at(&self, r: Ref) -> Option<&Text>
        requires { IsLive self.now r }
        ensures { option_copied result ≡ text_of (value_at self.now r) }
    {
        match self.cell(r) {
            Cell::Text(text) => Some(text),
            _ => None,
        }
    }

    /// The number of input bytes taken at a state of io; None exactly where the Ref stands for another kind of value.
    pub fn taken_at(&self, r: Ref) -> Option<u64>
        requires { IsLive self.now r }
        ensures { result ≡ taken_of (value_at self.now r) }
    {
        match self.cell(r) {
            Cell::Io(state) => Some(state.taken),
            _ => None,
        }
    }

    /// The constructor at the top of a value; None exactly where the Ref stands for another kind of value.
    pub fn top_symbol(&self, r: Ref) -> Option<u32>
        requires { IsLive self.now r }
        ensures { result ≡ symbol_of (value_at self.now r) }
    {
        match self.cell(r) {
            Cell::Con(symbol, _) => Some(*symbol),
            _ => None,
        }
    }

    /// The Refs of the arguments of the constructor that a Ref stands for; any other value has none.
    pub fn args(&self, r: Ref) -> &[Ref]
        requires { IsLive self.now r }
        ensures values { values_at self.now result.now ≡ arguments (value_at self.now r) }
        ensures live { All (IsLive self.now) result.now }
        ensures below { (mark : ℕ) → IsBelow mark r → All (IsBelow mark) result.now }
        ensures small { length result.now < 2 ^ 32 }
    {
        self.cell(r).args()
    }

    /// A Ref of argument `k`, counted from 0, of the constructor that a Ref stands for.
    pub fn arg(&self, r: Ref, k: u32) -> Ref
        requires live { IsLive self.now r }
        requires within { k < length (arguments (value_at self.now r)) }
        ensures value { StandsFor self.now result
            (slice_index_or (arguments (value_at self.now r)) k (value_at self.now result)) }
        ensures below { (mark : ℕ) → IsBelow mark r → IsBelow mark result }
    {
        self.args(r)[k as usize]
    }

    /// The value that a Ref stands for, as a copy of its own.
    pub fn value(&self, r: Ref) -> Result<Value, Memory>
        requires { IsLive self.now r }
        ensures { IfOk result (λ v. plain_value v ≡ value_at self.now r) }
    {
        let mut parts = Vec::new(self.alloc);
        let mut copy = self.copied_down(r, &mut parts)?;
        while let Some(part) = parts.pop() {
            copy = self.copied_next(part, copy, &mut parts)?;
        }
        Ok(copy)
    }

    /// Whether two Refs stand for equal values.
    pub fn equal(&self, a: Ref, b: Ref) -> Result<bool, Memory>
        requires left { IsLive self.now a }
        requires right { IsLive self.now b }
        ensures { IfOk result (λ same. IsTrue same ↔ (value_at self.now a ≡ value_at self.now b)) }
    {
        let mut pairs = Vec::new(self.alloc);
        let mut left = a;
        let mut right = b;
        loop {
            if !self.same_tops(left, right, &mut pairs)? {
                return Ok(false);
            }
            match pairs.pop() {
                Some((l, r)) => {
                    left = l;
                    right = r;
                }
                None => return Ok(true),
            }
        }
    }

    /// The height, to which the heap can be released later.
    pub fn mark(&self) -> Mark
        ensures height { result ≡ height self.now }
        ensures below { (r : ℕ) → IsLive self.now r → IsBelow result r }
    {
        self.cells.len()
    }

    /// Gives up the cells above a mark.
    pub fn release(&mut self, m: Mark)
        requires { m ≤ height self.old }
        ensures height { height self.new ≡ m }
        ensures keeps { KeepsBelow m self.old self.new }
    {
        self.cells.truncate(m);
    }

    fn cell(&self, r: Ref) -> &Cell
        requires { IsLive self.now r }
        ensures value { value_at self.now r ≡ plain_of (value_at self.now) result.now }
        ensures below { All (λ a. a < r) (named_of result.now) }
    {
        &self.cells[r]
    }

    fn push(&mut self, cell: Cell) -> Result<Ref, Memory>
        requires { All (IsLive self.old) (named_of cell) }
        ensures ok { IfOk result (λ r. StandsFor self.new r (plain_of (value_at self.old) cell)) }
        ensures keeps { Extends self.old self.new }
        ensures err { OnErr result (self.new ≡ self.old) }
    {
        let r = self.cells.len();
        self.cells.push(cell)?;
        Ok(r)
    }

    fn push_state(&mut self, before: Option<Ref>, added: Text, taken: u64) -> Result<Ref, Memory>
        requires { IfSome before (IsLive self.old) }
        ensures ok { IfOk result (λ r. StandsFor self.new r
            (state (written_before (value_at self.old) before ++ added) taken)) }
        ensures keeps { Extends self.old self.new }
        ensures err { OnErr result (self.new ≡ self.old) }
    {
        let state = State {
            before,
            added,
            taken,
        };
        let state = Box::new(self.alloc, state)?;
        self.push(Cell::Io(state))
    }

    /// The bytes written at a state of io; of another value there are none.
    fn written_at(&self, r: Ref) -> Result<Text, Memory>
        requires { IsLive self.now r }
        ensures { IfOk result (λ text. text ≡ written_in (value_at self.now r)) }
    {
        let mut pieces = self.pieces_at(r)?;
        let mut text = Text::empty(self.alloc);
        while let Some(piece) = pieces.pop() {
            text.extend(piece.bytes())?;
        }
        Ok(text)
    }

    /// The bytes written at a state of io as pieces, the last one first.
    fn pieces_at(&self, r: Ref) -> Result<Vec<&Text>, Memory>
        requires { IsLive self.now r }
        ensures { IfOk result
            (λ pieces. joined pieces.items ≡ written_in (value_at self.now r)) }
    {
        let mut pieces = Vec::new(self.alloc);
        let mut state = Some(r);
        while let Some(at) = state {
            match self.cell(at) {
                Cell::Io(found) => {
                    pieces.push(&found.added)?;
                    state = found.before;
                }
                _ => state = None,
            }
        }
        Ok(pieces)
    }

    /// Begins to copy a value: the constructors on the way down its first arguments are left open, and the copy of what
    /// stands at their end is answered.
    fn copied_down<'h>(&'h self, r: Ref, parts: &mut Vec<Part<'h>>) -> Result<Value, Memory>
        requires live { IsLive self.now r }
        requires rest { AreLiveParts self.now parts.old.items }
        ensures copied { IfOk result (λ v. filled self.now parts.new.items (plain_value v)
            ≡ filled self.now parts.old.items (value_at self.now r)) }
        ensures rest { IfOk result (λ v. AreLiveParts self.now parts.new.items) }
        ensures less { IfOk result (λ v. parts_size self.now parts.new.items + 1
            ≡ parts_size self.now parts.old.items + size (value_at self.now r)) }
    {
        let mut at = r;
        loop {
            match self.cell(at) {
                Cell::Int(i) => return Ok(Value::Int(*i)),
                Cell::Char(c) => return Ok(Value::Char(*c)),
                Cell::Text(text) => return Ok(Value::Str(text.copied(self.alloc)?)),
                Cell::Io(state) => return Ok(Value::Io(self.written_at(at)?, state.taken)),
                Cell::Con(symbol, args) => match args.refs() {
                    [] => return Ok(Value::Con(*symbol, Row::new(self.alloc))),
                    [first, rest @ ..] => {
                        parts.push(Part {
                            symbol: *symbol,
                            done: Row::new(self.alloc),
                            rest,
                        })?;
                        at = *first;
                    }
                },
            }
        }
    }

    /// Goes on with an open constructor, whose argument at hand is copied now: to its next argument, or to the whole of
    /// it.
    fn copied_next<'h>(
        &'h self,
        part: Part<'h>,
        copy: Value,
        parts: &mut Vec<Part<'h>>,
    ) -> Result<Value, Memory>
        requires part { All (IsLive self.now) part.rest.now }
        requires rest { AreLiveParts self.now parts.old.items }
        ensures copied { IfOk result (λ v. filled self.now parts.new.items (plain_value v)
            ≡ filled self.now (parts.old.items ++ part.entry ∷ []) (plain_value copy)) }
        ensures rest { IfOk result (λ v. AreLiveParts self.now parts.new.items) }
        ensures less { IfOk result (λ v. parts_size self.now parts.new.items
            < parts_size self.now (parts.old.items ++ part.entry ∷ [])) }
    {
        let Part {
            symbol,
            mut done,
            rest,
        } = part;
        done.push(copy)?;
        match rest {
            [] => Ok(Value::Con(symbol, done)),
            [next, rest @ ..] => {
                parts.push(Part { symbol, done, rest })?;
                self.copied_down(*next, parts)
            }
        }
    }

    /// Whether two values are equal but for their arguments, whose pairs are put on top of the others.
    fn same_tops(&self, a: Ref, b: Ref, pairs: &mut Vec<(Ref, Ref)>) -> Result<bool, Memory>
        requires left { IsLive self.now a }
        requires right { IsLive self.now b }
        requires pairs { AreLivePairs self.now pairs.old.items }
        ensures { IfOk result
            (λ same. IsSplit self.now a b pairs.old.items same pairs.new.items) }
    {
        if a == b {
            return Ok(true);
        }
        if !self.same_top(a, b)? {
            return Ok(false);
        }
        Heap::put_pairs(self.args(a), self.args(b), pairs)
    }

    /// Whether two values are equal but for their arguments.
    fn same_top(&self, a: Ref, b: Ref) -> Result<bool, Memory>
        requires left { IsLive self.now a }
        requires right { IsLive self.now b }
        ensures { IfOk result (λ same. IsTrue same
            ↔ (top_of (value_at self.now a) ≡ top_of (value_at self.now b))) }
    {
        match self.cell(a) {
            Cell::Int(m) => match self.int_at(b) {
                Some(n) => Ok(*m == n),
                None => Ok(false),
            },
            Cell::Char(c) => match self.char_at(b) {
                Some(d) => Ok(*c == d),
                None => Ok(false),
            },
            Cell::Text(s) => match self.text_at(b) {
                Some(t) => Ok(s.same(t)),
                None => Ok(false),
            },
            Cell::Io(state) => match self.taken_at(b) {
                Some(n) => {
                    let same = self.written_at(a)?.same(&self.written_at(b)?);
                    Ok(state.taken == n && same)
                }
                None => Ok(false),
            },
            Cell::Con(symbol, _) => match self.top_symbol(b) {
                Some(top) => Ok(*symbol == top),
                None => Ok(false),
            },
        }
    }

    /// Puts the pairs of the elements of two rows on top of others, the first pair topmost. Answers whether the rows are
    /// of one length; where they aren't, nothing is put.
    fn put_pairs(left: &[Ref], right: &[Ref], pairs: &mut Vec<(Ref, Ref)>) -> Result<bool, Memory>
        ensures { IfOk result
            (λ put. ArePut left.now right.now pairs.old.items put pairs.new.items) }
    {
        if left.len() != right.len() {
            return Ok(false);
        }
        let mut k = left.len();
        while k > 0 {
            k -= 1;
            pairs.push((left[k], right[k]))?;
        }
        Ok(true)
    }
}
