ghost use Rattle.std.specs.Prelude.{◌≡◌, [], ◌∷◌, All, IfOk, OnErr, Some};
ghost use Rattle.mc_values.specs.Heap.{IsLive, height, value_at, values_at, Extends, StandsFor};
ghost use Rattle.mc_values.specs.Parts.{IsState, taken_of, with_written};
ghost use Rattle.mc_model.specs.Outcomes.{writes};
ghost use Rattle.mc_model.specs.Builtins.{outcome, char_list};
ghost use Rattle.mc_model.specs.Builtins.{Library as Known};
ghost use Rattle.mc_builtins.specs.Answers.{known, IsOf, Tells};
ghost use Rattle.mc_builtins.specs.code.Made.{made_outcome, written_text};

use crate::applied::Applied;
use crate::integers::of_integers;
use crate::kind::{Kind, kind_of};
use crate::library::Library;
use crate::made::Made;
use crate::texts::{decimal, encoded, of_character, of_integer, of_text, of_texts};
use mc_base::{Copied, Memory, Text};
use mc_model::builtin::Builtin;
use mc_print::value_text;
use mc_values::{Heap, Ref};
use std::alloc::Global;

/// What a builtin does at the values that these Refs stand for.
pub fn apply(
    alloc: Global,
    op: Builtin,
    args: &[Ref],
    heap: &mut Heap,
    library: &Library<'_>,
) -> Result<Applied, Memory>
    requires live { All (IsLive heap.old) args.now }
    requires values { All (IsOf library.now.program.now) (values_at heap.old args.now) }
    ensures tells { IfOk result (Tells heap.new
        (λ input. outcome (known library.now) input op (values_at heap.old args.now))) }
    ensures keeps { Extends heap.old heap.new }
    ensures err { OnErr result (height heap.new ≡ height heap.old) }
{
    let mark = heap.mark();
    let answer = answered(alloc, op, args, heap, library);
    if answer.is_err() {
        heap.release(mark);
    }
    answer
}

/// The answer of `apply`. After want of memory the heap may have grown.
fn answered(
    alloc: Global,
    op: Builtin,
    args: &[Ref],
    heap: &mut Heap,
    library: &Library<'_>,
) -> Result<Applied, Memory>
    requires live { All (IsLive heap.old) args.now }
    requires values { All (IsOf library.now.program.now) (values_at heap.old args.now) }
    ensures tells { IfOk result (Tells heap.new
        (λ input. outcome (known library.now) input op (values_at heap.old args.now))) }
    ensures keeps { Extends heap.old heap.new }
{
    match args {
        [] => Ok(Applied::Fails),
        [x] => at_one(alloc, op, *x, heap, library),
        [x, y] => at_two(alloc, op, *x, *y, heap, library),
        [_, _, _, ..] => Ok(Applied::Fails),
    }
}

/// What a builtin does at one input.
fn at_one(
    alloc: Global,
    op: Builtin,
    x: Ref,
    heap: &mut Heap,
    library: &Library<'_>,
) -> Result<Applied, Memory>
    requires live { IsLive heap.old x }
    requires value { IsOf library.now.program.now (value_at heap.old x) }
    ensures tells { IfOk result (Tells heap.new
        (λ input. outcome (known library.now) input op (value_at heap.old x ∷ []))) }
    ensures keeps { Extends heap.old heap.new }
{
    match kind_of(heap, x) {
        Kind::Int(a) => given(of_integer(alloc, op, a)?, heap, library),
        Kind::Char(c) => given(of_character(alloc, op, c)?, heap, library),
        Kind::Text(text) => given(of_text(alloc, op, text)?, heap, library),
        Kind::State(taken) => at_state(alloc, op, x, taken, heap),
        Kind::Con => Ok(Applied::Fails),
    }
}

/// What a builtin does at two inputs.
fn at_two(
    alloc: Global,
    op: Builtin,
    x: Ref,
    y: Ref,
    heap: &mut Heap,
    library: &Library<'_>,
) -> Result<Applied, Memory>
    requires left { IsLive heap.old x }
    requires right { IsLive heap.old y }
    requires value { IsOf library.now.program.now (value_at heap.old x) }
    ensures tells { IfOk result (Tells heap.new
        (λ input. outcome (known library.now) input op
        (value_at heap.old x ∷ value_at heap.old y ∷ []))) }
    ensures keeps { Extends heap.old heap.new }
{
    match kind_of(heap, y) {
        Kind::Int(b) => match heap.int_at(x) {
            Some(a) => given(of_integers(op, a, b), heap, library),
            None => Ok(Applied::Fails),
        },
        Kind::Text(t) => match heap.text_at(x) {
            Some(s) => given(of_texts(alloc, op, s, t)?, heap, library),
            None => Ok(Applied::Fails),
        },
        Kind::State(_) => written_at(alloc, op, x, y, heap, library),
        Kind::Char(_) => Ok(Applied::Fails),
        Kind::Con => Ok(Applied::Fails),
    }
}

/// What a builtin does at a state of io at which so many input bytes are taken.
fn at_state(
    alloc: Global,
    op: Builtin,
    state: Ref,
    taken: u64,
    heap: &mut Heap,
) -> Result<Applied, Memory>
    requires live { IsLive heap.old state }
    requires state { taken_of (value_at heap.old state) ≡ Some taken }
    ensures tells { IfOk result (λ answer. (library : Known) → Tells heap.new
        (λ input. outcome library input op (value_at heap.old state ∷ [])) answer) }
    ensures keeps { Extends heap.old heap.new }
{
    match op {
        Builtin::Nl => wrote(Text::new(alloc, b"\n")?, state, heap),
        Builtin::ReadLine => Ok(Applied::Reads(taken)),
        _ => Ok(Applied::Fails),
    }
}

/// What a builtin does at an input and a state of io.
fn written_at(
    alloc: Global,
    op: Builtin,
    x: Ref,
    state: Ref,
    heap: &mut Heap,
    library: &Library<'_>,
) -> Result<Applied, Memory>
    requires left { IsLive heap.old x }
    requires right { IsLive heap.old state }
    requires value { IsOf library.now.program.now (value_at heap.old x) }
    requires state { IsState (value_at heap.old state) }
    ensures tells { IfOk result (Tells heap.new
        (λ input. outcome (known library.now) input op
        (value_at heap.old x ∷ value_at heap.old state ∷ []))) }
    ensures keeps { Extends heap.old heap.new }
{
    match written(alloc, op, x, heap, library)? {
        Some(text) => wrote(text, state, heap),
        None => Ok(Applied::Fails),
    }
}

/// What a builtin writes of an input; None where it writes nothing of it.
fn written(
    alloc: Global,
    op: Builtin,
    x: Ref,
    heap: &Heap,
    library: &Library<'_>,
) -> Result<Option<Text>, Memory>
    requires live { IsLive heap.now x }
    requires value { IsOf library.now.program.now (value_at heap.now x) }
    ensures { IfOk result
        (λ text. text ≡ written_text (known library.now) op (value_at heap.now x)) }
{
    match op {
        Builtin::WriteString => match heap.text_at(x) {
            Some(text) => Ok(Some(text.copied(alloc)?)),
            None => Ok(None),
        },
        Builtin::WriteChar => match heap.char_at(x) {
            Some(c) => Ok(Some(encoded(alloc, c)?)),
            None => Ok(None),
        },
        Builtin::WriteInt => match heap.int_at(x) {
            Some(a) => Ok(Some(decimal(alloc, a)?)),
            None => Ok(None),
        },
        Builtin::Write => Ok(Some(value_text(alloc, heap, x, library.program)?)),
        _ => Ok(None),
    }
}

/// A text is written at a state of io.
fn wrote(text: Text, state: Ref, heap: &mut Heap) -> Result<Applied, Memory>
    requires live { IsLive heap.old state }
    requires state { IsState (value_at heap.old state) }
    ensures tells { IfOk result (Tells heap.new
        (λ input. writes text (with_written (value_at heap.old state) text ∷ []))) }
    ensures keeps { Extends heap.old heap.new }
{
    let after = heap.io_after(state, &text)?;
    Ok(Applied::Wrote(text, after))
}

/// What a builtin makes gets its place in the heap.
fn given(made: Made, heap: &mut Heap, library: &Library<'_>) -> Result<Applied, Memory>
    ensures tells { IfOk result
        (Tells heap.new (λ input. made_outcome (known library.now) made)) }
    ensures keeps { Extends heap.old heap.new }
{
    match made {
        Made::Fails => Ok(Applied::Fails),
        Made::Throws(exception) => Ok(Applied::Throws(exception)),
        Made::Succeeds => Ok(Applied::Gives(None)),
        Made::Int(a) => Ok(Applied::Gives(Some(heap.int(a)?))),
        Made::Char(c) => Ok(Applied::Gives(Some(heap.char(c)?))),
        Made::Text(text) => Ok(Applied::Gives(Some(heap.text(&text)?))),
        Made::Chars(chars) => Ok(Applied::Gives(Some(char_list(chars, heap, library)?))),
    }
}

/// A Ref of the list of these characters, which is made from its end.
fn char_list(mut chars: Vec<char>, heap: &mut Heap, library: &Library<'_>) -> Result<Ref, Memory>
    ensures list { IfOk result
        (λ r. StandsFor heap.new r (char_list (known library.now) chars.items)) }
    ensures keeps { Extends heap.old heap.new }
{
    let mut list = heap.con(library.nil, &[])?;
    while let Some(c) = chars.pop() {
        let head = heap.char(c)?;
        list = heap.con(library.cons, &[head, list])?;
    }
    Ok(list)
}
