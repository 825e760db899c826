ghost use Rattle.std.specs.Prelude.{◌≡◌, ◌≤◌, ℕ, List, [], ◌∷◌, drop, length, ◌↔◌, IsTrue, IfOk, OnErr};
ghost use Rattle.std.specs.Str.{IsUtf8};
ghost use Rattle.mc_program.specs.Values.{state};
ghost use Rattle.mc_values.specs.Heap.{IsLive, height, value_at, Extends, StandsFor};
ghost use Rattle.mc_values.specs.Parts.{IsState, with_taken};
ghost use Rattle.mc_model.specs.Builtins.{outcome, read_from, line_outcome, line_limit};
ghost use Rattle.mc_builtins.specs.Answers.{known};
ghost use Rattle.mc_builtins.specs.Reading.{IsNext, TellsRead, GivesResult};

use crate::library::Library;
use mc_base::{Memory, Text};
use mc_model::builtin::Builtin;
use mc_model::run::{Exception, Input};
use mc_values::{Heap, Ref};
use std::alloc::Global;

/// What a builtin that reads does where it is fed what comes next in the input: it gives what was read and the state of
/// io after it, or throws.
#[derive(Drop)]
pub enum ReadResult {
    Gives(Ref, Ref),
    Throws(Exception),
}

/// What `read_line_as_string` does at a state of io where it is fed what comes next in the input. More than 2^64 - 1
/// bytes of it find no room in a state.
pub fn read_line(
    alloc: Global,
    fed: &Input,
    before: Ref,
    heap: &mut Heap,
    library: &Library<'_>,
) -> Result<ReadResult, Memory>
    requires live { IsLive heap.old before }
    requires state { IsState (value_at heap.old before) }
    ensures tells { IfOk result (λ got. (input written : List ℕ) (taken : ℕ)
        → value_at heap.old before ≡ state written taken
        → IsNext (drop taken input) fed.now
        → TellsRead heap.new taken
        (outcome (known library.now) input Builtin.ReadLine (value_at heap.old before ∷ []))
        got) }
    ensures gives { IfOk result (GivesResult (known library.now) heap.new) }
    ensures keeps { Extends heap.old heap.new }
    ensures err { OnErr result (height heap.new ≡ height heap.old) }
{
    let mark = heap.mark();
    let answer = answered(alloc, fed, before, heap, library);
    if answer.is_err() {
        heap.release(mark);
    }
    answer
}

/// The answer of `read_line`. After want of memory the heap may have grown.
fn answered(
    alloc: Global,
    fed: &Input,
    before: Ref,
    heap: &mut Heap,
    library: &Library<'_>,
) -> Result<ReadResult, Memory>
    requires live { IsLive heap.old before }
    requires state { IsState (value_at heap.old before) }
    ensures tells { IfOk result (λ got. (input written : List ℕ) (taken : ℕ)
        → value_at heap.old before ≡ state written taken
        → IsNext (drop taken input) fed.now
        → TellsRead heap.new taken
        (outcome (known library.now) input Builtin.ReadLine (value_at heap.old before ∷ []))
        got) }
    ensures gives { IfOk result (GivesResult (known library.now) heap.new) }
    ensures keeps { Extends heap.old heap.new }
{
    match fed {
        Input::Line(line) => {
            let answer = line_got(alloc, line, before, heap, library)?;
            Ok(answer)
        }
        Input::End => {
            let answer = end_got(before, heap, library)?;
            Ok(answer)
        }
        Input::TooLong => {
            let answer = thrown(alloc, b"input line is too long")?;
            Ok(answer)
        }
    }
}

/// What a line that comes next gives: it is taken where it is text.
fn line_got(
    alloc: Global,
    line: &Text,
    before: Ref,
    heap: &mut Heap,
    library: &Library<'_>,
) -> Result<ReadResult, Memory>
    requires live { IsLive heap.old before }
    requires state { IsState (value_at heap.old before) }
    ensures tells { IfOk result (λ got. (written : List ℕ) (taken : ℕ)
        → value_at heap.old before ≡ state written taken
        → length line.now ≤ line_limit
        → TellsRead heap.new taken
        (line_outcome (known library.now) line_limit taken written line.now) got) }
    ensures gives { IfOk result (GivesResult (known library.now) heap.new) }
    ensures keeps { Extends heap.old heap.new }
{
    if !is_text(line.bytes()) {
        let answer = thrown(alloc, b"input is not UTF-8")?;
        return Ok(answer);
    }
    let text = heap.text(line)?;
    let read = heap.con(library.ok, &[text])?;
    let after = taken_more(before, u64::from(line.len()), heap)?;
    Ok(ReadResult::Gives(read, after))
}

/// Whether bytes are UTF-8.
fn is_text(bytes: &[u8]) -> bool
    ensures { IsTrue result ↔ IsUtf8 bytes.now }
{
    str::from_utf8(bytes).is_ok()
}

/// The state of io after more input bytes are taken.
fn taken_more(before: Ref, more: u64, heap: &mut Heap) -> Result<Ref, Memory>
    requires live { IsLive heap.old before }
    requires state { IsState (value_at heap.old before) }
    ensures ok { IfOk result
        (λ r. StandsFor heap.new r (with_taken (value_at heap.old before) more)) }
    ensures keeps { Extends heap.old heap.new }
{
    match heap.taken_at(before) {
        Some(taken) if taken <= u64::MAX - more => heap.io_took(before, more),
        _ => Err(Memory),
    }
}

/// What the end of the input gives: nothing is taken.
fn end_got(before: Ref, heap: &mut Heap, library: &Library<'_>) -> Result<ReadResult, Memory>
    requires live { IsLive heap.old before }
    requires state { IsState (value_at heap.old before) }
    ensures tells { IfOk result (λ got. (written : List ℕ) (taken : ℕ)
        → value_at heap.old before ≡ state written taken
        → TellsRead heap.new taken
        (read_from (known library.now) line_limit taken written []) got) }
    ensures gives { IfOk result (GivesResult (known library.now) heap.new) }
    ensures keeps { Extends heap.old heap.new }
{
    let end = heap.con(library.eof, &[])?;
    Ok(ReadResult::Gives(end, before))
}

/// An exception with this text.
fn thrown(alloc: Global, text: &[u8]) -> Result<ReadResult, Memory>
    ensures { IfOk result (λ got. got ≡ ReadResult.Throws (Exception.Error text.now)) }
{
    Ok(ReadResult::Throws(Exception::Error(Text::new(alloc, text)?)))
}
