ghost use Rattle.std.specs.Prelude.{◌≡◌, ◌++◌, [], map, slice_get, IfOk, OnOk};
ghost use Rattle.mc_program.specs.PlainPrograms.{plain_program};
ghost use Rattle.mc_names.specs.Linked.{plain_named, plain_names};
ghost use Rattle.mc_type_phase.specs.Typing.{same_candidate, first_difference, either_name, candidate_name, candidate_text, whole_name, whole_name_of, name_or, difference};

use itoa::Buffer;
use mc_base::{Memory, Row, Text};
use mc_names::{Named, Names};
use mc_program::program::Program;
use mc_source::name::{Candidate, Name};
use std::alloc::Global;

/// Where two resolutions differ, in words.
pub fn difference(
    alloc: Global,
    names: &Names,
    program: &Program,
    first: &[Candidate],
    second: &[Candidate],
) -> Result<Text, Memory>
    ensures { IfOk result (λ text. text
        ≡ difference (plain_names names.now) (plain_program program.now) first.now second.now) }
{
    let mut text = Text::empty(alloc);
    if let Some((a, b)) = first_difference(first, second) {
        text.extend(b"two typings differ at ")?;
        text.extend(either_name(names, a, b))?;
        text.extend(b": ")?;
        put_candidate(&mut text, names, program, a)?;
        text.extend(b" or ")?;
        put_candidate(&mut text, names, program, b)?;
    }
    Ok(text)
}

// The first two candidates that differ.
fn first_difference(first: &[Candidate], second: &[Candidate]) -> Option<(Candidate, Candidate)>
    ensures { result ≡ first_difference first.now second.now }
{
    for (place, a) in first.iter().enumerate() {
        if place >= second.len() {
            return None;
        }
        let b = second[place];
        if !same_candidate(*a, b) {
            return Some((*a, b));
        }
    }
    None
}

fn same_candidate(a: Candidate, b: Candidate) -> bool
    ensures { result ≡ same_candidate a b }
{
    match (a, b) {
        (Candidate::Con(x), Candidate::Con(y)) => x == y,
        (Candidate::Func(x), Candidate::Func(y)) => x == y,
        (Candidate::Pred(x), Candidate::Pred(y)) => x == y,
        (Candidate::Char(x), Candidate::Char(y)) => x == y,
        _ => false,
    }
}

// The name at which two candidates differ: that of the one of them that is no character.
fn either_name<'n>(names: &'n Names, a: Candidate, b: Candidate) -> &'n [u8]
    ensures { result.now ≡ either_name (plain_names names.now) a b }
{
    match a {
        Candidate::Char(_) => candidate_name(names, b),
        Candidate::Con(_) => candidate_name(names, a),
        Candidate::Func(_) => candidate_name(names, a),
        Candidate::Pred(_) => candidate_name(names, a),
    }
}

// The name of what a candidate is; a character is its own.
fn candidate_name(names: &Names, candidate: Candidate) -> &[u8]
    ensures { result.now ≡ candidate_name (plain_names names.now) candidate }
{
    match candidate {
        Candidate::Con(number) => name_at(&names.symbols, number),
        Candidate::Func(number) => name_at(&names.preds, number),
        Candidate::Pred(number) => name_at(&names.preds, number),
        Candidate::Char(_) => &[],
    }
}

fn name_at(all: &Row<Named>, number: u32) -> &[u8]
    ensures { result.now ≡ name_or [] (slice_get (map plain_named all.now) number) }
{
    if number < all.len() {
        all.get(number).name.name.bytes()
    } else {
        &[]
    }
}

// Puts what a candidate is, in words, behind a text.
fn put_candidate(
    text: &mut Text,
    names: &Names,
    program: &Program,
    candidate: Candidate,
) -> Result<(), Memory>
    ensures { OnOk result (text.new
        ≡ text.old
        ++ candidate_text (plain_names names.now) (plain_program program.now) candidate) }
{
    match candidate {
        Candidate::Con(number) => {
            text.extend(b"constructor of ")?;
            put_name(text, &names.types, type_of(program, number))
        }
        Candidate::Func(number) => {
            text.extend(b"function ")?;
            put_name(text, &names.preds, number)
        }
        Candidate::Pred(number) => {
            text.extend(b"predicate ")?;
            put_name(text, &names.preds, number)
        }
        Candidate::Char(_) => {
            text.extend(b"character")?;
            Ok(())
        }
    }
}

// The number of a constructor's type.
fn type_of(program: &Program, number: u32) -> u32
    ensures { result ≡ ((plain_program program.now).symbols number).of_type }
{
    if number < program.symbols.len() {
        program.symbols.get(number).of_type
    } else {
        0
    }
}

// Puts the name of a number, `m.n/a`, behind a text; nothing where the number has none.
fn put_name(text: &mut Text, all: &Row<Named>, number: u32) -> Result<(), Memory>
    ensures { OnOk result (text.new
        ≡ text.old ++ whole_name_of (slice_get (map plain_named all.now) number)) }
{
    if number >= all.len() {
        return Ok(());
    }
    put_whole_name(text, &all.get(number).name)
}

fn put_whole_name(text: &mut Text, name: &Name) -> Result<(), Memory>
    ensures { OnOk result (text.new ≡ text.old ++ whole_name name.now) }
{
    let mut number = Buffer::new();
    text.extend(name.module.bytes())?;
    text.push(b'.')?;
    text.extend(name.name.bytes())?;
    text.push(b'/')?;
    text.extend(number.format(name.arity).as_bytes())
}
