ghost use Rattle.std.specs.Prelude.{◌≡◌, ◌++◌, ℕ, length, codes, IfOk, OnOk};
ghost use Rattle.mc_source.specs.Rules.{broken_at};
ghost use Rattle.mc_names.specs.Plain.{id, shown};
ghost use Rattle.mc_names.specs.Linked.{Linked, plain_named, plain_names};
ghost use Rattle.mc_type_table.specs.Expanded.{after_rounds};
ghost use Rattle.mc_type_table.specs.Rules.{definitions, type_fault, type_faults};
ghost use Rattle.mc_type_table.specs.code.Kept.{AreEquivalences, AreBodies};

use crate::bodies::Bodies;
use crate::definitions::Equivalences;
use crate::expansion::expanded_definitions;
use crate::replaced::SizeBudget;
use crate::variables::stray_variable;
use itoa::Buffer;
use mc_base::{Memory, Text};
use mc_names::{Named, Names};
use mc_source::name::Name;
use mc_source::rule::{Broken, Rule};
use std::alloc::Global;

/// How many parts the types of a program may have that are written out while its types are judged.
const MOST_PARTS: u32 = 4_194_304;

/// The rules that the types of a program break, one for each faulty type, in the order of the files and their items.
///
/// # Errors
///
/// `Memory` where there is no room, or where types without equivalences have more than 4,194,304 parts in all.
pub fn broken_types(alloc: Global, names: &Names) -> Result<Vec<Broken>, Memory>
    ensures { IfOk result (λ broken. broken.items ≡ type_faults (plain_names names.now)) }
{
    let mut room = SizeBudget { parts: MOST_PARTS };
    let equivalences = Equivalences::of(alloc, names)?;
    let definitions = expanded_definitions(alloc, &equivalences, &[], &mut room)?;
    let bodies = Bodies::of(alloc, names, definitions.as_slice(), &mut room)?;
    faults_by(alloc, names, &equivalences, &bodies)
}

fn faults_by(
    alloc: Global,
    names: &Names,
    equivalences: &Equivalences,
    bodies: &Bodies,
) -> Result<Vec<Broken>, Memory>
    requires equivalences { AreEquivalences (plain_names names.now) equivalences.now }
    requires bodies { AreBodies (plain_names names.now)
        (after_rounds (length (plain_names names.now).types) (definitions (plain_names names.now)))
        bodies.now }
    ensures { IfOk result (λ broken. broken.items ≡ type_faults (plain_names names.now)) }
{
    let mut broken = Vec::new(alloc);
    let mut number = 0;
    for named in names.types.as_slice() {
        add_fault(alloc, number, named, equivalences, bodies, &mut broken)?;
        number += 1;
    }
    Ok(broken)
}

// Adds the first rule that a type breaks.
fn add_fault(
    alloc: Global,
    number: u32,
    named: &Named,
    equivalences: &Equivalences,
    bodies: &Bodies,
    broken: &mut Vec<Broken>,
) -> Result<(), Memory>
    ensures { OnOk result
        ((l : Linked) → AreEquivalences l equivalences.now
        → AreBodies l (after_rounds (length l.types) (definitions l)) bodies.now
        → broken.new.items
        ≡ broken.old.items
        ++ broken_at (plain_named named.now).at (type_fault l number (plain_named named.now))) }
{
    if let Some((rule, what)) = type_fault(alloc, number, named, equivalences, bodies)? {
        let at = named.at;
        broken.push(Broken { rule, at, what })?;
    }
    Ok(())
}

// The first rule that a type breaks, with what is said of it.
#[tactic(auto, using(crate::proofs::Judging::variable_first, crate::proofs::Judging::round_first, crate::proofs::Judging::irregular_first, crate::proofs::Judging::none_broken))]
fn type_fault(
    alloc: Global,
    number: u32,
    named: &Named,
    equivalences: &Equivalences,
    bodies: &Bodies,
) -> Result<Option<(Rule, Text)>, Memory>
    ensures { IfOk result
        (λ f.
        (l : Linked) → AreEquivalences l equivalences.now
        → AreBodies l (after_rounds (length l.types) (definitions l)) bodies.now
        → f ≡ type_fault l number (plain_named named.now)) }
{
    if let Some(name) = stray_variable(alloc, &named.decl)? {
        let what = of_variable(alloc, name)?;
        return Ok(Some((Rule::T3, what)));
    }
    if equivalences.is_cyclic(number) {
        let what = of_type(alloc, &named.name, b" is its own equivalent")?;
        return Ok(Some((Rule::T4, what)));
    }
    if bodies.is_irregular(number) {
        let what = of_type(alloc, &named.name, b" is not regular")?;
        return Ok(Some((Rule::T5, what)));
    }
    Ok(None)
}

fn of_variable(alloc: Global, name: &[u8]) -> Result<Text, Memory>
    ensures { IfOk result
        (λ text. text ≡ codes "type variable " ++ (name.now ++ codes " is not in the head")) }
{
    let mut text = Text::new(alloc, b"type variable ")?;
    text.extend(name)?;
    text.extend(b" is not in the head")?;
    Ok(text)
}

fn of_type(alloc: Global, name: &Name, words: &[u8]) -> Result<Text, Memory>
    ensures { IfOk result
        (λ text.
        text ≡ codes "type " ++ (shown (id name.now.name name.now.arity) ++ words.now)) }
{
    let mut number = Buffer::new();
    let mut text = Text::new(alloc, b"type ")?;
    text.extend(name.name.bytes())?;
    text.push(b'/')?;
    text.extend(number.format(name.arity).as_bytes())?;
    text.extend(words)?;
    Ok(text)
}
