ghost use Rattle.std.specs.Prelude.{◌≡◌, ◌++◌, length, IfOk};
ghost use Rattle.mc_modes.specs.ModeFaults.{argument, shown_variable, stuck, not_met};

use itoa::Buffer;
use mc_base::{Copied, Memory, Text};
use mc_model::flat::Normal;
use std::alloc::Global;

/// An argument by its place, which is counted from 0 and told from 1.
fn argument(alloc: Global, place: u32) -> Result<Text, Memory>
    ensures { IfOk result (λ text. text ≡ argument place) }
{
    let mut number = Buffer::new();
    let mut text = Text::new(alloc, b"argument ")?;
    text.extend(number.format(u64::from(place) + 1).as_bytes())?;
    Ok(text)
}

/// A variable of a predicate's goal, as it is told.
fn variable(alloc: Global, goal: &Normal, x: u32) -> Result<Text, Memory>
    ensures { IfOk result
        (λ text. text ≡ shown_variable (length goal.now.head) goal.now.var_names x) }
{
    if x < goal.head.len() {
        return argument(alloc, x);
    }
    if x < goal.var_names.len() && !goal.var_names.get(x).is_empty() {
        return goal.var_names.get(x).copied(alloc);
    }
    Text::new(alloc, b"a hidden variable")
}

/// What is said of a variable of a predicate's goal.
pub(crate) fn of_variable(
    alloc: Global,
    words: &[u8],
    goal: &Normal,
    x: u32,
) -> Result<Text, Memory>
    ensures { IfOk result
        (λ text. text ≡ words.now ++ shown_variable (length goal.now.head) goal.now.var_names x) }
{
    let mut text = Text::new(alloc, words)?;
    text.extend(variable(alloc, goal, x)?.bytes())?;
    Ok(text)
}

/// What is said where so many goals wait and none can run.
pub(crate) fn stuck(alloc: Global, count: u32) -> Result<Text, Memory>
    ensures { IfOk result (λ text. text ≡ stuck count) }
{
    let mut number = Buffer::new();
    let mut text = Text::new(alloc, b"no goal can run; ")?;
    text.extend(number.format(count).as_bytes())?;
    text.extend(b" waiting")?;
    Ok(text)
}

/// What is said of an argument whose final inst isn't met.
pub(crate) fn not_met(alloc: Global, place: u32) -> Result<Text, Memory>
    ensures { IfOk result (λ text. text ≡ not_met place) }
{
    let mut text = Text::new(alloc, b"final inst of ")?;
    text.extend(argument(alloc, place)?.bytes())?;
    text.extend(b" is not met")?;
    Ok(text)
}
