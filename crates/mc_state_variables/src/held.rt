ghost use Rattle.std.specs.Prelude.{◌≡◌, map, IfOk, if◌then◌else◌};
ghost use Rattle.mc_clause_syntax.specs.States.{in_scope};
ghost use Rattle.mc_term_data.specs.Plain.{plain_term};
ghost use Rattle.mc_state_variables.specs.Versions.{version, before_of, after_of, closing, closings, unnamed, seen_outside};
ghost use Rattle.mc_state_variables.specs.code.Helds.{plain_held, plain_helds, listed};

use itoa::Buffer;
use mc_base::{Memory, NameSet, Row, Text};
use mc_term_data::{Node, Term};
use std::alloc::Global;

/// A state variable in scope: the numbers of the versions from which a goal starts and with which it must end.
#[derive(Clone, Copy, Debug, PartialEq, Eq)]
pub struct Held<'a> {
    pub name: &'a [u8],
    pub before: u32,
    pub after: u32,
}

impl<'a> Held<'a> {
    /// The equation of the version after with that before.
    pub fn closing(&self, alloc: Global, line: u32) -> Result<Term, Memory>
        ensures { IfOk result (λ goal. plain_term goal ≡ closing line (plain_held self.now)) }
    {
        let mut sides = Row::one(alloc, version(alloc, self.after, line)?)?;
        sides.push(version(alloc, self.before, line)?)?;
        Ok(Term {
            node: Node::App(Row::one(alloc, Text::new(alloc, b"=")?)?, sides),
            line,
        })
    }
}

/// The variable that a version is.
pub fn version(alloc: Global, number: u32, line: u32) -> Result<Term, Memory>
    ensures { IfOk result (λ term. plain_term term ≡ version number line) }
{
    let mut buffer = Buffer::new();
    let mut name = Text::new(alloc, b"!")?;
    name.extend(buffer.format(number).as_bytes())?;
    Ok(Term {
        node: Node::Var(name),
        line,
    })
}

/// The number of the version before, 0 of a name that isn't in scope.
pub fn before_of(name: &[u8], held: &[Held<'_>]) -> u32
    ensures { result ≡ before_of name.now (plain_helds held.now) }
{
    for state in held {
        if state.name == name {
            return state.before;
        }
    }
    0
}

/// The number of the version after, 0 of a name that isn't in scope.
pub fn after_of(name: &[u8], held: &[Held<'_>]) -> u32
    ensures { result ≡ after_of name.now (plain_helds held.now) }
{
    for state in held {
        if state.name == name {
            return state.after;
        }
    }
    0
}

/// Those in scope whose names aren't among these.
#[tactic(auto, using(crate::proofs::Lists::adding))]
pub fn unnamed<'a>(
    alloc: Global,
    hidden: &NameSet<'_>,
    held: &[Held<'a>],
) -> Result<Vec<Held<'a>>, Memory>
    ensures { IfOk result (λ rest. plain_helds rest.items ≡ unnamed hidden.now (plain_helds held.now)) }
{
    let mut rest = Vec::new(alloc);
    for state in held {
        if !hidden.contains(state.name) {
            rest.push(*state)?;
        }
    }
    Ok(rest)
}

/// The equations of the versions after with those before, of the wanted names that aren't updated.
#[tactic(auto, using(crate::proofs::Lists::adding))]
pub fn closings(
    alloc: Global,
    wanted: &NameSet<'_>,
    updated: &NameSet<'_>,
    held: &[Held<'_>],
    line: u32,
) -> Result<Vec<Term>, Memory>
    ensures { IfOk result
        (λ goals.
        map plain_term goals.items
        ≡ listed (closings wanted.now updated.now line (plain_helds held.now))) }
{
    let mut goals = Vec::new(alloc);
    for state in held {
        if wanted.contains(state.name) && !updated.contains(state.name) {
            goals.push(state.closing(alloc, line)?)?;
        }
    }
    Ok(goals)
}

/// The same behind a condition, which reached those versions; what it hides is as it was before the condition.
#[tactic(auto, using(crate::proofs::Lists::adding))]
pub fn closings_behind(
    alloc: Global,
    wanted: &NameSet<'_>,
    updated: &NameSet<'_>,
    hidden: &NameSet<'_>,
    reached: &[Held<'_>],
    held: &[Held<'_>],
    line: u32,
) -> Result<Vec<Term>, Memory>
    ensures { IfOk result
        (λ goals.
        map plain_term goals.items
        ≡ listed
        (closings wanted.now updated.now line
        (seen_outside hidden.now (plain_helds reached.now) (plain_helds held.now)))) }
{
    let mut goals = Vec::new(alloc);
    for state in held {
        if wanted.contains(state.name) && !updated.contains(state.name) {
            let state = behind(hidden, reached, state);
            goals.push(state.closing(alloc, line)?)?;
        }
    }
    Ok(goals)
}

// What a state variable is behind a condition, as seen outside what that hides.
fn behind<'a>(hidden: &NameSet<'_>, reached: &[Held<'_>], state: &Held<'a>) -> Held<'a>
    ensures name { result.name.now ≡ state.now.name.now }
    ensures before { result.before ≡ (if in_scope hidden.now state.now.name.now then state.now.before else before_of state.now.name.now (plain_helds reached.now)) }
    ensures after { result.after ≡ state.now.after }
{
    let before = if hidden.contains(state.name) {
        state.before
    } else {
        before_of(state.name, reached)
    };
    Held { before, ..*state }
}
