ghost use Rattle.std.specs.Prelude.{◌≡◌, ◌&&◌, ◌||◌, not, [], ◌∷◌, Some, None, map, reverse, IfOk, if◌then◌else◌};
ghost use Rattle.std.specs.Option.{option_map};
ghost use Rattle.mc_term_data.specs.Plain.{plain_term, term_list, at, Disj, no_term};
ghost use Rattle.mc_state_variables.specs.Versions.{closings, and_then};
ghost use Rattle.mc_state_variables.specs.code.Helds.{plain_helds};
ghost use Rattle.mc_state_variables.specs.code.Pieces.{is_last, plain_piece, gather, gathered, alone, conjuncts};

use crate::held::{Held, closings};
use crate::terms::{conjunction_term, disjunction_term};
use mc_base::{Memory, NameSet};
use mc_term_data::{Node, Term};
use std::alloc::Global;

/// A disjunct; where a disjunction of it and those behind it begins there, the equations that close that disjunction.
#[derive(Drop)]
pub struct Piece {
    pub text: Term,
    pub opened: Option<Vec<Term>>,
}

/// What the branches of a disjunction update, and the equations that close one that begins.
#[derive(Drop)]
pub struct Opening<'a> {
    pub wanted: NameSet<'a>,
    pub closings: Option<Vec<Term>>,
}

impl<'a> Opening<'a> {
    /// A disjunction, whose branches update these, begins among branches that update those, or it doesn't.
    #[tactic(auto, using(crate::proofs::Lists::adding))]
    pub fn of(
        alloc: Global,
        begins: bool,
        around: NameSet<'a>,
        whole: NameSet<'a>,
        held: &[Held<'_>],
        line: u32,
    ) -> Result<Opening<'a>, Memory>
        ensures wanted { IfOk result (λ opening. opening.wanted ≡ (if begins then whole.entry else around.entry)) }
        ensures closings { IfOk result
            (λ opening.
            option_map (λ goals. term_list (map plain_term goals.items)) opening.closings
            ≡ (if begins then Some (closings around.entry whole.entry line (plain_helds held.now)) else None)) }
    {
        if begins {
            let goals = closings(alloc, &around, &whole, held, line)?;
            Ok(Opening {
                wanted: whole,
                closings: Some(goals),
            })
        } else {
            Ok(Opening {
                wanted: around,
                closings: None,
            })
        }
    }
}

/// Whether a disjunction begins at a disjunct, behind which stand as many as there are of these.
#[tactic(auto, using(crate::proofs::Closing::last_is))]
pub fn begins(fresh: bool, conditional: bool, behind: &[NameSet<'_>]) -> bool
    ensures { result ≡ ((fresh || conditional) && not (is_last (reverse behind.now))) }
{
    (fresh || conditional) && !behind.is_empty()
}

/// The disjunction of these pieces; one alone is itself.
pub fn disjunction_of(alloc: Global, pieces: Vec<Piece>, line: u32) -> Result<Term, Memory>
    ensures { IfOk result
        (λ text. plain_term text ≡ alone line (gathered line (map plain_piece pieces.items) no_term)) }
{
    let mut branches = gathered(alloc, pieces, line)?;
    if branches.len() == 1 {
        if let Some(only) = branches.pop() {
            return Ok(only);
        }
    }
    let whole = disjunction_term(branches, line)?;
    Ok(whole)
}

// The branches of the disjunction that these pieces are.
fn gathered(alloc: Global, mut pieces: Vec<Piece>, line: u32) -> Result<Vec<Term>, Memory>
    ensures { IfOk result
        (λ branches.
        term_list (map plain_term branches.items)
        ≡ gathered line (map plain_piece pieces.items) no_term) }
{
    // those so far, the last one first
    let mut branches = Vec::new(alloc);
    'back: while let Some(piece) = pieces.pop() {
        branches = gathered_with(alloc, branches, piece, line)?;
    }
    branches.reverse();
    Ok(branches)
}

// These branches, the last of which stands first, with a piece before them.
fn gathered_with(
    alloc: Global,
    mut branches: Vec<Term>,
    piece: Piece,
    line: u32,
) -> Result<Vec<Term>, Memory>
    ensures { IfOk result
        (λ more.
        term_list (reverse (map plain_term more.items))
        ≡ gather line (plain_piece piece).opened (plain_term piece.text)
        (term_list (reverse (map plain_term branches.items)))) }
{
    let Piece { text, opened } = piece;
    branches.push(text)?;
    match opened {
        Some(goals) => grouped(alloc, branches, goals, line),
        None => Ok(branches),
    }
}

// The disjunction of these branches, the last of which stands first, and behind it these goals.
fn grouped(
    alloc: Global,
    mut branches: Vec<Term>,
    goals: Vec<Term>,
    line: u32,
) -> Result<Vec<Term>, Memory>
    ensures { IfOk result
        (λ group.
        map plain_term group.items
        ≡ and_then (at (Disj (term_list (reverse (map plain_term branches.items)))) line) (term_list (map plain_term goals.items)) ∷ []) }
{
    branches.reverse();
    let disjunction = disjunction_term(branches, line)?;
    let mut group = Vec::new(alloc);
    group.push(and_then(alloc, disjunction, goals)?)?;
    Ok(group)
}

/// A goal with these behind it.
#[tactic(auto, using(crate::proofs::Lists::adding))]
pub fn and_then(alloc: Global, goal: Term, mut goals: Vec<Term>) -> Result<Term, Memory>
    ensures { IfOk result
        (λ whole. plain_term whole ≡ and_then (plain_term goal) (term_list (map plain_term goals.items))) }
{
    if goals.is_empty() {
        return Ok(goal);
    }
    let line = goal.line;
    let mut all = conjuncts(alloc, goal)?;
    all.append(&mut goals)?;
    let whole = conjunction_term(all, line)?;
    Ok(whole)
}

// The goals of a conjunction, or the one goal that this is.
#[tactic(auto, using(crate::proofs::Lists::adding))]
fn conjuncts(alloc: Global, goal: Term) -> Result<Vec<Term>, Memory>
    ensures { IfOk result (λ goals. map plain_term goals.items ≡ conjuncts (plain_term goal)) }
{
    let line = goal.line;
    match goal.into_node() {
        Node::Conj(goals) => Ok(goals.into_vec()),
        node => {
            let mut goals = Vec::new(alloc);
            goals.push(Term { node, line })?;
            Ok(goals)
        }
    }
}
