ghost use Rattle.std.specs.Prelude.{◌≡◌, ◌↔◌, ◌<◌, ℕ, true, false, length, IfOk};
ghost use Rattle.mc_inst_table.specs.Plain.{plain_inst, plain_insts};
ghost use Rattle.mc_inst_table.specs.code.Ends.{IsFull, end_at, end_of, ends, head_at, bodies_of, AreHeads, AreSettled};

use crate::inst::Inst;
use mc_base::{Memory, Row};
use std::alloc::Global;

/// Where an inst leads before any constructor, where definitions that are names of others are followed.
#[derive(Clone, Copy, Debug, PartialEq, Eq)]
pub enum Head {
    /// To a parameter.
    Parameter(u32),
    /// To a builtin inst, by its node.
    Node(u32),
    /// To what `bound` lists.
    Bound,
    /// It isn't known yet, or to no end.
    Unknown,
}

/// Where an inst leads, by where the bodies of definitions do. It takes stack for each level of the inst.
#[cycle(end_of)]
pub fn end_of(heads: &Row<Head>, inst: &Inst) -> Head
    ensures { result ≡ end_of (head_at heads.now) (plain_inst inst.now) }
{
    match inst {
        Inst::Parameter(k) => Head::Parameter(*k),
        Inst::Node(node) => Head::Node(*node),
        Inst::Bound(_, _) => Head::Bound,
        Inst::Defined(number, given) => match head_at(heads, *number) {
            Head::Parameter(k) => end_at(heads, given.as_slice(), k),
            Head::Node(node) => Head::Node(node),
            Head::Bound => Head::Bound,
            Head::Unknown => Head::Unknown,
        },
    }
}

/// Where the inst at a place among some leads. Past their end stand the parameters behind them.
#[cycle(end_of)]
#[tactic(auto, using(crate::proofs::Finding::end_there, crate::proofs::Finding::end_past))]
pub fn end_at(heads: &Row<Head>, insts: &[Inst], place: u32) -> Head
    ensures { result ≡ end_at (ends (head_at heads.now) (plain_insts insts.now)) place }
{
    if place as usize >= insts.len() {
        return Head::Parameter(place - insts.len() as u32);
    }
    end_of(heads, &insts[place as usize])
}

/// Where the body of a definition leads; there is nothing in that of one past the last.
pub fn head_at(heads: &Row<Head>, number: u32) -> Head
    ensures { result ≡ head_at heads.now number }
{
    match heads.as_slice().get(number as usize) {
        Some(head) => *head,
        None => Head::Bound,
    }
}

/// Where the bodies of definitions lead, each of which stands over as many insts as its body needs.
///
/// # Errors
///
/// `Memory` where there is no room.
pub fn heads_of(alloc: Global, bodies: &Row<Inst>) -> Result<Row<Head>, Memory>
    requires { (d : ℕ) → IsFull (bodies_of bodies.now) (bodies_of bodies.now d) }
    ensures heads { IfOk result (λ heads. AreHeads (bodies_of bodies.now) heads) }
    ensures settled { IfOk result (λ heads. AreSettled (bodies_of bodies.now) heads) }
{
    let mut heads = all_unknown(alloc, bodies.len())?;
    for _ in 0..bodies.len() {
        let is_more_ahead = find_forwards(bodies, &mut heads);
        let is_more_behind = find_backwards(bodies, &mut heads);
        if !is_more_ahead && !is_more_behind {
            break;
        }
    }
    if !are_settled(bodies, &heads) {
        return Err(Memory);
    }
    Ok(heads)
}

// As many heads as that, none of which is known.
fn all_unknown(alloc: Global, count: u32) -> Result<Row<Head>, Memory>
    ensures count { IfOk result (λ heads. length heads ≡ count) }
    ensures unknown { IfOk result (λ heads. (d : ℕ) → d < count → head_at heads d ≡ Head.Unknown) }
{
    let mut heads = Vec::new(alloc);
    for k in 0..count {
        heads.push(Head::Unknown)?;
    }
    Row::of(heads)
}

// Finds where further bodies lead, from the first on, and tells whether there were any.
fn find_forwards(bodies: &Row<Inst>, heads: &mut Row<Head>) -> bool
    requires full { (d : ℕ) → IsFull (bodies_of bodies.now) (bodies_of bodies.now d) }
    requires count { length heads.old ≡ length bodies.now }
    requires heads { AreHeads (bodies_of bodies.now) heads.old }
    ensures count { length heads.new ≡ length bodies.now }
    ensures heads { AreHeads (bodies_of bodies.now) heads.new }
{
    let mut is_more = false;
    for k in 0..bodies.len() {
        is_more |= find(bodies, heads, k);
    }
    is_more
}

// Finds where further bodies lead, from the last on, and tells whether there were any.
fn find_backwards(bodies: &Row<Inst>, heads: &mut Row<Head>) -> bool
    requires full { (d : ℕ) → IsFull (bodies_of bodies.now) (bodies_of bodies.now d) }
    requires count { length heads.old ≡ length bodies.now }
    requires heads { AreHeads (bodies_of bodies.now) heads.old }
    ensures count { length heads.new ≡ length bodies.now }
    ensures heads { AreHeads (bodies_of bodies.now) heads.new }
{
    let mut is_more = false;
    for k in 0..bodies.len() {
        is_more |= find(bodies, heads, bodies.len() - 1 - k);
    }
    is_more
}

// Finds where the body of a definition leads, where that isn't known and can be found out.
#[tactic(auto, using(crate::proofs::Finding::one_found))]
fn find(bodies: &Row<Inst>, heads: &mut Row<Head>, number: u32) -> bool
    requires full { (d : ℕ) → IsFull (bodies_of bodies.now) (bodies_of bodies.now d) }
    requires there { number < length bodies.now }
    requires count { length heads.old ≡ length bodies.now }
    requires heads { AreHeads (bodies_of bodies.now) heads.old }
    ensures count { length heads.new ≡ length bodies.now }
    ensures heads { AreHeads (bodies_of bodies.now) heads.new }
{
    if is_known(*heads.get(number)) {
        return false;
    }
    let head = end_of(heads, bodies.get(number));
    heads.set(number, head);
    is_known(head)
}

fn is_known(head: Head) -> bool
    ensures { (result ≡ false) ↔ (head ≡ Head.Unknown) }
{
    match head {
        Head::Unknown => false,
        Head::Parameter(_) => true,
        Head::Node(_) => true,
        Head::Bound => true,
    }
}

// Whether no more can be found out.
fn are_settled(bodies: &Row<Inst>, heads: &Row<Head>) -> bool
    requires { length heads.now ≡ length bodies.now }
    ensures { result ≡ true → AreSettled (bodies_of bodies.now) heads.now }
{
    for k in 0..bodies.len() {
        if !is_settled(bodies.get(k), heads, *heads.get(k)) {
            return false;
        }
    }
    true
}

// Whether it is known where a body leads, or can't be found out.
fn is_settled(body: &Inst, heads: &Row<Head>, head: Head) -> bool
    ensures { result ≡ true → head ≡ Head.Unknown
        → end_of (head_at heads.now) (plain_inst body.now) ≡ Head.Unknown }
{
    is_known(head) || !is_known(end_of(heads, body))
}
