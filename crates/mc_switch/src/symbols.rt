ghost use Rattle.std.specs.Prelude.{◌≡◌, ◌<◌, ℕ, false, true, nat_eq, ◌||◌, All, IfOk, OnOk, MatchOption};
ghost use Rattle.std.specs.List.{list_any};
ghost use Rattle.std.specs.HashSet.{contains};
ghost use Rattle.mc_program.specs.PlainPrograms.{plain_program, plain_type};
ghost use Rattle.mc_model.specs.Scheduled.{for_symbol};
ghost use Rattle.mc_accepted.specs.Switched.{is_label};
ghost use Rattle.mc_insts.specs.Graphs.{count_of};
ghost use Rattle.mc_switch.specs.Openings.{plain_opening_label};
ghost use Rattle.std.specs.Option.{option_map};
ghost use Rattle.mc_switch.specs.code.Labels.{KeepsFirst, is_symbol_in};
ghost use Rattle.mc_switch.specs.code.Choices.{allows_one, none_missed, union_of, Covers};

use crate::disjunct::Opened;
use crate::opening::OpeningLabel;
use mc_base::{Memory, Row};
use mc_model::inst::InstId;
use mc_procs::Procs;
use mc_program::program::Program;
use mc_program::ty::Ty;
use std::alloc::Global;
use std::collections::HashSet;

/// Whether disjuncts miss no symbol that a type and an inst of this variable allow; constants are never covered.
pub fn covers(
    alloc: Global,
    procs: &Procs,
    t: &Ty,
    i: InstId,
    disjuncts: &[Opened],
    x: u32,
) -> Result<bool, Memory>
    requires inst { i < count_of procs.now.insts }
    requires first { All KeepsFirst disjuncts.now }
    ensures { IfOk result (λ b. Covers procs.now (plain_type t.now) i disjuncts.now x b) }
{
    match union_of(t) {
        Some(u) => {
            let found = symbols_in(alloc, disjuncts, x)?;
            Ok(none_missed(alloc, procs, symbols_of(procs.program(), u), i, &found)?)
        }
        None => Ok(false),
    }
}

/// The symbols with which disjuncts open a variable.
fn symbols_in(alloc: Global, disjuncts: &[Opened], x: u32) -> Result<HashSet<u32>, Memory>
    requires { All KeepsFirst disjuncts.now }
    ensures { IfOk result
        (λ found. (s : ℕ) → contains nat_eq found s ≡ list_any (is_symbol_in x s) disjuncts.now) }
{
    let mut found = HashSet::new(alloc);
    for disjunct in disjuncts {
        put_symbol(&mut found, disjunct.label(x))?;
    }
    Ok(found)
}

/// Puts the symbol of a label in.
fn put_symbol(found: &mut HashSet<u32>, label: Option<OpeningLabel>) -> Result<(), Memory>
    ensures { OnOk result ((s : ℕ) → contains nat_eq found.new s
        ≡ (contains nat_eq found.old s || is_label (for_symbol s) (option_map plain_opening_label label.entry))) }
{
    match label {
        Some(OpeningLabel::Symbol(symbol)) => {
            found.insert(symbol)?;
            Ok(())
        }
        Some(OpeningLabel::Int(_)) => Ok(()),
        Some(OpeningLabel::Char(_)) => Ok(()),
        Some(OpeningLabel::Str(_)) => Ok(()),
        None => Ok(()),
    }
}

/// Whether each symbol of a list that an inst allows was found.
fn none_missed(
    alloc: Global,
    procs: &Procs,
    symbols: &[u32],
    i: InstId,
    found: &HashSet<u32>,
) -> Result<bool, Memory>
    requires { i < count_of procs.now.insts }
    ensures { IfOk result (λ b. b ≡ none_missed procs.now i (contains nat_eq found.now) symbols.now) }
{
    for symbol in symbols {
        let is_missed = !found.contains(symbol) && allows(alloc, procs, i, *symbol)?;
        if is_missed {
            return Ok(false);
        }
    }
    Ok(true)
}

/// Whether an inst allows a symbol.
pub(crate) fn allows(alloc: Global, procs: &Procs, i: InstId, symbol: u32) -> Result<bool, Memory>
    requires { i < count_of procs.now.insts }
    ensures { IfOk result (λ b. b ≡ allows_one procs.now i symbol) }
{
    let narrowed = procs.narrow(alloc, i, symbol)?;
    Ok(is_there(&narrowed))
}

/// Whether an inst was narrowed.
fn is_there(narrowed: &Option<Row<InstId>>) -> bool
    ensures { MatchOption narrowed.now (result ≡ false) (λ _. result ≡ true) }
{
    match narrowed {
        Some(_) => true,
        None => false,
    }
}

/// The number of a union type.
fn union_of(t: &Ty) -> Option<u32>
    ensures { result ≡ union_of (plain_type t.now) }
{
    match t {
        Ty::Int => None,
        Ty::Char => None,
        Ty::Str => None,
        Ty::Io => None,
        Ty::Var(_) => None,
        Ty::Union(u, _) => Some(*u),
    }
}

/// The symbols that a type lists.
fn symbols_of(program: &Program, u: u32) -> &[u32]
    ensures { result.now ≡ (plain_program program.now).symbols_of u }
{
    if u < program.types.len() {
        program.types.get(u).symbols.as_slice()
    } else {
        &[]
    }
}
