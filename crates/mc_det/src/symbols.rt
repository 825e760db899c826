ghost use Rattle.std.specs.Prelude.{◌≡◌, ◌<◌, ◌&&◌, not, true, false, IfOk, MatchOption, map};
ghost use Rattle.mc_program.specs.PlainPrograms.{plain_program, plain_type};
ghost use Rattle.mc_model.specs.PlainGoals.{plain_arm, plain_label, arms_of};
ghost use Rattle.mc_insts.specs.Graphs.{count_of};
ghost use Rattle.mc_det.specs.code.Symbols.{allows_one, is_for, arm_for, one_missed, another, one_allowed, union_of, Missed, Alone};

use mc_base::{Memory, Row};
use mc_model::inst::InstId;
use mc_model::sched::{Arm, On};
use mc_procs::Procs;
use mc_program::program::Program;
use mc_program::ty::Ty;
use std::alloc::Global;

/// Whether an inst allows a symbol.
pub fn allows(alloc: Global, procs: &Procs, i: InstId, symbol: u32) -> Result<bool, Memory>
    requires { i < count_of procs.now.insts }
    ensures { IfOk result (λ b. b ≡ allows_one procs.now i symbol) }
{
    let narrowed = procs.narrow(alloc, i, symbol)?;
    Ok(is_there(&narrowed))
}

/// Whether an inst was narrowed.
fn is_there(narrowed: &Option<Row<InstId>>) -> bool
    ensures { MatchOption narrowed.now (result ≡ false) (λ _. result ≡ true) }
{
    match narrowed {
        Some(_) => true,
        None => false,
    }
}

/// Whether some symbol that type and inst allow has no arm.
pub fn misses(alloc: Global, procs: &Procs, t: &Ty, i: InstId, arms: &[Arm]) -> Result<bool, Memory>
    requires { i < count_of procs.now.insts }
    ensures { IfOk result (λ b. Missed procs.now (plain_type t.now) i (arms_of (map plain_arm arms.now)) b) }
{
    match union_of(t) {
        Some(u) => Ok(one_missed(alloc, procs, symbols_of(procs.program(), u), i, arms)?),
        None => Ok(true),
    }
}

/// Whether some symbol of a list is allowed and has no arm.
fn one_missed(
    alloc: Global,
    procs: &Procs,
    symbols: &[u32],
    i: InstId,
    arms: &[Arm],
) -> Result<bool, Memory>
    requires { i < count_of procs.now.insts }
    ensures { IfOk result (λ b. b ≡ one_missed procs.now i arms.now symbols.now) }
{
    for symbol in symbols {
        let is_missed = allows(alloc, procs, i, *symbol)? && !arm_for(arms, *symbol);
        if is_missed {
            return Ok(true);
        }
    }
    Ok(false)
}

/// Whether an inst allows this symbol of its type, and no other.
pub fn is_alone(
    alloc: Global,
    procs: &Procs,
    t: &Ty,
    i: InstId,
    symbol: u32,
) -> Result<bool, Memory>
    requires { i < count_of procs.now.insts }
    ensures { IfOk result (λ b. Alone procs.now (plain_type t.now) i symbol b) }
{
    match union_of(t) {
        Some(u) => Ok(only_one(alloc, procs, symbols_of(procs.program(), u), i, symbol)?),
        None => Ok(false),
    }
}

/// Whether this symbol of a list is allowed, and no other.
fn only_one(
    alloc: Global,
    procs: &Procs,
    symbols: &[u32],
    i: InstId,
    symbol: u32,
) -> Result<bool, Memory>
    requires { i < count_of procs.now.insts }
    ensures { IfOk result (λ b. b ≡ one_allowed procs.now i symbols.now && not (another procs.now i symbol symbols.now)) }
{
    if another(alloc, procs, symbols, i, symbol)? {
        return Ok(false);
    }
    Ok(one_allowed(alloc, procs, symbols, i)?)
}

/// Whether another symbol of a list is allowed.
fn another(
    alloc: Global,
    procs: &Procs,
    symbols: &[u32],
    i: InstId,
    symbol: u32,
) -> Result<bool, Memory>
    requires { i < count_of procs.now.insts }
    ensures { IfOk result (λ b. b ≡ another procs.now i symbol symbols.now) }
{
    for other in symbols {
        let is_another = *other != symbol && allows(alloc, procs, i, *other)?;
        if is_another {
            return Ok(true);
        }
    }
    Ok(false)
}

/// Whether some symbol of a list is allowed.
fn one_allowed(alloc: Global, procs: &Procs, symbols: &[u32], i: InstId) -> Result<bool, Memory>
    requires { i < count_of procs.now.insts }
    ensures { IfOk result (λ b. b ≡ one_allowed procs.now i symbols.now) }
{
    for symbol in symbols {
        if allows(alloc, procs, i, *symbol)? {
            return Ok(true);
        }
    }
    Ok(false)
}

/// Whether there is an arm for a symbol.
fn arm_for(arms: &[Arm], symbol: u32) -> bool
    ensures { result ≡ arm_for symbol arms.now }
{
    for arm in arms {
        if is_for(&arm.on, symbol) {
            return true;
        }
    }
    false
}

/// Whether an arm is for a symbol.
fn is_for(on: &On, symbol: u32) -> bool
    ensures { result ≡ is_for symbol (plain_label on.now) }
{
    match on {
        On::Symbol(f) => *f == symbol,
        On::Const(_) => false,
    }
}

/// The number of a union type.
fn union_of(t: &Ty) -> Option<u32>
    ensures { result ≡ union_of (plain_type t.now) }
{
    match t {
        Ty::Int => None,
        Ty::Char => None,
        Ty::Str => None,
        Ty::Io => None,
        Ty::Var(_) => None,
        Ty::Union(u, _) => Some(*u),
    }
}

/// The symbols that a type lists.
fn symbols_of(program: &Program, u: u32) -> &[u32]
    ensures { result.now ≡ (plain_program program.now).symbols_of u }
{
    if u < program.types.len() {
        program.types.get(u).symbols.as_slice()
    } else {
        &[]
    }
}
