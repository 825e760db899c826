ghost use Rattle.std.specs.Prelude.{◌≡◌, ◌++◌, ◌∷◌, [], length, map, true, if◌then◌else◌, All, IfOk, OnOk};
ghost use Rattle.std.specs.List.{list_all};
ghost use Rattle.mc_model.specs.Stream.{is_bound};
ghost use Rattle.mc_accepted.specs.Least.{lesser, least};
ghost use Rattle.mc_varset.specs.Members.{has};
ghost use Rattle.mc_switch.specs.Types.{InstsFit, inst_in};
ghost use Rattle.mc_switch.specs.code.Labels.{KeepsFirst, is_opened_by};
ghost use Rattle.mc_switch.specs.code.Choices.{first_variables, may_be, those_that, MissesNone, IsLeastOf, IsChosenOf, MayBe};

use crate::disjunct::Opened;
use crate::opening::Opening;
use crate::symbols::covers;
use mc_base::Memory;
use mc_model::inst::InstId;
use mc_procs::Procs;
use mc_program::ty::Ty;
use mc_varset::VarSet;
use std::alloc::Global;

/// The variable on which disjuncts are switched where these are left out.
pub fn chosen(
    alloc: Global,
    procs: &Procs,
    types: &[Ty],
    insts: &[InstId],
    out: &VarSet,
    disjuncts: &[Opened],
) -> Result<Option<u32>, Memory>
    requires insts { InstsFit procs.now types.now insts.now }
    requires out { length out.now ≡ length insts.now }
    requires first { All KeepsFirst disjuncts.now }
    ensures chosen { IfOk result (λ x. IsChosenOf procs.now types.now insts.now out.now disjuncts.now x) }
    ensures may_be { IfOk result (λ x. MayBe insts.now out.now disjuncts.now x) }
{
    let candidates = candidates(alloc, insts, out, disjuncts)?;
    let candidates = candidates.as_slice();
    match least_covered(alloc, procs, types, insts, disjuncts, candidates)? {
        Some(x) => Ok(Some(x)),
        None => Ok(least(candidates)),
    }
}

/// The variables on which disjuncts may be switched: those that are bound, that aren't left out, and that each disjunct
/// opens.
fn candidates(
    alloc: Global,
    insts: &[InstId],
    out: &VarSet,
    disjuncts: &[Opened],
) -> Result<Vec<u32>, Memory>
    requires out { length out.now ≡ length insts.now }
    requires first { All KeepsFirst disjuncts.now }
    ensures { IfOk result (λ xs. xs.items
        ≡ those_that (may_be insts.now out.now disjuncts.now) (first_variables disjuncts.now)) }
{
    let mut candidates = Vec::new(alloc);
    let opens = first_openings(disjuncts);
    for opening in opens {
        try_variable(insts, out, disjuncts, opening.variable, &mut candidates)?;
    }
    Ok(candidates)
}

/// Puts a variable in where disjuncts may be switched on it.
fn try_variable(
    insts: &[InstId],
    out: &VarSet,
    disjuncts: &[Opened],
    x: u32,
    candidates: &mut Vec<u32>,
) -> Result<(), Memory>
    requires out { length out.now ≡ length insts.now }
    requires first { All KeepsFirst disjuncts.now }
    ensures { OnOk result (candidates.new.items
        ≡ candidates.old.items ++ those_that (may_be insts.now out.now disjuncts.now) (x ∷ [])) }
{
    if may_be(insts, out, disjuncts, x) {
        candidates.push(x)?;
    }
    Ok(())
}

/// What the first disjunct opens.
fn first_openings<'b, 'a>(disjuncts: &'b [Opened<'a>]) -> &'b [Opening<'a>]
    ensures { map (λ o. o.variable) result.now ≡ first_variables disjuncts.now }
{
    match disjuncts {
        [] => &[],
        [first, ..] => first.opens.as_slice(),
    }
}

/// Whether disjuncts may be switched on a variable.
fn may_be(insts: &[InstId], out: &VarSet, disjuncts: &[Opened], x: u32) -> bool
    requires out { length out.now ≡ length insts.now }
    requires first { All KeepsFirst disjuncts.now }
    ensures { result ≡ may_be insts.now out.now disjuncts.now x }
{
    is_bound(insts, x) && !is_out(insts, out, x) && all_open(disjuncts, x)
}

/// Whether a variable is bound.
fn is_bound(insts: &[InstId], x: u32) -> bool
    ensures { result ≡ is_bound (inst_in insts.now x) }
{
    let n = x as usize;
    n < insts.len() && insts[n] != 0
}

/// Whether a variable is left out.
fn is_out(insts: &[InstId], out: &VarSet, x: u32) -> bool
    requires { length out.now ≡ length insts.now }
    ensures { result ≡ has out.now x }
{
    (x as usize) < insts.len() && out.contains(x)
}

/// Whether each disjunct opens a variable.
fn all_open(disjuncts: &[Opened], x: u32) -> bool
    requires { All KeepsFirst disjuncts.now }
    ensures { result ≡ list_all (is_opened_by x) disjuncts.now }
{
    for disjunct in disjuncts {
        if !disjunct.takes(x) {
            return false;
        }
    }
    true
}

/// The least of those variables of a list of which the disjuncts miss no symbol.
fn least_covered(
    alloc: Global,
    procs: &Procs,
    types: &[Ty],
    insts: &[InstId],
    disjuncts: &[Opened],
    xs: &[u32],
) -> Result<Option<u32>, Memory>
    requires insts { InstsFit procs.now types.now insts.now }
    requires first { All KeepsFirst disjuncts.now }
    ensures { IfOk result (λ x. IsLeastOf procs.now types.now insts.now disjuncts.now xs.now x) }
{
    let mut found = None;
    let mut n = xs.len();
    while n > 0 {
        n -= 1;
        let counts = misses_none(alloc, procs, types, insts, disjuncts, xs[n])?;
        found = with_one_more(xs[n], counts, found);
    }
    Ok(found)
}

/// Whether disjuncts miss no symbol that type and inst of a variable allow.
fn misses_none(
    alloc: Global,
    procs: &Procs,
    types: &[Ty],
    insts: &[InstId],
    disjuncts: &[Opened],
    x: u32,
) -> Result<bool, Memory>
    requires insts { InstsFit procs.now types.now insts.now }
    requires first { All KeepsFirst disjuncts.now }
    ensures { IfOk result (λ b. MissesNone procs.now types.now insts.now disjuncts.now x b) }
{
    let n = x as usize;
    if n < types.len() {
        covers(alloc, procs, &types[n], insts[n], disjuncts, x)
    } else {
        Ok(false)
    }
}

/// The least of a list.
fn least(xs: &[u32]) -> Option<u32>
    ensures { result ≡ least (λ _. true) xs.now }
{
    let mut found = None;
    let mut n = xs.len();
    while n > 0 {
        n -= 1;
        found = with_one_more(xs[n], true, found);
    }
    found
}

/// The lesser of what was found and a number, where that counts.
fn with_one_more(x: u32, counts: bool, found: Option<u32>) -> Option<u32>
    ensures { result ≡ (if counts then Some (lesser x found) else found) }
{
    if counts {
        Some(lesser(x, found))
    } else {
        found
    }
}

/// The lesser of two numbers, one of which may be missing.
fn lesser(x: u32, other: Option<u32>) -> u32
    ensures { result ≡ lesser x other }
{
    match other {
        Some(y) if y < x => y,
        Some(_) => x,
        None => x,
    }
}
