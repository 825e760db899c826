ghost use Rattle.std.specs.Prelude.{◌≡◌, IfOk, MatchOption, None, Some, IsTrue, ◌↔◌, ℕ, map};
ghost use Rattle.mc_program.specs.Programs.{TypeTerm};
ghost use Rattle.mc_program.specs.PlainPrograms.{plain_type};
ghost use Rattle.mc_model.specs.Types.{instance_of};
ghost use Rattle.mc_procs.specs.VariableTypes.{type_in};
ghost use Rattle.mc_self_check.specs.code.Bindings.{bound_to, Matched};

use crate::variables::type_of;
use mc_base::Memory;
use mc_program::ty::{Ty, copy_type, same_type};
use std::alloc::Global;

/// A type for a type variable.
#[derive(Drop)]
pub(crate) struct Binding {
    variable: u32,
    t: Ty,
}

/// Whether variables are of an instance of these types.
pub(crate) fn have_instance(
    alloc: Global,
    types: &[Ty],
    variables: &[u32],
    patterns: &[Ty],
) -> Result<bool, Memory>
    ensures { IfOk result (λ b. IsTrue b ↔ ((σ : ℕ → TypeTerm)
        × (map (type_in types.now) variables.now
        ≡ map (instance_of σ) (map plain_type patterns.now)))) }
{
    if variables.len() != patterns.len() {
        return Ok(false);
    }
    let mut bound = Vec::new(alloc);
    for place in 0..variables.len() {
        let own = Ty::Var(variables[place]);
        let t = type_of(types, variables[place], &own);
        if !matches(alloc, &mut bound, &patterns[place], t)? {
            return Ok(false);
        }
    }
    Ok(true)
}

/// Matches a type with a pattern, whose variables stand for types.
#[cycle(matching)]
fn matches(alloc: Global, bound: &mut Vec<Binding>, pattern: &Ty, t: &Ty) -> Result<bool, Memory>
    ensures { IfOk result (λ b. Matched b bound.old.items bound.new.items
        (λ σ. plain_type t.now ≡ instance_of σ (plain_type pattern.now))) }
{
    match pattern {
        Ty::Int => Ok(same_type(t, pattern)),
        Ty::Char => Ok(same_type(t, pattern)),
        Ty::Str => Ok(same_type(t, pattern)),
        Ty::Io => Ok(same_type(t, pattern)),
        Ty::Var(v) => matches_variable(alloc, bound, *v, t),
        Ty::Union(u, patterns) => match t {
            Ty::Union(w, types) => {
                Ok(u == w && all_match(alloc, bound, patterns.as_slice(), types.as_slice())?)
            }
            _ => Ok(false),
        },
    }
}

#[cycle(matching)]
fn all_match(
    alloc: Global,
    bound: &mut Vec<Binding>,
    patterns: &[Ty],
    types: &[Ty],
) -> Result<bool, Memory>
    ensures { IfOk result (λ b. Matched b bound.old.items bound.new.items
        (λ σ. map plain_type types.now ≡ map (instance_of σ) (map plain_type patterns.now))) }
{
    if types.len() != patterns.len() {
        return Ok(false);
    }
    for place in 0..types.len() {
        if !matches(alloc, bound, &patterns[place], &types[place])? {
            return Ok(false);
        }
    }
    Ok(true)
}

/// Matches a type with a type variable: the first one that it meets stands for it.
fn matches_variable(
    alloc: Global,
    bound: &mut Vec<Binding>,
    variable: u32,
    t: &Ty,
) -> Result<bool, Memory>
    ensures { IfOk result (λ b. Matched b bound.old.items bound.new.items
        (λ σ. plain_type t.now ≡ σ variable)) }
{
    match find(bound.as_slice(), variable) {
        Some(known) => Ok(same_type(known, t)),
        None => {
            let t = copy_type(alloc, t)?;
            bound.push(Binding { variable, t })?;
            Ok(true)
        }
    }
}

/// The first type for a variable.
fn find(bound: &[Binding], variable: u32) -> Option<&Ty>
    ensures { MatchOption result (bound_to bound.now variable ≡ None)
        (λ t. bound_to bound.now variable ≡ Some (plain_type t.now)) }
{
    for binding in bound {
        if binding.variable == variable {
            return Some(&binding.t);
        }
    }
    None
}
