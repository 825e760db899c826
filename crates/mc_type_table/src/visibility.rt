ghost use Rattle.std.specs.Prelude.{◌≡◌, ℕ, false, not, nat_eq, length, map, Some, IfOk};
ghost use Rattle.mc_names.specs.Linked.{plain_named, plain_names, module_from, defining_module};
ghost use Rattle.mc_type_table.specs.Expanded.{after_rounds};
ghost use Rattle.mc_type_table.specs.Rules.{definitions};
ghost use Rattle.mc_type_table.specs.Visibility.{sees, sees_definition, definitions_seen};
ghost use Rattle.mc_type_table.specs.Held.{held};
ghost use Rattle.mc_type_table.specs.code.Kept.{AreEquivalences};

use crate::definitions::Equivalences;
use crate::expansion::expanded_definitions;
use crate::replaced::SizeBudget;
use mc_base::Memory;
use mc_names::{Named, Names, Scope, defining_module};
use mc_program::ty::Ty;
use std::alloc::Global;

/// Whether the module of a number sees what a type, which has a number too, is defined as: its own module does, and others
/// do where an interface defines it. Elsewhere the type is one of its own.
pub fn sees_definition(names: &Names, own: u32, number: u32) -> bool
    ensures { result ≡ sees_definition (plain_names names.now) own number }
{
    number < names.types.len() && sees(names, own, names.types.get(number))
}

/// What the module of a number sees that types are defined as, in which no equivalence is left.
///
/// # Errors
///
/// `Memory` where there is no room, or where types that are written out are too large (room).
pub fn seen_definitions(
    alloc: Global,
    names: &Names,
    own: u32,
    room: &mut SizeBudget,
) -> Result<Vec<Option<Ty>>, Memory>
    ensures { IfOk result
        (λ row.
        (u : ℕ) → held row.items u
        ≡ after_rounds (length (plain_names names.now).types)
        (definitions_seen (plain_names names.now) own) u) }
{
    let equivalences = Equivalences::of(alloc, names)?;
    seen_of(alloc, names, &equivalences, own, room)
}

/// What the types of a program are defined as, whoever sees it, in which no equivalence is left.
///
/// # Errors
///
/// `Memory` where there is no room, or where types that are written out are too large (room).
pub fn all_definitions(
    alloc: Global,
    names: &Names,
    room: &mut SizeBudget,
) -> Result<Vec<Option<Ty>>, Memory>
    ensures { IfOk result
        (λ row.
        (u : ℕ) → held row.items u
        ≡ after_rounds (length (plain_names names.now).types) (definitions (plain_names names.now)) u) }
{
    let equivalences = Equivalences::of(alloc, names)?;
    expanded_definitions(alloc, &equivalences, &[], room)
}

// What a module sees of a program's equivalences.
fn seen_of(
    alloc: Global,
    names: &Names,
    equivalences: &Equivalences,
    own: u32,
    room: &mut SizeBudget,
) -> Result<Vec<Option<Ty>>, Memory>
    ensures { IfOk result
        (λ row.
        AreEquivalences (plain_names names.now) equivalences.now
        → (u : ℕ) → held row.items u
        ≡ after_rounds (length (plain_names names.now).types)
        (definitions_seen (plain_names names.now) own) u) }
{
    let hidden = hidden_from(alloc, names, own)?;
    expanded_definitions(alloc, equivalences, hidden.as_slice(), room)
}

// Which definitions the module of a number doesn't see.
fn hidden_from(alloc: Global, names: &Names, own: u32) -> Result<Vec<bool>, Memory>
    ensures { IfOk result
        (λ hidden.
        hidden.items
        ≡ map (λ n. not (sees (plain_names names.now) own (Some (plain_named n)))) names.now.types) }
{
    let mut hidden = Vec::new(alloc);
    for named in names.types.as_slice() {
        let is_seen = sees(names, own, named);
        hidden.push(!is_seen)?;
    }
    Ok(hidden)
}

fn sees(names: &Names, own: u32, named: &Named) -> bool
    ensures { result ≡ sees (plain_names names.now) own (Some (plain_named named.now)) }
{
    named.shown || is_at_home(names, own, named)
}

// Whether a type is defined in the module of a number.
fn is_at_home(names: &Names, own: u32, named: &Named) -> bool
    ensures { result ≡ nat_eq own (defining_module (plain_names names.now) (plain_named named.now)) }
{
    can_be_named(names.scopes.as_slice(), own, named.name.module.bytes())
        && own == defining_module(names, named)
}

// Whether a module can be the first of a name, without a look at all modules.
fn can_be_named(scopes: &[Scope], own: u32, name: &[u8]) -> bool
    ensures { result ≡ false → nat_eq own (module_from 0 name.now scopes.now) ≡ false }
{
    match scopes.get(own as usize) {
        Some(scope) => scope.module.bytes() == name,
        None => true,
    }
}
