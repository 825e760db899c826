ghost use Rattle.std.specs.Prelude.{◌≡◌, ◌<◌, ◌^◌, ℕ, List, length, map, slice_get, IfOk};
ghost use Rattle.mc_names.specs.Plain.{plain_name_arity};
ghost use Rattle.mc_names.specs.Linked.{plain_named, plain_names};
ghost use Rattle.mc_names.specs.Numbers.{numbers_where};
ghost use Rattle.mc_names.specs.Candidates.{is_module, named_so, looked_in, type_fits};
ghost use Rattle.mc_inst_table.specs.Written.{numbers_among, first_or, meaning};
ghost use Rattle.mc_inst_table.specs.Rules.{own_number};

use mc_base::{Copied, Memory, Row, Text};
use mc_names::{Kind, NameArity, Named, Names, Occurrence, joined};
use std::alloc::Global;

/// Which of some definitions a name over so many arguments means in a module, by its number. Where there is none, which
/// linking refuses, it is a number that none has.
///
/// # Errors
///
/// `Memory` where there is no room.
pub fn meaning(
    alloc: Global,
    names: &Names,
    own: u32,
    definitions: &Row<Named>,
    name: &Row<Text>,
    arity: u32,
) -> Result<u32, Memory>
    ensures { IfOk result
        (λ k.
        k
        ≡ meaning (plain_names names.now) own (map plain_named definitions.now) name.now arity) }
{
    let used = Occurrence::of(Kind::Inst, name.as_slice(), arity as usize);
    let modules = looked_in(alloc, names, own, used.qualifiers)?;
    Ok(first_of(
        names,
        own,
        used.id,
        definitions.as_slice(),
        modules.as_slice(),
    ))
}

/// The number of the definition of a name that stands in the module itself, among some. Where there is none, it is a number
/// that none has.
pub fn own_number(names: &Names, own: u32, id: NameArity, definitions: &Row<Named>) -> u32
    ensures { result
        ≡ own_number (plain_names names.now) own (map plain_named definitions.now)
        (plain_name_arity id.entry) }
{
    first_of(names, own, id, definitions.as_slice(), &[own])
}

// The modules in which a name with these qualifiers is looked up.
fn looked_in(
    alloc: Global,
    names: &Names,
    own: u32,
    qualifiers: &[Text],
) -> Result<Row<u32>, Memory>
    ensures { IfOk result
        (λ all.
        all
        ≡ looked_in (plain_names names.now) (slice_get names.now.scopes own) qualifiers.now) }
{
    if own >= names.scopes.len() {
        return Ok(Row::new(alloc));
    }
    let scope = names.scopes.get(own);
    if qualifiers.is_empty() {
        return scope.unqualified.copied(alloc);
    }
    let name = joined(alloc, qualifiers)?;
    named_so(alloc, names, &name, scope.seen.as_slice())
}

// Those of these modules that have a name.
fn named_so(alloc: Global, names: &Names, name: &Text, modules: &[u32]) -> Result<Row<u32>, Memory>
    ensures { IfOk result (λ all. all ≡ named_so (plain_names names.now) name.now modules.now) }
{
    let mut all = Vec::new(alloc);
    for module in modules {
        if is_module(names, *module, name) {
            all.push(*module)?;
        }
    }
    Row::of(all)
}

// Whether the module of this number has a name.
fn is_module(names: &Names, number: u32, name: &Text) -> bool
    ensures { result ≡ is_module name.now (slice_get names.now.scopes number) }
{
    number < names.scopes.len() && names.scopes.get(number).module.bytes() == name.bytes()
}

// The number of the first definition of a name that these modules have, or that of the definitions' end.
#[tactic(auto, using(crate::proofs::Meanings::module_here, crate::proofs::Meanings::module_there))]
fn first_of(names: &Names, own: u32, id: NameArity, definitions: &[Named], modules: &[u32]) -> u32
    requires { length definitions.now < 2 ^ 32 }
    ensures { result
        ≡ first_or (length (map plain_named definitions.now))
        (numbers_among (plain_names names.now) own (plain_name_arity id.entry)
        (map plain_named definitions.now) modules.now) }
{
    for module in modules {
        if let Some(number) = first_in(names, own, id, definitions, *module) {
            return number;
        }
    }
    definitions.len() as u32
}

// The number of the first definition of a name that a module has.
fn first_in(
    names: &Names,
    own: u32,
    id: NameArity,
    definitions: &[Named],
    module: u32,
) -> Option<u32>
    requires { length definitions.now < 2 ^ 32 }
    ensures { result
        ≡ slice_get
        (numbers_where (type_fits (plain_names names.now) own (plain_name_arity id.entry) «module») 0
        (map plain_named definitions.now))
        0 }
{
    let mut number = 0;
    for named in definitions {
        if is_seen_as(names, own, id, module, named) {
            return Some(number);
        }
        number += 1;
    }
    None
}

// Whether a definition stands in a module, has a name, and is seen by the module of the number `own`.
fn is_seen_as(names: &Names, own: u32, id: NameArity, module: u32, named: &Named) -> bool
    ensures { result
        ≡ type_fits (plain_names names.now) own (plain_name_arity id.entry) «module»
        (plain_named named.now) }
{
    let name = &named.name;
    is_module(names, module, &name.module)
        && ((own == module || named.exported)
            && (name.arity as usize == id.arity && name.name.bytes() == id.name))
}
