ghost use Rattle.std.specs.Prelude.{◌≡◌, ◌+◌, ◌<◌, ◌^◌, length, IfOk};
ghost use Rattle.mc_term_data.specs.Plain.{plain_term, term_list};
ghost use Rattle.mc_model.specs.Lists.{from};
ghost use Rattle.mc_decl_syntax.specs.Plain.{plain_item};
ghost use Rattle.mc_names.specs.Linked.{plain_names};
ghost use Rattle.mc_type_table.specs.Table.{constructor_count, table};

use mc_base::{Copied, Memory, Row};
use mc_decl_syntax::Decl;
use mc_names::{Named, Names};
use mc_program::program::TypeDef;
use mc_source::name::Name;
use std::alloc::Global;

/// The types of a program by their numbers, with their parameters and constructors, whatever rules they break.
///
/// # Errors
///
/// `Memory` where there is no room.
#[tactic(auto, using(crate::proofs::Numbers::table_more))]
pub fn types_of(alloc: Global, names: &Names) -> Result<Row<TypeDef>, Memory>
    ensures { IfOk result (λ types. types ≡ table (plain_names names.now)) }
{
    let all = names.types.as_slice();
    let mut types = Vec::new(alloc);
    let mut first = 0;
    for named in all {
        let count = constructor_count(&named.decl);
        if count > u32::MAX - first {
            return Err(Memory);
        }
        types.push(type_of(alloc, named, first, count)?)?;
        first += count;
    }
    Row::of(types)
}

// How many constructors a definition has.
#[tactic(auto, using(mc_names::proofs::Places::count_is_length))]
fn constructor_count(decl: &Decl) -> u32
    ensures { result ≡ constructor_count (plain_item decl.now) }
{
    match decl {
        Decl::UnionType(_, constructors) => constructors.len(),
        _ => 0,
    }
}

// A type whose constructors have these numbers.
fn type_of(alloc: Global, named: &Named, first: u32, count: u32) -> Result<TypeDef, Memory>
    requires { first + count < 2 ^ 32 }
    ensures { IfOk result
        (λ d.
        d
        ≡ record {
          name = named.now.name;
          params = named.now.name.arity;
          symbols = from first count;
        }) }
{
    Ok(TypeDef {
        name: copied_name(alloc, &named.name)?,
        params: named.name.arity,
        symbols: numbers(alloc, first, count)?,
    })
}

fn copied_name(alloc: Global, name: &Name) -> Result<Name, Memory>
    ensures { IfOk result (λ copy. copy ≡ name.now) }
{
    Ok(Name {
        module: name.module.copied(alloc)?,
        name: name.name.copied(alloc)?,
        arity: name.arity,
    })
}

// So many numbers from one on.
#[tactic(auto, using(crate::proofs::Numbers::from_more))]
fn numbers(alloc: Global, first: u32, count: u32) -> Result<Row<u32>, Memory>
    requires { first + count < 2 ^ 32 }
    ensures { IfOk result (λ all. all ≡ from first count) }
{
    let mut all = Vec::new(alloc);
    for k in 0..count {
        all.push(first + k)?;
    }
    Row::of(all)
}
