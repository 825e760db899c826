ghost use Rattle.std.specs.Prelude.{◌≡◌, IfOk, map};
ghost use Rattle.mc_program.specs.PlainPrograms.{plain_type};
ghost use Rattle.mc_type_table.specs.Expanded.{replaced};
ghost use Rattle.mc_type_table.specs.Held.{held};

use mc_base::{Copied, Memory, Row};
use mc_names::Names;
use mc_program::ty::Ty;
use mc_source::name::Name;
use mc_type_table::{SizeBudget, with_definitions};
use std::alloc::Global;

/// The names of a program, and what its types are defined as, by their numbers.
#[derive(Clone, Copy)]
pub struct Declaring<'n> {
    pub alloc: Global,
    pub names: &'n Names,
    pub definitions: &'n [Option<Ty>],
}

impl Declaring<'_> {
    /// Types with the body of its definition for each type that has one.
    pub fn with_definitions(&self, types: &[Ty], room: &mut SizeBudget) -> Result<Row<Ty>, Memory>
        ensures { IfOk result (λ all. map plain_type all
            ≡ map (λ t. replaced (held self.now.definitions.now) (plain_type t)) types.now) }
    {
        let mut all = Vec::with_capacity(self.alloc, types.len())?;
        for one in types {
            all.push(with_definitions(self.alloc, self.definitions, one, room)?)?;
        }
        let row = Row::of(all)?;
        Ok(row)
    }
}

/// Another name that is the same.
pub fn copied_name(alloc: Global, name: &Name) -> Result<Name, Memory>
    ensures { IfOk result (λ copy. copy ≡ name.now) }
{
    Ok(Name {
        module: name.module.copied(alloc)?,
        name: name.name.copied(alloc)?,
        arity: name.arity,
    })
}
