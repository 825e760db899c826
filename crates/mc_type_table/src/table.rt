ghost use Rattle.std.specs.Prelude.{◌≡◌, [], IfOk, IfErr};
ghost use Rattle.mc_names.specs.Linked.{plain_names};
ghost use Rattle.mc_type_table.specs.Rules.{type_faults};
ghost use Rattle.mc_type_table.specs.Table.{table, IsRefusedTable};

use crate::faults::broken_types;
use crate::types::types_of;
use mc_base::Row;
use mc_decl_syntax::ItemsFault;
use mc_names::Names;
use mc_program::program::TypeDef;
use std::alloc::Global;

/// The types of a program by their numbers, with their parameters and constructors, where their definitions break no
/// rule.
///
/// # Errors
///
/// `Broken` where types break T3, T4 or T5: one for each such type, its first, in the order of the files and their
/// items.
pub fn type_table(alloc: Global, names: &Names) -> Result<Row<TypeDef>, ItemsFault>
    ensures table { IfOk result (λ types. types ≡ table (plain_names names.now)) }
    ensures legal { IfOk result (λ _. type_faults (plain_names names.now) ≡ []) }
    ensures refusal { IfErr result (IsRefusedTable (plain_names names.now)) }
{
    let broken = broken_types(alloc, names)?;
    if broken.is_empty() {
        return Ok(types_of(alloc, names)?);
    }
    Err(ItemsFault::Broken(Row::of(broken)?))
}
