ghost use Rattle.std.specs.Prelude.{◌≡◌, Some, IfOk};
ghost use Rattle.std.specs.Option.{option_map};
ghost use Rattle.mc_decl_syntax.specs.Plain.{plain_item};
ghost use Rattle.mc_program.specs.PlainPrograms.{plain_type};
ghost use Rattle.mc_names.specs.Linked.{plain_named, plain_names};
ghost use Rattle.mc_type_table.specs.Expanded.{equivalent_by, equivalent_of};

use crate::written::type_of_term;
use mc_base::Memory;
use mc_decl_syntax::Decl;
use mc_names::{Named, Names, defining_module, parameters_of};
use mc_program::ty::Ty;
use std::alloc::Global;

/// What a type stands for that is defined by `==`, over its parameters, with equivalences by their names; None of any
/// other type.
///
/// # Errors
///
/// `Memory` where there is no room.
pub fn equivalent(alloc: Global, names: &Names, named: &Named) -> Result<Option<Ty>, Memory>
    ensures { IfOk result
        (λ t.
        option_map plain_type t
        ≡ equivalent_of (plain_names names.now) (Some (plain_named named.now))) }
{
    equivalent_by(alloc, names, defining_module(names, named), &named.decl)
}

fn equivalent_by(alloc: Global, names: &Names, own: u32, decl: &Decl) -> Result<Option<Ty>, Memory>
    ensures { IfOk result
        (λ t.
        option_map plain_type t
        ≡ equivalent_by (plain_names names.now) own (plain_item decl.now)) }
{
    match decl {
        Decl::SameType(head, body) => {
            let variables = parameters_of(alloc, head)?;
            let t = type_of_term(alloc, names, own, variables.as_slice(), body)?;
            Ok(Some(t))
        }
        _ => Ok(None),
    }
}
