ghost use Rattle.std.specs.Prelude.{◌≡◌, ◌∷◌, ◌++◌, [], codes, map, IfOk, OnOk};
ghost use Rattle.mc_term_data.specs.Plain.{plain_term, term_list};
ghost use Rattle.mc_decl_syntax.specs.Plain.{plain_item};
ghost use Rattle.mc_term_data.specs.Shapes.{operands};
ghost use Rattle.mc_names.specs.Plain.{plain_name_arity, plain_definition, definition};
ghost use Rattle.mc_names.specs.Definitions as T;

use mc_base::Memory;
use mc_decl_syntax::Decl;
use mc_names::{Definition, Kind, NameArity, head_name, symbol_name};
use mc_term_data::{Term, operands};
use std::alloc::Global;

/// What an item declares or defines, in order.
pub fn definitions<'a>(alloc: Global, decl: &'a Decl) -> Result<Vec<Definition<'a>>, Memory>
    ensures { IfOk result (λ all. map plain_definition all.items ≡ T.definitions (plain_item decl.now)) }
{
    let mut definitions = Vec::new(alloc);
    add_definitions(&mut definitions, decl)?;
    Ok(definitions)
}

#[tactic(auto, using(crate::proofs::Views::no_more_definitions, crate::proofs::Views::appended_definitions))]
fn add_definitions<'a>(definitions: &mut Vec<Definition<'a>>, decl: &'a Decl) -> Result<(), Memory>
    ensures { OnOk result
        (map plain_definition definitions.new.items
        ≡ map plain_definition definitions.old.items ++ T.definitions (plain_item decl.now)) }
{
    match decl {
        Decl::AbstractType(head) => add(definitions, Kind::AbstractType, head_name(head)),
        Decl::UnionType(head, constructors) => {
            add(definitions, Kind::DefinedType, head_name(head))?;
            add_symbols(definitions, constructors.as_slice())
        }
        Decl::SameType(head, _) => add(definitions, Kind::DefinedType, head_name(head)),
        Decl::SameInst(head, _) => add(definitions, Kind::Inst, head_name(head)),
        Decl::BoundInst(head, _) => add(definitions, Kind::Inst, head_name(head)),
        Decl::ModeDef(head, _) => add(definitions, Kind::Mode, head_name(head)),
        Decl::Pred(term, _) => add(definitions, Kind::Pred, head_name(term)),
        Decl::Func(term, _) => add(definitions, Kind::Func, func_name(term)),
        _ => Ok(()),
    }
}

// The name of a function that is declared.
fn func_name(term: &Term) -> NameArity<'_>
    ensures { plain_name_arity result ≡ T.func_name (operands (codes "=") (plain_term term.now)) }
{
    match operands(b"=", term) {
        Some((function, _)) => head_name(function),
        None => NameArity::none(),
    }
}

#[tactic(auto, using(crate::proofs::Views::no_more_definitions, crate::proofs::Views::appended_definitions))]
fn add_symbols<'a>(definitions: &mut Vec<Definition<'a>>, terms: &'a [Term]) -> Result<(), Memory>
    ensures { OnOk result
        (map plain_definition definitions.new.items
        ≡ map plain_definition definitions.old.items
        ++ T.symbols (term_list (map plain_term terms.now))) }
{
    for term in terms {
        add(definitions, Kind::Symbol, symbol_name(term))?;
    }
    Ok(())
}

#[tactic(auto, using(crate::proofs::Views::one_more_definition))]
fn add<'a>(
    definitions: &mut Vec<Definition<'a>>,
    kind: Kind,
    id: NameArity<'a>,
) -> Result<(), Memory>
    ensures { OnOk result
        (map plain_definition definitions.new.items
        ≡ map plain_definition definitions.old.items
        ++ definition kind (plain_name_arity id.entry) ∷ []) }
{
    definitions.push(Definition { kind, id })?;
    Ok(())
}
