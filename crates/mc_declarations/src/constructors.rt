ghost use Rattle.std.specs.Prelude.{◌≡◌, ◌++◌, ◌∷◌, [], IfOk, OnOk, map};
ghost use Rattle.mc_term_data.specs.Plain.{plain_term, term_list};
ghost use Rattle.mc_program.specs.PlainPrograms.{plain_type, plain_symbol};
ghost use Rattle.mc_names.specs.Linked.{plain_named, plain_names};
ghost use Rattle.mc_type_table.specs.Rules.{constructor_fields};
ghost use Rattle.mc_type_table.specs.Held.{held};
ghost use Rattle.mc_decl_syntax.specs.Plain.{plain_item};
ghost use Rattle.mc_declarations.specs.code.With.{field_with, constructor_with, constructors_of, constructors_with, all_with};

use crate::declaring::Declaring;
use mc_base::{Memory, Row, Text};
use mc_decl_syntax::Decl;
use mc_names::{Named, defining_module, parameters_of, symbol_name};
use mc_program::program::Symbol;
use mc_program::ty::Ty;
use mc_source::name::Name;
use mc_term_data::Term;
use mc_type_table::{SizeBudget, constructor_fields, type_of_term, with_definitions};

/// A union type whose constructors are declared: its number, the name and the number of its module, and its parameters.
#[derive(Clone, Copy)]
struct Union<'n> {
    number: u32,
    within: &'n Text,
    own: u32,
    parameters: &'n [Text],
}

/// The constructors of a program, in the order of its types.
pub fn constructors(at: &Declaring<'_>, room: &mut SizeBudget) -> Result<Row<Symbol>, Memory>
    ensures { IfOk result (λ all. map plain_symbol all
        ≡ all_with (plain_names at.now.names.now) (held at.now.definitions.now) 0
        (plain_names at.now.names.now).types) }
{
    let types = at.names.types.as_slice();
    let mut all = Vec::new(at.alloc);
    let mut number: u32 = 0;
    for named in types {
        put_constructors(at, number, named, &mut all, room)?;
        number += 1;
    }
    let row = Row::of(all)?;
    Ok(row)
}

// Puts the constructors of a type behind others.
fn put_constructors(
    at: &Declaring<'_>,
    number: u32,
    named: &Named,
    all: &mut Vec<Symbol>,
    room: &mut SizeBudget,
) -> Result<(), Memory>
    ensures { OnOk result (map plain_symbol all.new.items
        ≡ map plain_symbol all.old.items
        ++ constructors_with (plain_names at.now.names.now) (held at.now.definitions.now) number
        (plain_named named.now) (plain_item named.now.decl)) }
{
    match &named.decl {
        Decl::UnionType(head, constructors) => {
            let parameters = parameters_of(at.alloc, head)?;
            let union = Union {
                number,
                within: &named.name.module,
                own: defining_module(at.names, named),
                parameters: parameters.as_slice(),
            };
            put_of_union(at, &union, constructors.as_slice(), all, room)
        }
        _ => Ok(()),
    }
}

// Puts the constructors of a union behind others.
fn put_of_union(
    at: &Declaring<'_>,
    union: &Union<'_>,
    terms: &[Term],
    all: &mut Vec<Symbol>,
    room: &mut SizeBudget,
) -> Result<(), Memory>
    ensures { OnOk result (map plain_symbol all.new.items
        ≡ map plain_symbol all.old.items
        ++ constructors_of (plain_names at.now.names.now) (held at.now.definitions.now)
        union.now.within.now union.now.number union.now.own union.now.parameters.now
        (term_list (map plain_term terms.now))) }
{
    for term in terms {
        all.push(constructor(at, union, term, room)?)?;
    }
    Ok(())
}

// A constructor of a union.
fn constructor(
    at: &Declaring<'_>,
    union: &Union<'_>,
    term: &Term,
    room: &mut SizeBudget,
) -> Result<Symbol, Memory>
    ensures { IfOk result (λ made. plain_symbol made
        ≡ constructor_with (plain_names at.now.names.now) (held at.now.definitions.now)
        union.now.within.now union.now.number union.now.own union.now.parameters.now
        (plain_term term.now)) }
{
    let id = symbol_name(term);
    if id.arity > u32::MAX as usize {
        return Err(Memory);
    }
    let args = field_types(at, union, term, room)?;
    let module = Text::new(at.alloc, union.within.bytes())?;
    let name = Text::new(at.alloc, id.name)?;
    let arity = id.arity as u32;
    Ok(Symbol {
        name: Name {
            module,
            name,
            arity,
        },
        of_type: union.number,
        args,
    })
}

// The types of a constructor's arguments.
fn field_types(
    at: &Declaring<'_>,
    union: &Union<'_>,
    term: &Term,
    room: &mut SizeBudget,
) -> Result<Row<Ty>, Memory>
    ensures { IfOk result (λ types. map plain_type types
        ≡ map (field_with (plain_names at.now.names.now) (held at.now.definitions.now)
        union.now.own union.now.parameters.now) (constructor_fields (plain_term term.now))) }
{
    let fields = constructor_fields(at.alloc, term)?;
    let types = types_of_fields(at, union, fields.as_slice(), room)?;
    Ok(types)
}

fn types_of_fields(
    at: &Declaring<'_>,
    union: &Union<'_>,
    fields: &[&Term],
    room: &mut SizeBudget,
) -> Result<Row<Ty>, Memory>
    ensures { IfOk result (λ types. map plain_type types
        ≡ map (λ t. field_with (plain_names at.now.names.now) (held at.now.definitions.now)
        union.now.own union.now.parameters.now (plain_term t.now)) fields.now) }
{
    let mut types = Vec::with_capacity(at.alloc, fields.len())?;
    for field in fields {
        let written = type_of_term(at.alloc, at.names, union.own, union.parameters, *field)?;
        types.push(with_definitions(at.alloc, at.definitions, &written, room)?)?;
    }
    let row = Row::of(types)?;
    Ok(row)
}
