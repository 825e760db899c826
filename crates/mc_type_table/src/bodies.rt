ghost use Rattle.std.specs.Prelude.{◌≡◌, [], ◌∷◌, ◌++◌, length, map, Some, IfOk, OnOk};
ghost use Rattle.mc_term_data.specs.Plain.{plain_term};
ghost use Rattle.mc_program.specs.PlainPrograms.{plain_type};
ghost use Rattle.mc_names.specs.Linked.{Linked, plain_named, plain_names};
ghost use Rattle.mc_type_table.specs.Written.{written_type};
ghost use Rattle.mc_type_table.specs.Expanded.{replaced, after_rounds};
ghost use Rattle.mc_type_table.specs.Rules.{types_in, types_in_all, definitions, body, is_of_group, is_one_irregular};
ghost use Rattle.mc_type_table.specs.Held.{held};
ghost use Rattle.mc_type_table.specs.code.Grown.{grown_in, grown_in_all};
ghost use Rattle.mc_type_table.specs.code.Kept.{contents, AreBodies};

use crate::expansion::row;
use crate::fields::union_fields;
use crate::mentioned::{put_grown, put_types_in};
use crate::replaced::{SizeBudget, with_definitions};
use crate::written::type_of_term;
use mc_base::{Memory, Row, Text};
use mc_components::{components, one_comes_back};
use mc_decl_syntax::Decl;
use mc_names::{Named, Names, defining_module, parameters_of};
use mc_program::ty::Ty;
use mc_term_data::Term;
use std::alloc::Global;

/// The bodies of a program's unions, by the numbers of the types: which types stand in a body; which of them over an
/// argument that is neither a type variable nor without type variables; and the components of the graph.
#[derive(Drop)]
pub struct Bodies {
    pub graph: Row<Row<u32>>,
    pub grown: Row<Row<u32>>,
    pub components: Row<u32>,
}

impl Bodies {
    /// The bodies of a program's unions, with the definitions of these types in place of their names.
    ///
    /// # Errors
    ///
    /// `Memory` where there is no room, or none for the parts of the types.
    pub fn of(
        alloc: Global,
        names: &Names,
        definitions: &[Option<Ty>],
        room: &mut SizeBudget,
    ) -> Result<Bodies, Memory>
        ensures { IfOk result (λ b. AreBodies (plain_names names.now) (held definitions.now) b) }
    {
        let Rows { types, grown } = rows_of_all(alloc, names, definitions, room)?;
        let graph = Row::of(types)?;
        let grown = Row::of(grown)?;
        let components = components(alloc, &graph)?;
        Ok(Bodies {
            graph,
            grown,
            components,
        })
    }

    /// Whether the body of a union holds a type of its group over other arguments than the group allows.
    pub fn is_irregular(&self, number: u32) -> bool
        ensures { (l : Linked)
            → AreBodies l (after_rounds (length l.types) (definitions l)) self.now
            → result ≡ is_one_irregular (λ k. is_of_group l k number) (body l number) }
    {
        one_comes_back(&self.components, number, row(&self.grown, number))
    }
}

// What stands in the body of a union.
#[derive(Drop)]
struct Contents {
    types: Vec<u32>,
    grown: Vec<u32>,
}

impl Contents {
    fn new(alloc: Global) -> Contents
        ensures types { result.types.items ≡ [] }
        ensures grown { result.grown.items ≡ [] }
    {
        Contents {
            types: Vec::new(alloc),
            grown: Vec::new(alloc),
        }
    }

    fn put(&mut self, t: &Ty) -> Result<(), Memory>
        ensures types { OnOk result
            (self.new.types.items ≡ self.old.types.items ++ types_in (plain_type t.now)) }
        ensures grown { OnOk result
            (self.new.grown.items ≡ self.old.grown.items ++ grown_in (plain_type t.now)) }
    {
        put_types_in(t, &mut self.types)?;
        put_grown(t, &mut self.grown)?;
        Ok(())
    }
}

// What stands in the bodies of unions, by the numbers of the types.
#[derive(Drop)]
struct Rows {
    types: Vec<Row<u32>>,
    grown: Vec<Row<u32>>,
}

impl Rows {
    fn put(&mut self, contents: Contents) -> Result<(), Memory>
        ensures types { OnOk result
            (self.new.types.items ≡ self.old.types.items ++ contents.types.items ∷ []) }
        ensures grown { OnOk result
            (self.new.grown.items ≡ self.old.grown.items ++ contents.grown.items ∷ []) }
    {
        let Contents { types, grown } = contents;
        self.types.push(Row::of(types)?)?;
        self.grown.push(Row::of(grown)?)?;
        Ok(())
    }
}

fn rows_of_all(
    alloc: Global,
    names: &Names,
    definitions: &[Option<Ty>],
    room: &mut SizeBudget,
) -> Result<Rows, Memory>
    ensures types { IfOk result
        (λ r.
        r.types.items
        ≡ map
        (λ n.
        types_in_all
        (contents (held definitions.now) (plain_names names.now) (Some (plain_named n))))
        names.now.types) }
    ensures grown { IfOk result
        (λ r.
        r.grown.items
        ≡ map
        (λ n.
        grown_in_all
        (contents (held definitions.now) (plain_names names.now) (Some (plain_named n))))
        names.now.types) }
{
    let mut rows = Rows {
        types: Vec::new(alloc),
        grown: Vec::new(alloc),
    };
    for named in names.types.as_slice() {
        let body = union_contents(alloc, names, named, definitions, room)?;
        rows.put(body)?;
    }
    Ok(rows)
}

fn union_contents(
    alloc: Global,
    names: &Names,
    named: &Named,
    definitions: &[Option<Ty>],
    room: &mut SizeBudget,
) -> Result<Contents, Memory>
    ensures types { IfOk result
        (λ c.
        c.types.items
        ≡ types_in_all
        (contents (held definitions.now) (plain_names names.now) (Some (plain_named named.now)))) }
    ensures grown { IfOk result
        (λ c.
        c.grown.items
        ≡ grown_in_all
        (contents (held definitions.now) (plain_names names.now) (Some (plain_named named.now)))) }
{
    match &named.decl {
        Decl::UnionType(head, constructors) => {
            let variables = parameters_of(alloc, head)?;
            let fields = union_fields(alloc, constructors.as_slice())?;
            contents_of_fields(
                alloc,
                names,
                defining_module(names, named),
                variables.as_slice(),
                fields.as_slice(),
                definitions,
                room,
            )
        }
        _ => Ok(Contents::new(alloc)),
    }
}

fn contents_of_fields(
    alloc: Global,
    names: &Names,
    own: u32,
    variables: &[Text],
    fields: &[&Term],
    definitions: &[Option<Ty>],
    room: &mut SizeBudget,
) -> Result<Contents, Memory>
    ensures types { IfOk result
        (λ c.
        c.types.items
        ≡ types_in_all
        (map
        (λ t.
        replaced (held definitions.now)
        (written_type (plain_names names.now) own variables.now (plain_term t.now)))
        fields.now)) }
    ensures grown { IfOk result
        (λ c.
        c.grown.items
        ≡ grown_in_all
        (map
        (λ t.
        replaced (held definitions.now)
        (written_type (plain_names names.now) own variables.now (plain_term t.now)))
        fields.now)) }
{
    let mut contents = Contents::new(alloc);
    for field in fields {
        let t = type_of_term(alloc, names, own, variables, *field)?;
        let t = with_definitions(alloc, definitions, &t, room)?;
        contents.put(&t)?;
    }
    Ok(contents)
}
