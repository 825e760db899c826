ghost use Rattle.std.specs.Prelude.{◌≡◌, IfOk, length, map};
ghost use Rattle.mc_term_data.specs.Plain.{plain_term, term_list};
ghost use Rattle.mc_program.specs.Programs.{union_type, no_types};
ghost use Rattle.mc_program.specs.PlainPrograms.{plain_type, type_terms};
ghost use Rattle.mc_names.specs.Linked.{plain_names};
ghost use Rattle.mc_declarations.specs.code.Walking.{Walked, type_walk, types_walk};

use mc_base::{Memory, Row};
use mc_clauses::{Module, Variables};
use mc_program::ty::Ty;
use mc_term_data::{Node, Term};
use mc_type_table::named_type;

/// The types that a declaration writes, one behind another, whose variables are numbered as they are met.
pub fn declared_all<'a>(
    at: &Module<'_>,
    terms: &[&'a Term],
    variables: &mut Variables<'a>,
) -> Result<Row<Ty>, Memory>
    ensures { IfOk result (λ made. Walked (λ row. type_terms (map plain_type row))
        (types_walk at.now (map (λ t. plain_term t.now) terms.now)) variables.old variables.new made) }
{
    let mut made = Vec::with_capacity(at.alloc, terms.len())?;
    for term in terms {
        made.push(declared_type(at, *term, variables)?)?;
    }
    let row = Row::of(made)?;
    Ok(row)
}

// The type that a term writes. It takes stack for each level of the term.
#[cycle(declared)]
fn declared_type<'a>(
    at: &Module<'_>,
    term: &'a Term,
    variables: &mut Variables<'a>,
) -> Result<Ty, Memory>
    ensures { IfOk result (λ made. Walked plain_type (type_walk at.now (plain_term term.now))
        variables.old variables.new made) }
{
    match &term.node {
        Node::Var(name) => {
            let number = variables.number(name.bytes())?;
            Ok(Ty::Var(number))
        }
        Node::App(name, args) => {
            let types = declared_types(at, args.as_slice(), variables)?;
            let made = named_type(at.alloc, at.names, at.own, name, types)?;
            Ok(made)
        }
        Node::Int(_) => Ok(no_type(at)),
        Node::Str(_) => Ok(no_type(at)),
        Node::List(_, None) => Ok(no_type(at)),
        Node::List(_, Some(_)) => Ok(no_type(at)),
        Node::Conj(_) => Ok(no_type(at)),
        Node::Disj(_) => Ok(no_type(at)),
    }
}

#[cycle(declared)]
fn declared_types<'a>(
    at: &Module<'_>,
    terms: &'a [Term],
    variables: &mut Variables<'a>,
) -> Result<Row<Ty>, Memory>
    ensures { IfOk result (λ made. Walked (λ row. type_terms (map plain_type row))
        (types_walk at.now (map plain_term terms.now)) variables.old variables.new made) }
{
    let mut made = Vec::with_capacity(at.alloc, terms.len())?;
    for term in terms {
        made.push(declared_type(at, term, variables)?)?;
    }
    let row = Row::of(made)?;
    Ok(row)
}

// What a term is that is no type.
fn no_type(at: &Module<'_>) -> Ty
    ensures { plain_type result ≡ union_type (length (plain_names at.now.names.now).types) no_types }
{
    Ty::Union(at.names.types.len(), Row::new(at.alloc))
}
