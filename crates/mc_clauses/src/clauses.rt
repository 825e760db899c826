ghost use Rattle.std.specs.Prelude.{◌≡◌, IfOk, map};
ghost use Rattle.mc_term_data.specs.Plain.{plain_term, term_list};
ghost use Rattle.mc_names.specs.Linked.{plain_names};
ghost use Rattle.mc_unresolved.specs.Unresolved.{plain_unresolved, unresolved_terms, plain_unresolved_clause};
ghost use Rattle.mc_clauses.specs.Unresolved.{unresolved_clause, unresolved_query, arguments_of, source_name};
ghost use Rattle.mc_clauses.specs.code.Walking.{Walked};
ghost use Rattle.mc_clauses.specs.code.Clauses.{head_walk};

use crate::goals::goal;
use crate::terms::{Module, term, terms};
use crate::variables::Variables;
use mc_base::{Memory, Row, Text};
use mc_source::place::Place;
use mc_term_data::{Node, Term, operands};
use mc_unresolved::{Unresolved, UnresolvedClause, UnresolvedGoal};
use std::alloc::Global;

/// A clause of a predicate or a function before its names are resolved, from its term, in which state variables are
/// written out. (Mercury Language Reference Manual: Clauses.)
pub fn unresolved_clause(
    at: &Module<'_>,
    pred: u32,
    place: Place,
    clause: &Term,
) -> Result<UnresolvedClause, Memory>
    ensures clause { IfOk result (λ made. plain_unresolved_clause made
        ≡ (unresolved_clause (plain_names at.now.names.now) at.now.own pred (plain_term clause.now)).clause) }
    ensures names { IfOk result (λ made. made.names
        ≡ (unresolved_clause (plain_names at.now.names.now) at.now.own pred (plain_term clause.now)).names) }
    ensures place { IfOk result (λ made. made.place ≡ place) }
{
    let mut variables = Variables::new(at.alloc);
    match operands(b":-", clause) {
        Some((head_term, body)) => {
            let head = head(at, head_term, &mut variables)?;
            let body = goal(at, body, &mut variables)?;
            let names = source_names(at.alloc, &variables.names)?;
            Ok(UnresolvedClause {
                pred,
                head,
                body,
                names,
                place,
            })
        }
        None => {
            let head = head(at, clause, &mut variables)?;
            let body = UnresolvedGoal::AllOf(Row::new(at.alloc));
            let names = source_names(at.alloc, &variables.names)?;
            Ok(UnresolvedClause {
                pred,
                head,
                body,
                names,
                place,
            })
        }
    }
}

/// The goal of a query, as a clause without arguments.
pub fn unresolved_query(
    at: &Module<'_>,
    pred: u32,
    place: Place,
    query: &Term,
) -> Result<UnresolvedClause, Memory>
    ensures clause { IfOk result (λ made. plain_unresolved_clause made
        ≡ (unresolved_query (plain_names at.now.names.now) at.now.own pred (plain_term query.now)).clause) }
    ensures names { IfOk result (λ made. made.names
        ≡ (unresolved_query (plain_names at.now.names.now) at.now.own pred (plain_term query.now)).names) }
    ensures place { IfOk result (λ made. made.place ≡ place) }
{
    let mut variables = Variables::new(at.alloc);
    let body = goal(at, query, &mut variables)?;
    let names = source_names(at.alloc, &variables.names)?;
    let head = Row::new(at.alloc);
    Ok(UnresolvedClause {
        pred,
        head,
        body,
        names,
        place,
    })
}

/// The terms of a head; the last of a function's is its result.
fn head<'a>(
    at: &Module<'_>,
    head: &'a Term,
    variables: &mut Variables<'a>,
) -> Result<Row<Unresolved>, Memory>
    ensures { IfOk result (λ made. Walked (λ row. unresolved_terms (map plain_unresolved row))
        (head_walk at.now head.now) variables.old variables.new made) }
{
    match operands(b"=", head) {
        Some((function, result)) => {
            let args = terms(at, arguments(function), variables)?;
            let last = term(at, result, variables)?;
            let mut made = args.into_vec();
            made.push(last)?;
            let row = Row::of(made)?;
            Ok(row)
        }
        None => {
            let row = terms(at, arguments(head), variables)?;
            Ok(row)
        }
    }
}

/// The arguments of a name.
fn arguments(head: &Term) -> &[Term]
    ensures { term_list (map plain_term result.now) ≡ arguments_of (plain_term head.now) }
{
    match &head.node {
        Node::App(_, args) => args.as_slice(),
        Node::Var(_) => &[],
        Node::Int(_) => &[],
        Node::Str(_) => &[],
        Node::List(_, _) => &[],
        Node::Conj(_) => &[],
        Node::Disj(_) => &[],
    }
}

/// The names of variables as the source has them.
fn source_names(alloc: Global, names: &[&[u8]]) -> Result<Row<Text>, Memory>
    ensures { IfOk result (λ made. made ≡ map (λ name. source_name name.now) names.now) }
{
    let mut made = Vec::with_capacity(alloc, names.len())?;
    for name in names {
        made.push(Text::new(alloc, source_name(name))?)?;
    }
    let row = Row::of(made)?;
    Ok(row)
}

/// A version of a state variable has no name in the source.
fn source_name(name: &[u8]) -> &[u8]
    ensures { result.now ≡ source_name name.now }
{
    match name {
        [b'!', ..] => &[],
        _ => name,
    }
}
