ghost use Rattle.std.specs.Prelude.{◌≡◌, ◌∷◌, ◌++◌, [], true, nat_eq, ◌&&◌, map, OnOk};
ghost use Rattle.mc_term_data.specs.Plain.{plain_term, term_list};
ghost use Rattle.mc_term_data.specs.Names.{count};
ghost use Rattle.mc_clause_syntax.specs.Limits.{argument_count};
ghost use Rattle.mc_names.specs.Plain.{plain_occurrence, used};
ghost use Rattle.mc_defs_uses.specs.Occurrences.{is_infix, terms_in, all_terms, cells_in, elements_in, between, call_by};
ghost use Rattle.mc_defs_uses.specs.code.Steps.{behind};

use crate::infixes::stands_between;
use mc_base::{Memory, Row, Text};
use mc_clause_syntax::{argument_count, is_state};
use mc_names::{Kind, Occurrence};
use mc_term_data::{Node, Term, arity};

/// Adds the constructors, functions and characters in a term.
#[cycle(terms)]
#[tactic(auto, using(crate::proofs::Steps::adding, crate::proofs::Steps::over_is))]
pub fn add_terms<'a>(uses: &mut Vec<Occurrence<'a>>, term: &'a Term) -> Result<(), Memory>
    ensures { OnOk result
        (map plain_occurrence uses.new.items
        ≡ map plain_occurrence uses.old.items ++ terms_in (plain_term term.now)) }
{
    match &term.node {
        Node::App(name, arguments) => {
            if is_state(name.as_slice(), arguments.as_slice()) {
                Ok(())
            } else {
                add_over(uses, Kind::Symbol, name, arguments)
            }
        }
        Node::List(elements, None) => add_list(uses, elements.as_slice()),
        Node::List(elements, Some(tail)) => add_list_before(uses, elements.as_slice(), tail),
        Node::Conj(parts) => add_between(uses, b",", parts.as_slice()),
        Node::Disj(parts) => add_between(uses, b";", parts.as_slice()),
        Node::Var(_) | Node::Int(_) | Node::Str(_) => Ok(()),
    }
}

/// Adds a name in a clause, which is to mean this, over its arguments, and the terms in these.
#[cycle(terms)]
pub fn add_over<'a>(
    uses: &mut Vec<Occurrence<'a>>,
    kind: Kind,
    name: &'a Row<Text>,
    arguments: &'a Row<Term>,
) -> Result<(), Memory>
    ensures { OnOk result
        (map plain_occurrence uses.new.items
        ≡ map plain_occurrence uses.old.items
        ++ call_by
        (nat_eq (count (term_list (map plain_term arguments.now))) 2 && is_infix name.now)
        (used kind name.now
        (argument_count true (term_list (map plain_term arguments.now))))
        (term_list (map plain_term arguments.now))) }
{
    let name = name.as_slice();
    let arguments = arguments.as_slice();
    let occurrence = Occurrence::of(kind, name, argument_count(arguments, true));
    match arguments {
        [first, others @ ..] if stands_between(name, arity(arguments)) => {
            add_terms(uses, first)?;
            uses.push(occurrence)?;
            add_all_terms(uses, others)
        }
        _ => {
            uses.push(occurrence)?;
            add_all_terms(uses, arguments)
        }
    }
}

/// Adds what these terms use.
#[cycle(terms)]
pub fn add_all_terms<'a>(uses: &mut Vec<Occurrence<'a>>, terms: &'a [Term]) -> Result<(), Memory>
    ensures { OnOk result
        (map plain_occurrence uses.new.items
        ≡ map plain_occurrence uses.old.items ++ all_terms (term_list (map plain_term terms.now))) }
{
    for term in terms {
        add_terms(uses, term)?;
    }
    Ok(())
}

// A list is `[|]` over each element and what follows, and `[]` at its end.
#[cycle(terms)]
#[tactic(auto, using(crate::proofs::Steps::adding, crate::proofs::Steps::elements_are))]
fn add_list<'a>(uses: &mut Vec<Occurrence<'a>>, elements: &'a [Term]) -> Result<(), Memory>
    ensures { OnOk result
        (map plain_occurrence uses.new.items
        ≡ map plain_occurrence uses.old.items
        ++ elements_in (term_list (map plain_term elements.now))) }
{
    add_behind(uses, b"[|]", elements)?;
    uses.push(Occurrence::of_symbol(b"[]", 0))?;
    Ok(())
}

#[cycle(terms)]
#[tactic(auto, using(crate::proofs::Steps::adding, crate::proofs::Steps::cells_are))]
fn add_list_before<'a>(
    uses: &mut Vec<Occurrence<'a>>,
    elements: &'a [Term],
    tail: &'a Term,
) -> Result<(), Memory>
    ensures { OnOk result
        (map plain_occurrence uses.new.items
        ≡ map plain_occurrence uses.old.items
        ++ (cells_in (term_list (map plain_term elements.now))
        ++ terms_in (plain_term tail.now))) }
{
    add_behind(uses, b"[|]", elements)?;
    add_terms(uses, tail)
}

// A name stands between each two of these terms.
#[cycle(terms)]
fn add_between<'a>(
    uses: &mut Vec<Occurrence<'a>>,
    name: &'a [u8],
    parts: &'a [Term],
) -> Result<(), Memory>
    ensures { OnOk result
        (map plain_occurrence uses.new.items
        ≡ map plain_occurrence uses.old.items
        ++ between (name.now ∷ []) (term_list (map plain_term parts.now))) }
{
    match parts {
        [first, others @ ..] => {
            add_terms(uses, first)?;
            add_behind(uses, name, others)
        }
        [] => Ok(()),
    }
}

// A name stands before each of these terms.
#[cycle(terms)]
fn add_behind<'a>(
    uses: &mut Vec<Occurrence<'a>>,
    name: &'a [u8],
    terms: &'a [Term],
) -> Result<(), Memory>
    ensures { OnOk result
        (map plain_occurrence uses.new.items
        ≡ map plain_occurrence uses.old.items
        ++ behind (name.now ∷ []) (term_list (map plain_term terms.now))) }
{
    for term in terms {
        uses.push(Occurrence::of_symbol(name, 2))?;
        add_terms(uses, term)?;
    }
    Ok(())
}
