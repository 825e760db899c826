ghost use Rattle.std.specs.Prelude.{◌≡◌, ◌++◌, [], ◌∷◌, map, IfOk, OnOk};
ghost use Rattle.mc_term_data.specs.Plain.{PlainTerms, at, App, plain_term, no_term, more_terms, term_list};
ghost use Rattle.mc_state_variables.specs.Numbered.{quantifier, named_versions};
ghost use Rattle.mc_state_variables.specs.code.Helds.{plain_helds, listed};

use crate::held::{Held, after_of, before_of, version};
use crate::terms::operator;
use mc_base::{Memory, NameSet, Row};
use mc_clause_syntax::state_variable;
use mc_term_data::{Node, Term};
use std::alloc::Global;

/// A quantifier's list: `!X` names the version before, and that after where the goal under it updates it.
#[tactic(auto, using(crate::proofs::Lists::adding))]
pub fn quantifier(
    alloc: Global,
    held: &[Held<'_>],
    updates: &NameSet<'_>,
    list: &Term,
) -> Result<Term, Memory>
    ensures { IfOk result
        (λ out. plain_term out ≡ quantifier (plain_helds held.now) updates.now (plain_term list.now)) }
{
    match &list.node {
        Node::List(elements, None) => {
            let named = named_versions(alloc, held, updates, elements.as_slice())?;
            Ok(Term {
                node: Node::List(named, None),
                line: list.line,
            })
        }
        _ => list.copied(alloc),
    }
}

/// A quantifier over a goal that is written so and updates these.
pub fn quantified(
    alloc: Global,
    word: &[u8],
    held: &[Held<'_>],
    updates: &NameSet<'_>,
    list: &Term,
    text: Term,
    line: u32,
) -> Result<Term, Memory>
    ensures { IfOk result
        (λ out.
        plain_term out
        ≡ at
        (App (word.now ∷ [])
        (more_terms (quantifier (plain_helds held.now) updates.now (plain_term list.now)) (more_terms (plain_term text) no_term)))
        line) }
{
    let list = quantifier(alloc, held, updates, list)?;
    operator(alloc, word, list, text, line)
}

#[tactic(auto, using(crate::proofs::Lists::adding))]
fn named_versions(
    alloc: Global,
    held: &[Held<'_>],
    updates: &NameSet<'_>,
    elements: &[Term],
) -> Result<Row<Term>, Memory>
    ensures { IfOk result
        (λ named.
        term_list (map plain_term named)
        ≡ named_versions (plain_helds held.now) updates.now (term_list (map plain_term elements.now))) }
{
    let mut named = Vec::new(alloc);
    for element in elements {
        push_named(alloc, &mut named, held, updates, element)?;
    }
    Row::of(named)
}

// Puts in what an element of the list names.
#[tactic(auto, using(crate::proofs::Lists::adding))]
fn push_named(
    alloc: Global,
    named: &mut Vec<Term>,
    held: &[Held<'_>],
    updates: &NameSet<'_>,
    element: &Term,
) -> Result<(), Memory>
    ensures { OnOk result
        ((rest : PlainTerms)
        → map plain_term named.new.items ++ listed (named_versions (plain_helds held.now) updates.now rest)
        ≡ map plain_term named.old.items
        ++ listed
        (named_versions (plain_helds held.now) updates.now (more_terms (plain_term element.now) rest))) }
{
    if let Node::App(name, parts) = &element.node {
        if let Some((_, variable)) = state_variable(name.as_slice(), parts.as_slice()) {
            named.push(version(alloc, before_of(variable, held), element.line)?)?;
            if updates.contains(variable) {
                named.push(version(alloc, after_of(variable, held), element.line)?)?;
            }
            return Ok(());
        }
    }
    named.push(element.copied(alloc)?)?;
    Ok(())
}
