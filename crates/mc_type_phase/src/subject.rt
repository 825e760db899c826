ghost use Rattle.std.specs.Prelude.{◌≡◌, true, IfOk, OnOk};
ghost use Rattle.mc_decl_syntax.specs.Plain.{plain_item};
ghost use Rattle.mc_defs_uses.specs.Clauses.{clause_of};
ghost use Rattle.mc_names.specs.Plain.{plain_definition};
ghost use Rattle.mc_names.specs.Linked.{plain_names};
ghost use Rattle.mc_type_phase.specs.Typing.{number_among, clause_predicate};
ghost use Rattle.mc_type_phase.specs.code.Adding.{number_as};
ghost use Rattle.mc_type_phase.specs.code.Subjects.{plain_subject, IsKnown};

use crate::checker::Checker;
use mc_base::{Memory, Text};
use mc_decl_syntax::Decl;
use mc_defs_uses::clause_of;
use mc_names::{Definition, Kind};
use mc_source::name::Candidate;
use std::alloc::Global;

/// What a clause is of, by its name, with the number that it has, where its own module declares it. The clauses of a
/// predicate stand one behind another, so that most names needn't be looked up.
#[derive(Drop)]
pub struct Subject {
    pub kind: Kind,
    pub name: Text,
    pub arity: usize,
    pub number: Option<u32>,
}

impl Subject {
    fn of(alloc: Global, definition: Definition<'_>, number: Option<u32>) -> Result<Subject, Memory>
        ensures subject { IfOk result (λ made. plain_subject made ≡ plain_definition definition.entry) }
        ensures number { IfOk result (λ made. made.number ≡ number) }
    {
        let Definition { kind, id } = definition;
        Ok(Subject {
            kind,
            name: Text::new(alloc, id.name)?,
            arity: id.arity,
            number,
        })
    }

    fn is(&self, definition: Definition<'_>) -> bool
        ensures { result ≡ true → plain_subject self.now ≡ plain_definition definition.entry }
    {
        self.kind == definition.kind
            && self.arity == definition.id.arity
            && self.name.bytes() == definition.id.name
    }
}

/// The number of what an item is a clause of, which its own module declares, where this is known of the clause before.
pub fn clause_predicate(
    checker: &Checker<'_>,
    decl: &Decl,
    known: &mut Option<Subject>,
) -> Result<Option<u32>, Memory>
    requires { IsKnown (plain_names checker.now.at.names.now) checker.now.at.own known.old }
    ensures number { IfOk result (λ number. number
        ≡ clause_predicate (plain_names checker.now.at.names.now) checker.now.at.own
        (clause_of (plain_item decl.now))) }
    ensures known { OnOk result
        (IsKnown (plain_names checker.now.at.names.now) checker.now.at.own known.new) }
{
    let Some(definition) = clause_of(decl) else {
        return Ok(None);
    };
    if let Some(subject) = known {
        if subject.is(definition) {
            return Ok(subject.number);
        }
    }
    let number = looked_up(checker, definition)?;
    *known = Some(Subject::of(checker.at.alloc, definition, number)?);
    Ok(number)
}

// The number of a predicate or a function that its own module declares.
fn looked_up(checker: &Checker<'_>, definition: Definition<'_>) -> Result<Option<u32>, Memory>
    ensures { IfOk result (λ number. number
        ≡ clause_predicate (plain_names checker.now.at.names.now) checker.now.at.own
        (Some (plain_definition definition.entry))) }
{
    let id = definition.id;
    let all = checker
        .at
        .names
        .own_candidates(checker.at.alloc, checker.at.own, id.name, id.arity)?;
    Ok(number_among(definition.kind, all.as_slice()))
}

// The first of these that is a predicate, or a function.
fn number_among(kind: Kind, candidates: &[Candidate]) -> Option<u32>
    ensures { result ≡ number_among kind candidates.now }
{
    for candidate in candidates {
        if let Some(number) = number_as(kind, *candidate) {
            return Some(number);
        }
    }
    None
}

fn number_as(kind: Kind, candidate: Candidate) -> Option<u32>
    ensures { result ≡ number_as kind candidate }
{
    match (kind, candidate) {
        (Kind::Pred, Candidate::Pred(number)) => Some(number),
        (Kind::Func, Candidate::Func(number)) => Some(number),
        _ => None,
    }
}
