ghost use Rattle.std.specs.Prelude.{◌≡◌, IfOk, map, ◌∷◌, []};
ghost use Rattle.mc_accepted.specs.Resolving.{any_name, no_terms};
ghost use Rattle.mc_names.specs.Definitions.{nil_path};
ghost use Rattle.mc_term_data.specs.Plain.{plain_term};
ghost use Rattle.mc_names.specs.Linked.{plain_names};
ghost use Rattle.mc_unresolved.specs.Unresolved.{plain_unresolved, unresolved_terms};
ghost use Rattle.mc_clauses.specs.Unresolved.{meanings};
ghost use Rattle.mc_clauses.specs.code.Walking.{Walked, term_walk, terms_walk, cells_over, joined_over, nested_over};

use crate::variables::Variables;
use mc_base::{Copied, Memory, Row, Text};
use mc_names::Names;
use mc_source::name::Candidate;
use mc_term_data::{Node, Term};
use mc_unresolved::Unresolved;
use std::alloc::Global;

/// A module, by its number among the names of a program.
#[derive(Clone, Copy)]
pub struct Module<'n> {
    pub alloc: Global,
    pub names: &'n Names,
    pub own: u32,
}

impl Module<'_> {
    /// What a name over so many arguments may mean.
    pub fn meanings(&self, name: &Row<Text>, arity: u32) -> Result<Row<Candidate>, Memory>
        ensures { IfOk result (λ candidates. candidates
            ≡ meanings (plain_names self.now.names.now) self.now.own name.now arity) }
    {
        self.names.candidates(self.alloc, self.own, name, arity)
    }

    /// The end of a list.
    fn nil(&self) -> Result<Unresolved, Memory>
        ensures { IfOk result (λ made. plain_unresolved made
            ≡ any_name (meanings (plain_names self.now.names.now) self.now.own nil_path 0) no_terms) }
    {
        let name = self.path(b"[]")?;
        let candidates = self.meanings(&name, 0)?;
        Ok(Unresolved::Name(candidates, Row::new(self.alloc)))
    }

    /// A list of these elements before an end.
    fn cells(&self, elements: Row<Unresolved>, end: Unresolved) -> Result<Unresolved, Memory>
        ensures { IfOk result (λ made. plain_unresolved made
            ≡ cells_over (plain_names self.now.names.now) self.now.own
            (map plain_unresolved elements) (plain_unresolved end)) }
    {
        let name = self.path(b"[|]")?;
        let candidates = self.meanings(&name, 2)?;
        self.nested(&candidates, elements.into_vec(), end)
    }

    /// Terms with a name between each two.
    fn joined(&self, name: &[u8], parts: Row<Unresolved>) -> Result<Unresolved, Memory>
        ensures { IfOk result (λ made. plain_unresolved made
            ≡ joined_over (plain_names self.now.names.now) self.now.own (name.now ∷ [])
            (map plain_unresolved parts)) }
    {
        let name = self.path(name)?;
        let mut parts = parts.into_vec();
        match parts.pop() {
            Some(last) => {
                let candidates = self.meanings(&name, 2)?;
                let made = self.nested(&candidates, parts, last)?;
                Ok(made)
            }
            None => {
                let candidates = self.meanings(&name, 0)?;
                Ok(Unresolved::Name(candidates, Row::new(self.alloc)))
            }
        }
    }

    // A name of these candidates over each term and what follows it.
    fn nested(
        &self,
        candidates: &Row<Candidate>,
        mut terms: Vec<Unresolved>,
        end: Unresolved,
    ) -> Result<Unresolved, Memory>
        ensures { IfOk result (λ made. plain_unresolved made
            ≡ nested_over candidates.now (map plain_unresolved terms.items) (plain_unresolved end)) }
    {
        let mut made = end;
        while let Some(term) = terms.pop() {
            let mut args = Vec::with_capacity(self.alloc, 2)?;
            args.push(term)?;
            args.push(made)?;
            let candidates = Vec::from_slice(self.alloc, candidates.as_slice())?;
            made = Unresolved::Name(Row::of(candidates)?, Row::of(args)?);
        }
        Ok(made)
    }

    // A name without qualifiers.
    fn path(&self, name: &[u8]) -> Result<Row<Text>, Memory>
        ensures { IfOk result (λ path. path ≡ name.now ∷ []) }
    {
        let word = Text::new(self.alloc, name)?;
        Row::one(self.alloc, word)
    }
}

/// A term whose names are looked up.
#[cycle(terms)]
pub fn term<'a>(
    at: &Module<'_>,
    whole: &'a Term,
    variables: &mut Variables<'a>,
) -> Result<Unresolved, Memory>
    ensures { IfOk result (λ made. Walked plain_unresolved (term_walk at.now whole.now)
        variables.old variables.new made) }
{
    match &whole.node {
        Node::Var(name) => {
            let number = variables.number(name.bytes())?;
            Ok(Unresolved::Variable(number))
        }
        Node::Int(value) => Ok(Unresolved::Number(*value)),
        Node::Str(text) => Ok(Unresolved::Text(text.copied(at.alloc)?)),
        Node::App(name, args) => {
            let made = terms(at, args.as_slice(), variables)?;
            let candidates = at.meanings(name, args.len())?;
            Ok(Unresolved::Name(candidates, made))
        }
        Node::List(elements, tail) => {
            let made = terms(at, elements.as_slice(), variables)?;
            match tail {
                None => {
                    let end = at.nil()?;
                    let list = at.cells(made, end)?;
                    Ok(list)
                }
                Some(tail) => {
                    let end = term(at, tail, variables)?;
                    let list = at.cells(made, end)?;
                    Ok(list)
                }
            }
        }
        Node::Conj(parts) => {
            let made = terms(at, parts.as_slice(), variables)?;
            let joined = at.joined(b",", made)?;
            Ok(joined)
        }
        Node::Disj(parts) => {
            let made = terms(at, parts.as_slice(), variables)?;
            let joined = at.joined(b";", made)?;
            Ok(joined)
        }
    }
}

/// Terms whose names are looked up, from left to right.
#[cycle(terms)]
pub fn terms<'a>(
    at: &Module<'_>,
    terms: &'a [Term],
    variables: &mut Variables<'a>,
) -> Result<Row<Unresolved>, Memory>
    ensures { IfOk result (λ made. Walked (λ row. unresolved_terms (map plain_unresolved row))
        (terms_walk at.now terms.now) variables.old variables.new made) }
{
    let mut made = Vec::with_capacity(at.alloc, terms.len())?;
    for one in terms {
        made.push(term(at, one, variables)?)?;
    }
    let row = Row::of(made)?;
    Ok(row)
}
