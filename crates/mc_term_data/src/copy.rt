ghost use Rattle.std.specs.Prelude.{◌≡◌, ◌<◌, ◌^◌, length, map, option_map, IfOk};
ghost use Rattle.mc_term_data.specs.Plain.{plain_term, plain_terms};
ghost use Rattle.mc_term_data.specs.code.LastParts.{last_term, last_part};

use crate::term::{Node, Term};
use mc_base::{Copied, Memory, Row};
use std::alloc::Global;

impl Term {
    /// Another term that is the same, made along the last parts by a loop, so that a long chain takes no stack.
    #[cycle(copy)]
    pub fn copied(&self, alloc: Global) -> Result<Term, Memory>
        ensures { IfOk result (λ copy. plain_term copy ≡ plain_term self.now) }
    {
        let mut around = Vec::new(alloc);
        let mut rest = self;
        'down: while let Some(last) = rest.last() {
            around.push(rest)?;
            rest = last;
        }
        let mut copy = rest.copied_over(alloc, None)?;
        'up: while let Some(term) = around.pop() {
            copy = term.copied_over(alloc, Some(copy))?;
        }
        Ok(copy)
    }

    // A copy, by a copy of the last part where there is one.
    #[cycle(copy)]
    fn copied_over(&self, alloc: Global, last: Option<Term>) -> Result<Term, Memory>
        ensures { IfOk result
            (λ copy.
            last_part (plain_term self.now) ≡ option_map plain_term last
            → plain_term copy ≡ plain_term self.now) }
    {
        let node = match &self.node {
            Node::Var(name) => Node::Var(name.copied(alloc)?),
            Node::Int(n) => Node::Int(*n),
            Node::Str(bytes) => Node::Str(bytes.copied(alloc)?),
            Node::App(name, terms) => Node::App(
                name.copied(alloc)?,
                copied_row(alloc, terms, last)?,
            ),
            Node::List(terms, None) => Node::List(copied_row(alloc, terms, last)?, None),
            Node::List(terms, Some(_)) => Node::List(
                copied_terms(alloc, terms.as_slice())?,
                boxed(alloc, last)?,
            ),
            Node::Conj(terms) => Node::Conj(copied_row(alloc, terms, last)?),
            Node::Disj(terms) => Node::Disj(copied_row(alloc, terms, last)?),
        };
        Ok(Term {
            node,
            line: self.line,
        })
    }
}

// A copy of a row of terms, by a copy of the last one where there is one.
#[cycle(copy)]
fn copied_row(alloc: Global, terms: &Row<Term>, last: Option<Term>) -> Result<Row<Term>, Memory>
    ensures { IfOk result
        (λ copy.
        last_term (plain_terms terms.now) ≡ option_map plain_term last
        → map plain_term copy ≡ map plain_term terms.now) }
{
    match terms.as_slice() {
        [] => Ok(Row::new(alloc)),
        [front @ .., _] => {
            let mut copy = copied_terms(alloc, front)?;
            if let Some(last) = last {
                copy.push(last)?;
            }
            Ok(copy)
        }
    }
}

/// A row of copies of these terms, in order.
#[cycle(copy)]
pub fn copied_terms(alloc: Global, terms: &[Term]) -> Result<Row<Term>, Memory>
    requires { length terms.now < 2 ^ 32 }
    ensures { IfOk result (λ copy. map plain_term copy ≡ map plain_term terms.now) }
{
    let mut copy = Row::new(alloc);
    for term in terms {
        copy.push(term.copied(alloc)?)?;
    }
    Ok(copy)
}

fn boxed(alloc: Global, term: Option<Term>) -> Result<Option<Box<Term>>, Memory>
    ensures { IfOk result
        (λ boxed. option_map (λ b. plain_term b.value) boxed ≡ option_map plain_term term) }
{
    match term {
        Some(term) => Ok(Some(Box::new(alloc, term)?)),
        None => Ok(None),
    }
}
