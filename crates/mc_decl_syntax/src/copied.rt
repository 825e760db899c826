ghost use Rattle.std.specs.Prelude.{◌≡◌, map, IfOk};
ghost use Rattle.mc_term_data.specs.Plain.{plain_term};
ghost use Rattle.mc_decl_syntax.specs.Plain.{plain_item};

use crate::item::Decl;
use mc_base::{Copied, Memory, Row};
use mc_term_data::{Term, copied_terms};
use std::alloc::Global;

impl Decl {
    /// Another item that is the same.
    pub fn copied(&self, alloc: Global) -> Result<Decl, Memory>
        ensures { IfOk result (λ copy. plain_item copy ≡ plain_item self.now) }
    {
        match self {
            Decl::ModuleStart(name) => Ok(Decl::ModuleStart(name.copied(alloc)?)),
            Decl::ModuleEnd(name) => Ok(Decl::ModuleEnd(name.copied(alloc)?)),
            Decl::Interface => Ok(Decl::Interface),
            Decl::Implementation => Ok(Decl::Implementation),
            Decl::Imports(names) => Ok(Decl::Imports(names.copied(alloc)?)),
            Decl::UseOnly(names) => Ok(Decl::UseOnly(names.copied(alloc)?)),
            Decl::AbstractType(head) => Ok(Decl::AbstractType(head.copied(alloc)?)),
            Decl::UnionType(head, constructors) => {
                let (head, constructors) = with_parts(alloc, head, constructors)?;
                Ok(Decl::UnionType(head, constructors))
            }
            Decl::SameType(head, body) => {
                let (head, body) = with_body(alloc, head, body)?;
                Ok(Decl::SameType(head, body))
            }
            Decl::SameInst(head, body) => {
                let (head, body) = with_body(alloc, head, body)?;
                Ok(Decl::SameInst(head, body))
            }
            Decl::BoundInst(head, symbols) => {
                let (head, symbols) = with_parts(alloc, head, symbols)?;
                Ok(Decl::BoundInst(head, symbols))
            }
            Decl::ModeDef(head, body) => {
                let (head, body) = with_body(alloc, head, body)?;
                Ok(Decl::ModeDef(head, body))
            }
            Decl::Pred(signature, det) => Ok(Decl::Pred(signature.copied(alloc)?, *det)),
            Decl::Func(signature, det) => Ok(Decl::Func(signature.copied(alloc)?, *det)),
            Decl::Mode(signature, det) => Ok(Decl::Mode(signature.copied(alloc)?, *det)),
            Decl::Pragma => Ok(Decl::Pragma),
            Decl::Clause(clause) => Ok(Decl::Clause(clause.copied(alloc)?)),
        }
    }
}

/// Copies of a head and of what stands behind it, which is copied first: a box is little to hold meanwhile.
fn with_body(alloc: Global, head: &Term, body: &Term) -> Result<(Term, Box<Term>), Memory>
    ensures head { IfOk result (λ copy. plain_term copy.0 ≡ plain_term head.now) }
    ensures body { IfOk result (λ copy. plain_term copy.1.value ≡ plain_term body.now) }
{
    let body = Box::new(alloc, body.copied(alloc)?)?;
    Ok((head.copied(alloc)?, body))
}

/// The same where a row of terms stands behind the head.
fn with_parts(
    alloc: Global,
    head: &Term,
    parts: &Row<Term>,
) -> Result<(Term, Box<Row<Term>>), Memory>
    ensures head { IfOk result (λ copy. plain_term copy.0 ≡ plain_term head.now) }
    ensures parts { IfOk result (λ copy. map plain_term copy.1.value ≡ map plain_term parts.now) }
{
    let parts = Box::new(alloc, copied_terms(alloc, parts.as_slice())?)?;
    Ok((head.copied(alloc)?, parts))
}
