ghost use Rattle.std.specs.Prelude.{◌≡◌, IfOk};
ghost use Rattle.mc_program.specs.PlainPrograms.{plain_program};
ghost use Rattle.mc_names.specs.Linked.{plain_names};
ghost use Rattle.mc_typecheck.specs.Fitting.{IsSomeTable};
ghost use Rattle.mc_typecheck.specs.Tables.{parameters_in, IsTable};
ghost use Rattle.mc_type_phase.specs.code.Adding.{IsVerdict};

use crate::difference::difference;
use mc_base::{Memory, Text};
use mc_clauses::Module;
use mc_program::program::{Program, Resolved};
use mc_source::rule::Rule;
use mc_typecheck::{Signatures, TypeFault, check_any_clause};
use mc_unresolved::UnresolvedClause;

/// What typing says of a clause.
#[derive(Drop)]
pub enum Verdict {
    /// What it is resolved to
    Typed(Resolved),
    /// The rule that it breaks, with what is said of it
    Faulty(Rule, Text),
}

/// A module whose clauses are checked, what the program declares as the module sees it, and the table of that.
#[derive(Drop)]
pub struct Checker<'n> {
    pub at: Module<'n>,
    pub program: Program,
    pub signatures: Signatures,
}

impl Checker<'_> {
    /// What typing says of a clause.
    ///
    /// # Errors
    ///
    /// `Memory` where there is no room, or where types that are written out are too large.
    pub fn verdict(&self, clause: &UnresolvedClause) -> Result<Verdict, Memory>
        requires { IsSomeTable self.now.signatures }
        ensures { IfOk result (λ verdict. IsTable self.now.program self.now.signatures
            → IsVerdict (plain_names self.now.at.names.now) (plain_program self.now.program)
            (parameters_in self.now.program.types) clause.now verdict) }
    {
        let alloc = self.at.alloc;
        match check_any_clause(alloc, &self.signatures, clause) {
            Ok(made) => Ok(Verdict::Typed(made)),
            Err(TypeFault::None) => {
                let what = Text::new(alloc, b"clause has no typing")?;
                Ok(Verdict::Faulty(Rule::T1, what))
            }
            Err(TypeFault::Two(first, second)) => {
                let first = first.as_slice();
                let second = second.as_slice();
                let what = difference(alloc, self.at.names, &self.program, first, second)?;
                Ok(Verdict::Faulty(Rule::T2, what))
            }
            Err(TypeFault::TooMany) => {
                let what = Text::new(alloc, b"more than 1024 live type assignments")?;
                Ok(Verdict::Faulty(Rule::L5, what))
            }
            Err(TypeFault::Memory) => Err(Memory),
        }
    }
}
