ghost use Rattle.std.specs.Prelude.{◌≡◌, map, IfOk, OnOk};
ghost use Rattle.mc_term_data.specs.Plain.{at, App, plain_term, term_list};
ghost use Rattle.mc_state_variables.specs.Versions.{renewed, renewed_behind};
ghost use Rattle.mc_clause_syntax.specs.States.{states_in_all};
ghost use Rattle.mc_state_variables.specs.Numbered.{terms_of};
ghost use Rattle.mc_state_variables.specs.code.Helds.{plain_helds};

use crate::atoms::atom;
use crate::held::Held;
use crate::numbering::{Numbering, ScopeChange};
use mc_base::{Memory, Row, Text};
use mc_clause_syntax::{StatesWanted, name_set, push_all_states};
use mc_term_data::Term;

impl Numbering {
    /// A disequation, which is the negation of an equation.
    #[tactic(auto, using(crate::proofs::Sets::sets))]
    pub fn disunification(
        &mut self,
        held: &[Held<'_>],
        name: &Row<Text>,
        parts: &Row<Term>,
        line: u32,
    ) -> Result<Term, Memory>
        ensures text { IfOk result
            (λ text.
            plain_term text
            ≡ at
            (App name.now
            (terms_of
            (renewed (states_in_all StatesWanted.Updated (term_list (map plain_term parts.now))) self.old.next (plain_helds held.now))
            (term_list (map plain_term parts.now))))
            line) }
        ensures next { OnOk result
            (self.new.next
            ≡ renewed_behind (states_in_all StatesWanted.Updated (term_list (map plain_term parts.now))) self.old.next (plain_helds held.now)) }
    {
        let mut names = Vec::new(self.alloc);
        push_all_states(&mut names, StatesWanted::Updated, parts.as_slice())?;
        let updates = name_set(self.alloc, &names)?;
        let ScopeChange { given, behind: _ } = self.around(&updates, &updates, held)?;
        atom(self.alloc, &given, name, parts.as_slice(), line)
    }
}
