ghost use Rattle.std.specs.Prelude.{◌≡◌, ◌+◌, map, length, nat_lt, IfOk, OnOk};
ghost use Rattle.mc_term_data.specs.Plain.{plain_term, term_list};
ghost use Rattle.mc_clause_syntax.specs.Limits.{variables, all_variables, greatest_variables, too_many_variables};
ghost use Rattle.mc_clause_syntax.specs.code.Found.{with_variable, with_variables};

use mc_base::{Memory, NameSet};
use mc_term_data::{Node, Term};
use std::alloc::Global;

const GREATEST_VARIABLES: usize = 4096;

/// Whether a clause has too many variables. Each `_` is one, and so is a state variable. It takes stack for each level of
/// the term.
pub fn has_too_many_variables(alloc: Global, term: &Term) -> Result<bool, Memory>
    ensures { IfOk result (λ too_many. too_many ≡ too_many_variables (plain_term term.now)) }
{
    let mut found = Variables {
        anonymous: 0,
        names: NameSet::new(alloc),
    };
    found.add(term)?;
    Ok(found.are_too_many())
}

// The variables of a part of a clause.
#[derive(Drop)]
struct Variables<'a> {
    // How many have no name; a number past what fits stays the greatest that does.
    anonymous: u32,
    names: NameSet<'a>,
}

impl<'a> Variables<'a> {
    fn are_too_many(&self) -> bool
        ensures { result ≡ nat_lt greatest_variables (self.now.anonymous + length self.now.names) }
    {
        self.anonymous as usize + self.names.len() > GREATEST_VARIABLES
    }

    // Adds the variables of a term. After want of memory it has some of them.
    #[cycle(variables)]
    #[tactic(auto, using(crate::proofs::Appended::with_variables_append))]
    fn add(&mut self, term: &'a Term) -> Result<(), Memory>
        ensures { OnOk result (self.new ≡ with_variables self.old (variables (plain_term term.now))) }
    {
        match &term.node {
            Node::Var(name) => self.add_name(name.bytes()),
            Node::App(_, parts) => self.add_all(parts.as_slice()),
            Node::List(elements, tail) => {
                self.add_all(elements.as_slice())?;
                match tail {
                    Some(tail) => {
                        self.add(tail)?;
                        Ok(())
                    }
                    None => Ok(()),
                }
            }
            Node::Conj(parts) | Node::Disj(parts) => self.add_all(parts.as_slice()),
            Node::Int(_) | Node::Str(_) => Ok(()),
        }
    }

    #[cycle(variables)]
    #[tactic(auto, using(crate::proofs::Appended::with_variables_append))]
    fn add_all(&mut self, terms: &'a [Term]) -> Result<(), Memory>
        ensures { OnOk result
            (self.new ≡ with_variables self.old (all_variables (term_list (map plain_term terms.now)))) }
    {
        for term in terms {
            self.add(term)?;
        }
        Ok(())
    }

    fn add_name(&mut self, name: &'a [u8]) -> Result<(), Memory>
        ensures { OnOk result (self.new ≡ with_variable self.old name.now) }
    {
        if name == b"_".as_slice() {
            self.anonymous = self.anonymous.saturating_add(1);
        } else {
            self.names.insert(name)?;
        }
        Ok(())
    }
}
