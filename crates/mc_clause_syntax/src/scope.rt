ghost use Rattle.std.specs.Prelude.{◌≡◌, ◌∷◌, [], map, IfOk};
ghost use Rattle.mc_base.specs.NameSets.{put_all};
ghost use Rattle.mc_term_data.specs.Plain.{plain_term, term_list};
ghost use Rattle.mc_clause_syntax.specs.StateVariables.{state};
ghost use Rattle.mc_clause_syntax.specs.States.{in_scope, states_of, placed_state, placed, all_placed};
ghost use Rattle.mc_clause_syntax.specs.code.Scopes.{all_names};

use crate::state::{StateForm, state_variable};
use crate::state_names::{StatesWanted, name_set, push_states};
use mc_base::{Memory, NameSet, Text};
use mc_term_data::{Node, Term};
use std::alloc::Global;

/// The names of the state variables in scope: the head's, and those of each quantifier around, the innermost last.
#[derive(Drop)]
pub struct Scope<'a> {
    pub alloc: Global,
    pub sets: Vec<NameSet<'a>>,
}

impl<'a> Scope<'a> {
    /// No name is in scope. It takes no memory.
    pub fn empty(alloc: Global) -> Scope<'a>
        ensures { result.sets.items ≡ [] }
    {
        Scope {
            alloc,
            sets: Vec::new(alloc),
        }
    }

    /// The state variables in a clause's head are in scope. It takes memory for those alone.
    pub fn of_head(alloc: Global, head: &'a Term) -> Result<Scope<'a>, Memory>
        ensures { IfOk result
            (λ scope. all_names scope.sets.items ≡ put_all [] (states_of (plain_term head.now))) }
    {
        let mut names = Vec::new(alloc);
        push_states(&mut names, StatesWanted::Every, head)?;
        let mut scope = Scope::empty(alloc);
        if !names.is_empty() {
            scope.sets.push(name_set(alloc, &names)?)?;
        }
        Ok(scope)
    }

    /// Whether a name is in scope.
    pub fn has(&self, name: &[u8]) -> bool
        ensures { result ≡ in_scope (all_names self.now.sets.items) name.now }
    {
        for set in &self.sets {
            if set.contains(name) {
                return true;
            }
        }
        false
    }

    /// Whether the state variables in a term stand where they may; the term is an argument of a name, or it isn't.
    #[cycle(placed)]
    pub fn places(&self, term: &Term, is_argument: bool) -> bool
        ensures { result ≡ placed (all_names self.now.sets.items) is_argument (plain_term term.now) }
    {
        match &term.node {
            Node::App(name, parts) => {
                self.places_state(name.as_slice(), parts.as_slice(), is_argument)
                    && self.places_all(parts.as_slice(), true)
            }
            Node::List(elements, tail) => {
                if !self.places_all(elements.as_slice(), false) {
                    return false;
                }
                match tail {
                    Some(tail) => self.places(tail, false),
                    None => true,
                }
            }
            Node::Conj(parts) | Node::Disj(parts) => self.places_all(parts.as_slice(), false),
            Node::Var(_) | Node::Int(_) | Node::Str(_) => true,
        }
    }

    /// The same of each of these terms.
    #[cycle(placed)]
    pub fn places_all(&self, terms: &[Term], are_arguments: bool) -> bool
        ensures { result
            ≡ all_placed (all_names self.now.sets.items) are_arguments
            (term_list (map plain_term terms.now)) }
    {
        for term in terms {
            if !self.places(term, are_arguments) {
                return false;
            }
        }
        true
    }

    // The same of a name over parts, apart from the parts.
    fn places_state(&self, name: &[Text], parts: &[Term], is_argument: bool) -> bool
        ensures { result
            ≡ placed_state (all_names self.now.sets.items) is_argument
            (state name.now (term_list (map plain_term parts.now))) }
    {
        match state_variable(name, parts) {
            Some((StateForm::Both, variable)) => is_argument && self.has(variable),
            Some((_, variable)) => self.has(variable),
            None => true,
        }
    }
}
