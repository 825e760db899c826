ghost use Rattle.std.specs.Prelude.{◌≡◌, ℕ, ◌<◌, ◌≤◌, length, Some, IfOk, OnOk, IfSome, IsTrue};
ghost use Rattle.mc_program.specs.Programs.{Source};
ghost use Rattle.mc_program.specs.PlainPrograms.{plain_type};
ghost use Rattle.mc_accepted.specs.ProperTypes.{Parameters};
ghost use Rattle.mc_accepted.specs.Resolving.{Unresolved_clause, steps_of, push_variable, push_number, push_text, choose, call, close_head};
ghost use Rattle.mc_types.specs.Trees.{of_name};
ghost use Rattle.mc_typecheck.specs.Ties.{Declared};
ghost use Rattle.mc_typecheck.specs.Searched.{VariablesBelow, plain_signature};
ghost use Rattle.mc_typecheck.specs.Outcomes.{IsOnly};
ghost use Rattle.mc_typecheck.specs.Walked.{after_all, start, entry};
ghost use Rattle.mc_typecheck.specs.NamedWalks.{IsNamedAt, TakesNamed};
ghost use Rattle.mc_typecheck.specs.declared.table.Signatures.{Signatures as Table};
ghost use Rattle.mc_typecheck.specs.code.Named.{free_types, IsNamed, AreNamed, IsTaken, IsPushed};

use crate::signatures::{NUMBER, TEXT};
use crate::table::Signatures;
use mc_base::Memory;
use mc_program::ty::Ty;
use mc_source::name::Candidate;
use mc_types::{Signature, TypeName, Written};
use std::alloc::Global;

/// The walk of a clause so far, where each step had one meaning alone, whose types are names without arguments: what is
/// known of the types of the places, the places of the terms that are walked and not yet taken, and the candidates that
/// the names are. In such a clause there is nothing to search.
#[derive(Drop)]
pub struct NamedWalk {
    pub types: Vec<Written>,
    pub stack: Vec<usize>,
    pub picks: Vec<Candidate>,
}

/// A step answers whether it has one meaning alone, whose types are names, and no place has another type.
impl NamedWalk {
    /// A walk that has not begun, of a clause with so many variables, with room for so many steps.
    pub fn new(alloc: Global, vars: usize, steps: usize) -> Result<NamedWalk, Memory>
        ensures { IfOk result (λ walk. (P : Source) (D : Parameters) → IsNamedAt P D walk (start vars)) }
    {
        Ok(NamedWalk {
            types: all_free(alloc, vars, steps)?,
            stack: Vec::with_capacity(alloc, steps)?,
            picks: Vec::with_capacity(alloc, steps)?,
        })
    }

    /// The one resolution of a clause that was walked so, whose types are those that are known of the places.
    pub fn resolution(&self) -> &[Candidate]
        ensures { (P : Source) (D : Parameters) (clause : Unresolved_clause) (limit vars : ℕ)
            → 0 < limit
            → VariablesBelow vars (steps_of clause)
            → IsNamedAt P D self.now (after_all P D (steps_of clause) (start vars))
            → IsOnly P D clause limit vars result.now self.now.types.items }
    {
        self.picks.as_slice()
    }

    /// A variable.
    pub fn push_variable(&mut self, v: usize) -> Result<(), Memory>
        ensures { OnOk result ((t : Table) → TakesNamed t self.old self.new (push_variable v)) }
    {
        self.stack.push(v)?;
        Ok(())
    }

    /// A number.
    pub fn push_number(&mut self, signatures: &Signatures) -> Result<bool, Memory>
        ensures { IfOk result (λ yes. IsTrue yes
            → TakesNamed signatures.now self.old self.new push_number) }
    {
        let named = self.push_constant(signatures, NUMBER)?;
        Ok(named)
    }

    /// A text.
    pub fn push_text(&mut self, signatures: &Signatures) -> Result<bool, Memory>
        ensures { IfOk result (λ yes. IsTrue yes
            → TakesNamed signatures.now self.old self.new push_text) }
    {
        let named = self.push_constant(signatures, TEXT)?;
        Ok(named)
    }

    /// A constant, whose meaning stands at a place of the table.
    fn push_constant(&mut self, signatures: &Signatures, meaning: usize) -> Result<bool, Memory>
        ensures { IfOk result (λ yes. IsTrue yes → (d : Declared)
            → entry signatures.now meaning ≡ Some d
            → IsPushed d (length self.old.stack.items) self.old self.new) }
    {
        match signatures.declared_at(meaning) {
            Some(signature) => {
                let from = self.stack.len();
                self.push_term(signature, from)
            }
            None => Ok(false),
        }
    }

    /// An occurrence of a name in a term, behind its arguments.
    pub fn choose(
        &mut self,
        signatures: &Signatures,
        candidates: &[Candidate],
        arguments: usize,
    ) -> Result<bool, Memory>
        ensures { IfOk result (λ yes. IsTrue yes
            → TakesNamed signatures.now self.old self.new (choose candidates.now arguments)) }
    {
        let from = self.stack.len().saturating_sub(arguments);
        let count = self.stack.len() - from + 1;
        match signatures.only(false, candidates, count) {
            Some(only) => {
                self.picks.push(only.pick)?;
                let named = self.push_term(only.signature, from)?;
                Ok(named)
            }
            None => Ok(false),
        }
    }

    /// An atom, behind its arguments.
    pub fn call(
        &mut self,
        signatures: &Signatures,
        candidates: &[Candidate],
        arguments: usize,
    ) -> Result<bool, Memory>
        ensures { IfOk result (λ yes. IsTrue yes
            → TakesNamed signatures.now self.old self.new (call candidates.now arguments)) }
    {
        let from = self.stack.len().saturating_sub(arguments);
        let count = self.stack.len() - from;
        match signatures.only(true, candidates, count) {
            Some(only) => {
                self.picks.push(only.pick)?;
                Ok(self.take(only.signature, from))
            }
            None => Ok(false),
        }
    }

    /// The end of a head, behind its arguments.
    pub fn close_head(&mut self, signatures: &Signatures, pred: u32, arguments: usize) -> bool
        ensures { IsTrue result
            → TakesNamed signatures.now self.old self.new (close_head pred arguments) }
    {
        let from = self.stack.len().saturating_sub(arguments);
        match signatures.declared_head(pred) {
            Some(signature) => self.take(signature, from),
            None => false,
        }
    }

    /// Gives the terms from a place of the stack on, and one behind them, the types of a signature, and takes off all but
    /// the last.
    fn push_term(&mut self, signature: &Signature, from: usize) -> Result<bool, Memory>
        requires { from ≤ length self.old.stack.items }
        ensures { IfOk result (λ yes. IsTrue yes
            → IsPushed (plain_signature signature.now) from self.old self.new) }
    {
        let place = self.types.len();
        self.types.push(Written::Free(place))?;
        self.stack.push(place)?;
        let named = self.take(signature, from);
        self.stack.push(place)?;
        Ok(named)
    }

    /// Gives the terms from a place of the stack on the types of a signature, and takes them off.
    fn take(&mut self, signature: &Signature, from: usize) -> bool
        requires { from ≤ length self.old.stack.items }
        ensures { IsTrue result → IsTaken (plain_signature signature.now) from self.old self.new }
    {
        let named = name_places(&mut self.types, signature, &self.stack[from..]);
        self.stack.truncate(from);
        named
    }
}

/// The types of places of which nothing is known, with room for so many more.
fn all_free(alloc: Global, places: usize, more: usize) -> Result<Vec<Written>, Memory>
    ensures { IfOk result (λ types. types.items ≡ free_types places) }
{
    let mut types = Vec::with_capacity(alloc, places.saturating_add(more))?;
    for place in 0..places {
        types.push(Written::Free(place))?;
    }
    Ok(types)
}

/// Gives places the types of a signature; whether these are as many, and names, and no place has another type.
fn name_places(types: &mut Vec<Written>, signature: &Signature, places: &[usize]) -> bool
    ensures as_many { length types.new.items ≡ length types.old.items }
    ensures named { IsTrue result
        → AreNamed types.old.items (plain_signature signature.now) places.now types.new.items }
{
    if signature.types.len() != places.len() {
        return false;
    }
    for k in 0..places.len() {
        if !name_place(types, places[k], &signature.types[k]) {
            return false;
        }
    }
    true
}

/// Gives a place a type; whether it is a name, and the place has no other type.
fn name_place(types: &mut Vec<Written>, place: usize, ty: &Ty) -> bool
    ensures as_many { length types.new.items ≡ length types.old.items }
    ensures named { IsTrue result → IsNamed types.old.items place (plain_type ty.now) types.new.items }
{
    match name_of(ty) {
        Some(name) => put_name(types, place, name),
        None => false,
    }
}

/// Gives a place a name for its type; whether it has no other type.
fn put_name(types: &mut Vec<Written>, place: usize, name: TypeName) -> bool
    ensures as_many { length types.new.items ≡ length types.old.items }
    ensures named { IsTrue result → IsNamed types.old.items place (of_name name) types.new.items }
{
    if place >= types.len() {
        return false;
    }
    match &types[place] {
        Written::Free(_) => {}
        Written::Named(known) => return known.is(name),
        Written::Rigid(_) => return false,
        Written::App(_, _) => return false,
    }
    types[place] = Written::Named(name);
    true
}

/// The name that is the type, where it is one.
fn name_of(ty: &Ty) -> Option<TypeName>
    ensures { IfSome result (λ name. plain_type ty.now ≡ of_name name) }
{
    match ty {
        Ty::Int => Some(TypeName::Int),
        Ty::Char => Some(TypeName::Char),
        Ty::Str => Some(TypeName::Str),
        Ty::Io => Some(TypeName::Io),
        Ty::Var(_) => None,
        Ty::Union(number, args) => {
            if args.is_empty() {
                Some(TypeName::Union(*number))
            } else {
                None
            }
        }
    }
}
