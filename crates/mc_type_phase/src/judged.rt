ghost use Rattle.std.specs.Prelude.{◌≡◌, ℕ, ◌++◌, ◌∷◌, [], Option, Some, IfOk, OnOk, map};
ghost use Rattle.mc_term_data.specs.Plain.{plain_term};
ghost use Rattle.mc_program.specs.Programs.{TypeTerm};
ghost use Rattle.mc_decl_syntax.specs.Plain.{plain_item};
ghost use Rattle.mc_decl_syntax.specs.Entries.{plain_entry};
ghost use Rattle.mc_defs_uses.specs.Clauses.{clause_of};
ghost use Rattle.mc_names.specs.Linked.{Linked, plain_names};
ghost use Rattle.mc_state_variables.specs.Numbered.{numbered_clause};
ghost use Rattle.mc_unresolved.specs.Unresolved.{plain_unresolved_clause};
ghost use Rattle.mc_clauses.specs.Unresolved.{unresolved_clause};
ghost use Rattle.mc_typecheck.specs.Fitting.{IsSomeTable};
ghost use Rattle.mc_type_phase.specs.Typing.{module_clauses};
ghost use Rattle.mc_type_phase.specs.Items.{clause_item as item_of, query_item, without_clauses};
ghost use Rattle.mc_type_phase.specs.Judging.{typed_clauses};
ghost use Rattle.mc_type_phase.specs.code.Adding.{Checks, Adds, WasPut, entry_clauses};
ghost use Rattle.mc_type_phase.specs.code.Subjects.{IsKnown};

use crate::checker::{Checker, Verdict};
use crate::consumed::ConsumedItems;
use crate::subject::{Subject, clause_predicate};
use mc_base::{Memory, Row};
use mc_clauses::{unresolved_clause, unresolved_query};
use mc_decl_syntax::{Decl, Entry};
use mc_program::program::Resolved;
use mc_source::place::Place;
use mc_source::rule::Broken;
use mc_state_variables::{numbered_clause, numbered_goal, stays_as_written};
use mc_term_data::Term;
use mc_unresolved::UnresolvedClause;
use std::alloc::Global;

/// A clause with the number of its predicate or function, and what it is resolved to, with its variables' types; a query
/// has the number behind all predicates.
#[derive(Drop)]
pub struct TypedClause {
    pub pred: u32,
    pub resolved: Resolved,
}

/// What was judged of a program: its clauses and its query as they are resolved, in their order, where none of them
/// breaks a rule; and the rules that they break, one for each faulty one. A clause has a block of its own, so that it takes
/// the room that a clause had as it was read, where that was given up.
#[derive(Drop)]
pub struct TypecheckResult {
    pub clauses: Vec<Box<TypedClause>>,
    pub broken: Vec<Broken>,
}

impl TypecheckResult {
    /// Nothing was judged yet.
    pub fn new(alloc: Global) -> TypecheckResult
        ensures clauses { result.clauses.items ≡ [] }
        ensures broken { result.broken.items ≡ [] }
    {
        TypecheckResult {
            clauses: Vec::new(alloc),
            broken: Vec::new(alloc),
        }
    }

    // Puts what is said of a clause of a predicate behind the others.
    fn put(&mut self, alloc: Global, pred: u32, at: Place, verdict: Verdict) -> Result<(), Memory>
        ensures { OnOk result (WasPut pred at verdict self.old self.new) }
    {
        match verdict {
            Verdict::Typed(resolved) => {
                self.put_typed(alloc, TypedClause { pred, resolved })?;
                Ok(())
            }
            Verdict::Faulty(rule, what) => {
                self.broken.push(Broken { rule, at, what })?;
                Ok(())
            }
        }
    }

    // Puts a clause as it is resolved behind the others, where none breaks a rule.
    fn put_typed(&mut self, alloc: Global, made: TypedClause) -> Result<(), Memory>
        ensures broken { OnOk result (self.new.broken.items ≡ self.old.broken.items) }
        ensures clauses { OnOk result (self.old.broken.items ≡ []
            → typed_clauses self.new.clauses.items
            ≡ typed_clauses self.old.clauses.items ++ made ∷ []) }
    {
        if !self.broken.is_empty() {
            return Ok(());
        }
        self.clauses.push(Box::new(alloc, made)?)?;
        Ok(())
    }

    // Judges the clauses of a file, which are given up once they are judged, and gives back the other items.
    pub fn typecheck_file(
        &mut self,
        checker: &Checker<'_>,
        file: Row<Entry>,
    ) -> Result<Row<Entry>, Memory>
        requires { IsSomeTable checker.now.signatures }
        ensures added { OnOk result ((l : Linked) (seen : (own : ℕ) → ℕ → Option TypeTerm)
            → Checks l (seen checker.now.at.own) checker.now
            → Adds l seen
            (map (item_of l) (module_clauses l checker.now.at.own (map plain_entry file)))
            self.old self.new) }
        ensures others { IfOk result
            (λ others. map plain_entry others ≡ without_clauses (map plain_entry file)) }
    {
        let mut taken = ConsumedItems::new(checker.at.alloc);
        let mut known = None;
        for entry in file.into_vec() {
            self.typecheck_entry(checker, &entry, &mut known)?;
            taken.put(checker.at.alloc, entry)?;
        }
        let ConsumedItems { others, .. } = taken;
        let others = Row::of(others)?;
        Ok(others)
    }

    // Judges an item of a file, where it is a clause.
    fn typecheck_entry(
        &mut self,
        checker: &Checker<'_>,
        entry: &Entry,
        known: &mut Option<Subject>,
    ) -> Result<(), Memory>
        requires some { IsSomeTable checker.now.signatures }
        requires known { IsKnown (plain_names checker.now.at.names.now) checker.now.at.own known.old }
        ensures added { OnOk result ((l : Linked) (seen : (own : ℕ) → ℕ → Option TypeTerm)
            → Checks l (seen checker.now.at.own) checker.now
            → Adds l seen
            (map (item_of l) (entry_clauses l checker.now.at.own (plain_entry entry.now)))
            self.old self.new) }
        ensures known { OnOk result
            (IsKnown (plain_names checker.now.at.names.now) checker.now.at.own known.new) }
    {
        match &entry.decl {
            Decl::Clause(term) => {
                let number = clause_predicate(checker, &entry.decl, known)?;
                match number {
                    Some(pred) => {
                        self.typecheck_clause(checker, pred, entry.at, term)?;
                        Ok(())
                    }
                    None => Ok(()),
                }
            }
            _ => Ok(()),
        }
    }

    // Judges a clause of a predicate or a function.
    fn typecheck_clause(
        &mut self,
        checker: &Checker<'_>,
        pred: u32,
        at: Place,
        term: &Term,
    ) -> Result<(), Memory>
        requires { IsSomeTable checker.now.signatures }
        ensures { OnOk result ((l : Linked) (seen : (own : ℕ) → ℕ → Option TypeTerm)
            → Checks l (seen checker.now.at.own) checker.now
            → Adds l seen
            (item_of l
            (record { own = checker.now.at.own; pred = pred; term = plain_term term.now; at = at })
            ∷ [])
            self.old self.new) }
    {
        let clause = unresolved_of(checker, pred, at, term)?;
        let verdict = checker.verdict(&clause)?;
        self.put(checker.at.alloc, pred, at, verdict)?;
        Ok(())
    }

    /// Judges the goal of a query, which stands in a file of a number.
    pub fn typecheck_query(
        &mut self,
        checker: &Checker<'_>,
        number: u32,
        goal: &Term,
    ) -> Result<(), Memory>
        requires some { IsSomeTable checker.now.signatures }
        requires first { checker.now.at.own ≡ 0 }
        ensures { OnOk result ((l : Linked) (seen : (own : ℕ) → ℕ → Option TypeTerm)
            → Checks l (seen checker.now.at.own) checker.now
            → Adds l seen (query_item l number (Some (plain_term goal.now))) self.old self.new) }
    {
        let at = Place {
            file: number,
            line: goal.line,
        };
        let numbered = numbered_goal(checker.at.alloc, goal)?;
        let pred = checker.at.names.preds.len();
        let clause = unresolved_query(&checker.at, pred, at, &numbered)?;
        let verdict = checker.verdict(&clause)?;
        self.put(checker.at.alloc, pred, at, verdict)?;
        Ok(())
    }
}

// A clause before its names are resolved, its state variables written out. A fact that has none is taken as it stands,
// since to write it out would only copy it.
fn unresolved_of(
    checker: &Checker<'_>,
    pred: u32,
    at: Place,
    term: &Term,
) -> Result<UnresolvedClause, Memory>
    ensures clause { IfOk result (λ made. plain_unresolved_clause made
        ≡ (unresolved_clause (plain_names checker.now.at.names.now) checker.now.at.own pred
        (numbered_clause (plain_term term.now))).clause) }
    ensures names { IfOk result (λ made. made.names
        ≡ (unresolved_clause (plain_names checker.now.at.names.now) checker.now.at.own pred
        (numbered_clause (plain_term term.now))).names) }
    ensures place { IfOk result (λ made. made.place ≡ at) }
{
    if stays_as_written(term) {
        return unresolved_clause(&checker.at, pred, at, term);
    }
    let numbered = numbered_clause(checker.at.alloc, term)?;
    unresolved_clause(&checker.at, pred, at, &numbered)
}
