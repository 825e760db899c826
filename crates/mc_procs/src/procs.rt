ghost use Rattle.std.specs.Prelude.{◌≡◌, ◌↔◌, ◌+◌, ◌∷◌, ◌<◌, ◌≤◌, ℕ, [], length, get_or, slice_index, slice_index_or, slice_set, IsTrue, IfOk, IfErr, OnOk, OnErr};
ghost use Rattle.mc_program.specs.PlainPrograms.{plain_program, plain_type};
ghost use Rattle.mc_model.specs.PlainGoals.{plain_proc};
ghost use Rattle.mc_accepted.specs.Inclusion.{Included};
ghost use Rattle.mc_accepted.specs.Tidy.{Tidy};
ghost use Rattle.mc_insts.specs.Graphs.{graph_of, count_of};
ghost use Rattle.mc_insts.specs.Growing.{Grown};
ghost use Rattle.mc_insts.specs.Kept.{AreOf};
ghost use Rattle.mc_insts.specs.Merging.{StandsForAll, OneIncludesTheOther, EachIs};
ghost use Rattle.mc_insts.specs.Defining.{plain_definitions, bounds_of, Defined, DefinitionsFit, AreSound, IsFault};
ghost use Rattle.mc_insts.specs.Narrowed.{Narrowed};
ghost use Rattle.mc_procs.specs.Procedures.{source_of, insts_of, with_proc, with_insts, with_procs};
ghost use Rattle.mc_procs.specs.Fitting.{ProgramFits, ProcedureFits, AllFit, SystemFits};

use mc_base::{Memory, Row};
use mc_insts::{InstDef, InstFault, Insts};
use mc_model::inst::InstId;
use mc_model::sched::Proc;
use mc_program::program::Program;
use mc_program::ty::Ty;
use std::alloc::Global;
use std::marker::Model;
use std::mem;

/// A program with its insts and its procedures, which are numbered as they come. It tells beforehand of which predicate
/// each is. That all fit one another is kept.
#[derive(Drop)]
pub struct Procs {
    program: Program,
    insts: Insts,
    preds: Row<u32>,
    added: Vec<Proc>,
}

impl Model for Procs {
    ghost use Rattle.mc_procs.specs.Procedures.{PlainProcs};

    ghost Value = { PlainProcs };

    ghost use Rattle.std.specs.Coded.{codes};
    ghost use Rattle.mc_program.specs.contracts.ty.Ty as ty;
    ghost use Rattle.mc_program.specs.contracts.expr.Expr as expr;
    ghost use Rattle.mc_program.specs.contracts.value.Value as value;
    ghost use Rattle.mc_program.specs.contracts.program.Goal as goal;
    ghost use Rattle.mc_model.specs.contracts.sched.GoalNode as node;

    ghost coded = { Prim.hlevel (codes, ty.the_row.coded, expr.the_row.coded, value.the_row.coded, goal.the_row.coded, node.the_row.coded) };

    ghost use Rattle.mc_procs.specs.Fitting.{AllFit};

    ghost view = { λ q. record { program = q.program; insts = q.insts; preds = q.preds; added = q.added.items } };

    ghost invariant = { λ q. AllFit (record { program = q.program; insts = q.insts; preds = q.preds; added = q.added.items }) };
}

/// How many procedures came; no more than a row holds.
fn count(preds: &Row<u32>, added: &Vec<Proc>) -> u32
    requires { length added.now.items ≤ length preds.now }
    ensures { result ≡ length added.now.items }
{
    let to_come = preds.len() as usize;
    let came = added.len();
    prove!(came <= to_come);
    came as u32
}

impl Procs {
    /// No procedures yet, of a program and its insts; the row holds the predicate of each procedure that is to come. It
    /// takes no memory.
    pub fn new(alloc: Global, program: Program, insts: Insts, preds: Row<u32>) -> Procs
        requires fits { ProgramFits program insts }
        ensures { result ≡ record { program = program; insts = insts; preds = preds; added = [] } }
    {
        Procs {
            program,
            insts,
            preds,
            added: Vec::new(alloc),
        }
    }

    /// The next procedure comes, and its number is answered. After want of memory all is as before, and the procedure is
    /// dropped.
    pub fn add(&mut self, p: Proc) -> Result<u32, Memory>
        requires to_come { length self.old.added < length self.old.preds }
        requires pred { p.pred ≡ slice_index self.old.preds (length self.old.added) }
        requires fits { ProcedureFits self.old (plain_proc p) }
        ensures number { IfOk result (λ k. k ≡ length self.old.added) }
        ensures ok { OnOk result (self.new ≡ with_proc self.old p) }
        ensures err { OnErr result (self.new ≡ self.old) }
    {
        let k = count(&self.preds, &self.added);
        self.added.push(p)?;
        Ok(k)
    }

    /// The procedure of a number.
    pub fn get(&self, k: u32) -> &Proc
        requires { k < length self.now.added }
        ensures { result.now ≡ slice_index_or self.now.added k result.now }
    {
        &self.added[k as usize]
    }

    /// The procedures that came, in the order of their numbers.
    pub fn procs(&self) -> &[Proc]
        ensures { result.now ≡ self.now.added }
    {
        self.added.as_slice()
    }

    /// How many procedures came.
    pub fn count(&self) -> u32
        ensures { result ≡ length self.now.added }
    {
        count(&self.preds, &self.added)
    }

    /// The predicate of each procedure that came or is to come, in the order of their numbers.
    pub fn preds(&self) -> &Row<u32>
        ensures { result.now ≡ self.now.preds }
    {
        &self.preds
    }

    /// The program.
    pub fn program(&self) -> &Program
        ensures { result.now ≡ self.now.program }
    {
        &self.program
    }

    /// The insts.
    pub fn insts(&self) -> &Insts
        ensures { result.now ≡ self.now.insts }
    {
        &self.insts
    }

    /// Puts a procedure in the place of another of the same predicate, and gives that one back. It takes no memory.
    pub fn replace(&mut self, k: u32, p: Proc) -> Proc
        requires there { k < length self.old.added }
        requires pred { p.pred ≡ slice_index self.old.preds k }
        requires fits { ProcedureFits self.old (plain_proc p) }
        ensures old { result ≡ slice_index_or self.old.added k result }
        ensures new { self.new ≡ with_procs self.old (slice_set self.old.added k p) }
    {
        mem::replace(&mut self.added[k as usize], p)
    }

    /// Whether the first inst is included in the second at a type.
    pub fn includes(&mut self, alloc: Global, i: InstId, j: InstId, t: &Ty) -> Result<bool, Memory>
        requires first { i < count_of self.old.insts }
        requires second { j < count_of self.old.insts }
        ensures included { IfOk result
            (λ b. IsTrue b ↔ Included (source_of self.old) (insts_of self.old) i j (plain_type t.now)) }
        ensures others { self.new ≡ with_insts self.old self.new.insts }
        ensures graph { insts_of self.new ≡ insts_of self.old }
        ensures count { count_of self.new.insts ≡ count_of self.old.insts }
    {
        self.insts.includes(alloc, i, j, t, &self.program)
    }

    /// Whether `unique` and `dead` stand at io's state alone, at any depth of an inst at a type.
    pub fn is_tidy(&mut self, alloc: Global, i: InstId, t: &Ty) -> Result<bool, Memory>
        requires { i < count_of self.old.insts }
        ensures tidy { IfOk result
            (λ b. IsTrue b ↔ Tidy (source_of self.old) (insts_of self.old) i (plain_type t.now)) }
        ensures others { self.new ≡ with_insts self.old self.new.insts }
        ensures graph { insts_of self.new ≡ insts_of self.old }
        ensures count { count_of self.new.insts ≡ count_of self.old.insts }
    {
        self.insts.is_tidy(alloc, i, t, &self.program)
    }

    /// Adds the insts that definitions define: a node for each that lists constructors, in their order. Each inst of the
    /// answer is that of the definition in its place. After a refusal the graph is as before.
    pub fn define(&mut self, alloc: Global, defs: &Row<InstDef>) -> Result<Row<InstId>, InstFault>
        requires { DefinitionsFit (count_of self.old.insts) (plain_definitions defs.now) }
        ensures defined { IfOk result
            (λ insts. Defined (plain_definitions defs.now) (count_of self.old.insts) (insts_of self.new) insts) }
        ensures there { IfOk result
            (λ insts. (n : ℕ) → n < length insts → get_or insts n 0 < count_of self.new.insts) }
        ensures made { OnOk result
            (count_of self.new.insts ≡ count_of self.old.insts + bounds_of (plain_definitions defs.now)) }
        ensures sound { OnOk result
            (AreSound (plain_definitions defs.now) (length (plain_definitions defs.now))) }
        ensures fault { IfErr result (IsFault (plain_definitions defs.now)) }
        ensures others { self.new ≡ with_insts self.old self.new.insts }
        ensures grown { Grown (source_of self.old) self.old.insts self.new.insts }
        ensures graph { OnErr result (insts_of self.new ≡ insts_of self.old) }
        ensures count { OnErr result (count_of self.new.insts ≡ count_of self.old.insts) }
    {
        self.insts.define(alloc, defs, &self.program)
    }

    /// The least inst above two at a type. Where one of the two includes the other no inst is made. After want of memory
    /// the graph is as before.
    pub fn merge(&mut self, alloc: Global, i: InstId, j: InstId, t: &Ty) -> Result<InstId, Memory>
        requires first { i < count_of self.old.insts }
        requires second { j < count_of self.old.insts }
        ensures there { IfOk result (λ k. k < count_of self.new.insts) }
        ensures merged { IfOk result
            (λ k. StandsForAll (source_of self.old) (insts_of self.new) (i ∷ j ∷ []) k (plain_type t.now)) }
        ensures alike { IfOk result (λ k. i ≡ j → k ≡ i) }
        ensures kept { OnOk result
            (OneIncludesTheOther (source_of self.old) (insts_of self.old) i j (plain_type t.now)
            → count_of self.new.insts ≡ count_of self.old.insts) }
        ensures others { self.new ≡ with_insts self.old self.new.insts }
        ensures grown { Grown (source_of self.old) self.old.insts self.new.insts }
        ensures graph { OnErr result (insts_of self.new ≡ insts_of self.old) }
        ensures count { OnErr result (count_of self.new.insts ≡ count_of self.old.insts) }
    {
        self.insts.merge(alloc, i, j, t, &self.program)
    }

    /// The least inst above all of these at a type. After want of memory the graph is as before.
    pub fn merge_all(&mut self, alloc: Global, insts: &[InstId], t: &Ty) -> Result<InstId, Memory>
        requires some { 0 < length insts.now }
        requires insts { (n : ℕ) → n < length insts.now → get_or insts.now n 0 < count_of self.old.insts }
        ensures there { IfOk result (λ k. k < count_of self.new.insts) }
        ensures merged { IfOk result
            (λ k. StandsForAll (source_of self.old) (insts_of self.new) insts.now k (plain_type t.now)) }
        ensures alike { IfOk result (λ k. (i : ℕ) → EachIs i insts.now → k ≡ i) }
        ensures others { self.new ≡ with_insts self.old self.new.insts }
        ensures grown { Grown (source_of self.old) self.old.insts self.new.insts }
        ensures graph { OnErr result (insts_of self.new ≡ insts_of self.old) }
        ensures count { OnErr result (count_of self.new.insts ≡ count_of self.old.insts) }
    {
        self.insts.merge_all(alloc, insts, t, &self.program)
    }

    /// The insts of a constructor's arguments, by its symbol; None exactly where the inst excludes it.
    pub fn narrow(
        &self,
        alloc: Global,
        i: InstId,
        symbol: u32,
    ) -> Result<Option<Row<InstId>>, Memory>
        requires { i < count_of self.now.insts }
        ensures { IfOk result (λ o. Narrowed (source_of self.now) (insts_of self.now) i symbol o) }
    {
        self.insts.narrow(alloc, i, symbol, &self.program)
    }

    /// That all fit one another, and that their system fits where its insts and builtins do. It only says so.
    pub fn fit(&self)
        ensures all { AllFit self.now }
        ensures system { SystemFits self.now }
    {
        let _ = &self.added;
    }
}
