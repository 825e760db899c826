use crate::begin::{constants_of, first_caller, first_now};
use crate::calls::room;
use crate::state::{Control, RunContext, RunState};
use crate::{enter, ready, unbound};
use mc_base::Memory;
use mc_builtins::Library;
use mc_flat_code::FlatQuery;
use mc_flat_code::code::FlatProgram;
use mc_model::program::Program;
use mc_model::run::{Input, Limits, Step};
use mc_values::Heap;
use std::alloc::Global;

/// A run that is under way, from `query` or `call`. Once memory was wanting, it is broken.
#[derive(Drop)]
pub struct Plain<'p> {
    alloc: Global,
    setting: RunContext<'p>,
    work: RunState,
    broken: bool,
}

impl<'p> Plain<'p> {
    ghost use Rattle.std.specs.Prelude.{◌≡◌, ◌<◌, ℕ, Some, None, IfOk, OnOk, OnErr};
    ghost use Rattle.mc_model.specs.Scheduled.{Procedure};
    ghost use Rattle.mc_flat_code.specs.Running.{IsCode};
    ghost use Rattle.mc_flat_code.specs.Standing.{StandsForAll};
    ghost use Rattle.mc_plain.specs.Names.{NamesAll};
    ghost use Rattle.mc_plain.specs.Rest.{Follows, FollowsIf, IsGood, Begins, WantsLine, WantsIf, IsFed};
    ghost use Rattle.mc_plain.specs.Running.{run_of, IsRun};
    ghost use Rattle.mc_plain.specs.Runs.{StandsForQuery, query_rest, main_rest};

    /// The run of a query, which has no inputs: its answers are the values of its head variables.
    pub fn query(
        alloc: Global,
        program: &'p Program,
        flat: FlatQuery,
        limits: Limits,
    ) -> Result<Plain<'p>, Memory>
        requires code { IsCode flat.program.code }
        requires names { NamesAll program.now flat.program.code }
        ensures is_run { IfOk result (λ run. IsRun run) }
        ensures run { IfOk result (λ run. (procs : ℕ → Procedure) (q : Procedure)
            → StandsForQuery flat procs q
            → Begins (run_of run) (query_rest program.now limits procs q)) }
    {
        let FlatQuery {
            program: flat,
            query,
        } = flat;
        let mut heap = Heap::new(alloc);
        let constants = constants_of(alloc, &flat.code.values, &mut heap)?;
        let head = flat.code.variables(query.head);
        let frame = unbound(alloc, room(query.size as usize, head))?;
        let first = flat.code.variables(query.first);
        let is_ready = ready(first, head, &frame);
        let now = first_now(query.entry, is_ready);
        let control = Control::begin(alloc, frame, limits, limits.budget as u64 + 1, now);
        let library = Library::of(program);
        let setting = RunContext {
            library,
            flat,
            constants,
            head: query.head,
            last: query.last,
        };
        let refs = Vec::new(alloc);
        Ok(Plain {
            alloc,
            setting,
            work: RunState {
                heap,
                refs,
                control,
            },
            broken: false,
        })
    }

    /// The run of the call of a procedure, by its number, with io's first state, to which it gives the last one. The call
    /// itself counts.
    pub fn call(
        alloc: Global,
        program: &'p Program,
        flat: FlatProgram,
        number: u32,
        limits: Limits,
    ) -> Result<Plain<'p>, Memory>
        requires code { IsCode flat.code }
        requires names { NamesAll program.now flat.code }
        ensures is_run { IfOk result (λ run. IsRun run) }
        ensures run { IfOk result (λ run. (procs : ℕ → Procedure) → StandsForAll flat procs
            → Begins (run_of run) (main_rest program.now limits procs number)) }
    {
        let body = flat.body(number);
        let mut heap = Heap::new(alloc);
        let constants = constants_of(alloc, &flat.code.values, &mut heap)?;
        let caller = first_caller(alloc, &mut heap)?;
        let head = flat.code.variables(body.head);
        let first = flat.code.variables(body.first);
        let size = room(body.size as usize, head);
        let frame = enter(Vec::new(alloc), size, head, first, &[0, 1], &caller)?;
        let is_ready = ready(first, &[0, 1], &caller);
        let now = first_now(body.entry, is_ready);
        let control = Control::begin_call(alloc, frame, limits, now);
        let library = Library::of(program);
        let setting = RunContext {
            library,
            flat,
            constants,
            head: body.head,
            last: body.last,
        };
        let refs = Vec::new(alloc);
        Ok(Plain {
            alloc,
            setting,
            work: RunState {
                heap,
                refs,
                control,
            },
            broken: false,
        })
    }

    /// What comes next of a run that reads no unbound variable: an answer, a text that is written, its end, or the byte of
    /// the input from which it wants a line. An end comes again and again, and so does a wish for input. Once memory was
    /// wanting, that it was.
    pub fn next(&mut self) -> Result<Step, Memory>
        requires is_run { IsRun self.old }
        requires good { IsGood (run_of self.old) }
        ensures is_run { IsRun self.new }
        ensures next { IfOk result (λ step. Follows step (run_of self.old) (run_of self.new)) }
        ensures wants { IfOk result (λ step. WantsIf (Some step) (run_of self.new)) }
        ensures err { OnErr result (run_of self.new ≡ None) }
    {
        match self.next_if_bound()? {
            Some(step) => Ok(step),
            None => unreachable!(),
        }
    }

    /// The same of any run: nothing exactly where an unbound variable would be read.
    pub fn next_if_bound(&mut self) -> Result<Option<Step>, Memory>
        requires { IsRun self.old }
        ensures is_run { IsRun self.new }
        ensures next { IfOk result (λ step. FollowsIf step (run_of self.old) (run_of self.new)) }
        ensures wants { IfOk result (λ step. WantsIf step (run_of self.new)) }
        ensures err { OnErr result (run_of self.new ≡ None) }
    {
        if self.broken {
            return Err(Memory);
        }
        match self.work.next(self.alloc, &self.setting) {
            Ok(step) => Ok(step),
            Err(Memory) => {
                self.broken = true;
                Err(Memory)
            }
        }
    }

    /// Feeds a run that wants a line of the input with what comes next in it, at the byte from which it wants it. Over
    /// each such input, what is left then is what was left, without the wish. More than 2^64 - 1 bytes of the input in
    /// all find no room.
    pub fn feed(&mut self, got: Input) -> Result<(), Memory>
        requires is_run { IsRun self.old }
        requires wants { WantsLine (run_of self.old) }
        ensures is_run { IsRun self.new }
        ensures fed { OnOk result (IsFed got (run_of self.old) (run_of self.new)) }
        ensures err { OnErr result (run_of self.new ≡ None) }
    {
        if self.broken {
            return Err(Memory);
        }
        match self.work.feed(self.alloc, &self.setting, &got) {
            Ok(()) => Ok(()),
            Err(Memory) => {
                self.broken = true;
                Err(Memory)
            }
        }
    }
}
