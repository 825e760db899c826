//! The runs of a query and of `main` over procedures, by the plain executor.
ghost use Rattle.std.specs.Prelude.{◌≡◌, ◌<◌, length, Some, IfOk};
ghost use Rattle.mc_model.specs.EventList.{Ends};
ghost use Rattle.mc_command_line.specs.Plain.{plain_bounds};
ghost use Rattle.mc_procs.specs.Procedures.{procedure_at};
ghost use Rattle.mc_flat_code.specs.Running.{IsCode};
ghost use Rattle.mc_plain.specs.Running.{run_of, IsRun};
ghost use Rattle.mc_plain.specs.Runs.{StandsForQuery};
ghost use Rattle.mc_cmd.specs.Ends.{shown, written_main};
ghost use Rattle.mc_cmd.specs.Outcome.{run_of_goal, run_of_main, run_of_query, written_goal, written_query};
ghost use Rattle.mc_cmd.specs.code.Decisions.{CountPuts, Writes};
ghost use Rattle.mc_cmd.specs.code.Procs.{WantsNothing, left_in};

use crate::main_run::write_main;
use crate::run::{Run, write_run};
use crate::status::Status;
use mc_base::{Memory, Row, Text};
use mc_command_line::Bounds;
use mc_compile::Goal;
use mc_flat_code::FlatQuery;
use mc_flat_code::code::FlatProgram;
use mc_model::run::{Limits, Step};
use mc_outside::{PutFault, Sink};
use mc_plain::{Plain, names_all};
use mc_procs::Procs;
use std::alloc::Global;

/// The code of procedures, with that of one of them as the query behind it.
fn flat_query(alloc: Global, procs: &Procs, query: u32) -> Result<FlatQuery, Memory>
    requires { query < length procs.now.added }
    ensures code { IfOk result (λ flat. IsCode flat.program.code) }
    ensures stands { IfOk result (λ flat.
        StandsForQuery flat (procedure_at procs.now.added) (procedure_at procs.now.added query)) }
{
    let program = FlatProgram::of(alloc, procs.procs())?;
    FlatQuery::over(alloc, program, procs.get(query))
}

/// A step that wants no input.
fn wanting_nothing(step: Option<Step>) -> Result<Step, Memory>
    ensures { IfOk result (λ there. (step ≡ Some there) × WantsNothing there) }
{
    match step {
        Some(Step::Answer(values)) => Ok(Step::Answer(values)),
        Some(Step::Wrote(text)) => Ok(Step::Wrote(text)),
        Some(Step::End) => Ok(Step::End),
        Some(Step::Stopped(stop)) => Ok(Step::Stopped(stop)),
        Some(Step::Wants(_)) | None => Err(Memory),
    }
}

fn limits_of(bounds: Bounds) -> Limits
    ensures { result ≡ record { budget = bounds.budget; depth = bounds.depth } }
{
    Limits {
        budget: bounds.budget,
        depth: bounds.depth,
    }
}

/// The run of a query, or of `main`, over procedures. What is left of it, contracts see over an empty input.
#[derive(Drop)]
pub struct ProcsRun<'p> {
    plain: Plain<'p>,
}

impl<'p> ProcsRun<'p> {
    /// The run of the procedure of a number, as a query over all of them, before its first step. `Memory` comes also where
    /// there is no such procedure, and where one mentions what the program doesn't have.
    pub fn of(
        alloc: Global,
        procs: &'p Procs,
        query: u32,
        bounds: Bounds,
    ) -> Result<ProcsRun<'p>, Memory>
        ensures is_run { IfOk result (λ run. IsRun run.plain) }
        ensures left { IfOk result
            (λ run. left_in (run_of run.plain)
            ≡ shown (run_of_query procs.now query bounds.budget bounds.depth)) }
    {
        if query >= procs.count() {
            return Err(Memory);
        }
        let flat = flat_query(alloc, procs, query)?;
        if !names_all(procs.program(), &flat.program.code) {
            return Err(Memory);
        }
        let plain = Plain::query(alloc, procs.program(), flat, limits_of(bounds))?;
        Ok(ProcsRun { plain })
    }

    /// The run of the call of the procedure of a number with io's first state, before its first step. `Memory` comes also
    /// where a procedure mentions what the program doesn't have.
    pub fn of_main(
        alloc: Global,
        procs: &'p Procs,
        main: u32,
        bounds: Bounds,
    ) -> Result<ProcsRun<'p>, Memory>
        ensures is_run { IfOk result (λ run. IsRun run.plain) }
        ensures left { IfOk result
            (λ run. left_in (run_of run.plain)
            ≡ shown (run_of_main procs.now main bounds.budget bounds.depth)) }
    {
        let flat = FlatProgram::of(alloc, procs.procs())?;
        if !names_all(procs.program(), &flat.code) {
            return Err(Memory);
        }
        let plain = Plain::call(alloc, procs.program(), flat, main, limits_of(bounds))?;
        Ok(ProcsRun { plain })
    }
}

/// Writes the run of a query over procedures, by its number, as `write_run` does.
fn write_query<O: Sink, E: Sink>(
    alloc: Global,
    bounds: Bounds,
    procs: &Procs,
    query: u32,
    variables: &Row<Text>,
    out: &mut O,
    err: &mut E,
) -> Result<Status, PutFault>
    ensures output { Writes (O.written out.old) (O.written out.new) result
        (written_query (plain_bounds bounds) procs.now query variables.now).out }
    ensures errors { Writes (E.written err.old) (E.written err.new) result
        (written_query (plain_bounds bounds) procs.now query variables.now).err }
    ensures status { IfOk result
        (λ status.
        status ≡ (written_query (plain_bounds bounds) procs.now query variables.now).status) }
    ensures ends { IfOk result
        (λ status.
        status ≡ Status.Done → Ends (run_of_query procs.now query bounds.budget bounds.depth)) }
    ensures puts { CountPuts result (O.faults out.old) (O.faults out.new) (E.faults err.old)
        (E.faults err.new) }
{
    let Ok(mut run) = ProcsRun::of(alloc, procs, query, bounds) else {
        return Err(PutFault::Memory);
    };
    write_run(
        alloc,
        bounds,
        procs.program(),
        variables,
        &mut run,
        out,
        err,
    )
}

/// Writes the run of `main` over procedures, by its number, as `write_main` does.
fn write_call<O: Sink, E: Sink>(
    alloc: Global,
    bounds: Bounds,
    procs: &Procs,
    main: u32,
    out: &mut O,
    err: &mut E,
) -> Result<Status, PutFault>
    ensures output { Writes (O.written out.old) (O.written out.new) result
        (written_main (plain_bounds bounds)
        (run_of_main procs.now main bounds.budget bounds.depth)).out }
    ensures errors { Writes (E.written err.old) (E.written err.new) result
        (written_main (plain_bounds bounds)
        (run_of_main procs.now main bounds.budget bounds.depth)).err }
    ensures status { IfOk result
        (λ status.
        status
        ≡ (written_main (plain_bounds bounds)
        (run_of_main procs.now main bounds.budget bounds.depth)).status) }
    ensures ends { IfOk result
        (λ status.
        status ≡ Status.Done → Ends (run_of_main procs.now main bounds.budget bounds.depth)) }
    ensures puts { CountPuts result (O.faults out.old) (O.faults out.new) (E.faults err.old)
        (E.faults err.new) }
{
    let Ok(mut run) = ProcsRun::of_main(alloc, procs, main, bounds) else {
        return Err(PutFault::Memory);
    };
    write_main(alloc, bounds, &mut run, out, err)
}

/// Writes the run of a query, or of `main`, over procedures, and answers the status.
pub fn write_goal<O: Sink, E: Sink>(
    alloc: Global,
    bounds: Bounds,
    procs: &Procs,
    goal: &Goal,
    out: &mut O,
    err: &mut E,
) -> Result<Status, PutFault>
    ensures output { Writes (O.written out.old) (O.written out.new) result
        (written_goal (plain_bounds bounds) procs.now goal.now).out }
    ensures errors { Writes (E.written err.old) (E.written err.new) result
        (written_goal (plain_bounds bounds) procs.now goal.now).err }
    ensures status { IfOk result
        (λ status. status ≡ (written_goal (plain_bounds bounds) procs.now goal.now).status) }
    ensures ends { IfOk result
        (λ status.
        status ≡ Status.Done
        → Ends (run_of_goal procs.now goal.now bounds.budget bounds.depth)) }
    ensures puts { CountPuts result (O.faults out.old) (O.faults out.new) (E.faults err.old)
        (E.faults err.new) }
{
    match goal {
        Goal::Query { number, variables } => {
            write_query(alloc, bounds, procs, *number, variables, out, err)
        }
        Goal::Main(number) => write_call(alloc, bounds, procs, *number, out, err),
    }
}

impl<'p> Run for ProcsRun<'p> {
    ghost is_run = { λ r. IsRun r.plain };

    ghost left = { λ r. left_in (run_of r.plain) };

    /// A run that would read an unbound variable finds no room, and so does one that wants input.
    fn next(&mut self, _alloc: Global) -> Result<Step, Memory> {
        let step = self.plain.next_if_bound()?;
        wanting_nothing(step)
    }
}
