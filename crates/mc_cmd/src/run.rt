//! Runs that are asked for one step after another, and the writing of them.
ghost use Rattle.std.specs.Prelude.{◌≡◌, map, All, IfOk};
ghost use Rattle.mc_outside.specs.Counts.{PutFaults};
ghost use Rattle.mc_program.specs.Values.{plain_value};
ghost use Rattle.mc_program.specs.Printed.{Names, names_of, printed, answer_text};
ghost use Rattle.mc_model.specs.EventList.{Ends};
ghost use Rattle.mc_model.specs.Output.{query_bytes};
ghost use Rattle.mc_command_line.specs.Plain.{plain_bounds};
ghost use Rattle.mc_cmd.specs.Ends.{end_line, end_status, stop_of, written_run};
ghost use Rattle.mc_cmd.specs.code.Decisions.{CountPuts, Writes};
ghost use Rattle.mc_cmd.specs.code.Runs.{QueryItems, EndsUnless, IsPut, IsStep, plain_end};

use crate::messages;
use crate::named::are_named;
use crate::status::Status;
use crate::stop::put_stop;
use mc_base::{Memory, Row, Text};
use mc_command_line::Bounds;
use mc_model::run::{Step, Stop};
use mc_outside::{PutFault, Sink};
use mc_print::{answer_line, printed};
use mc_program::program::Program;
use mc_program::value::Value;
use std::alloc::Global;

/// A run, step by step.
pub trait Run {
    /// What holds of every run, from its beginning on.
    ghost is_run: { Self → Type 0 };

    /// The items that are left.
    ghost left: { Self → QueryItems };

    /// The next item that is an answer or a text, or the run's end.
    fn next(&mut self, alloc: Global) -> Result<Step, Memory>
        requires { is_run self.old }
        ensures is_run { is_run self.new }
        ensures step { IfOk result (IsStep (left self.old) (left self.new)) };
}

/// How a run went on after a step.
#[derive(Drop)]
pub enum Progress {
    /// There is more; an answer came, or came before.
    On(bool),
    Ended,
    Stopped(Stop),
}

/// The texts of values whose symbols the program has.
fn texts(alloc: Global, program: &Program, values: &Row<Value>) -> Result<Row<Text>, Memory>
    requires { All (λ v. Names program.now (plain_value v)) values.now }
    ensures { IfOk result
        (λ texts. texts ≡ map (λ v. printed (names_of program.now) (plain_value v)) values.now) }
{
    let mut texts = Row::new(alloc);
    for value in values.as_slice() {
        texts.push(printed(alloc, value, program)?)?;
    }
    Ok(texts)
}

/// The line of an answer. One that can't be printed finds no room: one with another number of values than there are
/// variables, or with a symbol that the program doesn't have.
fn line_of(
    alloc: Global,
    program: &Program,
    variables: &Row<Text>,
    values: &Row<Value>,
) -> Result<Text, Memory>
    ensures { IfOk result (λ line. line ≡ answer_text variables.now
        (map (λ v. printed (names_of program.now) (plain_value v)) values.now)) }
{
    if variables.len() != values.len() {
        return Err(Memory);
    }
    if !are_named(alloc, values.as_slice(), program.symbols.len())? {
        return Err(Memory);
    }
    let texts = texts(alloc, program, values)?;
    answer_line(alloc, variables, &texts)
}

/// Puts the line of an answer.
fn put_answer<O: Sink>(
    alloc: Global,
    program: &Program,
    variables: &Row<Text>,
    values: &Row<Value>,
    out: &mut O,
) -> Result<(), PutFault>
    ensures written { Writes (O.written out.old) (O.written out.new) result
        (answer_text variables.now
        (map (λ v. printed (names_of program.now) (plain_value v)) values.now)) }
    ensures faults { PutFaults result (O.faults out.old) (O.faults out.new) }
{
    let Ok(line) = line_of(alloc, program, variables, values) else {
        return Err(PutFault::Memory);
    };
    out.put(line.bytes())
}

/// Puts what a run does next: an answer's line, a text, or at the end `false.` where no answer came.
fn put_next<R: Run, O: Sink>(
    alloc: Global,
    program: &Program,
    variables: &Row<Text>,
    is_answered: bool,
    run: &mut R,
    out: &mut O,
) -> Result<Progress, PutFault>
    requires { R.is_run run.old }
    ensures is_run { R.is_run run.new }
    ensures put { IsPut (printed (names_of program.now)) variables.now is_answered
        (R.left run.old) (R.left run.new) (O.written out.old) (O.written out.new) result }
    ensures faults { PutFaults result (O.faults out.old) (O.faults out.new) }
{
    match run.next(alloc) {
        Ok(Step::Answer(values)) => {
            put_answer(alloc, program, variables, &values, out)?;
            Ok(Progress::On(true))
        }
        Ok(Step::Wrote(text)) => {
            out.put(text.bytes())?;
            Ok(Progress::On(is_answered))
        }
        Ok(Step::End) => {
            if !is_answered {
                out.put(messages::NO_ANSWER)?;
            }
            Ok(Progress::Ended)
        }
        Ok(Step::Stopped(stop)) => Ok(Progress::Stopped(stop)),
        Ok(Step::Wants(_)) | Err(Memory) => Err(PutFault::Memory),
    }
}

/// Puts what a run does, step by step, each answer and each text by one put, and answers why it stopped, if it did. The
/// first put that fails ends the writing.
fn put_run<R: Run, O: Sink>(
    alloc: Global,
    program: &Program,
    variables: &Row<Text>,
    run: &mut R,
    out: &mut O,
) -> Result<Option<Stop>, PutFault>
    requires { R.is_run run.old }
    ensures written { Writes (O.written out.old) (O.written out.new) result
        (query_bytes (printed (names_of program.now)) variables.now (R.left run.old)) }
    ensures end { IfOk result (λ stop. plain_end stop ≡ stop_of (R.left run.old)) }
    ensures ends { IfOk result (λ stop. EndsUnless stop (R.left run.old)) }
    ensures faults { PutFaults result (O.faults out.old) (O.faults out.new) }
{
    let mut is_answered = false;
    'steps: loop {
        match put_next(alloc, program, variables, is_answered, run, out)? {
            Progress::On(now) => is_answered = now,
            Progress::Ended => return Ok(None),
            Progress::Stopped(stop) => return Ok(Some(stop)),
        }
    }
}

/// Puts the line that says why a run stopped, if it did, and answers the status.
pub fn put_end<E: Sink>(
    alloc: Global,
    bounds: Bounds,
    stop: Option<Stop>,
    err: &mut E,
) -> Result<Status, PutFault>
    ensures written { Writes (E.written err.old) (E.written err.new) result
        (end_line (plain_bounds bounds) (plain_end stop)) }
    ensures faults { PutFaults result (E.faults err.old) (E.faults err.new) }
    ensures status { IfOk result (λ status. status ≡ end_status (plain_end stop)) }
{
    match stop {
        None => Ok(Status::Done),
        Some(stop) => put_stop(alloc, bounds, &stop, err),
    }
}

/// Writes the whole run of a query: what it does on the output, and where it stops before its end the line that says why
/// on the error output. Answers the status.
pub fn write_run<R: Run, O: Sink, E: Sink>(
    alloc: Global,
    bounds: Bounds,
    program: &Program,
    variables: &Row<Text>,
    run: &mut R,
    out: &mut O,
    err: &mut E,
) -> Result<Status, PutFault>
    requires { R.is_run run.old }
    ensures output { Writes (O.written out.old) (O.written out.new) result
        (written_run (plain_bounds bounds) (printed (names_of program.now)) variables.now
        (R.left run.old)).out }
    ensures errors { Writes (E.written err.old) (E.written err.new) result
        (written_run (plain_bounds bounds) (printed (names_of program.now)) variables.now
        (R.left run.old)).err }
    ensures status { IfOk result
        (λ status.
        status
        ≡ (written_run (plain_bounds bounds) (printed (names_of program.now)) variables.now
        (R.left run.old)).status) }
    ensures ends { IfOk result (λ status. status ≡ Status.Done → Ends (R.left run.old)) }
    ensures puts { CountPuts result (O.faults out.old) (O.faults out.new) (E.faults err.old)
        (E.faults err.new) }
{
    let stop = put_run(alloc, program, variables, run, out)?;
    put_end(alloc, bounds, stop, err)
}
