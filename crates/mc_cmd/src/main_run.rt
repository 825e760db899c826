//! The writing of a run of `main`.
ghost use Rattle.std.specs.Prelude.{◌≡◌, IfOk};
ghost use Rattle.mc_outside.specs.Counts.{PutFaults};
ghost use Rattle.mc_model.specs.EventList.{Ends, written};
ghost use Rattle.mc_command_line.specs.Plain.{plain_bounds};
ghost use Rattle.mc_cmd.specs.Ends.{stop_of, written_main};
ghost use Rattle.mc_cmd.specs.code.Decisions.{CountPuts, Writes};
ghost use Rattle.mc_cmd.specs.code.Runs.{EndsUnless, plain_end};

use crate::run::{Run, put_end};
use crate::status::Status;
use mc_base::{Memory, Text};
use mc_command_line::Bounds;
use mc_model::run::{Step, Stop};
use mc_outside::{PutFault, Sink};
use std::alloc::Global;

/// Puts a text by one put, where it isn't empty.
fn put_text<O: Sink>(text: &Text, out: &mut O) -> Result<(), PutFault>
    ensures written { Writes (O.written out.old) (O.written out.new) result text.now }
    ensures faults { PutFaults result (O.faults out.old) (O.faults out.new) }
{
    if text.is_empty() {
        return Ok(());
    }
    out.put(text.bytes())
}

/// Puts the texts that a run writes, and answers why it stopped, if it did. The first put that fails ends the writing.
fn put_texts<R: Run, O: Sink>(
    alloc: Global,
    run: &mut R,
    out: &mut O,
) -> Result<Option<Stop>, PutFault>
    requires { R.is_run run.old }
    ensures written { Writes (O.written out.old) (O.written out.new) result
        (written (R.left run.old)) }
    ensures end { IfOk result (λ stop. plain_end stop ≡ stop_of (R.left run.old)) }
    ensures ends { IfOk result (λ stop. EndsUnless stop (R.left run.old)) }
    ensures faults { PutFaults result (O.faults out.old) (O.faults out.new) }
{
    'steps: loop {
        match run.next(alloc) {
            Ok(Step::Answer(_values)) => {}
            Ok(Step::Wrote(text)) => put_text(&text, out)?,
            Ok(Step::End) => return Ok(None),
            Ok(Step::Stopped(stop)) => return Ok(Some(stop)),
            Ok(Step::Wants(_)) | Err(Memory) => return Err(PutFault::Memory),
        }
    }
}

/// Writes the whole run of `main`: the texts that it writes on the output, and where it stops before its end the line
/// that says why on the error output. Answers the status.
pub fn write_main<R: Run, O: Sink, E: Sink>(
    alloc: Global,
    bounds: Bounds,
    run: &mut R,
    out: &mut O,
    err: &mut E,
) -> Result<Status, PutFault>
    requires { R.is_run run.old }
    ensures output { Writes (O.written out.old) (O.written out.new) result
        (written_main (plain_bounds bounds) (R.left run.old)).out }
    ensures errors { Writes (E.written err.old) (E.written err.new) result
        (written_main (plain_bounds bounds) (R.left run.old)).err }
    ensures status { IfOk result
        (λ status. status ≡ (written_main (plain_bounds bounds) (R.left run.old)).status) }
    ensures ends { IfOk result (λ status. status ≡ Status.Done → Ends (R.left run.old)) }
    ensures puts { CountPuts result (O.faults out.old) (O.faults out.new) (E.faults err.old)
        (E.faults err.new) }
{
    let stop = put_texts(alloc, run, out)?;
    put_end(alloc, bounds, stop, err)
}
