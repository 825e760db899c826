//! What is put at a run's stop.
ghost use Rattle.std.specs.Prelude.{◌≡◌, ◌++◌, decimal, Some, IfOk};
ghost use Rattle.mc_outside.specs.Counts.{PutFaults};
ghost use Rattle.mc_model.specs.Output.{stop_line};
ghost use Rattle.mc_cmd.specs.Ends.{end_status};
ghost use Rattle.mc_cmd.specs.code.Decisions.{Writes};
ghost use Rattle.mc_cmd.specs.code.Runs.{plain_stop};

use crate::messages;
use crate::status::Status;
use itoa::Buffer;
use mc_base::{Memory, Text};
use mc_command_line::Bounds;
use mc_model::run::{Exception, Stop};
use mc_outside::{PutFault, Sink};
use std::alloc::Global;

/// A number between two texts.
fn number_line(alloc: Global, before: &[u8], number: u32, after: &[u8]) -> Result<Text, Memory>
    ensures { IfOk result (λ line. line ≡ before.now ++ (decimal number ++ after.now)) }
{
    let mut line = Text::new(alloc, before)?;
    line.extend(Buffer::new().format(number).as_bytes())?;
    line.extend(after)?;
    Ok(line)
}

/// A text between two texts.
fn text_line(alloc: Global, before: &[u8], text: &Text, after: &[u8]) -> Result<Text, Memory>
    ensures { IfOk result (λ line. line ≡ before.now ++ (text.now ++ after.now)) }
{
    let mut line = Text::new(alloc, before)?;
    line.extend(text.bytes())?;
    line.extend(after)?;
    Ok(line)
}

/// The line that says why a run stopped.
fn stop_line(alloc: Global, bounds: Bounds, stop: &Stop) -> Result<Text, Memory>
    ensures { IfOk result
        (λ line. line ≡ stop_line bounds.budget bounds.depth (plain_stop stop.now)) }
{
    match stop {
        Stop::Budget => {
            number_line(
                alloc,
                messages::BUDGET_OF,
                bounds.budget,
                messages::CALLS_SPENT,
            )
        }
        Stop::TooDeep => number_line(
            alloc,
            messages::DEPTH_OF,
            bounds.depth,
            messages::IS_REACHED,
        ),
        Stop::Throw(Exception::ZeroDivide) => Text::new(alloc, messages::ZERO_DIVISOR),
        Stop::Throw(Exception::Error(text)) => text_line(alloc, messages::EXCEPTION, text, b"\n"),
    }
}

/// The status of a call whose run stopped.
fn stop_status(stop: &Stop) -> Status
    ensures { result ≡ end_status (Some (plain_stop stop.now)) }
{
    match stop {
        Stop::Budget => Status::Budget,
        Stop::TooDeep => Status::TooDeep,
        Stop::Throw(_) => Status::Threw,
    }
}

/// Puts the line that says why a run stopped, and answers the status.
pub fn put_stop<E: Sink>(
    alloc: Global,
    bounds: Bounds,
    stop: &Stop,
    err: &mut E,
) -> Result<Status, PutFault>
    ensures written { Writes (E.written err.old) (E.written err.new) result
        (stop_line bounds.budget bounds.depth (plain_stop stop.now)) }
    ensures faults { PutFaults result (E.faults err.old) (E.faults err.new) }
    ensures status { IfOk result (λ status. status ≡ end_status (Some (plain_stop stop.now))) }
{
    let Ok(line) = stop_line(alloc, bounds, stop) else {
        return Err(PutFault::Memory);
    };
    err.put(line.bytes())?;
    Ok(stop_status(stop))
}
