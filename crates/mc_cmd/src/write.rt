//! The writing of lines on the error output.
ghost use Rattle.std.specs.Prelude.{◌≡◌, IfOk};
ghost use Rattle.mc_outside.specs.Counts.{PutFaults};
ghost use Rattle.mc_cmd.specs.Messages.{broken_line, broken_lines};
ghost use Rattle.mc_cmd.specs.code.Decisions.{Writes, given_names};

use crate::messages;
use crate::status::Status;
use mc_base::{Memory, Row, Text};
use mc_compile::Given;
use mc_outside::{PutFault, Sink};
use mc_print::broken_line;
use mc_source::rule::Broken;
use std::alloc::Global;

/// Puts a line, and answers the status that goes with it.
pub fn put_line<E: Sink>(line: &[u8], status: Status, err: &mut E) -> Result<Status, PutFault>
    ensures written { Writes (E.written err.old) (E.written err.new) result line.now }
    ensures faults { PutFaults result (E.faults err.old) (E.faults err.new) }
    ensures status { IfOk result (λ answered. answered ≡ status) }
{
    err.put(line)?;
    Ok(status)
}

/// The line of a broken rule. What isn't in one of the files is in the query.
fn rule_line(alloc: Global, files: &Row<Given>, broken: &Broken) -> Result<Text, Memory>
    ensures { IfOk result (λ line. line ≡ broken_line (given_names files.now) broken.now) }
{
    match files.as_slice().get(broken.at.file as usize) {
        Some(file) => broken_line(alloc, &file.name, broken),
        None => broken_line(alloc, &Text::new(alloc, messages::QUERY)?, broken),
    }
}

fn put_rule<E: Sink>(
    alloc: Global,
    files: &Row<Given>,
    broken: &Broken,
    err: &mut E,
) -> Result<(), PutFault>
    ensures written { Writes (E.written err.old) (E.written err.new) result
        (broken_line (given_names files.now) broken.now) }
    ensures faults { PutFaults result (E.faults err.old) (E.faults err.new) }
{
    let Ok(line) = rule_line(alloc, files, broken) else {
        return Err(PutFault::Memory);
    };
    err.put(line.bytes())
}

/// Puts one line for each broken rule, in order, each by one put, and answers the status. The first put that fails ends
/// the writing.
pub fn put_rules<E: Sink>(
    alloc: Global,
    files: &Row<Given>,
    broken: &[Broken],
    err: &mut E,
) -> Result<Status, PutFault>
    ensures written { Writes (E.written err.old) (E.written err.new) result
        (broken_lines (given_names files.now) broken.now) }
    ensures faults { PutFaults result (E.faults err.old) (E.faults err.new) }
    ensures status { IfOk result (λ answered. answered ≡ Status.Rejected) }
{
    for rule in broken {
        put_rule(alloc, files, rule, err)?;
    }
    Ok(Status::Rejected)
}
