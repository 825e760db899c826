ghost use Rattle.std.specs.Prelude.{◌≡◌, ◌≤◌, length, map, string_bytes, IfOk, IfErr};
ghost use Rattle.mc_command_line.specs.Plain.{plain_bounds, plain_command, plain_texts};
ghost use Rattle.mc_compile.specs.Sources.{texts_of, text_of};
ghost use Rattle.mc_compile.specs.Sources.{is_first as is_first_wanted};
ghost use Rattle.mc_cmd.specs.Messages.{absent_line, unreadable_line};
ghost use Rattle.mc_cmd.specs.Outcome.{bounds_of, files_of, query_of, is_first, is_run};
ghost use Rattle.mc_cmd.specs.Call.{HoldTexts};
ghost use Rattle.mc_cmd.specs.code.Decisions.{CountsAbsents, CountsFaults, IsAnswered, IsDecided, IsHeld, IsStopped, Stops, StopsAt, Understood, given_names};

use crate::decision::Decision;
use crate::messages;
use mc_base::{Memory, Row, Text};
use mc_command_line::{Bounds, Command, query_text, read_words};
use mc_compile::{CompileFault, Executable, Given, Query, compile};
use mc_outside::{FileAnswer, Files};
use std::alloc::{AllocError, Global};

fn absent_line(alloc: Global, file: &str) -> Result<Vec<u8>, AllocError>
    ensures { IfOk result (λ line. line.items ≡ absent_line file.now) }
{
    let mut line = messages::NO_FILE.to_vec(alloc)?;
    line.extend_from_slice(file.as_bytes())?;
    line.extend_from_slice(b"\n")?;
    Ok(line)
}

fn unreadable_line(alloc: Global, file: &str) -> Result<Vec<u8>, AllocError>
    ensures { IfOk result (λ line. line.items ≡ unreadable_line file.now) }
{
    let mut line = messages::CANNOT_READ.to_vec(alloc)?;
    line.extend_from_slice(file.as_bytes())?;
    line.extend_from_slice(b"\n")?;
    Ok(line)
}

/// What is decided of a file that isn't read.
fn stopped(alloc: Global, file: &str, answer: FileAnswer) -> Decision
    ensures { IsStopped file.now answer result }
{
    match answer {
        FileAnswer::Absent => match absent_line(alloc, file) {
            Ok(line) => Decision::Absent(line),
            Err(_) => Decision::Memory,
        },
        FileAnswer::Failed => match unreadable_line(alloc, file) {
            Ok(line) => Decision::Unreadable(line),
            Err(_) => Decision::Memory,
        },
        FileAnswer::Memory => Decision::Memory,
    }
}

/// Reads one file.
fn read_file<F: Files>(alloc: Global, name: &str, files: &mut F) -> Result<Given, Decision>
    ensures named { IfOk result (λ given. given.name ≡ name.now) }
    ensures read { IfOk result (λ given. IsHeld (F.held files.old) name.now given.bytes) }
    ensures stopped { IfErr result (StopsAt (F.held files.old) name.now) }
    ensures held { F.held files.new ≡ F.held files.old }
    ensures counted { IfOk result
        (λ _.
        (F.faults files.new ≡ F.faults files.old)
        × (F.absents files.new ≡ F.absents files.old)) }
    ensures faults { IfErr result
        (λ decision. CountsFaults decision (F.faults files.old) (F.faults files.new)) }
    ensures absents { IfErr result
        (λ decision. CountsAbsents decision (F.absents files.old) (F.absents files.new)) }
{
    let bytes = match files.read(alloc, name) {
        Ok(bytes) => bytes,
        Err(answer) => return Err(stopped(alloc, name, answer)),
    };
    Ok(Given {
        name: Text::new(alloc, name.as_bytes())?,
        bytes: Text::of(alloc, bytes)?,
    })
}

/// Reads files, one after another. The first that is absent or can't be read ends it.
fn read_files<F: Files>(
    alloc: Global,
    names: &[&str],
    files: &mut F,
) -> Result<Row<Given>, Decision>
    requires { length names.now ≤ 64 }
    ensures named { IfOk result (λ sources. given_names sources ≡ plain_texts names.now) }
    ensures read { IfOk result
        (λ sources. HoldTexts (F.held files.old) (plain_texts names.now) (texts_of sources)) }
    ensures stopped { IfErr result (Stops (F.held files.old) (plain_texts names.now)) }
    ensures held { F.held files.new ≡ F.held files.old }
    ensures counted { IfOk result
        (λ _.
        (F.faults files.new ≡ F.faults files.old)
        × (F.absents files.new ≡ F.absents files.old)) }
    ensures faults { IfErr result
        (λ decision. CountsFaults decision (F.faults files.old) (F.faults files.new)) }
    ensures absents { IfErr result
        (λ decision. CountsAbsents decision (F.absents files.old) (F.absents files.new)) }
{
    let mut sources = Row::new(alloc);
    for name in names {
        let source = read_file(alloc, name, files)?;
        sources.push(source)?;
    }
    Ok(sources)
}

fn files_of<'c, 'a>(command: &'c Command<'a>) -> &'c [&'a str]
    ensures { plain_texts result.now ≡ files_of (plain_command command.now) }
{
    match command {
        Command::Check(files) | Command::Run(_, files) | Command::Query { files, .. } => {
            files.as_slice()
        }
    }
}

/// The query of a command, where it has one.
fn query_of(alloc: Global, command: &Command<'_>) -> Result<Option<Query>, Memory>
    ensures text { IfOk result (λ query. text_of query ≡ query_of (plain_command command.now)) }
    ensures first { IfOk result
        (λ query. is_first_wanted query ≡ is_first (plain_command command.now)) }
{
    let Command::Query { first, goal, .. } = command else {
        return Ok(None);
    };
    let text = query_text(alloc, goal)?;
    Ok(Some(Query {
        text: Text::new(alloc, text.as_slice())?,
        first: *first,
    }))
}

/// Whether a command runs `main`.
fn is_run(command: &Command<'_>) -> bool
    ensures { result ≡ is_run (plain_command command.now) }
{
    matches!(command, Command::Run(..))
}

/// The bounds of a command's run; without one they are nothing.
fn bounds_of(command: &Command<'_>) -> Bounds
    ensures { plain_bounds result ≡ bounds_of (plain_command command.now) }
{
    match command {
        Command::Check(_) => Bounds {
            budget: 0,
            depth: 0,
        },
        Command::Run(bounds, _) => *bounds,
        Command::Query { bounds, .. } => *bounds,
    }
}

/// What is decided of a command whose sources compile.
fn asked(command: &Command<'_>, executable: Executable) -> Decision
    ensures { IsAnswered (plain_command command.now) executable result }
{
    let Executable { procs, goal } = executable;
    match goal {
        Some(goal) => Decision::Ran(bounds_of(command), procs, goal),
        None => Decision::Checked,
    }
}

/// Compiles the files of a command, and decides by that.
fn compiled(alloc: Global, command: &Command<'_>, sources: Row<Given>) -> Decision
    requires { given_names sources ≡ files_of (plain_command command.now) }
    ensures { Understood (plain_command command.now) (texts_of sources) result }
{
    let query = match query_of(alloc, command) {
        Ok(query) => query,
        Err(Memory) => return Decision::Memory,
    };
    match compile(alloc, &sources, query.as_ref(), is_run(command)) {
        Ok(executable) => asked(command, executable),
        Err(CompileFault::Rejected(broken)) => Decision::Rejected(sources, broken),
        Err(CompileFault::Memory) => Decision::Memory,
    }
}

/// Reads the words and the files, and decides what is to be answered. Only here are files read.
pub fn decide<F: Files>(alloc: Global, words: &Vec<String>, files: &mut F) -> Decision
    ensures decided { IsDecided (map string_bytes words.now.items) (F.held files.old) result }
    ensures held { F.held files.new ≡ F.held files.old }
    ensures faults { CountsFaults result (F.faults files.old) (F.faults files.new) }
    ensures absents { CountsAbsents result (F.absents files.old) (F.absents files.new) }
{
    let command = match read_words(alloc, words) {
        Ok(Some(command)) => command,
        Ok(None) => return Decision::Usage,
        Err(Memory) => return Decision::Memory,
    };
    match read_files(alloc, files_of(&command), files) {
        Ok(sources) => compiled(alloc, &command, sources),
        Err(decision) => decision,
    }
}
