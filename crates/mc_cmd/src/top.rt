ghost use Rattle.std.specs.Prelude.{◌≡◌, ◌≢◌, ◌⊎◌, ◌<◌, ℕ, List, [], map, string_bytes, Option, Some, None, Ok, IfOk};
ghost use Rattle.mc_outside.specs.Counts.{Rose};
ghost use Rattle.mc_outside.specs.Meaning.{Held, PutsFront};
ghost use Rattle.mc_model.specs.EventList.{budget, too_deep};
ghost use Rattle.mc_command_line.specs.Words.{Meaning, meaning};
ghost use Rattle.mc_compile.specs.Sources.{Sources};
ghost use Rattle.mc_compile.specs.Compiling.{Compiles};
ghost use Rattle.mc_compile.specs.Ruling.{PlainExecutable};
ghost use Rattle.laws_truth.specs.ProgramTruth.{IsTrueExecutable};
ghost use Rattle.mc_cmd.specs.Ends.{Outcome};
ghost use Rattle.mc_cmd.specs.Outcome.{Defined, files_of};
ghost use Rattle.mc_cmd.specs.Call.{AnswersWhole, BreaksRules, IsThrown, NoneRose, OfFiles, OfSources, PutsDefined, RunsToEnd, SaidAbsent, SaidUnreadable, SaysUnreadable, StopsBy, Told, Wrote};
ghost use Rattle.mc_cmd.specs.code.Decisions.{CountPuts, EndsRun, Happened, Quiet, Writes, ended, told_of};

use crate::decide::decide;
use crate::decision::Decision;
use crate::law::at_most_one_answer;
use crate::messages;
use crate::procs_run::write_goal;
use crate::status::Status;
use crate::write::{put_line, put_rules};
use laws_truth::program_laws::executables_are_true;
use mc_outside::{Files, PutFault, Sink, Source};
use std::alloc::Global;

/// The command: reads the words and then the files that they name, one after another, and compiles them. Writes the
/// answers of a query on `out`, one line each, or what `main` writes, or on `err` the line of each broken rule, or one
/// line that says why nothing is answered, and answers how it ended.
///
/// The first put that fails ends the call with `WriteFault`, and nothing more is put. `Memory` ends the call at once. (Of
/// puts behind a failed one the clauses say only that all is a front part.)
pub fn merc<F: Files, I: Source, O: Sink, E: Sink>(
    alloc: Global,
    words: &Vec<String>,
    files: &mut F,
    input: &mut I,
    out: &mut O,
    err: &mut E,
) -> Status
    // Where the store tells what it holds and the sinks what was written, no count of faults rose and the status
    // isn't `Memory`, the bytes on `out`, those on `err` and the status are the defined ones.
    ensures whole_answer { (held : Held) (before_out before_err : List ℕ)
        → Told (F.held files.old) held (O.written out.old) before_out (E.written err.old) before_err
        → NoneRose (F.faults files.old) (F.faults files.new) (O.faults out.old) (O.faults out.new)
        (E.faults err.old) (E.faults err.new)
        → result ≢ Status.Memory
        → AnswersWhole (map string_bytes words.now.items) held before_out before_err result
        (O.written out.new) (E.written err.new) }
    // Where a sink failed or the status is `Memory`, each sink was given a front part of the defined bytes, which are one
    // answer at most.
    ensures prefix { (held : Held) (before_out before_err : List ℕ)
        → Told (F.held files.old) held (O.written out.old) before_out (E.written err.old) before_err
        → (Rose (F.faults files.old) (F.faults files.new) → ⊥)
        → (o : Outcome) → Defined (map string_bytes words.now.items) held o
        → PutsFront (O.written out.old) (O.written out.new) o.out
        × PutsFront (E.written err.old) (E.written err.new) o.err }
    // There is such an answer, and each sink was given a front part of it, also where a sink failed; at want of
    // memory it may be that nothing was put.
    ensures defined { (held : Held) (before_out before_err : List ℕ)
        → Told (F.held files.old) held (O.written out.old) before_out (E.written err.old) before_err
        → (Rose (F.faults files.old) (F.faults files.new) → ⊥)
        → PutsDefined (map string_bytes words.now.items) held (O.written out.old)
        (O.written out.new) (E.written err.old) (E.written err.new)
        ⊎ ((result ≡ Status.Memory)
        × (Wrote (O.written out.old) (O.written out.new) []
        × Wrote (E.written err.old) (E.written err.new) [])) }
    // Where a file could not be read, nothing was put on `out`, and on `err` a front part of the line of one of the
    // files.
    ensures unreadable { (m : Meaning) → meaning (map string_bytes words.now.items) ≡ Some m
        → F.faults files.old < F.faults files.new
        → Wrote (O.written out.old) (O.written out.new) []
        × SaysUnreadable (F.held files.old) (E.written err.old) (E.written err.new) (files_of m) }
    // What any sources are compiled to runs true: no unbound variable is read, each answer binds what its modes declare
    // and is true in the completion, success counts obey determinism, where a run ends that isn't committed to one answer
    // each assignment that isn't answered is false, and what `main` has written at its end is what its last state has gained.
    ensures truth { (s : Sources) (e : PlainExecutable) → Compiles s (Ok e) → IsTrueExecutable e }
    // Done comes only where the sources compile, and the run of the query, or of `main`, where one is run, ends.
    ensures done { result ≡ Status.Done
        → OfSources (map string_bytes words.now.items) (F.held files.old) RunsToEnd }
    // Usage comes only where the words mean no command, and it comes there, or a fault does.
    ensures usage { result ≡ Status.Usage → meaning (map string_bytes words.now.items) ≡ None }
    ensures usage_told { meaning (map string_bytes words.now.items) ≡ None
        → (result ≡ Status.Usage) ⊎ ((result ≡ Status.WriteFault) ⊎ (result ≡ Status.Memory)) }
    // Rejected comes only where the sources break rules.
    ensures rejected { result ≡ Status.Rejected
        → OfSources (map string_bytes words.now.items) (F.held files.old) BreaksRules }
    // Absent comes only where a read found no file in this call; then the whole line of a file that isn't there was put,
    // and nothing else.
    ensures absent { result ≡ Status.Absent → Rose (F.absents files.old) (F.absents files.new) }
    ensures absent_told { result ≡ Status.Absent
        → OfFiles (map string_bytes words.now.items)
        (SaidAbsent (F.held files.old) (O.written out.old) (O.written out.new)
        (E.written err.old) (E.written err.new)) }
    // No answer that a file is absent is passed over.
    ensures absent_seen { F.absents files.old < F.absents files.new
        → (result ≡ Status.Absent) ⊎ ((result ≡ Status.WriteFault) ⊎ (result ≡ Status.Memory)) }
    // ReadFault comes only where a read failed in this call, and the whole line of one of the files was put, and
    // nothing else.
    ensures read { result ≡ Status.ReadFault → Rose (F.faults files.old) (F.faults files.new) }
    ensures read_told { result ≡ Status.ReadFault
        → OfFiles (map string_bytes words.now.items)
        (SaidUnreadable (F.held files.old) (O.written out.old) (O.written out.new)
        (E.written err.old) (E.written err.new)) }
    // No read that failed is passed over.
    ensures read_seen { F.faults files.old < F.faults files.new
        → (result ≡ Status.ReadFault) ⊎ ((result ≡ Status.WriteFault) ⊎ (result ≡ Status.Memory)) }
    // WriteFault comes exactly where a put failed in this call.
    ensures write { result ≡ Status.WriteFault
        → Rose (O.faults out.old) (O.faults out.new) ⊎ Rose (E.faults err.old) (E.faults err.new) }
    ensures write_seen { (O.faults out.old < O.faults out.new)
        ⊎ (E.faults err.old < E.faults err.new)
        → result ≡ Status.WriteFault }
    // Threw, Budget and TooDeep come only where the run of the query, or of `main`, stops so.
    ensures threw { result ≡ Status.Threw
        → OfSources (map string_bytes words.now.items) (F.held files.old) (StopsBy IsThrown) }
    ensures spent { result ≡ Status.Budget
        → OfSources (map string_bytes words.now.items) (F.held files.old)
        (StopsBy (λ halt. halt ≡ budget)) }
    ensures deep { result ≡ Status.TooDeep
        → OfSources (map string_bytes words.now.items) (F.held files.old)
        (StopsBy (λ halt. halt ≡ too_deep)) }
    // The files stay, and the input is not touched.
    ensures held { F.held files.new ≡ F.held files.old }
    ensures input { input.new ≡ input.old }
{
    executables_are_true();
    at_most_one_answer();
    let _ = input;
    carry_out(alloc, words, files, out, err)
}

fn carry_out<F: Files, O: Sink, E: Sink>(
    alloc: Global,
    words: &Vec<String>,
    files: &mut F,
    out: &mut O,
    err: &mut E,
) -> Status
    ensures happened { Happened (map string_bytes words.now.items) (F.held files.old)
        (F.faults files.old) (F.faults files.new) (F.absents files.old) (F.absents files.new)
        (record {
          before = O.written out.old;
          after = O.written out.new;
          faults_before = O.faults out.old;
          faults_after = O.faults out.new;
        })
        (record {
          before = E.written err.old;
          after = E.written err.new;
          faults_before = E.faults err.old;
          faults_after = E.faults err.new;
        })
        result }
    ensures held { F.held files.new ≡ F.held files.old }
{
    let decision = decide(alloc, words, files);
    ended(tell(alloc, decision, out, err))
}

/// Writes what is told of a decision, and answers the status.
fn tell<O: Sink, E: Sink>(
    alloc: Global,
    decision: Decision,
    out: &mut O,
    err: &mut E,
) -> Result<Status, PutFault>
    ensures output { Writes (O.written out.old) (O.written out.new) result (told_of decision).out }
    ensures errors { Writes (E.written err.old) (E.written err.new) result (told_of decision).err }
    ensures told { IfOk result (λ status. status ≡ (told_of decision).status) }
    ensures puts { CountPuts result (O.faults out.old) (O.faults out.new) (E.faults err.old)
        (E.faults err.new) }
    ensures quiet { Quiet decision result }
    ensures ends { EndsRun decision result }
{
    match decision {
        Decision::Usage => put_line(messages::USAGE, Status::Usage, err),
        Decision::Absent(line) => put_line(line.as_slice(), Status::Absent, err),
        Decision::Unreadable(line) => put_line(line.as_slice(), Status::ReadFault, err),
        Decision::Rejected(sources, broken) => put_rules(alloc, &sources, broken.as_slice(), err),
        Decision::Checked => Ok(Status::Done),
        Decision::Ran(bounds, procs, goal) => write_goal(alloc, bounds, &procs, &goal, out, err),
        Decision::Memory => Err(PutFault::Memory),
    }
}

/// The status after a writing: the one that was to be answered where all was written.
fn ended(written: Result<Status, PutFault>) -> Status
    ensures { result ≡ ended written }
{
    match written {
        Ok(status) => status,
        Err(PutFault::Failed) => Status::WriteFault,
        Err(PutFault::Memory) => Status::Memory,
    }
}
