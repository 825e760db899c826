ghost use Rattle.std.specs.Prelude.{◌≡◌, ℕ, ◌≤◌, ◌<◌, ◌^◌, List, [], Some, drop, take, min, length, vec_len, Contains, IfOk, IsErrOf, IsErr, IsTrue, ◌↔◌};
ghost use Rattle.mc_outside.specs.Counts.{ReadFaults, ReadAbsents, TakeFaults, PutFaults};
ghost use Rattle.mc_outside.specs.Meaning.{Reads, Takes, Puts};
ghost use Rattle.mc_outside.specs.InMemory.{FailsNext, fresh, FilesRead, SourceTakes, SinkPuts};

use crate::calls::Calls;
use crate::named::{find, front, lack};
use crate::traits::{Failed, FileAnswer, Files, PutFault, READ_LIMIT, Sink, Source};
use std::alloc::Global;
use std::marker::Model;

/// Files in memory. The calls whose numbers are listed fail.
#[derive(Drop)]
pub struct MemFiles {
    files: Vec<(String, Vec<u8>)>,
    calls: Calls,
    absents: u64,
}

impl Model for MemFiles {
    ghost use Rattle.std.specs.Prelude.{◌<◌, ◌^◌};
    ghost use Rattle.mc_outside.specs.InMemory.{FilesState, files_code};
    ghost use Rattle.mc_outside.specs.Named.{by_name};

    ghost Value = { FilesState };

    ghost coded = { files_code };

    ghost view = { λ m. record { held = by_name m.files.items; calls = m.calls; absents = m.absents } };

    ghost invariant = { λ m. m.absents < 2 ^ 64 };
}

impl MemFiles {
    ghost use Rattle.mc_outside.specs.Named.{by_name, HaveDistinctNames};

    /// These files, each with its name. Of the calls that are to come, those whose numbers `fail` lists, counted
    /// from 1, will fail.
    pub fn new(files: Vec<(String, Vec<u8>)>, fail: Vec<u64>) -> MemFiles
        requires { HaveDistinctNames files.items }
        ensures { result ≡ record { held = by_name files.items; calls = fresh fail.items; absents = 0 } }
    {
        MemFiles {
            files,
            calls: Calls::new(fail),
            absents: 0,
        }
    }

    /// Whether no two of the files have one name.
    pub fn are_distinct(files: &[(String, Vec<u8>)]) -> bool
        ensures { IsTrue result ↔ HaveDistinctNames files.now }
    {
        for (at, file) in files.iter().enumerate() {
            if !lack(&files[at + 1..], file.0.as_str()) {
                return false;
            }
        }
        true
    }
}

impl Files for MemFiles {
    ghost held = { λ m. Some m.held };

    ghost faults = { λ m. m.calls.faults };

    ghost absents = { λ m. m.absents };

    fn read(&mut self, alloc: Global, name: &str) -> Result<Vec<u8>, FileAnswer>
        ensures held { self.new.held ≡ self.old.held }
        ensures bytes { Reads (Some self.old.held) name.now result }
        ensures bound { IfOk result (λ bytes. vec_len bytes ≤ READ_LIMIT) }
        ensures faults_later { self.old.calls.faults ≤ self.new.calls.faults }
        ensures faults_fit { self.new.calls.faults < 2 ^ 64 }
        ensures faults { ReadFaults result self.old.calls.faults self.new.calls.faults }
        ensures absents_later { self.old.absents ≤ self.new.absents }
        ensures absents_fit { self.new.absents < 2 ^ 64 }
        ensures absents { ReadAbsents result self.old.absents self.new.absents }

        // Beyond the trait.
        ensures state { FilesRead self.old self.new result }
        ensures failing { IsErrOf result FileAnswer.Failed ↔ FailsNext self.old.calls }
        ensures never { self.old.calls.fail ≡ [] → self.new.calls.faults ≡ self.old.calls.faults }
    {
        if self.calls.next_fails() {
            return Err(FileAnswer::Failed);
        }
        match find(self.files.as_slice(), name) {
            None => {
                self.absents = self.absents.saturating_add(1);
                Err(FileAnswer::Absent)
            }
            Some(bytes) => Vec::from_slice(alloc, front(bytes.as_slice(), READ_LIMIT)).map_err(
                |_| FileAnswer::Memory,
            ),
        }
    }
}

/// A source in memory. The calls whose numbers are listed fail.
#[derive(Drop)]
pub struct MemSource {
    bytes: Vec<u8>,
    taken: usize,
    calls: Calls,
}

impl Model for MemSource {
    ghost use Rattle.std.specs.Prelude.{◌≤◌, drop, length};
    ghost use Rattle.mc_outside.specs.InMemory.{SourceState};

    ghost Value = { SourceState };

    ghost view = { λ s. record { left = drop s.taken s.bytes.items; calls = s.calls } };

    ghost invariant = { λ s. s.taken ≤ length s.bytes.items };
}

impl MemSource {
    /// A source of these bytes. Of the calls that are to come, those whose numbers `fail` lists, counted from 1,
    /// will fail.
    pub fn new(bytes: Vec<u8>, fail: Vec<u64>) -> MemSource
        ensures { result ≡ record { left = bytes.items; calls = fresh fail.items } }
    {
        MemSource {
            bytes,
            taken: 0,
            calls: Calls::new(fail),
        }
    }
}

impl Source for MemSource {
    ghost left = { λ s. Some s.left };

    ghost faults = { λ s. s.calls.faults };

    fn take(&mut self, buf: &mut [u8]) -> Result<usize, Failed>
        requires { 0 < length buf.old }
        ensures bound { IfOk result (λ count. count ≤ length buf.new) }
        ensures bytes { Takes (Some self.old.left) (Some self.new.left) result buf.new }
        ensures faults_later { self.old.calls.faults ≤ self.new.calls.faults }
        ensures faults_fit { self.new.calls.faults < 2 ^ 64 }
        ensures faults { TakeFaults result self.old.calls.faults self.new.calls.faults }

        // Beyond the trait.
        ensures whole { IfOk result (λ count. count ≡ min (length self.old.left) (length buf.old)) }
        ensures state { SourceTakes self.old self.new result }
        ensures failing { IsErr result ↔ FailsNext self.old.calls }
        ensures never { self.old.calls.fail ≡ [] → self.new.calls.faults ≡ self.old.calls.faults }
    {
        if self.calls.next_fails() {
            return Err(Failed);
        }
        let left = &self.bytes.as_slice()[self.taken..];
        let count = left.len().min(buf.len());
        buf[..count].copy_from_slice(&left[..count]);
        self.taken += count;
        Ok(count)
    }
}

/// A sink in memory. The calls whose numbers are listed fail.
#[derive(Drop)]
pub struct MemSink {
    bytes: Vec<u8>,
    calls: Calls,
}

impl Model for MemSink {
    ghost use Rattle.mc_outside.specs.InMemory.{SinkState};

    ghost Value = { SinkState };

    ghost view = { λ s. record { written = s.bytes.items; calls = s.calls } };
}

impl MemSink {
    /// A sink to which nothing is put yet. Of the calls that are to come, those whose numbers `fail` lists, counted
    /// from 1, will fail.
    pub fn new(alloc: Global, fail: Vec<u64>) -> MemSink
        ensures { result ≡ record { written = []; calls = fresh fail.items } }
    {
        MemSink {
            bytes: Vec::new(alloc),
            calls: Calls::new(fail),
        }
    }

    /// The bytes put so far.
    pub fn bytes(&self) -> &[u8]
        ensures { result.now ≡ self.now.written }
    {
        self.bytes.as_slice()
    }
}

impl Sink for MemSink {
    ghost written = { λ s. Some s.written };

    ghost faults = { λ s. s.calls.faults };

    fn put(&mut self, piece: &[u8]) -> Result<(), PutFault>
        ensures bytes { Puts (Some self.old.written) (Some self.new.written) result piece.now }
        ensures faults_later { self.old.calls.faults ≤ self.new.calls.faults }
        ensures faults_fit { self.new.calls.faults < 2 ^ 64 }
        ensures faults { PutFaults result self.old.calls.faults self.new.calls.faults }

        // Beyond the trait.
        ensures state { SinkPuts self.old self.new result piece.now }
        ensures failing { IsErrOf result PutFault.Failed ↔ FailsNext self.old.calls }
        ensures never { self.old.calls.fail ≡ [] → self.new.calls.faults ≡ self.old.calls.faults }
    {
        if self.calls.next_fails() {
            return Err(PutFault::Failed);
        }
        if self.bytes.extend_from_slice(piece).is_err() {
            return Err(PutFault::Memory);
        }
        Ok(())
    }
}
