ghost use Rattle.std.specs.Prelude.{◌≡◌, ℕ, ◌<◌, ◌≤◌, ◌^◌, List, length, vec_len, Option, IfOk};
ghost use Rattle.mc_outside.specs.Counts.{ReadFaults, ReadAbsents, TakeFaults, PutFaults};
ghost use Rattle.mc_outside.specs.Meaning.{Held, Reads, Takes, Puts};

use std::alloc::Global;
use thiserror::Error;

/// The most bytes of a file that are read, in bytes: one more than 4 MiB, so that a file of more than 4 MiB is
/// told from one of 4 MiB.
pub const READ_LIMIT: usize = 4_194_305;

/// A source failed.
#[derive(Clone, Copy, Debug, PartialEq, Eq, Error)]
#[error("failed")]
pub struct Failed;

/// Why a file was not read.
#[derive(Clone, Copy, Debug, PartialEq, Eq, Error)]
pub enum FileAnswer {
    /// There is no file of this name.
    #[error("absent")]
    Absent,
    /// The file could not be read.
    #[error("failed")]
    Failed,
    /// There was no room for its bytes.
    #[error("out of memory")]
    Memory,
}

/// Why a piece was not put whole.
#[derive(Clone, Copy, Debug, PartialEq, Eq, Error)]
pub enum PutFault {
    /// The sink failed; some bytes at the piece's front may have been put.
    #[error("failed")]
    Failed,
    /// There was no room; nothing was put.
    #[error("out of memory")]
    Memory,
}

/// Files by name.
pub trait Files {
    /// The bytes of each file by its name, where they are told.
    ghost held: { Self → Option Held };

    /// How many reads failed so far, up to 2^64 - 1.
    ghost faults: { Self → ℕ };

    /// How many reads found no file so far, up to 2^64 - 1.
    ghost absents: { Self → ℕ };

    /// The first `READ_LIMIT` bytes of the file of this name, or all of them where it is shorter.
    fn read(&mut self, alloc: Global, name: &str) -> Result<Vec<u8>, FileAnswer>
        ensures held { held self.new ≡ held self.old }
        ensures bytes { Reads (held self.old) name.now result }
        ensures bound { IfOk result (λ bytes. vec_len bytes ≤ READ_LIMIT) }
        ensures faults_later { faults self.old ≤ faults self.new }
        ensures faults_fit { faults self.new < 2 ^ 64 }
        ensures faults { ReadFaults result (faults self.old) (faults self.new) }
        ensures absents_later { absents self.old ≤ absents self.new }
        ensures absents_fit { absents self.new < 2 ^ 64 }
        ensures absents { ReadAbsents result (absents self.old) (absents self.new) };
}

/// Bytes that come one after another.
pub trait Source {
    /// The bytes not yet taken, where they are told.
    ghost left: { Self → Option (List ℕ) };

    /// How many calls failed so far, up to 2^64 - 1.
    ghost faults: { Self → ℕ };

    /// Takes bytes to the buffer's front and answers their number, which is 0 only at the end.
    fn take(&mut self, buf: &mut [u8]) -> Result<usize, Failed>
        requires { 0 < length buf.old }
        ensures bound { IfOk result (λ count. count ≤ length buf.new) }
        ensures bytes { Takes (left self.old) (left self.new) result buf.new }
        ensures faults_later { faults self.old ≤ faults self.new }
        ensures faults_fit { faults self.new < 2 ^ 64 }
        ensures faults { TakeFaults result (faults self.old) (faults self.new) };
}

/// Where bytes are put, piece by piece.
pub trait Sink {
    /// The bytes put so far, where they are told.
    ghost written: { Self → Option (List ℕ) };

    /// How many calls failed so far, up to 2^64 - 1.
    ghost faults: { Self → ℕ };

    /// Puts the whole piece at the end. A sink that takes nothing of a piece that isn't empty has failed.
    fn put(&mut self, piece: &[u8]) -> Result<(), PutFault>
        ensures bytes { Puts (written self.old) (written self.new) result piece.now }
        ensures faults_later { faults self.old ≤ faults self.new }
        ensures faults_fit { faults self.new < 2 ^ 64 }
        ensures faults { PutFaults result (faults self.old) (faults self.new) };
}
