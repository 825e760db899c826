//! The program's edge: files, a source and a sink of the system. They tell no meaning, so that nothing is claimed
//! of which bytes come in or go out; what they promise of their counts is proved.
ghost use Rattle.std.specs.Prelude.{◌≡◌, None, ◌≤◌, ◌<◌, ◌^◌, length, take, vec_len, IfOk};
ghost use Rattle.std.specs.Bool.{OnTrue};
ghost use Rattle.std.specs.Io.KnownBytes.{Appends, Consumes, IsAtEnd};
ghost use Rattle.mc_outside.specs.Counts.{Rose};

use mc_outside::{Failed, FileAnswer, Files, PutFault, READ_LIMIT, Sink, Source};
use std::alloc::Global;
use std::io::{ErrorKind, Read, Write};
use std::{fs, io, rt};

/// How often more than is needed at most a system call is tried in one call, since a signal may interrupt it. What
/// is interrupted more often has failed.
const RETRIES: usize = 64;

/// A count that stops at 2^64 - 1.
#[derive(Drop)]
struct Count {
    number: u64,
    ghost fits: { number < 2 ^ 64 },
}

impl Count {
    fn new() -> Count {
        Count { number: 0 }
    }

    fn raise(&mut self)
        ensures later { self.old.number ≤ self.new.number }
        ensures rose { Rose self.old.number self.new.number }
    {
        self.number = self.number.saturating_add(1);
    }
}

/// The files of the system.
#[derive(Drop)]
pub struct RealFiles<R> {
    system: R,
    faults: Count,
    absents: Count,
}

impl<R> RealFiles<R> {
    /// The files of this system, before any call.
    pub fn new(system: R) -> RealFiles<R> {
        RealFiles {
            system,
            faults: Count::new(),
            absents: Count::new(),
        }
    }
}

impl<R: rt::Files> Files for RealFiles<R> {
    ghost held = { λ _. None };

    ghost faults = { λ f. f.faults.number };

    ghost absents = { λ f. f.absents.number };

    fn read(&mut self, alloc: Global, name: &str) -> Result<Vec<u8>, FileAnswer> {
        let answer = read_front(&self.system, alloc, name);
        match &answer {
            Ok(_) | Err(FileAnswer::Memory) => {}
            Err(FileAnswer::Absent) => self.absents.raise(),
            Err(FileAnswer::Failed) => self.faults.raise(),
        }
        answer
    }
}

/// The first `READ_LIMIT` bytes of a file of the system.
fn read_front<R: rt::Files>(system: &R, alloc: Global, name: &str) -> Result<Vec<u8>, FileAnswer>
    ensures { IfOk result (λ bytes. vec_len bytes ≤ READ_LIMIT) }
{
    let mut file = fs::open(system, name).map_err(|error| answer_of(&error))?;
    read_to_limit(&mut file, alloc)
}

/// The next `READ_LIMIT` bytes of a reader, or all where they are fewer. No error is passed over: a reader that fails
/// before its end gives none.
fn read_to_limit<R: Read>(reader: &mut R, alloc: Global) -> Result<Vec<u8>, FileAnswer>
    ensures limit { IfOk result (λ bytes. vec_len bytes ≤ READ_LIMIT) }
    ensures bytes { IfOk result
        (λ bytes. Consumes (R.remaining reader.old) (R.remaining reader.new) bytes.items) }
    ensures whole { IfOk result (λ bytes. vec_len bytes < READ_LIMIT → IsAtEnd (R.remaining reader.new)) }
{
    let mut bytes = Vec::new(alloc);
    let mut piece = [0; 8192];
    for _ in 0..READ_LIMIT + RETRIES {
        let room = piece.len().min(READ_LIMIT - bytes.len());
        if room == 0 {
            return Ok(bytes);
        }
        match reader.read(&mut piece[..room]) {
            Ok(0) => return Ok(bytes),
            Ok(count) => {
                if bytes.extend_from_slice(&piece[..count]).is_err() {
                    return Err(FileAnswer::Memory);
                }
            }
            Err(error) => {
                if error.kind() != ErrorKind::Interrupted {
                    return Err(answer_of(&error));
                }
            }
        }
    }
    Err(FileAnswer::Failed)
}

/// What an error of the system is to the reader of a file.
fn answer_of(error: &io::Error) -> FileAnswer {
    match error.kind() {
        ErrorKind::NotFound => FileAnswer::Absent,
        ErrorKind::OutOfMemory => FileAnswer::Memory,
        _ => FileAnswer::Failed,
    }
}

/// A source over a reader of the system.
#[derive(Drop)]
pub struct RealSource<R> {
    reader: R,
    faults: Count,
}

impl<R> RealSource<R> {
    /// A source over this reader, before any call.
    pub fn new(reader: R) -> RealSource<R> {
        RealSource {
            reader,
            faults: Count::new(),
        }
    }
}

impl<R: Read> Source for RealSource<R> {
    ghost left = { λ _. None };

    ghost faults = { λ s. s.faults.number };

    fn take(&mut self, buf: &mut [u8]) -> Result<usize, Failed> {
        let answer = read_some(&mut self.reader, buf);
        if answer.is_err() {
            self.faults.raise();
        }
        answer
    }
}

/// Reads once, and again where a signal interrupted it: the next bytes of the reader, none only at its end.
fn read_some<R: Read>(reader: &mut R, buf: &mut [u8]) -> Result<usize, Failed>
    ensures room { IfOk result (λ count. count ≤ length buf.new) }
    ensures bytes { IfOk result
        (λ count. Consumes (R.remaining reader.old) (R.remaining reader.new) (take count buf.new)) }
    ensures end { IfOk result (λ count. count ≡ 0 → 0 < length buf.new → IsAtEnd (R.remaining reader.new)) }
{
    for _ in 0..RETRIES {
        match reader.read(buf) {
            Ok(count) => return Ok(count),
            Err(error) => {
                if error.kind() != ErrorKind::Interrupted {
                    return Err(Failed);
                }
            }
        }
    }
    Err(Failed)
}

/// A sink over a writer of the system, which is flushed at each put, so that a full disk is seen at that put.
#[derive(Drop)]
pub struct RealSink<W> {
    writer: W,
    faults: Count,
}

impl<W> RealSink<W> {
    /// A sink over this writer, before any call.
    pub fn new(writer: W) -> RealSink<W> {
        RealSink {
            writer,
            faults: Count::new(),
        }
    }
}

impl<W: Write> Sink for RealSink<W> {
    ghost written = { λ _. None };

    ghost faults = { λ s. s.faults.number };

    fn put(&mut self, piece: &[u8]) -> Result<(), PutFault> {
        if write_whole(&mut self.writer, piece) {
            return Ok(());
        }
        self.faults.raise();
        Err(PutFault::Failed)
    }
}

/// Writes and flushes the whole piece, and answers whether that was done.
fn write_whole<W: Write>(writer: &mut W, piece: &[u8]) -> bool
    ensures { OnTrue result (Appends (W.contents writer.old) (W.contents writer.new) piece.now) }
{
    let mut done = 0;
    for _ in 0..piece.len().saturating_add(RETRIES) {
        if done == piece.len() {
            break;
        }
        match writer.write(&piece[done..]) {
            Ok(0) => return false,
            Ok(count) => done += count,
            Err(error) => {
                if error.kind() != ErrorKind::Interrupted {
                    return false;
                }
            }
        }
    }
    done == piece.len() && writer.flush().is_ok()
}

#[cfg(test)]
mod tests {
    use super::*;
    use std::test::Fail;

    /// Takes one byte at a time, is interrupted before each, and takes nothing once it is full.
    #[derive(Drop)]
    struct Slow {
        taken: Vec<u8>,
        room: usize,
        is_interrupted: bool,
    }

    impl Write for Slow {
        fn write(&mut self, buf: &[u8]) -> io::Result<usize> {
            self.is_interrupted = !self.is_interrupted;
            if self.is_interrupted {
                return Err(io::Error::from(ErrorKind::Interrupted));
            }
            if self.taken.len() >= self.room || buf.is_empty() {
                return Ok(0);
            }
            self.taken.push(buf[0])?;
            Ok(1)
        }

        fn flush(&mut self) -> io::Result<()> {
            Ok(())
        }
    }

    /// Fails at each call in one way.
    #[derive(Drop)]
    struct Refusing {
        kind: ErrorKind,
        tries: usize,
    }

    impl Read for Refusing {
        fn read(&mut self, _buf: &mut [u8]) -> io::Result<usize> {
            self.tries = self.tries.saturating_add(1);
            Err(io::Error::from(self.kind))
        }
    }

    /// Gives two bytes, and fails at the next call.
    #[derive(Drop)]
    struct Breaking {
        given: usize,
    }

    impl Read for Breaking {
        fn read(&mut self, buf: &mut [u8]) -> io::Result<usize> {
            if self.given >= 2 || buf.is_empty() {
                return Err(io::Error::from(ErrorKind::Other));
            }
            self.given += 1;
            buf[0] = b'a';
            Ok(1)
        }
    }

    impl Write for Refusing {
        fn write(&mut self, buf: &[u8]) -> io::Result<usize> {
            Ok(buf.len())
        }

        fn flush(&mut self) -> io::Result<()> {
            Err(io::Error::from(self.kind))
        }
    }

    #[test]
    fn files_of_the_system_are_read(rt: HostRuntime) -> Result<(), Fail> {
        let alloc = rt.alloc();
        let name = "files_of_the_system_are_read.tmp";
        fs::write(&rt, name, ":- module a.\n")?;
        let mut files = RealFiles::new(rt);
        assert_eq!(rt;
            files.read(alloc, name)?.as_slice(),
            b":- module a.\n".as_slice()
        );
        fs::remove_file(&rt, name)?;
        assert_eq!(rt; files.read(alloc, name).err(), Some(FileAnswer::Absent));
        assert_eq!(rt; files.absents.number, 1);
        assert_eq!(rt; files.faults.number, 0);
        assert_eq!(rt; files.read(alloc, ".").err(), Some(FileAnswer::Failed));
        assert_eq!(rt; files.read(alloc, "a\0b").err(), Some(FileAnswer::Failed));
        assert_eq!(rt; files.absents.number, 1);
        assert_eq!(rt; files.faults.number, 2);
        assert_eq!(rt; files.read(alloc, "/dev/zero")?.len(), 4_194_305);
        Ok(())
    }

    #[test]
    fn a_file_that_breaks_off_is_not_read(rt: HostRuntime) -> Result<(), Fail> {
        let alloc = rt.alloc();
        let mut reader = Breaking { given: 0 };
        assert_eq!(rt;
            read_to_limit(&mut reader, alloc).err(),
            Some(FileAnswer::Failed)
        );
        assert_eq!(rt; reader.given, 2);
        let mut reader = b"abc".as_slice();
        assert_eq!(rt;
            read_to_limit(&mut reader, alloc)?.as_slice(),
            b"abc".as_slice()
        );
        Ok(())
    }

    #[test]
    fn a_source_of_the_system_is_taken(rt: HostRuntime) {
        let mut buf = [0; 2];
        let mut source = RealSource::new(b"abc".as_slice());
        assert_eq!(rt; source.take(&mut buf), Ok(2));
        assert_eq!(rt; buf, [b'a', b'b']);
        assert_eq!(rt; source.take(&mut buf), Ok(1));
        assert_eq!(rt; source.take(&mut buf), Ok(0));
        assert_eq!(rt; source.faults.number, 0);
        for (kind, tries) in [(ErrorKind::Other, 1), (ErrorKind::Interrupted, RETRIES)] {
            let mut source = RealSource::new(Refusing { kind, tries: 0 });
            assert_eq!(rt; source.take(&mut buf), Err(Failed));
            assert_eq!(rt; source.reader.tries, tries);
            assert_eq!(rt; source.faults.number, 1);
        }
    }

    #[test]
    fn a_sink_of_the_system_is_put_to(rt: HostRuntime) {
        let mut sink = RealSink::new(Slow {
            taken: Vec::new(rt.alloc()),
            room: 5,
            is_interrupted: false,
        });
        assert_eq!(rt; sink.put(b"abc"), Ok(()));
        assert_eq!(rt; sink.put(b""), Ok(()));
        assert_eq!(rt; sink.put(b"defg"), Err(PutFault::Failed));
        assert_eq!(rt; sink.writer.taken.as_slice(), b"abcde".as_slice());
        assert_eq!(rt; sink.faults.number, 1);
        let mut sink = RealSink::new(Refusing {
            kind: ErrorKind::StorageFull,
            tries: 0,
        });
        assert_eq!(rt; sink.put(b"abc"), Err(PutFault::Failed));
    }
}
