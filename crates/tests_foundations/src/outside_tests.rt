ghost use Rattle.std.specs.Prelude.{◌≡◌, ◌<◌, ◌⊎◌, ◌++◌, ◌∷◌, ◌≢◌, [], Ok, IsOkUnless, Some, None, IfSome, IfOk, IsErr, IsErrOf, OnOk, slice_get};
ghost use Rattle.std.specs.FinMap as finmap;
ghost use Rattle.mc_outside.specs.Counts.{Rose};
ghost use Rattle.mc_outside.specs.InMemory.{fresh};
ghost use Rattle.mc_outside.specs.Meaning.{PutsFront};

use mc_outside::{
    Failed, FileAnswer, Files, MemFiles, MemSink, MemSource, PutFault, READ_LIMIT, Sink, Source,
};
use std::alloc::{AllocError, Global};
use std::test::Fail;

/// How a call that uses the outside ended.
#[derive(Clone, Copy, Debug, PartialEq, Eq)]
enum Status {
    Done,
    ReadFault,
    WriteFault,
    Memory,
    Absent,
}

/// Puts the first part of a file into a sink, with a line end: what a caller knows of files and sinks that it
/// doesn't know.
fn show<F: Files, K: Sink>(alloc: Global, files: &mut F, name: &str, out: &mut K) -> Status
    ensures read { result ≡ Status.ReadFault → Rose (F.faults files.old) (F.faults files.new) }
    ensures absent { result ≡ Status.Absent → Rose (F.absents files.old) (F.absents files.new) }
    ensures write { result ≡ Status.WriteFault → Rose (K.faults out.old) (K.faults out.new) }
    ensures read_seen { F.faults files.old < F.faults files.new → result ≡ Status.ReadFault }
    ensures write_seen { K.faults out.old < K.faults out.new → result ≡ Status.WriteFault }
    ensures held { IfSome (F.held files.old)
        (λ held.
        finmap.get held name.now ≡ None
        → (result ≡ Status.Absent) ⊎ (result ≡ Status.ReadFault) ⊎ (result ≡ Status.Memory)) }
    ensures untold { K.written out.old ≡ None → K.written out.new ≡ None }
{
    let bytes = match files.read(alloc, name) {
        Ok(bytes) => bytes,
        Err(FileAnswer::Absent) => return Status::Absent,
        Err(FileAnswer::Failed) => return Status::ReadFault,
        Err(FileAnswer::Memory) => return Status::Memory,
    };
    match out.put(bytes.as_slice()) {
        Ok(()) => {}
        Err(PutFault::Failed) => return Status::WriteFault,
        Err(PutFault::Memory) => return Status::Memory,
    }
    match out.put(b"\n") {
        Ok(()) => Status::Done,
        Err(PutFault::Failed) => Status::WriteFault,
        Err(PutFault::Memory) => Status::Memory,
    }
}

/// Puts two pieces in turn, up to the first that is refused.
fn put_both<K: Sink>(out: &mut K, first: &[u8], second: &[u8]) -> Result<(), PutFault>
    ensures ok { OnOk result
        (IfSome (K.written out.old)
        (λ before. K.written out.new ≡ Some (before ++ (first.now ++ second.now)))) }
    ensures part { PutsFront (K.written out.old) (K.written out.new) (first.now ++ second.now) }
    ensures failed { IsErrOf result PutFault.Failed → Rose (K.faults out.old) (K.faults out.new) }
    ensures seen { K.faults out.old < K.faults out.new → IsErrOf result PutFault.Failed }
{
    out.put(first)?;
    out.put(second)
}

/// Puts two pieces in turn into a sink in memory: what a caller knows of a sink that it has made.
fn put_in_memory(out: &mut MemSink, first: &[u8], second: &[u8]) -> Result<(), PutFault>
    requires { out.old.calls ≡ fresh (2 ∷ []) }
    ensures second_fails { result ≢ Ok tt }
    ensures first_stands { IsErrOf result PutFault.Failed → out.new.written ≡ out.old.written ++ first.now }
{
    out.put(first)?;
    out.put(second)
}

/// Puts two pieces in turn into a sink in memory of which no call fails.
fn put_without_faults(out: &mut MemSink, first: &[u8], second: &[u8]) -> Result<(), PutFault>
    requires { out.old.calls.fail ≡ [] }
    ensures no_fault { IsOkUnless result PutFault.Memory }
    ensures count { out.new.calls.faults ≡ out.old.calls.faults }
{
    out.put(first)?;
    out.put(second)
}

/// The next byte, where there is one.
fn next_byte<S: Source>(from: &mut S) -> Result<Option<u8>, Failed>
    ensures byte { IfSome (S.left from.old) (λ left. IfOk result (λ byte. byte ≡ slice_get left 0)) }
    ensures failed { IsErr result → Rose (S.faults from.old) (S.faults from.new) }
{
    let mut place = [0];
    match from.take(&mut place)? {
        0 => Ok(None),
        _ => Ok(Some(place[0])),
    }
}

/// Files of these names and bytes.
fn named(alloc: Global, held: &[(&str, &[u8])]) -> Result<Vec<(String, Vec<u8>)>, AllocError> {
    let mut files = Vec::new(alloc);
    for (name, bytes) in held {
        files.push((String::from_str(alloc, name)?, bytes.to_vec(alloc)?))?;
    }
    Ok(files)
}

#[test]
fn faults_of_files_show_as_texts(rt: HostRuntime) -> Result<(), Fail> {
    let alloc = rt.alloc();
    assert_eq!(rt; FileAnswer::Absent.to_string(alloc)?.as_str(), "absent");
    assert_eq!(rt; FileAnswer::Failed.to_string(alloc)?.as_str(), "failed");
    assert_eq!(rt;
        FileAnswer::Memory.to_string(alloc)?.as_str(),
        "out of memory"
    );
    Ok(())
}

#[test]
fn faults_of_streams_show_as_texts(rt: HostRuntime) -> Result<(), Fail> {
    let alloc = rt.alloc();
    assert_eq!(rt; Failed.to_string(alloc)?.as_str(), "failed");
    assert_eq!(rt; PutFault::Failed.to_string(alloc)?.as_str(), "failed");
    assert_eq!(rt;
        PutFault::Memory.to_string(alloc)?.as_str(),
        "out of memory"
    );
    Ok(())
}

#[test]
fn a_caller_shows_files(rt: HostRuntime) -> Result<(), Fail> {
    let alloc = rt.alloc();
    let named = named(alloc, &[("a.m", b"hello"), ("b.m", b"")])?;
    assert!(rt; MemFiles::are_distinct(named.as_slice()));
    let mut files = MemFiles::new(named, [4].to_vec(alloc)?);
    let mut out = MemSink::new(alloc, [6].to_vec(alloc)?);
    for (name, status) in [
        ("a.m", Status::Done),
        ("c.m", Status::Absent),
        ("b.m", Status::Done),
        ("a.m", Status::ReadFault),
        ("a.m", Status::WriteFault),
        ("b.m", Status::Done),
    ] {
        assert_eq!(rt;
            show(alloc, &mut files, name, &mut out),
            status,
            "at {name}"
        );
    }
    assert_eq!(rt; out.bytes(), b"hello\n\nhello\n".as_slice());
    Ok(())
}

#[test]
fn a_refused_put_leaves_what_was_put(rt: HostRuntime) -> Result<(), Fail> {
    let alloc = rt.alloc();
    let mut out = MemSink::new(alloc, [2, 3].to_vec(alloc)?);
    assert_eq!(rt; put_both(&mut out, b"one", b"two"), Err(PutFault::Failed));
    assert_eq!(rt;
        put_both(&mut out, b"three", b"four"),
        Err(PutFault::Failed)
    );
    assert_eq!(rt; put_both(&mut out, b"five", b"six"), Ok(()));
    assert_eq!(rt; out.bytes(), b"onefivesix".as_slice());
    Ok(())
}

#[test]
fn a_sink_in_memory_fails_where_its_maker_says(rt: HostRuntime) -> Result<(), Fail> {
    let alloc = rt.alloc();
    let mut out = MemSink::new(alloc, [2].to_vec(alloc)?);
    assert_eq!(rt;
        put_in_memory(&mut out, b"one", b"two"),
        Err(PutFault::Failed)
    );
    let mut out = MemSink::new(alloc, Vec::new(alloc));
    assert_eq!(rt; put_without_faults(&mut out, b"one", b"two"), Ok(()));
    assert_eq!(rt; out.bytes(), b"onetwo".as_slice());
    Ok(())
}

#[test]
fn a_source_is_taken_to_its_end(rt: HostRuntime) -> Result<(), Fail> {
    let alloc = rt.alloc();
    let mut from = MemSource::new(b"abcde".to_vec(alloc)?, [1, 3].to_vec(alloc)?);
    assert_eq!(rt; next_byte(&mut from), Err(Failed));
    assert_eq!(rt; next_byte(&mut from), Ok(Some(b'a')));
    let mut buf = [0; 3];
    assert_eq!(rt; from.take(&mut buf), Err(Failed));
    assert_eq!(rt; from.take(&mut buf), Ok(3));
    assert_eq!(rt; buf, [b'b', b'c', b'd']);
    assert_eq!(rt; from.take(&mut buf), Ok(1));
    assert_eq!(rt; buf[0], b'e');
    assert_eq!(rt; next_byte(&mut from), Ok(None));
    Ok(())
}

#[test]
fn a_long_file_is_read_to_the_limit(rt: HostRuntime) -> Result<(), Fail> {
    let alloc = rt.alloc();
    let long = vec![in alloc; b'x'; READ_LIMIT + 1]?;
    let named = named(alloc, &[("long.m", long.as_slice())])?;
    assert!(rt; MemFiles::are_distinct(named.as_slice()));
    let mut files = MemFiles::new(named, Vec::new(alloc));
    assert_eq!(rt; files.read(alloc, "long.m")?.len(), 4_194_305);
    Ok(())
}

#[test]
fn names_are_compared(rt: HostRuntime) -> Result<(), Fail> {
    let alloc = rt.alloc();
    let twice = named(alloc, &[("a.m", b"1"), ("b.m", b"2"), ("a.m", b"3")])?;
    let once = named(alloc, &[("a.m", b"1"), ("b.m", b"2"), ("a", b"3")])?;
    assert!(rt; !MemFiles::are_distinct(twice.as_slice()));
    assert!(rt; MemFiles::are_distinct(once.as_slice()));
    Ok(())
}
