use mc_cmd::{Status, merc, status_code};
use mc_outside::{MemFiles, MemSink, MemSource};
use std::alloc::{AllocError, Global};
use std::process::Abort;
use std::test::Fail;

const FAMILY: &[u8] = b":- module family.
:- interface.
:- type person ---> ann ; bob ; cid.
:- pred parent(person::out, person::out) is nondet.
:- implementation.
parent(ann, bob).
parent(ann, cid).
parent(bob, cid).
parent(ann, bob).
";

const LINES: &[u8] =
    b"X = ann, Y = bob.\nX = ann, Y = cid.\nX = bob, Y = cid.\nX = ann, Y = bob.\n";

const USAGE: &[u8] = b"merc: usage: merc check|run|query|gen\n";

/// What a call of the command answered.
#[derive(Drop)]
struct Answered {
    status: Status,
    out: Vec<u8>,
    err: Vec<u8>,
}

/// A file of a store, by its name.
type File<'a> = (&'a str, &'a [u8]);

/// The calls that fail: those of the files, of the output and of the error output, by their numbers.
#[derive(Clone, Copy)]
struct Failing<'a> {
    files: &'a [u64],
    out: &'a [u64],
    err: &'a [u64],
}

const NONE: Failing = Failing {
    files: &[],
    out: &[],
    err: &[],
};

fn words(alloc: Global, rest: &[&str]) -> Result<Vec<String>, AllocError> {
    let mut words = Vec::new(alloc);
    words.push(String::from_str(alloc, "merc")?)?;
    for word in rest {
        words.push(String::from_str(alloc, word)?)?;
    }
    Ok(words)
}

/// Calls the command on files in memory.
fn call(
    rt: &impl Abort,
    alloc: Global,
    rest: &[&str],
    files: &[File<'_>],
    failing: &Failing,
) -> Result<Answered, AllocError> {
    let mut held = Vec::new(alloc);
    for (name, bytes) in files {
        held.push((String::from_str(alloc, name)?, bytes.to_vec(alloc)?))?;
    }
    assert!(rt; MemFiles::are_distinct(held.as_slice()));
    let mut files = MemFiles::new(held, failing.files.to_vec(alloc)?);
    let mut input = MemSource::new(Vec::new(alloc), Vec::new(alloc));
    let mut out = MemSink::new(alloc, failing.out.to_vec(alloc)?);
    let mut err = MemSink::new(alloc, failing.err.to_vec(alloc)?);
    let words = words(alloc, rest)?;
    let status = merc(alloc, &words, &mut files, &mut input, &mut out, &mut err);
    Ok(Answered {
        status,
        out: out.bytes().to_vec(alloc)?,
        err: err.bytes().to_vec(alloc)?,
    })
}

fn check(rt: &impl Abort, answered: &Answered, status: Status, out: &[u8], err: &[u8]) {
    assert!(rt; answered.status == status);
    assert!(rt; answered.out.as_slice() == out);
    assert!(rt; answered.err.as_slice() == err);
}

#[test]
fn facts_are_answered(rt: HostRuntime) -> Result<(), Fail> {
    let alloc = rt.alloc();
    let files: [File<'_>; 1] = [("family.m", FAMILY)];
    let query = ["query", "parent(X, Y)", "family.m"];
    check(
        &rt,
        &call(&rt, alloc, &query, &files, &NONE)?,
        Status::Done,
        LINES,
        b"",
    );
    let ended = ["query", "--", "parent(X, Y) .", "family.m"];
    check(
        &rt,
        &call(&rt, alloc, &ended, &files, &NONE)?,
        Status::Done,
        LINES,
        b"",
    );
    let qualified = ["query", "--budget=1", "family.parent(A, B)", "family.m"];
    check(
        &rt,
        &call(&rt, alloc, &qualified, &files, &NONE)?,
        Status::Done,
        b"A = ann, B = bob.\nA = ann, B = cid.\nA = bob, B = cid.\nA = ann, B = bob.\n",
        b"",
    );
    check(
        &rt,
        &call(&rt, alloc, &["check", "family.m"], &files, &NONE)?,
        Status::Done,
        b"",
        b"",
    );
    assert!(rt; status_code(Status::Done) == 0);
    Ok(())
}

const NARROW: &[u8] = b":- module narrow.
:- interface.
:- import_module list.
:- inst filled == bound([ground | ground]).
:- pred head(list(T)::in(filled), T::out) is det.
:- implementation.
head([X | _], X).
";

const CLOSED: &[u8] = b":- module closed.
:- interface.
:- type door ---> open ; shut.
:- inst shut == bound(shut).
:- pred closed(door::out(shut)) is det.
:- implementation.
closed(open).
";

#[test]
fn insts_that_list_constructors_are_checked(rt: HostRuntime) -> Result<(), Fail> {
    let alloc = rt.alloc();
    let files: [File<'_>; 2] = [("narrow.m", NARROW), ("closed.m", CLOSED)];
    check(
        &rt,
        &call(&rt, alloc, &["check", "narrow.m"], &files, &NONE)?,
        Status::Done,
        b"",
        b"",
    );
    check(
        &rt,
        &call(&rt, alloc, &["check", "closed.m"], &files, &NONE)?,
        Status::Rejected,
        b"",
        b"closed.m:5: M4 final inst of argument 1 is not met\n",
    );
    Ok(())
}

const SILENT: &[u8] = b":- module silent.
:- interface.
:- import_module io.
:- pred main(io::di, io::uo) is det.
:- implementation.
main(!IO).
";

const COUNTING: &[u8] = b":- module counting.
:- interface.
:- import_module int, io.
:- pred main(io::di, io::uo) is det.
:- implementation.
main(!IO) :- write_from(1, !IO).
:- pred write_from(int::in, io::di, io::uo) is det.
write_from(N, !IO) :-
    io.write_int(N, !IO),
    io.nl(!IO),
    ( if N < 3 then write_from(N + 1, !IO), io.write_string(\"\", !IO) else true ).
";

const FAILING: &[u8] = b":- module failing.
:- interface.
:- import_module int, io, require.
:- pred main(io::di, io::uo) is det.
:- implementation.
main(!IO) :-
    io.write_string(\"begun\\n\", !IO),
    ( if 1 < 2 then error(\"no more\") else true ),
    io.write_string(\"never\\n\", !IO).
";

#[test]
fn main_is_run(rt: HostRuntime) -> Result<(), Fail> {
    let alloc = rt.alloc();
    let files: [File<'_>; 3] = [
        ("silent.m", SILENT),
        ("counting.m", COUNTING),
        ("failing.m", FAILING),
    ];
    let rows: [(&[&str], Status, &[u8], &[u8]); 6] = [
        (&["run", "silent.m"], Status::Done, b"", b""),
        (&["check", "counting.m"], Status::Done, b"", b""),
        (
            &["run", "--budget=4", "counting.m"],
            Status::Done,
            b"1\n2\n3\n",
            b"",
        ),
        (
            &["run", "--budget=3", "counting.m"],
            Status::Budget,
            b"1\n2\n",
            b"merc: budget of 3 calls is spent\n",
        ),
        (
            &["run", "failing.m"],
            Status::Threw,
            b"begun\n",
            b"merc: exception: no more\n",
        ),
        (
            &["run", "--depth=2", "counting.m"],
            Status::TooDeep,
            b"1\n",
            b"merc: depth of 2 is reached\n",
        ),
    ];
    for (list, status, out, err) in rows {
        let answers = call(&rt, alloc, list, &files, &NONE)?;
        check(&rt, &answers, status, out, err);
    }
    // Each put of a text that isn't empty in turn.
    for (number, written) in [(1, 0), (2, 1), (6, 5)] {
        let numbers = [number];
        let failing = Failing {
            out: &numbers,
            ..NONE
        };
        let cut = call(&rt, alloc, &["run", "counting.m"], &files, &failing)?;
        let (front, _) = b"1\n2\n3\n".split_at(written);
        check(&rt, &cut, Status::WriteFault, front, b"");
    }
    Ok(())
}

const RULES: &[u8] = b":- module rules.
:- interface.
:- import_module int, list.
:- type person ---> ann ; bob ; cid.
:- pred ancestor(person::in, person::out) is nondet.
:- func total(list(int)) = int.
:- implementation.
:- pred parent(person::in, person::out) is semidet.
parent(ann, bob).
parent(bob, cid).
ancestor(X, Y) :- parent(X, Y).
ancestor(X, Z) :- parent(X, Y), ancestor(Y, Z).
total([]) = 0.
total([X | Xs]) = X + total(Xs).
";

#[test]
fn rules_are_run(rt: HostRuntime) -> Result<(), Fail> {
    let alloc = rt.alloc();
    let files: [File<'_>; 2] = [("family.m", FAMILY), ("rules.m", RULES)];
    let rows: [(&[&str], Status, &[u8], &[u8]); 6] = [
        (
            &["query", "ancestor(ann, Y)", "rules.m"],
            Status::Done,
            b"Y = bob.\nY = cid.\n",
            b"",
        ),
        (
            &["query", "N = total([1, 2, 3])", "rules.m"],
            Status::Done,
            b"N = 6.\n",
            b"",
        ),
        (
            &["query", "--first", "parent(X, Y)", "family.m"],
            Status::Done,
            b"X = ann, Y = bob.\n",
            b"",
        ),
        (
            &["query", "parent(X, X)", "family.m"],
            Status::Done,
            b"false.\n",
            b"",
        ),
        (
            &["query", "--budget=2", "ancestor(ann, Y)", "rules.m"],
            Status::Budget,
            b"Y = bob.\n",
            b"merc: budget of 2 calls is spent\n",
        ),
        (&["check", "rules.m"], Status::Done, b"", b""),
    ];
    for (list, status, out, err) in rows {
        let answers = call(&rt, alloc, list, &files, &NONE)?;
        check(&rt, &answers, status, out, err);
    }
    Ok(())
}

#[test]
fn broken_rules_of_modes_and_determinism_are_told(rt: HostRuntime) -> Result<(), Fail> {
    let alloc = rt.alloc();
    let files: [File<'_>; 3] = [
        ("family.m", FAMILY),
        (
            "order.m",
            b":- module order.
:- interface.
:- implementation.
:- pred gives(int::out) is det.
gives(X) :- X = Y.
",
        ),
        (
            "head.m",
            b":- module head.
:- interface.
:- import_module list.
:- pred head(list(T)::in, T::out) is det.
:- implementation.
head([X | _], X).
",
        ),
    ];
    let rows: [(&[&str], &[u8]); 3] = [
        (
            &["check", "order.m"],
            b"order.m:4: M1 no goal can run; 1 waiting\n",
        ),
        (
            &["check", "head.m"],
            b"head.m:4: E1 declared det, inferred semidet\n",
        ),
        (
            &["run", "family.m"],
            b"family.m:1: E4 main is not a det or cc_multi predicate on io\n",
        ),
    ];
    for (list, lines) in rows {
        let refused = call(&rt, alloc, list, &files, &NONE)?;
        check(&rt, &refused, Status::Rejected, b"", lines);
    }
    Ok(())
}

#[test]
fn other_words_tell_the_usage(rt: HostRuntime) -> Result<(), Fail> {
    let alloc = rt.alloc();
    let files: [File<'_>; 1] = [("family.m", FAMILY)];
    let lists: [&[&str]; 3] = [&[], &["check"], &["ask", "parent(X, Y)", "family.m"]];
    for list in lists {
        check(
            &rt,
            &call(&rt, alloc, list, &files, &NONE)?,
            Status::Usage,
            b"",
            USAGE,
        );
    }
    Ok(())
}

#[test]
fn the_first_file_that_is_not_read_is_named(rt: HostRuntime) -> Result<(), Fail> {
    let alloc = rt.alloc();
    let files: [File<'_>; 2] = [("family.m", FAMILY), ("broken.m", b"p(")];
    let absent = ["check", "family.m", "none.m", "nothing.m"];
    check(
        &rt,
        &call(&rt, alloc, &absent, &files, &NONE)?,
        Status::Absent,
        b"",
        b"merc: no file none.m\n",
    );
    // A fault of a file before it isn't told.
    check(
        &rt,
        &call(&rt, alloc, &["check", "broken.m", "none.m"], &files, &NONE)?,
        Status::Absent,
        b"",
        b"merc: no file none.m\n",
    );
    let list = ["check", "family.m", "broken.m", "none.m"];
    for (number, name) in [(1, "family.m"), (2, "broken.m"), (3, "none.m")] {
        let numbers = [number];
        let failing = Failing {
            files: &numbers,
            ..NONE
        };
        let unread = call(&rt, alloc, &list, &files, &failing)?;
        let mut line = b"merc: cannot read ".to_vec(alloc)?;
        line.extend_from_slice(name.as_bytes())?;
        line.extend_from_slice(b"\n")?;
        check(&rt, &unread, Status::ReadFault, b"", line.as_slice());
    }
    Ok(())
}

#[test]
fn each_failing_put_is_told(rt: HostRuntime) -> Result<(), Fail> {
    let alloc = rt.alloc();
    let files: [File<'_>; 1] = [("family.m", FAMILY)];
    let query = ["query", "parent(X, Y)", "family.m"];
    // Each of the four puts on the output in turn.
    for (number, written) in [(1, 0), (2, 18), (3, 36), (4, 54)] {
        let numbers = [number];
        let failing = Failing {
            out: &numbers,
            ..NONE
        };
        let cut = call(&rt, alloc, &query, &files, &failing)?;
        let (front, _) = LINES.split_at(written);
        check(&rt, &cut, Status::WriteFault, front, b"");
    }
    // The one put on the error output.
    let failing = Failing { err: &[1], ..NONE };
    let lists: [&[&str]; 3] = [&[], &["check", "none.m"], &["run", "family.m"]];
    for list in lists {
        let cut = call(&rt, alloc, list, &files, &failing)?;
        check(&rt, &cut, Status::WriteFault, b"", b"");
    }
    // The second of two lines of broken rules.
    let faulty: [File<'_>; 2] = [("a.m", b"p("), ("b.m", b"p(")];
    let failing = Failing { err: &[2], ..NONE };
    let cut = call(&rt, alloc, &["check", "a.m", "b.m"], &faulty, &failing)?;
    check(
        &rt,
        &cut,
        Status::WriteFault,
        b"",
        b"a.m:1: S5 not a term\n",
    );
    Ok(())
}

#[test]
fn broken_rules_are_told(rt: HostRuntime) -> Result<(), Fail> {
    let alloc = rt.alloc();
    let files: [File<'_>; 8] = [
        ("family.m", FAMILY),
        ("d.m", b":- module d.\np.\n"),
        ("empty.m", b""),
        ("cut.m", b":- module cut.\n:- interface.\np('abc"),
        ("a.m", b":- module a.\n:- interface.\n:- import_module b.\n"),
        ("b.m", b":- module b.\n:- interface.\n:- import_module a.\n"),
        (
            "c.m",
            b":- module c.\n:- interface.\n:- import_module nowhere.\n",
        ),
        ("two.m", b":- module two.\np :- .\nq(.\n"),
    ];
    let rows: [(&[&str], &[u8]); 6] = [
        (&["check", "d.m"], b"d.m:2: N1 module structure\n"),
        (&["check", "empty.m"], b"empty.m:1: N1 module structure\n"),
        (
            &["check", "cut.m"],
            b"cut.m:3: S2 quote or comment is not closed\n",
        ),
        (
            &["check", "c.m"],
            b"c.m:3: N3 module nowhere is not found\n",
        ),
        (
            &["query", "parent(X", "family.m"],
            b"query:1: S5 not a term\n",
        ),
        (
            &["query", "p(", "two.m", "family.m", "cut.m"],
            b"two.m:2: S5 not a term\ntwo.m:3: S5 not a term\ncut.m:3: S2 quote or comment is not closed\nquery:1: S5 not a term\n",
        ),
    ];
    for (list, lines) in rows {
        let refused = call(&rt, alloc, list, &files, &NONE)?;
        check(&rt, &refused, Status::Rejected, b"", lines);
    }
    // Two modules that import each other.
    let both = call(&rt, alloc, &["check", "a.m", "b.m"], &files, &NONE)?;
    check(&rt, &both, Status::Done, b"", b"");
    Ok(())
}

const COLOURS: &[u8] = b"% Colours, and which is warm.
:- module colours.
:- interface.
:- type colour ---> red ; blue.
:- pred warm(colour::out) is nondet.
:- pred cold(colour::out) is nondet.
:- implementation.
warm(red). /* and no other */
cold(blue).
";

const FLOWERS: &[u8] = b":- module flowers.
:- interface.
:- import_module colours.
:- implementation.
of(rose, red).
:- pred of(flower::out, colour::out) is nondet.
of( % an aster
    aster, blue).
of(rose,blue).
:- type flower ---> rose ; aster.
";

#[test]
fn several_modules_are_answered(rt: HostRuntime) -> Result<(), Fail> {
    let alloc = rt.alloc();
    let files: [File<'_>; 2] = [("colours.m", COLOURS), ("flowers.m", FLOWERS)];
    let rows: [(&[&str], &[u8]); 4] = [
        (
            &["query", "of(F, C)", "flowers.m", "colours.m"],
            b"F = rose, C = red.\nF = aster, C = blue.\nF = rose, C = blue.\n",
        ),
        (
            &["query", "colours.warm(C)", "flowers.m", "colours.m"],
            b"C = red.\n",
        ),
        (&["query", "warm(C)", "colours.m"], b"C = red.\n"),
        (&["query", "cold(C)", "colours.m"], b"C = blue.\n"),
    ];
    for (list, lines) in rows {
        let answers = call(&rt, alloc, list, &files, &NONE)?;
        check(&rt, &answers, Status::Done, lines, b"");
    }
    Ok(())
}
