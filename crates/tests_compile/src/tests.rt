use mc_base::{Memory, Row, Text};
use mc_compile::{Checked, CompileFault, Given, LIBRARY, Named, Query, Read, Typed};
use mc_decl_syntax::ItemsFault;
use mc_defs_uses::{DefinitionSet, clause_of, definitions};
use mc_items::read_items;
use mc_names::{Definition, Kind};
use mc_source::rule::Broken;
use std::alloc::Global;
use std::test::Fail;

// A file of this text.
fn file(alloc: Global, text: &[u8]) -> Result<Given, Memory> {
    Ok(Given {
        name: Text::new(alloc, b"some.m")?,
        bytes: Text::new(alloc, text)?,
    })
}

// Files of these texts.
fn given(alloc: Global, texts: &[&[u8]]) -> Result<Row<Given>, Memory> {
    let mut files = Vec::new(alloc);
    for text in texts {
        files.push(file(alloc, text)?)?;
    }
    Row::of(files)
}

fn query_of(alloc: Global, text: &[u8]) -> Result<Query, Memory> {
    let text = Text::new(alloc, text)?;
    Ok(Query { text, first: false })
}

// Rules that are broken, each by its file, its line and itself.
fn rules_shown(alloc: Global, broken: &Row<Broken>) -> Result<Vec<u8>, Fail> {
    let mut out = Vec::new(alloc);
    for broken in broken.as_slice() {
        if !out.is_empty() {
            out.extend_from_slice(b", ")?;
        }
        let file = broken.at.file;
        let line = broken.at.line;
        let rule = broken.rule;
        out.extend_from_slice(format!(in alloc; "{file}:{line} {rule:?}")?.as_bytes())?;
    }
    Ok(out)
}

// Why sources aren't compiled.
pub fn fault_shown(alloc: Global, fault: CompileFault) -> Result<Vec<u8>, Fail> {
    match fault {
        CompileFault::Rejected(broken) => rules_shown(alloc, &broken),
        CompileFault::Memory => Ok(b"memory".to_vec(alloc)?),
    }
}

// What reading answers: how many items each file has, or the rules that are broken.
fn read_shown(alloc: Global, files: &Row<Given>, query: Option<&Query>) -> Result<Vec<u8>, Fail> {
    match Read::of(alloc, files, query) {
        Ok(read) => {
            let mut out = b"ok".to_vec(alloc)?;
            for file in read.files.as_slice() {
                out.extend_from_slice(format!(in alloc; " {}", file.len())?.as_bytes())?;
            }
            if read.goal.is_some() {
                out.extend_from_slice(b" goal")?;
            }
            Ok(out)
        }
        Err(fault) => fault_shown(alloc, fault),
    }
}

// The first two phases.
fn named(alloc: Global, files: &Row<Given>, query: Option<&Query>) -> Result<Named, CompileFault> {
    Named::of(alloc, Read::of(alloc, files, query)?)
}

// What both phases answer: how many files there are, with the library's, or the rules that are broken.
fn named_shown(alloc: Global, files: &Row<Given>, query: Option<&Query>) -> Result<Vec<u8>, Fail> {
    match named(alloc, files, query) {
        Ok(named) => {
            let mut out = b"ok".to_vec(alloc)?;
            out.extend_from_slice(format!(in alloc; " {}", named.files.len())?.as_bytes())?;
            Ok(out)
        }
        Err(fault) => fault_shown(alloc, fault),
    }
}

// What the first three phases answer: how many types there are, with the library's, or the rules that are broken.
fn typed_shown(alloc: Global, files: &Row<Given>, query: Option<&Query>) -> Result<Vec<u8>, Fail> {
    let answer = match named(alloc, files, query) {
        Ok(named) => Typed::of(alloc, named),
        Err(fault) => Err(fault),
    };
    match answer {
        Ok(typed) => {
            let mut out = b"ok".to_vec(alloc)?;
            out.extend_from_slice(format!(in alloc; " {}", typed.types.len())?.as_bytes())?;
            Ok(out)
        }
        Err(fault) => fault_shown(alloc, fault),
    }
}

#[test]
fn the_library_breaks_no_rule_of_reading(rt: HostRuntime) -> Result<(), Fail> {
    let alloc = rt.alloc();
    let mut items = Vec::new(alloc);
    for text in LIBRARY {
        match read_items(alloc, 7, text.as_bytes()) {
            Ok(entries) => items.push(entries.len())?,
            Err(ItemsFault::Broken(broken)) => {
                let rules = rules_shown(alloc, &broken)?;
                assert_eq!(rt; rules.as_slice(), b"".as_slice(), "{text}");
            }
            Err(ItemsFault::Memory) => return Err(Fail::from(Memory)),
        }
    }
    assert_eq!(rt; items.as_slice(), [30, 3, 3, 8, 21, 10, 5, 9, 3].as_slice());
    Ok(())
}

#[test]
fn files_and_a_query_are_read(rt: HostRuntime) -> Result<(), Fail> {
    let alloc = rt.alloc();
    let query = query_of(alloc, b"p(X), q(X).")?;
    let files = given(alloc, &[b":- module a.\n:- interface.\n", b"", b"p.\n"])?;
    let answer = read_shown(alloc, &files, Some(&query))?;
    assert_eq!(rt; answer.as_slice(), b"ok 2 0 1 goal".as_slice());
    let answer = read_shown(alloc, &given(alloc, &[])?, None)?;
    assert_eq!(rt; answer.as_slice(), b"ok".as_slice());
    Ok(())
}

#[test]
fn each_faulty_item_is_told_in_the_order_of_the_files(rt: HostRuntime) -> Result<(), Fail> {
    let alloc = rt.alloc();
    let query = query_of(alloc, b"\np q.")?;
    let first: &[u8] = b":- module a.\np :- 1.\n:- foo.\n";
    let second: &[u8] = b"p(.\nq.\np \x01.\n";
    let answer = read_shown(
        alloc,
        &given(alloc, &[first, b"p.\n", second])?,
        Some(&query),
    )?;
    assert_eq!(rt;
        answer.as_slice(),
        b"0:2 S6, 0:3 S6, 2:1 S5, 2:3 S1, 3:2 S5".as_slice()
    );
    let answer = read_shown(alloc, &given(alloc, &[b"p.\n"])?, Some(&query))?;
    assert_eq!(rt; answer.as_slice(), b"1:2 S5".as_slice());
    Ok(())
}

// Files of so many blanks each.
fn blanks(alloc: Global, lengths: &[usize]) -> Result<Row<Given>, Memory> {
    let mut files = Vec::new(alloc);
    for length in lengths {
        let blanks = vec![in alloc; b' '; *length]?;
        files.push(file(alloc, blanks.as_slice())?)?;
    }
    Row::of(files)
}

#[test]
fn sources_that_are_too_long(rt: HostRuntime) -> Result<(), Fail> {
    let alloc = rt.alloc();
    let longest = 4_194_304;
    let query = query_of(alloc, b"p q.")?;
    let cases: [(&[usize], &[u8]); 5] = [
        (&[longest, longest, longest, longest], b"4:1 S5"),
        (&[longest, longest + 1, 1], b"1:1 L1, 3:1 S5"),
        (
            &[longest, longest, longest, longest, longest],
            b"4:1 L1, 5:1 S5",
        ),
        (
            &[6_000_000, longest, longest, longest - 1],
            b"0:1 L1, 4:1 S5",
        ),
        (
            &[6_000_000, longest, longest, longest],
            b"0:1 L1, 3:1 L1, 4:1 S5",
        ),
    ];
    for (lengths, wanted) in cases {
        let files = blanks(alloc, lengths)?;
        let answer = read_shown(alloc, &files, Some(&query))?;
        assert_eq!(rt; answer.as_slice(), wanted);
    }
    Ok(())
}

const FIRST: &[u8] = b":- module a.
:- interface.
:- import_module list, b.
:- pred p(list(int)::out) is det.
:- implementation.
p([1]).
";

const SECOND: &[u8] = b":- module b.
:- interface.
:- use_module a.
:- type t ---> c(int).
";

const FAULTY: &[u8] = b":- module b.
:- interface.
:- import_module nowhere.
:- type t ---> c(u).
";

#[test]
fn legal_sources_have_names(rt: HostRuntime) -> Result<(), Fail> {
    let alloc = rt.alloc();
    let answer = named_shown(alloc, &given(alloc, &[])?, None)?;
    assert_eq!(rt; answer.as_slice(), b"ok 9".as_slice());
    let query = query_of(alloc, b"p([X | Y]).")?;
    let answer = named_shown(alloc, &given(alloc, &[FIRST, SECOND])?, Some(&query))?;
    assert_eq!(rt; answer.as_slice(), b"ok 11".as_slice());
    Ok(())
}

#[test]
fn faults_of_linking_are_told_where_none_of_reading_is(rt: HostRuntime) -> Result<(), Fail> {
    let alloc = rt.alloc();
    let invisible = query_of(alloc, b"\np(X), q(X).")?;
    let answer = named_shown(alloc, &given(alloc, &[FIRST, FAULTY])?, Some(&invisible))?;
    assert_eq!(rt; answer.as_slice(), b"1:3 N3, 1:4 N4, 2:2 N4".as_slice());
    let answer = named_shown(alloc, &given(alloc, &[FIRST, SECOND])?, Some(&invisible))?;
    assert_eq!(rt; answer.as_slice(), b"2:2 N4".as_slice());
    let answer = named_shown(alloc, &given(alloc, &[FIRST, FAULTY])?, None)?;
    assert_eq!(rt; answer.as_slice(), b"1:3 N3, 1:4 N4".as_slice());
    let answer = named_shown(
        alloc,
        &given(alloc, &[FIRST, FAULTY, b":- foo.\n"])?,
        Some(&invisible),
    )?;
    assert_eq!(rt; answer.as_slice(), b"2:1 S6".as_slice());
    let unread = query_of(alloc, b"p(X.")?;
    let answer = named_shown(alloc, &given(alloc, &[FIRST, FAULTY])?, Some(&unread))?;
    assert_eq!(rt; answer.as_slice(), b"2:1 S5".as_slice());
    Ok(())
}

const ROUND: &[u8] = b":- module c.
:- interface.
:- type t == u.
:- type u == t.
:- type v ---> v(A).
:- implementation.
:- type w(A) ---> end ; more(w(w(A))).
";

// The library's types alone break no rule. Rules of types are told where none of linking is broken, and none of them for a
// query.
#[test]
fn faults_of_types_are_told_where_none_of_linking_is(rt: HostRuntime) -> Result<(), Fail> {
    let alloc = rt.alloc();
    let query = query_of(alloc, b"p([X | Y]).")?;
    let invisible = query_of(alloc, b"p(X), q(X).")?;
    let answer = typed_shown(alloc, &given(alloc, &[])?, None)?;
    assert_eq!(rt; answer.as_slice(), b"ok 6".as_slice());
    let answer = typed_shown(alloc, &given(alloc, &[FIRST, SECOND])?, Some(&query))?;
    assert_eq!(rt; answer.as_slice(), b"ok 7".as_slice());
    let files = given(alloc, &[FIRST, SECOND, ROUND])?;
    let answer = typed_shown(alloc, &files, Some(&query))?;
    assert_eq!(rt;
        answer.as_slice(),
        b"2:3 T4, 2:4 T4, 2:5 T3, 2:7 T5".as_slice()
    );
    let answer = typed_shown(alloc, &files, Some(&invisible))?;
    assert_eq!(rt; answer.as_slice(), b"3:1 N4".as_slice());
    Ok(())
}

// A clause of a predicate or a function, with a variable of its own for each argument. Other definitions have none.
fn clause(alloc: Global, definition: Definition<'_>) -> Result<Vec<u8>, Fail> {
    let end = match definition.kind {
        Kind::Pred => b".\n".as_slice(),
        Kind::Func => b" = _.\n".as_slice(),
        _ => return Ok(Vec::new(alloc)),
    };
    let mut out = b"'".to_vec(alloc)?;
    out.extend_from_slice(definition.id.name)?;
    out.extend_from_slice(b"'(_")?;
    for _further in 1..definition.id.arity {
        out.extend_from_slice(b", _")?;
    }
    out.push(b')')?;
    out.extend_from_slice(end)?;
    Ok(out)
}

// A clause, on a line of its own, of each predicate and function that a module declares and has no clause of.
fn missing(alloc: Global, text: &str) -> Result<Vec<u8>, Fail> {
    let entries = read_items(alloc, 0, text.as_bytes())?;
    let mut defined = DefinitionSet::new(alloc);
    for entry in entries.as_slice() {
        if let Some(definition) = clause_of(&entry.decl) {
            defined.insert(definition)?;
        }
    }
    let mut out = Vec::new(alloc);
    for entry in entries.as_slice() {
        for definition in definitions(alloc, &entry.decl)?.as_slice() {
            if !defined.contains(*definition) {
                out.extend_from_slice(clause(alloc, *definition)?.as_slice())?;
            }
        }
    }
    Ok(out)
}

fn line_count(text: &[u8]) -> u32 {
    let mut count = 0u32;
    for byte in text {
        if *byte == b'\n' {
            count = count.saturating_add(1);
        }
    }
    count
}

// Of an item without a definition no later rule is told. So the library's modules are given as files of a program, with a
// clause of each predicate and function that is built in. They have names that the library has too, the type
// `io.state` has no definition, and no other rule of linking is broken.
#[test]
fn the_library_breaks_no_rule_of_linking(rt: HostRuntime) -> Result<(), Fail> {
    let alloc = rt.alloc();
    let mut files = Vec::new(alloc);
    let mut built_in = 0u32;
    for text in LIBRARY {
        let missing = missing(alloc, text)?;
        built_in = built_in.saturating_add(line_count(missing.as_slice()));
        let mut whole = text.as_bytes().to_vec(alloc)?;
        whole.extend_from_slice(b":- implementation.\n")?;
        whole.extend_from_slice(missing.as_slice())?;
        files.push(file(alloc, whole.as_slice())?)?;
    }
    assert_eq!(rt; built_in, 28);
    let answer = named_shown(alloc, &Row::of(files)?, None)?;
    assert_eq!(rt;
        answer.as_slice(),
        b"0:1 N2, 1:1 N2, 2:1 N2, 3:1 N2, 4:1 N2, 5:1 N2, 6:1 N2, 7:1 N2, 7:4 N6, 8:1 N2".as_slice()
    );
    Ok(())
}

fn checked(
    alloc: Global,
    files: &Row<Given>,
    query: Option<&Query>,
) -> Result<Checked, CompileFault> {
    Checked::of(alloc, Typed::of(alloc, named(alloc, files, query)?)?)
}

// What the phase of clauses answers: the name of each clause's predicate, of a query `?`, or the rules that are broken.
fn checked_shown(
    alloc: Global,
    files: &Row<Given>,
    query: Option<&Query>,
) -> Result<Vec<u8>, Fail> {
    match checked(alloc, files, query) {
        Ok(checked) => {
            let mut out = Vec::new(alloc);
            for clause in &checked.clauses {
                match checked
                    .typed
                    .named
                    .names
                    .preds
                    .as_slice()
                    .get(clause.pred as usize)
                {
                    Some(named) => out.extend_from_slice(named.name.name.bytes())?,
                    None => out.push(b'?')?,
                }
                out.push(b' ')?;
            }
            Ok(out)
        }
        Err(fault) => fault_shown(alloc, fault),
    }
}

// The names of what the library's clauses are of, in the order of its modules.
const LIBRARY_CLAUSES: &[u8] =
    b"append append member member delete delete length length reverse rev rev ++ \
    fst snd max min nondet_int_in_range ";

#[test]
fn the_library_s_own_clauses_have_types(rt: HostRuntime) -> Result<(), Fail> {
    let alloc = rt.alloc();
    let answer = checked_shown(alloc, &given(alloc, &[])?, None)?;
    assert_eq!(rt; answer.as_slice(), LIBRARY_CLAUSES);
    Ok(())
}

#[test]
fn the_library_s_clauses_stand_between_the_files_and_the_query(
    rt: HostRuntime,
) -> Result<(), Fail> {
    let alloc = rt.alloc();
    let text =
        b":- module m. :- interface. :- type t ---> a1. :- pred p(t::out) is nondet. :- implementation. p(a1).";
    let query = query_of(alloc, b"p(X).")?;
    let answer = checked_shown(alloc, &given(alloc, &[text])?, Some(&query))?;
    let mut wanted = b"p ".to_vec(alloc)?;
    wanted.extend_from_slice(LIBRARY_CLAUSES)?;
    wanted.extend_from_slice(b"? ")?;
    assert_eq!(rt; answer.as_slice(), wanted.as_slice());
    Ok(())
}
