use mc_base::Row;
use mc_decl_syntax::ItemsFault;
use mc_items::{read_items, read_query};
use mc_source::place::Place;
use mc_source::rule::{Broken, Rule};
use mc_term_data::Node;
use std::alloc::{AllocError, Global};
use std::process::Abort;
use std::test::Fail;

// The words behind `left out of this profile: `, or nothing where the rule says all.
fn form(broken: &Broken) -> &[u8] {
    if broken.rule != Rule::X1 {
        return b"";
    }
    broken.what.bytes().get(26..).unwrap_or(b"?")
}

// The rules that are broken, with their lines.
fn fault_shown(alloc: Global, fault: ItemsFault) -> Result<Vec<u8>, AllocError> {
    let mut out = Vec::new(alloc);
    match fault {
        ItemsFault::Memory => out.extend_from_slice(b"memory")?,
        ItemsFault::Broken(all) => {
            for broken in all.as_slice() {
                if !out.is_empty() {
                    out.extend_from_slice(b", ")?;
                }
                let line = broken.at.line;
                let rule = broken.rule;
                out.extend_from_slice(format!(in alloc; "{line} {rule:?}")?.as_bytes())?;
                if broken.rule == Rule::X1 {
                    out.push(b' ')?;
                    out.extend_from_slice(form(broken))?;
                }
            }
        }
    }
    Ok(out)
}

// What the reader answers for a text: how many items it has, or the rules that are broken, with their lines.
fn shown(alloc: Global, text: &[u8]) -> Result<Vec<u8>, AllocError> {
    match read_items(alloc, 7, text) {
        Ok(entries) => {
            let mut out = Vec::new(alloc);
            out.extend_from_slice(format!(in alloc; "ok {}", entries.len())?.as_bytes())?;
            Ok(out)
        }
        Err(fault) => fault_shown(alloc, fault),
    }
}

// What the reader answers for a query's text: that it is a goal, or the rule that is broken, with its line.
fn query_shown(alloc: Global, text: &[u8]) -> Result<Vec<u8>, AllocError> {
    match read_query(alloc, 7, text) {
        Ok(_goal) => b"goal".to_vec(alloc),
        Err(fault) => fault_shown(alloc, fault),
    }
}

// What a text is read as.
#[derive(Clone, Copy)]
enum Reader {
    File,
    Query,
}

impl Reader {
    fn shown(self, alloc: Global, text: &[u8]) -> Result<Vec<u8>, AllocError> {
        match self {
            Reader::File => shown(alloc, text),
            Reader::Query => query_shown(alloc, text),
        }
    }
}

// The rules that a text breaks; none where its items are answered, or there is no room.
fn broken(alloc: Global, text: &[u8]) -> Row<Broken> {
    match read_items(alloc, 7, text) {
        Ok(_entries) => Row::new(alloc),
        Err(fault) => match fault {
            ItemsFault::Broken(all) => all,
            ItemsFault::Memory => Row::new(alloc),
        },
    }
}

// A text in which `@` stands for a line's end.
fn with_lines(alloc: Global, row: &str) -> Result<Vec<u8>, AllocError> {
    let mut text = Vec::new(alloc);
    for byte in row.as_bytes() {
        text.push(if *byte == b'@' { b'\n' } else { *byte })?;
    }
    Ok(text)
}

fn rows_hold(rt: &impl Abort, alloc: Global, reader: Reader, table: &str) -> Result<u32, Fail> {
    let mut rows = 0u32;
    for row in table.lines() {
        if let Some((text, wanted)) = row.split_once(" ~ ") {
            let text = with_lines(alloc, text)?;
            let answer = reader.shown(alloc, text.as_slice())?;
            assert_eq!(rt; answer.as_slice(), wanted.as_bytes(), "{row}");
            rows = rows.saturating_add(1);
        }
    }
    Ok(rows)
}

// Declarations and clauses of each form, and near misses of each.
const FORMS: &str = "\
:- module m. ~ ok 1\n\
:- module a.b. ~ ok 1\n\
:- end_module m. ~ ok 1\n\
:- interface. ~ ok 1\n\
:- implementation. ~ ok 1\n\
:- import_module m, n. ~ ok 1\n\
:- import_module int. ~ ok 1\n\
:- use_module a.b. ~ ok 1\n\
:- type t(A). ~ ok 1\n\
:- type t ---> a ; b. ~ ok 1\n\
:- type t(A) ---> c ; d(int, f :: A). ~ ok 1\n\
:- type l(T) ---> [] ; [T | l(T)]. ~ ok 1\n\
:- type t == list(int). ~ ok 1\n\
:- type t(_, _). ~ ok 1\n\
:- inst i(I) == bound(c ; d(I)). ~ ok 1\n\
:- inst i ---> c ; d(ground). ~ ok 1\n\
:- inst f == bound([ground | ground]). ~ ok 1\n\
:- inst any == ground. ~ ok 1\n\
:- mode m(I) == I >> ground. ~ ok 1\n\
:- mode m == n. ~ ok 1\n\
:- pred p. ~ ok 1\n\
:- pred p is det. ~ ok 1\n\
:- pred p(int, list(T)). ~ ok 1\n\
:- pred p(int::in, int::out) is nondet. ~ ok 1\n\
:- pred p(int::in). ~ ok 1\n\
:- func f(int) = int. ~ ok 1\n\
:- func f(int::in) = (int::out) is det. ~ ok 1\n\
:- func f = (int::out) is det. ~ ok 1\n\
:- mode p(in, out) is det. ~ ok 1\n\
:- mode f(in) = out is det. ~ ok 1\n\
:- mode p. ~ ok 1\n\
:- pragma inline(p/2). ~ ok 1\n\
:- pragma no_inline(p/2). ~ ok 1\n\
:- foo. ~ 1 S6\n\
:- module 5. ~ 1 S6\n\
:- import_module a, (b, c). ~ 1 S6\n\
:- type t(a). ~ 1 S6\n\
:- type t(A, A). ~ 1 S6\n\
:- type m.t. ~ 1 S6\n\
:- type t == 5. ~ 1 S6\n\
:- inst i. ~ 1 S6\n\
:- inst i(I) == J. ~ 1 S6\n\
:- mode m(I) == 5. ~ 1 S6\n\
:- pred p(int) is det. ~ 1 S6\n\
:- pred p(int::in, int). ~ 1 S6\n\
:- pred p(int::in(I)). ~ 1 S6\n\
:- pred m.p(int). ~ 1 S6\n\
:- pred p is sometimes. ~ 1 S6\n\
:- func f(int) = int is det. ~ 1 S6\n\
:- func f(int::in) = int. ~ 1 S6\n\
:- pragma inline. ~ 1 S6\n\
:- pragma fact_table(p, \"x\"). ~ 1 S6\n\
p. ~ ok 1\n\
p(X, Y) :- q(X), r(Y). ~ ok 1\n\
f(X) = X + 1. ~ ok 1\n\
f = 1 :- true. ~ ok 1\n\
p :- ( a -> b ; c ). ~ ok 1\n\
p :- ( a -> b ; c -> d ; e ). ~ ok 1\n\
p :- ( a -> b ). ~ 1 S6\n\
p :- ( a ; b -> c ). ~ 1 S6\n\
p :- if a then b else c. ~ ok 1\n\
p :- if a then b else if c then d else e. ~ ok 1\n\
p :- if a then b. ~ 1 S6\n\
p :- not a, \\+ b. ~ ok 1\n\
p :- some [X] q(X). ~ ok 1\n\
p :- all [X, !Y] q(X, !Y). ~ ok 1\n\
p :- a => b, a <= b, a <=> b. ~ ok 1\n\
p :- (a => b), (a <= b), (a <=> b). ~ ok 1\n\
p :- X = Y, X \\= Y. ~ ok 1\n\
p :- 1. ~ 1 S6\n\
p :- \"s\". ~ 1 S6\n\
p :- []. ~ 1 S6\n\
p :- some [X | Y] q. ~ 1 S6\n\
p :- some [!.X] q. ~ 1 S6\n\
p :- m.q(X). ~ ok 1\n\
p :- ','(a, b), ;(c, d). ~ ok 1\n\
m.p(X). ~ 1 S6\n\
m.f(X) = 1. ~ 1 S6\n\
X = 1. ~ 1 S6\n\
1. ~ 1 S6\n\
[a]. ~ 1 S6\n\
a, b. ~ 1 S6\n\
p(!X) :- q(!X), r(!.X, !:X). ~ ok 1\n\
p(!X) :- q(f(!X)). ~ ok 1\n\
p(!X) :- q([!.X]). ~ ok 1\n\
p(!X) :- !:X = !.X. ~ ok 1\n\
f(!X) = !.X. ~ ok 1\n\
p :- q(!X). ~ 1 S6\n\
p(!X) :- q([!X]). ~ 1 S6\n\
p(!X) :- !X = a. ~ 1 S6\n\
p(!X) :- !X. ~ 1 S6\n\
!X. ~ 1 S6\n\
f(!X) = !X. ~ 1 S6\n\
p :- (some [!X] q(!X)), r(!.X). ~ 1 S6\n\
p :- ( some [!T] ( a(!:T), b(!T) ) -> c(!.T) ; d ). ~ ok 1\n\
p :- if some [!T] a(!T) then b(!T) else c. ~ ok 1\n\
p :- ( some [!T] a(!T) -> b ; c(!T) ). ~ 1 S6\n\
p :- ( not (some [!T] a(!T)) -> b(!T) ; c ). ~ 1 S6\n";

// Each form that is left out, and near misses.
const LEFT_OUT: &str = "\
:- pred p(pred(int)). ~ 1 X1 higher-order\n\
:- pred p(func(int) = int). ~ 1 X1 higher-order\n\
:- inst i == (pred(in) is det). ~ 1 X1 higher-order\n\
p(X) :- X(1). ~ 1 X1 higher-order\n\
p(X) :- X. ~ 1 X1 higher-order\n\
:- typeclass show(T) where []. ~ 1 X1 type class\n\
:- instance show(int) where []. ~ 1 X1 type class\n\
:- pred p(T) <= show(T). ~ 1 X1 type class\n\
:- pred p(T::in) is det <= show(T). ~ 1 X1 type class\n\
:- some [T] pred p(T). ~ 1 X1 existential type\n\
:- some [T] func f = T. ~ 1 X1 existential type\n\
p :- some [X] pred(X). ~ ok 1\n\
p(1.5). ~ 1 X1 float\n\
p(12ab). ~ 1 X1 integer tail\n\
p(a `q` b). ~ 1 X1 backquote\n\
p({a}). ~ 1 X1 tuple\n\
:- include_module m. ~ 1 X1 nested module\n\
a --> b. ~ 1 X1 grammar rule\n\
p(X^f). ~ 1 X1 field access\n\
p(X) :- X = (Y ^ f := 1). ~ 1 X1 field access\n\
:- inst i for t/1 == ground. ~ 1 X1 inst for\n\
p(X) :- X = for(1, 2). ~ 1 X1 inst for\n\
p(for). ~ ok 1\n\
p :- a & b. ~ 1 X1 parallel conjunction\n\
:- impure pred p. ~ 1 X1 purity\n\
p :- semipure q. ~ 1 X1 purity\n\
:- solver type t. ~ 1 X1 solver type\n\
:- type t ---> a where equality is e. ~ 1 X1 user equality\n\
:- promise all [X] p(X). ~ 1 X1 promise\n\
:- type t ---> promise(int). ~ 1 X1 promise\n\
p :- promise_pure(q). ~ 1 X1 promise\n\
p(promise_pure(q)). ~ ok 1\n\
:- initialise p. ~ 1 X1 initialise\n\
:- mutable(a, int, 0, ground, []). ~ 1 X1 mutable\n\
:- inst i == any. ~ 1 X1 any inst\n\
:- pred p(int::in(any)). ~ 1 X1 any inst\n\
:- mode m == mostly_unique >> ground. ~ 1 X1 mostly unique inst\n\
:- inst i == bound(c(mostly_clobbered)). ~ 1 X1 mostly unique inst\n\
:- pragma foreign_code(\"C\"). ~ 1 X1 pragma\n\
:- pragma fact_table(p/2, \"x\"). ~ 1 X1 pragma\n\
p(if a then b else c). ~ 1 X1 conditional expression\n\
p(a -> b). ~ 1 X1 conditional expression\n\
f(X) = (if a then b else c). ~ 1 X1 conditional expression\n\
p(if, then, else). ~ ok 1\n\
p(X::in) :- q(X). ~ 1 X1 mode-specific clause\n\
:- foo(X^f). ~ 1 X1 field access\n\
p(X^f, (a & b)). ~ 1 X1 field access\n\
p((a & b), X^f). ~ 1 X1 parallel conjunction\n\
p :- promise_x(A^b). ~ 1 X1 promise\n";

// The rules of the reader, the lines, and what comes behind a faulty item.
const LINES: &str = "\
a.@:- foo.@b. ~ 2 S6\n\
a.@@p(@ 1.5). ~ 3 X1 float\n\
p(@ \"a@ ~ 2 S2\n\
a.@a@= b = c.@b. ~ 2 S5\n\
p. {. q. ~ 1 X1 tuple\n\
p(99999999999999999999).@q. ~ 1 S3\n\
p(@9223372036854775808). ~ 2 S3\n\
p(-9223372036854775808). ~ ok 1\n\
p('\\q'). q.@:- foo. ~ 1 S1, 2 S6\n\
p(0'ab'c). q.@p(1). ~ 1 X1 integer tail\n\
/* a@ ~ 1 S2\n\
@(@a@:- b). ~ ok 1\n\
@(@a@ , b). ~ 2 S6\n\
. ~ 1 S5\n\
p :- ( true => some [X] X = 1 ). ~ 1 S5\n\
% only a comment ~ ok 0\n\
a. b. c. ~ ok 3\n\
:- module d.@p. ~ ok 2\n";

#[test]
fn forms(rt: HostRuntime) -> Result<(), Fail> {
    assert_eq!(rt; rows_hold(&rt, rt.alloc(), Reader::File, FORMS)?, 98);
    Ok(())
}

#[test]
fn forms_left_out(rt: HostRuntime) -> Result<(), Fail> {
    assert_eq!(rt; rows_hold(&rt, rt.alloc(), Reader::File, LEFT_OUT)?, 49);
    Ok(())
}

#[test]
fn lines(rt: HostRuntime) -> Result<(), Fail> {
    assert_eq!(rt; rows_hold(&rt, rt.alloc(), Reader::File, LINES)?, 18);
    Ok(())
}

// A module with full stops at its items' ends alone.
const MODULE: &str = "\
:- module cut.
:- interface.
:- type t ---> aa ; bb.
:- pred p(t::out, t::out) is nondet.
:- implementation.
p(aa, bb).
p(aa, bb).
";

#[test]
fn a_module_that_is_cut_off_within_an_item_breaks_a_rule(rt: HostRuntime) -> Result<(), Fail> {
    let alloc = rt.alloc();
    let mut start = Vec::new(alloc);
    let mut cut_off = false;
    for byte in MODULE.as_bytes() {
        start.push(*byte)?;
        match *byte {
            b'.' => cut_off = false,
            b' ' | b'\n' => {}
            _ => cut_off = true,
        }
        let answer = shown(alloc, start.as_slice())?;
        assert_eq!(rt; answer.as_slice().ends_with(b" S5"), cut_off);
    }
    Ok(())
}

// This many of a piece between a head and an end.
fn repeated(
    alloc: Global,
    head: &str,
    piece: &str,
    count: usize,
    end: &str,
) -> Result<Vec<u8>, AllocError> {
    let mut text = Vec::new(alloc);
    text.extend_from_slice(head.as_bytes())?;
    for _ in 0..count {
        text.extend_from_slice(piece.as_bytes())?;
    }
    text.extend_from_slice(end.as_bytes())?;
    Ok(text)
}

// A fact of this many `f` inside one another.
fn nested(alloc: Global, count: usize) -> Result<Vec<u8>, AllocError> {
    let mut text = repeated(alloc, "p(", "f(", count, "a")?;
    text.extend_from_slice(repeated(alloc, "", ")", count, ").")?.as_slice())?;
    Ok(text)
}

#[test]
fn limits(rt: HostRuntime) -> Result<(), Fail> {
    let alloc = rt.alloc();
    let cases: [(Vec<u8>, &str); 17] = [
        (nested(alloc, 254)?, "ok 1"),
        (nested(alloc, 255)?, "1 L2"),
        (repeated(alloc, "p([a", ", a", 9_999, "]).")?, "ok 1"),
        (repeated(alloc, "p(a", ", a", 254, ").")?, "ok 1"),
        (repeated(alloc, "p(a", ", a", 255, ").")?, "1 L3"),
        (repeated(alloc, "p(!A", ", a", 253, ").")?, "ok 1"),
        (repeated(alloc, "p(!A", ", a", 254, ").")?, "1 L3"),
        (
            repeated(alloc, ":- pred p(int", ", int", 255, ").")?,
            "1 L3",
        ),
        (
            repeated(alloc, ":- func f(int", ", int", 254, ") = int.")?,
            "ok 1",
        ),
        (repeated(alloc, "p([A, _", ", _", 4_094, "]).")?, "ok 1"),
        (repeated(alloc, "p([A, _", ", _", 4_095, "]).")?, "1 L4"),
        (repeated(alloc, "p([A, _", ", A", 9_000, "]).")?, "ok 1"),
        (repeated(alloc, "p(", "f(", 254, "1")?, "1 S5"),
        (repeated(alloc, "p :- a", " <=> a", 8, ".")?, "ok 1"),
        (repeated(alloc, "p :- a", " <=> a", 9, ".")?, "1 S6"),
        (repeated(alloc, "p :- ", "\\+ ", 300, "b.")?, "1 L2"),
        (
            repeated(alloc, "", "%23456789012345\n", 262_144, "p")?,
            "1 L1",
        ),
    ];
    for (text, wanted) in &cases {
        let answer = shown(alloc, text.as_slice())?;
        assert_eq!(rt; answer.as_slice(), wanted.as_bytes());
    }
    Ok(())
}

#[test]
fn words(rt: HostRuntime) -> Result<(), Fail> {
    let alloc = rt.alloc();
    let long = repeated(alloc, "", "%23456789012345\n", 262_144, "p")?;
    let arguments = repeated(alloc, "p(a", ", a", 255, ").")?;
    let variables = repeated(alloc, "p([_", ", _", 4_096, "]).")?;
    let deep = repeated(alloc, "p :- ", "\\+ ", 300, "b.")?;
    let cases: [(&[u8], &str); 11] = [
        (b"p \x01.", "bad character"),
        (b"p('a", "quote or comment is not closed"),
        (b"p(99999999999999999999).", "integer is out of range"),
        (b"p('\xff').", "text is not UTF-8"),
        (b"p q.", "not a term"),
        (b"1.", "not an item"),
        (b"a --> b.", "left out of this profile: grammar rule"),
        (long.as_slice(), "sources are too long"),
        (deep.as_slice(), "term is nested deeper than 256"),
        (arguments.as_slice(), "more than 255 arguments"),
        (variables.as_slice(), "more than 4096 variables"),
    ];
    for (text, wanted) in cases {
        let all = broken(alloc, text);
        assert_eq!(rt; all.len(), 1);
        for broken in all.as_slice() {
            assert_eq!(rt; broken.what.bytes(), wanted.as_bytes());
            assert_eq!(rt; broken.at, Place { file: 7, line: 1 });
        }
    }
    Ok(())
}

#[test]
fn each_faulty_item_has_its_line(rt: HostRuntime) -> Result<(), Fail> {
    let alloc = rt.alloc();
    let faulty = repeated(alloc, "", "1.\n", 100_000, "")?;
    let all = broken(alloc, faulty.as_slice());
    assert_eq!(rt; all.len(), 100_000);
    let mut line = 0u32;
    for broken in all.as_slice() {
        line = line.saturating_add(1);
        assert_eq!(rt; broken.at.line, line);
    }
    let endless = repeated(alloc, "p(", "a, ", 100_000, "")?;
    assert_eq!(rt;
        shown(alloc, endless.as_slice())?.as_slice(),
        b"1 S5".as_slice()
    );
    Ok(())
}

// Goals, and the first broken rule of each text that is none.
const QUERIES: &str = "\
p(X), q(X) .@ ~ goal\n\
p(X), q(X). ~ goal\n\
p. % c ~ goal\n\
/* c */@p.@% c@ ~ goal\n\
X = 1 .@ ~ goal\n\
p ; q. ~ goal\n\
( a -> b ; c ) .@ ~ goal\n\
some [X] p(X) .@ ~ goal\n\
some [!X] p(!X) .@ ~ goal\n\
X = 1. { ~ 1 S5\n\
X. { ~ 1 S5\n\
@@X.@ {. ~ 3 S5\n\
1. q ~ 1 S5\n\
p. q. ~ 1 S5\n\
p.@:- foo. ~ 1 S5\n\
p. . ~ 1 S5\n\
p. /* ~ 1 S5\n\
p. 'a ~ 1 S5\n\
X = 1 % no.@ ~ 1 S5\n\
% c ~ 1 S5\n\
@@% c@ ~ 1 S5\n\
@. ~ 2 S5\n\
@a b. c ~ 2 S5\n\
{. X ~ 1 X1 tuple\n\
@p(@{). X ~ 2 X1 tuple\n\
@p(@ 'a ~ 3 S2\n\
@/* a ~ 2 S2\n\
p('\\q'). q ~ 1 S1\n\
p(@9223372036854775808). q ~ 2 S3\n\
X .@ ~ 1 X1 higher-order\n\
X. ~ 1 X1 higher-order\n\
some [X] X .@ ~ 1 X1 higher-order\n\
@p,@q(Y^f) .@ ~ 2 X1 field access\n\
1, p(X^f) .@ ~ 1 X1 field access\n\
1 .@ ~ 1 S6\n\
@1. ~ 2 S6\n\
[a] .@ ~ 1 S6\n\
!.X = a .@ ~ 1 S6\n\
p(!X) .@ ~ 1 S6\n\
( a -> b ) .@ ~ 1 S6\n\
if a then b .@ ~ 1 S6\n";

#[test]
fn queries(rt: HostRuntime) -> Result<(), Fail> {
    assert_eq!(rt; rows_hold(&rt, rt.alloc(), Reader::Query, QUERIES)?, 41);
    Ok(())
}

// The lines of the goals of a query's conjunction; none where it is no conjunction.
fn lines_of_goals(alloc: Global, text: &[u8]) -> Result<Vec<u32>, AllocError> {
    let mut lines = Vec::new(alloc);
    if let Ok(goal) = read_query(alloc, 0, text) {
        if let Node::Conj(goals) = &goal.node {
            for goal in goals.as_slice() {
                lines.push(goal.line)?;
            }
        }
    }
    Ok(lines)
}

#[test]
fn a_query_s_goal(rt: HostRuntime) -> Result<(), Fail> {
    let alloc = rt.alloc();
    let lines = lines_of_goals(alloc, b"p(X),\nq(X), % c\n\nr.\n")?;
    assert_eq!(rt; lines.as_slice(), [1, 2, 4].as_slice());
    Ok(())
}
