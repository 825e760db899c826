use mc_base::Text;
use mc_terms::{Node, Position, ReadFault, ReadKind, Term, read_next, read_term};
use mc_tokens::Walk;
use std::alloc::{AllocError, Global};
use std::test::Fail;

// Writes the terms with a comma between them.
#[cycle(shown)]
fn write_all(alloc: Global, out: &mut Vec<u8>, terms: &[Term]) -> Result<(), AllocError> {
    let mut first = true;
    for term in terms {
        if !first {
            out.push(b',')?;
        }
        first = false;
        write_term(alloc, out, term)?;
    }
    Ok(())
}

fn write_name(out: &mut Vec<u8>, parts: &[Text]) -> Result<(), AllocError> {
    let mut first = true;
    for part in parts {
        if !first {
            out.push(b'.')?;
        }
        first = false;
        out.extend_from_slice(part.bytes())?;
    }
    Ok(())
}

// Writes a term without operators; a conjunction is `&(..)`, a disjunction `|(..)`.
#[cycle(shown)]
fn write_term(alloc: Global, out: &mut Vec<u8>, term: &Term) -> Result<(), AllocError> {
    match &term.node {
        Node::Var(name) => out.extend_from_slice(name.bytes()),
        Node::Int(value) => out.extend_from_slice(format!(in alloc; "{value}")?.as_bytes()),
        Node::Str(bytes) => {
            out.push(b'"')?;
            out.extend_from_slice(bytes.bytes())?;
            out.extend_from_slice(b"\"")
        }
        Node::App(name, args) => {
            write_name(out, name.as_slice())?;
            if args.is_empty() {
                return Ok(());
            }
            out.push(b'(')?;
            write_all(alloc, out, args.as_slice())?;
            out.extend_from_slice(b")")
        }
        Node::List(items, tail) => {
            out.push(b'[')?;
            write_all(alloc, out, items.as_slice())?;
            if let Some(tail) = tail {
                out.push(b'|')?;
                write_term(alloc, out, tail)?;
            }
            out.extend_from_slice(b"]")
        }
        Node::Conj(parts) => {
            out.extend_from_slice(b"&(")?;
            write_all(alloc, out, parts.as_slice())?;
            out.extend_from_slice(b")")
        }
        Node::Disj(parts) => {
            out.extend_from_slice(b"|(")?;
            write_all(alloc, out, parts.as_slice())?;
            out.extend_from_slice(b")")
        }
    }
}

fn fault_shown(alloc: Global, fault: &ReadFault) -> Result<String, AllocError> {
    let line = fault.line;
    let next = fault.next;
    match fault.kind {
        ReadKind::Token(kind) => format!(in alloc; "{kind:?} {line} {next}"),
        kind => format!(in alloc; "{kind:?} {line} {next}"),
    }
}

// What the reader answers for the item at the start of a text.
fn shown(alloc: Global, text: &[u8]) -> Result<Vec<u8>, AllocError> {
    let mut out = Vec::new(alloc);
    if text.len() >= 1 << 20 {
        return Ok(out);
    }
    match read_term(alloc, text, 0) {
        Ok(None) => out.extend_from_slice(b"over")?,
        Ok(Some((term, next))) => {
            write_term(alloc, &mut out, &term)?;
            out.extend_from_slice(format!(in alloc; " {next}")?.as_bytes())?;
        }
        Err(fault) => out.extend_from_slice(fault_shown(alloc, &fault)?.as_bytes())?,
    }
    Ok(out)
}

// A text, and what the reader answers for its first item: the term and the place behind it, or the
// fault with its line and place.
const TABLE: &str = "\
a - b - c. ~ -(-(a,b),c) 10\n\
- 1. ~ -1 4\n\
-(1). ~ -(1) 5\n\
p(:- , X). ~ p(:-,X) 10\n\
a = b = c. ~ NotATerm 1 10\n\
some [X] p(X), q. ~ &(some([X],p(X)),q) 17\n\
- - 1. ~ -(-1) 6\n\
- - a. ~ NotATerm 1 6\n\
'-' 1. ~ -1 6\n\
a -(1, 2). ~ -(a,&(1,2)) 10\n\
some [X] - p. ~ NotATerm 1 13\n\
some [X] (- p). ~ some([X],-(p)) 15\n\
some [X] - 1. ~ NotATerm 1 13\n\
some [X] then. ~ NotATerm 1 14\n\
a + b ++ c. ~ NotATerm 1 11\n\
a ++ b + c. ~ ++(a,+(b,c)) 11\n\
a * b mod c. ~ NotATerm 1 12\n\
a mod b mod c. ~ NotATerm 1 14\n\
a, (b, c). ~ &(a,&(b,c)) 10\n\
a, b, c. ~ &(a,b,c) 8\n\
a ; b ; c. ~ |(a,b,c) 10\n\
a ',' b. ~ &(a,b) 8\n\
p(a ',' b). ~ p(&(a,b)) 11\n\
p(a ';' b). ~ p(|(a,b)) 11\n\
- = x. ~ =(-,x) 6\n\
- '=' x. ~ NotATerm 1 8\n\
a.b.c. ~ a.b.c 6\n\
a.mod(X). ~ a.mod(X) 9\n\
a.'b c'(d). ~ a.b c(d) 11\n\
- a.b. ~ -(a.b) 6\n\
f(). ~ NotATerm 1 4\n\
[a | b, c]. ~ NotATerm 1 11\n\
[a, b | c]. ~ [a,b|c] 11\n\
[]. ~ [] 3\n\
[ ] . ~ [] 5\n\
. ~ NotATerm 1 1\n\
$ % c$ . ~ NotATerm 3 8\n\
\x20~ over\n\
\x20/* c */ % d ~ over\n\
a ~ NotATerm 1 1\n\
a % b. ~ NotATerm 1 6\n\
p(a ~ NotATerm 1 3\n\
9223372036854775807. ~ 9223372036854775807 20\n\
9223372036854775808. ~ IntTooLarge 1 20\n\
-9223372036854775808. ~ -9223372036854775808 21\n\
- 9223372036854775808. ~ -9223372036854775808 22\n\
X = -(9223372036854775808). ~ IntTooLarge 1 27\n\
p($9223372036854775808). ~ IntTooLarge 2 24\n\
9223372036854775809. ~ IntTooLarge 1 20\n\
f(9223372036854775808 = ). ~ NotATerm 1 26\n\
0x1F + 0b101 + 0o17 + 0'a. ~ +(+(+(31,5),15),97) 26\n\
0b12. ~ NotATerm 1 5\n\
1.5. ~ LeftOut 1 4\n\
12a. ~ LeftOut 1 4\n\
a :- b, c ; d. ~ :-(a,|(&(b,c),d)) 14\n\
:- module m. ~ :-(module(m)) 12\n\
:- type t ---> a ; b(int). ~ :-(type(--->(t,|(a,b(int))))) 26\n\
:- pred p(int::in, list(T)::out) is det. ~ :-(pred(is(p(::(int,in),::(list(T),out)),det))) 40\n\
( if A then B else C ). ~ else(if(then(A,B)),C) 23\n\
( A -> B ; C ). ~ |(->(A,B),C) 15\n\
not a, b. ~ &(not(a),b) 9\n\
\\+ \\+ a. ~ \\+(\\+(a)) 8\n\
a => b => c. ~ =>(a,=>(b,c)) 12\n\
a <=> b. ~ <=>(a,b) 8\n\
a ++ b ++ c. ~ ++(a,++(b,c)) 12\n\
X = Y + 1 * 2 - 3. ~ =(X,-(+(Y,*(1,2)),3)) 18\n\
X \\= Y. ~ \\=(X,Y) 7\n\
!X. ~ !(X) 3\n\
p(!X, !.Y, !:Z). ~ p(!(X),!.(Y),!:(Z)) 16\n\
all [X] p(X) => q(X). ~ all([X],=>(p(X),q(X))) 21\n\
not some [X] p. ~ NotATerm 1 15\n\
a => some [X] p. ~ NotATerm 1 16\n\
- a. ~ -(a) 4\n\
-(a). ~ -(a) 5\n\
- (a). ~ -(a) 6\n\
a - -1. ~ -(a,-1) 7\n\
a - (-1). ~ -(a,-1) 9\n\
2 - 1. ~ -(2,1) 6\n\
f(-). ~ f(-) 5\n\
[-]. ~ [-] 4\n\
[- | -]. ~ [-|-] 8\n\
- . ~ - 3\n\
f(+, -). ~ f(+,-) 8\n\
mod. ~ mod 4\n\
a mod. ~ NotATerm 1 6\n\
mod mod mod. ~ mod(mod,mod) 12\n\
type. ~ type 5\n\
f(:- a). ~ f(:-(a)) 8\n\
p :- q :- r. ~ NotATerm 1 12\n\
( p :- q ) :- r. ~ :-(:-(p,q),r) 16\n\
a = \\+ b. ~ NotATerm 1 9\n\
f(a :- b, c). ~ f(:-(a,b),c) 13\n\
[a :- b | c]. ~ [:-(a,b)|c] 13\n\
a --> b. ~ -->(a,b) 8\n\
a ^ b ^ c. ~ ^(a,^(b,c)) 10\n\
a := b. ~ :=(a,b) 7\n\
(a). ~ a 4\n\
f((a, b), c). ~ f(&(a,b),c) 13\n\
(a ~ NotATerm 1 2\n\
a b. ~ NotATerm 1 4\n\
X Y. ~ NotATerm 1 4\n\
f(a)(b). ~ NotATerm 1 8\n\
X(a). ~ LeftOut 1 5\n\
\"a\\nb\". ~ \"a$b\" 7\n\
'it''s'(x). ~ it's(x) 11\n\
'a\\\\b'. ~ a\\b 7\n\
p(a, # ) q. r. ~ NotATerm 1 11\n\
p({). q. ~ LeftOut 1 5\n\
$p($1.5). ~ LeftOut 2 9\n\
$p(\u{e9}). q. ~ BadChar 2 7\n\
p('abc ~ Unterminated 1 6\n\
p(/* . q.  ~ Unterminated 1 6\n\
a. b. ~ a 2\n\
$$f($, ). g. ~ NotATerm 3 9\n\
a m.mod b. ~ NotATerm 1 10\n\
- m.mod. ~ -(m.mod) 8\n\
a.B. ~ BadChar 1 4\n\
0x. ~ LeftOut 1 3\n\
0o8. ~ LeftOut 1 4\n\
0'\u{e9}'. ~ NotATerm 1 6\n\
99999999999999999999a. ~ IntTooLarge 1 22\n\
99999999999999999999.5. ~ LeftOut 1 23\n\
p('\\q'). x. ~ BadChar 1 8\n\
p('\\x4 ~ Unterminated 1 6\n\
p('\\ ~ Unterminated 1 4\n\
$ 'a$b'$ c. ~ NotATerm 2 11\n\
a = [] ; b = '[]'. ~ |(=(a,[]),=(b,[])) 18\n\
X = 9223372036854775807 + 1. ~ =(X,+(9223372036854775807,1)) 28\n\
X = 9223372036854775808. ~ IntTooLarge 1 24\n\
X = 9223372036854775808 ~ NotATerm 1 23\n\
X = -9223372036854775808. ~ =(X,-9223372036854775808) 25\n\
A = -7 // 2, B = -7 mod 2. ~ &(=(A,//(-7,2)),=(B,mod(-7,2))) 26\n\
";

// A text of the table, in which `$` stands for a line end.
fn with_lines(alloc: Global, text: &str) -> Result<Vec<u8>, AllocError> {
    let mut bytes = Vec::new(alloc);
    for byte in text.as_bytes() {
        bytes.push(if *byte == b'$' { b'\n' } else { *byte })?;
    }
    Ok(bytes)
}

#[test]
fn items(rt: HostRuntime) -> Result<(), Fail> {
    let mut rows = 0u32;
    for row in TABLE.lines() {
        if let Some((text, wanted)) = row.split_once(" ~ ") {
            let text = with_lines(rt.alloc(), text)?;
            let wanted = with_lines(rt.alloc(), wanted)?;
            let answer = shown(rt.alloc(), text.as_slice())?;
            assert_eq!(rt; answer.as_slice(), wanted.as_slice(), "{row}");
            rows = rows.saturating_add(1);
        }
    }
    assert_eq!(rt; rows, 132);
    Ok(())
}

// An item of this many of a piece between a head and an end.
fn repeated(
    alloc: Global,
    head: &str,
    piece: &str,
    count: usize,
    end: &str,
) -> Result<Vec<u8>, AllocError> {
    let mut text = Vec::new(alloc);
    text.extend_from_slice(head.as_bytes())?;
    for _ in 0..count {
        text.extend_from_slice(piece.as_bytes())?;
    }
    text.extend_from_slice(end.as_bytes())?;
    Ok(text)
}

// An argument in so many names over one argument, the outermost `p`.
fn nested(alloc: Global, count: usize, inside: &str) -> Result<Vec<u8>, AllocError> {
    let mut text = repeated(alloc, "p(", "f(", count, inside)?;
    for _ in 0..count {
        text.push(b')')?;
    }
    text.extend_from_slice(b").")?;
    Ok(text)
}

// Why the item at the start of a text isn't read, None where it is read or nothing is left.
fn why(alloc: Global, text: &[u8]) -> Option<ReadKind> {
    if text.len() >= 1 << 30 {
        return None;
    }
    match read_term(alloc, text, 0) {
        Ok(_) => None,
        Err(fault) => Some(fault.kind),
    }
}

#[test]
fn hostile_items(rt: HostRuntime) -> Result<(), Fail> {
    let alloc = rt.alloc();
    let many = 1_000_000;
    let cases = [
        (
            repeated(alloc, "p", "(", many, ".")?,
            Some(ReadKind::NotATerm),
        ),
        (
            repeated(alloc, "- ", "f(", many, ".")?,
            Some(ReadKind::NotATerm),
        ),
        (repeated(alloc, "[", "a,", many, "b].")?, None),
        (repeated(alloc, "p :- ", "a,", many, "b.")?, None),
        (
            repeated(alloc, "", "\\+ ", many, "b.")?,
            Some(ReadKind::TooNested),
        ),
        (
            repeated(alloc, "a", " => a", many, ".")?,
            Some(ReadKind::TooNested),
        ),
        (
            repeated(alloc, "p(", "f(", 253, "a")?,
            Some(ReadKind::NotATerm),
        ),
    ];
    for (text, wanted) in &cases {
        assert_eq!(rt; why(alloc, text.as_slice()), *wanted);
    }
    Ok(())
}

#[test]
fn a_term_of_depth_256_is_the_deepest(rt: HostRuntime) -> Result<(), Fail> {
    let alloc = rt.alloc();
    let deep = Some(ReadKind::TooNested);
    let cases = [
        (254, "a", None),
        (255, "a", deep),
        (254, "-1", None),
        (254, "[]", None),
        (254, "(a)", deep),
        (253, "(a)", None),
        (252, "a, [b, c | d], (e, f)", None),
        (253, "a, [b, c | d], (e, f)", deep),
        (400_000, "a", deep),
        (400_000, "9223372036854775808", Some(ReadKind::IntTooLarge)),
        (400_000, "f()", Some(ReadKind::NotATerm)),
    ];
    for (count, inside, wanted) in &cases {
        let text = nested(alloc, *count, inside)?;
        assert_eq!(rt;
            why(alloc, text.as_slice()),
            *wanted,
            "{count} around {inside}"
        );
    }
    Ok(())
}

// What the reader answers for the items of a text in turn, up to ten.
fn in_turn(alloc: Global, text: &[u8]) -> Result<Vec<u8>, AllocError> {
    let mut out = Vec::new(alloc);
    let mut at = 0;
    'items: for _ in 0..10 {
        if text.len() >= 1 << 20 || at > text.len() {
            break;
        }
        match read_term(alloc, text, at) {
            Ok(None) => break,
            Ok(Some((term, next))) => {
                let line = term.line;
                write_term(alloc, &mut out, &term)?;
                out.extend_from_slice(format!(in alloc; " {line} {next}; ")?.as_bytes())?;
                at = next;
            }
            Err(fault) => {
                out.extend_from_slice(fault_shown(alloc, &fault)?.as_bytes())?;
                out.extend_from_slice(b"; ")?;
                at = fault.next;
            }
        }
    }
    Ok(out)
}

#[test]
fn items_in_turn(rt: HostRuntime) -> Result<(), Fail> {
    let alloc = rt.alloc();
    let cases = [
        ("", ""),
        (
            ":- module cut.$:- interface.$p('abc",
            ":-(module(cut)) 1 14; :-(interface) 2 28; Unterminated 3 35; ",
        ),
        (
            "a. b c. $$ p($X).$q",
            "a 1 2; NotATerm 1 7; p(X) 3 17; NotATerm 5 19; ",
        ),
        (
            "p(\u{1}). q({). r(\\+). s.",
            "BadChar 1 5; LeftOut 1 11; r(\\+) 1 18; s 1 21; ",
        ),
    ];
    for (text, wanted) in &cases {
        let text = with_lines(alloc, text)?;
        let answer = in_turn(alloc, text.as_slice())?;
        assert_eq!(rt; answer.as_slice(), wanted.as_bytes());
    }
    let bytes = [
        b'p', b'(', 0xff, b')', b'.', b' ', b'\'', 0xc3, b'(', b'\'', b'.',
    ];
    let answer = in_turn(alloc, &bytes)?;
    assert_eq!(rt;
        answer.as_slice(),
        b"NotUtf8 1 5; NotUtf8 1 11; ".as_slice()
    );
    Ok(())
}

// How many items of a text are read and how many are refused, up to a million.
fn counted(alloc: Global, text: &[u8]) -> (u32, u32) {
    let mut read = 0u32;
    let mut refused = 0u32;
    if text.len() >= 1 << 30 {
        return (read, refused);
    }
    let mut walk = Walk::new(text);
    let mut from = Position::START;
    'items: for _ in 0..1_000_000 {
        match read_next(alloc, &mut walk, from) {
            Ok(None) => break,
            Ok(Some(item)) => {
                read = read.saturating_add(1);
                from = item.end;
            }
            Err(fault) => match fault.fault.kind {
                ReadKind::Memory => break,
                _ => {
                    refused = refused.saturating_add(1);
                    from = from.moved(text, fault.fault.next);
                }
            },
        }
    }
    (read, refused)
}

#[test]
fn recovery_is_linear(rt: HostRuntime) -> Result<(), Fail> {
    let alloc = rt.alloc();
    let comments = repeated(alloc, "", "a. /* . ", 200_000, "")?;
    assert_eq!(rt; counted(alloc, comments.as_slice()), (200_000, 200_000));
    let clauses = repeated(alloc, "", "p(X) :- q(X, Y), # r. ", 100_000, "")?;
    assert_eq!(rt; counted(alloc, clauses.as_slice()), (0, 100_000));
    Ok(())
}
