// The tests of mc_term_parser.
use mc_base::{Memory, Row, Text};
use mc_operators::{infix, prefix};
use mc_term_data::{Node, Term};
use mc_term_parser::{Lexeme, Reading, read};
use std::alloc::{AllocError, Global};
use std::test::Fail;

// Names, each with its row as an infix and as a prefix operator.
const OPERATORS: &str = "\
^ Some((99, Xfy)) None\n\
* Some((400, Yfx)) None\n\
/ Some((400, Yfx)) None\n\
// Some((400, Yfx)) None\n\
div Some((400, Yfx)) None\n\
>> Some((400, Yfx)) None\n\
mod Some((400, Xfx)) None\n\
rem Some((400, Xfx)) None\n\
+ Some((500, Yfx)) Some((500, Fx))\n\
- Some((500, Yfx)) Some((200, Fx))\n\
++ Some((500, Xfy)) None\n\
for Some((500, Xfx)) None\n\
:= Some((650, Xfx)) None\n\
= Some((700, Xfx)) None\n\
\\= Some((700, Xfx)) None\n\
< Some((700, Xfx)) None\n\
> Some((700, Xfx)) None\n\
=< Some((700, Xfx)) None\n\
>= Some((700, Xfx)) None\n\
== Some((700, Xfx)) None\n\
is Some((701, Xfx)) None\n\
=> Some((920, Xfy)) None\n\
<= Some((920, Xfy)) None\n\
<=> Some((920, Xfy)) None\n\
, Some((1000, Xfy)) None\n\
& Some((1025, Xfy)) None\n\
-> Some((1050, Xfy)) None\n\
; Some((1100, Xfy)) None\n\
then Some((1150, Xfx)) None\n\
else Some((1170, Xfy)) None\n\
:: Some((1175, Xfx)) None\n\
where Some((1175, Xfx)) None\n\
---> Some((1179, Xfy)) None\n\
:- Some((1200, Xfx)) Some((1200, Fx))\n\
--> Some((1200, Xfx)) None\n\
! None Some((40, Fx))\n\
!. None Some((40, Fx))\n\
!: None Some((40, Fx))\n\
pred None Some((800, Fx))\n\
func None Some((800, Fx))\n\
impure None Some((800, Fy))\n\
semipure None Some((800, Fy))\n\
not None Some((900, Fy))\n\
\\+ None Some((900, Fy))\n\
some None Some((950, Fxy))\n\
all None Some((950, Fxy))\n\
if None Some((1160, Fx))\n\
type None Some((1180, Fx))\n\
solver None Some((1181, Fy))\n\
module None Some((1199, Fx))\n\
import_module None Some((1199, Fx))\n\
use_module None Some((1199, Fx))\n\
end_module None Some((1199, Fx))\n\
inst None Some((1199, Fx))\n\
mode None Some((1199, Fx))\n\
pragma None Some((1199, Fx))\n\
include_module None Some((1199, Fx))\n\
typeclass None Some((1199, Fx))\n\
instance None Some((1199, Fx))\n\
promise None Some((1199, Fx))\n\
initialise None Some((1199, Fx))\n\
foo None None\n\
-->> None None\n\
m None None\n\
mutable None None\n\
[] None None\n\
~ None None\n\
";

#[test]
fn operators(rt: HostRuntime) -> Result<(), Fail> {
    let mut rows = 0u32;
    for row in OPERATORS.lines() {
        if let Some((name, _)) = row.split_once(" ") {
            let infix = infix(name.as_bytes());
            let prefix = prefix(name.as_bytes());
            let line = format!(in rt.alloc(); "{name} {infix:?} {prefix:?}")?;
            assert_eq!(rt; line.as_str(), row);
            rows = rows.saturating_add(1);
        }
    }
    assert_eq!(rt; rows, 67);
    assert_eq!(rt; infix(b""), None);
    assert_eq!(rt; prefix(b""), None);
    Ok(())
}

// A token by its text, on a line. `<(` is a bracket directly behind a name, a name in quotes has
// just the first one, and so has a string.
fn lexeme(alloc: Global, piece: &str, line: u32) -> Result<Lexeme, Memory> {
    match piece {
        "(" => Ok(Lexeme::Open(line)),
        "<(" => Ok(Lexeme::OpenCt(line)),
        ")" => Ok(Lexeme::Close),
        "[" => Ok(Lexeme::ListOpen(line)),
        "]" => Ok(Lexeme::ListClose),
        "|" => Ok(Lexeme::Bar),
        "," => Ok(Lexeme::Comma),
        "." => Ok(Lexeme::Dot),
        _ => named(alloc, piece, line),
    }
}

fn named(alloc: Global, piece: &str, line: u32) -> Result<Lexeme, Memory> {
    match piece.as_bytes() {
        [b'\'', name @ ..] => Ok(Lexeme::Word(Text::new(alloc, name)?, true, line)),
        [b'"', bytes @ ..] => Ok(Lexeme::Str(Text::new(alloc, bytes)?, line)),
        [b'A'..=b'Z', ..] => Ok(Lexeme::Var(Text::new(alloc, piece.as_bytes())?, line)),
        [b'0'..=b'9', ..] => match piece.parse() {
            Ok(value) => Ok(Lexeme::Int(value, line)),
            Err(_) => Err(Memory),
        },
        _ => match piece.split_once("..") {
            Some((module, name)) => path(alloc, module, name, line),
            None => Ok(Lexeme::Word(Text::new(alloc, piece.as_bytes())?, false, line)),
        },
    }
}

// A name of two parts.
fn path(alloc: Global, module: &str, name: &str, line: u32) -> Result<Lexeme, Memory> {
    let mut parts = Row::new(alloc);
    parts.push(Text::new(alloc, module.as_bytes())?)?;
    parts.push(Text::new(alloc, name.as_bytes())?)?;
    Ok(Lexeme::Path(parts, line))
}

// The tokens of a text with a blank between them, the first on line 1, each on the line after that
// of the one before.
fn lexemes(alloc: Global, text: &str) -> Result<Vec<Lexeme>, Memory> {
    let mut tokens = Vec::new(alloc);
    let mut line = 0u32;
    for piece in text.split(' ') {
        line = line.saturating_add(1);
        tokens.push(lexeme(alloc, piece, line)?)?;
    }
    Ok(tokens)
}

// What is written of a term: the term without operators, and the lines of the terms in it, each
// before its parts'.
#[derive(Drop)]
struct Written {
    text: Vec<u8>,
    lines: Vec<u32>,
}

// Writes the terms with a comma between them.
#[cycle(written)]
fn write_all(alloc: Global, out: &mut Written, terms: &[Term]) -> Result<(), AllocError> {
    let mut first = true;
    for term in terms {
        if !first {
            out.text.push(b',')?;
        }
        first = false;
        write_term(alloc, out, term)?;
    }
    Ok(())
}

fn write_name(out: &mut Written, parts: &[Text]) -> Result<(), AllocError> {
    let mut first = true;
    for part in parts {
        if !first {
            out.text.push(b'.')?;
        }
        first = false;
        out.text.extend_from_slice(part.bytes())?;
    }
    Ok(())
}

// Writes a term; a conjunction is `&(..)`, a disjunction `|(..)`.
#[cycle(written)]
fn write_term(alloc: Global, out: &mut Written, term: &Term) -> Result<(), AllocError> {
    out.lines.push(term.line)?;
    match &term.node {
        Node::Var(name) => return out.text.extend_from_slice(name.bytes()),
        Node::Int(value) => {
            return out
                .text
                .extend_from_slice(format!(in alloc; "{value}")?.as_bytes());
        }
        Node::Str(bytes) => {
            out.text.push(b'"')?;
            return out.text.extend_from_slice(bytes.bytes());
        }
        Node::App(name, args) => {
            write_name(out, name.as_slice())?;
            if args.is_empty() {
                return Ok(());
            }
            out.text.push(b'(')?;
            write_all(alloc, out, args.as_slice())?;
        }
        Node::List(items, tail) => {
            out.text.extend_from_slice(b"[(")?;
            write_all(alloc, out, items.as_slice())?;
            if let Some(tail) = tail {
                out.text.push(b'|')?;
                write_term(alloc, out, tail)?;
            }
        }
        Node::Conj(parts) => {
            out.text.extend_from_slice(b"&(")?;
            write_all(alloc, out, parts.as_slice())?;
        }
        Node::Disj(parts) => {
            out.text.extend_from_slice(b"|(")?;
            write_all(alloc, out, parts.as_slice())?;
        }
    }
    out.text.extend_from_slice(b")")
}

// What the reader answers for the tokens of a text.
fn answer(alloc: Global, text: &str) -> Result<Option<Reading>, Memory> {
    let tokens = lexemes(alloc, text)?;
    read(alloc, tokens.as_slice())
}

// The term that the tokens of a text stand for and its depth.
fn shown(alloc: Global, text: &str) -> Result<Vec<u8>, Memory> {
    let mut out = Written {
        text: Vec::new(alloc),
        lines: Vec::new(alloc),
    };
    match answer(alloc, text)? {
        None => out.text.extend_from_slice(b"none")?,
        Some(reading) => {
            write_term(alloc, &mut out, &reading.term)?;
            let depth = reading.depth;
            out.text
                .extend_from_slice(format!(in alloc; " {depth}")?.as_bytes())?;
            if let Some(line) = reading.too_large {
                out.text
                    .extend_from_slice(format!(in alloc; " too large on {line}")?.as_bytes())?;
            }
        }
    }
    Ok(out.text)
}

// Tokens, and the term that they stand for with its depth.
const READINGS: &str = "\
a - b - c ~ -(-(a,b),c) 3\n\
a ++ b ++ c ~ ++(a,++(b,c)) 3\n\
a ++ b + c ~ ++(a,+(b,c)) 3\n\
a + b ++ c ~ none\n\
a * b mod c ~ none\n\
a mod b mod c ~ none\n\
a mod b * c ~ *(mod(a,b),c) 3\n\
a = b = c ~ none\n\
a ^ b ^ c ~ ^(a,^(b,c)) 3\n\
( a ^ b ) ^ c ~ ^(^(a,b),c) 4\n\
a :- b , c ; d ~ :-(a,|(&(b,c),d)) 4\n\
a -> b ; c ~ |(->(a,b),c) 3\n\
a , b , c ~ &(a,b,c) 2\n\
a , ( b , c ) ~ &(a,&(b,c)) 4\n\
( a , b ) , c ~ &(&(a,b),c) 4\n\
a ; b ; c ~ |(a,b,c) 2\n\
a ; b , c ; d ~ |(a,&(b,c),d) 3\n\
a ', b ~ &(a,b) 2\n\
a '; b ~ |(a,b) 2\n\
p <( a ', b ) ~ p(&(a,b)) 3\n\
p <( a '; b , c ) ~ p(|(a,b),c) 3\n\
p <( a , b ) ~ p(a,b) 2\n\
p <( ) ~ none\n\
p ( a ) ~ none\n\
P <( a ) ~ none\n\
- 1 ~ -1 1\n\
'- 1 ~ -1 1\n\
- - 1 ~ -(-1) 2\n\
- - a ~ none\n\
! - 1 ~ !(-1) 2\n\
- ( 1 ) ~ -(1) 3\n\
- <( 1 ) ~ -(1) 2\n\
a - 1 ~ -(a,1) 2\n\
a - - 1 ~ -(a,-1) 2\n\
a - ( 1 , 2 ) ~ -(a,&(1,2)) 4\n\
a - <( 1 , 2 ) ~ -(a,&(1,2)) 4\n\
a ( - 1 ) ~ none\n\
- = x ~ =(-,x) 2\n\
- '= x ~ none\n\
- ~ - 1\n\
p <( - , + ) ~ p(-,+) 2\n\
p <( :- , X ) ~ p(:-,X) 2\n\
p <( :- a ) ~ p(:-(a)) 3\n\
- mod ~ none\n\
mod mod mod ~ mod(mod,mod) 2\n\
a mod ~ none\n\
a = \\+ b ~ none\n\
a = \\+ ~ =(a,\\+) 2\n\
a = ( \\+ b ) ~ =(a,\\+(b)) 4\n\
\\+ \\+ a ~ \\+(\\+(a)) 3\n\
not a , b ~ &(not(a),b) 3\n\
:- :- a ~ none\n\
some [ X ] p <( X ) , q ~ &(some([(X),p(X)),q) 4\n\
some [ X ] - p ~ none\n\
some [ X ] ( - p ) ~ some([(X),-(p)) 4\n\
some [ X ] then ~ none\n\
some a ~ none\n\
some ~ some 1\n\
not some [ X ] p ~ none\n\
all [ X ] p => q ~ all([(X),=>(p,q)) 3\n\
m..p <( X ) ~ m.p(X) 2\n\
m..p ~ m.p 1\n\
- m..mod ~ -(m.mod) 2\n\
a m..mod b ~ none\n\
a . b ~ none\n\
[ ] ~ [() 1\n\
[ a , b ] ~ [(a,b) 2\n\
[ a | b ] ~ [(a|b) 2\n\
[ a , b | [ c ] ] ~ [(a,b|[(c)) 3\n\
[ a | b , c ] ~ none\n\
[ | a ] ~ none\n\
[ a , ] ~ none\n\
[ a :- b | c ] ~ [(:-(a,b)|c) 3\n\
( a ~ none\n\
a ) ~ none\n\
( ) ~ none\n\
( ( a ) ) ~ a 3\n\
a b ~ none\n\
X Y ~ none\n\
f <( a ) <( b ) ~ none\n\
X = \"x ~ =(X,\"x) 2\n\
9223372036854775807 ~ 9223372036854775807 1\n\
9223372036854775808 ~ 0 1 too large on 1\n\
- 9223372036854775808 ~ -9223372036854775808 1\n\
- ( 9223372036854775808 ) ~ -(0) 3 too large on 3\n\
[ 1 , 9223372036854775808 | 9223372036854775809 ] ~ [(1,0|0) 2 too large on 4\n\
- 9223372036854775809 ~ 0 1 too large on 1\n\
";

#[test]
fn readings(rt: HostRuntime) -> Result<(), Fail> {
    let mut rows = 0u32;
    for row in READINGS.lines() {
        if let Some((text, wanted)) = row.split_once(" ~ ") {
            let answer = shown(rt.alloc(), text)?;
            assert_eq!(rt; answer.as_slice(), wanted.as_bytes(), "{row}");
            rows = rows.saturating_add(1);
        }
    }
    assert_eq!(rt; rows, 87);
    assert!(rt; read(rt.alloc(), &[])?.is_none());
    Ok(())
}

#[test]
fn a_term_has_the_line_of_its_first_token(rt: HostRuntime) -> Result<(), Fail> {
    let cases = [
        ("a - b = c", [1, 1, 1, 3, 5, 0]),
        ("- 1 + f <( X )", [1, 1, 4, 6, 0, 0]),
        ("( a , b ) ; c", [1, 1, 2, 4, 7, 0]),
        ("[ a , b | ( c ) ]", [1, 2, 4, 6, 0, 0]),
        ("some [ X ] \\+ m..p", [1, 2, 3, 5, 6, 0]),
    ];
    for (text, wanted) in &cases {
        let mut out = Written {
            text: Vec::new(rt.alloc()),
            lines: Vec::new(rt.alloc()),
        };
        if let Some(reading) = answer(rt.alloc(), text)? {
            write_term(rt.alloc(), &mut out, &reading.term)?;
        }
        out.lines.resize(wanted.len(), 0)?;
        assert_eq!(rt; out.lines.as_slice(), wanted.as_slice(), "{text}");
    }
    Ok(())
}

// A name over one argument, this often around a name.
fn nested(alloc: Global, times: u32) -> Result<Option<Reading>, Memory> {
    let mut tokens = Vec::new(alloc);
    for _ in 0..times {
        tokens.push(lexeme(alloc, "f", 1)?)?;
        tokens.push(lexeme(alloc, "<(", 1)?)?;
    }
    tokens.push(lexeme(alloc, "a", 1)?)?;
    for _ in 0..times {
        tokens.push(Lexeme::Close)?;
    }
    read(alloc, tokens.as_slice())
}

#[test]
fn every_depth_above_256_is_257(rt: HostRuntime) -> Result<(), Fail> {
    for (times, wanted) in [(254, 255), (255, 256), (256, 257), (257, 257), (5_000, 257)] {
        if let Some(reading) = nested(rt.alloc(), times)? {
            assert_eq!(rt; reading.depth, wanted, "{times} times");
            let kept = wanted.min(reading.term.depth());
            assert_eq!(rt; kept == wanted, wanted <= 256, "{times} times");
        } else {
            assert!(rt; false, "{times} times");
        }
    }
    Ok(())
}
