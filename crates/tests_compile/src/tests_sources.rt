use crate::tests::fault_shown;
use mc_base::{Memory, Row, Text};
use mc_compile::{CompileFault, Executable, Given, Query, compile};
use std::alloc::Global;
use std::process::Abort;
use std::test::Fail;

// A row of a table: what it shows, its files, the words of the command without them, and what `compile` answers.
#[derive(Clone, Copy)]
struct Case<'a> {
    name: &'a str,
    files: &'a str,
    words: &'a str,
    wanted: &'a str,
}

// A backquote stands between two files. Each is the name of its module and its items, which stand in the interface as
// long as no item says otherwise. `#` begins a declaration, and `$` stands for the least program of facts. Each item
// stands on line 3. In a goal `^` stands for a line end.
fn case_of(row: &str) -> Option<Case<'_>> {
    let (name, rest) = row.split_once(" ~ ")?;
    let (files, rest) = rest.split_once(" ~ ")?;
    let (words, wanted) = rest.split_once(" ~ ")?;
    Some(Case {
        name,
        files,
        words,
        wanted,
    })
}

// A type, a predicate over it and a fact, behind which the implementation goes on.
const LEAST: &[u8] =
    b":- type t ---> aa ; bb. :- pred p(t::out) is nondet. :- implementation. p(aa).";

fn add_items(text: &mut Vec<u8>, items: &str) -> Result<(), Memory> {
    for byte in items.as_bytes() {
        match *byte {
            b'#' => text.extend_from_slice(b":- ")?,
            b'$' => text.extend_from_slice(LEAST)?,
            other => text.push(other)?,
        }
    }
    Ok(())
}

fn file_of(alloc: Global, file: &str) -> Result<Given, Memory> {
    let (module, items) = match file.split_once(' ') {
        Some(parts) => parts,
        None => (file, ""),
    };
    let mut text = Vec::new(alloc);
    text.extend_from_slice(b":- module ")?;
    text.extend_from_slice(module.as_bytes())?;
    text.extend_from_slice(b".\n:- interface.\n")?;
    add_items(&mut text, items)?;
    Ok(Given {
        name: Text::new(alloc, module.as_bytes())?,
        bytes: Text::new(alloc, text.as_slice())?,
    })
}

fn files_of(alloc: Global, files: &str) -> Result<Row<Given>, Memory> {
    let mut given = Vec::new(alloc);
    for file in files.split('`') {
        given.push(file_of(alloc, file)?)?;
    }
    Row::of(given)
}

// A goal's text, with a full stop where it has none.
fn goal_text(alloc: Global, goal: &str) -> Result<Text, Memory> {
    let mut text = Vec::new(alloc);
    for byte in goal.as_bytes() {
        match *byte {
            b'^' => text.push(b'\n')?,
            other => text.push(other)?,
        }
    }
    if !goal.as_bytes().ends_with(b".") {
        text.extend_from_slice(b" .")?;
    }
    Text::new(alloc, text.as_slice())
}

// The words are `check`, `run`, `query GOAL` or `first GOAL`.
fn compiled(alloc: Global, case: &Case<'_>) -> Result<Executable, CompileFault> {
    let files = files_of(alloc, case.files)?;
    match case.words.split_once(' ') {
        Some((word, goal)) => {
            let text = goal_text(alloc, goal)?;
            let first = word == "first";
            compile(alloc, &files, Some(&Query { text, first }), false)
        }
        None => compile(alloc, &files, None, case.words == "run"),
    }
}

// What `compile` answers; the query's number is behind the last file's.
fn answer(alloc: Global, case: &Case<'_>) -> Result<Vec<u8>, Fail> {
    match compiled(alloc, case) {
        Ok(_) => Ok(b"compiled".to_vec(alloc)?),
        Err(fault) => fault_shown(alloc, fault),
    }
}

// Holds each row of a table, and answers how many there are.
fn rows_hold(rt: &impl Abort, alloc: Global, table: &str) -> Result<u32, Fail> {
    let mut rows = 0u32;
    for row in table.lines() {
        if let Some(case) = case_of(row) {
            let answer = answer(alloc, &case)?;
            assert_eq!(rt; answer.as_slice(), case.wanted.as_bytes(), "{}", case.name);
            rows = rows.saturating_add(1);
        }
    }
    Ok(rows)
}

const TYPES: &str = "\
least program ~ a $ ~ check ~ compiled\n\
no items ~ a ~ check ~ compiled\n\
second type ~ a $ #type u ---> cc ; dd. ~ check ~ compiled\n\
type with a parameter ~ a $ #type u(T) ---> cc ; dd. ~ check ~ compiled\n\
constant with an argument ~ a $ #type u ---> cc(t) ; dd. ~ check ~ compiled\n\
last constant with an argument ~ a $ #type u ---> cc ; dd(t). ~ check ~ compiled\n\
constant of one byte ~ a $ #type u ---> c. ~ check ~ compiled\n\
last constant of one byte ~ a $ #type u ---> cc ; d. ~ check ~ compiled\n\
constant of no byte ~ a $ #type u ---> ''. ~ check ~ compiled\n\
constant of one letter and two bytes ~ a $ #type u ---> 'é'. ~ check ~ compiled\n\
constant in quotes ~ a $ #type u ---> 'C, c'. ~ check ~ compiled\n\
empty list as a constant ~ a $ #type u ---> []. ~ check ~ compiled\n\
empty list in quotes as a constant ~ a $ #type u ---> '[]'. ~ check ~ compiled\n\
empty list beside a constant ~ a $ #type u ---> cons ; []. ~ check ~ compiled\n\
empty list twice in a type ~ a $ #type u ---> [] ; '[]'. ~ check ~ 0:3 N5\n\
empty list in two types ~ a $ #type u ---> []. #type v ---> '[]'. ~ check ~ compiled\n\
empty list with an argument ~ a $ #type u ---> '[]'(t). ~ check ~ compiled\n\
list over a list as a constant ~ a $ #type u ---> [t | t]. ~ check ~ compiled\n\
one character of two bytes in types of two modules ~ a $ #type u ---> 'é'.`b #type u ---> 'é'. ~ check ~ compiled\n\
constant of symbols ~ a $ #type u ---> (++). ~ check ~ compiled\n\
one name twice in a type ~ a $ #type u ---> cc ; cc. ~ check ~ 0:3 N5\n\
one name in two types of a module ~ a $ #type u ---> aa. ~ check ~ compiled\n\
one name in types of two modules ~ a $`b #type u ---> bb. ~ check ~ compiled\n\
other names in types of two modules ~ a $`b #type u ---> cc. ~ check ~ compiled\n\
types of one name in two modules ~ a $`b #type t ---> cc. ~ check ~ compiled\n\
abstract type ~ a #type u. $ #type u ---> cc. ~ check ~ compiled\n\
abstract type without a definition ~ a #type u. $ ~ check ~ 0:3 N6\n\
equivalence type ~ a $ #type u == t. ~ check ~ compiled\n\
inst of one name ~ a $ #inst i == ground. ~ check ~ compiled\n\
bound inst ~ a $ #inst i == bound(aa). ~ check ~ compiled\n\
mode ~ a $ #mode m == out. ~ check ~ compiled\n\
mode by insts ~ a $ #mode m == free >> ground. ~ check ~ compiled\n";

const PREDICATES: &str = "\
two arguments ~ a $ #pred q(t::out, t::out) is nondet. q(aa, bb). ~ check ~ compiled\n\
two predicates of one name ~ a $ #pred p(t::out, t::out) is nondet. p(aa, bb). ~ check ~ compiled\n\
declared behind its fact ~ a $ q(bb). #pred q(t::out) is nondet. ~ check ~ compiled\n\
without arguments ~ a $ #pred q is nondet. q. ~ check ~ compiled\n\
without facts ~ a $ #pred q(t::out) is nondet. ~ check ~ 0:3 N6\n\
declared twice ~ a $ #pred p(t::out) is nondet. ~ check ~ 0:3 N5\n\
input ~ a $ #pred q(t::in) is nondet. q(aa). ~ check ~ compiled\n\
input behind an output ~ a $ #pred q(t::out, t::in) is nondet. q(aa, bb). ~ check ~ compiled\n\
destructive input ~ a $ #pred q(t::di) is nondet. q(aa). ~ check ~ 0:3 M8\n\
unique output ~ a $ #pred q(t::uo) is nondet. q(aa). ~ check ~ 0:3 M8\n\
output of an inst ~ a $ #pred q(t::out(ground)) is nondet. q(aa). ~ check ~ compiled\n\
output by insts ~ a $ #pred q(t::(free >> ground)) is nondet. q(aa). ~ check ~ compiled\n\
no mode ~ a $ #pred q(t). q(aa). ~ check ~ 0:3 M5\n\
determinism without a mode ~ a $ #pred q(t) is nondet. q(aa). ~ check ~ 0:3 S6\n\
mode of its own ~ a $ #pred q(t). #mode q(out) is nondet. q(aa). ~ check ~ compiled\n\
further mode ~ a $ #mode p(in) is semidet. ~ check ~ compiled\n\
builtin type ~ a $ #pred q(int::out) is nondet. q(1). ~ check ~ compiled\n\
type variable ~ a $ #pred q(T::out) is nondet. q(aa). ~ check ~ 0:3 T1\n\
type that nothing visible has ~ a $ #pred q(u::out) is nondet. q(aa). ~ check ~ 0:3 N4\n\
qualified type ~ a $ #pred q(a.t::out) is nondet. q(aa). ~ check ~ compiled\n\
no determinism ~ a $ #pred q(t::out). q(aa). ~ check ~ compiled\n\
det ~ a $ #pred q(t::out) is det. q(aa). ~ check ~ compiled\n\
semidet ~ a $ #pred q(t::out) is semidet. q(aa). ~ check ~ compiled\n\
multi ~ a $ #pred q(t::out) is multi. q(aa). ~ check ~ compiled\n\
cc_multi ~ a $ #pred q(t::out) is cc_multi. q(aa). ~ check ~ compiled\n\
cc_nondet ~ a $ #pred q(t::out) is cc_nondet. q(aa). ~ check ~ compiled\n\
failure ~ a $ #pred q(t::out) is failure. q(aa). ~ check ~ 0:3 E1\n\
erroneous ~ a $ #pred q(t::out) is erroneous. q(aa). ~ check ~ 0:3 E1\n\
function ~ a $ #func f(t) = t. f(X) = X. ~ check ~ compiled\n\
function without arguments ~ a $ #func f = t. f = aa. ~ check ~ compiled\n";

const CLAUSES: &str = "\
second fact ~ a $ p(bb). ~ check ~ compiled\n\
one fact twice ~ a $ p(aa). ~ check ~ compiled\n\
rule ~ a $ p(X) :- p(X). ~ check ~ compiled\n\
rule without a condition ~ a $ p(bb) :- true. ~ check ~ compiled\n\
variable ~ a $ p(X). ~ check ~ 0:3 M3\n\
variable without a name ~ a $ p(_). ~ check ~ 0:3 M3\n\
integer ~ a $ p(1). ~ check ~ 0:3 T1\n\
string ~ a $ p(\"aa\"). ~ check ~ 0:3 T1\n\
character ~ a $ p(x). ~ check ~ 0:3 T1\n\
constant that may be a character ~ a $ #type u ---> 'é'. #pred q(u::out) is nondet. q('é'). ~ check ~ compiled\n\
qualified constant of one character ~ a $ #type u ---> 'é'. #pred q(u::out) is nondet. q(a.'é'). ~ check ~ compiled\n\
imported constant of one character ~ a #import_module b. #pred q(u::out) is nondet. #implementation. q('é').`b #type u ---> 'é'. ~ check ~ compiled\n\
constant of one character and of another type ~ a $ #type u ---> 'é'. p('é'). ~ check ~ 0:3 T1\n\
character of two bytes ~ a $ p('é'). ~ check ~ 0:3 T1\n\
empty list ~ a $ #type u ---> [] ; cons. #pred q(u::out) is nondet. q([]). q(cons). ~ check ~ compiled\n\
empty list in quotes ~ a $ #type u ---> []. #pred q(u::out) is nondet. q('[]'). ~ check ~ compiled\n\
empty list that is declared in quotes ~ a $ #type u ---> '[]'. #pred q(u::out) is nondet. q([]). ~ check ~ compiled\n\
qualified empty list ~ a $ #type u ---> []. #pred q(u::out) is nondet. q(a.'[]'). ~ check ~ compiled\n\
imported empty list ~ a #import_module b. #pred q(u::out) is nondet. #implementation. q([]).`b #type u ---> []. ~ check ~ compiled\n\
empty list of another type ~ a $ #type u ---> []. p([]). ~ check ~ 0:3 T1\n\
empty list of no type ~ a $ p([]). ~ check ~ 0:3 N4\n\
empty list over an argument ~ a $ #type u ---> []. #pred q(u::out) is nondet. q('[]'(aa)). ~ check ~ 0:3 N4\n\
list of a constant ~ a $ #type u ---> []. #pred q(u::out) is nondet. q([aa]). ~ check ~ 0:3 N4\n\
constant in quotes in a fact ~ a $ p('bb'). ~ check ~ compiled\n\
constant in brackets ~ a $ p((bb)). ~ check ~ compiled\n\
qualified constant ~ a $ p(a.bb). ~ check ~ compiled\n\
constant of no type ~ a $ p(cc). ~ check ~ 0:3 N4\n\
constant over an argument ~ a $ p(aa(bb)). ~ check ~ 0:3 N4\n\
constant of the second type ~ a $ #type u ---> cc. #pred q(u::out) is nondet. q(cc). ~ check ~ compiled\n\
constant of a later type ~ a $ #type u ---> cc. p(cc). ~ check ~ 0:3 T1\n\
constant of an earlier type ~ a $ #type u ---> cc. #pred q(u::out) is nondet. q(aa). ~ check ~ 0:3 T1\n\
constant and predicate of one name ~ a $ #type u ---> qq. #pred qq(u::out) is nondet. qq(qq). ~ check ~ compiled\n\
constants of two types ~ a $ #type u ---> cc. #pred q(t::out, u::out) is nondet. q(aa, cc). ~ check ~ compiled\n\
constants of two types the other way ~ a $ #type u ---> cc. #pred q(t::out, u::out) is nondet. q(cc, aa). ~ check ~ 0:3 T1\n\
fact of another arity ~ a $ p(aa, bb). ~ check ~ 0:3 N7\n\
fact of no predicate ~ a $ q(aa). ~ check ~ 0:3 N7\n\
qualified fact ~ a $ a.p(bb). ~ check ~ 0:3 S6\n\
fact of an imported predicate ~ a #import_module b. $ q(cc).`b #type u ---> cc. #pred q(u::out) is nondet. #implementation. q(cc). ~ check ~ 0:3 N7\n\
fact of an own predicate beside an imported one ~ a #import_module b. $ p(bb).`b #type u ---> cc. #pred p(u::out) is nondet. #implementation. p(cc). ~ check ~ compiled\n\
fact in the interface ~ a p(aa). $ ~ check ~ 0:3 N1\n";

const MODULES: &str = "\
import of a given module ~ a #import_module b. $`b ~ check ~ compiled\n\
import of the module itself ~ a #import_module a. $ ~ check ~ compiled\n\
import in the implementation ~ a $ #import_module b.`b ~ check ~ compiled\n\
import of a module of the library ~ a #import_module list. $ ~ check ~ compiled\n\
import of the library's last module ~ a #import_module require. $ ~ check ~ compiled\n\
import of a given module and of the library's ~ a #import_module b, bool. $`b ~ check ~ compiled\n\
import in the second file of the library's ~ a $`b #import_module int. ~ check ~ compiled\n\
import of no module ~ a #import_module b. $ ~ check ~ 0:3 N3\n\
use of a given module ~ a #use_module b. $`b ~ check ~ compiled\n\
use of a module of the library ~ a #use_module list. $ ~ check ~ compiled\n\
inline ~ a $ #pragma inline(p/1). ~ check ~ compiled\n\
no_inline ~ a $ #pragma no_inline(p/1). ~ check ~ compiled\n\
pragma that is left out ~ a $ #pragma memo(p/1). ~ check ~ 0:3 X1\n\
end of the module ~ a $ #end_module a. ~ check ~ compiled\n\
sections in another order ~ a $ #interface. #type u ---> cc. #implementation. p(bb). ~ check ~ compiled\n\
type of another module ~ a #import_module b. #pred q(u::out) is nondet. #implementation. q(cc).`b #type u ---> cc. ~ check ~ compiled\n\
qualified type of another module ~ a #import_module b. #pred q(b.u::out) is nondet. #implementation. q(b.cc).`b #type u ---> cc. ~ check ~ compiled\n\
type of a used module ~ a #use_module b. #pred q(b.u::out) is nondet. #implementation. q(b.cc).`b #type u ---> cc. ~ check ~ compiled\n\
bare type of a used module ~ a #use_module b. #pred q(u::out) is nondet. #implementation. q(b.cc).`b #type u ---> cc. ~ check ~ 0:3 N4\n\
bare constant of a used module ~ a #use_module b. #pred q(b.u::out) is nondet. #implementation. q(cc).`b #type u ---> cc. ~ check ~ 0:3 N4\n\
type of a module that comes first ~ b #type u ---> cc.`a #import_module b. #pred q(u::out) is nondet. #implementation. q(cc). ~ check ~ compiled\n\
type in another's implementation ~ a #import_module b. #pred q(u::out) is nondet. #implementation. q(cc).`b #implementation. #type u ---> cc. ~ check ~ 0:3 N4, 0:3 N4\n\
type of the second of three modules ~ a $`b #type u ---> cc.`c #import_module b. #pred q(u::out) is nondet. #implementation. q(cc). ~ check ~ compiled\n\
type of two modules ~ a #import_module b, c. #pred q(u::out) is nondet. #implementation. q(cc).`b #type u ---> cc.`c #type u ---> dd. ~ check ~ 0:3 N8\n\
qualified type of two modules ~ a #import_module b, c. #pred q(c.u::out) is nondet. #implementation. q(dd).`b #type u ---> cc.`c #type u ---> dd. ~ check ~ compiled\n\
constant of the other of two modules ~ a #import_module b, c. #pred q(c.u::out) is nondet. #implementation. q(cc).`b #type u ---> cc.`c #type u ---> dd. ~ check ~ 0:3 T1\n\
module with full stops ~ a.b $`c #import_module a.b. #pred q(a.b.t::out) is nondet. #implementation. q(a.b.aa). ~ check ~ compiled\n\
module that is given twice ~ a $`a $ ~ check ~ 1:1 N2\n";

const GOALS: &str = "\
variable ~ a $ ~ query p(X) ~ compiled\n\
full stop ~ a $ ~ query p(Who). ~ compiled\n\
second line ~ a $ ~ query ^p(X) ~ compiled\n\
third line behind a comment ~ a $ ~ query % which ones^^p(X) ~ compiled\n\
second line behind two files ~ a $`b ~ query ^p(X) ~ compiled\n\
variable on another line ~ a $ ~ query p(^X^) ~ compiled\n\
no predicate on the second line ~ a $ ~ query ^q(X) ~ 1:2 N4\n\
qualified call ~ a $ ~ query a.p(X) ~ compiled\n\
two variables ~ a $ #pred q(t::out, t::out) is nondet. q(aa, bb). ~ query q(Y, X) ~ compiled\n\
one variable twice ~ a $ #pred q(t::out, t::out) is nondet. q(aa, bb). ~ query q(X, X) ~ compiled\n\
variable without a name ~ a $ ~ query p(_) ~ compiled\n\
variable that begins with an underscore ~ a $ ~ query p(_X) ~ compiled\n\
underscore behind a letter ~ a $ ~ query p(X_) ~ compiled\n\
constant ~ a $ ~ query p(aa) ~ compiled\n\
constant and a variable ~ a $ #pred q(t::out, t::out) is nondet. q(aa, bb). ~ query q(X, aa) ~ compiled\n\
predicate of that arity ~ a $ #pred p(t::out, t::out) is nondet. p(aa, bb). ~ query p(X, Y) ~ compiled\n\
conjunction ~ a $ ~ query p(X), p(Y) ~ compiled\n\
disjunction ~ a $ ~ query p(X) ; p(X) ~ compiled\n\
negation ~ a $ ~ query not p(X) ~ compiled\n\
quantified goal ~ a $ ~ query some [X] p(X) ~ compiled\n\
equation ~ a $ ~ query X = aa ~ compiled\n\
true ~ a $ ~ query true ~ compiled\n\
fail ~ a $ ~ query fail ~ compiled\n\
another arity ~ a $ ~ query p(X, Y) ~ 1:1 N4\n\
no predicate ~ a $ ~ query q(X) ~ 1:1 N4\n\
no goal ~ a $ ~ query p( ~ 1:1 S5\n\
library's predicate ~ a #import_module list. $ ~ query member(X, Y) ~ 1:1 M1\n\
library's predicate that isn't imported ~ a $ ~ query list.member(X, Y) ~ 1:1 N4\n\
imported predicate ~ a #import_module b.`b $ ~ query p(X) ~ compiled\n\
qualified imported predicate ~ a #import_module b.`b $ ~ query b.p(X) ~ compiled\n\
bare used predicate ~ a #use_module b.`b $ ~ query p(X) ~ 2:1 N4\n\
qualified used predicate ~ a #use_module b.`b $ ~ query b.p(X) ~ compiled\n\
predicate that isn't imported ~ a`b $ ~ query b.p(X) ~ 2:1 N4\n\
predicate of another's implementation ~ a #import_module b.`b #implementation. #type t ---> aa. #pred p(t::out) is nondet. p(aa). ~ query p(X) ~ 2:1 N4\n\
predicate of the first file's implementation ~ a #implementation. #type t ---> aa. #pred p(t::out) is nondet. p(aa). ~ query p(X) ~ compiled\n\
predicate of two modules ~ a #import_module b. $`b #type u ---> cc. #pred p(u::out) is nondet. #implementation. p(cc). ~ query p(X) ~ 2:1 T2\n\
qualified predicate of two modules ~ a #import_module b. $`b #type u ---> cc. #pred p(u::out) is nondet. #implementation. p(cc). ~ query b.p(X) ~ compiled\n\
query beside an equivalence type ~ a $ #type u == t. ~ query p(X) ~ compiled\n";

const WANTED: &str = "\
first answer ~ a $ ~ first p(X) ~ compiled\n\
first answer of no predicate ~ a $ ~ first q(X) ~ 1:1 N4\n\
run ~ a $ ~ run ~ 0:1 E4\n\
run of a faulty program ~ a $ p(cc). ~ run ~ 0:3 N4\n\
fault beside an equivalence type ~ a $ #type u == t. p(cc). ~ check ~ 0:3 N4\n\
fault behind an equivalence type ~ a $ #type u == t.`b p(cc). ~ check ~ 1:3 N1\n\
clause of another type beside an equivalence type ~ a $ #type u == t. #type v ---> cc. p(cc). ~ check ~ 0:3 T1\n\
query of another type beside an equivalence type ~ a $ #type u == t. ~ query p(1) ~ 1:1 T1\n";

#[test]
fn types_are_compiled(rt: HostRuntime) -> Result<(), Fail> {
    assert_eq!(rt; rows_hold(&rt, rt.alloc(), TYPES)?, 32);
    Ok(())
}

#[test]
fn predicates_are_compiled(rt: HostRuntime) -> Result<(), Fail> {
    assert_eq!(rt; rows_hold(&rt, rt.alloc(), PREDICATES)?, 30);
    Ok(())
}

#[test]
fn clauses_are_compiled(rt: HostRuntime) -> Result<(), Fail> {
    assert_eq!(rt; rows_hold(&rt, rt.alloc(), CLAUSES)?, 40);
    Ok(())
}

#[test]
fn modules_are_compiled(rt: HostRuntime) -> Result<(), Fail> {
    assert_eq!(rt; rows_hold(&rt, rt.alloc(), MODULES)?, 28);
    Ok(())
}

#[test]
fn goals_are_compiled(rt: HostRuntime) -> Result<(), Fail> {
    assert_eq!(rt; rows_hold(&rt, rt.alloc(), GOALS)?, 38);
    Ok(())
}

#[test]
fn the_first_faulty_phase_is_told(rt: HostRuntime) -> Result<(), Fail> {
    assert_eq!(rt; rows_hold(&rt, rt.alloc(), WANTED)?, 8);
    Ok(())
}
