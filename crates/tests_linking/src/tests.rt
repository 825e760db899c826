use mc_base::{Memory, Row, Text};
use mc_decl_syntax::{Entry, ItemsFault};
use mc_items::read_items;
use mc_modules::{Linking, goal_rule, link_faults};
use mc_term_data::{Node, Term};
use std::alloc::Global;
use std::process::Abort;
use std::test::Fail;

// The library's modules, with nothing in them.
const LIBRARY: [&str; 9] = [
    "list", "bool", "maybe", "pair", "int", "string", "char", "io", "require",
];

// The text of a file, in which `@` stands for a line's end and `#` for the beginning of a declaration.
fn with_lines(alloc: Global, row: &str) -> Result<Vec<u8>, Memory> {
    let mut text = Vec::new(alloc);
    for byte in row.as_bytes() {
        match *byte {
            b'@' => text.push(b'\n')?,
            b'#' => text.extend_from_slice(b":- ")?,
            other => text.push(other)?,
        }
    }
    Ok(text)
}

fn add_file(alloc: Global, files: &mut Vec<Row<Entry>>, text: &[u8]) -> Result<(), ItemsFault> {
    let number = u32::try_from(files.len()).unwrap_or(u32::MAX);
    let file = read_items(alloc, number, text)?;
    match files.push(file) {
        Ok(()) => Ok(()),
        Err(_) => Err(ItemsFault::Memory),
    }
}

fn library_text(alloc: Global, name: &str) -> Result<Vec<u8>, Memory> {
    let mut text = Vec::new(alloc);
    text.extend_from_slice(b":- module ")?;
    text.extend_from_slice(name.as_bytes())?;
    text.extend_from_slice(b".\n:- interface.\n")?;
    Ok(text)
}

// The files of a row, between whose texts a backquote stands, and the library's.
pub fn files(alloc: Global, row: &str) -> Result<Vec<Row<Entry>>, ItemsFault> {
    let mut all = Vec::new(alloc);
    for text in row.split('`') {
        add_file(alloc, &mut all, &with_lines(alloc, text)?)?;
    }
    for name in LIBRARY {
        add_file(alloc, &mut all, &library_text(alloc, name)?)?;
    }
    Ok(all)
}

// The faults of a row's files, each as FILE:LINE RULE TEXT, or `none`.
fn shown(alloc: Global, row: &str) -> Result<Vec<u8>, Fail> {
    let mut out = Vec::new(alloc);
    let files = match files(alloc, row) {
        Ok(files) => files,
        Err(_) => return Ok(b"not read".to_vec(alloc)?),
    };
    for broken in link_faults(alloc, &files)?.as_slice() {
        if !out.is_empty() {
            out.extend_from_slice(b", ")?;
        }
        let at = broken.at;
        let rule = broken.rule;
        let place = format!(in alloc; "{}:{} {rule:?} ", at.file, at.line)?;
        out.extend_from_slice(place.as_bytes())?;
        out.extend_from_slice(broken.what.bytes())?;
    }
    if out.is_empty() {
        out.extend_from_slice(b"none")?;
    }
    Ok(out)
}

fn rows_hold(rt: &impl Abort, alloc: Global, table: &str) -> Result<u32, Fail> {
    let mut rows = 0u32;
    for row in table.lines() {
        if let Some((texts, wanted)) = row.split_once(" ~ ") {
            let answer = shown(alloc, texts)?;
            assert_eq!(rt; answer.as_slice(), wanted.as_bytes(), "{row}");
            rows = rows.saturating_add(1);
        }
    }
    Ok(rows)
}

// For each rule files that break it, and files beside them that don't.
const RULES: &str = "\
% ~ 0:1 N1 module structure\n\
#module a.@#interface.@#pred p is det.@p. ~ 0:4 N1 module structure\n\
#module a.b.@#implementation.@#end_module a.b. ~ none\n\
#module a.`#module b.`#module a. ~ 2:1 N2 module a is given twice\n\
#module list.@#interface. ~ 0:1 N2 module list is given twice\n\
#module a.@#interface.@#import_module list, b, c. ~ 0:3 N3 module b is not found\n\
#module a.@#interface.@#import_module b.`#module b.@#interface.@#import_module a. ~ none\n\
#module a.@#interface.@#use_module b.@#type t == uu.`#module b.@#interface.@#type uu ---> cc. ~ 0:4 N4 uu/0 is not visible\n\
#module a.@#interface.@#use_module b.@#type t == b.uu.`#module b.@#interface.@#type uu ---> cc. ~ none\n\
#module a.@#interface.@#type u ---> dd.@#type u ---> ee. ~ 0:4 N5 u/0 is defined twice\n\
#module a.@#interface.@#type u ---> dd.@#type u(T) ---> dd(T). ~ none\n\
#module a.@#interface.@#type u. ~ 0:3 N6 u/0 has no definition\n\
#module a.@#interface.@#type u.@#implementation.@#type u ---> dd. ~ none\n\
#module a.@#implementation.@p. ~ 0:3 N7 p/0 is not declared\n\
#module a.@#interface.@#pred p is det.@#implementation.@p. ~ none\n\
#module a.@#interface.@#type int ---> dd.@#type t == int. ~ 0:4 N8 int/0 has two meanings\n\
#module a.@#interface.@#type int ---> dd.@#type t == a.int. ~ none\n\
#module a.@#implementation.@#pred p.@p. ~ 0:3 M5 p/0 has no mode\n\
#module a.@#implementation.@#pred p.@#mode p is det.@p. ~ none\n\
#module a.@#implementation.@#pred p(vv::in) is det.@#pred p(vv::in) is det.`#module a.@p. ~ 0:3 N4 vv/0 is not visible, 0:4 N4 vv/0 is not visible, 1:1 N2 module a is given twice, 1:2 N1 module structure\n";

#[test]
fn rules_are_broken_and_kept(rt: HostRuntime) -> Result<(), Fail> {
    assert_eq!(rt; rows_hold(&rt, rt.alloc(), RULES)?, 20);
    Ok(())
}

// A goal that is one name without arguments.
fn goal(alloc: Global, name: &str) -> Result<Term, Memory> {
    let parts = Row::one(alloc, Text::new(alloc, name.as_bytes())?)?;
    let node = Node::App(parts, Row::new(alloc));
    Ok(Term { node, line: 1 })
}

#[test]
fn a_goal_sees_what_the_first_file_sees(rt: HostRuntime) -> Result<(), Fail> {
    let alloc = rt.alloc();
    let texts =
        "#module a.@#interface.@#pred p is det.@#implementation.@p.`#module b.@#interface.@#pred q is det.@#implementation.@q.";
    let files = match files(alloc, texts) {
        Ok(files) => Row::of(files)?,
        Err(_) => panic!(rt; "not read"),
    };
    let linking = Linking::of(alloc, files.as_slice())?;
    assert!(rt; linking.len() > 0);
    assert!(rt; files.len() > 0);
    assert!(rt; linking.faults(alloc)?.is_empty());
    assert!(rt; linking.goal_fault(alloc, &goal(alloc, "p")?)?.is_none());
    assert!(rt; linking.goal_fault(alloc, &goal(alloc, "q")?)?.is_some());
    assert!(rt; goal_rule(alloc, &files, &goal(alloc, "q")?)?.is_some());
    Ok(())
}
