use crate::sources::files;
use mc_base::Memory;
use mc_decl_syntax::ItemsFault;
use mc_modules::link;
use mc_names::Names;
use mc_program::ty::Ty;
use mc_type_table::{SizeBudget, seen_definitions, sees_definition, type_table};
use std::alloc::Global;
use std::process::Abort;
use std::test::Fail;

// The names of the files of a row, between whose texts a backquote stands, and of the library's.
fn names(alloc: Global, row: &str) -> Result<Names, ItemsFault> {
    link(alloc, &files(alloc, row)?)
}

// What a row's types are: their number, or the rules that they break, each as FILE:LINE RULE TEXT.
fn shown(alloc: Global, row: &str) -> Result<Vec<u8>, Fail> {
    let mut out = Vec::new(alloc);
    let answer = match names(alloc, row) {
        Ok(names) => type_table(alloc, &names),
        Err(_) => return Ok(b"not linked".to_vec(alloc)?),
    };
    match answer {
        Ok(types) => out.extend_from_slice(format!(in alloc; "{} types", types.len())?.as_bytes())?,
        Err(ItemsFault::Memory) => out.extend_from_slice(b"out of memory")?,
        Err(ItemsFault::Broken(all)) => {
            for broken in all.as_slice() {
                let at = broken.at;
                let rule = broken.rule;
                let place = format!(in alloc; "{}:{} {rule:?} ", at.file, at.line)?;
                out.extend_from_slice(place.as_bytes())?;
                out.extend_from_slice(broken.what.bytes())?;
                out.push(b';')?;
            }
        }
    }
    Ok(out)
}

// For each rule files that break it, and files beside them that don't.
const RULES: &str = "\
#module e.@#interface.@#type t == u.@#type u == t.@#implementation. ~ 0:3 T4 type t/0 is its own equivalent;0:4 T4 type u/0 is its own equivalent;\n\
#module e.@#interface.@#type t == u.@#type u == int.@#implementation. ~ 2 types\n\
#module a.@#interface.@#type t(A) ---> k(A, f :: B). ~ 0:3 T3 type variable B is not in the head;\n\
#module a.@#interface.@#type t(A, B) ---> k(A, f :: B). ~ 1 types\n\
#module a.@#interface.@#type t(A) == u(B).@#type u(A) ---> k(A). ~ 0:3 T3 type variable B is not in the head;\n\
#module a.@#interface.@#type t(_) ---> k(_). ~ 0:3 T3 type variable _ is not in the head;\n\
#module a.@#interface.@#type t(A) ---> k(B) ; k(t(t(A)), C). ~ 0:3 T3 type variable B is not in the head;\n\
#module a.@#interface.@#type t == t.@#type u(A) ---> [A | B].@#type v(A) ---> k(v(v(A))). ~ 0:3 T4 type t/0 is its own equivalent;0:4 T3 type variable B is not in the head;0:5 T5 type v/1 is not regular;\n\
#module a.@#interface.@#type t(A) == u(t(A)).@#type u(A) ---> k(A). ~ 0:3 T4 type t/1 is its own equivalent;\n\
#module a.@#interface.@#type t(A) == t(B). ~ 0:3 T3 type variable B is not in the head;\n\
#module a.@#interface.@#type t == t.@#type u == t. ~ 0:3 T4 type t/0 is its own equivalent;\n\
#module a.@#interface.@#type t == u.@#type u ---> k(t). ~ 2 types\n\
#module a.@#interface.@#import_module b.@#type t.@#implementation.@#type t == b.u.`\
#module b.@#interface.@#type u.@#implementation.@#import_module a.@#type u == a.t. ~ 0:6 T4 type t/0 is its own equivalent;1:6 T4 type u/0 is its own equivalent;\n\
#module a.@#interface.@#import_module b.@#type t.@#implementation.@#type t == b.u.`\
#module b.@#interface.@#type u.@#implementation.@#type u == int. ~ 2 types\n\
#module a.@#interface.@#type t(A).@#implementation.@#type t(A) ---> e ; k(t(t(A))). ~ 0:5 T5 type t/1 is not regular;\n\
#module a.@#interface.@#type t(A).@#implementation.@#type t(A) ---> e ; k(t(A)). ~ 1 types\n\
#module a.@#interface.@#type t(A) ---> e ; k(t(t(A))). ~ 0:3 T5 type t/1 is not regular;\n\
#module a.@#interface.@#type t(A) ---> e ; k(A, t(A), t(int)). ~ 1 types\n\
#module a.@#interface.@#type t(A, B) ---> e ; k(t(B, A)). ~ 1 types\n\
#module a.@#interface.@#type t(A) ---> k(u(A)).@#type u(A) ---> e ; k(t(u(A))). ~ 0:4 T5 type u/1 is not regular;\n\
#module a.@#interface.@#type t(A) ---> k(u(A)).@#type u(A) == t(t(A)). ~ 0:3 T5 type t/1 is not regular;\n\
#module a.@#interface.@#type t(A) ---> k(u(u(A))).@#type u(A) ---> k(A). ~ 2 types\n\
#module a.@#interface.@#import_module b.@#type t(A) ---> k(b.u(A)).`\
#module b.@#interface.@#import_module a.@#type u(A).@#implementation.@#type u(A) == a.t(a.t(A)). ~ 0:4 T5 type t/1 is not regular;\n";

fn rows_hold(rt: &impl Abort, alloc: Global, table: &str) -> Result<u32, Fail> {
    let mut rows = 0u32;
    for row in table.lines() {
        if let Some((texts, wanted)) = row.split_once(" ~ ") {
            let answer = shown(alloc, texts)?;
            assert_eq!(rt; answer.as_slice(), wanted.as_bytes(), "{row}");
            rows = rows.saturating_add(1);
        }
    }
    Ok(rows)
}

#[test]
fn rules_are_broken_and_kept(rt: HostRuntime) -> Result<(), Fail> {
    assert_eq!(rt; rows_hold(&rt, rt.alloc(), RULES)?, 23);
    Ok(())
}

// Whether the first two modules of a row see the definitions of its types: a word for each module, and a letter in it for
// each type.
fn sights(alloc: Global, row: &str) -> Result<Vec<u8>, Fail> {
    let names = names(alloc, row)?;
    let mut out = Vec::new(alloc);
    for own in 0..2 {
        for number in 0..names.types.len() {
            let sees = sees_definition(&names, own, number);
            out.push(if sees { b'y' } else { b'n' })?;
        }
        out.push(b' ')?;
    }
    Ok(out)
}

// A letter for what a type is defined as.
fn letter(definition: &Option<Ty>) -> u8 {
    match definition {
        None => b'-',
        Some(Ty::Int) => b'i',
        Some(Ty::Union(1, _)) => b't',
        Some(Ty::Union(2, _)) => b'u',
        Some(_) => b'?',
    }
}

// What the first two modules of a row see that its types are defined as, so written.
fn seen(alloc: Global, row: &str) -> Result<Vec<u8>, Fail> {
    let names = names(alloc, row)?;
    let mut room = SizeBudget { parts: 1000 };
    let mut out = Vec::new(alloc);
    for own in 0..2 {
        let definitions = seen_definitions(alloc, &names, own, &mut room)?;
        for definition in definitions.as_slice() {
            out.push(letter(definition))?;
        }
        out.push(b' ')?;
    }
    Ok(out)
}

// An equivalence of an interface; one whose interface declares it alone; a union so; one of the implementation alone. The
// last two types are the other module's.
#[test]
fn hidden_definitions_are_out_of_sight(rt: HostRuntime) -> Result<(), Fail> {
    let alloc = rt.alloc();
    let files = "#module a.@#interface.@#type s == int.@#type t.@#type u.@#implementation.@\
        #type t == int.@#type u ---> k.@#type v == int.`\
        #module b.@#interface.@#import_module a.@#type w == a.t.@#implementation.@#type x == a.u.";
    assert_eq!(rt;
        sights(alloc, files)?.as_slice(),
        b"yyyyyn ynnnyy ".as_slice()
    );
    assert_eq!(rt;
        seen(alloc, files)?.as_slice(),
        b"ii-ii- i---tu ".as_slice()
    );
    Ok(())
}

// A module with the type `t0` and so many others, each of which is equivalent to what `step` says of the one before; `%`
// stands for its number.
fn chain(alloc: Global, count: u32, first: &str, step: &str) -> Result<String, Memory> {
    let mut text = format!(in alloc; "#module a.@#interface.@#type p(A, B) ---> p(A, B).@")?;
    text.push_str(format!(in alloc; "#type t0 == {first}.@")?.as_str())?;
    for number in 1..count {
        text.push_str(format!(in alloc; "#type t{number} == ")?.as_str())?;
        let before = number.saturating_sub(1);
        for byte in step.chars() {
            if byte == '%' {
                text.push_str(format!(in alloc; "t{before}")?.as_str())?;
            } else {
                text.push(byte)?;
            }
        }
        text.push_str(".@")?;
    }
    Ok(text)
}

// A module with a union of so many constructors.
fn union(alloc: Global, count: u32) -> Result<String, Memory> {
    let mut text = format!(in alloc; "#module a.@#interface.@#type t(A) ---> k")?;
    for number in 0..count {
        text.push_str(format!(in alloc; " ; k{number}(t(A), A)")?.as_str())?;
    }
    text.push_str(".@")?;
    Ok(text)
}

#[test]
fn a_ring(rt: HostRuntime) -> Result<(), Fail> {
    let alloc = rt.alloc();
    let ring = shown(alloc, chain(alloc, 1_000, "t999", "%")?.as_str())?;
    assert_eq!(rt; ring.iter().filter(|byte| **byte == b';').count(), 1_000);
    Ok(())
}

#[test]
fn a_chain(rt: HostRuntime) -> Result<(), Fail> {
    let alloc = rt.alloc();
    let line = shown(alloc, chain(alloc, 1_000, "int", "%")?.as_str())?;
    assert_eq!(rt; line.as_slice(), b"1001 types".as_slice());
    Ok(())
}

#[test]
fn doubled_types(rt: HostRuntime) -> Result<(), Fail> {
    let alloc = rt.alloc();
    let doubled = shown(alloc, chain(alloc, 60, "int", "p(%, %)")?.as_str())?;
    assert_eq!(rt; doubled.as_slice(), b"out of memory".as_slice());
    Ok(())
}

#[test]
fn a_wide_union(rt: HostRuntime) -> Result<(), Fail> {
    let alloc = rt.alloc();
    let wide = shown(alloc, union(alloc, 100_000)?.as_str())?;
    assert_eq!(rt; wide.as_slice(), b"1 types".as_slice());
    Ok(())
}
