use crate::tests::files;
use mc_base::{Row, Text};
use mc_decl_syntax::Decl;
use mc_modules::link;
use mc_names::{Candidate, Named, Names};
use std::alloc::Global;
use std::process::Abort;
use std::test::Fail;

// Four modules, of which the first imports the third and then the second, and only uses the fourth.
const MODULES: &str = "\
#module a.@#interface.@#import_module c.@#type t ---> x ; y. #func x = t. #type r ---> z.@\
#implementation.@#import_module b.@#use_module d.@x = y.`\
#module b.@#interface.@#type u ---> x.@#implementation.@#type v ---> z.`\
#module c.@#interface.@#type w ---> x.`\
#module d.@#interface.@#type s ---> x.";

// An abstract type with its definition, a type by another, a predicate, an inst and a mode; and a module that sees them.
const ROWS: &str = "\
#module a.@#interface.@#type t(A).@#type q == int.@#pred p(t(int)::in) is det.@#inst i == ground.@#mode m == i >> i.@\
#implementation.@#type t(A) ---> k(A).@p(_).`\
#module b.@#interface.@#import_module a.";

// Four modules, of which the first imports the second and only uses the fourth, with types of one name in two of them and
// over one argument, an abstract type, and two that only their own modules see.
const TYPES: &str = "\
#module a.@#interface.@#import_module b.@#use_module d.@#type t ---> k.@#type t(A) ---> k(A).@\
#implementation.@#type h ---> l.`\
#module b.@#interface.@#type t ---> k.@#type s.@#implementation.@#type s ---> l.@#type i ---> m.`\
#module c.@#interface.@#type r ---> k.`\
#module d.@#interface.@#type u ---> k.";

fn linked(alloc: Global, texts: &str) -> Result<Option<Names>, Fail> {
    let files = match files(alloc, texts) {
        Ok(files) => files,
        Err(_) => return Ok(None),
    };
    Ok(link(alloc, &Row::of(files)?).ok())
}

fn names_of(rt: &impl Abort, alloc: Global, texts: &str) -> Result<Names, Fail> {
    match linked(alloc, texts)? {
        Some(names) => Ok(names),
        None => panic!(rt; "not linked"),
    }
}

fn nth<'a, T>(rt: &impl Abort, row: &'a Row<T>, k: usize) -> &'a T {
    match row.as_slice().get(k) {
        Some(item) => item,
        None => panic!(rt; "too few"),
    }
}

// What candidates are, by their numbers.
fn told(alloc: Global, candidates: &[Candidate]) -> Result<Vec<u8>, Fail> {
    let mut out = Vec::new(alloc);
    for candidate in candidates {
        let one = match candidate {
            Candidate::Con(k) => format!(in alloc; "con {k} ")?,
            Candidate::Func(k) => format!(in alloc; "func {k} ")?,
            Candidate::Pred(k) => format!(in alloc; "pred {k} ")?,
            Candidate::Char(c) => format!(in alloc; "char {c} ")?,
        };
        out.extend_from_slice(one.as_bytes())?;
    }
    Ok(out)
}

// A name by its parts, between which full stops stand.
fn parts(alloc: Global, name: &str) -> Result<Row<Text>, Fail> {
    let mut parts = Vec::new(alloc);
    for part in name.split('.') {
        parts.push(Text::new(alloc, part.as_bytes())?)?;
    }
    Ok(Row::of(parts)?)
}

// What a name may mean in a module.
fn meaning(
    alloc: Global,
    names: &Names,
    own: u32,
    name: &str,
    arity: u32,
) -> Result<Vec<u8>, Fail> {
    let found = names.candidates(alloc, own, &parts(alloc, name)?, arity)?;
    told(alloc, found.as_slice())
}

// What a definition is: its name, its line, whether other modules see it, and whether they see what it is.
fn shown(alloc: Global, named: &Named) -> Result<Vec<u8>, Fail> {
    let mut out = named.name.module.bytes().to_vec(alloc)?;
    out.push(b'.')?;
    out.extend_from_slice(named.name.name.bytes())?;
    let rest = format!(in alloc;
        "/{} {} {} {}",
        named.name.arity, named.at.line, named.exported, named.shown
    )?;
    out.extend_from_slice(rest.as_bytes())?;
    Ok(out)
}

// A module's number, a name over so many arguments, and what that may mean there.
type Meaning<'a> = (u32, &'a str, u32, &'a str);

// The same of a type, by the numbers of those that it may mean.
type TypeMeaning<'a> = (u32, &'a str, u32, &'a [u32]);

fn all_mean(rt: &impl Abort, alloc: Global, names: &Names, table: &[Meaning]) -> Result<(), Fail> {
    for (own, name, arity, wanted) in table {
        let answer = meaning(alloc, names, *own, name, *arity)?;
        assert_eq!(rt; answer.as_slice(), wanted.as_bytes(), "{name}");
    }
    Ok(())
}

fn all_own(rt: &impl Abort, alloc: Global, names: &Names, table: &[Meaning]) -> Result<(), Fail> {
    for (own, name, arity, wanted) in table {
        let found = names.own_candidates(alloc, *own, name.as_bytes(), *arity as usize)?;
        let answer = told(alloc, found.as_slice())?;
        assert_eq!(rt; answer.as_slice(), wanted.as_bytes(), "{name}");
    }
    Ok(())
}

fn all_types(
    rt: &impl Abort,
    alloc: Global,
    names: &Names,
    table: &[TypeMeaning],
) -> Result<(), Fail> {
    for (own, name, arity, wanted) in table {
        let found = names.type_candidates(alloc, *own, &parts(alloc, name)?, *arity)?;
        assert_eq!(rt; found.as_slice(), *wanted, "{name}");
    }
    Ok(())
}

// Names of the four modules, without qualifiers and with them.
const NAMES: &[Meaning] = &[
    (0, "x", 0, "con 0 func 0 con 5 con 3 char x "),
    (0, "x", 1, ""),
    (1, "z", 0, "con 4 char z "),
    (0, "b.x", 0, "con 3 "),
    (0, "b.z", 0, ""),
    (0, "d.x", 0, "con 6 "),
    (1, "a.x", 0, ""),
];

// What a module itself has of the four.
const OWN: &[Meaning] = &[
    (0, "x", 0, "con 0 func 0 "),
    (1, "z", 0, "con 4 "),
    (99, "x", 0, ""),
];

// Types without qualifiers and with them.
const TYPES_MEANT: &[TypeMeaning] = &[
    (0, "t", 0, &[0, 3]),
    (0, "t", 1, &[1]),
    (0, "i", 0, &[]),
    (0, "u", 0, &[]),
    (0, "int", 0, &[]),
    (1, "i", 0, &[5]),
    (0, "b.t", 0, &[3]),
    (0, "d.u", 0, &[7]),
    (1, "a.t", 0, &[]),
];

#[test]
fn own_names_come_first_and_the_character_last(rt: HostRuntime) -> Result<(), Fail> {
    let alloc = rt.alloc();
    let names = names_of(&rt, alloc, MODULES)?;
    assert_eq!(rt;
        told(alloc, nth(&rt, &names.declared, 0).as_slice())?.as_slice(),
        b"con 0 con 1 func 0 con 2 ".as_slice()
    );
    all_mean(&rt, alloc, &names, NAMES)?;
    all_own(&rt, alloc, &names, OWN)
}

#[test]
fn a_type_is_its_module_s_or_one_that_is_seen(rt: HostRuntime) -> Result<(), Fail> {
    let alloc = rt.alloc();
    let names = names_of(&rt, alloc, TYPES)?;
    all_types(&rt, alloc, &names, TYPES_MEANT)
}

#[test]
fn a_type_stands_at_its_definition_and_is_seen_by_its_declaration(
    rt: HostRuntime,
) -> Result<(), Fail> {
    let alloc = rt.alloc();
    let names = names_of(&rt, alloc, ROWS)?;
    assert_eq!(rt; names.types.len(), 2);
    assert_eq!(rt;
        shown(alloc, nth(&rt, &names.types, 0))?.as_slice(),
        b"a.q/0 4 true true".as_slice()
    );
    assert_eq!(rt;
        shown(alloc, nth(&rt, &names.types, 1))?.as_slice(),
        b"a.t/1 9 true false".as_slice()
    );
    assert_eq!(rt; names.symbols.len(), 1);
    assert_eq!(rt;
        shown(alloc, nth(&rt, &names.symbols, 0))?.as_slice(),
        b"a.k/1 9 false false".as_slice()
    );
    assert!(rt; matches!(&nth(&rt, &names.symbols, 0).decl, Decl::UnionType(_, _)));
    assert_eq!(rt;
        shown(alloc, nth(&rt, &names.preds, 0))?.as_slice(),
        b"a.p/1 5 true true".as_slice()
    );
    assert_eq!(rt;
        shown(alloc, nth(&rt, &names.insts, 0))?.as_slice(),
        b"a.i/0 6 true true".as_slice()
    );
    assert_eq!(rt;
        shown(alloc, nth(&rt, &names.modes, 0))?.as_slice(),
        b"a.m/0 7 true true".as_slice()
    );
    Ok(())
}

#[test]
fn a_module_sees_its_own_and_what_others_export(rt: HostRuntime) -> Result<(), Fail> {
    let alloc = rt.alloc();
    let names = names_of(&rt, alloc, ROWS)?;
    assert_eq!(rt; names.scopes.len(), 11);
    let own = nth(&rt, &names.scopes, 0);
    let other = nth(&rt, &names.scopes, 1);
    assert_eq!(rt; own.module.bytes(), b"a".as_slice());
    assert_eq!(rt; own.symbols.as_slice(), [0u32].as_slice());
    assert_eq!(rt; other.types.as_slice(), [0u32, 1].as_slice());
    assert_eq!(rt; other.symbols.len(), 0);
    assert_eq!(rt; other.preds.as_slice(), [0u32].as_slice());
    assert_eq!(rt; other.unqualified.as_slice(), [1u32, 0].as_slice());
    assert_eq!(rt; other.seen.as_slice(), [1u32, 0].as_slice());
    Ok(())
}

#[test]
fn what_breaks_a_rule_is_not_linked(rt: HostRuntime) -> Result<(), Fail> {
    let alloc = rt.alloc();
    assert!(rt; linked(alloc, "#module a.@#interface.@#import_module b.")?.is_none());
    Ok(())
}
