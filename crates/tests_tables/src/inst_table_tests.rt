use crate::sources::files;
use mc_base::Memory;
use mc_inst_table::{Inst, Mode, inst_faults};
use mc_modules::link;
use mc_signatures::{WrittenMode, declared_modes};
use std::alloc::Global;
use std::process::Abort;
use std::test::Fail;

// The rules of insts that the files of a row break.
fn faults(alloc: Global, row: &str) -> Result<Vec<u8>, Fail> {
    let mut out = Vec::new(alloc);
    let Ok(files) = files(alloc, row) else {
        return Ok(b"not read".to_vec(alloc)?);
    };
    let Ok(names) = link(alloc, &files) else {
        return Ok(b"not linked".to_vec(alloc)?);
    };
    for broken in inst_faults(alloc, &names, files.as_slice())? {
        let at = broken.at;
        let rule = broken.rule;
        let place = format!(in alloc; "{}:{} {rule:?} ", at.file, at.line)?;
        out.extend_from_slice(place.as_bytes())?;
        out.extend_from_slice(broken.what.bytes())?;
        out.push(b';')?;
    }
    Ok(out)
}

// For each rule files that break it, and files beside them that don't.
const FAULTS: &str = "\
#module a.@#interface.@#inst k(I, J) == I.@#inst a == k(free, b).@#inst b == k(free, a). ~ \n\
#module a.@#interface.@#inst k(I, J) == J.@#inst a == k(free, b).@#inst b == k(free, a). ~ 0:4 M7 inst a/0 is not well founded;0:5 M7 inst b/0 is not well founded;\n\
#module a.@#interface.@#inst d(I) == d(f(I)).@#inst f(I) ---> g(I). ~ 0:3 M7 inst d/1 is not well founded;\n\
#module a.@#interface.@#inst l ---> nil ; cons(ground, l). ~ \n\
#module a.@#interface.@#inst a == b.@#inst b == a.@#inst c == a. ~ 0:3 M7 inst a/0 is not well founded;0:4 M7 inst b/0 is not well founded;\n\
#module a.@#interface.@#inst f(I) == I.@#inst a == f(a). ~ 0:4 M7 inst a/0 is not well founded;\n\
#module a.@#interface.@#inst a ---> k(free) ; l. ~ 0:3 M6 free inside a bound inst;\n\
#module a.@#interface.@#inst fr == free.@#inst a ---> k(fr).@#inst b == bound(k(ground) ; l(fr)). ~ 0:4 M6 free inside a bound inst;0:5 M6 free inside a bound inst;\n\
#module a.@#interface.@#inst l(I) ---> nil ; cons(I, l(I)).@#inst a == l(free).@#inst b == a.@#inst c ---> k(a).@#mode m == free >> l(free).@#mode n == in(a).@#mode o == m. ~ 0:4 M6 free inside a bound inst;0:7 M6 free inside a bound inst;\n\
#module a.@#interface.@#inst f(I, J) ---> k(I).@#inst a == f(ground, free).@#inst b == f(free, ground). ~ 0:5 M6 free inside a bound inst;\n\
#module a.@#interface.@#inst f(I) ---> g(f(bound(h(I)))). ~ 0:3 M7 inst f/1 is not well founded;\n\
#module a.@#interface.@#inst f(I, J) ---> g(f(J, I)). ~ 0:3 M7 inst f/2 is not well founded;\n\
#module a.@#interface.@#inst f(I, J) ---> g(f(I, I)). ~ 0:3 M7 inst f/2 is not well founded;\n\
#module a.@#interface.@#inst f(I, J) ---> g(f(I, J), I, J, f(ground, ground)). ~ 0:3 M7 inst f/2 is not well founded;\n\
#module a.@#interface.@#inst f(I, J) ---> g(f(I, J), I, J).@#inst a ---> k(f(a, ground)). ~ \n\
#module a.@#interface.@#inst d(I) == e(I, I).@#inst e(I, J) ---> h(d(I)) ; k(e(I, ground)). ~ 0:4 M7 inst e/2 is not well founded;\n\
#module a.@#interface.@#inst f(I) ---> g(h(I)).@#inst h(I) ---> k(f(ground)). ~ 0:3 M7 inst f/1 is not well founded;0:4 M7 inst h/1 is not well founded;\n\
#module a.@#interface.@#inst f(I) ---> g(h(I, ground)).@#inst h(I, J) ---> k(f(I)). ~ 0:4 M7 inst h/2 is not well founded;\n\
#module a.@#interface.@#inst f(I, J) ---> g(h(J, I)).@#inst h(I, J) ---> k(f(J, I)). ~ \n\
#module a.@#interface.@#inst f(I, J) ---> g(h(J, I)).@#inst h(I, J) ---> k(f(J, I)) ; l(f(I, J)). ~ 0:3 M7 inst f/2 is not well founded;0:4 M7 inst h/2 is not well founded;\n\
#module a.@#interface.@#inst f(I) ---> k(free) ; g(f(ground)).@#inst b == c.@#inst c == b. ~ 0:3 M6 free inside a bound inst;0:4 M7 inst b/0 is not well founded;0:5 M7 inst c/0 is not well founded;\n\
#module a.@#interface.@#mode m == n.@#mode n == m.@#mode o == m.@#mode p(I) == in(I). ~ 0:3 M7 inst m/0 is not well founded;0:4 M7 inst n/0 is not well founded;\n\
#module a.@#interface.@#import_module b.@#inst a == b.a.@#inst c ---> k(b.a).`#module b.@#interface.@#inst a ---> k(free).@#inst c == b.c. ~ 1:3 M6 free inside a bound inst;1:4 M7 inst c/0 is not well founded;\n\
#module a.@#interface.@#pred p(int :: in, int :: out(bound(k(free)))) is det.@#pred q(int).@#mode q(out(bound(k(free)))) is det.@#func f(int :: in) = (int :: out(bound(k(free)))) is det.@#func g(int) = int.@#mode g(in) = out(bound(k(free))) is det.@#pred r(int :: in) is semidet.@#implementation.@p(X, X).@q(1).@f(X) = X.@g(X) = X.@r(1). ~ 0:3 M6 free inside a bound inst;0:5 M6 free inside a bound inst;0:6 M6 free inside a bound inst;0:8 M6 free inside a bound inst;\n";

#[test]
fn rules_are_broken_and_kept(rt: HostRuntime) -> Result<(), Fail> {
    let alloc = rt.alloc();
    let mut rows = 0u32;
    for row in FAULTS.lines() {
        if let Some((texts, wanted)) = row.split_once(" ~ ") {
            let answer = faults(alloc, texts)?;
            assert_eq!(rt; answer.as_slice(), wanted.as_bytes(), "{row}");
            rows = rows.saturating_add(1);
        }
    }
    assert_eq!(rt; rows, 24);
    Ok(())
}

// The declared modes of the predicates and functions of the files of a row: for each its modes by the nodes of their insts,
// `?` for what is no node or a definition, with the line of the item and whether it has a determinism.
fn modes(alloc: Global, row: &str) -> Result<Vec<u8>, Fail> {
    let mut out = Vec::new(alloc);
    let Ok(files) = files(alloc, row) else {
        return Ok(b"not read".to_vec(alloc)?);
    };
    let Ok(names) = link(alloc, &files) else {
        return Ok(b"not linked".to_vec(alloc)?);
    };
    let rows = declared_modes(alloc, &names, files.as_slice())?;
    for row in rows.as_slice() {
        for mode in row.as_slice() {
            put_mode(alloc, mode, &mut out)?;
        }
        out.push(b';')?;
    }
    Ok(out)
}

fn put_mode(alloc: Global, mode: &WrittenMode, out: &mut Vec<u8>) -> Result<(), Fail> {
    let sign = if mode.det.is_some() { '+' } else { '-' };
    out.extend_from_slice(format!(in alloc; "{}{sign}", mode.at.line)?.as_bytes())?;
    for part in mode.modes.as_slice() {
        match part {
            Mode::FromTo(first, last) => {
                out.push(shown(first))?;
                out.push(shown(last))?;
            }
            Mode::Defined(_, _) => out.push(b'?')?,
        }
        out.push(b' ')?;
    }
    Ok(())
}

fn shown(inst: &Inst) -> u8 {
    match inst {
        Inst::Node(0) => b'f',
        Inst::Node(1) => b'g',
        Inst::Node(2) => b'u',
        _ => b'?',
    }
}

// Files, and the modes that they declare.
const MODES: &str = "\
#module a.@#interface.@#pred p(int :: in, int :: out) is det.@#mode p(out, in) is nondet.@#pred q(int).@#mode q(in) is semidet.@#mode q(free >> ground).@#implementation.@p(X, X).@q(1). ~ 3+gg fg 4+fg gg ;6+gg 7-fg ;\n\
#module a.@#interface.@#func f(int, int) = int.@#func g(int) = int.@#mode g(in) = out is semidet.@#func h(int :: in) = (int :: out) is det.@#mode h(out) = in is semidet.@#func c = int.@#implementation.@f(X, _) = X.@g(X) = X.@h(X) = X.@c = 1. ~ 3+gg gg fg ;5+gg fg ;6+gg fg 7+fg gg ;8+fg ;\n\
#module a.@#interface.@#pred r is det.@#mode m == in.@#pred s(int :: m, int :: in(bound(k))) is semidet.@#func s(int) = int.@#implementation.@r.@s(X, X).@s(X) = X. ~ 3+;5+? ?? ;6+gg fg ;\n\
#module a.@#interface.@#import_module b.@#pred p(int :: in) is semidet.@#implementation.@p(1).`#module b.@#interface.@#pred p(int :: out) is det.@#mode p(in) is semidet.@#implementation.@p(1). ~ 4+gg ;3+fg 4+gg ;\n";

#[test]
fn modes_are_declared(rt: HostRuntime) -> Result<(), Fail> {
    let alloc = rt.alloc();
    let mut rows = 0u32;
    for row in MODES.lines() {
        if let Some((texts, wanted)) = row.split_once(" ~ ") {
            let answer = modes(alloc, texts)?;
            assert_eq!(rt; answer.as_slice(), wanted.as_bytes(), "{row}");
            rows = rows.saturating_add(1);
        }
    }
    assert_eq!(rt; rows, 4);
    Ok(())
}

// A module with the inst `i0`, which is the first, and so many others, each of which is another name of the one before.
fn chain(alloc: Global, count: u32, first: &str) -> Result<String, Memory> {
    let mut text = format!(in alloc; "#module a.@#interface.@#inst i0 == {first}.@")?;
    for number in 1..count {
        let before = number.saturating_sub(1);
        text.push_str(format!(in alloc; "#inst i{number} == i{before}.@")?.as_str())?;
    }
    Ok(text)
}

fn number_of_faults(alloc: Global, text: &str) -> Result<usize, Fail> {
    let Ok(files) = files(alloc, text) else {
        return Ok(usize::MAX);
    };
    let Ok(names) = link(alloc, &files) else {
        return Ok(usize::MAX);
    };
    let broken = inst_faults(alloc, &names, files.as_slice())?;
    Ok(broken.len())
}

#[test]
fn a_ring(rt: HostRuntime) -> Result<(), Fail> {
    let alloc = rt.alloc();
    let text = chain(alloc, 1_000, "i999")?;
    assert_eq!(rt; number_of_faults(alloc, text.as_str())?, 1_000);
    Ok(())
}

#[test]
fn a_chain(rt: HostRuntime) -> Result<(), Fail> {
    let alloc = rt.alloc();
    let text = chain(alloc, 1_000, "ground")?;
    assert_eq!(rt; number_of_faults(alloc, text.as_str())?, 0);
    Ok(())
}
