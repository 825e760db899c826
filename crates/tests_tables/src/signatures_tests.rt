use crate::sources::files;
use mc_base::Memory;
use mc_insts::InstDef;
use mc_model::inst::{Choice, InstRef, ModeDecl};
use mc_modules::link;
use mc_signatures::{ModeTable, declared_modes, signatures};
use std::alloc::Global;
use std::process::Abort;
use std::test::Fail;

// The definitions of insts of which the modes of the files of a row speak, and the modes over their nodes.
fn modes(alloc: Global, row: &str) -> Result<Vec<u8>, Fail> {
    let Ok(files) = files(alloc, row) else {
        return Ok(b"not read".to_vec(alloc)?);
    };
    let Ok(names) = link(alloc, &files) else {
        return Ok(b"not linked".to_vec(alloc)?);
    };
    let rows = declared_modes(alloc, &names, files.as_slice())?;
    match signatures(alloc, &names, &[], &rows) {
        Ok(table) => shown(alloc, &table),
        Err(Memory) => Ok(b"no end".to_vec(alloc)?),
    }
}

fn shown(alloc: Global, table: &ModeTable) -> Result<Vec<u8>, Fail> {
    let mut out = Vec::new(alloc);
    for def in table.defs.as_slice() {
        match def {
            InstDef::Is(inst) => put_inst(alloc, inst, &mut out)?,
            InstDef::Bound(choices) => put_choices(alloc, choices.as_slice(), &mut out)?,
        }
        out.push(b';')?;
    }
    for sig in table.sigs.as_slice() {
        out.extend_from_slice(b" |")?;
        for mode in sig.modes.as_slice() {
            put_mode(alloc, mode, &mut out)?;
        }
    }
    Ok(out)
}

fn put_inst(alloc: Global, inst: &InstRef, out: &mut Vec<u8>) -> Result<(), Fail> {
    match inst {
        InstRef::Old(node) => out.extend_from_slice(format!(in alloc; "{node}")?.as_bytes())?,
        InstRef::New(place) => out.extend_from_slice(format!(in alloc; "#{place}")?.as_bytes())?,
    }
    Ok(())
}

fn put_choices(alloc: Global, choices: &[Choice], out: &mut Vec<u8>) -> Result<(), Fail> {
    for choice in choices {
        out.push(b'.')?;
        out.extend_from_slice(choice.name.bytes())?;
        out.extend_from_slice(format!(in alloc; "/{}", choice.arity)?.as_bytes())?;
        for arg in choice.args.as_slice() {
            out.push(b' ')?;
            put_inst(alloc, arg, out)?;
        }
    }
    Ok(())
}

fn put_mode(alloc: Global, mode: &ModeDecl, out: &mut Vec<u8>) -> Result<(), Fail> {
    out.extend_from_slice(format!(in alloc; "{}:", mode.proc)?.as_bytes())?;
    for node in mode.first.as_slice() {
        out.extend_from_slice(format!(in alloc; " {node}")?.as_bytes())?;
    }
    out.push(b'>')?;
    for node in mode.last.as_slice() {
        out.extend_from_slice(format!(in alloc; " {node}")?.as_bytes())?;
    }
    out.push(b'.')?;
    Ok(())
}

// Files, with the definitions that are answered (`#` for one of them by its place) and the modes over nodes: builtin insts;
// an inst that is written; one that a definition lists, in which it stands again; names of names; modes over insts; what two
// modes share; a definition over itself.
const MODES: &str = "\
#module a.@#interface.@#pred p(int :: in, int :: out) is det.@#mode p(out, in) is nondet.@#implementation.@p(X, X). ~  |0: 1 0> 1 1.1: 0 1> 1 1.\n\
#module a.@#interface.@#pred p(int :: in(bound([] ; [ground | unique]))) is det.@#implementation.@p(_). ~ .[]/0.[|]/2 1 2; |0: 4> 4.\n\
#module a.@#interface.@#inst l ---> nil ; cons(ground, l).@#pred p(int :: in(l), int :: out(l)) is det.@#implementation.@p(X, X). ~ #1;.nil/0.cons/2 1 #0; |0: 4 0> 4 4.\n\
#module a.@#interface.@#inst b == c.@#inst c == ground.@#pred p(int :: b >> c) is det.@#implementation.@p(_). ~ #1;1; |0: 1> 1.\n\
#module a.@#interface.@#inst l(I) ---> nil ; cons(I, l(I)).@#mode m(I) == I >> l(I).@#mode n(I) == m(l(I)).@#pred p(int :: n(ground)) is det.@#pred q(int :: in(l(l(ground)))) is det.@#implementation.@p(_).@q(_). ~ #2;#3;.nil/0.cons/2 1 #0;.nil/0.cons/2 #0 #1; |0: 4> 5. |1: 5> 5.\n\
#module a.@#interface.@#inst f(I) ---> k(I).@#inst a == f(a).@#pred p(int :: in(a)) is det.@#implementation.@p(_). ~ #1;#2;.k/1 #0; |0: 4> 4.\n";

#[test]
fn modes_are_nodes(rt: HostRuntime) -> Result<(), Fail> {
    let alloc = rt.alloc();
    let mut rows = 0u32;
    for row in MODES.lines() {
        if let Some((texts, wanted)) = row.split_once(" ~ ") {
            let answer = modes(alloc, texts)?;
            assert_eq!(rt; answer.as_slice(), wanted.as_bytes(), "{row}");
            rows = rows.saturating_add(1);
        }
    }
    assert_eq!(rt; rows, 6);
    Ok(())
}
