use mc_base::Text;
use mc_state_variables::{numbered_clause, numbered_goal};
use mc_terms::{Node, Term, read_term};
use std::alloc::{AllocError, Global};
use std::process::Abort;
use std::test::Fail;

// Writes the terms with a comma between them.
#[cycle(shown)]
fn write_all(alloc: Global, out: &mut Vec<u8>, terms: &[Term]) -> Result<(), AllocError> {
    let mut first = true;
    for term in terms {
        if !first {
            out.push(b',')?;
        }
        first = false;
        write_term(alloc, out, term)?;
    }
    Ok(())
}

fn write_name(out: &mut Vec<u8>, parts: &[Text]) -> Result<(), AllocError> {
    let mut first = true;
    for part in parts {
        if !first {
            out.push(b'.')?;
        }
        first = false;
        out.extend_from_slice(part.bytes())?;
    }
    Ok(())
}

#[cycle(shown)]
fn write_over(
    alloc: Global,
    out: &mut Vec<u8>,
    open: &[u8],
    parts: &[Term],
) -> Result<(), AllocError> {
    out.extend_from_slice(open)?;
    write_all(alloc, out, parts)?;
    out.extend_from_slice(b")")
}

// Writes a term without operators; a conjunction is `&(..)`, a disjunction `|(..)`.
#[cycle(shown)]
fn write_term(alloc: Global, out: &mut Vec<u8>, term: &Term) -> Result<(), AllocError> {
    match &term.node {
        Node::Var(name) => out.extend_from_slice(name.bytes()),
        Node::Int(value) => out.extend_from_slice(format!(in alloc; "{value}")?.as_bytes()),
        Node::Str(bytes) => out.extend_from_slice(bytes.bytes()),
        Node::App(name, args) => {
            write_name(out, name.as_slice())?;
            if args.is_empty() {
                return Ok(());
            }
            write_over(alloc, out, b"(", args.as_slice())
        }
        Node::List(items, tail) => {
            out.push(b'[')?;
            write_all(alloc, out, items.as_slice())?;
            if let Some(tail) = tail {
                out.push(b'|')?;
                write_term(alloc, out, tail)?;
            }
            out.extend_from_slice(b"]")
        }
        Node::Conj(parts) => write_over(alloc, out, b"&(", parts.as_slice()),
        Node::Disj(parts) => write_over(alloc, out, b"|(", parts.as_slice()),
    }
}

// What the term of a text is with its state variables written out, as a clause or, behind `?`, as a query's goal.
fn shown(alloc: Global, text: &str) -> Result<Vec<u8>, Fail> {
    let mut out = Vec::new(alloc);
    let (text, is_goal) = match text.strip_prefix("? ") {
        Some(goal) => (goal, true),
        None => (text, false),
    };
    if text.len() >= 1 << 20 {
        return Ok(out);
    }
    match read_term(alloc, text.as_bytes(), 0) {
        Ok(Some((term, _))) => {
            let written = if is_goal {
                numbered_goal(alloc, &term)?
            } else {
                numbered_clause(alloc, &term)?
            };
            write_term(alloc, &mut out, &written)?;
        }
        _ => out.extend_from_slice(b"not read")?,
    }
    Ok(out)
}

fn rows_hold(rt: &impl Abort, alloc: Global, table: &str) -> Result<u32, Fail> {
    let mut rows = 0u32;
    for row in table.lines() {
        if let Some((text, wanted)) = row.split_once(" ~ ") {
            let answer = shown(alloc, text)?;
            assert_eq!(rt; answer.as_slice(), wanted.as_bytes(), "{row}");
            rows = rows.saturating_add(1);
        }
    }
    Ok(rows)
}

// Heads: facts, functions, and bodies that update nothing.
const HEADS: &str = "\
p(a). ~ p(a)\n\
p(!X). ~ :-(p(!0,!1),=(!1,!0))\n\
p(!.X). ~ :-(p(!0),=(!1,!0))\n\
p(!:X, !.X). ~ :-(p(!1,!0),=(!1,!0))\n\
p(!X, A, !Y). ~ :-(p(!0,!1,A,!2,!3),&(=(!1,!0),=(!3,!2)))\n\
p(f(!X), [!Y]). ~ :-(p(f(!0,!1),[!2,!3]),&(=(!1,!0),=(!3,!2)))\n\
f(!.X) = !:X. ~ :-(=(f(!0),!1),=(!1,!0))\n\
f(!.X) = !:X :- q(!X). ~ :-(=(f(!0),!1),q(!0,!1))\n\
f(!X) = R :- R = g(!X). ~ :-(=(f(!0,!1),R),=(R,g(!0,!1)))\n\
p(!X) :- true. ~ :-(p(!0,!1),&(true,=(!1,!0)))\n\
p(!X) :- q(!.X), r. ~ :-(p(!0,!1),&(q(!0),r,=(!1,!0)))\n\
p(X) :- q(X), r. ~ :-(p(X),&(q(X),r))\n\
";

// Conjunctions: the last goal that updates ends with the last version.
const CONJUNCTIONS: &str = "\
p(!X) :- q(!X). ~ :-(p(!0,!1),q(!0,!1))\n\
p(!X) :- q(!X), r(!X). ~ :-(p(!0,!1),&(q(!0,!2),r(!2,!1)))\n\
p(!X) :- q(!X), r(!.X), s(!X), t(!.X). ~ :-(p(!0,!1),&(q(!0,!2),r(!2),s(!2,!1),t(!1)))\n\
p(!X) :- q(!.X), !:X = a. ~ :-(p(!0,!1),&(q(!0),=(!1,a)))\n\
p(!X) :- !:X = f(!.X), !:X = g(!.X). ~ :-(p(!0,!1),&(=(!2,f(!0)),=(!1,g(!2))))\n\
p(!X, !Y) :- q(!X), r(!Y), s(!X). ~ :-(p(!0,!1,!2,!3),&(q(!0,!4),r(!2,!3),s(!4,!1)))\n\
p(!X, !Y) :- q(!X, !Y), r(!Y, !X). ~ :-(p(!0,!1,!2,!3),&(q(!0,!4,!2,!5),r(!5,!3,!4,!1)))\n\
p(!X) :- (q(!X), r(!X)), s(!X). ~ :-(p(!0,!1),&(&(q(!0,!3),r(!3,!2)),s(!2,!1)))\n\
";

// Disjunctions: each disjunct starts from the first version and ends with the last.
const DISJUNCTIONS: &str = "\
p(!X) :- q(!X) ; r. ~ :-(p(!0,!1),|(q(!0,!1),&(r,=(!1,!0))))\n\
p(!X) :- q ; r. ~ :-(p(!0,!1),&(|(q,r),=(!1,!0)))\n\
p(!X) :- ( q(!X) ; r ), s(!X). ~ :-(p(!0,!1),&(|(q(!0,!2),&(r,=(!2,!0))),s(!2,!1)))\n\
p(!X) :- q(!X) ; r, s. ~ :-(p(!0,!1),|(q(!0,!1),&(r,s,=(!1,!0))))\n\
p(!X) :- ( q(!X) ; r ) ; s. ~ :-(p(!0,!1),|(|(q(!0,!1),&(r,=(!1,!0))),&(s,=(!1,!0))))\n\
p(!X) :- ( q ; r ) ; s(!X). ~ :-(p(!0,!1),|(&(|(q,r),=(!1,!0)),s(!0,!1)))\n\
p(!X, !Y) :- q(!X) ; r(!Y). ~ :-(p(!0,!1,!2,!3),|(&(q(!0,!1),=(!3,!2)),&(r(!2,!3),=(!1,!0))))\n\
p(!X) :- ( q(!X), r(!X) ; s(!X) ; t ). ~ :-(p(!0,!1),|(&(q(!0,!2),r(!2,!1)),s(!0,!1),&(t,=(!1,!0))))\n\
";

// Conditionals: a condition and its then part are one conjunction.
const CONDITIONALS: &str = "\
p(!X) :- ( if q(!X) then r(!X) else s ). ~ :-(p(!0,!1),|(->(q(!0,!2),r(!2,!1)),&(s,=(!1,!0))))\n\
p(!X) :- ( if q(!X) then r else s(!X) ). ~ :-(p(!0,!1),|(->(q(!0,!2),&(r,=(!1,!2))),s(!0,!1)))\n\
p(!X) :- ( if q then r(!X) else s ). ~ :-(p(!0,!1),|(->(q,r(!0,!1)),&(s,=(!1,!0))))\n\
p(!X) :- ( if q then r else s ). ~ :-(p(!0,!1),&(|(->(q,r),s),=(!1,!0)))\n\
p(!X) :- ( if q then r else s(!X) ). ~ :-(p(!0,!1),|(->(q,&(r,=(!1,!0))),s(!0,!1)))\n\
p(!X) :- ( q(!X) -> r ; s ). ~ :-(p(!0,!1),|(->(q(!0,!2),&(r,=(!1,!2))),&(s,=(!1,!0))))\n\
p(!X) :- ( q -> r ; s ; t(!X) ). ~ :-(p(!0,!1),|(->(q,&(r,=(!1,!0))),|(&(s,=(!1,!0)),t(!0,!1))))\n\
p(!X) :- ( q(!X) -> r ; s -> t ; u ). ~ :-(p(!0,!1),|(->(q(!0,!2),&(r,=(!1,!2))),&(|(->(s,t),u),=(!1,!0))))\n\
p(!X) :- ( if q then r(!X) else if s(!X) then t else u ). ~ :-(p(!0,!1),|(->(q,r(!0,!1)),|(->(s(!0,!2),&(t,=(!1,!2))),&(u,=(!1,!0)))))\n\
p(!X) :- ( if some [!Y] q(!X, !Y) then r(!Y) else s ). ~ :-(p(!0,!1),|(->(some([!2,!3],q(!0,!4,!2,!5)),&(r(!5,!3),=(!1,!4))),&(s,=(!1,!0))))\n\
p(!X) :- ( if q(!X) then r(!X) else s(!X) ), t(!X). ~ :-(p(!0,!1),&(|(->(q(!0,!3),r(!3,!2)),s(!0,!2)),t(!2,!1)))\n\
";

// Negations, implications and quantifiers: nothing of them is seen outside.
const SCOPES: &str = "\
p(!X) :- not q(!X). ~ :-(p(!0,!1),&(not(q(!0,!2)),=(!1,!0)))\n\
p(!X) :- \\+ (q(!X), r(!X)), s(!X). ~ :-(p(!0,!1),&(\\+(&(q(!0,!3),r(!3,!2))),s(!0,!1)))\n\
p(!X) :- not not q(!X). ~ :-(p(!0,!1),&(not(not(q(!0,!2))),=(!1,!0)))\n\
p(!X) :- q(!X) => r(!X). ~ :-(p(!0,!1),&(=>(q(!0,!2),r(!2,!3)),=(!1,!0)))\n\
p(!X) :- q(!X) <= r(!X). ~ :-(p(!0,!1),&(=>(r(!0,!2),q(!2,!3)),=(!1,!0)))\n\
p(!X) :- q(!X) <=> r(!X). ~ :-(p(!0,!1),&(=>(q(!0,!2),r(!2,!3)),=>(r(!0,!4),q(!4,!5)),=(!1,!0)))\n\
p(!X) :- !.X \\= a. ~ :-(p(!0,!1),&(\\=(!0,a),=(!1,!0)))\n\
p(!X) :- !:X \\= a, q(!X). ~ :-(p(!0,!1),&(\\=(!2,a),q(!0,!1)))\n\
p(!X) :- all [A] q(A, !X). ~ :-(p(!0,!1),&(all([A],q(A,!0,!2)),=(!1,!0)))\n\
p(!X) :- some [A] q(A, !X). ~ :-(p(!0,!1),some([A],q(A,!0,!1)))\n\
p :- some [!Y] (q(!Y), r(!Y)). ~ :-(p,some([!0,!1],&(q(!0,!2),r(!2,!1))))\n\
p :- some [!Y] q(!.Y). ~ :-(p,some([!0],q(!0)))\n\
p(!X) :- some [!X] q(!X), r(!X). ~ :-(p(!0,!1),&(some([!2,!3],q(!2,!3)),r(!0,!1)))\n\
? some [!X, Y] (q(!X), r(Y, !X)). ~ some([!0,!1,Y],&(q(!0,!2),r(Y,!2,!1)))\n\
? q(X), r(X). ~ &(q(X),r(X))\n\
";

#[test]
fn clauses_and_goals_are_written_out(rt: HostRuntime) -> Result<(), Fail> {
    for (table, count) in [
        (HEADS, 12),
        (CONJUNCTIONS, 8),
        (DISJUNCTIONS, 8),
        (CONDITIONALS, 11),
        (SCOPES, 15),
    ] {
        assert_eq!(rt; rows_hold(&rt, rt.alloc(), table)?, count);
    }
    Ok(())
}
