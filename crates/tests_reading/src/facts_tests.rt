// Clauses that stay as they are where state variables are written out, and clauses that don't.
use mc_state_variables::stays_as_written;
use mc_terms::read_term;
use std::alloc::Global;
use std::test::Fail;

const STAYING: &str = "\
p.\n\
p(a, b).\n\
p(X, _, -1, \"!X\").\n\
p('!', 'a!b', '!.', '!:X').\n\
p('!'(a), '!'(X, Y), '!'('X')).\n\
p(f(g(h(X), [a, b | T])), [], [c]).\n\
f(X) = g(X).\n\
(p, q(X) ; r).\n\
";

const CHANGING: &str = "\
p(!X).\n\
p(a, !.X).\n\
p(a, !:X, b).\n\
p('!'(X)).\n\
p(f(g(h(!.X), [a]))).\n\
p([a, !X]).\n\
p([a | !.X]).\n\
f(!.X) = !:X.\n\
(p, q(!X) ; r).\n\
p :- q.\n\
p(a) :- true.\n\
':-'(p, q).\n\
";

// Whether the clause of a text stays as it is.
fn stays(alloc: Global, text: &str) -> Option<bool> {
    if text.len() >= 1 << 20 {
        return None;
    }
    match read_term(alloc, text.as_bytes(), 0) {
        Ok(Some((term, _))) => Some(stays_as_written(&term)),
        _ => None,
    }
}

#[test]
fn facts_without_state_variables_stay(rt: HostRuntime) -> Result<(), Fail> {
    for text in STAYING.lines() {
        assert_eq!(rt; stays(rt.alloc(), text), Some(true), "{text}");
    }
    for text in CHANGING.lines() {
        assert_eq!(rt; stays(rt.alloc(), text), Some(false), "{text}");
    }
    Ok(())
}
