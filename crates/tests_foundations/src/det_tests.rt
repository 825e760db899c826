//! The tables of determinism, as the manual prints them.
use mc_source::det::{Det, Most};

const E: Det = Det {
    can_fail: false,
    most: Most::Zero,
    committed: false,
};

const F: Det = Det {
    can_fail: true,
    most: Most::Zero,
    committed: false,
};

const D: Det = Det {
    can_fail: false,
    most: Most::One,
    committed: false,
};

const S: Det = Det {
    can_fail: true,
    most: Most::One,
    committed: false,
};

const M: Det = Det {
    can_fail: false,
    most: Most::Many,
    committed: false,
};

const N: Det = Det {
    can_fail: true,
    most: Most::Many,
    committed: false,
};

const CC_MULTI: Det = Det {
    can_fail: false,
    most: Most::Many,
    committed: true,
};

const CC_NONDET: Det = Det {
    can_fail: true,
    most: Most::Many,
    committed: true,
};

const CC_ONCE: Det = Det {
    can_fail: false,
    most: Most::One,
    committed: true,
};

/// `erroneous`, `failure`, `det`, `semidet`, `multi` or `nondet`, by its first letter.
fn letter(d: Det) -> u8 {
    match (d.committed, d.can_fail, d.most) {
        (true, _, _) => b'c',
        (_, false, Most::Zero) => b'e',
        (_, true, Most::Zero) => b'f',
        (_, false, Most::One) => b'd',
        (_, true, Most::One) => b's',
        (_, false, Most::Many) => b'm',
        (_, true, Most::Many) => b'n',
    }
}

/// A row of a table, over the six determinisms in that order.
fn row(e: Det, f: Det, d: Det, s: Det, m: Det, n: Det) -> [u8; 6] {
    [
        letter(e),
        letter(f),
        letter(d),
        letter(s),
        letter(m),
        letter(n),
    ]
}

fn conj_row(a: Det) -> [u8; 6] {
    row(
        a.conj(E),
        a.conj(F),
        a.conj(D),
        a.conj(S),
        a.conj(M),
        a.conj(N),
    )
}

fn disj_row(a: Det) -> [u8; 6] {
    row(
        a.disj(E),
        a.disj(F),
        a.disj(D),
        a.disj(S),
        a.disj(M),
        a.disj(N),
    )
}

fn ite_row(c: Det, t: Det) -> [u8; 6] {
    row(
        c.ite(t, E),
        c.ite(t, F),
        c.ite(t, D),
        c.ite(t, S),
        c.ite(t, M),
        c.ite(t, N),
    )
}

fn allowed_by(a: Det) -> [bool; 6] {
    [
        a.at_most(E),
        a.at_most(F),
        a.at_most(D),
        a.at_most(S),
        a.at_most(M),
        a.at_most(N),
    ]
}

#[test]
fn conjunctions(rt: HostRuntime) {
    assert_eq!(rt; conj_row(E), *b"eeeeee");
    assert_eq!(rt; conj_row(F), *b"ffffff");
    assert_eq!(rt; conj_row(D), *b"efdsmn");
    assert_eq!(rt; conj_row(S), *b"ffssnn");
    assert_eq!(rt; conj_row(M), *b"efmnmn");
    assert_eq!(rt; conj_row(N), *b"ffnnnn");
}

#[test]
fn disjunctions(rt: HostRuntime) {
    assert_eq!(rt; disj_row(E), *b"eeddmm");
    assert_eq!(rt; disj_row(F), *b"efdsmn");
    assert_eq!(rt; disj_row(D), *b"ddmmmm");
    assert_eq!(rt; disj_row(S), *b"dsmnmn");
    assert_eq!(rt; disj_row(M), *b"mmmmmm");
    assert_eq!(rt; disj_row(N), *b"mnmnmn");
}

#[test]
fn conditions_that_fail(rt: HostRuntime) {
    assert_eq!(rt; ite_row(F, E), *b"efdsmn");
    assert_eq!(rt; ite_row(F, F), *b"ffssnn");
    assert_eq!(rt; ite_row(F, D), *b"efdsmn");
    assert_eq!(rt; ite_row(F, S), *b"ffssnn");
    assert_eq!(rt; ite_row(F, M), *b"efmnmn");
    assert_eq!(rt; ite_row(F, N), *b"ffnnnn");
}

#[test]
fn conditions_that_are_semidet(rt: HostRuntime) {
    assert_eq!(rt; ite_row(S, E), *b"efdsmn");
    assert_eq!(rt; ite_row(S, F), *b"ffssnn");
    assert_eq!(rt; ite_row(S, D), *b"dsdsmn");
    assert_eq!(rt; ite_row(S, S), *b"ssssnn");
    assert_eq!(rt; ite_row(S, M), *b"mnmnmn");
    assert_eq!(rt; ite_row(S, N), *b"nnnnnn");
}

#[test]
fn conditions_that_are_nondet(rt: HostRuntime) {
    assert_eq!(rt; ite_row(N, E), *b"efmnmn");
    assert_eq!(rt; ite_row(N, F), *b"ffnnnn");
    assert_eq!(rt; ite_row(N, D), *b"mnmnmn");
    assert_eq!(rt; ite_row(N, S), *b"nnnnnn");
    assert_eq!(rt; ite_row(N, M), *b"mnmnmn");
    assert_eq!(rt; ite_row(N, N), *b"nnnnnn");
}

#[test]
fn conditions_that_never_return(rt: HostRuntime) {
    assert_eq!(rt; ite_row(E, E), *b"eeeeee");
    assert_eq!(rt; ite_row(E, F), *b"eeeeee");
    assert_eq!(rt; ite_row(E, D), *b"eeeeee");
    assert_eq!(rt; ite_row(E, S), *b"eeeeee");
    assert_eq!(rt; ite_row(E, M), *b"eeeeee");
    assert_eq!(rt; ite_row(E, N), *b"eeeeee");
}

#[test]
fn conditions_that_are_det(rt: HostRuntime) {
    assert_eq!(rt; ite_row(D, E), *b"eeeeee");
    assert_eq!(rt; ite_row(D, F), *b"ffffff");
    assert_eq!(rt; ite_row(D, D), *b"dddddd");
    assert_eq!(rt; ite_row(D, S), *b"ssssss");
    assert_eq!(rt; ite_row(D, M), *b"mmmmmm");
    assert_eq!(rt; ite_row(D, N), *b"nnnnnn");
}

#[test]
fn conditions_that_are_multi(rt: HostRuntime) {
    assert_eq!(rt; ite_row(M, E), *b"eeeeee");
    assert_eq!(rt; ite_row(M, F), *b"ffffff");
    assert_eq!(rt; ite_row(M, D), *b"mmmmmm");
    assert_eq!(rt; ite_row(M, S), *b"nnnnnn");
    assert_eq!(rt; ite_row(M, M), *b"mmmmmm");
    assert_eq!(rt; ite_row(M, N), *b"nnnnnn");
}

#[test]
fn negations_and_pruned_goals(rt: HostRuntime) {
    let negations = row(
        E.negated(),
        F.negated(),
        D.negated(),
        S.negated(),
        M.negated(),
        N.negated(),
    );
    assert_eq!(rt; negations, *b"edfsfs");
    let pruned = row(
        E.pruned(),
        F.pruned(),
        D.pruned(),
        S.pruned(),
        M.pruned(),
        N.pruned(),
    );
    assert_eq!(rt; pruned, *b"efdsds");
}

#[test]
fn declarations(rt: HostRuntime) {
    assert_eq!(rt; allowed_by(E), [true, true, true, true, true, true]);
    assert_eq!(rt; allowed_by(F), [false, true, false, true, false, true]);
    assert_eq!(rt; allowed_by(D), [false, false, true, true, true, true]);
    assert_eq!(rt; allowed_by(S), [false, false, false, true, false, true]);
    assert_eq!(rt; allowed_by(M), [false, false, false, false, true, true]);
    assert_eq!(rt; allowed_by(N), [false, false, false, false, false, true]);
}

#[test]
fn committed_declarations(rt: HostRuntime) {
    assert!(rt; E.at_most(CC_MULTI));
    assert!(rt; !F.at_most(CC_MULTI));
    assert!(rt; D.at_most(CC_MULTI));
    assert!(rt; !S.at_most(CC_MULTI));
    assert!(rt; M.at_most(CC_MULTI));
    assert!(rt; !N.at_most(CC_MULTI));
    assert!(rt; E.at_most(CC_NONDET));
    assert!(rt; F.at_most(CC_NONDET));
    assert!(rt; D.at_most(CC_NONDET));
    assert!(rt; S.at_most(CC_NONDET));
    assert!(rt; M.at_most(CC_NONDET));
    assert!(rt; N.at_most(CC_NONDET));
}

#[test]
fn committed_ones_count_as_many(rt: HostRuntime) {
    let results = row(
        CC_ONCE.conj(D),
        D.disj(CC_ONCE),
        CC_NONDET.ite(D, D),
        CC_MULTI.negated(),
        CC_ONCE.pruned(),
        D,
    );
    assert_eq!(rt; results, *b"mmmfdd");
    assert!(rt; M.at_most(CC_ONCE));
}
