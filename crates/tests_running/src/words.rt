//! The procedures that run, by their numbers, and the symbols of their program: 0 is the empty list, 1 a list's first and
//! rest.

use mc_program::builtin::Builtin;
use test_support::{Word, Written};

/// The symbols by their names and arities.
pub const SYMBOLS: &[(&str, u32)] = &[
    ("[]", 0),
    ("[|]", 2),
    ("ann", 0),
    ("bob", 0),
    ("cid", 0),
    ("f", 1),
];

/// The number of `main`.
pub const MAIN_NUMBER: u32 = 15;

/// 0: `parent(ann, bob)`, `parent(ann, cid)`, `parent(bob, cid)`, `parent(ann, bob)`.
const PARENT: &[Word] = &[
    Word::Made(0, 2, &[]),
    Word::Made(1, 3, &[]),
    Word::All(2),
    Word::Made(0, 2, &[]),
    Word::Made(1, 4, &[]),
    Word::All(2),
    Word::Made(0, 3, &[]),
    Word::Made(1, 4, &[]),
    Word::All(2),
    Word::Made(0, 2, &[]),
    Word::Made(1, 3, &[]),
    Word::All(2),
    Word::Any(4),
];

/// 1: `q(1, 3)`, `q(1, 2)`.
const Q: &[Word] = &[
    Word::Int(0, 1),
    Word::Int(1, 3),
    Word::All(2),
    Word::Int(0, 1),
    Word::Int(1, 2),
    Word::All(2),
    Word::Any(2),
];

/// 2: `r(2, 20)`, `r(3, 30)`.
const R: &[Word] = &[
    Word::Int(0, 2),
    Word::Int(1, 20),
    Word::All(2),
    Word::Int(0, 3),
    Word::Int(1, 30),
    Word::All(2),
    Word::Any(2),
];

/// 3: `p(X, Z)`: q(X, Y), r(Y, Z).
const P: &[Word] = &[Word::Call(1, &[0, 2]), Word::Call(2, &[2, 1]), Word::All(2)];

/// 4: `depth(N, D)`: if N = 0 then D = 0 else depth(N - 1, D0), D = D0 + 1.
const DEPTH: &[Word] = &[
    Word::Int(0, 0),
    Word::Int(1, 0),
    Word::Int(2, 1),
    Word::Apply(Builtin::IntMinus, &[0, 2], &[3]),
    Word::Call(4, &[3, 4]),
    Word::Apply(Builtin::IntPlus, &[4, 2], &[1]),
    Word::All(4),
    Word::If,
];

/// 5: `loop`: loop.
const LOOP: &[Word] = &[Word::Call(5, &[])];

/// 6: `t(7)`, and `t(X)`: X = 1 // 0.
const T: &[Word] = &[
    Word::Int(0, 7),
    Word::Int(1, 1),
    Word::Int(2, 0),
    Word::Apply(Builtin::IntQuotient, &[1, 2], &[0]),
    Word::All(3),
    Word::Any(2),
];

/// 7: `append([], L, L)`, and `append([X | Xs], Ys, [X | Zs])`: append(Xs, Ys, Zs).
const APPEND: &[Word] = &[
    Word::Made(0, 0, &[]),
    Word::Same(2, 1),
    Word::All(2),
    Word::Made(0, 1, &[3, 4]),
    Word::Call(7, &[4, 1, 5]),
    Word::Made(2, 1, &[3, 5]),
    Word::All(3),
    Word::Switch(0, 2),
];

/// 8: `select(X, [X | Xs], Xs)`, and `select(X, [Y | Ys], [Y | Zs])`: select(X, Ys, Zs).
const SELECT: &[Word] = &[
    Word::Made(1, 1, &[0, 2]),
    Word::Made(1, 1, &[3, 4]),
    Word::Call(8, &[0, 4, 5]),
    Word::Made(2, 1, &[3, 5]),
    Word::All(3),
    Word::Any(2),
];

/// 9: `safe(_, _, [])`, and `safe(Q, D, [P | Ps])`: Q \= P + D, Q \= P - D, safe(Q, D + 1, Ps).
const SAFE: &[Word] = &[
    Word::Made(2, 0, &[]),
    Word::Made(2, 1, &[3, 4]),
    Word::Apply(Builtin::IntPlus, &[3, 1], &[5]),
    Word::Same(0, 5),
    Word::Not,
    Word::Apply(Builtin::IntMinus, &[3, 1], &[6]),
    Word::Same(0, 6),
    Word::Not,
    Word::Int(7, 1),
    Word::Apply(Builtin::IntPlus, &[1, 7], &[8]),
    Word::Call(9, &[0, 8, 4]),
    Word::All(8),
    Word::Switch(2, 2),
];

/// 10: `place([], _, [])`, and `place([C | Cs], Placed, [Q | Qs])`: select(Q, [C | Cs], Rest), safe(Q, 1, Placed),
/// place(Rest, [Q | Placed], Qs).
const PLACE: &[Word] = &[
    Word::Made(0, 0, &[]),
    Word::Made(2, 0, &[]),
    Word::All(2),
    Word::Made(0, 1, &[3, 4]),
    Word::Call(8, &[5, 0, 6]),
    Word::Int(7, 1),
    Word::Call(9, &[5, 7, 1]),
    Word::Made(8, 1, &[5, 1]),
    Word::Call(10, &[6, 8, 9]),
    Word::Made(2, 1, &[5, 9]),
    Word::All(7),
    Word::Switch(0, 2),
];

/// 11: `queens(Qs)`: place([1, 2, 3, 4, 5, 6], [], Qs).
const QUEENS: &[Word] = &[
    Word::Made(1, 0, &[]),
    Word::Int(2, 6),
    Word::Made(3, 1, &[2, 1]),
    Word::Int(4, 5),
    Word::Made(5, 1, &[4, 3]),
    Word::Int(6, 4),
    Word::Made(7, 1, &[6, 5]),
    Word::Int(8, 3),
    Word::Made(9, 1, &[8, 7]),
    Word::Int(10, 2),
    Word::Made(11, 1, &[10, 9]),
    Word::Int(12, 1),
    Word::Made(13, 1, &[12, 11]),
    Word::Call(10, &[13, 1, 0]),
    Word::All(14),
];

/// 12: `nest(N, T)`: if N = 0 then T = ann else nest(N - 1, T0), T = f(T0).
const NEST: &[Word] = &[
    Word::Int(0, 0),
    Word::Made(1, 2, &[]),
    Word::Int(2, 1),
    Word::Apply(Builtin::IntMinus, &[0, 2], &[3]),
    Word::Call(12, &[3, 4]),
    Word::Made(1, 5, &[4]),
    Word::All(4),
    Word::If,
];

/// 13: `sum([], S, S)`, and `sum([X | Xs], S0, S)`: sum(Xs, S0 + X, S).
const SUM: &[Word] = &[
    Word::Made(0, 0, &[]),
    Word::Same(2, 1),
    Word::All(2),
    Word::Made(0, 1, &[3, 4]),
    Word::Apply(Builtin::IntPlus, &[1, 3], &[5]),
    Word::Call(13, &[4, 5, 2]),
    Word::All(3),
    Word::Switch(0, 2),
];

/// 14: `squares(N, !IO)`: if N > 3 then true else io.write_int(N * N, !IO), io.nl(!IO), squares(N + 1, !IO).
const SQUARES: &[Word] = &[
    Word::Int(3, 3),
    Word::Apply(Builtin::IntGreater, &[0, 3], &[]),
    Word::All(2),
    Word::Same(2, 1),
    Word::Apply(Builtin::IntTimes, &[0, 0], &[4]),
    Word::Apply(Builtin::WriteInt, &[4, 1], &[5]),
    Word::Apply(Builtin::Nl, &[5], &[6]),
    Word::Int(7, 1),
    Word::Apply(Builtin::IntPlus, &[0, 7], &[8]),
    Word::Call(14, &[8, 6, 2]),
    Word::All(6),
    Word::If,
];

/// 15: `main(!IO)`: sum([3, 4, 5], 0, S), io.write_string("Total: " ++ int_to_string(S) ++ "\n", !IO), squares(1, !IO).
const MAIN: &[Word] = &[
    Word::Made(2, 0, &[]),
    Word::Int(3, 5),
    Word::Made(4, 1, &[3, 2]),
    Word::Int(5, 4),
    Word::Made(6, 1, &[5, 4]),
    Word::Int(7, 3),
    Word::Made(8, 1, &[7, 6]),
    Word::Int(9, 0),
    Word::Call(13, &[8, 9, 10]),
    Word::Apply(Builtin::IntToString, &[10], &[11]),
    Word::Text(12, "\n"),
    Word::Apply(Builtin::StringJoin, &[11, 12], &[13]),
    Word::Text(14, "Total: "),
    Word::Apply(Builtin::StringJoin, &[14, 13], &[15]),
    Word::Apply(Builtin::WriteString, &[15, 0], &[16]),
    Word::Int(17, 1),
    Word::Call(14, &[17, 16, 1]),
    Word::All(17),
];

/// 16: `nest_first(N, T)`: if N = 0 then T = ann else nest_first(N - 1, T0), T = [T0 | ann].
const NEST_FIRST: &[Word] = &[
    Word::Int(0, 0),
    Word::Made(1, 2, &[]),
    Word::Int(2, 1),
    Word::Apply(Builtin::IntMinus, &[0, 2], &[3]),
    Word::Call(16, &[3, 4]),
    Word::Made(5, 2, &[]),
    Word::Made(1, 1, &[4, 5]),
    Word::All(5),
    Word::If,
];

/// The procedures.
pub const PROCEDURES: &[Written] = &[
    Written {
        variables: 2,
        head: &[0, 1],
        inputs: &[0, 0],
        body: PARENT,
    },
    Written {
        variables: 2,
        head: &[0, 1],
        inputs: &[1, 0],
        body: Q,
    },
    Written {
        variables: 2,
        head: &[0, 1],
        inputs: &[1, 0],
        body: R,
    },
    Written {
        variables: 3,
        head: &[0, 1],
        inputs: &[1, 0],
        body: P,
    },
    Written {
        variables: 5,
        head: &[0, 1],
        inputs: &[1, 0],
        body: DEPTH,
    },
    Written {
        variables: 0,
        head: &[],
        inputs: &[],
        body: LOOP,
    },
    Written {
        variables: 3,
        head: &[0],
        inputs: &[0],
        body: T,
    },
    Written {
        variables: 6,
        head: &[0, 1, 2],
        inputs: &[1, 1, 0],
        body: APPEND,
    },
    Written {
        variables: 6,
        head: &[0, 1, 2],
        inputs: &[0, 1, 0],
        body: SELECT,
    },
    Written {
        variables: 9,
        head: &[0, 1, 2],
        inputs: &[1, 1, 1],
        body: SAFE,
    },
    Written {
        variables: 10,
        head: &[0, 1, 2],
        inputs: &[1, 1, 0],
        body: PLACE,
    },
    Written {
        variables: 14,
        head: &[0],
        inputs: &[0],
        body: QUEENS,
    },
    Written {
        variables: 5,
        head: &[0, 1],
        inputs: &[1, 0],
        body: NEST,
    },
    Written {
        variables: 6,
        head: &[0, 1, 2],
        inputs: &[1, 1, 0],
        body: SUM,
    },
    Written {
        variables: 9,
        head: &[0, 1, 2],
        inputs: &[1, 1, 0],
        body: SQUARES,
    },
    Written {
        variables: 18,
        head: &[0, 1],
        inputs: &[1, 0],
        body: MAIN,
    },
    Written {
        variables: 6,
        head: &[0, 1],
        inputs: &[1, 0],
        body: NEST_FIRST,
    },
];
