//! The procedures that are measured, and the queries that run them. Symbol 0 is the empty list, 1 a list's first and rest.

use mc_program::builtin::Builtin;
use test_support::{Word, Written};

/// `count(I, N)`: if I < N then J = I + 1, count(J, N) else true.
const COUNT: &[Word] = &[
    Word::Apply(Builtin::IntLess, &[0, 1], &[]),
    Word::Int(2, 1),
    Word::Apply(Builtin::IntPlus, &[0, 2], &[3]),
    Word::Call(0, &[3, 1]),
    Word::All(3),
    Word::All(0),
    Word::If,
];

/// `deep(N, D)`: if N = 0 then D = 0 else deep(N - 1, D0), D = D0 + 1.
const DEEP: &[Word] = &[
    Word::Int(0, 0),
    Word::Int(1, 0),
    Word::Int(2, 1),
    Word::Apply(Builtin::IntMinus, &[0, 2], &[3]),
    Word::Call(1, &[3, 4]),
    Word::Apply(Builtin::IntPlus, &[4, 2], &[1]),
    Word::All(4),
    Word::If,
];

/// `append([], L, L)`, and `append([X | Xs], Ys, [X | Zs])`: append(Xs, Ys, Zs).
const APPEND: &[Word] = &[
    Word::Made(0, 0, &[]),
    Word::Same(2, 1),
    Word::All(2),
    Word::Made(0, 1, &[3, 4]),
    Word::Call(2, &[4, 1, 5]),
    Word::Made(2, 1, &[3, 5]),
    Word::All(3),
    Word::Switch(0, 2),
];

/// `reverse([], [])`, and `reverse([X | Xs], Ys)`: reverse(Xs, Zs), append(Zs, [X], Ys).
const REVERSE: &[Word] = &[
    Word::Made(0, 0, &[]),
    Word::Made(1, 0, &[]),
    Word::All(2),
    Word::Made(0, 1, &[2, 3]),
    Word::Call(3, &[3, 4]),
    Word::Made(6, 0, &[]),
    Word::Made(5, 1, &[2, 6]),
    Word::Call(2, &[4, 5, 1]),
    Word::All(5),
    Word::Switch(0, 2),
];

/// `range(N, L)`: if N = 0 then L = [] else range(N - 1, M), L = [N | M].
const RANGE: &[Word] = &[
    Word::Int(0, 0),
    Word::Made(1, 0, &[]),
    Word::Int(2, 1),
    Word::Apply(Builtin::IntMinus, &[0, 2], &[3]),
    Word::Call(4, &[3, 4]),
    Word::Made(1, 1, &[0, 4]),
    Word::All(4),
    Word::If,
];

/// `digit(0)` to `digit(9)`.
const DIGIT: &[Word] = &[
    Word::Int(0, 0),
    Word::Int(0, 1),
    Word::Int(0, 2),
    Word::Int(0, 3),
    Word::Int(0, 4),
    Word::Int(0, 5),
    Word::Int(0, 6),
    Word::Int(0, 7),
    Word::Int(0, 8),
    Word::Int(0, 9),
    Word::Any(10),
];

/// The procedures, by their numbers.
pub const PROCEDURES: &[Written] = &[
    Written {
        variables: 4,
        head: &[0, 1],
        inputs: &[1, 1],
        body: COUNT,
    },
    Written {
        variables: 5,
        head: &[0, 1],
        inputs: &[1, 0],
        body: DEEP,
    },
    Written {
        variables: 6,
        head: &[0, 1, 2],
        inputs: &[1, 1, 0],
        body: APPEND,
    },
    Written {
        variables: 7,
        head: &[0, 1],
        inputs: &[1, 0],
        body: REVERSE,
    },
    Written {
        variables: 5,
        head: &[0, 1],
        inputs: &[1, 0],
        body: RANGE,
    },
    Written {
        variables: 1,
        head: &[0],
        inputs: &[0],
        body: DIGIT,
    },
];

/// The digits that an answer has, at most.
pub const DIGITS: [Word; 6] = [
    Word::Call(5, &[0]),
    Word::Call(5, &[1]),
    Word::Call(5, &[2]),
    Word::Call(5, &[3]),
    Word::Call(5, &[4]),
    Word::Call(5, &[5]),
];
