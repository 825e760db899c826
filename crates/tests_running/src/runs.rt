//! Queries, with what their runs show.

use mc_model::run::Limits;
use mc_program::builtin::Builtin;
use test_support::Word;

/// A query: a goal with so many variables, of which those of `head` are answered.
#[derive(Clone, Copy)]
pub struct Query {
    pub variables: u32,
    pub head: &'static [u32],
    pub goal: &'static [Word],
}

/// A query, what its run shows and after how many calls, how many calls it makes, and how it ends after them.
#[derive(Clone, Copy)]
pub struct Run {
    pub query: Query,
    pub shown: &'static [(u32, &'static str)],
    pub calls: u32,
    pub end: &'static str,
}

pub const RUNS: &[Run] = &[
    // `parent(X, Y)`
    Run {
        query: Query {
            variables: 2,
            head: &[0, 1],
            goal: &[Word::Call(0, &[0, 1])],
        },
        shown: &[
            (1, " ann bob;"),
            (1, " ann cid;"),
            (1, " bob cid;"),
            (1, " ann bob;"),
        ],
        calls: 1,
        end: "end",
    },
    // `parent(X, _)`
    Run {
        query: Query {
            variables: 2,
            head: &[0],
            goal: &[Word::Call(0, &[0, 1])],
        },
        shown: &[(1, " ann;"), (1, " ann;"), (1, " bob;"), (1, " ann;")],
        calls: 1,
        end: "end",
    },
    // `parent(_, _)`, which binds nothing outside.
    Run {
        query: Query {
            variables: 2,
            head: &[],
            goal: &[Word::Call(0, &[0, 1]), Word::Once],
        },
        shown: &[(1, ";")],
        calls: 1,
        end: "end",
    },
    // `parent(ann, Y)`
    Run {
        query: Query {
            variables: 2,
            head: &[1],
            goal: &[Word::Made(0, 2, &[]), Word::Call(0, &[0, 1]), Word::All(2)],
        },
        shown: &[(1, " bob;"), (1, " cid;"), (1, " bob;")],
        calls: 1,
        end: "end",
    },
    // `p(1, Z)`: q runs before r.
    Run {
        query: Query {
            variables: 2,
            head: &[1],
            goal: &[Word::Int(0, 1), Word::Call(3, &[0, 1]), Word::All(2)],
        },
        shown: &[(3, " 30;"), (4, " 20;")],
        calls: 4,
        end: "end",
    },
    // `append([1], [2], [1, 2])`
    Run {
        query: Query {
            variables: 7,
            head: &[],
            goal: &[
                Word::Made(0, 0, &[]),
                Word::Int(1, 1),
                Word::Int(2, 2),
                Word::Made(3, 1, &[1, 0]),
                Word::Made(4, 1, &[2, 0]),
                Word::Made(5, 1, &[1, 4]),
                Word::Call(7, &[3, 4, 5]),
                Word::All(7),
            ],
        },
        shown: &[(2, ";")],
        calls: 2,
        end: "end",
    },
    // `append([1], [2], [2, 1])`
    Run {
        query: Query {
            variables: 7,
            head: &[],
            goal: &[
                Word::Made(0, 0, &[]),
                Word::Int(1, 1),
                Word::Int(2, 2),
                Word::Made(3, 1, &[1, 0]),
                Word::Made(4, 1, &[2, 0]),
                Word::Made(5, 1, &[2, 3]),
                Word::Call(7, &[3, 4, 5]),
                Word::All(7),
            ],
        },
        shown: &[],
        calls: 2,
        end: "end",
    },
    // `depth(5, D)`
    Run {
        query: Query {
            variables: 2,
            head: &[1],
            goal: &[Word::Int(0, 5), Word::Call(4, &[0, 1]), Word::All(2)],
        },
        shown: &[(6, " 5;")],
        calls: 6,
        end: "end",
    },
    // `loop`, of which only the first calls are run.
    Run {
        query: Query {
            variables: 0,
            head: &[],
            goal: &[Word::Call(5, &[])],
        },
        shown: &[],
        calls: 5,
        end: "budget",
    },
    // `t(X)`: an exception behind an answer.
    Run {
        query: Query {
            variables: 1,
            head: &[0],
            goal: &[Word::Call(6, &[0])],
        },
        shown: &[(1, " 7;")],
        calls: 1,
        end: "zero divisor",
    },
    // `X = 9223372036854775807 + 1`
    Run {
        query: Query {
            variables: 3,
            head: &[0],
            goal: &[
                Word::Int(1, i64::MAX),
                Word::Int(2, 1),
                Word::Apply(Builtin::IntPlus, &[1, 2], &[0]),
                Word::All(3),
            ],
        },
        shown: &[(0, " -9223372036854775808;")],
        calls: 0,
        end: "end",
    },
    // `X = -9223372036854775808`
    Run {
        query: Query {
            variables: 1,
            head: &[0],
            goal: &[Word::Int(0, i64::MIN)],
        },
        shown: &[(0, " -9223372036854775808;")],
        calls: 0,
        end: "end",
    },
    // `A = -7 // 2, B = -7 div 2, C = -7 rem 2, D = -7 mod 2`
    Run {
        query: Query {
            variables: 6,
            head: &[0, 1, 2, 3],
            goal: &[
                Word::Int(4, -7),
                Word::Int(5, 2),
                Word::Apply(Builtin::IntQuotient, &[4, 5], &[0]),
                Word::Apply(Builtin::IntDiv, &[4, 5], &[1]),
                Word::Apply(Builtin::IntRem, &[4, 5], &[2]),
                Word::Apply(Builtin::IntMod, &[4, 5], &[3]),
                Word::All(6),
            ],
        },
        shown: &[(0, " -3 -4 -1 1;")],
        calls: 0,
        end: "end",
    },
    // `queens(Qs)`
    Run {
        query: Query {
            variables: 1,
            head: &[0],
            goal: &[Word::Call(11, &[0])],
        },
        shown: &[
            (325, " 2 4 6 1 3 5 [];"),
            (738, " 3 6 2 5 1 4 [];"),
            (886, " 4 1 5 2 6 3 [];"),
            (1299, " 5 3 1 6 4 2 [];"),
        ],
        calls: 1595,
        end: "end",
    },
    // `not t(_)`: no exception, since there is an answer before it.
    Run {
        query: Query {
            variables: 1,
            head: &[],
            goal: &[Word::Call(6, &[0]), Word::Not],
        },
        shown: &[],
        calls: 1,
        end: "end",
    },
    // `X = 1, not X = X // 0`
    Run {
        query: Query {
            variables: 3,
            head: &[],
            goal: &[
                Word::Int(0, 1),
                Word::Int(1, 0),
                Word::Apply(Builtin::IntQuotient, &[0, 1], &[2]),
                Word::Not,
                Word::All(3),
            ],
        },
        shown: &[],
        calls: 0,
        end: "zero divisor",
    },
    // `( if t(X) then true else X = 9 )`: all answers of a condition.
    Run {
        query: Query {
            variables: 1,
            head: &[0],
            goal: &[Word::Call(6, &[0]), Word::All(0), Word::Int(0, 9), Word::If],
        },
        shown: &[(1, " 7;")],
        calls: 1,
        end: "zero divisor",
    },
    // `( if Y = 1 // 0 then true else X = 9 )`
    Run {
        query: Query {
            variables: 4,
            head: &[0],
            goal: &[
                Word::Int(1, 1),
                Word::Int(2, 0),
                Word::Apply(Builtin::IntQuotient, &[1, 2], &[3]),
                Word::All(3),
                Word::All(0),
                Word::Int(0, 9),
                Word::If,
            ],
        },
        shown: &[],
        calls: 0,
        end: "zero divisor",
    },
    // `( if q(2, X) then true else t(X) )`
    Run {
        query: Query {
            variables: 2,
            head: &[0],
            goal: &[
                Word::Int(1, 2),
                Word::Call(1, &[1, 0]),
                Word::All(2),
                Word::All(0),
                Word::Call(6, &[0]),
                Word::If,
            ],
        },
        shown: &[(2, " 7;")],
        calls: 2,
        end: "zero divisor",
    },
    // `t(X)`, pruned to its first answer.
    Run {
        query: Query {
            variables: 1,
            head: &[0],
            goal: &[Word::Call(6, &[0]), Word::Once],
        },
        shown: &[(1, " 7;")],
        calls: 1,
        end: "end",
    },
    // `r(3, X), not q(X, _)`
    Run {
        query: Query {
            variables: 3,
            head: &[0],
            goal: &[
                Word::Int(1, 3),
                Word::Call(2, &[1, 0]),
                Word::Call(1, &[0, 2]),
                Word::Not,
                Word::All(3),
            ],
        },
        shown: &[(2, " 30;")],
        calls: 2,
        end: "end",
    },
];

/// The run of `main`: three numbers are summed, and three squares are written.
pub const MAIN: Run = Run {
    query: NOTHING,
    shown: &[
        (5, "Total: 12\n"),
        (6, "1\n"),
        (7, "4\n"),
        (8, "9\n"),
        (9, " a state a state;"),
    ],
    calls: 9,
    end: "end",
};

/// A query without goals.
const NOTHING: Query = Query {
    variables: 0,
    head: &[],
    goal: &[],
};

/// `depth(5, D)`: six calls, none of which is a last call.
const DEPTH: Query = Query {
    variables: 2,
    head: &[1],
    goal: &[Word::Int(0, 5), Word::Call(4, &[0, 1]), Word::All(2)],
};

/// `loop`, which has no end.
const LOOP: Query = Query {
    variables: 0,
    head: &[],
    goal: &[Word::Call(5, &[])],
};

/// `nest(1000000, X), nest(1000000, Y), X = Y`
pub const NESTED: Query = Query {
    variables: 3,
    head: &[1],
    goal: &[
        Word::Int(0, 1_000_000),
        Word::Call(12, &[0, 1]),
        Word::Call(12, &[0, 2]),
        Word::Same(1, 2),
        Word::All(4),
    ],
};

/// `nest_first(1000000, X), nest_first(1000000, Y), X = Y`
pub const NESTED_FIRST: Query = Query {
    variables: 3,
    head: &[1],
    goal: &[
        Word::Int(0, 1_000_000),
        Word::Call(16, &[0, 1]),
        Word::Call(16, &[0, 2]),
        Word::Same(1, 2),
        Word::All(4),
    ],
};

/// Queries with a budget and a depth, and what their runs show. A call that finds no height is told before one that finds
/// no budget.
pub const WHOLE: &[(Query, Limits, &str)] = &[
    (
        DEPTH,
        Limits {
            budget: 100_000_000,
            depth: 10_000_000,
        },
        " 5;end",
    ),
    (
        DEPTH,
        Limits {
            budget: 1,
            depth: 10_000_000,
        },
        "budget",
    ),
    (
        DEPTH,
        Limits {
            budget: 100_000_000,
            depth: 1,
        },
        "depth",
    ),
    (
        DEPTH,
        Limits {
            budget: 1,
            depth: 1,
        },
        "depth",
    ),
    (
        DEPTH,
        Limits {
            budget: 100,
            depth: 0,
        },
        "depth",
    ),
    (
        DEPTH,
        Limits {
            budget: 100,
            depth: 5,
        },
        "depth",
    ),
    (
        DEPTH,
        Limits {
            budget: 100,
            depth: 6,
        },
        " 5;end",
    ),
    (
        DEPTH,
        Limits {
            budget: 0,
            depth: 0,
        },
        "depth",
    ),
    (
        LOOP,
        Limits {
            budget: 5,
            depth: 5,
        },
        "depth",
    ),
    (
        LOOP,
        Limits {
            budget: 5,
            depth: 6,
        },
        "budget",
    ),
    (
        LOOP,
        Limits {
            budget: 100_000_000,
            depth: 1_000_000,
        },
        "depth",
    ),
    (
        LOOP,
        Limits {
            budget: 1_000_000,
            depth: 10_000_000,
        },
        "budget",
    ),
];
