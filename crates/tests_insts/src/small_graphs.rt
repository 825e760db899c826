//! Small graphs of insts of trees, and what their insts allow, by an enumeration of paths.

use mc_insts::InstId;

pub const FREE: InstId = 0;

pub const GROUND: InstId = 1;

pub const UNIQUE: InstId = 2;

pub const DEAD: InstId = 3;

pub const FIRST: InstId = 4;

pub const SECOND: InstId = 5;

pub const COUNT: InstId = 6;

/// How many steps the paths have at most: where two insts of a small graph differ, they do so on a path so short.
pub const DEPTH: u32 = 4;

/// What an inst allows of a state: that it has one holder, several, or none any more.
#[derive(Clone, Copy, PartialEq, Eq)]
pub struct Held {
    pub sole: bool,
    pub shared: bool,
    pub gone: bool,
}

/// What an inst allows at a tree by itself: its constructors, and of the state in `io`.
#[derive(Clone, Copy, PartialEq, Eq)]
pub struct Top {
    pub leaf: bool,
    pub io: bool,
    pub fork: bool,
    pub held: Held,
}

/// The insts of the two arguments of `fork`.
#[derive(Clone, Copy)]
pub struct Forks {
    pub left: InstId,
    pub right: InstId,
}

/// A bound inst of trees, whose constructors are `leaf`, `io(io)` and `fork(tree, tree)`: those that it lists, with the
/// insts of their arguments.
#[derive(Clone, Copy)]
pub struct BoundTree {
    pub leaf: bool,
    pub io: Option<InstId>,
    pub fork: Option<Forks>,
}

/// Two bound insts beside the builtin ones, numbered behind them.
#[derive(Clone, Copy)]
pub struct SmallGraph {
    pub first: BoundTree,
    pub second: BoundTree,
}

/// What a builtin inst allows of a state.
fn builtin_held(i: InstId) -> Held {
    Held {
        sole: i != FREE,
        shared: i == GROUND || i == DEAD,
        gone: i == DEAD,
    }
}

impl Held {
    fn either(&self, other: Held) -> Held {
        Held {
            sole: self.sole | other.sole,
            shared: self.shared | other.shared,
            gone: self.gone | other.gone,
        }
    }
}

impl Top {
    /// What one of the two allows.
    pub fn either(&self, other: Top) -> Top {
        Top {
            leaf: self.leaf | other.leaf,
            io: self.io | other.io,
            fork: self.fork | other.fork,
            held: self.held.either(other.held),
        }
    }
}

impl BoundTree {
    fn top(&self) -> Top {
        Top {
            leaf: self.leaf,
            io: self.io.is_some(),
            fork: self.fork.is_some(),
            held: builtin_held(self.io.unwrap_or(FREE)),
        }
    }
}

/// What a builtin inst allows at a tree.
fn builtin_top(i: InstId) -> Top {
    let listed = i != FREE;
    Top {
        leaf: listed,
        io: listed,
        fork: listed,
        held: builtin_held(i),
    }
}

impl SmallGraph {
    pub fn top(&self, i: InstId) -> Top {
        match i {
            FIRST => self.first.top(),
            SECOND => self.second.top(),
            _ => builtin_top(i),
        }
    }

    fn forks(&self, i: InstId) -> Option<Forks> {
        match i {
            FREE => None,
            FIRST => self.first.fork,
            SECOND => self.second.fork,
            _ => Some(Forks { left: i, right: i }),
        }
    }

    /// The insts behind `fork` in two insts; those of one stand for the other's, where that one excludes `fork`.
    pub fn forks_of_either(&self, i: InstId, j: InstId) -> Option<(Forks, Forks)> {
        match (self.forks(i), self.forks(j)) {
            (None, None) => None,
            (Some(first), None) => Some((first, first)),
            (None, Some(second)) => Some((second, second)),
            (Some(first), Some(second)) => Some((first, second)),
        }
    }

    /// Whether the first inst allows no more than the second by itself.
    fn no_more_here(&self, i: InstId, j: InstId) -> bool {
        let top = self.top(j);
        self.top(i).either(top) == top
    }

    /// Whether the first inst allows no more than the second, on the paths of at most so many steps.
    fn no_more(&self, i: InstId, j: InstId, steps: u32) -> bool {
        if !self.no_more_here(i, j) {
            return false;
        }
        if steps == 0 {
            return true;
        }
        let (Some(low), Some(high)) = (self.forks(i), self.forks(j)) else {
            return true;
        };
        self.no_more(low.left, high.left, steps - 1)
            && self.no_more(low.right, high.right, steps - 1)
    }

    /// Whether the first inst is included in the second, as far as the paths show.
    pub fn includes(&self, i: InstId, j: InstId) -> bool {
        if i == FREE || j == FREE {
            return i == j;
        }
        if i == DEAD || j == DEAD {
            return j == DEAD;
        }
        self.no_more(i, j, DEPTH)
    }
}

fn state_of(n: u32) -> Option<InstId> {
    match n % 4 {
        0 => None,
        1 => Some(GROUND),
        2 => Some(UNIQUE),
        _ => Some(DEAD),
    }
}

fn tree_of(n: u32) -> InstId {
    match n % 3 {
        0 => GROUND,
        1 => FIRST,
        _ => SECOND,
    }
}

fn forks_of(n: u32) -> Option<Forks> {
    if n == 9 {
        return None;
    }
    Some(Forks {
        left: tree_of(n / 3),
        right: tree_of(n),
    })
}

/// The bound inst of a number below 80.
fn bound_tree(n: u32) -> BoundTree {
    BoundTree {
        leaf: n % 2 == 0,
        io: state_of(n / 2),
        fork: forks_of(n / 8 % 10),
    }
}

/// One of 80 small graphs; each bound inst is the first in one of them, and the second in another.
pub fn small_graph(k: u32) -> SmallGraph {
    SmallGraph {
        first: bound_tree(k.wrapping_mul(37) % 80),
        second: bound_tree(k.wrapping_mul(29) % 80),
    }
}
