ghost use Rattle.std.specs.Prelude.{◌≡◌, IsTrue, ◌↔◌};
ghost use Rattle.mc_source.specs.Determinism.{row_of, inferred, conj, disj, ite, negated, pruned, Allows};

/// At most how many answers there are.
#[derive(Clone, Copy, Debug, PartialEq, Eq)]
pub enum Most {
    Zero,
    One,
    Many,
}

impl Most {
    fn greater(self, other: Most) -> Most
        ensures { result ≡ Rattle.mc_source.specs.Determinism.greater self other }
    {
        match self {
            Most::Zero => other,
            Most::One if other == Most::Many => Most::Many,
            Most::One => Most::One,
            Most::Many => Most::Many,
        }
    }
}

/// A determinism: whether a goal can fail, at most how many answers it has, and whether it is committed to its first.
/// (Manual: Determinism.)
///
/// In the tables a committed determinism counts as one with many answers, whatever `most` says, since a declaration that
/// is committed allows as many. What the tables give is never committed: only declarations are.
#[derive(Clone, Copy, Debug, PartialEq, Eq)]
pub struct Det {
    pub can_fail: bool,
    pub most: Most,
    pub committed: bool,
}

impl Det {
    /// The determinism of a conjunction.
    pub fn conj(self, b: Det) -> Det
        ensures { result ≡ inferred (conj (row_of self) (row_of b)) }
    {
        let first = self.row();
        let second = b.row();
        Det {
            can_fail: first.can_fail || (first.most != Most::Zero && second.can_fail),
            most: if first.most == Most::Zero || second.most == Most::Zero {
                Most::Zero
            } else {
                first.most.greater(second.most)
            },
            committed: false,
        }
    }

    /// The determinism of a disjunction. That of no disjuncts is `failure`, which changes no other one's.
    pub fn disj(self, b: Det) -> Det
        ensures { result ≡ inferred (disj (row_of self) (row_of b)) }
    {
        let first = self.row();
        let second = b.row();
        Det {
            can_fail: first.can_fail && second.can_fail,
            most: match (first.most, second.most) {
                (Most::Zero, most) | (most, Most::Zero) => most,
                _ => Most::Many,
            },
            committed: false,
        }
    }

    /// The determinism of an if-then-else whose condition this is, with then part `t` and else part `e`.
    pub fn ite(self, t: Det, e: Det) -> Det
        ensures { result ≡ inferred (ite (row_of self) (row_of t) (row_of e)) }
    {
        if !self.can_fail {
            return self.conj(t);
        }
        let condition = self.row().most;
        let then = t.row().most;
        let otherwise = e.row().most;
        let none_first = condition == Most::Zero || then == Most::Zero;
        Det {
            can_fail: t.can_fail || e.can_fail,
            most: match otherwise {
                Most::Zero if none_first => Most::Zero,
                _ => Most::One
                    .greater(condition)
                    .greater(then)
                    .greater(otherwise),
            },
            committed: false,
        }
    }

    /// The determinism of a negation.
    pub fn negated(self) -> Det
        ensures { result ≡ inferred (negated (row_of self)) }
    {
        Det {
            can_fail: self.row().most != Most::Zero,
            most: if self.can_fail { Most::One } else { Most::Zero },
            committed: false,
        }
    }

    /// The determinism of a goal that is pruned to its first answer.
    pub fn pruned(self) -> Det
        ensures { result ≡ inferred (pruned (row_of self)) }
    {
        let Det {
            can_fail,
            most,
            committed: _,
        } = self.row();
        Det {
            can_fail,
            most: if most == Most::Zero {
                Most::Zero
            } else {
                Most::One
            },
            committed: false,
        }
    }

    /// Whether `b`, as a declaration, allows this one, as an inference.
    pub fn at_most(self, b: Det) -> bool
        ensures { IsTrue result ↔ Allows (row_of b) (row_of self) }
    {
        let inference = self.row();
        let declaration = b.row();
        (declaration.can_fail || !inference.can_fail)
            && inference.most.greater(declaration.most) == declaration.most
    }

    /// The row in the tables: a committed determinism has many answers there.
    fn row(self) -> Det
        ensures { result ≡ inferred (row_of self) }
    {
        Det {
            can_fail: self.can_fail,
            most: if self.committed {
                Most::Many
            } else {
                self.most
            },
            committed: false,
        }
    }
}
