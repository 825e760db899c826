ghost use Rattle.std.specs.Prelude.{◌≡◌, ℕ, ◌<◌, true, false, length, get_or, MatchOption};
ghost use Rattle.mc_insts.specs.code.Cases.{node_has, node_arg, row_has, row_arg};
ghost use Rattle.mc_insts.specs.code.Overs.{NodeRises, NodeWide, RowRises, RowWide};

use crate::cases::find;
use crate::graph::{Node, Shape};
use mc_base::Row;

/// The numbers of arguments: one for all of them, or a number for each.
#[derive(Drop)]
pub(crate) enum Over<'a> {
    Same(u32),
    Each(&'a Row<u32>),
}

impl<'a> Over<'a> {
    ghost use Rattle.mc_insts.specs.code.OverArgs.{over_arg, OverHas};

    /// The number of an argument.
    pub(crate) fn argument(&self, k: u32) -> u32
        requires { OverHas self.now k }
        ensures { result ≡ over_arg self.now k }
    {
        match self {
            Over::Same(number) => *number,
            Over::Each(numbers) => *numbers.get(k),
        }
    }
}

ghost use Rattle.mc_insts.specs.code.OverArgs.{over_arg, OverWide};

/// The insts of a constructor's arguments in a node.
pub(crate) fn over_node<'a>(node: &'a Node, number: u32, functor: u32) -> Option<Over<'a>>
    requires { NodeRises node.now }
    ensures { MatchOption result (node_has node.now functor ≡ false) (λ o. (node_has node.now functor ≡ true) × ((k : ℕ) → over_arg o k ≡ node_arg node.now number functor k) × ((n : ℕ) → NodeWide node.now functor n → OverWide o n)) }
{
    match node {
        Node::Free => None,
        Node::Ground => Some(Over::Same(number)),
        Node::Unique => Some(Over::Same(number)),
        Node::Dead => Some(Over::Same(number)),
        Node::Bound(cases) => match find(cases.as_slice(), functor) {
            Some(numbers) => Some(Over::Each(numbers)),
            None => None,
        },
    }
}

/// The rows of the types of a constructor's arguments.
pub(crate) fn over_row<'a>(
    shape: &'a Shape,
    number: u32,
    known: u32,
    functor: u32,
) -> Option<Over<'a>>
    requires { RowRises shape.now }
    ensures { MatchOption result (row_has known shape.now functor ≡ false) (λ o. (row_has known shape.now functor ≡ true) × ((k : ℕ) → over_arg o k ≡ row_arg shape.now number functor k) × ((n : ℕ) → RowWide shape.now functor n → OverWide o n)) }
{
    match shape {
        Shape::Constants => None,
        Shape::State => None,
        Shape::Any => {
            if functor < known {
                Some(Over::Same(number))
            } else {
                None
            }
        }
        Shape::Union(cases) => match find(cases.as_slice(), functor) {
            Some(numbers) => Some(Over::Each(numbers)),
            None => None,
        },
    }
}
