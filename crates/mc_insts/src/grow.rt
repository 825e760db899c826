ghost use Rattle.std.specs.Prelude.{◌≡◌, ℕ, ◌++◌, take, OnOk, OnErr};

use crate::graph::Node;
use mc_base::{Memory, Row};
use std::alloc::Global;
use std::mem;

/// Puts nodes at the end. After want of memory the row is as it was, and the new nodes are dropped.
pub(crate) fn append(alloc: Global, row: &mut Row<Node>, more: Row<Node>) -> Result<(), Memory>
    ensures ok { OnOk result (row.new ≡ row.old ++ more) }
    ensures err { OnErr result (row.new ≡ row.old) }
{
    let mut added = more.into_vec();
    let mut nodes = mem::replace(row, Row::new(alloc)).into_vec();
    if added.len() > u32::MAX as usize - nodes.len() {
        *row = Row::from_vec(nodes);
        return Err(Memory);
    }
    match nodes.append(&mut added) {
        Ok(()) => {
            *row = Row::from_vec(nodes);
            Ok(())
        }
        Err(_) => {
            *row = Row::from_vec(nodes);
            Err(Memory)
        }
    }
}

/// Drops the nodes from the n-th on.
pub(crate) fn cut(alloc: Global, row: &mut Row<Node>, n: u32)
    ensures { row.new ≡ take n row.old }
{
    let mut nodes = mem::replace(row, Row::new(alloc)).into_vec();
    nodes.truncate(n as usize);
    *row = Row::from_vec(nodes);
}
