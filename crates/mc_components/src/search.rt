use crate::certificate::step;
use mc_base::{Memory, Row};
use std::alloc::Global;

/// What a search knows of a node that it has left. It is believed only after a check (`certificate`).
#[derive(Clone, Copy)]
pub struct Node {
    /// How many nodes were found before it.
    pub found: u32,
    /// How many were found before the first node of its component that it is known to lead to.
    pub low: u32,
    /// The step by which it was found: from which node, at which place of that node's row.
    pub from: u32,
    pub entry: u32,
    /// The place of the step by which it leads to that first node, or towards it.
    pub exit: u32,
}

/// What a search found: the nodes, the numbers of their components, and for each component the node that was found
/// first.
#[derive(Drop)]
pub struct Found {
    pub nodes: Vec<Node>,
    pub components: Vec<u32>,
    pub roots: Vec<u32>,
}

// A node that isn't left yet, with the place of the next step to take from it.
#[derive(Clone, Copy)]
struct Visit {
    node: u32,
    next: u32,
}

// Tarjan's search (Depth-First Search and Linear Graph Algorithms): what is known of the nodes that were found, their
// components where they are known, the nodes without one in the order in which they were found, the way to the node
// that is visited, and the first node at which no search began.
#[derive(Drop)]
struct Search {
    nodes: Vec<Option<Node>>,
    components: Vec<Option<u32>>,
    roots: Vec<u32>,
    open: Vec<u32>,
    path: Vec<Visit>,
    found: u32,
    start: u32,
}

/// Searches a graph, in time by the number of its nodes and steps.
///
/// # Errors
///
/// `Memory` where there is no room.
pub fn search_graph(alloc: Global, graph: &[Row<u32>]) -> Result<Found, Memory> {
    let mut search = Search::new(alloc, graph.len())?;
    for _ in 0..most_moves(graph) {
        if !search.advance(graph)? {
            break;
        }
    }
    let Search {
        nodes,
        components,
        roots,
        ..
    } = search;
    Ok(Found {
        nodes: all_known(alloc, nodes.as_slice())?,
        components: all_known(alloc, components.as_slice())?,
        roots,
    })
}

// A search begins at each node at most, leaves each once, and takes each step once.
fn most_moves(graph: &[Row<u32>]) -> u64 {
    let mut moves = 1;
    for row in graph {
        moves = u64::saturating_add(moves, u64::from(row.len()) + 2);
    }
    moves
}

// What is known of each node; want of memory where something isn't, which no search leaves behind.
fn all_known<T: Copy>(alloc: Global, known: &[Option<T>]) -> Result<Vec<T>, Memory> {
    let mut all = Vec::new(alloc);
    for each in known {
        let Some(x) = each else {
            return Err(Memory);
        };
        all.push(*x)?;
    }
    Ok(all)
}

impl Search {
    fn new(alloc: Global, count: usize) -> Result<Search, Memory> {
        Ok(Search {
            nodes: Vec::from_elem(alloc, None, count)?,
            components: Vec::from_elem(alloc, None, count)?,
            roots: Vec::new(alloc),
            open: Vec::new(alloc),
            path: Vec::new(alloc),
            found: 0,
            start: 0,
        })
    }

    // Takes a step from the node that is visited, leaves it, or begins at another one; false where all are left.
    fn advance(&mut self, graph: &[Row<u32>]) -> Result<bool, Memory> {
        let Some(visit) = self.path.pop() else {
            return self.begin();
        };
        match step(graph, visit.node, visit.next) {
            Some(to) => {
                let next = visit.next.saturating_add(1);
                self.path.push(Visit {
                    node: visit.node,
                    next,
                })?;
                self.meet(visit, to)?;
            }
            None => self.leave(visit.node)?,
        }
        Ok(true)
    }

    // Begins at the next node, where it isn't found yet; false where there is no next one.
    fn begin(&mut self) -> Result<bool, Memory> {
        let start = self.start;
        self.start = start.saturating_add(1);
        match self.nodes.get(start as usize) {
            Some(Some(_)) => Ok(true),
            Some(None) => {
                self.find(start, start, 0)?;
                Ok(true)
            }
            None => Ok(false),
        }
    }

    // Meets a node by a step: one that is new is visited next; one that is open may be the first that the step's own
    // node leads to.
    fn meet(&mut self, by: Visit, to: u32) -> Result<(), Memory> {
        match self.nodes.get(to as usize) {
            Some(Some(node)) => {
                let found = node.found;
                if self.is_open(to) {
                    self.lower(by.node, found, by.next);
                }
                Ok(())
            }
            Some(None) => self.find(to, by.node, by.next),
            None => Ok(()),
        }
    }

    fn is_open(&self, node: u32) -> bool {
        match self.components.get(node as usize) {
            Some(None) => true,
            Some(Some(_)) => false,
            None => false,
        }
    }

    // Puts down a new node, which is visited next.
    fn find(&mut self, node: u32, from: u32, entry: u32) -> Result<(), Memory> {
        let found = self.found;
        self.found = found.saturating_add(1);
        if let Some(slot) = self.nodes.get_mut(node as usize) {
            *slot = Some(Node {
                found,
                low: found,
                from,
                entry,
                exit: 0,
            });
        }
        self.open.push(node)?;
        self.path.push(Visit { node, next: 0 })?;
        Ok(())
    }

    // Notes that a node leads to one that was found so early, by its step at a place.
    fn lower(&mut self, node: u32, low: u32, exit: u32) {
        if let Some(Some(node)) = self.nodes.get_mut(node as usize) {
            if low < node.low {
                node.low = low;
                node.exit = exit;
            }
        }
    }

    // Leaves a node, whose steps are all taken. One that leads to none before it is the first of its component.
    fn leave(&mut self, left: u32) -> Result<(), Memory> {
        let Some(Some(node)) = self.nodes.get(left as usize) else {
            return Ok(());
        };
        let node = *node;
        if node.low == node.found {
            return self.close(left);
        }
        self.lower(node.from, node.low, node.entry);
        Ok(())
    }

    // Makes a component of the open nodes from its first one on.
    fn close(&mut self, root: u32) -> Result<(), Memory> {
        let Ok(component) = u32::try_from(self.roots.len()) else {
            return Err(Memory);
        };
        self.roots.push(root)?;
        while let Some(node) = self.open.pop() {
            if let Some(slot) = self.components.get_mut(node as usize) {
                *slot = Some(component);
            }
            if node == root {
                break;
            }
        }
        Ok(())
    }
}
