//! Laws of graphs of insts: whatever nodes a graph has, goals have one order.
#![tactic(auto)]

pub mod laws;
