//! How many items a file has, or how many of them are faulty.

use mc_decl_syntax::ItemsFault;
use mc_items::read_items;
use std::alloc::Global;
use std::io;

// How many items there are, and how many of them are faulty; None where there is no room for them.
fn counted(alloc: Global, text: &[u8]) -> Option<(u32, u32)> {
    match read_items(alloc, 0, text) {
        Ok(entries) => Some((entries.len(), 0)),
        Err(fault) => match fault {
            ItemsFault::Broken(all) => Some((0, all.len())),
            ItemsFault::Memory => None,
        },
    }
}

pub fn print_count(rt: &HostRuntime, text: &[u8]) -> io::Result<()> {
    match counted(rt.alloc(), text) {
        None => println!(rt; "no room"),
        Some((items, 0)) => println!(rt; "{items} items"),
        Some((_, faulty)) => println!(rt; "{faulty} faulty items"),
    }
}
