//! Standard input.

use std::io::{self, Read};

pub fn read_all(rt: &HostRuntime) -> io::Result<Vec<u8>> {
    let mut text = Vec::new(rt.alloc());
    let mut input = rt.reader();
    let mut piece = [0u8; 4096];
    for _ in 0..u32::MAX {
        let taken = input.read(&mut piece)?;
        if taken == 0 {
            break;
        }
        text.extend_from_slice(piece.get(..taken).unwrap_or(&[]))?;
    }
    Ok(text)
}
