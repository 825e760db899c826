//! Files that stand in a row of a table, and the library's modules.
use mc_base::{Memory, Row};
use mc_decl_syntax::{Entry, ItemsFault};
use mc_items::read_items;
use std::alloc::Global;

// The library's modules, with nothing in them.
const LIBRARY: [&str; 9] = [
    "list", "bool", "maybe", "pair", "int", "string", "char", "io", "require",
];

// The text of a file, in which `@` stands for a line's end and `#` for the beginning of a declaration.
fn with_lines(alloc: Global, row: &str) -> Result<Vec<u8>, Memory> {
    let mut text = Vec::new(alloc);
    for byte in row.as_bytes() {
        match *byte {
            b'@' => text.push(b'\n')?,
            b'#' => text.extend_from_slice(b":- ")?,
            other => text.push(other)?,
        }
    }
    Ok(text)
}

fn add_file(alloc: Global, files: &mut Vec<Row<Entry>>, text: &[u8]) -> Result<(), ItemsFault> {
    let number = u32::try_from(files.len()).unwrap_or(u32::MAX);
    let file = read_items(alloc, number, text)?;
    match files.push(file) {
        Ok(()) => Ok(()),
        Err(_) => Err(ItemsFault::Memory),
    }
}

fn library_text(alloc: Global, name: &str) -> Result<Vec<u8>, Memory> {
    let mut text = Vec::new(alloc);
    text.extend_from_slice(b":- module ")?;
    text.extend_from_slice(name.as_bytes())?;
    text.extend_from_slice(b".\n:- interface.\n")?;
    Ok(text)
}

// The files of a row, between whose texts a backquote stands, and those of the library.
pub fn files(alloc: Global, row: &str) -> Result<Row<Row<Entry>>, ItemsFault> {
    let mut all = Vec::new(alloc);
    for text in row.split('`') {
        add_file(alloc, &mut all, &with_lines(alloc, text)?)?;
    }
    for name in LIBRARY {
        add_file(alloc, &mut all, &library_text(alloc, name)?)?;
    }
    let files = Row::of(all)?;
    Ok(files)
}
