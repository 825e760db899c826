//! Makes ten modules that import one another, each of as many types, predicates and facts as its first argument says,
//! reads them, links them with empty modules under the library's names, and says how many names they have. With a
//! second argument, `read`, it only reads them.
#![tactic(auto)]

use mc_base::Row;
use mc_decl_syntax::{Entry, ItemsFault};
use mc_items::read_items;
use mc_modules::link;
use std::alloc::{AllocError, Global};
use std::{env, io};

// How many modules there are before the library's.
const MODULES: u32 = 10;

// The library's modules.
const LIBRARY: [&str; 9] = [
    "list", "bool", "maybe", "pair", "int", "string", "char", "io", "require",
];

// The text of a module that imports the others and declares so many types and predicates.
fn module(alloc: Global, own: u32, each: u32) -> Result<Vec<u8>, AllocError> {
    let mut text = Vec::new(alloc);
    let head = format!(in alloc; ":- module m{own}.\n:- interface.\n")?;
    text.extend_from_slice(head.as_bytes())?;
    for other in 0..MODULES {
        if other != own {
            let import = format!(in alloc; ":- import_module m{other}.\n")?;
            text.extend_from_slice(import.as_bytes())?;
        }
    }
    for k in 0..each {
        let of_type = format!(in alloc; ":- type t{own}_{k} ---> c{own}_{k} ; d{own}_{k}.\n")?;
        text.extend_from_slice(of_type.as_bytes())?;
        let pred = format!(in alloc; ":- pred p{own}_{k}(t{own}_{k}::out) is semidet.\n")?;
        text.extend_from_slice(pred.as_bytes())?;
    }
    text.extend_from_slice(b":- implementation.\n")?;
    for k in 0..each {
        let fact = format!(in alloc; "p{own}_{k}(c{own}_{k}).\n")?;
        text.extend_from_slice(fact.as_bytes())?;
    }
    Ok(text)
}

fn add_file(alloc: Global, files: &mut Vec<Row<Entry>>, text: &[u8]) -> Result<(), ItemsFault> {
    let number = u32::try_from(files.len()).unwrap_or(u32::MAX);
    let file = read_items(alloc, number, text)?;
    match files.push(file) {
        Ok(()) => Ok(()),
        Err(_) => Err(ItemsFault::Memory),
    }
}

// The items of all modules, the library's last.
fn read_all(alloc: Global, each: u32) -> Result<Row<Row<Entry>>, ItemsFault> {
    let mut files = Vec::new(alloc);
    for own in 0..MODULES {
        let text = module(alloc, own, each).map_err(no_room)?;
        add_file(alloc, &mut files, &text)?;
    }
    for name in LIBRARY {
        let text = format!(in alloc; ":- module {name}.\n:- interface.\n").map_err(no_room)?;
        add_file(alloc, &mut files, text.as_bytes())?;
    }
    Ok(Row::of(files)?)
}

fn no_room(_fault: AllocError) -> ItemsFault {
    ItemsFault::Memory
}

// How many names the modules have, or how many files there are where they are only read.
fn counted(alloc: Global, each: u32, is_read_alone: bool) -> Result<u32, ItemsFault> {
    let files = read_all(alloc, each)?;
    if is_read_alone {
        return Ok(files.len());
    }
    let names = link(alloc, &files)?;
    Ok(
        names
            .types
            .len()
            .saturating_add(names.symbols.len())
            .saturating_add(names.preds.len()),
    )
}

fn main(rt: HostRuntime) -> io::Result<()> {
    let mut each = 10;
    let mut is_read_alone = false;
    for word in env::args(&rt)? {
        if let Ok(number) = word.parse::<u16>() {
            each = u32::from(number);
        }
        is_read_alone = word.as_str() == "read";
    }
    match counted(rt.alloc(), each, is_read_alone) {
        Ok(count) if is_read_alone => println!(rt; "{count} files"),
        Ok(count) => println!(rt; "{count} names"),
        Err(ItemsFault::Memory) => println!(rt; "no room"),
        Err(ItemsFault::Broken(all)) => println!(rt; "{} broken rules", all.len()),
    }
}
