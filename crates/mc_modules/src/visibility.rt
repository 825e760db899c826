ghost use Rattle.std.specs.Prelude.{◌≡◌, ◌<◌, length, map, Some, IfOk, OnOk};
ghost use Rattle.mc_decl_syntax.specs.Plain.{plain_item};
ghost use Rattle.mc_decl_syntax.specs.Entries.{plain_entry, plain_files};
ghost use Rattle.mc_modules.specs.Visible.{module_of, with_module};
ghost use Rattle.mc_names.specs.Numbers.{number_of};
ghost use Rattle.mc_modules.specs.Visibilities.{visibility};
ghost use Rattle.mc_modules.specs.code.Visibilities.{imports, only_uses, with_named, with_named_in, visibilities_from};

use crate::module_names::ModuleNames;
use mc_base::{Copied, Memory, Row, Text};
use mc_decl_syntax::{Decl, Entry};
use std::alloc::Global;

/// What a module sees: the numbers of the modules whose names it may write unqualified, its own first, then those that
/// it imports, in the order of first import; and the same followed by those that it only uses.
#[derive(Drop)]
pub struct Visibility {
    pub unqualified: Row<u32>,
    pub seen: Row<u32>,
}

/// What each file sees, where `names` are theirs.
pub fn visibilities(
    alloc: Global,
    files: &[Row<Entry>],
    names: &ModuleNames,
) -> Result<Vec<Visibility>, Memory>
    requires { number_of names.now ≡ module_of (plain_files files.now) }
    ensures { IfOk result
        (λ all. all.items ≡ visibilities_from (plain_files files.now) 0 (plain_files files.now)) }
{
    if files.len() > u32::MAX as usize {
        return Err(Memory);
    }
    let mut all = Vec::new(alloc);
    for own in 0..files.len() {
        all.push(visibility_of(alloc, files, names, own as u32)?)?;
    }
    Ok(all)
}

fn visibility_of(
    alloc: Global,
    files: &[Row<Entry>],
    names: &ModuleNames,
    own: u32,
) -> Result<Visibility, Memory>
    requires own { own < length files.now }
    requires names { number_of names.now ≡ module_of (plain_files files.now) }
    ensures { IfOk result (λ s. s ≡ visibility (plain_files files.now) own) }
{
    let file = files[own as usize].as_slice();
    let mut unqualified = Row::new(alloc);
    add(&mut unqualified, Some(own))?;
    add_imported(alloc, names, file, &mut unqualified)?;
    let mut seen = unqualified.copied(alloc)?;
    add_only_used(alloc, names, file, &mut seen)?;
    Ok(Visibility { unqualified, seen })
}

// Adds the modules that the items of a file import.
fn add_imported(
    alloc: Global,
    names: &ModuleNames,
    file: &[Entry],
    modules: &mut Row<u32>,
) -> Result<(), Memory>
    ensures { OnOk result
        (modules.new
        ≡ with_named_in imports (number_of names.now) (map plain_entry file.now) modules.old) }
{
    for entry in file {
        add_all(alloc, names, imports(&entry.decl), modules)?;
    }
    Ok(())
}

// Adds the modules that the items of a file only use.
fn add_only_used(
    alloc: Global,
    names: &ModuleNames,
    file: &[Entry],
    modules: &mut Row<u32>,
) -> Result<(), Memory>
    ensures { OnOk result
        (modules.new
        ≡ with_named_in only_uses (number_of names.now) (map plain_entry file.now) modules.old) }
{
    for entry in file {
        add_all(alloc, names, only_uses(&entry.decl), modules)?;
    }
    Ok(())
}

/// The names that an item imports.
pub fn imports(decl: &Decl) -> &[Row<Text>]
    ensures { result.now ≡ imports (plain_item decl.now) }
{
    match decl {
        Decl::Imports(names) => names.as_slice(),
        _ => &[],
    }
}

/// The names that an item only uses.
pub fn only_uses(decl: &Decl) -> &[Row<Text>]
    ensures { result.now ≡ only_uses (plain_item decl.now) }
{
    match decl {
        Decl::UseOnly(names) => names.as_slice(),
        _ => &[],
    }
}

// Adds the modules that names mean.
fn add_all(
    alloc: Global,
    names: &ModuleNames,
    paths: &[Row<Text>],
    modules: &mut Row<u32>,
) -> Result<(), Memory>
    ensures { OnOk result (modules.new ≡ with_named (number_of names.now) paths.now modules.old) }
{
    for path in paths {
        add(modules, names.number(alloc, path.as_slice())?)?;
    }
    Ok(())
}

// Adds a module, where there is one and it isn't among these yet.
fn add(modules: &mut Row<u32>, number: Option<u32>) -> Result<(), Memory>
    ensures { OnOk result (modules.new ≡ with_module number modules.old) }
{
    match number {
        Some(number) => add_new(modules, number),
        None => Ok(()),
    }
}

#[tactic(auto, using(crate::proofs::ModulesSeen::contains_is))]
fn add_new(modules: &mut Row<u32>, number: u32) -> Result<(), Memory>
    ensures { OnOk result (modules.new ≡ with_module (Some number) modules.old) }
{
    if modules.as_slice().contains(&number) {
        return Ok(());
    }
    if modules.len() == u32::MAX {
        return Err(Memory);
    }
    modules.push(number)
}
