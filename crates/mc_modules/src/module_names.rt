ghost use Rattle.std.specs.Prelude.{◌≡◌, ◌≤◌, length, map, drop, Some, IfOk, OnOk};
ghost use Rattle.std.specs.Option.{option_map};
ghost use Rattle.mc_decl_syntax.specs.Entries.{plain_entry, plain_files};
ghost use Rattle.mc_names.specs.Plain.{joined};
ghost use Rattle.mc_modules.specs.Files.{module_name, module_names};
ghost use Rattle.mc_modules.specs.Visible.{module_of};
ghost use Rattle.mc_names.specs.Numbers.{number_of};
ghost use Rattle.mc_modules.specs.code.Visibilities.{named_behind, put_name};

use indexmap::IndexMap;
use mc_base::{Memory, Row, Text};
use mc_decl_syntax::{Decl, Entry};
use mc_names::joined;
use std::alloc::Global;
use std::marker::Model;

/// The last nine files are the modules of the library.
pub const LIBRARY_SIZE: usize = 9;

/// The name of the module that a file is, by its parts.
pub fn module_name(file: &[Entry]) -> Option<&[Text]>
    ensures { option_map (λ name. joined name.now) result ≡ module_name (map plain_entry file.now) }
{
    match file {
        [] => None,
        [first, ..] => match &first.decl {
            Decl::ModuleStart(name) => Some(name.as_slice()),
            _ => None,
        },
    }
}

/// The number of the module that each name means. A look-up takes the time of one hash.
#[derive(Drop)]
pub struct ModuleNames {
    numbers: IndexMap<Vec<u8>, u32>,
}

impl Model for ModuleNames {
    ghost use Rattle.std.specs.Prelude.{ℕ, List, map};

    ghost Value = { List (List ℕ × ℕ) };

    ghost view = { λ s. map (λ e. (e.0.items, e.1)) s.numbers.entries };
}

impl ModuleNames {
    /// The names of files, of which the last nine are the library's: theirs win.
    pub fn of(alloc: Global, files: &[Row<Entry>]) -> Result<ModuleNames, Memory>
        ensures { IfOk result (λ names. number_of names ≡ module_of (plain_files files.now)) }
    {
        let mut names = ModuleNames {
            numbers: IndexMap::new(alloc),
        };
        names.put_from(alloc, files, 0)?;
        names.put_from(alloc, files, files.len().saturating_sub(LIBRARY_SIZE))?;
        Ok(names)
    }

    // Puts in the names of the files from one on, the first last: it wins.
    fn put_from(&mut self, alloc: Global, files: &[Row<Entry>], from: usize) -> Result<(), Memory>
        requires { from ≤ length files.now }
        ensures { OnOk result
            (number_of self.new
            ≡ named_behind from (drop from (module_names (plain_files files.now)))
            (number_of self.old)) }
    {
        if files.len() > u32::MAX as usize {
            return Err(Memory);
        }
        let mut k = files.len();
        while k > from {
            k -= 1;
            self.put_file(alloc, files[k].as_slice(), k as u32)?;
        }
        Ok(())
    }

    // Puts in the name of a file, in the place of one that is the same.
    fn put_file(&mut self, alloc: Global, file: &[Entry], number: u32) -> Result<(), Memory>
        ensures { OnOk result
            (number_of self.new
            ≡ put_name (module_name (map plain_entry file.now)) number (number_of self.old)) }
    {
        match module_name(file) {
            Some(name) => self.put(joined(alloc, name)?, number),
            None => Ok(()),
        }
    }

    fn put(&mut self, name: Text, number: u32) -> Result<(), Memory>
        ensures { OnOk result (number_of self.new ≡ put_name (Some name) number (number_of self.old)) }
    {
        self.numbers.insert(name.into_vec()?, number)?;
        Ok(())
    }

    /// The number of the module that a name means.
    pub fn number(&self, alloc: Global, name: &[Text]) -> Result<Option<u32>, Memory>
        ensures { IfOk result (λ number. number ≡ number_of self.now (joined name.now)) }
    {
        let name = joined(alloc, name)?;
        Ok(self.numbers.get(name.bytes()).copied())
    }
}
