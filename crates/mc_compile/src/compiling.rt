ghost use Rattle.std.specs.Prelude.{List};
ghost use Rattle.std.specs.Option.{option_copied};
ghost use Rattle.mc_compile.specs.declared.given.Given.{Given};
ghost use Rattle.mc_compile.specs.Phases.{Tells, Viewed};
ghost use Rattle.mc_compile.specs.Sources.{sources_of};
ghost use Rattle.mc_compile.specs.Reading.{plain_read};
ghost use Rattle.mc_compile.specs.Linking.{plain_named};
ghost use Rattle.mc_compile.specs.Typing.{plain_typed};
ghost use Rattle.mc_compile.specs.Ruling.{plain_executable};
ghost use Rattle.mc_compile.specs.Compiling.{Compiles, FromLinking, FromTypes, FromClauses};

use crate::checked::Checked;
use crate::executable::Executable;
use crate::given::{CompileFault, Given, Query};
use crate::named::Named;
use crate::reading::Read;
use crate::rules::rules;
use crate::typed::Typed;
use mc_base::Row;
use std::alloc::Global;

/// Compiles files and a query, phase by phase: they are read, linked with the library's modules, their types are made
/// a table, their clauses are typed, their insts are tested, and their goals are put in order and become procedures.
///
/// # Errors
///
/// `Rejected` with the rules that are broken of the first phase that has a fault: one for each faulty item, in the
/// order of the files, and the query's last.
pub fn compile(
    alloc: Global,
    files: &Row<Given>,
    query: Option<&Query>,
    want_main: bool,
) -> Result<Executable, CompileFault>
    ensures { Tells Compiles (Viewed plain_executable)
        (sources_of files.now (option_copied query.entry) want_main) result }
{
    match Read::of(alloc, files, query) {
        Ok(read) => linked(alloc, read, query, want_main),
        Err(fault) => Err(fault),
    }
}

// The phases from linking on.
fn linked(
    alloc: Global,
    read: Read,
    query: Option<&Query>,
    want_main: bool,
) -> Result<Executable, CompileFault>
    ensures { (files : List Given)
        → Tells (FromLinking (sources_of files (option_copied query.entry) want_main))
        (Viewed plain_executable) (plain_read read) result }
{
    match Named::of(alloc, read) {
        Ok(named) => typed(alloc, named, query, want_main),
        Err(fault) => Err(fault),
    }
}

// The phases from types on.
fn typed(
    alloc: Global,
    named: Named,
    query: Option<&Query>,
    want_main: bool,
) -> Result<Executable, CompileFault>
    ensures { (files : List Given)
        → Tells (FromTypes (sources_of files (option_copied query.entry) want_main))
        (Viewed plain_executable) (plain_named named) result }
{
    match Typed::of(alloc, named) {
        Ok(typed) => checked(alloc, typed, query, want_main),
        Err(fault) => Err(fault),
    }
}

// The phases from clauses on.
fn checked(
    alloc: Global,
    typed: Typed,
    query: Option<&Query>,
    want_main: bool,
) -> Result<Executable, CompileFault>
    ensures { (files : List Given)
        → Tells (FromClauses (sources_of files (option_copied query.entry) want_main))
        (Viewed plain_executable) (plain_typed typed) result }
{
    match Checked::of(alloc, typed) {
        Ok(checked) => rules(alloc, checked, query, want_main),
        Err(fault) => Err(fault),
    }
}
