ghost use Rattle.std.specs.Prelude.{◌≡◌, ◌<◌, length, IfOk};
ghost use Rattle.mc_term_data.specs.Plain.{plain_term};
ghost use Rattle.mc_decl_syntax.specs.Entries.{plain_files};
ghost use Rattle.mc_modules.specs.Faults.{goal_fault};

use crate::linking::Linking;
use mc_base::{Memory, Row, Text};
use mc_decl_syntax::Entry;
use mc_defs_uses::goal_uses;
use mc_source::rule::Rule;
use mc_term_data::Term;
use std::alloc::Global;

impl<'a> Linking<'a> {
    /// The rule of linking that the goal of a query breaks, with what is said of it, where it breaks one. The goal sees
    /// what the first file's module sees.
    pub fn goal_fault(&self, alloc: Global, goal: &Term) -> Result<Option<(Rule, Text)>, Memory>
        requires { 0 < length self.now }
        ensures { IfOk result
            (λ found. found ≡ goal_fault (plain_files self.now) (plain_term goal.now)) }
    {
        self.invisible(alloc, 0, &goal_uses(alloc, goal)?)
    }
}

/// The rule of linking that the goal of a query breaks, with what is said of it, where it breaks one. The goal sees what
/// the first file's module sees. The last nine files are the library's modules.
pub fn goal_rule(
    alloc: Global,
    files: &Row<Row<Entry>>,
    goal: &Term,
) -> Result<Option<(Rule, Text)>, Memory>
    requires { 0 < length files.now }
    ensures { IfOk result (λ found. found ≡ goal_fault (plain_files files.now) (plain_term goal.now)) }
{
    Linking::of(alloc, files.as_slice())?.goal_fault(alloc, goal)
}
