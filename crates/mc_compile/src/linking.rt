ghost use Rattle.std.specs.Prelude.{◌≡◌, ℕ, ◌+◌, ◌<◌, ◌^◌, [], ◌++◌, map, length, IfOk, IfErr};
ghost use Rattle.mc_decl_syntax.specs.Entries.{plain_files};
ghost use Rattle.mc_compile.specs.Reading.{plain_goal};
ghost use Rattle.mc_compile.specs.Library.{library_texts};
ghost use Rattle.mc_modules.specs.Linked.{linked};
ghost use Rattle.mc_names.specs.Linked.{plain_names};
ghost use Rattle.mc_compile.specs.Linking.{goal_rules_in, rules_in};
ghost use Rattle.mc_compile.specs.code.Reader.{IsLibraryRead, IsRejected, IsWithLibrary};

use crate::given::CompileFault;
use crate::library::LIBRARY;
use crate::named::Named;
use crate::reader::Reader;
use crate::reading::Read;
use mc_base::{Memory, Row};
use mc_decl_syntax::Entry;
use mc_modules::{Linking, program_names};
use mc_names::Names;
use mc_source::place::Place;
use mc_source::rule::Broken;
use mc_term_data::Term;
use std::alloc::Global;

// Reads texts that are modules of a library, and numbered from one on. None of them breaks a rule of reading, which a test
// shows and no clause can: one that did would be answered as want of memory.
fn modules(alloc: Global, first: u32, texts: &[&str]) -> Result<Row<Row<Entry>>, Memory>
    requires number { first + length texts.now < 2 ^ 32 }
    requires few { length texts.now < 2 ^ 8 }
    ensures { IfOk result (IsLibraryRead (map (λ text. text.now) texts.now) first) }
{
    let mut reader = Reader::new(alloc, first);
    for text in texts {
        reader.read(alloc, text.as_bytes())?;
    }
    match reader.answer() {
        Ok(files) => Ok(files),
        Err(_) => Err(Memory),
    }
}

// The library's modules, which are numbered from one on.
fn library(alloc: Global, first: u32) -> Result<Row<Row<Entry>>, Memory>
    requires { first + 9 < 2 ^ 32 }
    ensures { IfOk result (IsLibraryRead library_texts first) }
{
    modules(alloc, first, &LIBRARY)
}

// Puts the library's modules behind files. The number between theirs is the query's.
fn with_library(alloc: Global, files: Row<Row<Entry>>) -> Result<Row<Row<Entry>>, Memory>
    ensures { IfOk result (IsWithLibrary library_texts files) }
{
    if files.len() > u32::MAX - 10 {
        return Err(Memory);
    }
    let mut library = library(alloc, files.len() + 1)?.into_vec();
    let mut files = files.into_vec();
    files.append(&mut library)?;
    Row::of(files)
}

// The rule of linking that the goal of a query breaks, where there is one.
fn goal_rules(
    alloc: Global,
    linking: &Linking,
    number: u32,
    goal: &Option<Term>,
) -> Result<Vec<Broken>, Memory>
    requires { 0 < length linking.now }
    ensures { IfOk result
        (λ broken.
        broken.items ≡ goal_rules_in (plain_files linking.now) number (plain_goal goal.now)) }
{
    let mut broken = Vec::new(alloc);
    if let Some(goal) = goal {
        if let Some((rule, what)) = linking.goal_fault(alloc, goal)? {
            let at = Place {
                file: number,
                line: goal.line,
            };
            broken.push(Broken { rule, at, what })?;
        }
    }
    Ok(broken)
}

// The rules of linking that files break, and behind them the one that the goal of a query breaks.
fn rules(
    alloc: Global,
    linking: &Linking,
    number: u32,
    goal: &Option<Term>,
) -> Result<Vec<Broken>, Memory>
    requires { 0 < length linking.now }
    ensures { IfOk result
        (λ broken. broken.items ≡ rules_in (plain_files linking.now) number (plain_goal goal.now)) }
{
    let mut broken = linking.faults(alloc)?;
    let mut in_goal = goal_rules(alloc, linking, number, goal)?;
    broken.append(&mut in_goal)?;
    Ok(broken)
}

// The names of files, which are linked once, unless a rule of linking is broken.
fn names(
    alloc: Global,
    files: &Row<Row<Entry>>,
    number: u32,
    goal: &Option<Term>,
) -> Result<Names, CompileFault>
    requires { 0 < length files.now }
    ensures names { IfOk result (λ names. plain_names names ≡ linked (plain_files files.now)) }
    ensures sound { IfOk result
        (λ _. rules_in (plain_files files.now) number (plain_goal goal.now) ≡ []) }
    ensures refusal { IfErr result
        (IsRejected (rules_in (plain_files files.now) number (plain_goal goal.now))) }
{
    let linking = Linking::of(alloc, files.as_slice())?;
    let broken = rules(alloc, &linking, number, goal)?;
    if broken.is_empty() {
        return Ok(program_names(alloc, &linking)?);
    }
    Err(CompileFault::Rejected(Row::of(broken)?))
}

impl Named {
    ghost use Rattle.mc_compile.specs.Phases.{Tells, Viewed};
    ghost use Rattle.mc_compile.specs.Reading.{plain_read};
    ghost use Rattle.mc_compile.specs.Linking.{Links, plain_named};

    /// Links the files with the library's modules, and the goal of the query with what the first file sees.
    ///
    /// # Errors
    ///
    /// `Rejected` with the rules of linking that are broken: those of the files, in their order, and then the query's.
    #[tactic(auto, using(crate::proofs::SomeFiles::some_files))]
    pub fn of(alloc: Global, read: Read) -> Result<Named, CompileFault>
        ensures { Tells Links (Viewed plain_named) (plain_read read) result }
    {
        let Read { files, goal } = read;
        let given = files.len();
        let files = with_library(alloc, files)?;
        match names(alloc, &files, given, &goal) {
            Ok(names) => Ok(Named {
                files,
                given,
                names,
                goal,
            }),
            Err(fault) => Err(fault),
        }
    }
}
