use crate::given::{CompileFault, Given, Query};
use crate::reader::Reader;
use mc_base::Row;
use mc_decl_syntax::Entry;
use mc_term_data::Term;
use std::alloc::Global;

/// Sources as they were read: the items of each file, and the goal of the query where there is one.
#[derive(Drop)]
pub struct Read {
    pub files: Row<Row<Entry>>,
    pub goal: Option<Term>,
}

impl Read {
    ghost use Rattle.std.specs.Prelude.{Bool};
    ghost use Rattle.std.specs.Option.{option_copied};
    ghost use Rattle.mc_compile.specs.Phases.{Tells, Viewed};
    ghost use Rattle.mc_compile.specs.Sources.{sources_of};
    ghost use Rattle.mc_compile.specs.Reading.{Reads, plain_read};

    /// Reads files, which are numbered from 0 on, and a query, whose number follows theirs.
    ///
    /// # Errors
    ///
    /// `Rejected` with the rules of reading that are broken: those of the files, in their order, and then the
    /// query's. A file of more than 4 MiB breaks L1 and is read no further, and so does one that makes the files up
    /// to it longer than 16 MiB together, where a file of more than 4 MiB counts as 4 MiB and one byte.
    pub fn of(
        alloc: Global,
        files: &Row<Given>,
        query: Option<&Query>,
    ) -> Result<Read, CompileFault>
        ensures { (wants_main : Bool)
            → Tells Reads (Viewed plain_read)
            (sources_of files.now (option_copied query.entry) wants_main) result }
    {
        let mut reader = Reader::new(alloc, 0);
        for given in files.as_slice() {
            reader.read(alloc, given.bytes.bytes())?;
        }
        let goal = reader.read_goal(alloc, query)?;
        match reader.answer() {
            Ok(files) => Ok(Read { files, goal }),
            Err(fault) => Err(fault),
        }
    }
}
