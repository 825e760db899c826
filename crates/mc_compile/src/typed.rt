use crate::given::CompileFault;
use crate::named::Named;
use mc_base::Row;
use mc_decl_syntax::ItemsFault;
use mc_program::program::TypeDef;
use mc_type_table::type_table;
use std::alloc::Global;

/// Sources with their types: what is linked, and the table of the types that all files define, by their numbers.
#[derive(Drop)]
pub struct Typed {
    pub named: Named,
    pub types: Row<TypeDef>,
}

impl Typed {
    ghost use Rattle.mc_compile.specs.Phases.{Tells, Viewed};
    ghost use Rattle.mc_compile.specs.Linking.{plain_named};
    ghost use Rattle.mc_compile.specs.Typing.{Types, plain_typed};

    /// Makes the table of the types that linked files define.
    ///
    /// # Errors
    ///
    /// `Rejected` with the rules T3, T4 and T5 that definitions of types break: the first of each faulty type, in the
    /// order of the files and their items.
    pub fn of(alloc: Global, named: Named) -> Result<Typed, CompileFault>
        ensures { Tells Types (Viewed plain_typed) (plain_named named) result }
    {
        match type_table(alloc, &named.names) {
            Ok(types) => Ok(Typed { named, types }),
            Err(ItemsFault::Broken(broken)) => Err(CompileFault::Rejected(broken)),
            Err(ItemsFault::Memory) => Err(CompileFault::Memory),
        }
    }
}
