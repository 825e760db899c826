ghost use Rattle.std.specs.Prelude.{◌≡◌, [], slice_index_or, IfOk};
ghost use Rattle.mc_names.specs.code.Index.{called, numbers_called, IsIndex, IsNumberIndex};

use crate::index::{Index, indices, numbers_by_name};
use crate::per_kind::PerKind;
use mc_base::{Memory, Row, Text};
use mc_decl_syntax::Decl;
use mc_source::name::{Candidate, Name};
use mc_source::place::Place;
use std::alloc::Global;

/// What is declared or defined: its name, the item that does it, where that stands, whether other modules see it, and
/// whether they see that item (`shown`).
///
/// A type stands here once: by its definition, or where it has none by its declaration. Where an interface declares it and
/// its definition stands elsewhere, other modules see it and not what it is defined as. A constructor's item is the
/// union of it alone, under the type's name without parameters.
#[derive(Drop)]
pub struct Named {
    pub name: Name,
    pub decl: Decl,
    pub at: Place,
    pub exported: bool,
    pub shown: bool,
}

/// What a module sees: the numbers of the types, constructors, predicates with functions, insts and modes, those of the
/// module itself first, then those of the modules that it imports, in the order of first import, and last those of the
/// modules that it only uses. `unqualified` has the numbers of the modules whose names it may write unqualified, in that order,
/// and `seen` those of all modules that it sees.
#[derive(Debug, Drop)]
pub struct Scope {
    pub module: Text,
    pub types: Row<u32>,
    pub symbols: Row<u32>,
    pub preds: Row<u32>,
    pub insts: Row<u32>,
    pub modes: Row<u32>,
    pub unqualified: Row<u32>,
    pub seen: Row<u32>,
}

/// The names of a program: types, constructors, predicates with functions, insts and modes, in the order of the files
/// and their items; what each module sees; and for each module its constructors, functions and predicates in the order
/// of their declarations.
#[derive(Drop)]
pub struct Names {
    pub types: Row<Named>,
    pub symbols: Row<Named>,
    pub preds: Row<Named>,
    pub insts: Row<Named>,
    pub modes: Row<Named>,
    pub scopes: Row<Scope>,
    pub declared: Row<Row<Candidate>>,
    index: Vec<Index<Candidate>>,
    type_index: Index<u32>,
    ghost indexed: { IsIndex symbols preds index.items declared },
    ghost types_indexed: { IsNumberIndex types type_index },
}

impl Names {
    /// The names that these are, with an index of those that each module has, and one of the types.
    pub fn indexed(
        alloc: Global,
        named: PerKind<Row<Named>>,
        scopes: Row<Scope>,
        declared: Row<Row<Candidate>>,
    ) -> Result<Names, Memory>
        ensures types { IfOk result (λ n. n.types ≡ named.types) }
        ensures symbols { IfOk result (λ n. n.symbols ≡ named.symbols) }
        ensures preds { IfOk result (λ n. n.preds ≡ named.preds) }
        ensures insts { IfOk result (λ n. n.insts ≡ named.insts) }
        ensures modes { IfOk result (λ n. n.modes ≡ named.modes) }
        ensures scopes { IfOk result (λ n. n.scopes ≡ scopes) }
        ensures declared { IfOk result (λ n. n.declared ≡ declared) }
    {
        let PerKind {
            types,
            symbols,
            preds,
            insts,
            modes,
        } = named;
        let index = indices(alloc, &symbols, &preds, declared.as_slice())?;
        let type_index = numbers_by_name(alloc, &types)?;
        Ok(Names {
            types,
            symbols,
            preds,
            insts,
            modes,
            scopes,
            declared,
            index,
            type_index,
        })
    }

    /// The numbers of the types of a name, whatever module they stand in. A look-up takes the time of one hash.
    pub(crate) fn types_called(&self, name: &[u8]) -> &[u32]
        ensures { result.now ≡ numbers_called name.now 0 self.now.types }
    {
        self.type_index.get(name)
    }

    /// What a module, which has a number, has of a name, in the order of declaration. A look-up takes the time of one hash.
    pub(crate) fn called(&self, number: u32, name: &[u8]) -> &[Candidate]
        ensures { result.now
            ≡ called self.now.symbols self.now.preds name.now
            (slice_index_or self.now.declared number []) }
    {
        match self.index.get(number as usize) {
            Some(index) => index.get(name),
            None => &[],
        }
    }
}
