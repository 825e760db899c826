ghost use Rattle.std.specs.Prelude.{◌≡◌, [], IfOk};

use mc_base::{Memory, Row};
use std::alloc::Global;

/// Something of each sort of definition: types, constructors, predicates with functions, insts and modes.
#[derive(Drop)]
pub struct PerKind<T> {
    pub types: T,
    pub symbols: T,
    pub preds: T,
    pub insts: T,
    pub modes: T,
}

/// Nothing of each sort.
pub fn nothing<T>(alloc: Global) -> PerKind<Vec<T>>
    ensures types { result.types.items ≡ [] }
    ensures symbols { result.symbols.items ≡ [] }
    ensures preds { result.preds.items ≡ [] }
    ensures insts { result.insts.items ≡ [] }
    ensures modes { result.modes.items ≡ [] }
{
    PerKind {
        types: Vec::new(alloc),
        symbols: Vec::new(alloc),
        preds: Vec::new(alloc),
        insts: Vec::new(alloc),
        modes: Vec::new(alloc),
    }
}

/// The same as rows.
pub fn rows<T: Drop>(sorts: PerKind<Vec<T>>) -> Result<PerKind<Row<T>>, Memory>
    ensures types { IfOk result (λ r. r.types ≡ sorts.types.items) }
    ensures symbols { IfOk result (λ r. r.symbols ≡ sorts.symbols.items) }
    ensures preds { IfOk result (λ r. r.preds ≡ sorts.preds.items) }
    ensures insts { IfOk result (λ r. r.insts ≡ sorts.insts.items) }
    ensures modes { IfOk result (λ r. r.modes ≡ sorts.modes.items) }
{
    let PerKind {
        types,
        symbols,
        preds,
        insts,
        modes,
    } = sorts;
    Ok(PerKind {
        types: Row::of(types)?,
        symbols: Row::of(symbols)?,
        preds: Row::of(preds)?,
        insts: Row::of(insts)?,
        modes: Row::of(modes)?,
    })
}
