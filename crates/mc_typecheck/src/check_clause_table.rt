ghost use Rattle.std.specs.Prelude.{◌≡◌, ◌++◌, ◌∷◌, [], map, IfOk, OnOk};
ghost use Rattle.mc_program.specs.PlainPrograms.{plain_type, type_terms};
ghost use Rattle.mc_accepted.specs.Resolving.{declared_type, parameters_from};
ghost use Rattle.mc_typecheck.specs.Searched.{plain_signature};
ghost use Rattle.mc_typecheck.specs.Tables.{parameters_in, IsTable};
ghost use Rattle.mc_typecheck.specs.Fitting.{IsSomeTable};
ghost use Rattle.mc_typecheck.specs.code.Entries.{renamed, basics, constructors_in, renamed_in, rigid_in, none_declared};

use crate::Signatures;
use crate::rigid::rigid_count;
use mc_base::{Memory, Row};
use mc_program::program::{Pred, Program, Symbol, TypeDef};
use mc_program::ty::{Ty, copy_type};
use mc_types::Signature;
use std::alloc::Global;

/// The table of what the things of a program are declared with. Behind its predicates stands the one that a query is a
/// clause of, which has no arguments.
pub fn signatures_of(alloc: Global, program: &Program) -> Result<Signatures, Memory>
    ensures is { IfOk result (λ table. IsTable program.now table) }
    ensures some { IfOk result (λ table. IsSomeTable table) }
{
    let mut all = Vec::new(alloc);
    put_basics(alloc, &mut all)?;
    let symbols = program.symbols.as_slice();
    put_constructors(alloc, &mut all, symbols, &program.types)?;
    let preds = program.preds.as_slice();
    put_renamed(alloc, &mut all, preds)?;
    put_rigid(alloc, &mut all, preds)?;
    Ok(Signatures {
        all,
        symbols: symbols.len(),
        preds: preds.len() + 1,
    })
}

/// A signature whose type variables are renamed apart at each use.
fn signature(types: Vec<Ty>) -> Result<Signature, Memory>
    ensures { IfOk result (λ made. plain_signature made ≡ renamed (map plain_type types.items)) }
{
    let vars = rigid_count(types.as_slice())?;
    Ok(Signature { vars, types })
}

/// What a number, a text, an equation and a character are declared with.
fn put_basics(alloc: Global, all: &mut Vec<Signature>) -> Result<(), Memory>
    ensures { OnOk result (map plain_signature all.new.items
        ≡ map plain_signature all.old.items ++ basics) }
{
    put(alloc, all, 0, Ty::Int)?;
    put(alloc, all, 0, Ty::Str)?;
    let mut sides = Vec::new(alloc);
    sides.push(Ty::Var(0))?;
    sides.push(Ty::Var(0))?;
    all.push(Signature {
        vars: 1,
        types: sides,
    })?;
    put(alloc, all, 0, Ty::Char)
}

/// What is declared with one type.
fn put(alloc: Global, all: &mut Vec<Signature>, vars: u32, own: Ty) -> Result<(), Memory>
    ensures { OnOk result (map plain_signature all.new.items
        ≡ map plain_signature all.old.items ++ record { vars = vars; types = plain_type own ∷ [] } ∷ []) }
{
    let mut types = Vec::new(alloc);
    types.push(own)?;
    all.push(Signature { vars, types })?;
    Ok(())
}

/// What constructors are declared with: their arguments' types and their own.
fn put_constructors(
    alloc: Global,
    all: &mut Vec<Signature>,
    symbols: &[Symbol],
    types: &Row<TypeDef>,
) -> Result<(), Memory>
    ensures { OnOk result (map plain_signature all.new.items
        ≡ map plain_signature all.old.items ++ constructors_in types.now symbols.now) }
{
    for symbol in symbols {
        let mut own = copied(alloc, &symbol.args)?;
        own.push(declared(alloc, symbol.of_type, types)?)?;
        all.push(signature(own)?)?;
    }
    Ok(())
}

/// The union type over its own parameters.
fn declared(alloc: Global, number: u32, types: &Row<TypeDef>) -> Result<Ty, Memory>
    ensures { IfOk result (λ own. plain_type own ≡ declared_type number (parameters_in types.now number)) }
{
    let mut params = 0;
    if number < types.len() {
        params = types.get(number).params;
    }
    Ok(Ty::Union(number, parameters(alloc, params)?))
}

/// The first type variables.
fn parameters(alloc: Global, count: u32) -> Result<Row<Ty>, Memory>
    ensures { IfOk result (λ all. type_terms (map plain_type all) ≡ parameters_from 0 count) }
{
    let mut all = Vec::new(alloc);
    for v in 0..count {
        all.push(Ty::Var(v))?;
    }
    Ok(Row::of(all)?)
}

/// What functions and predicates are declared with, and behind them the predicate of a query.
fn put_renamed(alloc: Global, all: &mut Vec<Signature>, preds: &[Pred]) -> Result<(), Memory>
    ensures { OnOk result (map plain_signature all.new.items
        ≡ map plain_signature all.old.items ++ (renamed_in preds.now ++ none_declared ∷ [])) }
{
    for pred in preds {
        let types = copied(alloc, &pred.types)?;
        all.push(signature(types)?)?;
    }
    put_none(alloc, all)?;
    Ok(())
}

/// The same for their heads, whose type variables are rigid.
fn put_rigid(alloc: Global, all: &mut Vec<Signature>, preds: &[Pred]) -> Result<(), Memory>
    ensures { OnOk result (map plain_signature all.new.items
        ≡ map plain_signature all.old.items ++ (rigid_in preds.now ++ none_declared ∷ [])) }
{
    for pred in preds {
        let types = copied(alloc, &pred.types)?;
        all.push(Signature { vars: 0, types })?;
    }
    put_none(alloc, all)?;
    Ok(())
}

/// What is declared without types.
fn put_none(alloc: Global, all: &mut Vec<Signature>) -> Result<(), Memory>
    ensures { OnOk result (map plain_signature all.new.items
        ≡ map plain_signature all.old.items ++ none_declared ∷ []) }
{
    let types = Vec::new(alloc);
    all.push(Signature { vars: 0, types })?;
    Ok(())
}

/// Other types that are the same.
fn copied(alloc: Global, types: &Row<Ty>) -> Result<Vec<Ty>, Memory>
    ensures { IfOk result (λ copy. copy.items ≡ types.now) }
{
    let mut copy = Vec::with_capacity(alloc, types.len() as usize + 1)?;
    for own in types.as_slice() {
        copy.push(copy_type(alloc, own)?)?;
    }
    Ok(copy)
}
