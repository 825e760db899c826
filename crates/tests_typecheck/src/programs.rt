use mc_base::{Memory, Row, Text};
use mc_program::program::{Name, Place, Pred, Program, Symbol, TypeDef};
use mc_program::ty::Ty;
use mc_source::name::Candidate;
use mc_unresolved::{Unresolved, UnresolvedClause, UnresolvedGoal};
use std::alloc::Global;

/// The constructors of the program.
pub const NIL: Candidate = Candidate::Con(0);

pub const CONS: Candidate = Candidate::Con(1);

pub const RED: Candidate = Candidate::Con(2);

pub const OTHER_RED: Candidate = Candidate::Con(3);

pub const BOXED_INT: Candidate = Candidate::Con(4);

pub const BOXED_LIST: Candidate = Candidate::Con(5);

pub const BOXED_B: Candidate = Candidate::Con(6);

fn name(alloc: Global, arity: u32) -> Name {
    Name {
        module: Text::empty(alloc),
        name: Text::empty(alloc),
        arity,
    }
}

pub fn list_of(alloc: Global, element: Ty) -> Result<Ty, Memory> {
    Ok(Ty::Union(0, Row::one(alloc, element)?))
}

/// A type without arguments.
pub fn union(alloc: Global, number: u32) -> Ty {
    Ty::Union(number, Row::new(alloc))
}

fn symbol(alloc: Global, of_type: u32, args: Vec<Ty>) -> Result<Symbol, Memory> {
    Ok(Symbol {
        name: name(alloc, 0),
        of_type,
        args: Row::of(args)?,
    })
}

fn boxing(alloc: Global, of_type: u32, inside: Ty) -> Result<Symbol, Memory> {
    let mut args = Vec::new(alloc);
    args.push(inside)?;
    symbol(alloc, of_type, args)
}

fn definition(alloc: Global, params: u32) -> TypeDef {
    TypeDef {
        name: name(alloc, params),
        params,
        symbols: Row::new(alloc),
    }
}

fn pred(alloc: Global, own: Ty) -> Result<Pred, Memory> {
    Ok(Pred {
        name: name(alloc, 1),
        is_func: false,
        types: Row::one(alloc, own)?,
        clauses: Row::new(alloc),
        builtin: None,
    })
}

/// Lists, and two types with a constructor of one name each; a constructor of each of the three that boxes what stands in
/// it: an integer, what a list has, and the second of the two types. A predicate over lists of integers, one over the
/// first of the two types, and one over lists of anything.
pub fn program(alloc: Global) -> Result<Program, Memory> {
    let mut types = Vec::new(alloc);
    types.push(definition(alloc, 1))?;
    types.push(definition(alloc, 0))?;
    types.push(definition(alloc, 0))?;
    let mut of_cons = Vec::new(alloc);
    of_cons.push(Ty::Var(0))?;
    of_cons.push(list_of(alloc, Ty::Var(0))?)?;
    let mut symbols = Vec::new(alloc);
    symbols.push(symbol(alloc, 0, Vec::new(alloc))?)?;
    symbols.push(symbol(alloc, 0, of_cons)?)?;
    symbols.push(symbol(alloc, 1, Vec::new(alloc))?)?;
    symbols.push(symbol(alloc, 2, Vec::new(alloc))?)?;
    symbols.push(boxing(alloc, 1, Ty::Int)?)?;
    symbols.push(boxing(alloc, 0, Ty::Var(0))?)?;
    symbols.push(boxing(alloc, 2, union(alloc, 2))?)?;
    let mut preds = Vec::new(alloc);
    preds.push(pred(alloc, list_of(alloc, Ty::Int)?)?)?;
    preds.push(pred(alloc, union(alloc, 1))?)?;
    preds.push(pred(alloc, list_of(alloc, Ty::Var(0))?)?)?;
    Ok(Program {
        types: Row::of(types)?,
        symbols: Row::of(symbols)?,
        preds: Row::of(preds)?,
    })
}

pub fn bare(alloc: Global, candidates: &[Candidate]) -> Result<Unresolved, Memory> {
    Ok(Unresolved::Name(Row::of(candidates.to_vec(alloc)?)?, Row::new(alloc)))
}

/// A name with these candidates, over one argument.
pub fn applied(
    alloc: Global,
    candidates: &[Candidate],
    argument: Unresolved,
) -> Result<Unresolved, Memory> {
    let candidates = Row::of(candidates.to_vec(alloc)?)?;
    Ok(Unresolved::Name(candidates, Row::one(alloc, argument)?))
}

pub fn cons(alloc: Global, first: Unresolved, rest: Unresolved) -> Result<Unresolved, Memory> {
    let mut args = Vec::new(alloc);
    args.push(first)?;
    args.push(rest)?;
    Ok(Unresolved::Name(Row::one(alloc, CONS)?, Row::of(args)?))
}

/// A clause with one argument in its head, and so many variables.
pub fn clause(
    alloc: Global,
    pred: u32,
    argument: Unresolved,
    body: UnresolvedGoal,
    vars: u32,
) -> Result<UnresolvedClause, Memory> {
    rule(alloc, pred, Row::one(alloc, argument)?, body, vars)
}

/// A query, which is a clause of the predicate behind all others.
pub fn query(alloc: Global, body: UnresolvedGoal, vars: u32) -> Result<UnresolvedClause, Memory> {
    rule(alloc, 3, Row::new(alloc), body, vars)
}

fn rule(
    alloc: Global,
    pred: u32,
    head: Row<Unresolved>,
    body: UnresolvedGoal,
    vars: u32,
) -> Result<UnresolvedClause, Memory> {
    let mut names = Vec::new(alloc);
    for _v in 0..vars {
        names.push(Text::empty(alloc))?;
    }
    Ok(UnresolvedClause {
        pred,
        head,
        body,
        names: Row::of(names)?,
        place: Place { file: 0, line: 1 },
    })
}

/// So many variables, each equal to a name with two candidates.
pub fn reds(alloc: Global, count: u32) -> Result<UnresolvedClause, Memory> {
    let mut goals = Vec::new(alloc);
    for v in 0..count {
        let red = bare(alloc, &[RED, OTHER_RED])?;
        goals.push(UnresolvedGoal::Equation(Unresolved::Variable(v), red))?;
    }
    query(alloc, UnresolvedGoal::AllOf(Row::of(goals)?), count)
}
