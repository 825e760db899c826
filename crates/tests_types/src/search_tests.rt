use mc_base::{Memory, Row};
use mc_program::ty::Ty;
use mc_types::{Outcome, Signature, Step, is_proper, resolve};
use std::alloc::Global;
use std::test::Fail;

/// A union type without arguments.
fn plain_union(alloc: Global, number: u32) -> Ty {
    Ty::Union(number, Row::new(alloc))
}

/// Two constructors of different types, the equation of two types, and a predicate over the first.
fn signatures(alloc: Global) -> Result<Vec<Signature>, Memory> {
    let mut all = Vec::new(alloc);
    for number in 0..2 {
        all.push(Signature {
            vars: 0,
            types: Row::one(alloc, plain_union(alloc, number))?.into_vec(),
        })?;
    }
    let mut both = Vec::new(alloc);
    both.push(Ty::Var(0))?;
    both.push(Ty::Var(0))?;
    all.push(Signature {
        vars: 1,
        types: both,
    })?;
    all.push(Signature {
        vars: 0,
        types: Row::one(alloc, plain_union(alloc, 0))?.into_vec(),
    })?;
    Ok(all)
}

fn step(alloc: Global, candidates: &[usize], places: &[usize]) -> Result<Step, Memory> {
    Ok(Step {
        candidates: candidates.to_vec(alloc)?,
        places: places.to_vec(alloc)?,
    })
}

/// Whether these are the first two.
fn is_two(outcome: &Outcome, first: &[usize], second: &[usize]) -> bool {
    match outcome {
        Outcome::Two(v, w) => v.as_slice() == first && w.as_slice() == second,
        _ => false,
    }
}

#[test]
fn a_clause_with_one_typing(rt: HostRuntime) -> Result<(), Fail> {
    let alloc = rt.alloc();
    let all = signatures(alloc)?;
    let mut steps = Vec::new(alloc);
    steps.push(step(alloc, &[0, 1], &[0])?)?;
    steps.push(step(alloc, &[3], &[0])?)?;
    assert!(rt; is_proper(&all, &steps, 1));
    match resolve(alloc, &all, &steps, 1, 0, 2)? {
        Outcome::One(choices, _) => assert_eq!(rt; choices.as_slice(), [0, 0].as_slice()),
        _ => assert!(rt; false),
    }
    assert!(rt; matches!(resolve(alloc, &all, &steps, 1, 0, 1)?, Outcome::TooMany));
    Ok(())
}

#[test]
fn a_clause_with_two_typings(rt: HostRuntime) -> Result<(), Fail> {
    let alloc = rt.alloc();
    let all = signatures(alloc)?;
    let mut steps = Vec::new(alloc);
    steps.push(step(alloc, &[0, 1], &[1])?)?;
    steps.push(step(alloc, &[2], &[0, 1])?)?;
    assert!(rt; is_proper(&all, &steps, 2));
    let outcome = resolve(alloc, &all, &steps, 2, 1, 1024)?;
    assert!(rt; is_two(&outcome, &[0, 0], &[1, 0]));
    Ok(())
}
