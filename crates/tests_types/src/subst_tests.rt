ghost use Rattle.std.specs.Prelude.{◌≤◌};

use mc_base::{Memory, Row};
use mc_program::ty::{Ty, same_type};
use mc_types::Subst;
use std::alloc::Global;
use std::test::Fail;

/// A union type of one argument.
fn list(alloc: Global, element: Ty) -> Result<Ty, Memory> {
    Ok(Ty::Union(0, Row::one(alloc, element)?))
}

/// A union type of a variable twice.
fn pair_of(alloc: Global, variable: u32) -> Result<Ty, Memory> {
    let mut args = Vec::new(alloc);
    args.push(Ty::Var(variable))?;
    args.push(Ty::Var(variable))?;
    Ok(Ty::Union(1, Row::of(args)?))
}

#[test]
fn a_variable_takes_a_type(rt: HostRuntime) -> Result<(), Fail> {
    let alloc = rt.alloc();
    let mut subst = Subst::new(alloc, 2)?;
    assert!(rt; subst.unify(&list(alloc, Ty::Var(0))?, &list(alloc, Ty::Int)?)?);
    assert!(rt; !subst.unify(&Ty::Var(0), &Ty::Char)?);
    assert!(rt; subst.unify(&Ty::Var(1), &list(alloc, Ty::Var(0))?)?);
    let copy = subst.copy()?;
    assert!(rt; same_type(&copy.resolved(&Ty::Var(1))?, &list(alloc, Ty::Int)?));
    Ok(())
}

#[test]
fn what_is_no_type_is_refused(rt: HostRuntime) -> Result<(), Fail> {
    let alloc = rt.alloc();
    let mut subst = Subst::new(alloc, 1)?;
    assert!(rt; !subst.unify(&Ty::Var(0), &list(alloc, Ty::Var(0))?)?);
    assert!(rt; !subst.unify(&Ty::Var(7), &Ty::Int)?);
    assert!(rt; subst.unify(&Ty::Var(0), &Ty::Var(7))?);
    assert!(rt; same_type(&subst.resolved(&Ty::Var(0))?, &Ty::Var(7)));
    Ok(())
}

/// Makes each of a hundred variables twice the one before.
fn doubled(alloc: Global, subst: &mut Subst, first: u32) -> Result<bool, Memory>
    requires { first ≤ 1000 }
{
    for k in 0..100 {
        if !subst.unify(&Ty::Var(first + k + 1), &pair_of(alloc, first + k)?)? {
            return Ok(false);
        }
    }
    Ok(true)
}

#[test]
fn a_hundred_doubled_types(rt: HostRuntime) -> Result<(), Fail> {
    let alloc = rt.alloc();
    let mut subst = Subst::new(alloc, 202)?;
    assert!(rt; doubled(alloc, &mut subst, 0)?);
    assert!(rt; doubled(alloc, &mut subst, 101)?);
    assert!(rt; subst.unify(&Ty::Var(100), &Ty::Var(201))?);
    assert!(rt;
        same_type(
            &subst.resolved(&Ty::Var(103))?,
            &subst.resolved(&Ty::Var(2))?
        )
    );
    assert!(rt; subst.resolved(&Ty::Var(100)).is_err());
    Ok(())
}
