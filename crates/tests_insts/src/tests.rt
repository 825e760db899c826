ghost use Rattle.std.specs.Prelude.{◌<◌};
ghost use Rattle.mc_program.specs.PlainPrograms.{plain_program};
ghost use Rattle.mc_insts.specs.Programs.{FitsConstructors};

use mc_base::{Memory, Row};
use mc_insts::{InstId, Insts};
use mc_program::program::Program;
use mc_program::ty::Ty;
use std::alloc::Global;
use std::test::Fail;

const FREE: InstId = 0;

const GROUND: InstId = 1;

const UNIQUE: InstId = 2;

const DEAD: InstId = 3;

/// A program without types, symbols and predicates.
fn empty(alloc: Global) -> Program
    ensures { FitsConstructors (plain_program result) }
{
    Program {
        types: Row::new(alloc),
        symbols: Row::new(alloc),
        preds: Row::new(alloc),
    }
}

/// Whether unique is included in ground at a type, and ground in unique.
fn both_ways(alloc: Global, t: &Ty) -> Result<(bool, bool), Memory> {
    let program = empty(alloc);
    let mut insts = Insts::new(alloc, &program)?;
    let up = insts.includes(alloc, UNIQUE, GROUND, t, &program)?;
    let down = insts.includes(alloc, GROUND, UNIQUE, t, &program)?;
    Ok((up, down))
}

#[test]
fn unique_and_ground(rt: HostRuntime) -> Result<(), Fail> {
    let alloc = rt.alloc();
    let (up, down) = both_ways(alloc, &Ty::Io)?;
    assert!(rt; up && !down);
    let (up, down) = both_ways(alloc, &Ty::Int)?;
    assert!(rt; up && down);
    let (up, down) = both_ways(alloc, &Ty::Var(0))?;
    assert!(rt; up && !down);
    let (up, down) = both_ways(alloc, &Ty::Union(0, Row::one(alloc, Ty::Io)?))?;
    assert!(rt; up && down);
    Ok(())
}

/// Whether two builtin insts are merged to a third at a type, in both orders and many at once.
fn merges(alloc: Global, t: &Ty, i: InstId, j: InstId, k: InstId) -> Result<bool, Memory>
    requires i_builtin { i < 4 }
    requires j_builtin { j < 4 }
{
    let program = empty(alloc);
    let mut insts = Insts::new(alloc, &program)?;
    let one = insts.merge(alloc, i, j, t, &program)?;
    let other = insts.merge(alloc, j, i, t, &program)?;
    let again = insts.merge(alloc, i, j, t, &program)?;
    let all = insts.merge_all(alloc, &[i, j, i], t, &program)?;
    Ok(one == k && other == k && again == k && all == k)
}

#[test]
fn builtin_insts_merge(rt: HostRuntime) -> Result<(), Fail> {
    let alloc = rt.alloc();
    assert!(rt; merges(alloc, &Ty::Io, UNIQUE, GROUND, GROUND)?);
    assert!(rt; merges(alloc, &Ty::Io, UNIQUE, DEAD, DEAD)?);
    assert!(rt; merges(alloc, &Ty::Int, FREE, GROUND, GROUND)?);
    assert!(rt; merges(alloc, &Ty::Var(0), UNIQUE, GROUND, GROUND)?);
    assert!(rt; merges(alloc, &Ty::Var(0), FREE, FREE, FREE)?);
    Ok(())
}
