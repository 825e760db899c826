//! Insts of which only what they ask for is asked: each call tests that first.

ghost use Rattle.std.specs.Prelude.{ℕ, ◌<◌, length, get_or, IsTrue, IfOk};
ghost use Rattle.test_support.specs.Kept.{AreKept};

use crate::fits::definitions_fit;
use mc_base::{Memory, Row};
use mc_insts::{InstDef, InstFault, InstId, Insts};
use mc_program::program::Program;
use mc_program::ty::Ty;
use mc_self_check::constructors_fit;
use std::alloc::{AllocError, AllocFailed, Global};

/// Why a call has no answer: memory is wanted, what it asks for isn't seen to hold, or definitions are refused.
#[derive(Clone, Copy, Debug, PartialEq, Eq)]
pub enum NoAnswer {
    Memory,
    Unfit,
    Refused(InstFault),
}

impl From<Memory> for NoAnswer {
    fn from(_: Memory) -> NoAnswer {
        NoAnswer::Memory
    }
}

impl From<AllocError> for NoAnswer {
    fn from(_: AllocError) -> NoAnswer {
        NoAnswer::Memory
    }
}

impl<T: Drop> From<AllocFailed<T>> for NoAnswer {
    fn from(_: AllocFailed<T>) -> NoAnswer {
        NoAnswer::Memory
    }
}

impl From<InstFault> for NoAnswer {
    fn from(fault: InstFault) -> NoAnswer {
        NoAnswer::Refused(fault)
    }
}

/// A program and its insts.
#[derive(Drop)]
pub struct TestedInsts {
    pub program: Program,
    pub insts: Insts,
}

/// Whether each of these is below a number.
fn all_below(insts: &[InstId], count: u32) -> bool
    ensures { IsTrue result → (n : ℕ) → n < length insts.now → get_or insts.now n 0 < count }
{
    for inst in insts {
        if *inst >= count {
            return false;
        }
    }
    true
}

impl TestedInsts {
    /// The builtin insts of a program.
    pub fn new(alloc: Global, program: Program) -> Result<TestedInsts, NoAnswer>
        ensures { IfOk result AreKept }
    {
        if !constructors_fit(alloc, &program)? {
            return Err(NoAnswer::Unfit);
        }
        let insts = Insts::new(alloc, &program)?;
        Ok(TestedInsts { program, insts })
    }

    /// The insts that definitions define.
    pub fn define(&mut self, alloc: Global, defs: Vec<InstDef>) -> Result<Row<InstId>, NoAnswer>
        requires { AreKept self.old }
        ensures { AreKept self.new }
    {
        let defs = Row::of(defs)?;
        if !definitions_fit(alloc, self.insts.count(), &defs)? {
            return Err(NoAnswer::Unfit);
        }
        let made = self.insts.define(alloc, &defs, &self.program)?;
        Ok(made)
    }

    /// Whether the first inst is included in the second at a type.
    pub fn includes(
        &mut self,
        alloc: Global,
        i: InstId,
        j: InstId,
        t: &Ty,
    ) -> Result<bool, NoAnswer>
        requires { AreKept self.old }
        ensures { AreKept self.new }
    {
        let count = self.insts.count();
        if i >= count || j >= count {
            return Err(NoAnswer::Unfit);
        }
        let included = self.insts.includes(alloc, i, j, t, &self.program)?;
        Ok(included)
    }

    /// What two insts are merged to at a type.
    pub fn merge(&mut self, alloc: Global, i: InstId, j: InstId, t: &Ty) -> Result<InstId, NoAnswer>
        requires { AreKept self.old }
        ensures { AreKept self.new }
    {
        let count = self.insts.count();
        if i >= count || j >= count {
            return Err(NoAnswer::Unfit);
        }
        let merged = self.insts.merge(alloc, i, j, t, &self.program)?;
        Ok(merged)
    }

    /// What all of these are merged to at a type.
    pub fn merge_all(&mut self, alloc: Global, all: &[InstId], t: &Ty) -> Result<InstId, NoAnswer>
        requires { AreKept self.old }
        ensures { AreKept self.new }
    {
        if all.is_empty() || !all_below(all, self.insts.count()) {
            return Err(NoAnswer::Unfit);
        }
        let merged = self.insts.merge_all(alloc, all, t, &self.program)?;
        Ok(merged)
    }

    /// The insts of a constructor's arguments; None where the inst excludes it.
    pub fn narrow(
        &self,
        alloc: Global,
        i: InstId,
        symbol: u32,
    ) -> Result<Option<Row<InstId>>, NoAnswer>
        requires { AreKept self.now }
    {
        if i >= self.insts.count() {
            return Err(NoAnswer::Unfit);
        }
        let args = self.insts.narrow(alloc, i, symbol, &self.program)?;
        Ok(args)
    }
}
