ghost use Rattle.std.specs.Prelude.{◌≡◌, length, map, IfOk, OnErr};
ghost use Rattle.mc_program.specs.PlainPrograms.{plain_type};
ghost use Rattle.mc_types.specs.Substitutions.{IsIdentity, Unifies, image, under};

use crate::unifying::unify_types;
use crate::written::resolve_type;
use crate::{Graph, add_free};
use mc_base::Memory;
use mc_program::ty::Ty;
use std::alloc::Global;
use std::marker::Model;

/// Types that are nested deeper, or have more parts, count as such that find no room when they are written out.
const TYPE_DEPTH: usize = 4_096;

const TYPE_BUDGET: usize = 1 << 20;

/// A substitution of types for type variables, seen as the list of the types, the first for variable 0.
#[derive(Drop)]
pub struct Subst {
    alloc: Global,
    graph: Graph,
    marks: Vec<usize>,
    round: usize,
    vars: u32,
}

impl Model for Subst {
    ghost use Rattle.std.specs.Prelude.{List, ◌<◌, ◌^◌};
    ghost use Rattle.std.specs.Coded.{coded_list};
    ghost use Rattle.mc_program.specs.declared.ty.Ty.{Ty as Owned};
    ghost use Rattle.mc_program.specs.contracts.ty.Ty as owned;
    ghost use Rattle.mc_types.specs.code.Systems.{types_of, IsState};

    ghost Value = { List Owned };

    ghost coded = { coded_list owned.the_row.coded };

    ghost view = { λ s. types_of s.vars s.graph.cells.items };

    ghost invariant = { λ s. IsState s.vars s.graph.cells.items s.marks.items s.round };
}

impl Subst {
    /// The substitution that puts each of so many variables for itself.
    pub fn new(alloc: Global, vars: u32) -> Result<Subst, Memory>
        ensures { IfOk result (λ s. IsIdentity vars s) }
    {
        let mut graph = Graph::new(alloc);
        add_free(&mut graph, vars as usize)?;
        Ok(Subst {
            alloc,
            graph,
            marks: Vec::new(alloc),
            round: 1,
            vars,
        })
    }

    /// Makes two types equal, where that can be. Variables below the substitution's length are its own, any other is
    /// rigid. Where the answer is no, and after want of memory, the substitution is as it was.
    pub fn unify(&mut self, a: &Ty, b: &Ty) -> Result<bool, Memory>
        ensures vars { length self.new ≡ length self.old }
        ensures answer { IfOk result (λ yes. Unifies yes self.old self.new a.now b.now) }
        ensures unchanged { OnErr result (self.new ≡ self.old) }
    {
        let round = self.round;
        if round >= 1 << 61 {
            return Err(Memory);
        }
        self.round = round + 1;
        unify_types(
            self.alloc,
            &mut self.graph,
            &mut self.marks,
            round,
            self.vars,
            a,
            b,
        )
    }

    /// A type under the substitution. A type that is nested more than 4,096 deep, or has more than 2^20 parts, finds no
    /// room.
    pub fn resolved(&self, ty: &Ty) -> Result<Ty, Memory>
        ensures { IfOk result
            (λ made. plain_type made ≡ under (length self.now) (image self.now) (plain_type ty.now)) }
    {
        let mut budget = TYPE_BUDGET;
        let made = resolve_type(
            self.alloc,
            &self.graph,
            self.vars,
            ty,
            TYPE_DEPTH,
            &mut budget,
        )?;
        Ok(made)
    }

    /// Another substitution that is the same.
    pub fn copy(&self) -> Result<Subst, Memory>
        ensures { IfOk result (λ copy. copy ≡ self.now) }
    {
        let cells = Vec::from_slice(self.alloc, self.graph.cells.as_slice())?;
        Ok(Subst {
            alloc: self.alloc,
            graph: Graph {
                cells,
                changes: Vec::new(self.alloc),
            },
            marks: Vec::new(self.alloc),
            round: 1,
            vars: self.vars,
        })
    }
}
