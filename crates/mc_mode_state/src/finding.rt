ghost use Rattle.std.specs.Prelude.{◌≡◌, ◌<◌, ◌+◌, ℕ, [], Some, None, length, get_or, map, IfOk, OnOk, MatchOption, take, OnErr};
ghost use Rattle.mc_program.specs.PlainPrograms.{plain_type};
ghost use Rattle.mc_model.specs.declared.inst.InstRef.TheVariants as inst_ref;
ghost use Rattle.mc_insts.specs.Graphs.{count_of};
ghost use Rattle.mc_insts.specs.Growing.{Grown};
ghost use Rattle.mc_procs.specs.Procedures.{source_of, insts_of, with_insts};
ghost use Rattle.mc_mode_state.specs.Agreeing.{OnlyGrown};
ghost use Rattle.mc_mode_state.specs.Tables.{node_in};
ghost use Rattle.mc_insts.specs.Defining.{plain_definitions};
ghost use Rattle.mc_mode_state.specs.Nodes.{IsOver, Once, NodesAre, NodesMoved, type_in};
ghost use Rattle.mc_mode_state.specs.code.Overs.{over_definition};

use crate::nodes::Nodes;
use mc_base::{Copied, Memory, Row};
use mc_insts::InstDef;
use mc_model::inst::{Choice, InstId, InstRef};
use mc_procs::Procs;
use mc_program::ty::{Ty, copy_type, same_type};
use std::alloc::Global;

impl Nodes {
    /// The inst of one symbol over insts, none of which is free.
    #[tactic(auto, using(crate::proofs::Growths::refused_here, crate::proofs::Growths::refused_by, crate::proofs::Growths::refused_stepped, crate::proofs::Growths::refused_after))]
    pub fn over(
        &mut self,
        alloc: Global,
        procs: &mut Procs,
        symbol: u32,
        insts: &[InstId],
    ) -> Result<InstId, Memory>
        requires nodes { NodesAre (source_of procs.old) procs.old.insts self.old }
        requires symbol { symbol < length procs.old.program.symbols }
        requires arity { length insts.now ≡ ((source_of procs.old).symbols symbol).name.arity }
        requires insts { (n : ℕ) → n < length insts.now → get_or insts.now n 0 < count_of procs.old.insts }
        ensures found { IfOk result (λ node. node_in self.new.overs symbol insts.now ≡ Some node) }
        ensures moved { OnOk result (NodesMoved procs.old procs.new self.old self.new) }
        ensures kept { OnErr result (OnlyGrown procs.old procs.new) }
    {
        match self.overs.get(alloc, symbol, insts)? {
            Some(node) => {
                procs.fit();
                Ok(node)
            }
            None => {
                let node = define_over(alloc, procs, symbol, insts)?;
                procs.fit();
                self.overs.put(alloc, symbol, insts, node)?;
                Ok(node)
            }
        }
    }

    /// The least inst above these at a type.
    #[tactic(auto, using(crate::proofs::Growths::refused_here, crate::proofs::Growths::refused_by, crate::proofs::Growths::refused_stepped, crate::proofs::Growths::refused_after))]
    pub fn joined(
        &mut self,
        alloc: Global,
        procs: &mut Procs,
        ty: &Ty,
        insts: &[InstId],
    ) -> Result<InstId, Memory>
        requires nodes { NodesAre (source_of procs.old) procs.old.insts self.old }
        requires some { 0 < length insts.now }
        requires insts { (n : ℕ) → n < length insts.now → get_or insts.now n 0 < count_of procs.old.insts }
        ensures found { IfOk result (λ node. (place : ℕ)
            × (type_in self.new.types.items place ≡ plain_type ty.now)
            × (node_in self.new.joins place insts.now ≡ Some node)) }
        ensures moved { OnOk result (NodesMoved procs.old procs.new self.old self.new) }
        ensures kept { OnErr result (OnlyGrown procs.old procs.new) }
    {
        let place = self.place_of(alloc, ty)?;
        match self.joins.get(alloc, place, insts)? {
            Some(node) => {
                procs.fit();
                Ok(node)
            }
            None => {
                let node = procs.merge_all(alloc, insts, ty)?;
                procs.fit();
                self.joins.put(alloc, place, insts, node)?;
                Ok(node)
            }
        }
    }
}

impl Nodes {
    /// The place of a type among those that were met, of which it is one afterwards.
    fn place_of(&mut self, alloc: Global, ty: &Ty) -> Result<u32, Memory>
        requires { Once self.old.types.items }
        ensures there { IfOk result (λ place. place < length self.new.types.items) }
        ensures place { IfOk result (λ place. type_in self.new.types.items place ≡ plain_type ty.now) }
        ensures types { OnOk result (take (length self.old.types.items) self.new.types.items ≡ self.old.types.items) }
        ensures once { OnOk result (Once self.new.types.items) }
        ensures overs { OnOk result (self.new.overs ≡ self.old.overs) }
        ensures joins { OnOk result (self.new.joins ≡ self.old.joins) }
    {
        for place in 0..self.types.len() {
            if same_type(&self.types[place], ty) {
                return place_number(place);
            }
        }
        let place = place_number(self.types.len())?;
        self.types.push(copy_type(alloc, ty)?)?;
        Ok(place)
    }
}

pub(crate) fn place_number(place: usize) -> Result<u32, Memory>
    ensures { IfOk result (λ number. number ≡ place) }
{
    if place > u32::MAX as usize {
        return Err(Memory);
    }
    Ok(place as u32)
}

/// Insts that are there, as definitions name them.
fn old_insts(alloc: Global, insts: &[InstId]) -> Result<Row<InstRef>, Memory>
    ensures { IfOk result (λ row. row ≡ map inst_ref.Old insts.now) }
{
    let mut row = Vec::with_capacity(alloc, insts.len())?;
    for inst in insts {
        row.push(InstRef::Old(*inst))?;
    }
    Row::of(row)
}

/// The definition of one symbol over insts.
fn over_definition(
    alloc: Global,
    procs: &Procs,
    symbol: u32,
    insts: &[InstId],
) -> Result<Row<InstDef>, Memory>
    requires symbol { symbol < length procs.now.program.symbols }
    ensures { IfOk result (λ defs. plain_definitions defs
        ≡ over_definition ((source_of procs.now).symbols symbol).name insts.now) }
{
    let name = &procs.program().symbols.get(symbol).name;
    let choice = Choice {
        name: name.name.copied(alloc)?,
        arity: name.arity,
        args: old_insts(alloc, insts)?,
    };
    let choices = Row::one(alloc, choice)?;
    Row::one(alloc, InstDef::Bound(choices))
}

/// Adds the inst of one symbol over insts. A definition is refused where one of them is free; that is none of these.
#[tactic(auto, using(crate::proofs::Growths::refused_here, crate::proofs::Growths::refused_by, crate::proofs::Growths::refused_stepped, crate::proofs::Growths::refused_after))]
fn define_over(
    alloc: Global,
    procs: &mut Procs,
    symbol: u32,
    insts: &[InstId],
) -> Result<InstId, Memory>
    requires symbol { symbol < length procs.old.program.symbols }
    requires arity { length insts.now ≡ ((source_of procs.old).symbols symbol).name.arity }
    requires insts { (n : ℕ) → n < length insts.now → get_or insts.now n 0 < count_of procs.old.insts }
    ensures there { IfOk result (λ node. node < count_of procs.new.insts) }
    ensures over { IfOk result (λ node. IsOver (source_of procs.old) (insts_of procs.new) node symbol insts.now) }
    ensures others { OnOk result (procs.new ≡ with_insts procs.old procs.new.insts) }
    ensures grown { OnOk result (Grown (source_of procs.old) procs.old.insts procs.new.insts) }
    ensures kept { OnErr result (OnlyGrown procs.old procs.new) }
{
    let defs = over_definition(alloc, procs, symbol, insts)?;
    match procs.define(alloc, &defs) {
        Ok(made) => Ok(*made.get(0)),
        Err(_) => Err(Memory),
    }
}
