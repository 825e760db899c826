ghost use Rattle.std.specs.Prelude.{◌≡◌, ◌↔◌, ◌+◌, ◌<◌, ℕ, List, length, get_or, map, IsTrue, IfOk, OnOk, OnErr, IfErr};
ghost use Rattle.mc_program.specs.PlainPrograms.{plain_program};

use crate::bounds::nodes_of;
use crate::chains::{Chain, follow_all};
use crate::grow::append;
use crate::insts::{InstId, Insts};
use mc_base::{Memory, Row};
use mc_model::inst::{Choice, InstRef};
use mc_program::program::Program;
use std::alloc::Global;

/// A definition of an inst: another name of one, or the constructors that it lists.
#[derive(Debug, PartialEq, Eq, Drop)]
pub enum InstDef {
    Is(InstRef),
    Bound(Row<Choice>),
}

/// Why definitions are refused: the first that breaks a rule, by its place in the row, has `free` inside a bound inst,
/// or comes back to itself without passing a constructor; or memory is wanted.
#[derive(Clone, Copy, Debug, PartialEq, Eq)]
pub enum InstFault {
    FreeInside(u32),
    NotFounded(u32),
    Memory,
}

impl From<Memory> for InstFault {
    ghost use Rattle.std.specs.Prelude.{◌≡◌};
    ghost use Rattle.mc_insts.specs.declared.define.InstFault.TheVariants as fault_of;

    ghost from_gives = { λ _ fault. fault ≡ fault_of.Memory };

    fn from(_: Memory) -> InstFault {
        InstFault::Memory
    }
}

ghost use Rattle.mc_insts.specs.Defining.{plain_definitions, bounds_of, Defined, DefinitionsFit, AreSound, IsFault};
ghost use Rattle.mc_accepted.specs.InstRules.{PlainInstDef, IsUnfounded, HasFreeInside, StandsFor, OneIsFree, OneHasFree, definition_at};
ghost use Rattle.mc_insts.specs.Defining.{plain_definition, plain_choice, FitsThere, AllFitThere, ChoicesFit, DefinitionFits, IsSound, IsNode};
ghost use Rattle.mc_insts.specs.code.Chains.{AllThere, ChainsAre, FirstChains, ChainsNodes, FaultAt, InstsAre};

/// Where an inst leads by itself.
fn named_chain(inst: &InstRef) -> Chain
    ensures { result ≡ Rattle.mc_insts.specs.code.Chains.named_chain inst.now }
{
    match inst {
        InstRef::Old(i) => Chain::Node(*i),
        InstRef::New(k) => Chain::Names(*k),
    }
}

/// Where the definitions lead as far as each shows by itself. The nodes that they make are numbered from the first on.
fn first_chains(alloc: Global, defs: &Row<InstDef>, first: u32) -> Result<Row<Chain>, Memory>
    ensures count { IfOk result (λ chains. length chains ≡ length defs.now) }
    ensures chains { IfOk result (λ chains. FirstChains (plain_definitions defs.now) first chains) }
{
    let mut chains = Vec::new(alloc);
    let mut next = first;
    let listed = defs.as_slice();
    for def in listed {
        let chain = match def {
            InstDef::Is(inst) => named_chain(inst),
            InstDef::Bound(_) => {
                let node = next;
                if node == u32::MAX {
                    return Err(Memory);
                }
                next = node + 1;
                Chain::Node(node)
            }
        };
        chains.push(chain)?;
    }
    Row::of(chains)
}

/// Whether an inst is `free`.
fn is_free(chains: &Row<Chain>, inst: &InstRef) -> Result<bool, Memory>
    requires { (n : ℕ) × FitsThere n (length chains.now) inst.now }
    ensures { IfOk result
        (λ b. (ds : List PlainInstDef) (first : ℕ) → 0 < first → ChainsAre ds first chains.now
        → IsTrue b ↔ StandsFor ds inst.now 0) }
{
    match inst {
        InstRef::Old(i) => Ok(*i == 0),
        InstRef::New(k) => match *chains.get(*k) {
            Chain::Names(_) => Err(Memory),
            Chain::Node(i) => Ok(i == 0),
            Chain::Ring => Ok(false),
            Chain::Endless => Ok(false),
        },
    }
}

/// Whether one of these insts is `free`.
fn one_is_free(chains: &Row<Chain>, insts: &[InstRef]) -> Result<bool, Memory>
    requires { (n : ℕ) × AllFitThere n (length chains.now) insts.now }
    ensures { IfOk result
        (λ b. (ds : List PlainInstDef) (first : ℕ) → 0 < first → ChainsAre ds first chains.now
        → IsTrue b ↔ OneIsFree ds insts.now) }
{
    for inst in insts {
        if is_free(chains, inst)? {
            return Ok(true);
        }
    }
    Ok(false)
}

/// Whether `free` is an argument of one of these constructors.
fn has_free(chains: &Row<Chain>, choices: &[Choice]) -> Result<bool, Memory>
    requires { (n : ℕ) × ChoicesFit n (length chains.now) (map plain_choice choices.now) }
    ensures { IfOk result
        (λ b. (ds : List PlainInstDef) (first : ℕ) → 0 < first → ChainsAre ds first chains.now
        → IsTrue b ↔ OneHasFree ds (map plain_choice choices.now)) }
{
    for choice in choices {
        if one_is_free(chains, choice.args.as_slice())? {
            return Ok(true);
        }
    }
    Ok(false)
}

/// Refuses the definition in place `k` where it breaks a rule.
fn test(chains: &Row<Chain>, k: u32, def: &InstDef) -> Result<(), InstFault>
    requires there { k < length chains.now }
    requires fits { (n : ℕ) × DefinitionFits n (length chains.now) (plain_definition def.now) }
    ensures sound { OnOk result
        ((ds : List PlainInstDef) (first : ℕ) → 0 < first → ChainsAre ds first chains.now
        → definition_at ds k ≡ plain_definition def.now → IsSound ds k) }
    ensures fault { IfErr result
        (λ fault. (ds : List PlainInstDef) (first : ℕ) → 0 < first → ChainsAre ds first chains.now
        → definition_at ds k ≡ plain_definition def.now → FaultAt ds k fault) }
{
    match def {
        InstDef::Bound(choices) => {
            if has_free(chains, choices.as_slice())? {
                return Err(InstFault::FreeInside(k));
            }
            Ok(())
        }
        InstDef::Is(_) => match *chains.get(k) {
            Chain::Names(_) => Err(InstFault::Memory),
            Chain::Ring => Err(InstFault::NotFounded(k)),
            Chain::Node(_) => Ok(()),
            Chain::Endless => Ok(()),
        },
    }
}

/// Refuses the first definition that breaks a rule.
fn test_all(chains: &Row<Chain>, defs: &Row<InstDef>) -> Result<(), InstFault>
    requires count { length chains.now ≡ length defs.now }
    requires fit { (n : ℕ) × DefinitionsFit n (plain_definitions defs.now) }
    ensures sound { OnOk result
        ((first : ℕ) → 0 < first → ChainsAre (plain_definitions defs.now) first chains.now
        → AreSound (plain_definitions defs.now) (length (plain_definitions defs.now))) }
    ensures fault { IfErr result
        (λ fault. (first : ℕ) → 0 < first → ChainsAre (plain_definitions defs.now) first chains.now
        → IsFault (plain_definitions defs.now) fault) }
{
    for k in 0..defs.len() {
        test(chains, k, defs.get(k))?;
    }
    Ok(())
}

/// The nodes that the definitions are. Where there is a definition without one, another is on a ring, so that the
/// definitions were refused.
fn insts_of(alloc: Global, chains: &Row<Chain>) -> Result<Row<InstId>, Memory>
    ensures { IfOk result (λ insts. ChainsNodes chains.now insts) }
{
    let mut insts = Vec::new(alloc);
    let listed = chains.as_slice();
    for chain in listed {
        match chain {
            Chain::Node(i) => insts.push(*i)?,
            _ => return Err(Memory),
        }
    }
    Row::of(insts)
}

/// The nodes that the definitions are, where none breaks a rule.
fn tested(alloc: Global, defs: &Row<InstDef>, first: u32) -> Result<Row<InstId>, InstFault>
    requires first { 0 < first }
    requires fit { DefinitionsFit first (plain_definitions defs.now) }
    ensures insts { IfOk result (λ insts. InstsAre (plain_definitions defs.now) first insts) }
    ensures sound { OnOk result
        (AreSound (plain_definitions defs.now) (length (plain_definitions defs.now))) }
    ensures fault { IfErr result (IsFault (plain_definitions defs.now)) }
{
    let mut chains = first_chains(alloc, defs, first)?;
    follow_all(&mut chains)?;
    test_all(&chains, defs)?;
    let insts = insts_of(alloc, &chains)?;
    Ok(insts)
}

impl Insts {
    ghost use Rattle.mc_insts.specs.Graphs.{graph_of, count_of};
    ghost use Rattle.mc_insts.specs.Growing.{Grown};
    ghost use Rattle.mc_insts.specs.Kept.{AreOf};

    /// Adds the insts that definitions define: a node for each that lists constructors, in their order. Each inst of
    /// the answer is that of the definition in its place. After a refusal the graph is as before.
    pub fn define(
        &mut self,
        alloc: Global,
        defs: &Row<InstDef>,
        program: &Program,
    ) -> Result<Row<InstId>, InstFault>
        requires program { AreOf (plain_program program.now) self.old }
        requires fit { DefinitionsFit (count_of self.old) (plain_definitions defs.now) }
        ensures defined { IfOk result
            (λ insts. Defined (plain_definitions defs.now) (count_of self.old) (graph_of self.new) insts) }
        ensures there { IfOk result
            (λ insts. (n : ℕ) → n < length insts → get_or insts n 0 < count_of self.new) }
        ensures made { OnOk result
            (count_of self.new ≡ count_of self.old + bounds_of (plain_definitions defs.now)) }
        ensures sound { OnOk result
            (AreSound (plain_definitions defs.now) (length (plain_definitions defs.now))) }
        ensures fault { IfErr result (IsFault (plain_definitions defs.now)) }
        ensures program { AreOf (plain_program program.now) self.new }
        ensures grown { Grown (plain_program program.now) self.old self.new }
        ensures graph { OnErr result (graph_of self.new ≡ graph_of self.old) }
        ensures count { OnErr result (count_of self.new ≡ count_of self.old) }
    {
        let _ = program;
        let insts = tested(alloc, defs, self.graph.nodes.len())?;
        let nodes = nodes_of(alloc, &mut self.graph.functors, defs, &insts)?;
        append(alloc, &mut self.graph.nodes, nodes)?;
        Ok(insts)
    }
}
