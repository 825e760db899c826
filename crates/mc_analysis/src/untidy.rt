ghost use Rattle.std.specs.Prelude.{◌≡◌, ◌↔◌, ◌∷◌, [], Some, map, IsTrue, IfOk};
ghost use Rattle.mc_source.specs.Rules.{broken_at};
ghost use Rattle.mc_program.specs.PlainPrograms.{plain_program, plain_type};
ghost use Rattle.mc_accepted.specs.InstRules.{outside_io};
ghost use Rattle.mc_accepted.specs.Tidy.{EachTidy};
ghost use Rattle.mc_insts.specs.Graphs.{graph_of, count_of};
ghost use Rattle.mc_insts.specs.Kept.{AreOf};
ghost use Rattle.mc_procs.specs.Named.{NumbersBelow};
ghost use Rattle.mc_mode_state.specs.Modes.{ModeFits, ModesFit};
ghost use Rattle.mc_modes.specs.Signatures.{SigsFit};
ghost use Rattle.mc_analysis.specs.Untidy.{ModeIsTidy, ModesSay, AreUntidy};

use mc_base::{Memory, Text};
use mc_insts::Insts;
use mc_model::inst::{InstId, ModeDecl, Sig};
use mc_program::program::Program;
use mc_program::ty::Ty;
use mc_source::rule::{Broken, Rule};
use std::alloc::Global;

/// The rule of unique modes (M8), for each mode of a predicate that breaks it, at the mode's place: `unique` or `dead`
/// stands at another type than io's state, at any depth of an inst.
#[tactic(auto, using(crate::proofs::Untidying::predicates_more, crate::proofs::Untidying::predicates_all))]
pub(crate) fn untidy_modes(
    alloc: Global,
    program: &Program,
    insts: &mut Insts,
    sigs: &[Sig],
) -> Result<Vec<Broken>, Memory>
    requires program { AreOf (plain_program program.now) insts.old }
    requires sigs { SigsFit (count_of insts.old) sigs.now }
    ensures untidy { IfOk result
        (λ list. AreUntidy (plain_program program.now) (graph_of insts.old) sigs.now list.items) }
    ensures program { AreOf (plain_program program.now) insts.new }
    ensures graph { graph_of insts.new ≡ graph_of insts.old }
    ensures count { count_of insts.new ≡ count_of insts.old }
{
    let mut broken = Vec::new(alloc);
    for sig in sigs {
        let types = types_of(program, sig.pred);
        let mut told = untidy_among(alloc, program, insts, types, sig.modes.as_slice())?;
        broken.append(&mut told)?;
    }
    Ok(broken)
}

/// The types of a predicate's arguments.
pub(crate) fn types_of(program: &Program, number: u32) -> &[Ty]
    ensures { map plain_type result.now ≡ ((plain_program program.now).preds number).types }
{
    match program.preds.as_slice().get(number as usize) {
        Some(pred) => pred.types.as_slice(),
        None => &[],
    }
}

/// What is told of the modes of a predicate.
#[tactic(auto, using(crate::proofs::Untidying::tidy_more, crate::proofs::Untidying::untidy_more, crate::proofs::Untidying::modes_all))]
fn untidy_among(
    alloc: Global,
    program: &Program,
    insts: &mut Insts,
    types: &[Ty],
    modes: &[ModeDecl],
) -> Result<Vec<Broken>, Memory>
    requires program { AreOf (plain_program program.now) insts.old }
    requires modes { ModesFit (count_of insts.old) modes.now }
    ensures told { IfOk result
        (λ list.
        ModesSay (plain_program program.now) (graph_of insts.old) (map plain_type types.now) modes.now
        list.items) }
    ensures program { AreOf (plain_program program.now) insts.new }
    ensures graph { graph_of insts.new ≡ graph_of insts.old }
    ensures count { count_of insts.new ≡ count_of insts.old }
{
    let mut broken = Vec::new(alloc);
    for mode in modes {
        if !mode_is_tidy(alloc, program, insts, types, mode)? {
            broken.push(outside_io(alloc, mode)?)?;
        }
    }
    Ok(broken)
}

/// What is told of a mode that breaks the rule.
fn outside_io(alloc: Global, mode: &ModeDecl) -> Result<Broken, Memory>
    ensures { IfOk result (λ b. b ∷ [] ≡ broken_at mode.now.at (Some outside_io)) }
{
    let what = Text::new(alloc, b"unique or dead outside io")?;
    Ok(Broken {
        rule: Rule::M8,
        at: mode.at,
        what,
    })
}

/// Whether the insts of a mode are tidy at these types.
pub(crate) fn mode_is_tidy(
    alloc: Global,
    program: &Program,
    insts: &mut Insts,
    types: &[Ty],
    mode: &ModeDecl,
) -> Result<bool, Memory>
    requires program { AreOf (plain_program program.now) insts.old }
    requires mode { ModeFits (count_of insts.old) mode.now }
    ensures tidy { IfOk result
        (λ b. IsTrue b
        ↔ ModeIsTidy (plain_program program.now) (graph_of insts.old) (map plain_type types.now) mode.now) }
    ensures program { AreOf (plain_program program.now) insts.new }
    ensures graph { graph_of insts.new ≡ graph_of insts.old }
    ensures count { count_of insts.new ≡ count_of insts.old }
{
    if !are_tidy(alloc, program, insts, mode.first.as_slice(), types)? {
        return Ok(false);
    }
    are_tidy(alloc, program, insts, mode.last.as_slice(), types)
}

/// Whether insts are tidy at types.
#[tactic(auto, using(crate::proofs::Untidying::past_types, crate::proofs::Untidying::past_nodes, crate::proofs::Untidying::below_at))]
fn are_tidy(
    alloc: Global,
    program: &Program,
    insts: &mut Insts,
    nodes: &[InstId],
    types: &[Ty],
) -> Result<bool, Memory>
    requires program { AreOf (plain_program program.now) insts.old }
    requires nodes { NumbersBelow (count_of insts.old) nodes.now }
    ensures tidy { IfOk result
        (λ b. IsTrue b
        ↔ EachTidy (plain_program program.now) (graph_of insts.old) nodes.now (map plain_type types.now)) }
    ensures program { AreOf (plain_program program.now) insts.new }
    ensures graph { graph_of insts.new ≡ graph_of insts.old }
    ensures count { count_of insts.new ≡ count_of insts.old }
{
    for k in 0..nodes.len() {
        if k >= types.len() {
            return Ok(true);
        }
        if !insts.is_tidy(alloc, nodes[k], &types[k], program)? {
            return Ok(false);
        }
    }
    Ok(true)
}
