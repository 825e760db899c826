//! What definitions have to be before insts are asked of them, as tests that a program can make.

ghost use Rattle.std.specs.Prelude.{◌<◌, ℕ, length, map, IsTrue, IfOk};
ghost use Rattle.mc_insts.specs.Defining.{plain_choice, plain_definition, plain_definitions, FitsThere, AllFitThere, ChoicesFit, DefinitionFits, DefinitionsFit};

use mc_base::{Memory, NameSet, Row};
use mc_insts::InstDef;
use mc_model::inst::{Choice, InstRef};
use std::alloc::Global;

/// Whether an inst is one that is there, or that of a definition of the row.
fn inst_fits(nodes: u32, definitions: u32, inst: &InstRef) -> bool
    ensures { IsTrue result → FitsThere nodes definitions inst.now }
{
    match inst {
        InstRef::Old(i) => *i < nodes,
        InstRef::New(k) => *k < definitions,
    }
}

fn args_fit(nodes: u32, definitions: u32, args: &[InstRef]) -> bool
    ensures { IsTrue result → AllFitThere nodes definitions args.now }
{
    for arg in args {
        if !inst_fits(nodes, definitions, arg) {
            return false;
        }
    }
    true
}

/// Whether constructors have an inst for each argument, and their names differ.
fn choices_fit(
    alloc: Global,
    nodes: u32,
    definitions: u32,
    choices: &[Choice],
) -> Result<bool, Memory>
    ensures { IfOk result
        (λ b. IsTrue b → ChoicesFit nodes definitions (map plain_choice choices.now)) }
{
    let mut names = NameSet::new(alloc);
    for choice in choices {
        if choice.args.len() != choice.arity {
            return Ok(false);
        }
        if !args_fit(nodes, definitions, choice.args.as_slice()) {
            return Ok(false);
        }
        let added = names.insert(choice.name.bytes())?;
        if !added {
            return Ok(false);
        }
    }
    Ok(true)
}

fn definition_fits(
    alloc: Global,
    nodes: u32,
    definitions: u32,
    def: &InstDef,
) -> Result<bool, Memory>
    ensures { IfOk result
        (λ b. IsTrue b → DefinitionFits nodes definitions (plain_definition def.now)) }
{
    match def {
        InstDef::Is(inst) => Ok(inst_fits(nodes, definitions, inst)),
        InstDef::Bound(choices) => choices_fit(alloc, nodes, definitions, choices.as_slice()),
    }
}

/// Whether definitions are seen to be such as `define` asks for, where so many nodes are there: the names that one
/// lists differ.
pub fn definitions_fit(alloc: Global, nodes: u32, defs: &Row<InstDef>) -> Result<bool, Memory>
    ensures { IfOk result (λ b. IsTrue b → DefinitionsFit nodes (plain_definitions defs.now)) }
{
    for k in 0..defs.len() {
        let fits = definition_fits(alloc, nodes, defs.len(), defs.get(k))?;
        if !fits {
            return Ok(false);
        }
    }
    Ok(true)
}
