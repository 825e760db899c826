ghost use Rattle.std.specs.Prelude.{◌≡◌, ◌<◌, ℕ, length, map, IfOk};
ghost use Rattle.mc_insts.specs.Defining.{plain_choice, plain_definitions, FitsThere, AllFitThere, ChoicesFit, DefinitionsFit};
ghost use Rattle.mc_insts.specs.code.Bounds.{inst_in, MakesCases, MakesNodes};
ghost use Rattle.mc_insts.specs.code.Lists.{Extends};
ghost use Rattle.mc_insts.specs.code.Shown.{Distinct};

use crate::define::InstDef;
use crate::functors::Functors;
use crate::graph::{Case, Node};
use crate::insts::InstId;
use mc_base::{Memory, Row};
use mc_model::inst::{Choice, InstRef};
use std::alloc::Global;

/// The node of an inst, by those of the definitions.
fn inst_of(insts: &Row<InstId>, inst: &InstRef) -> InstId
    requires { (n : ℕ) × FitsThere n (length insts.now) inst.now }
    ensures { result ≡ inst_in insts.now inst.now }
{
    match inst {
        InstRef::Old(i) => *i,
        InstRef::New(k) => *insts.get(*k),
    }
}

/// The nodes of a constructor's arguments.
fn args_of(alloc: Global, insts: &Row<InstId>, args: &[InstRef]) -> Result<Row<InstId>, Memory>
    requires { (n : ℕ) × AllFitThere n (length insts.now) args.now }
    ensures { IfOk result (λ row. row ≡ map (inst_in insts.now) args.now) }
{
    let mut row = Vec::new(alloc);
    for arg in args {
        row.push(inst_of(insts, arg))?;
    }
    Row::of(row)
}

/// The cases of the constructors that a definition lists, in the order of their functors, which are put in.
fn cases_of(
    alloc: Global,
    functors: &mut Functors,
    choices: &[Choice],
    insts: &Row<InstId>,
) -> Result<Row<Case>, Memory>
    requires { (n : ℕ) × ChoicesFit n (length insts.now) (map plain_choice choices.now) }
    ensures extends { Extends functors.old functors.new }
    ensures distinct { Distinct functors.old → Distinct functors.new }
    ensures cases { IfOk result (λ cases. MakesCases functors.new insts.now choices.now cases) }
{
    let mut cases = Vec::new(alloc);
    for choice in choices {
        let functor = functors.insert(alloc, &choice.name, choice.arity)?;
        let args = args_of(alloc, insts, choice.args.as_slice())?;
        cases.push(Case { functor, args })?;
    }
    cases.sort_by_key(|case| case.functor)?;
    Row::of(cases)
}

/// The nodes that the definitions make.
pub(crate) fn nodes_of(
    alloc: Global,
    functors: &mut Functors,
    defs: &Row<InstDef>,
    insts: &Row<InstId>,
) -> Result<Row<Node>, Memory>
    requires fit { (n : ℕ) × DefinitionsFit n (plain_definitions defs.now) }
    requires count { length insts.now ≡ length defs.now }
    ensures extends { Extends functors.old functors.new }
    ensures distinct { Distinct functors.old → Distinct functors.new }
    ensures nodes { IfOk result (λ nodes. MakesNodes functors.new insts.now defs.now (length defs.now) nodes) }
{
    let mut nodes = Vec::new(alloc);
    let listed = defs.as_slice();
    for def in listed {
        if let InstDef::Bound(choices) = def {
            let cases = cases_of(alloc, functors, choices.as_slice(), insts)?;
            nodes.push(Node::Bound(cases))?;
        }
    }
    Row::of(nodes)
}
