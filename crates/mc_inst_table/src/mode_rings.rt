ghost use Rattle.std.specs.Prelude.{◌≡◌, ◌<◌, ◌↔◌, ℕ, true, length, map, Some, IfOk};
ghost use Rattle.mc_accepted.specs.InstRules.{ModeIsUnfounded};
ghost use Rattle.mc_names.specs.Linked.{Linked, plain_named, plain_names};
ghost use Rattle.mc_inst_table.specs.Rules.{mode_named_of, mode_named};
ghost use Rattle.mc_inst_table.specs.code.Leading.{one_or_none, AreModeRings};

use crate::inst::Mode;
use crate::modes::mode_of_term;
use mc_base::{Memory, Row};
use mc_components::{components, reaches_itself};
use mc_decl_syntax::Decl;
use mc_names::{Named, Names, defining_module, parameters_of};
use std::alloc::Global;

/// The mode definitions of a program, by their numbers: to which other one each leads, and the components of that graph.
#[derive(Drop)]
pub struct ModeRings {
    pub graph: Row<Row<u32>>,
    pub components: Row<u32>,
}

impl ModeRings {
    /// The mode definitions of a program.
    ///
    /// # Errors
    ///
    /// `Memory` where there is no room.
    pub fn of(alloc: Global, names: &Names) -> Result<ModeRings, Memory>
        ensures { IfOk result (λ r. AreModeRings (plain_names names.now) r) }
    {
        let graph = graph(alloc, names)?;
        let components = components(alloc, &graph)?;
        Ok(ModeRings { graph, components })
    }

    /// Whether the mode definition of a number reaches itself.
    #[tactic(auto, using(crate::proofs::Leading::rounds_within, crate::proofs::Leading::rounds_past))]
    pub fn is_unfounded(&self, number: u32) -> bool
        ensures { (l : Linked) → AreModeRings l self.now
            → (result ≡ true) ↔ ModeIsUnfounded (mode_named l) number }
    {
        number < self.graph.len() && reaches_itself(&self.graph, &self.components, number)
    }
}

// To which mode definition each leads, by their numbers.
fn graph(alloc: Global, names: &Names) -> Result<Row<Row<u32>>, Memory>
    ensures { IfOk result
        (λ rows.
        rows
        ≡ map (λ n. one_or_none (mode_named_of (plain_names names.now) (Some (plain_named n))))
        names.now.modes) }
{
    let mut rows = Vec::new(alloc);
    for named in names.modes.as_slice() {
        rows.push(named_row(alloc, names, named)?)?;
    }
    Row::of(rows)
}

fn named_row(alloc: Global, names: &Names, named: &Named) -> Result<Row<u32>, Memory>
    ensures { IfOk result
        (λ row.
        row ≡ one_or_none (mode_named_of (plain_names names.now) (Some (plain_named named.now)))) }
{
    match mode_named(alloc, names, named)? {
        Some(number) => Row::one(alloc, number),
        None => Ok(Row::new(alloc)),
    }
}

// The mode definition that one names.
fn mode_named(alloc: Global, names: &Names, named: &Named) -> Result<Option<u32>, Memory>
    ensures { IfOk result
        (λ number. number ≡ mode_named_of (plain_names names.now) (Some (plain_named named.now))) }
{
    let Decl::ModeDef(head, mode) = &named.decl else {
        return Ok(None);
    };
    let variables = parameters_of(alloc, head)?;
    match mode_of_term(
        alloc,
        names,
        defining_module(names, named),
        variables.as_slice(),
        mode,
    )? {
        Mode::Defined(number, _) => Ok(Some(number)),
        Mode::FromTo(_, _) => Ok(None),
    }
}
