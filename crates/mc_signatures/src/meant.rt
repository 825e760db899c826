ghost use Rattle.std.specs.Prelude.{◌≡◌, length, map, Some, IfOk};
ghost use Rattle.std.specs.Option.{option_map};
ghost use Rattle.mc_insts.specs.code.Lists.{Extends};
ghost use Rattle.mc_names.specs.Linked.{Linked, plain_named, plain_names};
ghost use Rattle.mc_inst_table.specs.Plain.{plain_inst, plain_mode};
ghost use Rattle.mc_signatures.specs.MeantModes.{mode_body_of, mode_bodies};
ghost use Rattle.mc_signatures.specs.code.Keys.{terms, AllBelow, IsInst, with_insts};
ghost use Rattle.mc_signatures.specs.code.Definitions.{AreDefinitions, GoesBetween};

use crate::expansion::{all_expanded, expanded};
use crate::keys::InstSet;
use mc_base::{Memory, Row};
use mc_decl_syntax::Decl;
use mc_inst_table::{Inst, Mode, inst_bodies, mode_of_term};
use mc_names::{Named, Names, defining_module, parameters_of};
use std::alloc::Global;

/// The definitions of insts and modes of a program, by which written modes mean something.
#[derive(Drop)]
pub struct Definitions {
    pub insts: Row<Inst>,
    pub modes: Vec<Option<Mode>>,
}

/// The insts from which a mode goes and to which, by their numbers.
#[derive(Clone, Copy)]
pub struct Between {
    pub first: u32,
    pub last: u32,
}

impl Definitions {
    /// Those of a program.
    ///
    /// # Errors
    ///
    /// `Memory` where there is no room.
    #[tactic(auto, using(crate::proofs::Kept::are_definitions))]
    pub fn of(alloc: Global, names: &Names) -> Result<Definitions, Memory>
        ensures { IfOk result (λ d. AreDefinitions (plain_names names.now) d) }
    {
        let insts = inst_bodies(alloc, names)?;
        let modes = mode_bodies(alloc, names)?;
        Ok(Definitions { insts, modes })
    }

    /// The insts from which a mode goes and to which.
    ///
    /// # Errors
    ///
    /// `Memory` where there is no room, or where definitions lead to no end, stand over too few insts, or aren't there.
    /// (That is refused.)
    #[tactic(auto, using(crate::proofs::Following::follows_itself, crate::proofs::Following::follows_on, crate::proofs::Following::follows_end))]
    pub fn meant(
        &self,
        alloc: Global,
        insts: &mut InstSet,
        written: &Mode,
    ) -> Result<Between, Memory>
        ensures extends { Extends (terms insts.old) (terms insts.new) }
        ensures goes { IfOk result
            (λ b.
            (l : Linked) → AreDefinitions l self.now
            → GoesBetween l (terms insts.new) (plain_mode written.now) b.first b.last) }
    {
        let mut given = Vec::new(alloc);
        let mut mode = written;
        for _ in 0..self.modes.len() {
            match mode {
                Mode::FromTo(_, _) => break,
                Mode::Defined(number, over) => {
                    given = all_expanded(alloc, insts, given.as_slice(), over.as_slice())?;
                    mode = self.body(*number)?;
                }
            }
        }
        match mode {
            Mode::FromTo(first, last) => ends_of(alloc, insts, given.as_slice(), first, last),
            Mode::Defined(_, _) => Err(Memory),
        }
    }

    // What the mode definition of a number stands for.
    #[tactic(auto, using(crate::proofs::Kept::body_known))]
    fn body(&self, number: u32) -> Result<&Mode, Memory>
        ensures { IfOk result
            (λ body. (l : Linked) → AreDefinitions l self.now → mode_bodies l number ≡ Some (plain_mode body.now)) }
    {
        if number as usize >= self.modes.len() {
            return Err(Memory);
        }
        match &self.modes[number as usize] {
            Some(mode) => Ok(mode),
            None => Err(Memory),
        }
    }
}

// The insts from which a mode goes and to which that is written over insts of these numbers.
fn ends_of(
    alloc: Global,
    insts: &mut InstSet,
    over: &[u32],
    first: &Inst,
    last: &Inst,
) -> Result<Between, Memory>
    requires { AllBelow (length (terms insts.old)) over.now }
    ensures extends { Extends (terms insts.old) (terms insts.new) }
    ensures first { IfOk result
        (λ b. IsInst (terms insts.new) b.first (with_insts (terms insts.old) over.now (plain_inst first.now))) }
    ensures last { IfOk result
        (λ b. IsInst (terms insts.new) b.last (with_insts (terms insts.old) over.now (plain_inst last.now))) }
{
    let first = expanded(alloc, insts, over, first)?;
    let last = expanded(alloc, insts, over, last)?;
    Ok(Between { first, last })
}

// What the mode definitions of a program stand for, over their parameters, by their numbers.
fn mode_bodies(alloc: Global, names: &Names) -> Result<Vec<Option<Mode>>, Memory>
    ensures { IfOk result
        (λ bodies.
        map (option_map plain_mode) bodies.items
        ≡ map (λ n. mode_body_of (plain_names names.now) (Some (plain_named n))) names.now.modes) }
{
    let mut bodies = Vec::new(alloc);
    for named in names.modes.as_slice() {
        bodies.push(mode_body(alloc, names, named)?)?;
    }
    Ok(bodies)
}

// What a mode definition stands for, as its own module writes it.
fn mode_body(alloc: Global, names: &Names, named: &Named) -> Result<Option<Mode>, Memory>
    ensures { IfOk result
        (λ m. option_map plain_mode m ≡ mode_body_of (plain_names names.now) (Some (plain_named named.now))) }
{
    let Decl::ModeDef(head, mode) = &named.decl else {
        return Ok(None);
    };
    let variables = parameters_of(alloc, head)?;
    let mode = mode_of_term(
        alloc,
        names,
        defining_module(names, named),
        variables.as_slice(),
        mode,
    )?;
    Ok(Some(mode))
}
