ghost use Rattle.std.specs.Prelude.{◌≡◌, ◌++◌, map, IfOk, OnOk};
ghost use Rattle.mc_inst_table.specs.Plain.{plain_inst, plain_insts};
ghost use Rattle.mc_inst_table.specs.code.Links.{parameter_of, given_of, links, all_links};

use crate::inst::Inst;
use mc_base::{Memory, Row};
use std::alloc::Global;

/// A definition that stands in an inst.
#[derive(Drop)]
pub struct Link {
    /// The definition, by its number.
    pub to: u32,
    /// For each of its parameters the parameter that is given for it, where that is one alone.
    pub given: Row<Option<u32>>,
}

/// The definitions that stand in each of some bodies, at any depth. It takes stack for each level of an inst.
///
/// # Errors
///
/// `Memory` where there is no room.
pub fn links_of(alloc: Global, bodies: &Row<Inst>) -> Result<Row<Row<Link>>, Memory>
    ensures { IfOk result (λ rows. rows ≡ map (λ i. links (plain_inst i)) bodies.now) }
{
    let mut rows = Vec::new(alloc);
    for body in bodies.as_slice() {
        rows.push(links_in(alloc, body)?)?;
    }
    Row::of(rows)
}

fn links_in(alloc: Global, inst: &Inst) -> Result<Row<Link>, Memory>
    ensures { IfOk result (λ row. row ≡ links (plain_inst inst.now)) }
{
    let mut links = Vec::new(alloc);
    put_links(alloc, inst, &mut links)?;
    Row::of(links)
}

// Puts in the definitions that stand in an inst.
#[cycle(links)]
fn put_links(alloc: Global, inst: &Inst, found: &mut Vec<Link>) -> Result<(), Memory>
    ensures { OnOk result (found.new.items ≡ found.old.items ++ links (plain_inst inst.now)) }
{
    match inst {
        Inst::Parameter(_) => Ok(()),
        Inst::Node(_) => Ok(()),
        Inst::Defined(number, insts) => {
            let given = given_of(alloc, insts.as_slice())?;
            found.push(Link { to: *number, given })?;
            put_all_links(alloc, insts.as_slice(), found)
        }
        Inst::Bound(_, insts) => put_all_links(alloc, insts.as_slice(), found),
    }
}

#[cycle(links)]
#[tactic(auto, using(crate::proofs::Linking::links_more))]
fn put_all_links(alloc: Global, insts: &[Inst], found: &mut Vec<Link>) -> Result<(), Memory>
    ensures { OnOk result (found.new.items ≡ found.old.items ++ all_links (plain_insts insts.now)) }
{
    for inst in insts {
        put_links(alloc, inst, found)?;
    }
    Ok(())
}

// Which of some insts are parameters.
#[tactic(auto, using(crate::proofs::Linking::given_more))]
fn given_of(alloc: Global, insts: &[Inst]) -> Result<Row<Option<u32>>, Memory>
    ensures { IfOk result (λ given. given ≡ given_of (plain_insts insts.now)) }
{
    let mut given = Vec::new(alloc);
    for inst in insts {
        given.push(parameter_of(inst))?;
    }
    Row::of(given)
}

fn parameter_of(inst: &Inst) -> Option<u32>
    ensures { result ≡ parameter_of (plain_inst inst.now) }
{
    match inst {
        Inst::Parameter(k) => Some(*k),
        Inst::Node(_) => None,
        Inst::Defined(_, _) => None,
        Inst::Bound(_, _) => None,
    }
}
