ghost use Rattle.std.specs.Prelude.{◌≡◌, map, Some, IfOk};
ghost use Rattle.std.specs.Option.{option_map};
ghost use Rattle.mc_program.specs.PlainPrograms.{plain_type};
ghost use Rattle.mc_names.specs.Linked.{Linked, plain_named, plain_names};
ghost use Rattle.mc_type_table.specs.Expanded.{equivalent_of};
ghost use Rattle.mc_type_table.specs.Rules.{types_in_body, is_cyclic, definitions};
ghost use Rattle.mc_type_table.specs.code.Hidden.{is_hidden, not_hidden};
ghost use Rattle.mc_type_table.specs.code.Kept.{AreEquivalences};

use crate::equivalences::equivalent;
use crate::mentioned::put_types_in;
use crate::replaced::definition_of;
use mc_base::{Memory, Row};
use mc_components::{components, reaches_itself};
use mc_names::Names;
use mc_program::ty::Ty;
use std::alloc::Global;

/// The equivalences of a program, by the numbers of its types: what each stands for, as its own module writes it; which
/// types stand in that; and the components of that graph.
#[derive(Drop)]
pub struct Equivalences {
    pub bodies: Vec<Option<Ty>>,
    pub graph: Row<Row<u32>>,
    pub components: Row<u32>,
}

impl Equivalences {
    /// The equivalences of a program.
    ///
    /// # Errors
    ///
    /// `Memory` where there is no room.
    pub fn of(alloc: Global, names: &Names) -> Result<Equivalences, Memory>
        ensures { IfOk result (λ e. AreEquivalences (plain_names names.now) e) }
    {
        let bodies = bodies(alloc, names)?;
        let graph = graph(alloc, bodies.as_slice())?;
        let components = components(alloc, &graph)?;
        Ok(Equivalences {
            bodies,
            graph,
            components,
        })
    }

    /// Whether a type reaches itself by equivalences.
    pub fn is_cyclic(&self, number: u32) -> bool
        ensures { (l : Linked) → AreEquivalences l self.now → result ≡ is_cyclic l number }
    {
        number < self.graph.len() && reaches_itself(&self.graph, &self.components, number)
    }

    /// What a type stands for, as its own module writes it, where that isn't hidden and doesn't go round.
    pub fn definition(&self, hidden: &[bool], number: u32) -> Option<&Ty>
        ensures { (l : Linked) → AreEquivalences l self.now
            → option_map (λ t. plain_type t.now) result ≡ not_hidden l hidden.now number }
    {
        if is_hidden(hidden, number) {
            return None;
        }
        self.straight(number)
    }

    // What a type stands for where it doesn't go round.
    fn straight(&self, number: u32) -> Option<&Ty>
        ensures { (l : Linked) → AreEquivalences l self.now
            → option_map (λ t. plain_type t.now) result ≡ definitions l number }
    {
        if self.is_cyclic(number) {
            return None;
        }
        definition_of(self.bodies.as_slice(), number)
    }
}

// Whether the definition of a type is hidden; that of a number past the row isn't.
fn is_hidden(hidden: &[bool], number: u32) -> bool
    ensures { result ≡ is_hidden hidden.now number }
{
    match hidden.get(number as usize) {
        Some(is_hidden) => *is_hidden,
        None => false,
    }
}

fn bodies(alloc: Global, names: &Names) -> Result<Vec<Option<Ty>>, Memory>
    ensures { IfOk result
        (λ all.
        map (λ t. option_map plain_type t) all.items
        ≡ map (λ n. equivalent_of (plain_names names.now) (Some (plain_named n))) names.now.types) }
{
    let mut all = Vec::new(alloc);
    for named in names.types.as_slice() {
        all.push(equivalent(alloc, names, named)?)?;
    }
    Ok(all)
}

fn graph(alloc: Global, bodies: &[Option<Ty>]) -> Result<Row<Row<u32>>, Memory>
    ensures { IfOk result
        (λ rows. rows ≡ map (λ t. types_in_body (option_map plain_type t)) bodies.now) }
{
    let mut rows = Vec::new(alloc);
    for body in bodies {
        rows.push(types_in_body(alloc, body)?)?;
    }
    Row::of(rows)
}

fn types_in_body(alloc: Global, body: &Option<Ty>) -> Result<Row<u32>, Memory>
    ensures { IfOk result (λ row. row ≡ types_in_body (option_map plain_type body.now)) }
{
    let mut numbers = Vec::new(alloc);
    if let Some(t) = body {
        put_types_in(t, &mut numbers)?;
    }
    Row::of(numbers)
}
