ghost use Rattle.std.specs.Prelude.{◌≡◌, ◌++◌, ◌∷◌, [], map, codes, IfOk, OnOk};
ghost use Rattle.std.specs.Option.{option_map};
ghost use Rattle.mc_term_data.specs.Plain.{plain_term, term_list};
ghost use Rattle.mc_term_data.specs.Shapes.{operands};
ghost use Rattle.mc_decl_syntax.specs.Plain.{plain_item};
ghost use Rattle.mc_decl_syntax.specs.Entries.{plain_entry};
ghost use Rattle.mc_names.specs.Linked.{plain_names};
ghost use Rattle.mc_inst_table.specs.Plain.{plain_mode};
ghost use Rattle.mc_inst_table.specs.Written.{written_mode};
ghost use Rattle.mc_signatures.specs.WrittenModes.{plain_written, moded, modes_of_arguments, modes_of_signature, written_modes, modes_of_head, moded_function, function_modes, further_modes, declared_by, determinism_of, mode_by};

use mc_base::{Memory, Row};
use mc_decl_syntax::{Decl, Entry};
use mc_defs_uses::without_mode;
use mc_inst_table::{Mode, mode_of_term};
use mc_names::Names;
use mc_source::det::Det;
use mc_source::place::Place;
use mc_term_data::{Node, Term, operands};
use std::alloc::Global;

/// A mode of a predicate or a function, as its item declares it.
#[derive(Drop)]
pub struct WrittenMode {
    /// The modes of the arguments; a function's result is the last.
    pub modes: Row<Mode>,
    /// The determinism, where one is declared.
    pub det: Option<Det>,
    /// Where the item stands.
    pub at: Place,
}

/// The mode that an item declares in the module of a number, where it declares one.
///
/// # Errors
///
/// `Memory` where there is no room.
pub fn mode_by(
    alloc: Global,
    names: &Names,
    own: u32,
    entry: &Entry,
) -> Result<Option<WrittenMode>, Memory>
    ensures { IfOk result
        (λ m. option_map plain_written m ≡ mode_by (plain_names names.now) own (plain_entry entry.now)) }
{
    let declared = declared_by(alloc, names, own, &entry.decl)?;
    match declared {
        Some(modes) => {
            let modes = Row::of(modes)?;
            let det = determinism_of(&entry.decl);
            Ok(Some(WrittenMode {
                modes,
                det,
                at: entry.at,
            }))
        }
        None => Ok(None),
    }
}

fn determinism_of(decl: &Decl) -> Option<Det>
    ensures { result ≡ determinism_of (plain_item decl.now) }
{
    match decl {
        Decl::Pred(_, det) => *det,
        Decl::Func(_, det) => *det,
        Decl::Mode(_, det) => *det,
        _ => None,
    }
}

// The modes of the arguments of the mode that an item declares.
fn declared_by(
    alloc: Global,
    names: &Names,
    own: u32,
    decl: &Decl,
) -> Result<Option<Vec<Mode>>, Memory>
    ensures { IfOk result
        (λ modes.
        option_map (λ ms. map plain_mode ms.items) modes
        ≡ declared_by (plain_names names.now) own (plain_item decl.now)) }
{
    match decl {
        Decl::Pred(term, _) => {
            if without_mode(alloc, decl).is_some() {
                return Ok(None);
            }
            let modes = signature(alloc, names, own, term)?;
            Ok(Some(modes))
        }
        Decl::Func(term, _) => function(alloc, names, own, term),
        Decl::Mode(term, _) => {
            let modes = further(alloc, names, own, term)?;
            Ok(Some(modes))
        }
        _ => Ok(None),
    }
}

// The mode behind `::`.
fn put_moded(
    alloc: Global,
    names: &Names,
    own: u32,
    parts: Option<(&Term, &Term)>,
    modes: &mut Vec<Mode>,
) -> Result<(), Memory>
    ensures { OnOk result
        (map plain_mode modes.new.items
        ≡ map plain_mode modes.old.items
        ++ moded (plain_names names.now) own (option_map (λ p. (plain_term p.0.now, plain_term p.1.now)) parts.entry)) }
{
    match parts {
        Some((_, term)) => put_mode(alloc, names, own, term, modes),
        None => Ok(()),
    }
}

// The mode that a term writes.
#[tactic(auto, using(crate::proofs::Behind::one_behind))]
fn put_mode(
    alloc: Global,
    names: &Names,
    own: u32,
    term: &Term,
    modes: &mut Vec<Mode>,
) -> Result<(), Memory>
    ensures { OnOk result
        (map plain_mode modes.new.items
        ≡ map plain_mode modes.old.items
        ++ (written_mode (plain_names names.now) own [] (plain_term term.now) ∷ [])) }
{
    let mode = mode_of_term(alloc, names, own, &[], term)?;
    modes.push(mode)?;
    Ok(())
}

// The modes of arguments, `T :: M`.
#[tactic(auto, using(crate::proofs::Behind::arguments_more))]
fn put_arguments(
    alloc: Global,
    names: &Names,
    own: u32,
    terms: &[Term],
    modes: &mut Vec<Mode>,
) -> Result<(), Memory>
    ensures { OnOk result
        (map plain_mode modes.new.items
        ≡ map plain_mode modes.old.items
        ++ modes_of_arguments (plain_names names.now) own (term_list (map plain_term terms.now))) }
{
    for term in terms {
        put_moded(alloc, names, own, operands(b"::", term), modes)?;
    }
    Ok(())
}

// The modes of a predicate's declaration.
fn signature(alloc: Global, names: &Names, own: u32, term: &Term) -> Result<Vec<Mode>, Memory>
    ensures { IfOk result
        (λ modes.
        map plain_mode modes.items
        ≡ modes_of_signature (plain_names names.now) own (plain_term term.now)) }
{
    let mut modes = Vec::new(alloc);
    if let Node::App(_, terms) = &term.node {
        put_arguments(alloc, names, own, terms.as_slice(), &mut modes)?;
    }
    Ok(modes)
}

// The modes of a function's declaration, where its result has one.
fn function(
    alloc: Global,
    names: &Names,
    own: u32,
    term: &Term,
) -> Result<Option<Vec<Mode>>, Memory>
    ensures { IfOk result
        (λ modes.
        option_map (λ ms. map plain_mode ms.items) modes
        ≡ function_modes (plain_names names.now) own (operands (codes "=") (plain_term term.now))) }
{
    match operands(b"=", term) {
        Some((head, value)) => moded_function(alloc, names, own, head, operands(b"::", value)),
        None => Ok(None),
    }
}

fn moded_function(
    alloc: Global,
    names: &Names,
    own: u32,
    head: &Term,
    parts: Option<(&Term, &Term)>,
) -> Result<Option<Vec<Mode>>, Memory>
    ensures { IfOk result
        (λ modes.
        option_map (λ ms. map plain_mode ms.items) modes
        ≡ moded_function (plain_names names.now) own (plain_term head.now)
        (option_map (λ p. (plain_term p.0.now, plain_term p.1.now)) parts.entry)) }
{
    match parts {
        Some((_, mode)) => {
            let mut modes = signature(alloc, names, own, head)?;
            put_mode(alloc, names, own, mode, &mut modes)?;
            Ok(Some(modes))
        }
        None => Ok(None),
    }
}

// The modes that terms write.
#[tactic(auto, using(crate::proofs::Behind::written_more))]
fn put_written(
    alloc: Global,
    names: &Names,
    own: u32,
    terms: &[Term],
    modes: &mut Vec<Mode>,
) -> Result<(), Memory>
    ensures { OnOk result
        (map plain_mode modes.new.items
        ≡ map plain_mode modes.old.items
        ++ written_modes (plain_names names.now) own (term_list (map plain_term terms.now))) }
{
    for term in terms {
        put_mode(alloc, names, own, term, modes)?;
    }
    Ok(())
}

// The modes over which a name stands.
fn mode_head(alloc: Global, names: &Names, own: u32, term: &Term) -> Result<Vec<Mode>, Memory>
    ensures { IfOk result
        (λ modes.
        map plain_mode modes.items
        ≡ modes_of_head (plain_names names.now) own (plain_term term.now)) }
{
    let mut modes = Vec::new(alloc);
    if let Node::App(_, terms) = &term.node {
        put_written(alloc, names, own, terms.as_slice(), &mut modes)?;
    }
    Ok(modes)
}

// The modes of a further mode of a predicate or a function.
fn further(alloc: Global, names: &Names, own: u32, term: &Term) -> Result<Vec<Mode>, Memory>
    ensures { IfOk result
        (λ modes.
        map plain_mode modes.items
        ≡ further_modes (plain_names names.now) own (plain_term term.now) (operands (codes "=") (plain_term term.now))) }
{
    match operands(b"=", term) {
        Some((head, mode)) => {
            let mut modes = mode_head(alloc, names, own, head)?;
            put_mode(alloc, names, own, mode, &mut modes)?;
            Ok(modes)
        }
        None => mode_head(alloc, names, own, term),
    }
}
