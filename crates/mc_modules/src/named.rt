ghost use Rattle.std.specs.Prelude.{◌≡◌, ◌∷◌, ◌++◌, [], map, IfOk, OnOk};
ghost use Rattle.mc_term_data.specs.Plain.{plain_term, term_list};
ghost use Rattle.mc_decl_syntax.specs.Plain.{plain_item};
ghost use Rattle.mc_names.specs.Plain.{plain_name_arity};
ghost use Rattle.mc_names.specs.Definitions.{definitions};
ghost use Rattle.mc_modules.specs.Kept.{plain_item_in_file};
ghost use Rattle.mc_modules.specs.Linked.{defined, bare_head, constructors, symbols_by, of_kind};
ghost use Rattle.mc_names.specs.Linked.{plain_named};

use crate::ItemInFile;
use mc_base::{Copied, Memory, Row, Text};
use mc_decl_syntax::Decl;
use mc_names::{NameArity, Named, symbol_name};
use mc_source::name::Name;
use mc_term_data::{Node, Term};
use std::alloc::Global;

/// A number below 2^32.
pub fn small(n: usize) -> Result<u32, Memory>
    ensures { IfOk result (λ m. m ≡ n) }
{
    if n > u32::MAX as usize {
        return Err(Memory);
    }
    Ok(n as u32)
}

fn named(
    alloc: Global,
    module: &Text,
    item: &ItemInFile,
    exported: bool,
    decl: Decl,
    id: NameArity,
) -> Result<Named, Memory>
    ensures { IfOk result
        (λ n.
        plain_named n
        ≡ defined «module».now (plain_item_in_file item.now) exported (plain_item decl)
        (plain_name_arity id.entry)) }
{
    let name = Name {
        module: module.copied(alloc)?,
        name: Text::new(alloc, id.name)?,
        arity: small(id.arity)?,
    };
    let at = item.entry.at;
    let shown = item.section.is_shown();
    Ok(Named {
        name,
        decl,
        at,
        exported,
        shown,
    })
}

/// Puts a name behind others, with the whole item that declares or defines it.
pub fn put_whole(
    alloc: Global,
    module: &Text,
    item: &ItemInFile,
    exported: bool,
    id: NameArity,
    all: &mut Vec<Named>,
) -> Result<(), Memory>
    ensures { OnOk result
        (map plain_named all.new.items
        ≡ map plain_named all.old.items
        ++ defined «module».now (plain_item_in_file item.now) exported
        (plain_item_in_file item.now).item (plain_name_arity id.entry) ∷ []) }
{
    let decl = item.entry.decl.copied(alloc)?;
    all.push(named(alloc, module, item, exported, decl, id)?)?;
    Ok(())
}

/// Puts what an item declares behind others, with the whole item, where it is of the wanted sort.
pub fn put_sorted(
    alloc: Global,
    module: &Text,
    item: &ItemInFile,
    wanted: bool,
    all: &mut Vec<Named>,
) -> Result<(), Memory>
    ensures { OnOk result
        (map plain_named all.new.items
        ≡ map plain_named all.old.items
        ++ of_kind «module».now (plain_item_in_file item.now) wanted
        (definitions (plain_item_in_file item.now).item)) }
{
    match item.definitions.as_slice() {
        [first, ..] if wanted => {
            put_whole(alloc, module, item, item.section.is_shown(), first.id, all)
        }
        _ => Ok(()),
    }
}

/// Puts the constructors of a union behind others.
pub fn put_symbols(
    alloc: Global,
    module: &Text,
    item: &ItemInFile,
    symbols: &mut Vec<Named>,
) -> Result<(), Memory>
    ensures { OnOk result
        (map plain_named symbols.new.items
        ≡ map plain_named symbols.old.items
        ++ symbols_by «module».now (plain_item_in_file item.now)
        (plain_item_in_file item.now).item) }
{
    match &item.entry.decl {
        Decl::UnionType(head, constructors) => {
            put_constructors(alloc, module, item, head, constructors.as_slice(), symbols)
        }
        _ => Ok(()),
    }
}

fn put_constructors(
    alloc: Global,
    module: &Text,
    item: &ItemInFile,
    head: &Term,
    terms: &[Term],
    symbols: &mut Vec<Named>,
) -> Result<(), Memory>
    ensures { OnOk result
        (map plain_named symbols.new.items
        ≡ map plain_named symbols.old.items
        ++ constructors «module».now (plain_item_in_file item.now) (plain_term head.now)
        (term_list (map plain_term terms.now))) }
{
    for term in terms {
        symbols.push(constructor(alloc, module, item, head, term)?)?;
    }
    Ok(())
}

// A constructor, with the union of it alone.
fn constructor(
    alloc: Global,
    module: &Text,
    item: &ItemInFile,
    head: &Term,
    term: &Term,
) -> Result<Named, Memory>
    ensures { IfOk result
        (λ n.
        plain_named n ∷ []
        ≡ constructors «module».now (plain_item_in_file item.now) (plain_term head.now)
        (term_list (plain_term term.now ∷ []))) }
{
    let alone = Row::one(alloc, term.copied(alloc)?)?;
    let union = Decl::UnionType(bare_head(alloc, head)?, Box::new(alloc, alone)?);
    let exported = item.section.is_shown();
    named(alloc, module, item, exported, union, symbol_name(term))
}

// The head of a type without its parameters.
fn bare_head(alloc: Global, head: &Term) -> Result<Term, Memory>
    ensures { IfOk result (λ bare. plain_term bare ≡ bare_head (plain_term head.now)) }
{
    match &head.node {
        Node::App(name, _) => {
            let node = Node::App(name.copied(alloc)?, Row::new(alloc));
            let line = head.line;
            Ok(Term { node, line })
        }
        _ => head.copied(alloc),
    }
}
