ghost use Rattle.std.specs.Prelude.{◌≡◌, ℕ, true, false, [], map};
ghost use Rattle.mc_decl_syntax.specs.Plain.{plain_item};
ghost use Rattle.mc_decl_syntax.specs.Entries.{plain_entry};
ghost use Rattle.mc_names.specs.Linked.{Linked, plain_names};
ghost use Rattle.mc_type_table.specs.Visibility.{definitions_seen};
ghost use Rattle.mc_type_phase.specs.Typing.{module_clauses};
ghost use Rattle.mc_type_phase.specs.Items.{is_clause, without_clauses};
ghost use Rattle.mc_type_phase.specs.code.ItemKinds.{is_equivalence};

use mc_decl_syntax::{Decl, Entry};
use mc_names::Names;
use mc_type_table::sees_definition;

/// Whether there is a clause among the items of a file.
pub fn has_clauses(file: &[Entry]) -> bool
    ensures none { result ≡ false
        → (l : Linked) (own : ℕ) → module_clauses l own (map plain_entry file.now) ≡ [] }
    ensures others { result ≡ false
        → without_clauses (map plain_entry file.now) ≡ map plain_entry file.now }
{
    for entry in file {
        if is_clause(&entry.decl) {
            return true;
        }
    }
    false
}

/// Whether an item is a clause.
pub fn is_clause(decl: &Decl) -> bool
    ensures { result ≡ is_clause (plain_item decl.now) }
{
    matches!(decl, Decl::Clause(_))
}

/// Whether two modules, by their numbers, see the same definitions of types: where one of them sees what an equivalence
/// stands for, the other does.
pub fn see_alike(names: &Names, own: u32, other: u32) -> bool
    ensures { result ≡ true
        → (u : ℕ) → definitions_seen (plain_names names.now) own u
        ≡ definitions_seen (plain_names names.now) other u }
{
    let count = names.types.len();
    for number in 0..count {
        if !is_alike(names, number, own, other) {
            return false;
        }
    }
    true
}

// Whether both modules see the definition of the type of a number, or neither does, or it is none that stands for another.
fn is_alike(names: &Names, number: u32, own: u32, other: u32) -> bool
    ensures { result ≡ true
        → definitions_seen (plain_names names.now) own number
        ≡ definitions_seen (plain_names names.now) other number }
{
    if number >= names.types.len() {
        return true;
    }
    if !is_equivalence(&names.types.get(number).decl) {
        return true;
    }
    sees_definition(names, own, number) == sees_definition(names, other, number)
}

fn is_equivalence(decl: &Decl) -> bool
    ensures { result ≡ is_equivalence (plain_item decl.now) }
{
    matches!(decl, Decl::SameType(_, _))
}
