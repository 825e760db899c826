ghost use Rattle.std.specs.Prelude.{◌≡◌, map};
ghost use Rattle.mc_decl_syntax.specs.Plain.{plain_item};
ghost use Rattle.mc_names.specs.Plain.{plain_definition};
ghost use Rattle.mc_names.specs.Definitions as spec;

use crate::section::Section;
use mc_decl_syntax::Entry;
use mc_names::Definition;

/// An item as it stands in its file, with what it declares and defines.
#[derive(Drop)]
pub struct ItemInFile<'a> {
    pub entry: &'a Entry,
    pub section: Section,
    pub is_first: bool,
    pub is_last: bool,
    pub definitions: Vec<Definition<'a>>,
    ghost defined: { map plain_definition definitions.items ≡ spec.definitions (plain_item entry.now.decl) },
}
