ghost use Rattle.std.specs.Prelude.{◌≡◌};
ghost use Rattle.mc_decl_syntax.specs.Plain.{plain_item};
ghost use Rattle.mc_modules.specs.Files.{section_after, is_shown};

use mc_decl_syntax::Decl;

/// The section that an item stands in.
#[derive(Clone, Copy)]
pub enum Section {
    Nowhere,
    Interface,
    Implementation,
}

impl Section {
    /// The section behind an item.
    pub fn after(self, decl: &Decl) -> Section
        ensures { result ≡ section_after self (plain_item decl.now) }
    {
        match decl {
            Decl::Interface => Section::Interface,
            Decl::Implementation => Section::Implementation,
            _ => self,
        }
    }

    /// Whether other modules see what stands in it.
    pub fn is_shown(self) -> bool
        ensures { result ≡ is_shown self }
    {
        matches!(self, Section::Interface)
    }
}
