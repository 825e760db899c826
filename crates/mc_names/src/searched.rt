ghost use Rattle.std.specs.Prelude.{◌≡◌};
ghost use Rattle.mc_names.specs.code.Searched.{modules_of};

use mc_base::Row;

/// The modules in which a name is looked up: those that a module sees unqualified, or those that qualifiers mean.
#[derive(Drop)]
pub enum Searched<'n> {
    Unqualified(&'n [u32]),
    Qualified(Row<u32>),
}

impl Searched<'_> {
    /// Their numbers.
    pub fn modules(&self) -> &[u32]
        ensures { result.now ≡ modules_of self.now }
    {
        match self {
            Searched::Unqualified(modules) => modules,
            Searched::Qualified(modules) => modules.as_slice(),
        }
    }
}
