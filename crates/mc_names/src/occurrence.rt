ghost use Rattle.std.specs.Prelude.{◌≡◌, [], ◌∷◌};
ghost use Rattle.mc_names.specs.Plain.{plain_occurrence, used};

use crate::definition::{Kind, NameArity};
use mc_base::Text;

/// A name as an item uses it: what it is to mean, the parts before its last, and its last part with the number of its
/// arguments.
#[derive(Clone, Copy, Debug)]
pub struct Occurrence<'a> {
    pub kind: Kind,
    pub qualifiers: &'a [Text],
    pub id: NameArity<'a>,
}

impl<'a> Occurrence<'a> {
    /// The use of a name over so many arguments.
    #[tactic(auto, using(crate::proofs::Parts::last_of, crate::proofs::Parts::front_of))]
    pub fn of(kind: Kind, name: &'a [Text], arity: usize) -> Occurrence<'a>
        ensures { plain_occurrence result ∷ [] ≡ used kind name.now arity }
    {
        match name {
            [qualifiers @ .., last] => Occurrence {
                kind,
                qualifiers,
                id: NameArity {
                    name: last.bytes(),
                    arity,
                },
            },
            [] => Occurrence {
                kind,
                qualifiers: &[],
                id: NameArity { name: b"", arity },
            },
        }
    }

    /// The use of a constructor that has no qualifiers.
    pub fn of_symbol(name: &'a [u8], arity: usize) -> Occurrence<'a>
        ensures { plain_occurrence result ∷ [] ≡ used Kind.Symbol (name.now ∷ []) arity }
    {
        Occurrence {
            kind: Kind::Symbol,
            qualifiers: &[],
            id: NameArity { name, arity },
        }
    }
}
