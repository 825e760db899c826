ghost use Rattle.std.specs.Prelude.{◌∷◌, []};
ghost use Rattle.std.specs.Cmp.Rules.{hashing};
ghost use Rattle.std.proofs.Common.{rules};

use std::hash::{Hash, Hasher};

/// What a name is, or is to mean.
#[derive(Clone, Copy, Debug, PartialEq, Eq)]
pub enum Kind {
    /// A type that is declared without its definition.
    AbstractType,
    /// A type that is defined; of a use, a type of either kind.
    DefinedType,
    /// An inst.
    Inst,
    /// A mode.
    Mode,
    /// A predicate.
    Pred,
    /// A function.
    Func,
    /// A constructor; of a use, what a name in a term may be: a constructor, a function or a character.
    Symbol,
}

/// A name without qualifiers, with the number of its arguments; a function's result is no argument. It is written
/// `name/arity`.
#[derive(Clone, Copy, Debug, PartialEq, Eq)]
pub struct NameArity<'a> {
    pub name: &'a [u8],
    pub arity: usize,
}

// A name is hashed without the number of its arguments, and what it is: few share one, and one write is fast.
impl<'a> Hash for NameArity<'a> {
    ghost hash_input = { λ x. x.name.now ∷ [] };

    ghost respects_eq = { Prim.search (hashing, rules) };

    fn hash<H: Hasher>(&self, state: &mut H) {
        state.write(self.name);
    }
}

/// What an item declares or defines.
#[derive(Clone, Copy, Debug, PartialEq, Eq)]
pub struct Definition<'a> {
    pub kind: Kind,
    pub id: NameArity<'a>,
}

impl<'a> Hash for Definition<'a> {
    ghost hash_input = { λ t. t.id.name.now ∷ [] };

    ghost respects_eq = { Prim.search (hashing, rules) };

    fn hash<H: Hasher>(&self, state: &mut H) {
        self.id.hash(state);
    }
}
