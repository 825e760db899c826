ghost use Rattle.std.specs.Prelude.{◌≡◌, ◌+◌, length};

use mc_types::Signature;

/// The types that things are declared with, as a module sees them: each constructor's arguments and its own type, and
/// the types of each function and predicate.
#[derive(Drop)]
pub struct Signatures {
    pub all: Vec<Signature>,
    pub symbols: usize,
    pub preds: usize,
    ghost whole: { length all.items ≡ 4 + (symbols + (preds + preds)) },
}
