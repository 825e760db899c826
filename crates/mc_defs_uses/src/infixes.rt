ghost use Rattle.std.specs.Prelude.{◌≡◌, nat_eq, ◌&&◌};
ghost use Rattle.mc_defs_uses.specs.Occurrences.{is_infix};

use mc_base::Text;
use mc_operators::infix;

/// Whether a name over so many arguments is an infix operator, which stands between its operands.
pub fn stands_between(name: &[Text], arity: usize) -> bool
    ensures { result ≡ (nat_eq arity 2 && is_infix name.now) }
{
    match name {
        [word] => arity == 2 && infix(word.bytes()).is_some(),
        _ => false,
    }
}
