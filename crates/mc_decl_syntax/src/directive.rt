ghost use Rattle.std.specs.Prelude.{◌≡◌};
ghost use Rattle.std.specs.Option.{option_map, is_some};
ghost use Rattle.mc_term_data.specs.Plain.{plain_term};
ghost use Rattle.mc_decl_syntax.specs.Terms as T;

use crate::parts::into_only;
use mc_term_data::{Node, Term, has_one, is_the_word};

/// Whether a term is a declaration, `:- D`. It takes no memory.
#[tactic(auto, using(crate::proofs::Views::one_where))]
pub fn is_declaration(term: &Term) -> bool
    ensures { result ≡ is_some (T.declared_part (plain_term term.now)) }
{
    match &term.node {
        Node::App(name, parts) => is_the_word(b":-", name) && has_one(parts),
        _ => false,
    }
}

/// What stands behind the `:-` of a declaration; None where the term is none. It takes no memory.
pub fn declared_part(term: Term) -> Option<Term>
    ensures { option_map plain_term result ≡ T.declared_part (plain_term term) }
{
    if is_declaration(&term) {
        into_only(term)
    } else {
        None
    }
}
