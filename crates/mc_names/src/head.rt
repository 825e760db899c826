ghost use Rattle.std.specs.Prelude.{◌≡◌};
ghost use Rattle.mc_term_data.specs.Plain.{plain_term};
ghost use Rattle.mc_names.specs.Plain.{last_part, plain_name_arity};
ghost use Rattle.mc_names.specs.Definitions.{head_name, symbol_name};

use crate::definition::NameArity;
use mc_base::Text;
use mc_term_data::{Node, Term, arity};

impl<'a> NameArity<'a> {
    ghost use Rattle.std.specs.Prelude.{codes, []};
    ghost use Rattle.mc_names.specs.Plain.{id};
    ghost use Rattle.mc_names.specs.Definitions.{cell, nil};

    /// No name, where a term has none.
    pub fn none() -> NameArity<'a>
        ensures { plain_name_arity result ≡ id [] 0 }
    {
        NameArity {
            name: b"",
            arity: 0,
        }
    }

    // The constructor of lists over an element and a list.
    fn cell() -> NameArity<'a>
        ensures { plain_name_arity result ≡ cell }
    {
        NameArity {
            name: b"[|]",
            arity: 2,
        }
    }

    // The empty list.
    fn nil() -> NameArity<'a>
        ensures { plain_name_arity result ≡ nil }
    {
        NameArity {
            name: b"[]",
            arity: 0,
        }
    }
}

/// The last part of a name.
#[tactic(auto, using(crate::proofs::Parts::last_of))]
pub fn last_part<'a>(name: &'a [Text]) -> &'a [u8]
    ensures { result.now ≡ last_part name.now }
{
    match name {
        [.., last] => last.bytes(),
        [] => b"",
    }
}

/// The name that a head has.
pub fn head_name(head: &Term) -> NameArity<'_>
    ensures { plain_name_arity result ≡ head_name (plain_term head.now) }
{
    match &head.node {
        Node::App(name, arguments) => match name.as_slice() {
            [word] => NameArity {
                name: word.bytes(),
                arity: arity(arguments.as_slice()),
            },
            _ => NameArity::none(),
        },
        _ => NameArity::none(),
    }
}

/// The name of a constructor, or of a symbol that an inst lists.
pub fn symbol_name(term: &Term) -> NameArity<'_>
    ensures { plain_name_arity result ≡ symbol_name (plain_term term.now) }
{
    match &term.node {
        Node::App(name, arguments) => NameArity {
            name: last_part(name.as_slice()),
            arity: arity(arguments.as_slice()),
        },
        Node::List(_, tail) => match tail {
            Some(_) => NameArity::cell(),
            None => NameArity::nil(),
        },
        _ => NameArity::none(),
    }
}
