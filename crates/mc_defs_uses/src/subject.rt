ghost use Rattle.std.specs.Prelude.{◌≡◌, codes};
ghost use Rattle.std.specs.Option.{option_map};
ghost use Rattle.mc_term_data.specs.Plain.{plain_term};
ghost use Rattle.mc_term_data.specs.Shapes.{operands};
ghost use Rattle.mc_decl_syntax.specs.Plain.{plain_item};
ghost use Rattle.mc_names.specs.Plain.{plain_name_arity, plain_definition};
ghost use Rattle.mc_defs_uses.specs.Clauses.{clause_head, of_head, of_rule, clause_of, of_mode, mode_of, is_mode_too, without_mode};

use mc_clause_syntax::argument_count;
use mc_decl_syntax::{Decl, are_moded};
use mc_names::{Definition, Kind, NameArity, head_name};
use mc_term_data::{Node, Term, has_none, operands};
use std::alloc::Global;

/// The predicate or function that a clause is of; None where the item is no clause. It takes no memory.
pub fn clause_of<'a>(decl: &'a Decl) -> Option<Definition<'a>>
    ensures { option_map plain_definition result ≡ clause_of (plain_item decl.now) }
{
    match decl {
        Decl::Clause(term) => Some(of_rule(term)),
        _ => None,
    }
}

fn of_rule(term: &Term) -> Definition<'_>
    ensures { plain_definition result
        ≡ of_rule (plain_term term.now) (operands (codes ":-") (plain_term term.now)) }
{
    match operands(b":-", term) {
        Some((head, _)) => of_head(head),
        None => of_head(term),
    }
}

// The predicate or function that a head is of.
fn of_head(head: &Term) -> Definition<'_>
    ensures { plain_definition result
        ≡ of_head (plain_term head.now) (operands (codes "=") (plain_term head.now)) }
{
    match operands(b"=", head) {
        Some((function, _)) => Definition {
            kind: Kind::Func,
            id: clause_head(function),
        },
        None => Definition {
            kind: Kind::Pred,
            id: clause_head(head),
        },
    }
}

// A name over the arguments of a clause's head, where both versions of a state variable are two.
fn clause_head(head: &Term) -> NameArity<'_>
    ensures { plain_name_arity result ≡ clause_head (plain_term head.now) }
{
    match &head.node {
        Node::App(name, arguments) => match name.as_slice() {
            [word] => NameArity {
                name: word.bytes(),
                arity: argument_count(arguments.as_slice(), true),
            },
            _ => NameArity::none(),
        },
        _ => NameArity::none(),
    }
}

/// The predicate or function that a further mode is of; None where the item is no such mode. It takes no memory.
pub fn mode_of<'a>(decl: &'a Decl) -> Option<Definition<'a>>
    ensures { option_map plain_definition result ≡ mode_of (plain_item decl.now) }
{
    match decl {
        Decl::Mode(term, _) => Some(of_mode(term)),
        _ => None,
    }
}

fn of_mode(term: &Term) -> Definition<'_>
    ensures { plain_definition result
        ≡ of_mode (plain_term term.now) (operands (codes "=") (plain_term term.now)) }
{
    match operands(b"=", term) {
        Some((function, _)) => Definition {
            kind: Kind::Func,
            id: head_name(function),
        },
        None => Definition {
            kind: Kind::Pred,
            id: head_name(term),
        },
    }
}

/// The predicate that an item declares without a mode; None where it declares none, or with a mode. It takes no memory.
pub fn without_mode<'a>(alloc: Global, decl: &'a Decl) -> Option<NameArity<'a>>
    ensures { option_map plain_name_arity result ≡ without_mode (plain_item decl.now) }
{
    match decl {
        Decl::Pred(term, determinism) => {
            if is_mode_too(alloc, term, determinism.is_some()) {
                None
            } else {
                Some(head_name(term))
            }
        }
        _ => None,
    }
}

// Whether the declaration of a predicate is a mode of it too.
fn is_mode_too(alloc: Global, term: &Term, has_determinism: bool) -> bool
    ensures { result ≡ is_mode_too (plain_term term.now) has_determinism }
{
    match &term.node {
        Node::App(_, arguments) => {
            are_moded(alloc, arguments.as_slice()) && (!has_none(arguments) || has_determinism)
        }
        _ => false,
    }
}
