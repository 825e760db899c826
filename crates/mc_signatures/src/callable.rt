ghost use Rattle.std.specs.Prelude.{◌≡◌, false, Some, codes};
ghost use Rattle.std.specs.Option.{option_map};
ghost use Rattle.mc_term_data.specs.Plain.{plain_term};
ghost use Rattle.mc_term_data.specs.Shapes.{operands};
ghost use Rattle.mc_decl_syntax.specs.Plain.{plain_item};
ghost use Rattle.mc_names.specs.Definitions.{head_name, func_name};
ghost use Rattle.mc_names.specs.Plain.{plain_name_arity};
ghost use Rattle.mc_names.specs.Linked.{plain_named};
ghost use Rattle.mc_signatures.specs.WrittenModes.{same_sort, is_that, callable, of_further, is_function, callable_of};
ghost use Rattle.mc_signatures.specs.code.Callables.{plain_callable};

use mc_decl_syntax::Decl;
use mc_names::{NameArity, Named, head_name};
use mc_term_data::{Term, operands};

/// A predicate or a function, by its name.
#[derive(Clone, Copy)]
pub struct Callable<'a> {
    pub is_function: bool,
    pub id: NameArity<'a>,
}

/// What an item declares a mode of, or declares.
pub fn of_item(decl: &Decl) -> Option<Callable<'_>>
    ensures { option_map plain_callable result ≡ callable (plain_item decl.now) }
{
    match decl {
        Decl::Pred(term, _) => Some(predicate(term)),
        Decl::Func(term, _) => Some(Callable {
            is_function: true,
            id: function_name(term),
        }),
        Decl::Mode(term, _) => Some(of_further(term)),
        _ => None,
    }
}

fn predicate(term: &Term) -> Callable<'_>
    ensures { plain_callable result ≡ (record { is_function = false; id = head_name (plain_term term.now) }) }
{
    Callable {
        is_function: false,
        id: head_name(term),
    }
}

fn function_name(term: &Term) -> NameArity<'_>
    ensures { plain_name_arity result ≡ func_name (operands (codes "=") (plain_term term.now)) }
{
    match operands(b"=", term) {
        Some((head, _)) => head_name(head),
        None => NameArity::none(),
    }
}

fn of_further(term: &Term) -> Callable<'_>
    ensures { plain_callable result
        ≡ of_further (plain_term term.now) (operands (codes "=") (plain_term term.now)) }
{
    match operands(b"=", term) {
        Some((head, _)) => Callable {
            is_function: true,
            id: head_name(head),
        },
        None => predicate(term),
    }
}

/// Whether an item is of a predicate or a function.
pub fn is_of(wanted: Callable<'_>, decl: &Decl) -> bool
    ensures { result ≡ is_that (plain_callable wanted.entry) (callable (plain_item decl.now)) }
{
    match of_item(decl) {
        Some(found) => is_same(wanted, found),
        None => false,
    }
}

fn is_same(first: Callable<'_>, second: Callable<'_>) -> bool
    ensures { result ≡ is_that (plain_callable first.entry) (Some (plain_callable second.entry)) }
{
    first.is_function == second.is_function
        && (first.id.arity == second.id.arity && first.id.name == second.id.name)
}

/// What the declaration of a predicate or a function declares.
pub fn callable_of(named: &Named) -> Callable<'_>
    ensures { plain_callable result ≡ callable_of (plain_named named.now) }
{
    Callable {
        is_function: is_function(&named.decl),
        id: NameArity {
            name: named.name.name.bytes(),
            arity: named.name.arity as usize,
        },
    }
}

fn is_function(decl: &Decl) -> bool
    ensures { result ≡ is_function (plain_item decl.now) }
{
    match decl {
        Decl::Func(_, _) => true,
        _ => false,
    }
}
