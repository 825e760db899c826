ghost use Rattle.std.specs.Prelude.{◌≡◌, IfOk, codes, map};
ghost use Rattle.mc_term_data.specs.Plain.{plain_term, term_list};
ghost use Rattle.mc_term_data.specs.Shapes.{operands};
ghost use Rattle.mc_decl_syntax.specs.Plain.{plain_item};
ghost use Rattle.mc_clauses.specs.Unresolved.{arguments_of};
ghost use Rattle.mc_declarations.specs.Declarations.{without_mode, without_modes, with_result, type_terms_of};

use mc_base::Memory;
use mc_decl_syntax::Decl;
use mc_term_data::{Node, Term, operands};
use std::alloc::Global;

/// The terms that write the types of a predicate's arguments; a function's result comes last.
pub fn type_terms<'a>(alloc: Global, decl: &'a Decl) -> Result<Vec<&'a Term>, Memory>
    ensures { IfOk result (λ all. term_list (map (λ t. plain_term t.now) all.items)
        ≡ type_terms_of (plain_item decl.now)) }
{
    match decl {
        Decl::Pred(signature, _) => {
            let all = argument_types(alloc, signature)?;
            Ok(all)
        }
        Decl::Func(signature, _) => {
            let all = with_result(alloc, signature)?;
            Ok(all)
        }
        _ => Ok(Vec::new(alloc)),
    }
}

// The types of a function's arguments, then its result.
fn with_result<'a>(alloc: Global, signature: &'a Term) -> Result<Vec<&'a Term>, Memory>
    ensures { IfOk result (λ all. term_list (map (λ t. plain_term t.now) all.items)
        ≡ with_result (operands (codes "=") (plain_term signature.now))) }
{
    match operands(b"=", signature) {
        Some((function, value)) => {
            let mut all = argument_types(alloc, function)?;
            all.push(without_mode(value))?;
            Ok(all)
        }
        None => Ok(Vec::new(alloc)),
    }
}

// The types of the arguments of a name.
fn argument_types<'a>(alloc: Global, head: &'a Term) -> Result<Vec<&'a Term>, Memory>
    ensures { IfOk result (λ all. term_list (map (λ t. plain_term t.now) all.items)
        ≡ without_modes (arguments_of (plain_term head.now))) }
{
    let terms = arguments(head);
    let mut all = Vec::with_capacity(alloc, terms.len())?;
    for term in terms {
        all.push(without_mode(term))?;
    }
    Ok(all)
}

// The arguments of a name.
fn arguments(head: &Term) -> &[Term]
    ensures { term_list (map plain_term result.now) ≡ arguments_of (plain_term head.now) }
{
    match &head.node {
        Node::App(_, args) => args.as_slice(),
        Node::Var(_) => &[],
        Node::Int(_) => &[],
        Node::Str(_) => &[],
        Node::List(_, _) => &[],
        Node::Conj(_) => &[],
        Node::Disj(_) => &[],
    }
}

// The type of an argument or a result, which may have a mode, `T::M`.
fn without_mode(term: &Term) -> &Term
    ensures { plain_term result.now ≡ without_mode (plain_term term.now) }
{
    match operands(b"::", term) {
        Some((written, _)) => written,
        None => term,
    }
}
