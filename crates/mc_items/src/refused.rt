ghost use Rattle.std.specs.Prelude.{◌≡◌, map};
ghost use Rattle.mc_term_data.specs.Plain.{plain_term, term_list};
ghost use Rattle.mc_term_data.specs.Names.{found};
ghost use Rattle.mc_items.specs.Reasons.{reason, by_role, refused, infix_rows, prefix_rows, item_rows, conditional, inst_rows, mode_specific_rows, higher_order};

use crate::declaration::{declaration, is_order};
use crate::reason::LeftOut;
use crate::role::Role;
use mc_base::Text;
use mc_clause_syntax::GoalForm;
use mc_term_data::{Term, arity};

/// What a name over parts is left out for. A qualified name is no operator and no form.
pub fn reason(role: Role, name: &[Text], parts: &[Term]) -> Option<LeftOut>
    ensures { result ≡ reason role name.now (term_list (map plain_term parts.now)) }
{
    match name {
        [word] => match refused(word.bytes(), arity(parts)) {
            Some(form) => Some(form),
            None => by_role(role, GoalForm::of(name, arity(parts)), word.bytes(), parts),
        },
        _ => None,
    }
}

// The operators that are read and then refused, wherever they stand.
fn refused(name: &[u8], arity: usize) -> Option<LeftOut>
    ensures { result ≡ refused name.now arity }
{
    infix(name, arity).or(prefix(name, arity).or(item(name, arity)))
}

// Those over two parts.
#[tactic(auto, unfolding(crate::specs::Reasons::infix_rows))]
fn infix(name: &[u8], arity: usize) -> Option<LeftOut>
    ensures { result ≡ found infix_rows name.now arity }
{
    if arity != 2 {
        return None;
    }
    if b"^".as_slice() == name || b":=".as_slice() == name {
        return Some(LeftOut::FieldAccess);
    }
    if b"for".as_slice() == name {
        return Some(LeftOut::InstFor);
    }
    if b"&".as_slice() == name {
        return Some(LeftOut::ParallelConjunction);
    }
    if b"where".as_slice() == name {
        return Some(LeftOut::UserEquality);
    }
    if b"-->".as_slice() == name {
        return Some(LeftOut::GrammarRule);
    }
    None
}

// Those before a declaration.
#[tactic(auto, unfolding(crate::specs::Reasons::prefix_rows))]
fn prefix(name: &[u8], arity: usize) -> Option<LeftOut>
    ensures { result ≡ found prefix_rows name.now arity }
{
    if arity != 1 {
        return None;
    }
    if b"impure".as_slice() == name || b"semipure".as_slice() == name {
        return Some(LeftOut::Purity);
    }
    if b"solver".as_slice() == name {
        return Some(LeftOut::SolverType);
    }
    None
}

// Those that begin an item.
#[tactic(auto, unfolding(crate::specs::Reasons::item_rows))]
fn item(name: &[u8], arity: usize) -> Option<LeftOut>
    ensures { result ≡ found item_rows name.now arity }
{
    if arity != 1 {
        return None;
    }
    if b"include_module".as_slice() == name {
        return Some(LeftOut::NestedModule);
    }
    if b"typeclass".as_slice() == name || b"instance".as_slice() == name {
        return Some(LeftOut::TypeClass);
    }
    if b"promise".as_slice() == name {
        return Some(LeftOut::Promise);
    }
    if b"initialise".as_slice() == name {
        return Some(LeftOut::Initialise);
    }
    None
}

// What is left out by what the name over these parts is there, and by its form as a goal.
fn by_role(role: Role, form: GoalForm, name: &[u8], parts: &[Term]) -> Option<LeftOut>
    ensures { result ≡ by_role role form name.now (term_list (map plain_term parts.now)) }
{
    match role {
        Role::Item | Role::Head => conditional(form).or(mode_specific(name, arity(parts))),
        Role::Argument => conditional(form),
        Role::Goal if name.starts_with(b"promise_") => Some(LeftOut::Promise),
        Role::Declaration => declaration(name, parts),
        Role::Field | Role::TypeTerm | Role::Parameter => higher_order(name, parts),
        Role::Inst => higher_order(name, parts).or(inst(name, arity(parts))),
        _ => None,
    }
}

// The parts of a conditional expression, by what they would be as a goal.
fn conditional(form: GoalForm) -> Option<LeftOut>
    ensures { result ≡ conditional form }
{
    match form {
        GoalForm::If | GoalForm::Then | GoalForm::Else | GoalForm::Arrow => {
            Some(LeftOut::ConditionalExpression)
        }
        _ => None,
    }
}

// A mode in the head of a clause.
#[tactic(auto, unfolding(crate::specs::Reasons::mode_specific_rows))]
fn mode_specific(name: &[u8], arity: usize) -> Option<LeftOut>
    ensures { result ≡ found mode_specific_rows name.now arity }
{
    if arity != 2 {
        return None;
    }
    if b"::".as_slice() == name {
        return Some(LeftOut::ModeSpecificClause);
    }
    None
}

// The insts that this profile does not have.
#[tactic(auto, unfolding(crate::specs::Reasons::inst_rows))]
fn inst(name: &[u8], arity: usize) -> Option<LeftOut>
    ensures { result ≡ found inst_rows name.now arity }
{
    if arity != 0 {
        return None;
    }
    if b"any".as_slice() == name {
        return Some(LeftOut::AnyInst);
    }
    if b"mostly_unique".as_slice() == name || b"mostly_clobbered".as_slice() == name {
        return Some(LeftOut::MostlyUniqueInst);
    }
    None
}

// A type or inst `pred(..)` or `func(..)`.
fn higher_order(name: &[u8], parts: &[Term]) -> Option<LeftOut>
    ensures { result ≡ higher_order name.now (term_list (map plain_term parts.now)) }
{
    (arity(parts) > 0 && is_order(name)).then_some(LeftOut::HigherOrder)
}
