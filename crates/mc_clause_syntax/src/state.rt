ghost use Rattle.std.specs.Prelude.{◌≡◌, map};
ghost use Rattle.std.specs.Option.{option_map};
ghost use Rattle.mc_term_data.specs.Plain.{plain_term, term_list};
ghost use Rattle.mc_term_data.specs.Names.{found};
ghost use Rattle.mc_clause_syntax.specs.StateVariables.{one_variable, state, state_rows, both_versions, is_state};

use mc_base::Text;
use mc_term_data::{Term, variable};

/// What stands for a state variable.
#[derive(Clone, Copy, Debug, PartialEq, Eq)]
pub enum StateForm {
    /// `!X`: both versions
    Both,
    /// `!.X`: the version before
    Before,
    /// `!:X`: the version after
    After,
}

/// What a name over parts is as a state variable: which of its versions, and its name.
pub fn state_variable<'a>(name: &[Text], parts: &'a [Term]) -> Option<(StateForm, &'a [u8])>
    ensures { option_map (λ s. (s.0, s.1.now)) result ≡ state name.now (term_list (map plain_term parts.now)) }
{
    match name {
        [word] => {
            let form = state_form(word.bytes())?;
            let variable = one_variable(parts)?;
            Some((form, variable))
        }
        _ => None,
    }
}

// The name of the variable that these are, where they are one.
#[tactic(auto, using(crate::proofs::Shapes::no_one_variable))]
fn one_variable(parts: &[Term]) -> Option<&[u8]>
    ensures { option_map (λ x. x.now) result ≡ one_variable (term_list (map plain_term parts.now)) }
{
    match parts {
        [part] => variable(part),
        [] => None,
        [_, _, ..] => None,
    }
}

// What stands for a state variable, by its name over one part.
#[tactic(auto, unfolding(crate::specs::StateVariables::state_rows))]
fn state_form(name: &[u8]) -> Option<StateForm>
    ensures { result ≡ found state_rows name.now 1 }
{
    if b"!".as_slice() == name {
        return Some(StateForm::Both);
    }
    if b"!.".as_slice() == name {
        return Some(StateForm::Before);
    }
    if b"!:".as_slice() == name {
        return Some(StateForm::After);
    }
    None
}

/// Whether a name over parts is a state variable.
pub fn is_state(name: &[Text], parts: &[Term]) -> bool
    ensures { result ≡ is_state name.now (term_list (map plain_term parts.now)) }
{
    state_variable(name, parts).is_some()
}

/// Whether a name over parts is both versions of a state variable.
pub fn is_both_versions(name: &[Text], parts: &[Term]) -> bool
    ensures { result ≡ both_versions (state name.now (term_list (map plain_term parts.now))) }
{
    match state_variable(name, parts) {
        Some((StateForm::Both, _)) => true,
        _ => false,
    }
}
