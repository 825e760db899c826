ghost use Rattle.std.specs.Prelude.{◌≡◌};
ghost use Rattle.mc_term_data.specs.Names.{found};
ghost use Rattle.mc_items.specs.Roles.{inner, joined, goal_roles, parts, rows_at, item_rows, declaration_rows, type_rows, inst_rows, mode_rows, signature_rows};

use mc_base::Text;
use mc_clause_syntax::{GoalForm, Parts};

/// What a part of an item is there, as far as it decides what is left out.
#[derive(Clone, Copy, Debug, PartialEq, Eq)]
pub enum Role {
    /// An item: a declaration, a clause with a body, or a fact.
    Item,
    /// A clause's head, and what stands in it.
    Head,
    Goal,
    /// An argument of a goal, and what stands in it.
    Argument,
    /// What a declaration declares.
    Declaration,
    /// What stands behind the word `type`.
    TypeItem,
    /// The constructors of a type's definition.
    Constructors,
    /// An argument of a constructor there.
    Field,
    TypeTerm,
    /// What stands behind the word `inst`.
    InstItem,
    Inst,
    /// The symbols of a bound inst.
    Symbols,
    /// What stands behind the word `mode`.
    ModeItem,
    Mode,
    /// What stands behind the word `pred` or `func`.
    Signature,
    /// An argument or the result there.
    Parameter,
    /// Any other place.
    Elsewhere,
}

impl Role {
    /// What each part of a term is that no table names.
    pub fn inner(self) -> Role
        ensures { result ≡ inner self }
    {
        match self {
            Role::Item | Role::Head => Role::Head,
            Role::Goal | Role::Argument => Role::Argument,
            Role::Constructors => Role::Field,
            Role::Field | Role::TypeTerm | Role::Parameter => Role::TypeTerm,
            Role::Inst | Role::Symbols | Role::Mode => Role::Inst,
            Role::ModeItem => Role::Mode,
            Role::Signature => Role::Parameter,
            _ => Role::Elsewhere,
        }
    }

    /// What each part of a conjunction or a disjunction is.
    pub fn joined(self) -> Role
        ensures { result ≡ joined self }
    {
        match self {
            Role::Goal | Role::Constructors | Role::Symbols => self,
            _ => self.inner(),
        }
    }

    /// What the first part of a name over parts is, and what its other parts are.
    pub fn parts(self, name: &[Text], arity: usize) -> (Role, Role)
        ensures { result ≡ parts self name.now arity }
    {
        let inner = self.inner();
        match (self, name) {
            (Role::Goal, _) => goal_roles(GoalForm::of(name, arity).parts()),
            (_, [word]) => self.row(word.bytes(), arity).unwrap_or((inner, inner)),
            _ => (inner, inner),
        }
    }

    // What the table for this place says.
    fn row(self, name: &[u8], arity: usize) -> Option<(Role, Role)>
        ensures { result ≡ found (rows_at self) name.now arity }
    {
        match self {
            Role::Item => item_parts(name, arity),
            Role::Declaration => declaration_parts(name, arity),
            Role::TypeItem => type_parts(name, arity),
            Role::InstItem => inst_parts(name, arity),
            Role::ModeItem => mode_parts(name, arity),
            Role::Signature => signature_parts(name, arity),
            Role::Field if arity == 2 && b"::".as_slice() == name => {
                Some((Role::Elsewhere, Role::TypeTerm))
            }
            Role::Parameter if arity == 2 && b"::".as_slice() == name => {
                Some((Role::TypeTerm, Role::Mode))
            }
            Role::Inst if arity == 1 && b"bound".as_slice() == name => {
                Some((Role::Symbols, Role::Symbols))
            }
            _ => None,
        }
    }
}

// What the parts of a goal are, by what its form says of them.
fn goal_roles(parts: Parts) -> (Role, Role)
    ensures { result ≡ goal_roles parts }
{
    match parts {
        Parts::Goals(_, _) => (Role::Goal, Role::Goal),
        Parts::Quantified => (Role::Elsewhere, Role::Goal),
        _ => (Role::Argument, Role::Argument),
    }
}

// The parts of a declaration and of a clause with a body.
#[tactic(auto, unfolding(crate::specs::Roles::item_rows))]
fn item_parts(name: &[u8], arity: usize) -> Option<(Role, Role)>
    ensures { result ≡ found item_rows name.now arity }
{
    if b":-".as_slice() != name {
        return None;
    }
    match arity {
        1 => Some((Role::Declaration, Role::Elsewhere)),
        2 => Some((Role::Head, Role::Goal)),
        _ => None,
    }
}

// What a declaration declares.
#[tactic(auto, unfolding(crate::specs::Roles::declaration_rows))]
fn declaration_parts(name: &[u8], arity: usize) -> Option<(Role, Role)>
    ensures { result ≡ found declaration_rows name.now arity }
{
    if arity != 1 {
        return None;
    }
    if b"type".as_slice() == name {
        return Some((Role::TypeItem, Role::Elsewhere));
    }
    if b"inst".as_slice() == name {
        return Some((Role::InstItem, Role::Elsewhere));
    }
    if b"mode".as_slice() == name {
        return Some((Role::ModeItem, Role::Elsewhere));
    }
    if b"pred".as_slice() == name || b"func".as_slice() == name {
        return Some((Role::Signature, Role::Elsewhere));
    }
    None
}

// The parts of a type's definition.
#[tactic(auto, unfolding(crate::specs::Roles::type_rows))]
fn type_parts(name: &[u8], arity: usize) -> Option<(Role, Role)>
    ensures { result ≡ found type_rows name.now arity }
{
    if arity != 2 {
        return None;
    }
    if b"--->".as_slice() == name {
        return Some((Role::Elsewhere, Role::Constructors));
    }
    if b"==".as_slice() == name {
        return Some((Role::Elsewhere, Role::TypeTerm));
    }
    None
}

// The parts of an inst's definition.
#[tactic(auto, unfolding(crate::specs::Roles::inst_rows))]
fn inst_parts(name: &[u8], arity: usize) -> Option<(Role, Role)>
    ensures { result ≡ found inst_rows name.now arity }
{
    if arity != 2 {
        return None;
    }
    if b"--->".as_slice() == name {
        return Some((Role::Elsewhere, Role::Symbols));
    }
    if b"==".as_slice() == name {
        return Some((Role::Elsewhere, Role::Inst));
    }
    None
}

// The parts of a mode's definition, and of a mode of a predicate or function.
#[tactic(auto, unfolding(crate::specs::Roles::mode_rows))]
fn mode_parts(name: &[u8], arity: usize) -> Option<(Role, Role)>
    ensures { result ≡ found mode_rows name.now arity }
{
    if arity != 2 {
        return None;
    }
    if b"==".as_slice() == name {
        return Some((Role::Elsewhere, Role::Mode));
    }
    if b"is".as_slice() == name {
        return Some((Role::ModeItem, Role::Elsewhere));
    }
    if b"=".as_slice() == name {
        return Some((Role::ModeItem, Role::Mode));
    }
    None
}

// The parts of what a declaration of a predicate or function declares.
#[tactic(auto, unfolding(crate::specs::Roles::signature_rows))]
fn signature_parts(name: &[u8], arity: usize) -> Option<(Role, Role)>
    ensures { result ≡ found signature_rows name.now arity }
{
    if arity != 2 {
        return None;
    }
    if b"is".as_slice() == name {
        return Some((Role::Signature, Role::Elsewhere));
    }
    if b"=".as_slice() == name {
        return Some((Role::Signature, Role::Parameter));
    }
    None
}
