ghost use Rattle.std.specs.Prelude.{◌≡◌, ◌↔◌, [], ◌∷◌, IsTrue, map};
ghost use Rattle.mc_program.specs.Programs.{TypeTerm, union_type, type_then, no_types};
ghost use Rattle.mc_program.specs.PlainPrograms.{plain_type};
ghost use Rattle.mc_self_check.specs.code.Types.{simple_type, type_of, plain_types};

use mc_program::ty::Ty;

/// A type without arguments in a declaration of the library.
#[derive(Clone, Copy)]
pub(crate) enum SimpleType {
    Int,
    Char,
    Str,
    State,
    /// The one type variable of a declaration.
    Item,
}

/// A type in a declaration of the library.
#[derive(Clone, Copy)]
pub(crate) enum LibraryType {
    Simple(SimpleType),
    ListOf(SimpleType),
    ResultOf(SimpleType),
}

pub(crate) const INT: LibraryType = LibraryType::Simple(SimpleType::Int);

pub(crate) const CHAR: LibraryType = LibraryType::Simple(SimpleType::Char);

pub(crate) const STR: LibraryType = LibraryType::Simple(SimpleType::Str);

pub(crate) const STATE: LibraryType = LibraryType::Simple(SimpleType::State);

pub(crate) const ITEM: LibraryType = LibraryType::Simple(SimpleType::Item);

pub(crate) const ITEMS: LibraryType = LibraryType::ListOf(SimpleType::Item);

pub(crate) const CHARS: LibraryType = LibraryType::ListOf(SimpleType::Char);
/// What reading a line gives.
pub(crate) const LINE: LibraryType = LibraryType::ResultOf(SimpleType::Str);

/// The numbers of the library's types of lists, and of what reading gives.
#[derive(Clone, Copy)]
pub(crate) struct LibraryTypes {
    pub list: u32,
    pub result: u32,
}

/// Whether a type is that one.
fn is_simple(t: &Ty, expected: SimpleType) -> bool
    ensures { IsTrue result ↔ (plain_type t.now ≡ simple_type expected) }
{
    match expected {
        SimpleType::Int => matches!(t, Ty::Int),
        SimpleType::Char => matches!(t, Ty::Char),
        SimpleType::Str => matches!(t, Ty::Str),
        SimpleType::State => matches!(t, Ty::Io),
        SimpleType::Item => matches!(t, Ty::Var(0)),
    }
}

/// Whether a type is the union type of that number over that one argument.
fn is_union(t: &Ty, number: u32, arg: SimpleType) -> bool
    ensures { IsTrue result
        ↔ (plain_type t.now ≡ union_type number (type_then (simple_type arg) no_types)) }
{
    match t {
        Ty::Union(of, args) => *of == number && is_one(args.as_slice(), arg),
        _ => false,
    }
}

/// Whether these are that one type.
fn is_one(args: &[Ty], arg: SimpleType) -> bool
    ensures { IsTrue result ↔ (map plain_type args.now ≡ simple_type arg ∷ []) }
{
    match args {
        [only] => is_simple(only, arg),
        _ => false,
    }
}

/// Whether a type is that one of the library.
fn is_type(t: &Ty, expected: LibraryType, types: LibraryTypes) -> bool
    ensures { IsTrue result ↔ (plain_type t.now ≡ type_of (plain_types types) expected) }
{
    match expected {
        LibraryType::Simple(simple) => is_simple(t, simple),
        LibraryType::ListOf(item) => is_union(t, types.list, item),
        LibraryType::ResultOf(item) => is_union(t, types.result, item),
    }
}

/// Whether types are those of the library, one by one.
pub(crate) fn are_types(found: &[Ty], expected: &[LibraryType], types: LibraryTypes) -> bool
    ensures { IsTrue result
        ↔ (map plain_type found.now ≡ map (type_of (plain_types types)) expected.now) }
{
    if found.len() != expected.len() {
        return false;
    }
    for place in 0..found.len() {
        if !is_type(&found[place], expected[place], types) {
            return false;
        }
    }
    true
}
