use mc_base::{Row, Text};
use mc_source::det::Det;
use mc_term_data::Term;

/// An item of a file.
///
/// A definition's first term is its head; then come the term behind `==`, or the terms between the `;` behind
/// `--->`. The term of `Pred`, `Func` and `Mode` is what stands behind the word, without `is D`. A clause is kept
/// whole. A name is kept by its parts, the last part last. What stands behind the head of a definition has a block of
/// its own: most items of a large file are facts, and no item takes more room than the largest variant.
#[derive(Drop)]
pub enum Decl {
    /// `:- module m.`
    ModuleStart(Row<Text>),
    /// `:- end_module m.`
    ModuleEnd(Row<Text>),
    /// `:- interface.`
    Interface,
    /// `:- implementation.`
    Implementation,
    /// `:- import_module m, n.`
    Imports(Row<Row<Text>>),
    /// `:- use_module m, n.`
    UseOnly(Row<Row<Text>>),
    /// `:- type t(A).`
    AbstractType(Term),
    /// `:- type t(A) ---> c ; d(A).`
    UnionType(Term, Box<Row<Term>>),
    /// `:- type t(A) == u(A).`
    SameType(Term, Box<Term>),
    /// `:- inst i(I) == j(I).`
    SameInst(Term, Box<Term>),
    /// `:- inst i(I) ---> c ; d(I).`
    BoundInst(Term, Box<Row<Term>>),
    /// `:- mode m(I) == I >> J.`
    ModeDef(Term, Box<Term>),
    /// `:- pred p(t::m) is d.`
    Pred(Term, Option<Det>),
    /// `:- func f(t::m) = (t::m) is d.`
    Func(Term, Option<Det>),
    /// `:- mode p(m) is d.`
    Mode(Term, Option<Det>),
    /// `:- pragma inline(..).`
    Pragma,
    /// A clause.
    Clause(Term),
}
