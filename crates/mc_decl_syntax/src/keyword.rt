ghost use Rattle.std.specs.Prelude.{◌≡◌};
ghost use Rattle.mc_term_data.specs.Plain.{plain_term};
ghost use Rattle.mc_term_data.specs.Names.{found};
ghost use Rattle.mc_decl_syntax.specs.Declarations.{keyword, keyword_over, section_words, module_words, declaring_words};

use mc_term_data::{Node, Term, arity, word};

/// The words that declarations begin with.
#[derive(Clone, Copy, Debug, PartialEq, Eq)]
pub enum Keyword {
    Module,
    EndModule,
    Interface,
    Implementation,
    ImportModule,
    UseModule,
    TypeWord,
    Inst,
    Mode,
    Pred,
    Func,
    Pragma,
}

impl Keyword {
    /// The word that a term is over its parts.
    pub fn of(term: &Term) -> Option<Keyword>
        ensures { result ≡ keyword (plain_term term.now) }
    {
        match &term.node {
            Node::App(name, parts) => match word(name) {
                Some(word) => over(word, arity(parts.as_slice())),
                None => None,
            },
            _ => None,
        }
    }
}

/// The word that a name over a number of parts is.
fn over(name: &[u8], count: usize) -> Option<Keyword>
    ensures { result ≡ keyword_over name.now count }
{
    section(name, count).or(of_module(name, count).or(declaring(name, count)))
}

#[tactic(auto, unfolding(crate::specs::Declarations::section_words))]
fn section(name: &[u8], count: usize) -> Option<Keyword>
    ensures { result ≡ found section_words name.now count }
{
    if count != 0 {
        return None;
    }
    if b"interface".as_slice() == name {
        return Some(Keyword::Interface);
    }
    if b"implementation".as_slice() == name {
        return Some(Keyword::Implementation);
    }
    None
}

#[tactic(auto, unfolding(crate::specs::Declarations::module_words))]
fn of_module(name: &[u8], count: usize) -> Option<Keyword>
    ensures { result ≡ found module_words name.now count }
{
    if count != 1 {
        return None;
    }
    if b"module".as_slice() == name {
        return Some(Keyword::Module);
    }
    if b"end_module".as_slice() == name {
        return Some(Keyword::EndModule);
    }
    if b"import_module".as_slice() == name {
        return Some(Keyword::ImportModule);
    }
    if b"use_module".as_slice() == name {
        return Some(Keyword::UseModule);
    }
    None
}

#[tactic(auto, unfolding(crate::specs::Declarations::declaring_words))]
fn declaring(name: &[u8], count: usize) -> Option<Keyword>
    ensures { result ≡ found declaring_words name.now count }
{
    if count != 1 {
        return None;
    }
    if b"type".as_slice() == name {
        return Some(Keyword::TypeWord);
    }
    if b"inst".as_slice() == name {
        return Some(Keyword::Inst);
    }
    if b"mode".as_slice() == name {
        return Some(Keyword::Mode);
    }
    if b"pred".as_slice() == name {
        return Some(Keyword::Pred);
    }
    if b"func".as_slice() == name {
        return Some(Keyword::Func);
    }
    if b"pragma".as_slice() == name {
        return Some(Keyword::Pragma);
    }
    None
}
