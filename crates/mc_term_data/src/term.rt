ghost use Rattle.std.specs.Prelude.{◌≡◌};

use mc_base::{Row, Text};

/// A term and the line of its first token, counted from 1.
#[cycle(term)]
pub struct Term {
    pub node: Node,
    pub line: u32,
}

/// What a term is.
#[cycle(term)]
#[derive(Drop)]
pub enum Node {
    /// A variable.
    Var(Text),
    /// A number.
    Int(i64),
    /// A string, by the bytes that it stands for.
    Str(Text),
    /// A name over its arguments. The parts of a qualified name stand in order, the last part last.
    App(Row<Text>, Row<Term>),
    /// A list of elements, and what follows the bar where there is one.
    List(Row<Term>, Option<Box<Term>>),
    /// The parts of a conjunction, two or more.
    Conj(Row<Term>),
    /// The parts of a disjunction, two or more.
    Disj(Row<Term>),
}

impl Term {
    /// What the term is, without its line. It takes no memory.
    pub fn into_node(self) -> Node
        ensures { result ≡ self.node }
    {
        let Term { node, line: _ } = self;
        node
    }
}

impl Drop for Term {
    /// The last argument goes by a loop, so that a long chain takes no stack.
    #[cycle(term)]
    fn drop(mut self) {
        'down: loop {
            let Term { node, line: _ } = self;
            match node {
                Node::Var(text) => {
                    drop(text);
                    return;
                }
                Node::Str(text) => {
                    drop(text);
                    return;
                }
                Node::Int(_) => return,
                Node::List(mut terms, tail) => match tail {
                    Some(tail) => {
                        drop(terms);
                        self = Box::into_inner(tail);
                    }
                    None => match terms.pop() {
                        Some(last) => {
                            drop(terms);
                            self = last;
                        }
                        None => {
                            drop(terms);
                            return;
                        }
                    },
                },
                Node::Conj(mut terms) => match terms.pop() {
                    Some(last) => {
                        drop(terms);
                        self = last;
                    }
                    None => {
                        drop(terms);
                        return;
                    }
                },
                Node::Disj(mut terms) => match terms.pop() {
                    Some(last) => {
                        drop(terms);
                        self = last;
                    }
                    None => {
                        drop(terms);
                        return;
                    }
                },
                Node::App(name, mut terms) => {
                    drop(name);
                    match terms.pop() {
                        Some(last) => {
                            drop(terms);
                            self = last;
                        }
                        None => {
                            drop(terms);
                            return;
                        }
                    }
                }
            }
        }
    }
}
