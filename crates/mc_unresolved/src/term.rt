use mc_base::{Row, Text};
use mc_source::name::Candidate;

/// A term whose names are not resolved: each occurrence of a name has its candidates, in order.
pub enum Unresolved {
    Variable(u32),
    Number(i64),
    Text(Text),
    Name(Row<Candidate>, Row<Unresolved>),
}

/// A term is dropped along its last arguments by a loop, so that a long list takes no stack for each element.
impl Drop for Unresolved {
    fn drop(mut self) {
        loop {
            match self {
                Unresolved::Name(candidates, mut args) => {
                    drop(candidates);
                    match args.pop() {
                        Some(last) => {
                            drop(args);
                            self = last;
                        }
                        None => {
                            drop(args);
                            return;
                        }
                    }
                }
                Unresolved::Variable(_) => return,
                Unresolved::Number(_) => return,
                Unresolved::Text(text) => {
                    drop(text);
                    return;
                }
            }
        }
    }
}
