ghost use Rattle.std.specs.Prelude.{◌≤◌, ◌≡◌, IfOk};

use crate::infixes::Chain;
use mc_base::{Memory, Row, Text};
use mc_term_data::{Node, Term};
use std::alloc::Global;

/// What was read of a term: the term, how deep it is, and the line of the first number that 64 bits
/// don't hold. A depth of 257 stands for every depth above 256, and a number 0 is then kept in the
/// term's place.
#[derive(Drop)]
pub struct Reading {
    pub term: Term,
    pub depth: u32,
    pub too_large: Option<u32>,
    ghost counted: { depth ≤ 257 },
}

// Terms in a row, with the depth of the deepest and the line of the first number that 64 bits don't
// hold.
#[derive(Drop)]
pub struct Readings {
    pub terms: Vec<Term>,
    pub depth: u32,
    pub too_large: Option<u32>,
    ghost counted: { depth ≤ 257 },
}

impl Reading {
    ghost use Rattle.std.specs.Prelude.{◌≡◌, ◌≤◌, IfOk};
    ghost use Rattle.mc_term_data.specs.Plain.{plain_node, Var, Str};
    ghost use Rattle.mc_term_parser.specs.code.Seen.{kept, leaf, seen_large, line_seen, node_seen, seen_int, seen_neg, no_seen, seen_app, seen_items, seen_tailed, seen_conj, seen_disj, seen_inside, seen_making};
    ghost use Rattle.mc_term_parser.specs.code.Machine.{chain};
    ghost use Rattle.mc_term_parser.specs.code.Views.{reading, readings};

    #[tactic(auto, unfolding(crate::specs::code::Seen::leaf))]
    fn leaf(line: u32, node: Node) -> Reading
        ensures { reading result ≡ leaf line (plain_node node) }
    {
        Reading {
            term: Term { node, line },
            depth: 1,
            too_large: None,
        }
    }

    // A number that 64 bits don't hold.
    #[tactic(auto, unfolding(crate::specs::code::Seen::seen_large))]
    fn large(line: u32) -> Reading
        ensures { reading result ≡ seen_large line }
    {
        Reading {
            term: Term {
                node: Node::Int(0),
                line,
            },
            depth: 1,
            too_large: Some(line),
        }
    }

    // A term of this depth: it is kept where it is at most 256.
    #[tactic(auto, unfolding(crate::specs::code::Seen::kept))]
    fn kept(line: u32, node: Node, depth: u32, too_large: Option<u32>) -> Reading
        ensures { reading result ≡ kept line (plain_node node) depth too_large }
    {
        if depth <= 256 {
            return Reading {
                term: Term { node, line },
                depth,
                too_large,
            };
        }
        Reading {
            term: Term {
                node: Node::Int(0),
                line,
            },
            depth: 257,
            too_large,
        }
    }

    pub fn var(line: u32, name: Text) -> Reading
        ensures { reading result ≡ leaf line (Var name) }
    {
        Reading::leaf(line, Node::Var(name))
    }

    pub fn str(line: u32, bytes: Text) -> Reading
        ensures { reading result ≡ leaf line (Str bytes) }
    {
        Reading::leaf(line, Node::Str(bytes))
    }

    #[tactic(auto, unfolding(crate::specs::code::Seen::seen_int))]
    pub fn int(line: u32, value: u64) -> Reading
        ensures { reading result ≡ seen_int line value }
    {
        if value < 1 << 63 {
            Reading::leaf(line, Node::Int(value as i64))
        } else {
            Reading::large(line)
        }
    }

    // A name alone.
    #[tactic(auto, unfolding(crate::specs::code::Seen::seen_app, crate::specs::code::Seen::no_seen, crate::specs::code::Seen::kept, crate::specs::code::Seen::leaf))]
    pub fn name(alloc: Global, line: u32, name: Row<Text>) -> Reading
        ensures { reading result ≡ seen_app line name no_seen }
    {
        Reading::leaf(line, Node::App(name, Row::new(alloc)))
    }

    // A number behind a minus sign.
    #[tactic(auto, unfolding(crate::specs::code::Seen::seen_neg))]
    pub fn neg(line: u32, value: u64) -> Reading
        ensures { reading result ≡ seen_neg line value }
    {
        if value == 0 {
            Reading::leaf(line, Node::Int(0))
        } else if value <= 1 << 63 {
            Reading::leaf(line, Node::Int(-1 - (value - 1) as i64))
        } else {
            Reading::large(line)
        }
    }

    #[tactic(auto, unfolding(crate::specs::code::Seen::seen_app))]
    pub fn app(line: u32, name: Row<Text>, args: Readings) -> Result<Reading, Memory>
        ensures { IfOk result (λ r. reading r ≡ seen_app line name (readings args)) }
    {
        let node = Node::App(name, Row::of(args.terms)?);
        Ok(Reading::kept(line, node, 1 + args.depth, args.too_large))
    }

    #[tactic(auto, unfolding(crate::specs::code::Seen::seen_items))]
    pub fn items(line: u32, items: Readings) -> Result<Reading, Memory>
        ensures { IfOk result (λ r. reading r ≡ seen_items line (readings items)) }
    {
        let node = Node::List(Row::of(items.terms)?, None);
        Ok(Reading::kept(line, node, 1 + items.depth, items.too_large))
    }

    // A list with what follows its bar.
    #[tactic(auto, unfolding(crate::specs::code::Seen::seen_tailed))]
    pub fn tailed(
        alloc: Global,
        line: u32,
        items: Readings,
        tail: Reading,
    ) -> Result<Reading, Memory>
        ensures { IfOk result (λ r. reading r ≡ seen_tailed line (readings items) (reading tail)) }
    {
        let tail_term = Box::new(alloc, tail.term)?;
        let node = Node::List(Row::of(items.terms)?, Some(tail_term));
        let depth = 1 + items.depth.max(tail.depth);
        Ok(Reading::kept(line, node, depth, items.too_large.or(tail.too_large)))
    }

    #[tactic(auto, unfolding(crate::specs::code::Seen::seen_conj, crate::specs::code::Seen::seen_disj))]
    pub fn chain(kind: Chain, line: u32, parts: Readings) -> Result<Reading, Memory>
        ensures { IfOk result (λ r. reading r ≡ chain seen_making kind line (readings parts)) }
    {
        let terms = Row::of(parts.terms)?;
        let node = match kind {
            Chain::And => Node::Conj(terms),
            Chain::Or => Node::Disj(terms),
        };
        Ok(Reading::kept(line, node, 1 + parts.depth, parts.too_large))
    }

    // The line of the term.
    pub fn line(&self) -> u32
        ensures { result ≡ line_seen (reading self.now).value }
    {
        self.term.line
    }

    // A term in brackets, of which the first stands on a line.
    #[tactic(auto, unfolding(crate::specs::code::Seen::seen_inside))]
    pub fn inside(self, line: u32) -> Reading
        ensures { reading result ≡ seen_inside line (reading self) }
    {
        Reading::kept(line, self.term.into_node(), 1 + self.depth, self.too_large)
    }
}

impl Readings {
    ghost use Rattle.std.specs.Prelude.{◌≡◌, IfOk};
    ghost use Rattle.mc_term_parser.specs.code.Seen.{no_seen, seen_then};
    ghost use Rattle.mc_term_parser.specs.code.Views.{reading, readings};

    #[tactic(auto, unfolding(crate::specs::code::Seen::no_seen))]
    pub fn none(alloc: Global) -> Readings
        ensures { readings result ≡ no_seen }
    {
        Readings {
            terms: Vec::new(alloc),
            depth: 0,
            too_large: None,
        }
    }

    // No terms yet, and room for some.
    #[tactic(auto, unfolding(crate::specs::code::Seen::no_seen))]
    pub fn with_room(alloc: Global, room: usize) -> Result<Readings, Memory>
        ensures { IfOk result (λ r. readings r ≡ no_seen) }
    {
        Ok(Readings {
            terms: Vec::with_capacity(alloc, room)?,
            depth: 0,
            too_large: None,
        })
    }

    // One term, in just the room that it takes.
    pub fn one(alloc: Global, only: Reading) -> Result<Readings, Memory>
        ensures { IfOk result (λ r. readings r ≡ seen_then no_seen (reading only)) }
    {
        Readings::with_room(alloc, 1)?.then(only)
    }

    // Two terms, in just the room that they take.
    pub fn two(alloc: Global, left: Reading, right: Reading) -> Result<Readings, Memory>
        ensures { IfOk result
            (λ r. readings r ≡ seen_then (seen_then no_seen (reading left)) (reading right)) }
    {
        Readings::with_room(alloc, 2)?.then(left)?.then(right)
    }

    // With one more behind them.
    #[tactic(auto, using(crate::proofs::Rules::pushes), unfolding(crate::specs::code::Seen::seen_then))]
    pub fn then(self, next: Reading) -> Result<Readings, Memory>
        ensures { IfOk result (λ r. readings r ≡ seen_then (readings self) (reading next)) }
    {
        let mut terms = self.terms;
        terms.push(next.term)?;
        Ok(Readings {
            terms,
            depth: self.depth.max(next.depth),
            too_large: self.too_large.or(next.too_large),
        })
    }
}
