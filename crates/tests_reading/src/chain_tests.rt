// Terms along which walks go by loops: a text's terms are never so deep.
use mc_base::{Memory, Row, Text};
use mc_term_data::{Node, Term};
use std::alloc::Global;
use std::process::Abort;
use std::test::Fail;

fn on(line: u32, node: Node) -> Term {
    Term { node, line }
}

// A chain along last arguments, or along what follows bars.
fn chain(alloc: Global, long: u32, lists: bool) -> Result<Term, Memory> {
    let mut chain = on(long, Node::Int(0));
    for k in 0..long {
        let mut items = Row::new(alloc);
        items.push(on(k, Node::Int(i64::from(k))))?;
        if lists {
            chain = on(1, Node::List(items, Some(Box::new(alloc, chain)?)));
        } else {
            items.push(chain)?;
            let name = Row::one(alloc, Text::new(alloc, b"f")?)?;
            chain = on(1, Node::App(name, items));
        }
    }
    Ok(chain)
}

// Such a chain takes no stack for each of its terms.
fn goes_far(
    rt: &impl Abort,
    alloc: Global,
    long: u32,
    lists: bool,
    depth: u32,
) -> Result<(), Memory> {
    let whole = chain(alloc, long, lists)?;
    assert_eq!(rt; whole.depth(), depth);
    let copy = whole.copied(alloc)?;
    assert!(rt; whole.same(&copy));
    drop(whole);
    Ok(())
}

#[test]
fn a_long_chain_of_arguments(rt: HostRuntime) -> Result<(), Fail> {
    goes_far(&rt, rt.alloc(), 1_000_000, false, 1_000_001)?;
    Ok(())
}

#[test]
fn a_long_chain_of_lists(rt: HostRuntime) -> Result<(), Fail> {
    goes_far(&rt, rt.alloc(), 300_000, true, 300_001)?;
    Ok(())
}
