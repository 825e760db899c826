use mc_base::{Memory, Row};
use mc_components::{components, reaches_itself};
use std::alloc::Global;
use std::test::Fail;

// A graph whose nodes have these numbers of steps, from node k to the nodes that `next` says.
fn graph_of<F: Fn(u32, u32) -> u32>(
    alloc: Global,
    nodes: u32,
    steps: u32,
    next: F,
) -> Result<Row<Row<u32>>, Memory>
    requires { F.IsAlwaysCallable next }
{
    let mut rows = Vec::new(alloc);
    for node in 0..nodes {
        let mut row = Vec::new(alloc);
        for place in 0..steps {
            row.push(next(node, place))?;
        }
        rows.push(Row::of(row)?)?;
    }
    Row::of(rows)
}

// How many nodes of a graph reach themselves.
fn round_ones(alloc: Global, graph: &Row<Row<u32>>) -> Result<u32, Memory> {
    let numbers = components(alloc, graph)?;
    let mut count: u32 = 0;
    for node in 0..graph.len() {
        if reaches_itself(graph, &numbers, node) {
            count = count.saturating_add(1);
        }
    }
    Ok(count)
}

#[test]
fn long_ones(rt: HostRuntime) -> Result<(), Fail> {
    let ring = graph_of(
        rt.alloc(),
        100_000,
        1,
        |node, _| (node % 100_000 + 1) % 100_000,
    )?;
    assert_eq!(rt; round_ones(rt.alloc(), &ring)?, 100_000);
    let line = graph_of(rt.alloc(), 100_000, 1, |node, _| node % 100_000 + 1)?;
    assert_eq!(rt; round_ones(rt.alloc(), &line)?, 0);
    let star = graph_of(rt.alloc(), 3, 100_000, |node, place| node % 3 + place % 4)?;
    assert_eq!(rt; round_ones(rt.alloc(), &star)?, 3);
    Ok(())
}

// The search ends with what passes its check, in graphs of many forms.
#[test]
fn many_forms(rt: HostRuntime) -> Result<(), Fail> {
    for seed in 0..400 {
        let graph = graph_of(
            rt.alloc(),
            14,
            seed % 4,
            |node, place| scattered(node, place, seed),
        )?;
        assert!(rt; round_ones(rt.alloc(), &graph)? <= 14);
    }
    Ok(())
}

fn scattered(node: u32, place: u32, seed: u32) -> u32 {
    let mixed = node
        .wrapping_mul(2_654_435_761)
        .wrapping_add(place.wrapping_mul(40_503))
        .wrapping_add(seed.wrapping_mul(97));
    (mixed ^ mixed / 65_536) % 15
}
