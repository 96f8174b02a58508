//! Which entries walks along edges lead to (DWARF 5, 2.2).

use crate::tests::named::are;
use dw_base::UnitSectionOffset;
use dw_filter::FilterDependencies;
use dw_sources::ConvertResult;
use std::alloc::Global;

/// Entries with those to which they lead, edges that are added to these, required places, and the
/// entries that are kept.
type Graph = (
    &'static [(usize, &'static [usize])],
    &'static [(usize, usize)],
    &'static [usize],
    &'static [usize],
);

const GRAPHS: &[Graph] = &[
    // An edge leads to an entry that isn't known, and an entry is required twice.
    (
        &[(1, &[2]), (2, &[9]), (3, &[]), (4, &[])],
        &[],
        &[3, 1, 1],
        &[1, 2, 3],
    ),
    (
        &[(1, &[]), (2, &[]), (3, &[]), (4, &[])],
        &[(1, 2), (2, 9)],
        &[3, 1, 1],
        &[1, 2, 3],
    ),
    // Entries that name themselves and each other, from the last to the first and back.
    (
        &[(5, &[5, 4]), (4, &[3]), (3, &[5, 5]), (2, &[2])],
        &[(3, 4)],
        &[4],
        &[3, 4, 5],
    ),
    // All lead to one that leads to none.
    (
        &[(7, &[1]), (8, &[1]), (9, &[1]), (1, &[])],
        &[(8, 1)],
        &[8, 9],
        &[1, 8, 9],
    ),
    // The required entry isn't known, though an edge leads from it.
    (&[(1, &[])], &[(2, 1)], &[2], &[]),
    (&[], &[], &[], &[]),
];

/// They, of which no other proof sees more.
fn graphs() -> &'static [Graph] {
    GRAPHS
}

/// The places of entries.
fn places(alloc: Global, numbers: &[usize]) -> ConvertResult<Vec<UnitSectionOffset>> {
    let mut places = Vec::new(alloc);
    for number in numbers {
        places.push(UnitSectionOffset(*number))?;
    }
    Ok(places)
}

/// Makes an entry known, if it isn't.
fn add_entry(
    alloc: Global,
    graph: &mut FilterDependencies,
    entry: usize,
    leads: &[usize],
) -> ConvertResult<()> {
    let leads = places(alloc, leads)?;
    if graph.is_known(UnitSectionOffset(entry)) {
        return Ok(());
    }
    graph.add_entry(UnitSectionOffset(entry), leads)
}

/// Makes the entries known.
fn add_entries(
    alloc: Global,
    graph: &mut FilterDependencies,
    entries: &[(usize, &[usize])],
) -> ConvertResult<()> {
    for (entry, leads) in entries {
        add_entry(alloc, graph, *entry, leads)?;
    }
    Ok(())
}

/// Adds the edges of known entries.
fn add_edges(graph: &mut FilterDependencies, edges: &[(usize, usize)]) -> ConvertResult<()> {
    for (from, to) in edges {
        if graph.is_known(UnitSectionOffset(*from)) {
            graph.add_edge(UnitSectionOffset(*from), UnitSectionOffset(*to))?;
        }
    }
    Ok(())
}

/// Requires entries.
fn require(graph: &mut FilterDependencies, entries: &[usize]) -> ConvertResult<()> {
    for entry in entries {
        graph.require_entry(UnitSectionOffset(*entry))?;
    }
    Ok(())
}

/// The entries of a graph that are kept.
fn reached(alloc: Global, row: &Graph) -> ConvertResult<Vec<UnitSectionOffset>> {
    let (entries, edges, required, _) = *row;
    let mut graph = FilterDependencies::new(alloc);
    add_entries(alloc, &mut graph, entries)?;
    add_edges(&mut graph, edges)?;
    require(&mut graph, required)?;
    graph.get_reachable()
}

#[test]
fn reaches_what_is_led_to(rt: HostRuntime) {
    for (index, row) in graphs().iter().enumerate() {
        match reached(rt.alloc(), row) {
            Ok(kept) => assert!(rt; are(&kept, row.3), "graph {index}"),
            Err(error) => panic!(rt; "graph {index}: {error}"),
        }
    }
}
