//! Graphs of small intervals, worked out by another program, and the size of a large one.
ghost use Rattle.std.specs.Prelude.{◌<◌, ◌^◌, length};
ghost use Rattle.bmp_graph.specs.Graph.{edge_count};
ghost use Rattle.bmp_interval.specs.IntervalViews.{system_of, vertices_of};
ghost use Rattle.bmp_bruhat.specs.Labels.{root_form};
ghost use Rattle.bmp_bruhat.specs.Edges.{IsBruhatGraph};

use crate::matrices::{A1, A2, A3, B2, C2, D5, interval_of};
use bmp_bruhat::{BruhatError, graph_in, graph_of, root_of};
use bmp_graph::{GkmPair, MomentGraph};
use bmp_interval::Interval;
use std::process::Abort;
use std::test::Fail;

/// The first two coordinates of the root of an edge.
fn root(interval: &Interval, graph: &MomentGraph, e: u32, prime: u8) -> (i16, i16)
    requires edge { e < edge_count graph.now }
    requires graph { IsBruhatGraph (system_of interval.now) (vertices_of interval.now) prime root_form graph.now }
{
    let (root, _) = interval.roots().pair(root_of(interval, graph.edge(e)));
    (root[0], root[1])
}

#[test]
fn edges_of_b2(rt: HostRuntime) -> Result<(), Fail> {
    let interval = interval_of(rt.alloc(), B2, 2, &[1, 2, 1, 2])?;
    let graph = graph_of(rt.alloc(), &interval, 2)?;
    assert_eq!(rt; (graph.vertices(), graph.edges()), (8, 16));
    assert_eq!(rt; graph.up(0), (0, 4));
    for (e, upper, coordinates) in [
        (0, 1, (1, 0)),
        (1, 2, (0, 1)),
        (2, 5, (1, 1)),
        (3, 6, (1, 2)),
    ] {
        assert!(rt; e < graph.edges());
        assert_eq!(rt;
            (graph.edge(e).upper, root(&interval, &graph, e, 2)),
            (upper, coordinates),
            "edge {e}"
        );
    }
    Ok(())
}

/// Modulo 2 the roots (1, 0) and (1, 2) of B2 are equal. By the fundamental weights the two simple roots of A2 are
/// equal modulo 3.
#[test]
fn first_parallel_edges(rt: HostRuntime) -> Result<(), Fail> {
    let at_0 = |first, second| {
        Err(GkmPair {
            vertex: 0,
            first,
            second,
        })
    };
    for (name, rows, word, prime, weight, answer) in [
        (
            "B2 modulo 2",
            B2,
            [1, 2, 1, 2].as_slice(),
            2,
            false,
            at_0(0, 3),
        ),
        ("B2 modulo 3", B2, [1, 2, 1, 2].as_slice(), 3, false, Ok(())),
        (
            "weights of B2 modulo 3",
            B2,
            [1, 2, 1, 2].as_slice(),
            3,
            true,
            Ok(()),
        ),
        (
            "weights of A2 modulo 3",
            A2,
            [1, 2].as_slice(),
            3,
            true,
            at_0(0, 1),
        ),
        (
            "weights of A2 modulo 5",
            A2,
            [1, 2].as_slice(),
            5,
            true,
            Ok(()),
        ),
    ] {
        assert!(rt; word.len() < 10);
        let interval = interval_of(rt.alloc(), rows, 2, word)?;
        assert_eq!(rt;
            graph_in(rt.alloc(), &interval, prime, weight)?.gkm(),
            answer,
            "{name}"
        );
    }
    Ok(())
}

/// Where the root (0, 1) of C2 has the weights (-2, 2), the first edge has (2, -1).
#[test]
fn first_zero_labels(rt: HostRuntime) -> Result<(), Fail> {
    for (name, rows, rank, word, prime, weight, error) in [
        ("A1 modulo 2", A1, 1, [1].as_slice(), 2, true, Some((0, 1))),
        ("A1 modulo 3", A1, 1, [1].as_slice(), 3, true, None),
        (
            "roots of A1 modulo 2",
            A1,
            1,
            [1].as_slice(),
            2,
            false,
            None,
        ),
        (
            "B2 modulo 2",
            B2,
            2,
            [2, 1].as_slice(),
            2,
            true,
            Some((0, 1)),
        ),
        (
            "C2 modulo 2",
            C2,
            2,
            [1, 2].as_slice(),
            2,
            true,
            Some((0, 2)),
        ),
        ("A3 modulo 2", A3, 3, [2, 1, 3, 2].as_slice(), 2, true, None),
    ] {
        assert!(rt; word.len() < 10);
        let interval = interval_of(rt.alloc(), rows, rank, word)?;
        let zero = error.map(|(lower, upper)| BruhatError::ZeroLabel { lower, upper });
        assert_eq!(rt;
            graph_in(rt.alloc(), &interval, prime, weight).err(),
            zero,
            "{name}"
        );
    }
    Ok(())
}

/// The weights of B2 below 2 1, modulo 5: those of (1, 0), (0, 1), (0, 1) and (1, 2).
#[test]
fn weights_of_b2(rt: HostRuntime) -> Result<(), Fail> {
    let interval = interval_of(rt.alloc(), B2, 2, &[2, 1])?;
    let graph = graph_in(rt.alloc(), &interval, 5, true)?;
    assert_eq!(rt; (graph.edges(), graph.rank()), (4, 2));
    for (e, lower, upper, coordinates) in [
        (0, 0, 1, (2, 3)),
        (1, 0, 2, (4, 2)),
        (2, 1, 3, (4, 2)),
        (3, 2, 3, (0, 2)),
    ] {
        assert!(rt; e < graph.edges());
        let edge = graph.edge(e);
        assert!(rt; edge.label.rank() == 2);
        let label = (edge.label.coordinate(1), edge.label.coordinate(2));
        assert_eq!(rt;
            (edge.lower, edge.upper, label),
            (lower, upper, coordinates),
            "edge {e}"
        );
    }
    Ok(())
}

#[test]
fn all_of_d5(rt: HostRuntime) -> Result<(), Fail> {
    let word = [1, 3, 2, 4, 5, 1, 3, 2, 4, 5, 1, 3, 2, 4, 5, 1, 3, 2, 4, 5];
    let interval = interval_of(rt.alloc(), D5, 5, &word)?;
    let graph = graph_of(rt.alloc(), &interval, 3)?;
    assert_eq!(rt; (graph.vertices(), graph.edges()), (1920, 19200));
    assert!(rt; graph.is_above(1919, 0));
    assert_eq!(rt; graph.gkm(), Ok(()));
    Ok(())
}
