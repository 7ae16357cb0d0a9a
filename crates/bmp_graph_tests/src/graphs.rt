//! Small graphs, and what the calls on them answer.
use bmp_graph::{Edge, GkmPair, GraphFault, MomentGraph};
use bmp_poly::{Label, LabelFault};
use std::test::Fail;

fn edge(prime: u8, lower: u32, upper: u32, first: u8, second: u8) -> Result<Edge, LabelFault> {
    let label = Label::new(prime, 2, [first, second, 0, 0, 0, 0])?;
    Ok(Edge {
        lower,
        upper,
        label,
    })
}

/// A square: two ways lead from vertex 0 up to vertex 3.
#[test]
fn a_square(rt: HostRuntime) -> Result<(), Fail> {
    let edges = [
        edge(3, 0, 1, 1, 0)?,
        edge(3, 0, 2, 0, 1)?,
        edge(3, 1, 3, 1, 1)?,
        edge(3, 2, 3, 1, 0)?,
    ];
    let made = MomentGraph::new(rt.alloc(), 2, 3, &[0, 1, 1, 2], &edges)?;
    let graph = made.copy(rt.alloc())?;
    assert_eq!(rt; (graph.vertices(), graph.edges()), (4, 4));
    let seen = (
        graph.rank(),
        graph.prime(),
        graph.length(3),
        graph.edge(2).upper,
    );
    assert_eq!(rt; seen, (2, 3, 2, 3));
    assert_eq!(rt; (graph.up(0), graph.up(3)), ((0, 2), (4, 4)));
    let above = (
        graph.is_above(3, 0),
        graph.is_above(2, 1),
        graph.is_above(0, 0),
    );
    assert_eq!(rt; above, (true, false, false));
    assert_eq!(rt; graph.gkm(), Ok(()));
    Ok(())
}

/// Over the integers the minor of (1, 2) and (2, 1) is -3; modulo 3 it is 0.
#[test]
fn minors_are_modulo_the_prime(rt: HostRuntime) -> Result<(), Fail> {
    let edges = [edge(3, 0, 1, 1, 2)?, edge(3, 0, 2, 2, 1)?];
    let graph = MomentGraph::new(rt.alloc(), 2, 3, &[0, 1, 1], &edges)?;
    let pair = GkmPair {
        vertex: 0,
        first: 0,
        second: 1,
    };
    assert_eq!(rt; graph.gkm(), Err(pair));
    Ok(())
}

#[test]
fn faults_come_in_the_order_of_the_rules(rt: HostRuntime) -> Result<(), Fail> {
    let round = [edge(3, 0, 0, 1, 0)?];
    let twice = [edge(3, 0, 1, 1, 0)?, edge(3, 0, 1, 0, 1)?];
    let other = [edge(5, 0, 1, 1, 0)?];
    for (name, lengths, edges, fault) in [
        ("no vertex", [].as_slice(), [].as_slice(), GraphFault::Empty),
        (
            "lengths",
            [1, 0].as_slice(),
            [].as_slice(),
            GraphFault::LengthFalls { vertex: 1 },
        ),
        (
            "an end",
            [0, 1].as_slice(),
            round.as_slice(),
            GraphFault::EdgeEnds { edge: 0 },
        ),
        (
            "an order",
            [0, 1].as_slice(),
            twice.as_slice(),
            GraphFault::EdgeOrder { edge: 1 },
        ),
        (
            "a label",
            [0, 1].as_slice(),
            other.as_slice(),
            GraphFault::LabelOf { edge: 0 },
        ),
    ] {
        assert!(rt; lengths.len() < 10 && edges.len() < 10);
        assert_eq!(rt;
            MomentGraph::new(rt.alloc(), 2, 3, lengths, edges).err(),
            Some(fault),
            "{name}"
        );
    }
    Ok(())
}
