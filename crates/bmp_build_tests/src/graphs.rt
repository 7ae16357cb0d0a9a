//! What is built on moment graphs that are no interval's, in both versions and by one worker and by two.
ghost use Rattle.std.specs.Prelude.{IfOk};
ghost use Rattle.bmp_check.specs.Accepted.{IsCheckableGraph};

use bmp_build::build_graph;
use bmp_check::check_graph;
use bmp_field::PrimeField;
use bmp_graph::{Edge, MomentGraph};
use bmp_poly::Label;
use std::alloc::Global;
use std::test::Fail;

fn edge(prime: u8, lower: u32, upper: u32, coordinates: [u8; 2]) -> Result<Edge, Fail> {
    let [first, second] = coordinates;
    let label = Label::new(prime, 2, [first, second, 0, 0, 0, 0])?;
    Ok(Edge {
        lower,
        upper,
        label,
    })
}

/// A square with an edge from its least to its greatest vertex, and these linear forms of two variables on its edges.
fn square(alloc: Global, prime: u8, labels: [[u8; 2]; 5]) -> Result<MomentGraph, Fail>
    ensures { IfOk result IsCheckableGraph }
{
    PrimeField::new(prime)?;
    let edges = [
        edge(prime, 0, 1, labels[0])?,
        edge(prime, 0, 2, labels[1])?,
        edge(prime, 0, 3, labels[2])?,
        edge(prime, 1, 3, labels[3])?,
        edge(prime, 2, 3, labels[4])?,
    ];
    Ok(MomentGraph::new(alloc, 2, prime, &[0, 1, 1, 2], &edges)?)
}

/// A prime, the forms on the edges of the square, and the numbers of generators at its vertex 0 by degree. The forms
/// are a, a + 2b and 2b - a on the edges from 0 up to 1, 2 and 3, and a - b and b on those from 1 and 2 up to 3.
///
/// Modulo 3 no two at a vertex are parallel; modulo 2 the three at 0 are all a. The vertices 1, 2 and 3 have one
/// generator each, of degree 0, and the sections over them are the sums of multiples of the tuples (1, 1, 1),
/// (a - b, 0, 0) and (0, b, 0). In degree 1 each edge from 0 has one coordinate, and the last two tuples have each a
/// boundary that is not 0, on one edge of its own. So all boundaries of degree 1 have dimension 3, and those of
/// multiples of the first tuple have as many dimensions as there are linear forms modulo those that are 0 on all three
/// edges: two modulo 3, one modulo 2. That leaves 3 - 2 = 1 and 3 - 1 = 2 generators of degree 1, and none of degree 2.
const SQUARES: [(u8, [[u8; 2]; 5], [u32; 3]); 2] = [
    (3, [[1, 0], [1, 2], [2, 2], [1, 2], [0, 1]], [1, 1, 0]),
    (2, [[1, 0], [1, 0], [1, 0], [1, 1], [0, 1]], [1, 2, 0]),
];

#[test]
fn squares_with_a_diagonal(rt: HostRuntime) -> Result<(), Fail> {
    for (prime, labels, least) in SQUARES {
        let graph = square(rt.alloc(), prime, labels)?;
        for (version, workers) in [(1, 1), (1, 2), (2, 1), (2, 2)] {
            let parts = build_graph(&rt, rt.alloc(), &graph, 2, version, workers)?;
            let ranks = check_graph(&rt, rt.alloc(), &graph, 2, version, &parts, workers)?;
            assert_eq!(rt; (ranks.vertices(), ranks.degree()), (4, 2));
            for x in 0..4 {
                let counts = [ranks.count(x, 0), ranks.count(x, 1), ranks.count(x, 2)];
                let wanted = if x == 0 { least } else { [1, 0, 0] };
                assert_eq!(rt;
                    counts,
                    wanted,
                    "vertex {x} modulo {prime}, version {version}, {workers} workers"
                );
            }
        }
    }
    Ok(())
}
