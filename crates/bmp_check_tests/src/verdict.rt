//! Sizes, and the verdict on a graph that is no interval's.
ghost use Rattle.std.specs.Prelude.{◌≤◌};
ghost use Rattle.bmp_check_tests.specs.Fixtures.{IsLine, IsDiagonalSquare};

use crate::fixtures::{
    BLOCK_0, BLOCK_1, LINE, OTHER_SOURCE, VERTICES, WITH_SECOND, WITHOUT_SECOND, diagonal_square,
    line, line_parts, parts_of, square_parts,
};
use bmp_cert::Ranks;
use bmp_check::{
    BlockSizes, CheckError, Given, Refusal, SizeTable, block_at, block_count, check_count,
    check_graph, check_shape,
};
use bmp_cover::Kind;
use bmp_graph::MomentGraph;
use std::alloc::Global;
use std::test::Fail;
use std::thread::Threads;

/// The kinds of comparisons in their order, with the names that they are printed by.
#[test]
fn numbers_and_names_of_kinds(rt: HostRuntime) {
    for (kind, number, name) in [
        (Kind::Shape, 0, "Shape"),
        (Kind::Top, 1, "Top"),
        (Kind::Section, 2, "Section"),
        (Kind::Row, 3, "Row"),
        (Kind::Cover, 4, "Cover"),
        (Kind::Source, 5, "Source"),
        (Kind::Dual, 6, "Dual"),
        (Kind::Kernel, 7, "Kernel"),
    ] {
        assert_eq!(rt; (kind.number(), kind.name()), (number, name));
    }
}

/// The line has one member of the family of each degree. Its sizes of degree 1 are those of the boundary map.
#[test]
fn sizes_of_the_line_by_levels(rt: HostRuntime) -> Result<(), Fail> {
    let graph = line(rt.alloc())?;
    let cert = line_parts(rt.alloc(), VERTICES, BLOCK_0, BLOCK_1)?;
    let given = Given {
        degree: 1,
        version: 2,
        parts: &cert.vertices,
    };
    assert_eq!(rt; check_count(&graph, &given), Ok(()));
    assert_eq!(rt; (cert.vertices.len(), graph.vertices()), (2, 2));
    let table = SizeTable::new(rt.alloc(), &graph, &given)?;
    for (d, rows) in [(0, 1), (1, 0)] {
        let wanted = BlockSizes {
            columns: 1,
            rows,
            stalk: 1,
            boundary: rows,
            tuples: 1,
        };
        assert_eq!(rt; table.block(&graph, &given, 0, d), wanted, "degree {d}");
    }
    Ok(())
}

#[test]
fn sizes_of_the_line(rt: HostRuntime) -> Result<(), Fail> {
    let graph = line(rt.alloc())?;
    let cert = parts_of(rt.alloc(), LINE, 1, 2)?;
    let given = Given {
        degree: 1,
        version: 1,
        parts: &cert.vertices,
    };
    assert_eq!(rt; check_count(&graph, &given), Ok(()));
    assert_eq!(rt; (block_count(2, 1), block_at(2, 1, 1)), (2, (0, 1)));
    assert_eq!(rt; cert.vertices.len(), 2);
    let table = SizeTable::new(rt.alloc(), &graph, &given)?;
    let own = BlockSizes {
        columns: 1,
        rows: 0,
        stalk: 1,
        boundary: 1,
        tuples: 1,
    };
    let counts = table.block(&graph, &given, 0, 0);
    assert_eq!(rt; (counts, counts.largest()), (own, 1));
    assert_eq!(rt; check_shape(&graph, &given, &table), Ok(()));
    Ok(())
}

/// What the check answers of parts of the square with a diagonal.
fn verdict(
    rt: &(impl Threads + Sync),
    alloc: Global,
    graph: &MomentGraph,
    least: &str,
    workers: u32,
) -> Result<Result<Ranks, CheckError>, Fail>
    requires graph { IsDiagonalSquare graph.now }
    requires workers { (1 ≤ workers) × (workers ≤ 32) }
{
    let cert = square_parts(alloc, least)?;
    Ok(check_graph(rt, alloc, graph, 1, 1, &cert.vertices, workers))
}

fn refusal(kind: Kind, index: u64, left: u64, right: u64) -> CheckError {
    CheckError::Refused(Refusal {
        vertex: 0,
        degree: 1,
        kind,
        index,
        place: 0,
        left,
        right,
    })
}

/// Where the generator of degree 1 is missing no element has the boundary of the first tuple: no cover could do.
#[test]
fn square_with_a_diagonal(rt: HostRuntime) -> Result<(), Fail> {
    let graph = diagonal_square(rt.alloc())?;
    for (name, least, wanted) in [
        ("right", WITH_SECOND, None),
        (
            "without the generator",
            WITHOUT_SECOND,
            Some(refusal(Kind::Cover, 0, 0, 1)),
        ),
        (
            "with another source",
            OTHER_SOURCE,
            Some(refusal(Kind::Source, 1, 1, 0)),
        ),
    ] {
        for workers in [1, 2, 32] {
            let refused = verdict(&rt, rt.alloc(), &graph, least, workers)?.err();
            assert_eq!(rt; refused, wanted, "{name}, {workers} workers");
        }
    }
    Ok(())
}

#[test]
fn ranks_of_the_square_with_a_diagonal(rt: HostRuntime) -> Result<(), Fail> {
    let graph = diagonal_square(rt.alloc())?;
    let ranks = verdict(&rt, rt.alloc(), &graph, WITH_SECOND, 1)??;
    assert_eq!(rt; (ranks.vertices(), ranks.degree()), (4, 1));
    for (x, counts) in [(0, [1, 1]), (1, [1, 0]), (2, [1, 0]), (3, [1, 0])] {
        assert_eq!(rt;
            [ranks.count(x, 0), ranks.count(x, 1)],
            counts,
            "vertex {x}"
        );
    }
    Ok(())
}

/// What the check answers of the line's parts by levels with these lines of its vertices and blocks.
fn verdict_by_levels(
    rt: &(impl Threads + Sync),
    alloc: Global,
    graph: &MomentGraph,
    vertices: &str,
    first: &str,
    second: &str,
) -> Result<Result<Ranks, CheckError>, Fail>
    requires graph { IsLine graph.now }
{
    let cert = line_parts(alloc, vertices, first, second)?;
    Ok(check_graph(rt, alloc, graph, 1, 2, &cert.vertices, 1))
}

/// A refusal of the line's vertex 0, with a comparison at place 0.
fn refused(degree: u32, kind: Kind, index: u64, left: u64, right: u64) -> Option<CheckError> {
    Some(CheckError::Refused(Refusal {
        vertex: 0,
        degree,
        kind,
        index,
        place: 0,
        left,
        right,
    }))
}

/// One line changed in each, of each kind. Sizes are compared in the order of the text, behind the edge and its lift;
/// covers come before kernels.
#[test]
fn line_by_levels(rt: HostRuntime) -> Result<(), Fail> {
    let graph = line(rt.alloc())?;
    for (first, second, wanted) in [
        (BLOCK_0, BLOCK_1, None),
        (
            "block 0 2 1 0\npivots 0\ncover 1 0 1\ncover 0\nsource 1 0 1\ndual 1 0 1\nrow 1 0 1\n",
            BLOCK_1,
            refused(0, Kind::Shape, 2, 2, 1),
        ),
        (
            "block 0 1 1 1\npivots 0\ncover 1 0 1\nsource 1 0 1\ndual 1 0 1\nbasis 0\nrow 1 0 1\n",
            BLOCK_1,
            refused(0, Kind::Shape, 3, 2, 1),
        ),
        (
            "block 0 1 1 0\npivots 1\ncover 1 0 1\nsource 1 0 1\ndual 1 0 1\nrow 1 0 1\n",
            BLOCK_1,
            refused(0, Kind::Shape, 4, 2, 1),
        ),
        (
            "block 0 1 1 0\npivots 0\ncover 1 1 1\nsource 1 0 1\ndual 1 0 1\nrow 1 0 1\n",
            BLOCK_1,
            refused(0, Kind::Shape, 5, 2, 1),
        ),
        (
            "block 0 1 1 0\npivots 0\ncover 1 0 1\nsource 1 1 1\ndual 1 0 1\nrow 1 0 1\n",
            BLOCK_1,
            refused(0, Kind::Shape, 6, 2, 1),
        ),
        (
            "block 0 1 1 0\npivots 0\ncover 1 0 1\nsource 1 0 1\ndual 1 1 1\nrow 1 0 1\n",
            BLOCK_1,
            refused(0, Kind::Shape, 7, 2, 1),
        ),
        (
            "block 0 1 1 0\npivots 0\ncover 1 0 1\nsource 1 0 1\ndual 1 0 1\nrow 1 1 1\n",
            BLOCK_1,
            refused(0, Kind::Shape, 8, 2, 1),
        ),
        (
            BLOCK_0,
            "block 1 1 0 1\npivots\ncover 0\nbasis 1 1 1\n",
            refused(1, Kind::Shape, 4, 2, 1),
        ),
        (
            "block 0 1 1 0\npivots 0\ncover 0\nsource 1 0 1\ndual 1 0 1\nrow 1 0 1\n",
            BLOCK_1,
            refused(0, Kind::Cover, 0, 0, 1),
        ),
        (
            "block 0 1 1 0\npivots 0\ncover 1 0 1\nsource 0\ndual 1 0 1\nrow 1 0 1\n",
            BLOCK_1,
            refused(0, Kind::Source, 0, 1, 0),
        ),
        (
            "block 0 1 1 0\npivots 0\ncover 1 0 1\nsource 1 0 1\ndual 0\nrow 1 0 1\n",
            BLOCK_1,
            refused(0, Kind::Dual, 0, 0, 1),
        ),
        (
            "block 0 1 1 0\npivots 0\ncover 1 0 1\nsource 1 0 1\ndual 1 0 1\nrow 0\n",
            BLOCK_1,
            refused(0, Kind::Kernel, 0, 0, 1),
        ),
        (
            "block 0 1 1 0\npivots 0\ncover 0\nsource 1 0 1\ndual 1 0 1\nrow 0\n",
            BLOCK_1,
            refused(0, Kind::Cover, 0, 0, 1),
        ),
        (
            BLOCK_0,
            "block 1 1 1 0\npivots 0\ncover 0\nrow 0\n",
            refused(1, Kind::Kernel, 0, 0, 1),
        ),
        (
            BLOCK_0,
            "block 1 1 0 1\npivots\ncover 0\nbasis 0\n",
            refused(1, Kind::Kernel, 0, 0, 1),
        ),
    ] {
        let found = verdict_by_levels(&rt, rt.alloc(), &graph, VERTICES, first, second)?.err();
        assert_eq!(rt; found, wanted, "{first}{second}");
    }
    Ok(())
}

/// A second generator of the greatest vertex is found before any block is checked.
#[test]
fn two_generators_above_the_line(rt: HostRuntime) -> Result<(), Fail> {
    let graph = line(rt.alloc())?;
    let vertices = "vertex 1 2 0 0\nvertex 0 1 0\nedges 1\nlift 1 0 1\n";
    let block = "block 0 1 1 0\npivots 0\ncover 0\nsource 1 0 1\ndual 1 0 1\nrow 1 0 1\n";
    let found = verdict_by_levels(&rt, rt.alloc(), &graph, vertices, block, BLOCK_1)?.err();
    let wanted = CheckError::Refused(Refusal {
        vertex: 1,
        degree: 0,
        kind: Kind::Top,
        index: 0,
        place: 0,
        left: 2,
        right: 1,
    });
    assert_eq!(rt; found, Some(wanted));
    Ok(())
}

#[test]
fn ranks_of_the_line_by_levels(rt: HostRuntime) -> Result<(), Fail> {
    let graph = line(rt.alloc())?;
    let ranks = verdict_by_levels(&rt, rt.alloc(), &graph, VERTICES, BLOCK_0, BLOCK_1)??;
    assert_eq!(rt; (ranks.vertices(), ranks.degree()), (2, 1));
    for (x, counts) in [(0, [1, 0]), (1, [1, 0])] {
        assert_eq!(rt;
            [ranks.count(x, 0), ranks.count(x, 1)],
            counts,
            "vertex {x}"
        );
    }
    Ok(())
}
