//! Graphs, and parts of their vertices as texts.
ghost use Rattle.std.specs.Prelude.{◌≡◌, ◌≤◌, IfOk};
ghost use Rattle.bmp_check_tests.specs.Fixtures.{IsLine, IsDiagonalSquare, ArePartsOf};

use bmp_cert::{Cert, read_cert};
use bmp_graph::{Edge, MomentGraph};
use bmp_poly::Label;
use std::alloc::Global;
use std::test::Fail;

fn edge(prime: u8, rank: u8, lower: u32, upper: u32, coordinates: [u8; 6]) -> Result<Edge, Fail>
    requires rank { (1 ≤ rank) × (rank ≤ 6) }
{
    let label = Label::new(prime, rank, coordinates)?;
    Ok(Edge {
        lower,
        upper,
        label,
    })
}

/// A vertex and one below it, over the field of two elements.
pub fn line(alloc: Global) -> Result<MomentGraph, Fail>
    ensures { IfOk result IsLine }
{
    let edge = edge(2, 1, 0, 1, [1, 0, 0, 0, 0, 0])?;
    Ok(MomentGraph::new(alloc, 1, 2, &[0, 1], &[edge])?)
}

/// A square with an edge from its least to its greatest vertex, over the field of three elements. The edge leads over a
/// difference of lengths of two, as none between elements of a group does.
pub fn diagonal_square(alloc: Global) -> Result<MomentGraph, Fail>
    ensures { IfOk result IsDiagonalSquare }
{
    let edges = [
        edge(3, 2, 0, 1, [1, 0, 0, 0, 0, 0])?,
        edge(3, 2, 0, 2, [0, 1, 0, 0, 0, 0])?,
        edge(3, 2, 0, 3, [1, 1, 0, 0, 0, 0])?,
        edge(3, 2, 1, 3, [0, 1, 0, 0, 0, 0])?,
        edge(3, 2, 2, 3, [1, 0, 0, 0, 0, 0])?,
    ];
    Ok(MomentGraph::new(alloc, 2, 3, &[0, 1, 1, 2], &edges)?)
}

/// The line's certificate up to degree 1.
pub const LINE: &[u8] = b"bmp-cert 1\nrank 1\nrow 2\nprime 2\nword 1 1\ndegree 1\nvertices 2\n\
    vertex 1 1 0\nvertex 0 1 0\nedges 1\nlift 1 0 1\nblock 0 0 1\npivots\ntuple 1 0 1\n\
    cover 1 0 1\nsource 1 0 1\ndual 1 0 1\nblock 1 0 1\npivots\ntuple 1 0 1\ncover 0\nend\n";

/// The first lines of the line's certificate by levels up to degree 1, in front of the vertices.
pub const LEVELS: &str = "bmp-cert 2\nrank 1\nrow 2\nprime 2\nword 1 1\ndegree 1\nvertices 2\n";
/// The lines of its vertices, and of the blocks of degrees 0 and 1.
pub const VERTICES: &str = "vertex 1 1 0\nvertex 0 1 0\nedges 1\nlift 1 0 1\n";

pub const BLOCK_0: &str =
    "block 0 1 1 0\npivots 0\ncover 1 0 1\nsource 1 0 1\ndual 1 0 1\nrow 1 0 1\n";

pub const BLOCK_1: &str = "block 1 1 0 1\npivots\ncover 0\nbasis 1 0 1\n";

/// The parts of the vertices 3, 2 and 1 of the square with a diagonal, up to degree 1, behind a job that nothing reads.
const UPPER_PARTS: &str =
    "bmp-cert 1\nrank 2\nrow 2 -1\nrow -1 2\nprime 3\nword 0\ndegree 1\nvertices 4\n\
    vertex 3 1 0\n\
    vertex 2 1 0\nedges 1\nlift 1 0 1\n\
    block 0 0 1\npivots\ntuple 1 0 1\ncover 1 0 1\nsource 1 0 1\ndual 1 0 1\n\
    block 1 0 2\npivots\ntuple 1 0 1\ntuple 1 1 1\ncover 0\ncover 1 1 1\n\
    vertex 1 1 0\nedges 1\nlift 1 0 1\n\
    block 0 0 1\npivots\ntuple 1 0 1\ncover 1 0 1\nsource 1 0 1\ndual 1 0 1\n\
    block 1 0 2\npivots\ntuple 1 0 1\ntuple 1 1 1\ncover 1 0 1\ncover 0\n";

/// The sheaf at vertex 0: beside the generator of degree 0 there is one of degree 1, since the sections of degree 1 above
/// have three dimensions on the three edges, and multiples of the first generator have two.
pub const WITH_SECOND: &str = "vertex 0 2 0 1\nedges 3\n\
    lift 1 0 1\nlift 1 1 1\nlift 1 0 1\nlift 0\nlift 1 0 1\nlift 0\n\
    block 0 2 1\npivots 0 1\ntuple 3 0 1 1 1 2 1\nrow 1 0 1\nrow 1 1 1\ncover 1 0 1\nsource 1 0 1\ndual 1 0 1\n\
    block 1 2 4\npivots 0 3\ntuple 1 1 1\ntuple 1 2 1\ntuple 2 0 1 4 1\ntuple 2 3 1 5 1\nrow 1 0 1\nrow 1 1 1\n\
    cover 1 2 1\ncover 3 0 1 1 1 2 2\ncover 2 1 2 2 1\ncover 2 1 1 2 2\nsource 1 0 1\ndual 3 0 1 1 2 2 2\n";

/// The same with a source that names another tuple.
pub const OTHER_SOURCE: &str = "vertex 0 2 0 1\nedges 3\n\
    lift 1 0 1\nlift 1 1 1\nlift 1 0 1\nlift 0\nlift 1 0 1\nlift 0\n\
    block 0 2 1\npivots 0 1\ntuple 3 0 1 1 1 2 1\nrow 1 0 1\nrow 1 1 1\ncover 1 0 1\nsource 1 0 1\ndual 1 0 1\n\
    block 1 2 4\npivots 0 3\ntuple 1 1 1\ntuple 1 2 1\ntuple 2 0 1 4 1\ntuple 2 3 1 5 1\nrow 1 0 1\nrow 1 1 1\n\
    cover 1 2 1\ncover 3 0 1 1 1 2 2\ncover 2 1 2 2 1\ncover 2 1 1 2 2\nsource 1 1 1\ndual 3 0 1 1 2 2 2\n";

/// One generator alone, as the sheaf of the square without a diagonal has.
pub const WITHOUT_SECOND: &str = "vertex 0 1 0\nedges 3\nlift 1 0 1\nlift 1 0 1\nlift 1 0 1\n\
    block 0 2 1\npivots 0 1\ntuple 3 0 1 1 1 2 1\nrow 1 0 1\nrow 1 1 1\ncover 1 0 1\nsource 1 0 1\ndual 1 0 1\n\
    block 1 2 4\npivots 0 3\ntuple 1 1 1\ntuple 1 2 1\ntuple 2 0 1 4 1\ntuple 2 3 1 5 1\nrow 1 0 1\nrow 1 1 1\n\
    cover 0\ncover 2 0 1 1 1\ncover 1 1 2\ncover 1 1 1\n";

/// The parts of a text of this version over this prime, up to degree 1.
pub fn parts_of(alloc: Global, text: &[u8], version: u8, prime: u8) -> Result<Cert, Fail>
    ensures { IfOk result (ArePartsOf version prime) }
{
    let cert = read_cert(alloc, text)?;
    if cert.version != version || cert.job.prime != prime || cert.job.degree != 1 {
        return Err(Fail::new("the text is of another version, prime or degree"));
    }
    Ok(cert)
}

/// Parts of the square with a diagonal, with this part of vertex 0.
pub fn square_parts(alloc: Global, least: &str) -> Result<Cert, Fail>
    ensures { IfOk result (ArePartsOf 1 3) }
{
    let text = format!(in alloc; "{UPPER_PARTS}{least}end\n")?;
    parts_of(alloc, text.as_bytes(), 1, 3)
}

/// Parts of the line by levels, with these lines of its vertices and blocks.
pub fn line_parts(alloc: Global, vertices: &str, first: &str, second: &str) -> Result<Cert, Fail>
    ensures { IfOk result (ArePartsOf 2 2) }
{
    let text = format!(in alloc; "{LEVELS}{vertices}{first}{second}end\n")?;
    parts_of(alloc, text.as_bytes(), 2, 2)
}
