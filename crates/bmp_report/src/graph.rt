//! The text of a graph, and the line of the GKM condition.
ghost use Rattle.std.specs.Prelude.{◌≡◌, ◌<◌, ◌+◌, ◌++◌, ◌∷◌, [], codes, length, slice_get, Some, IfOk, OnOk};
ghost use Rattle.std.specs.Fmt.{decimal, signed_decimal};
ghost use Rattle.bmp_text.specs.Printing.{single_text, spaced_words, range_text};
ghost use Rattle.bmp_roots.specs.RootSystems.{matrix_of};
ghost use Rattle.bmp_weyl.specs.Matrices.{cell};
ghost use Rattle.bmp_weyl.specs.Elements.{IsElementOfOne, rank_of};
ghost use Rattle.bmp_weyl.specs.declared.elem.Elem.{Elem};
ghost use Rattle.bmp_interval.specs.IntervalViews.{system_of, vertices_of};
ghost use Rattle.bmp_graph.specs.Graph.{edge_count, label};
ghost use Rattle.bmp_cert.specs.JobViews.{interval_of, graph_of, prepared_of};
ghost use Rattle.bmp_report.specs.GraphText.{row_words, matrix_words, vertex_line, vertex_lines, edge_line, edge_lines, graph_text, gkm_text};

use crate::faults::push_numbered;
use bmp_cert::{Accepted, Prepared};
use bmp_graph::MomentGraph;
use bmp_interval::Interval;
use bmp_text::{push_int, push_number};
use bmp_weyl::Elem;
use std::alloc::{AllocError, Global};

// The entry at row i and column j, both from 0, behind a space.
fn push_entry(out: &mut Vec<u8>, e: &Elem, i: u8, j: u8) -> Result<(), AllocError>
    requires element { IsElementOfOne e.now }
    requires row { i < rank_of e.now }
    requires column { j < rank_of e.now }
    ensures { OnOk result (out.new.items ≡ out.old.items ++ (32 ∷ signed_decimal (cell e.now.entries i j))) }
{
    out.push(b' ')?;
    push_int(out, i128::from(e.entry(i + 1, j + 1)))
}

// Row number i of a matrix, each entry behind a space.
fn push_row(out: &mut Vec<u8>, e: &Elem, i: u8, rank: u8) -> Result<(), AllocError>
    requires element { IsElementOfOne e.now }
    requires rank { rank ≡ rank_of e.now }
    requires row { i < rank }
    ensures { OnOk result (out.new.items ≡ out.old.items ++ spaced_words (row_words rank e.now i)) }
{
    'columns: for j in 0..rank {
        push_entry(out, e, i, j)?;
    }
    Ok(())
}

// The rows of a matrix.
fn push_matrix(out: &mut Vec<u8>, e: &Elem, rank: u8) -> Result<(), AllocError>
    requires element { IsElementOfOne e.now }
    requires rank { rank ≡ rank_of e.now }
    ensures { OnOk result (out.new.items ≡ out.old.items ++ spaced_words (matrix_words rank e.now)) }
{
    'rows: for i in 0..rank {
        push_row(out, e, i, rank)?;
    }
    Ok(())
}

// The line of a vertex.
fn push_vertex(out: &mut Vec<u8>, interval: &Interval, x: u32) -> Result<(), AllocError>
    requires { x < length (vertices_of interval.now) }
    ensures { OnOk result ((e : Elem) → slice_get (vertices_of interval.now) x ≡ Some e
        → out.new.items ≡ out.old.items ++ vertex_line (system_of interval.now) x e) }
{
    out.extend_from_slice(b"vertex")?;
    push_number(out, u64::from(x))?;
    push_number(out, u64::from(interval.length(x)))?;
    push_matrix(out, interval.elem(x), interval.roots().rank())?;
    out.push(b'\n')?;
    Ok(())
}

// The lines of all vertices.
fn push_vertices(out: &mut Vec<u8>, interval: &Interval) -> Result<(), AllocError>
    ensures { OnOk result (out.new.items ≡ out.old.items
        ++ vertex_lines (system_of interval.now) (vertices_of interval.now)) }
{
    'vertices: for x in 0..interval.len() {
        push_vertex(out, interval, x)?;
    }
    Ok(())
}

// The coordinates of a label, each behind a space.
fn push_label(out: &mut Vec<u8>, graph: &MomentGraph, e: u32) -> Result<(), AllocError>
    requires { e < edge_count graph.now }
    ensures { OnOk result (out.new.items ≡ out.old.items
        ++ spaced_words (range_text (λ i. decimal (label graph.now e i) ∷ []) 0 graph.now.rank)) }
{
    let edge = graph.edge(e);
    let rank = graph.rank();
    'coordinates: for i in 0..rank {
        push_number(out, u64::from(edge.label.coordinate(i + 1)))?;
    }
    Ok(())
}

// The line of an edge.
fn push_edge(out: &mut Vec<u8>, graph: &MomentGraph, e: u32) -> Result<(), AllocError>
    requires { e < edge_count graph.now }
    ensures { OnOk result (out.new.items ≡ out.old.items ++ edge_line graph.now e) }
{
    let edge = graph.edge(e);
    out.extend_from_slice(b"edge")?;
    push_number(out, u64::from(edge.lower))?;
    push_number(out, u64::from(edge.upper))?;
    push_label(out, graph, e)?;
    out.push(b'\n')?;
    Ok(())
}

// The lines of all edges.
fn push_edges(out: &mut Vec<u8>, graph: &MomentGraph) -> Result<(), AllocError>
    ensures { OnOk result (out.new.items ≡ out.old.items ++ edge_lines graph.now) }
{
    'edges: for e in 0..graph.edges() {
        push_edge(out, graph, e)?;
    }
    Ok(())
}

/// A line of a keyword and a number.
pub(crate) fn push_single(out: &mut Vec<u8>, word: &[u8], n: u64) -> Result<(), AllocError>
    ensures { OnOk result (out.new.items ≡ out.old.items ++ single_text word.now n) }
{
    push_numbered(out, word, n)?;
    out.push(b'\n')?;
    Ok(())
}

/// The text of a job's moment graph: `vertices n`, for each vertex `vertex x l` with its length l and the entries of
/// its matrix row by row, `edges m`, and for each edge `edge x y` with the coordinates of its label.
pub fn graph_text(alloc: Global, p: &Prepared) -> Result<Vec<u8>, AllocError>
    ensures { IfOk result (λ v. v.items ≡ graph_text (system_of (interval_of p.now))
        (vertices_of (interval_of p.now)) (graph_of p.now)) }
{
    let interval = p.interval();
    let graph = p.graph();
    let mut out = Vec::new(alloc);
    push_single(&mut out, b"vertices", u64::from(interval.len()))?;
    push_vertices(&mut out, interval)?;
    push_single(&mut out, b"edges", u64::from(graph.edges()))?;
    push_edges(&mut out, graph)?;
    Ok(out)
}

/// The line of an accepted job: `gkm holds vertices n edges m`.
pub fn gkm_text(alloc: Global, a: &Accepted) -> Result<Vec<u8>, AllocError>
    ensures { IfOk result (λ v. v.items ≡ gkm_text (graph_of (prepared_of a.now))) }
{
    let graph = a.graph();
    let mut out = Vec::new(alloc);
    push_numbered(&mut out, b"gkm holds vertices", u64::from(graph.vertices()))?;
    push_numbered(&mut out, b" edges", u64::from(graph.edges()))?;
    out.push(b'\n')?;
    Ok(out)
}
