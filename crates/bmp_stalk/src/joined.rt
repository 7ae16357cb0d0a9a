//! The boundary map of a stalk with the boundaries of tuples behind it, as columns of one matrix.
ghost use Rattle.std.specs.Prelude.{◌≡◌, ℕ, ◌+◌, ◌^◌, ◌<◌, ◌≤◌, IsTrue, EachIndex, OnOk, IfOk, length, slice_index};
ghost use Rattle.bmp_math.specs.Matrices.{NumbersBelow, SameMatrix};
ghost use Rattle.bmp_linear.specs.SparseVectors.{FitsBelow, ValuesBelow, number_at};
ghost use Rattle.bmp_linear.specs.RowChanges.{IsCombined};
ghost use Rattle.bmp_graph.specs.Graph.{edge_count, lower, upper};
ghost use Rattle.bmp_sheaf.specs.Coordinates.{stalk_count, edge_module_count, boundary_start};
ghost use Rattle.bmp_sheaf.specs.States.{IsThere, sheaf_of};
ghost use Rattle.bmp_cover.specs.CoverInputs.{HasStalks, HasTuples, HasValues};
ghost use Rattle.bmp_stalk.specs.Blocks.{IsBoundarySoFar};
ghost use Rattle.bmp_stalk.specs.Drafts.{AreFew};
ghost use Rattle.bmp_sections.specs.TupleLists.{value_matrix};
ghost use Rattle.bmp_stalk.specs.Values.{joined_matrix, HasRowsOf, IsJoinedRow};

use bmp_field::Field;
use bmp_linear::{RowSpace, Rows, Vector};
use bmp_sections::Sections;
use bmp_sheaf::Sheaf;
use std::alloc::{AllocError, Global};

/// Adds the combination of the tuples' coordinates at `y` to a row of 0s, one for each tuple.
fn add_combination<F: Field, T: Sections>(f: &F, tuples: &T, y: u32, row: &Vector, sums: &mut [u8])
    requires vertex { IsTrue ((T.list tuples.now).has y) }
    requires below { NumbersBelow (F.size f.now) (value_matrix (T.list tuples.now) y) }
    requires fits { FitsBelow row.now ((T.list tuples.now).size y) }
    requires numbers { ValuesBelow row.now (F.size f.now) }
    requires room { (T.list tuples.now).count ≤ length sums.old }
    requires clear { EachIndex sums.old (λ j. slice_index sums.old j ≡ 0) }
    ensures { IsCombined (F.size f.now) (value_matrix (T.list tuples.now) y) (number_at row.now) sums.new }
{
    for entry in row.entries() {
        let factor = f.from_num(u32::from(entry.value));
        tuples.add_coordinate_to(f, y, u64::from(entry.place), factor, sums);
    }
}

/// Writes row `i` on an edge with the upper end `y`: what the lower map has there, and behind it what row `i` of the
/// upper map says of each tuple's value. One pass over the tuples for each entry of the row.
fn write_joined_row<F: Field, L: Rows<F>, T: Sections>(
    f: &F,
    lower: &L,
    row: &Vector,
    tuples: &T,
    y: u32,
    i: u32,
    numbers: &mut [u8],
)
    requires below { NumbersBelow (F.size f.now) (L.matrix lower.now) }
    requires vertex { IsTrue ((T.list tuples.now).has y) }
    requires values_below { NumbersBelow (F.size f.now) (value_matrix (T.list tuples.now) y) }
    requires row { i < (L.matrix lower.now).rows }
    requires fits { FitsBelow row.now ((T.list tuples.now).size y) }
    requires numbers { ValuesBelow row.now (F.size f.now) }
    requires sized { length numbers.old ≡ (L.matrix lower.now).cols + (T.list tuples.now).count }
    ensures row { IsJoinedRow (F.size f.now) (L.matrix lower.now) (number_at row.now)
        (value_matrix (T.list tuples.now) y) i numbers.new }
{
    let (of_lower, of_values) = numbers.split_at_mut(lower.cols() as usize);
    of_lower.fill(0);
    of_values.fill(0);
    lower.add_row_to(f, i, f.one(), of_lower);
    add_combination(f, tuples, y, row, of_values);
}

/// Appends the rows of an edge going up from its lower end.
fn push_edge<F: Field, T: Sections, A: RowSpace<F>>(
    alloc: Global,
    sheaf: &Sheaf<F>,
    e: u32,
    d: u32,
    tuples: &T,
    o: &mut A,
    joined: &mut [u8],
) -> Result<(), AllocError>
    requires edge { e < edge_count sheaf.now.graph }
    requires there { IsThere sheaf.now (lower sheaf.now.graph e) }
    requires degree { d ≤ sheaf.now.degree }
    requires tuples { HasValues sheaf.now d (T.list tuples.now) (upper sheaf.now.graph e) }
    requires joined { let G = sheaf.now.graph in length joined.old
        ≡ stalk_count G.rank ((sheaf_of sheaf.now).degrees (lower G e)) d + (T.list tuples.now).count }
    requires few { length joined.old < 2 ^ 32 }
    requires before { let G = sheaf.now.graph in let F = sheaf_of sheaf.now in
        HasRowsOf (boundary_start G F (lower G e) d e) (joined_matrix G F (lower G e) d (T.list tuples.now))
        (A.matrix o.old) }
    ensures pushed { let G = sheaf.now.graph in let F = sheaf_of sheaf.now in
        OnOk result (HasRowsOf (boundary_start G F (lower G e) d e + edge_module_count G F d e)
        (joined_matrix G F (lower G e) d (T.list tuples.now)) (A.matrix o.new)) }
{
    let f = sheaf.field();
    let low = sheaf.lower_rows(e, d);
    let high = sheaf.upper_rows(e, d);
    let y = sheaf.graph().edge(e).upper;
    let mut row = Vector::new(alloc);
    let mut work = vec![in alloc; 0; high.cols() as usize]?;
    for i in 0..low.rows() {
        high.read_row(f, i, &mut work, &mut row)?;
        write_joined_row(f, low, &row, tuples, y, i, joined);
        o.push_numbers(f, joined)?;
    }
    Ok(())
}

/// Appends the rows of all edges going up from `x`.
fn push_edges<F: Field, T: Sections, A: RowSpace<F>>(
    alloc: Global,
    sheaf: &Sheaf<F>,
    x: u32,
    d: u32,
    tuples: &T,
    o: &mut A,
    joined: &mut [u8],
) -> Result<(), AllocError>
    requires stalks { HasStalks sheaf.now x d }
    requires tuples { HasTuples sheaf.now x d (T.list tuples.now) }
    requires joined { length joined.old
        ≡ stalk_count sheaf.now.graph.rank ((sheaf_of sheaf.now).degrees x) d + (T.list tuples.now).count }
    requires few { length joined.old < 2 ^ 32 }
    requires before { HasRowsOf 0 (joined_matrix sheaf.now.graph (sheaf_of sheaf.now) x d (T.list tuples.now))
        (A.matrix o.old) }
    ensures same { OnOk result (SameMatrix (A.matrix o.new)
        (joined_matrix sheaf.now.graph (sheaf_of sheaf.now) x d (T.list tuples.now))) }
{
    let (from, to) = sheaf.graph().up(x);
    for e in from..to {
        push_edge(alloc, sheaf, e, d, tuples, o, joined)?;
    }
    Ok(())
}

/// The boundary map at `x` of the stalk that is there, in degree `d`, and behind it the boundaries of the tuples: as
/// columns, in rows that are kept as `rows` are. For each coordinate of each edge going up from `x` one combination of
/// runs of the tuples' coordinates.
pub fn joined_boundary<F: Field, T: Sections, A: RowSpace<F>>(
    alloc: Global,
    sheaf: &Sheaf<F>,
    x: u32,
    d: u32,
    tuples: &T,
    rows: &A,
) -> Result<A, AllocError>
    requires stalks { HasStalks sheaf.now x d }
    requires tuples { HasTuples sheaf.now x d (T.list tuples.now) }
    requires few { AreFew sheaf.now.graph (sheaf_of sheaf.now) x d (T.list tuples.now).count }
    ensures joined { let G = sheaf.now.graph in
        IfOk result (λ o. IsBoundarySoFar G (sheaf_of sheaf.now) x d (T.list tuples.now) (A.matrix o)) }
    ensures numbers { IfOk result (λ o. NumbersBelow sheaf.now.graph.prime (A.matrix o)) }
{
    let count = tuples.count() as usize;
    let cols = sheaf.stalk_len(x, d) as usize + count;
    let mut o = rows.empty(cols as u32);
    let mut joined = vec![in alloc; 0; cols]?;
    let _ = sheaf.graph();
    push_edges(alloc, sheaf, x, d, tuples, &mut o, &mut joined)?;
    Ok(o)
}
