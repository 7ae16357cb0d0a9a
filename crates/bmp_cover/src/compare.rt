//! A boundary in memory, compared with that of a combination of tuples.
ghost use Rattle.std.specs.Prelude.{◌≡◌, ℕ, ◌+◌, ◌%◌, ◌<◌, ◌≤◌, IsTrue, MatchOption, length, slice_index};
ghost use Rattle.bmp_math.specs.Vectors.{unit};
ghost use Rattle.bmp_math.specs.Matrices.{combination};
ghost use Rattle.bmp_linear.specs.SparseVectors.{IsSparse, FitsBelow, ValuesBelow, number_at};
ghost use Rattle.bmp_graph.specs.Graph.{edge_count, lower, upper};
ghost use Rattle.bmp_sheaf.specs.Sheaves.{boundary_of_tuple};
ghost use Rattle.bmp_sheaf.specs.Coordinates.{element_of, edge_module_count, boundary_count};
ghost use Rattle.bmp_sheaf.specs.Numbers.{on_edge, boundary_number, upper_matrix};
ghost use Rattle.bmp_sheaf.specs.States.{IsThere, sheaf_of, IsRoom};
ghost use Rattle.bmp_sections.specs.TupleLists.{tuples_in};
ghost use Rattle.bmp_cover.specs.Evidence.{combined_tuple};
ghost use Rattle.bmp_cover.specs.CoverInputs.{HasStalks, HasTuples};
ghost use Rattle.bmp_cover.specs.Differences.{IsFirstDifference};

use crate::fault::CoverFault;
use crate::kind::Kind;
use bmp_field::Field;
use bmp_linear::{Entry, Rows, Scratch, value_of};
use bmp_sections::Sections;
use bmp_sheaf::Sheaf;

/// A place where two rows of numbers differ, and the two numbers.
#[derive(Clone, Copy)]
pub(crate) struct Difference {
    place: u64,
    left: u32,
    right: u32,
}

impl Difference {
    /// The fault of this kind and index.
    pub(crate) fn fault(self, kind: Kind, index: u32) -> CoverFault
        ensures { result ≡ record {
          kind = kind;
          index = index;
          place = self.place;
          left = self.left;
          right = self.right;
        } }
    {
        CoverFault {
            kind,
            index: u64::from(index),
            place: self.place,
            left: self.left,
            right: self.right,
        }
    }
}

/// Compares the first row of the scratch with the boundary at `x` of a combination of the tuples.
pub(crate) fn compare_boundary<F: Field, T: Sections>(
    sheaf: &Sheaf<F>,
    x: u32,
    d: u32,
    tuples: &T,
    factors: &[Entry],
    s: &mut Scratch,
) -> Option<Difference>
    requires stalks { HasStalks sheaf.now x d }
    requires tuples { HasTuples sheaf.now x d (T.list tuples.now) }
    requires sparse { IsSparse factors.now }
    requires fits { FitsBelow factors.now (T.list tuples.now).count }
    requires values { ValuesBelow factors.now sheaf.now.graph.prime }
    requires room { IsRoom sheaf.now d (length s.old.first) }
    ensures compared { let G = sheaf.now.graph in
        let tuple = combined_tuple (number_at factors.now) (tuples_in G (sheaf_of sheaf.now) d (T.list tuples.now))
        (T.list tuples.now).count in
        let left = slice_index s.old.first in
        let right = boundary_number G (sheaf_of sheaf.now) x d (boundary_of_tuple G tuple) in
        MatchOption result ((k : ℕ) → k < boundary_count G (sheaf_of sheaf.now) x d → left k ≡ right k)
        (IsFirstDifference left right (boundary_count G (sheaf_of sheaf.now) x d)) }
    ensures first { s.new.first ≡ s.old.first }
{
    let graph = sheaf.graph();
    let (from, to) = graph.up(x);
    let mut start = 0;
    for edge in from..to {
        combine_values(sheaf.field(), tuples, graph.edge(edge).upper, factors, s);
        let _ = s.len();
        if let Some(difference) = compare_edge(sheaf, edge, d, start, s) {
            return Some(Difference {
                place: start + difference.place,
                ..difference
            });
        }
        start += u64::from(sheaf.upper_rows(edge, d).rows());
    }
    None
}

/// Writes the combination of the tuples' values at `y` into the second row of the scratch.
fn combine_values<F: Field, T: Sections>(
    f: &F,
    tuples: &T,
    y: u32,
    factors: &[Entry],
    s: &mut Scratch,
)
    requires vertex { IsTrue ((T.list tuples.now).has y) }
    requires numbers { (j c : ℕ) → j < (T.list tuples.now).count → c < (T.list tuples.now).size y
        → (T.list tuples.now).value j y c < F.size f.now }
    requires sparse { IsSparse factors.now }
    requires fits { FitsBelow factors.now (T.list tuples.now).count }
    requires values { ValuesBelow factors.now (F.size f.now) }
    requires room { (T.list tuples.now).size y ≤ length s.old.first }
    ensures combined { (c : ℕ) → c < (T.list tuples.now).size y → slice_index s.new.second c
        ≡ combination (number_at factors.now) (λ j. (T.list tuples.now).value j y) (T.list tuples.now).count c
        % F.size f.now }
    ensures first { s.new.first ≡ s.old.first }
{
    let _ = s.len();
    for c in 0..tuples.size(y) {
        s.set(true, c, 0);
    }
    for factor in factors {
        let value = f.from_num(u32::from(factor.value));
        tuples.add_value(f, u64::from(factor.place), y, value, s);
    }
}

/// Compares the numbers from `start` on in the first row of the scratch with the coordinates on an edge of the element
/// whose coordinates are in the second row.
fn compare_edge<F: Field>(
    sheaf: &Sheaf<F>,
    edge: u32,
    d: u32,
    start: u64,
    s: &Scratch,
) -> Option<Difference>
    requires edge { edge < edge_count sheaf.now.graph }
    requires there { IsThere sheaf.now (lower sheaf.now.graph edge) }
    requires degree { d ≤ sheaf.now.degree }
    requires first { start + edge_module_count sheaf.now.graph (sheaf_of sheaf.now) d edge ≤ length s.now.first }
    requires second { (upper_matrix sheaf.now.graph (sheaf_of sheaf.now) d edge).cols ≤ length s.now.second }
    requires numbers { (c : ℕ) → c < (upper_matrix sheaf.now.graph (sheaf_of sheaf.now) d edge).cols
        → slice_index s.now.second c < sheaf.now.graph.prime }
    ensures { let G = sheaf.now.graph in
        let n = edge_module_count G (sheaf_of sheaf.now) d edge in
        let left : ℕ → ℕ = λ i. slice_index s.now.first (start + i) in
        let right = on_edge G (sheaf_of sheaf.now) d edge
        (element_of G.rank ((sheaf_of sheaf.now).degrees (upper G edge)) d (slice_index s.now.second)) in
        MatchOption result ((i : ℕ) → i < n → left i ≡ right i) (IsFirstDifference left right n) }
{
    let _ = s.len();
    let f = sheaf.field();
    let rows = sheaf.upper_rows(edge, d);
    for i in 0..rows.rows() {
        let place = u64::from(i);
        let left = u32::from(s.get(false, start + place));
        let right = f.num(value_of(f, rows.row(i), s.second()));
        if left != right {
            return Some(Difference { place, left, right });
        }
    }
    None
}

/// Compares the first row of the scratch with 1 at the place `own` and 0 elsewhere.
pub(crate) fn compare_unit(own: u32, len: u64, s: &Scratch) -> Option<Difference>
    requires { len ≤ length s.now.first }
    ensures { let left = slice_index s.now.first in
        MatchOption result ((k : ℕ) → k < len → left k ≡ unit own k) (IsFirstDifference left (unit own) len) }
{
    for place in 0..len {
        let left = u32::from(s.get(false, place));
        let right = u32::from(place == u64::from(own));
        if left != right {
            return Some(Difference { place, left, right });
        }
    }
    None
}
