//! Boundaries: the images of a stalk's elements on the edges going up from a vertex.
ghost use Rattle.std.specs.Prelude.{◌≡◌, ℕ, ◌+◌, ◌*◌, ◌%◌, ◌^◌, ◌<◌, ◌≤◌, length, slice_index};
ghost use Rattle.bmp_math.specs.Matrices.{Matrix, NumbersBelow, image};
ghost use Rattle.bmp_math.specs.Vectors.{unit};
ghost use Rattle.bmp_linear.specs.SparseVectors.{FitsBelow, ValuesBelow, IsSpread, number_at};
ghost use Rattle.bmp_linear.specs.RowChanges.{HoldsNumbers, IsRowAddedTo};
ghost use Rattle.bmp_graph.specs.Graph.{vertex_count, edge_count, lower};
ghost use Rattle.bmp_sheaf.specs.Sheaves.{lift_of, boundary_of_element};
ghost use Rattle.bmp_sheaf.specs.Coordinates.{stalk_count, element_of, edge_module_count, boundary_start, boundary_count};
ghost use Rattle.bmp_sheaf.specs.Numbers.{on_edge, boundary_number, boundary_matrix};
ghost use Rattle.bmp_sheaf.specs.States.{stalk_of, IsThere, sheaf_of};
ghost use Rattle.bmp_sheaf.specs.Boundaries.{IsRunWritten, lift_numbers, IsBoundaryWritten};

use crate::sheaf::Sheaf;
use bmp_field::Field;
use bmp_linear::{Rows, Scratch, Vector};

/// The boundary map at a vertex, in one degree: a row for each boundary coordinate, a column for each stalk coordinate.
/// Keeps no rows of its own.
#[derive(Drop)]
pub struct BoundaryRows<'a, F: Field> {
    sheaf: &'a Sheaf<F>,
    vertex: u32,
    degree: u32,
    rows: u32,
    cols: u32,
    ghost there: { IsThere sheaf.now vertex },
    ghost within: { degree ≤ sheaf.now.degree },
    ghost as_many_rows: { rows ≡ boundary_count sheaf.now.graph (sheaf_of sheaf.now) vertex degree },
    ghost as_many_cols: { cols ≡ stalk_count sheaf.now.graph.rank (stalk_of sheaf.now vertex).degrees degree },
}

impl<'a, F: Field> BoundaryRows<'a, F> {
    /// The boundary map at the vertex `x` in degree `d`.
    pub fn of(sheaf: &'a Sheaf<F>, x: u32, d: u32) -> BoundaryRows<'a, F>
        requires vertex { IsThere sheaf.now x }
        requires degree { d ≤ sheaf.now.degree }
        requires few_rows { boundary_count sheaf.now.graph (sheaf_of sheaf.now) x d < 2 ^ 32 }
        requires few_cols { stalk_count sheaf.now.graph.rank (stalk_of sheaf.now x).degrees d < 2 ^ 32 }
        ensures sheaf { result.sheaf.now ≡ sheaf.now }
        ensures vertex { result.vertex ≡ x }
        ensures degree { result.degree ≡ d }
    {
        BoundaryRows {
            sheaf,
            vertex: x,
            degree: d,
            rows: sheaf.boundary_len(x, d) as u32,
            cols: sheaf.stalk_len(x, d) as u32,
        }
    }

    /// The edge of the boundary coordinate `k`, and the place among the coordinates on that edge.
    fn edge_of(&self, k: u32) -> (u32, u32)
        requires { k < self.now.rows }
        ensures edge { result.0 < edge_count self.now.sheaf.now.graph }
        ensures starts { lower self.now.sheaf.now.graph result.0 ≡ self.now.vertex }
        ensures inside { result.1 < edge_module_count self.now.sheaf.now.graph (sheaf_of self.now.sheaf.now)
            self.now.degree result.0 }
        ensures place { k ≡ boundary_start self.now.sheaf.now.graph (sheaf_of self.now.sheaf.now) self.now.vertex
            self.now.degree result.0 + result.1 }
    {
        let (first, past) = self.sheaf.graph().up(self.vertex);
        let mut place = k;
        for e in first..past {
            let rows = self.sheaf.lower_rows(e, self.degree).rows();
            if place < rows {
                return (e, place);
            }
            place -= rows;
        }
        unreachable!()
    }
}

impl<'a, F: Field> Rows<F> for BoundaryRows<'a, F> {
    ghost matrix = { λ t. boundary_matrix t.sheaf.now.graph (sheaf_of t.sheaf.now) t.vertex t.degree };

    fn rows(&self) -> u32 {
        self.rows
    }

    fn cols(&self) -> u32 {
        self.cols
    }

    fn at(&self, f: &F, i: u32, j: u32) -> F::E {
        let (e, place) = self.edge_of(i);
        self.sheaf.lower_rows(e, self.degree).at(f, place, j)
    }

    fn value_at(&self, f: &F, i: u32, vector: &Vector) -> F::E {
        let (e, place) = self.edge_of(i);
        self.sheaf
            .lower_rows(e, self.degree)
            .value_at(f, place, vector)
    }

    fn value_at_spread(&self, f: &F, i: u32, vector: &Vector, spread: &[u8]) -> F::E {
        let (e, place) = self.edge_of(i);
        self.sheaf
            .lower_rows(e, self.degree)
            .value_at_spread(f, place, vector, spread)
    }

    fn add_row_to(&self, f: &F, i: u32, c: F::E, sums: &mut [u8]) {
        let (e, place) = self.edge_of(i);
        self.sheaf
            .lower_rows(e, self.degree)
            .add_row_to(f, place, c, sums);
    }
}

impl<F: Field> Sheaf<F> {
    /// Writes the coordinates on an edge of the lift of `u`, from the place `start` of the first row of the scratch on.
    fn write_lift(&self, e: u32, d: u32, u: &Vector, start: u64, s: &mut Scratch) -> u64
        requires edge { e < edge_count self.now.graph }
        requires there { IsThere self.now (lower self.now.graph e) }
        requires degree { d ≤ self.now.degree }
        requires fits { FitsBelow u.now
            (stalk_count self.now.graph.rank (stalk_of self.now (lower self.now.graph e)).degrees d) }
        requires values { ValuesBelow u.now self.now.graph.prime }
        requires small { start ≤ 4294967295 * e }
        requires room { start + edge_module_count self.now.graph (sheaf_of self.now) d e ≤ length s.old.first }
        ensures count { result ≡ edge_module_count self.now.graph (sheaf_of self.now) d e }
        ensures few { result < 2 ^ 32 }
        ensures written { let G = self.now.graph in let F = sheaf_of self.now in
            IsRunWritten (lift_numbers G F d e (number_at u.now)) start (edge_module_count G F d e) s.old s.new }
    {
        let rows = self.lower_rows(e, d);
        let f = self.field();
        for i in 0..rows.rows() {
            let number = f.num(rows.value_at(f, i, u));
            s.set(false, start + u64::from(i), number as u8);
        }
        u64::from(rows.rows())
    }

    /// The same of the element that is 1 at the coordinate `own`.
    fn write_unit(&self, e: u32, d: u32, own: u32, start: u64, s: &mut Scratch) -> u64
        requires edge { e < edge_count self.now.graph }
        requires there { IsThere self.now (lower self.now.graph e) }
        requires degree { d ≤ self.now.degree }
        requires place { own < stalk_count self.now.graph.rank (stalk_of self.now (lower self.now.graph e)).degrees d }
        requires small { start ≤ 4294967295 * e }
        requires room { start + edge_module_count self.now.graph (sheaf_of self.now) d e ≤ length s.old.first }
        ensures count { result ≡ edge_module_count self.now.graph (sheaf_of self.now) d e }
        ensures few { result < 2 ^ 32 }
        ensures written { let G = self.now.graph in let F = sheaf_of self.now in
            IsRunWritten (lift_numbers G F d e (unit own)) start (edge_module_count G F d e) s.old s.new }
    {
        let rows = self.lower_rows(e, d);
        let f = self.field();
        for i in 0..rows.rows() {
            let number = f.num(rows.at(f, i, own));
            s.set(false, start + u64::from(i), number as u8);
        }
        u64::from(rows.rows())
    }

    /// Writes the boundary coordinates, at the vertex `x`, of the element of degree `d` with the coordinates `u`: they
    /// are then the first numbers of the first row of the scratch. Takes no memory.
    pub fn boundary(&self, x: u32, d: u32, u: &Vector, s: &mut Scratch)
        requires vertex { IsThere self.now x }
        requires degree { d ≤ self.now.degree }
        requires fits { FitsBelow u.now (stalk_count self.now.graph.rank (stalk_of self.now x).degrees d) }
        requires values { ValuesBelow u.now self.now.graph.prime }
        requires room { boundary_count self.now.graph (sheaf_of self.now) x d ≤ length s.old.first }
        ensures { IsBoundaryWritten self.now.graph (sheaf_of self.now) x d (number_at u.now) s.old s.new }
    {
        let (first, past) = self.graph().up(x);
        let mut start = 0;
        for e in first..past {
            start += self.write_lift(e, d, u, start, s);
        }
    }

    /// The same of the element that is 1 at the stalk coordinate `own` and 0 at the others.
    pub fn generator_boundary(&self, x: u32, d: u32, own: u32, s: &mut Scratch)
        requires vertex { IsThere self.now x }
        requires degree { d ≤ self.now.degree }
        requires place { own < stalk_count self.now.graph.rank (stalk_of self.now x).degrees d }
        requires room { boundary_count self.now.graph (sheaf_of self.now) x d ≤ length s.old.first }
        ensures { IsBoundaryWritten self.now.graph (sheaf_of self.now) x d (unit own) s.old s.new }
    {
        let (first, past) = self.graph().up(x);
        let mut start = 0;
        for e in first..past {
            start += self.write_unit(e, d, own, start, s);
        }
    }
}
