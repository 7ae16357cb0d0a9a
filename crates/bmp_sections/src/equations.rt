//! The edge equations over the vertices above a vertex, as rows that are found by an index.
ghost use Rattle.std.specs.Prelude.{◌≡◌, ◌<◌};
ghost use Rattle.bmp_sheaf.specs.States.{sheaf_of};
ghost use Rattle.bmp_sections.specs.Numbers.{equation_matrix};
ghost use Rattle.bmp_sections.specs.Indexes.{IsIndexFor};
ghost use Rattle.bmp_sections.specs.RowParts.{IsRowOfParts};

use crate::index::SectionIndex;
use crate::negated::{add_negated, negated_value};
use crate::row_parts::RowParts;
use bmp_field::Field;
use bmp_linear::{Rows, Vector, add_entries, value_of};
use bmp_sheaf::Sheaf;

/// The edge equations over the vertices above a vertex in one degree: a row for each equation, a column for each
/// position. It keeps no rows of its own, and finds its edges by an index.
#[derive(Drop)]
pub struct Equations<'a, F: Field> {
    sheaf: &'a Sheaf<F>,
    vertex: u32,
    degree: u32,
    index: &'a SectionIndex,
    ghost indexed: { IsIndexFor sheaf.now vertex degree index.now },
}

impl<'a, F: Field> Equations<'a, F> {
    /// The equations over the vertices above `x`, in degree `d`, for which the index is filled.
    pub fn over(sheaf: &'a Sheaf<F>, x: u32, d: u32, index: &'a SectionIndex) -> Equations<'a, F>
        requires { IsIndexFor sheaf.now x d index.now }
        ensures sheaf { result.sheaf.now ≡ sheaf.now }
        ensures vertex { result.vertex ≡ x }
        ensures degree { result.degree ≡ d }
    {
        Equations {
            sheaf,
            vertex: x,
            degree: d,
            index,
        }
    }

    /// The row `i` in its parts.
    fn parts(&self, i: u32) -> RowParts<'a>
        requires { i < self.now.index.now.equations }
        ensures { let s = self.now.sheaf.now in
            IsRowOfParts result.prime (equation_matrix s.graph (sheaf_of s) self.now.vertex self.now.degree) i
            result.lower.now result.upper.now result.low result.high }
    {
        let place = self.index.places[i as usize];
        let graph = self.sheaf.graph();
        let edge = graph.edge(place.edge);
        let lower = self.sheaf.lower_rows(place.edge, self.degree);
        let upper = self.sheaf.upper_rows(place.edge, self.degree);
        RowParts {
            lower: lower.row(place.coordinate),
            upper: upper.row(place.coordinate),
            low: self.index.starts[edge.lower as usize],
            high: self.index.starts[edge.upper as usize],
            prime: graph.prime(),
        }
    }
}

impl<'a, F: Field> Rows<F> for Equations<'a, F> {
    ghost matrix = { λ r. equation_matrix r.sheaf.now.graph (sheaf_of r.sheaf.now) r.vertex r.degree };

    fn rows(&self) -> u32 {
        self.index.equations
    }

    fn cols(&self) -> u32 {
        self.index.positions
    }

    fn at(&self, f: &F, i: u32, j: u32) -> F::E {
        let row = self.parts(i);
        f.from_num(u32::from(row.number(j)))
    }

    fn value_at_spread(&self, f: &F, i: u32, vector: &Vector, spread: &[u8]) -> F::E {
        let _ = vector;
        let row = self.parts(i);
        let low = value_of(f, row.lower, &spread[row.low as usize..row.high as usize]);
        let high = negated_value(f, row.prime, row.upper, &spread[row.high as usize..]);
        f.add(low, high)
    }

    fn add_row_to(&self, f: &F, i: u32, c: F::E, sums: &mut [u8]) {
        let row = self.parts(i);
        add_entries(
            f,
            c,
            row.lower,
            &mut sums[row.low as usize..row.high as usize],
        );
        add_negated(f, c, row.prime, row.upper, &mut sums[row.high as usize..]);
    }
}
