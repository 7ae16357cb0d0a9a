//! Tuples over the vertices above a vertex, as vectors of which an index tells the positions.
ghost use Rattle.std.specs.Prelude.{◌≡◌, ◌<◌, ◌^◌, length};
ghost use Rattle.bmp_sheaf.specs.States.{sheaf_of};
ghost use Rattle.bmp_sections.specs.TupleLists.{tuples_over};
ghost use Rattle.bmp_sections.specs.Indexes.{IsIndexFor};

use crate::index::SectionIndex;
use crate::runs::{add_run, number_of};
use crate::sections::Sections;
use bmp_field::Field;
use bmp_linear::{Scratch, Vectors};
use bmp_sheaf::Sheaf;

/// A list of tuples over the vertices above a vertex in one degree. It keeps none of them: their positions have the
/// numbers of the vectors, and stand where an index tells.
#[derive(Drop)]
pub struct Tuples<'a, F: Field> {
    sheaf: &'a Sheaf<F>,
    vertex: u32,
    degree: u32,
    index: &'a SectionIndex,
    vectors: &'a Vectors,
    count: u32,
    ghost indexed: { IsIndexFor sheaf.now vertex degree index.now },
    ghost counted: { count ≡ length vectors.now },
    ghost few: { count < 2 ^ 32 },
}

impl<'a, F: Field> Tuples<'a, F> {
    /// The tuples over the vertices above `x`, in degree `d`, for which the index is filled.
    pub fn over(
        sheaf: &'a Sheaf<F>,
        x: u32,
        d: u32,
        index: &'a SectionIndex,
        vectors: &'a Vectors,
    ) -> Tuples<'a, F>
        requires { IsIndexFor sheaf.now x d index.now }
        ensures sheaf { result.sheaf.now ≡ sheaf.now }
        ensures vertex { result.vertex ≡ x }
        ensures degree { result.degree ≡ d }
        ensures vectors { result.vectors.now ≡ vectors.now }
    {
        Tuples {
            sheaf,
            vertex: x,
            degree: d,
            index,
            vectors,
            count: vectors.len(),
        }
    }
}

impl<'a, F: Field> Sections for Tuples<'a, F> {
    ghost list = { λ t. tuples_over t.sheaf.now.graph (sheaf_of t.sheaf.now) t.vertex t.degree t.vectors.now };

    fn count(&self) -> u64 {
        u64::from(self.count)
    }

    fn size(&self, y: u32) -> u64 {
        self.sheaf.stalk_len(y, self.degree)
    }

    fn at(&self, j: u64, y: u32, c: u64) -> u8 {
        let vector = self.vectors.at(j as u32);
        number_of(
            vector.entries(),
            u64::from(self.index.starts[y as usize]) + c,
        )
    }

    fn add_value<G: Field>(&self, f: &G, j: u64, y: u32, factor: G::E, s: &mut Scratch) {
        let vector = self.vectors.at(j as u32);
        let start = u64::from(self.index.starts[y as usize]);
        add_run(f, factor, vector.entries(), start, self.size(y), s);
    }
}
