//! How many coordinates a sheaf in memory has.
ghost use Rattle.std.specs.Prelude.{◌≡◌, ℕ, ◌+◌, ◌-◌, ◌<◌, ◌≤◌, length};
ghost use Rattle.bmp_graph.specs.Graph.{Graph, vertex_count};
ghost use Rattle.bmp_sheaf.specs.Coordinates.{stalk_count, boundary_count};
ghost use Rattle.bmp_sheaf.specs.States.{SheafState, stalk_of, IsThere, sheaf_of, IsRoom};

use crate::sheaf::Sheaf;
use bmp_field::Field;
use bmp_linear::Rows;
use bmp_module::{Free, GradedModule};

impl<F: Field> Sheaf<F> {
    /// How many coordinates an element of degree `d` of the stalk at a vertex has.
    pub fn stalk_len(&self, x: u32, d: u32) -> u64
        requires vertex { IsThere self.now x }
        requires degree { d ≤ self.now.degree }
        ensures { result ≡ stalk_count self.now.graph.rank (stalk_of self.now x).degrees d }
    {
        <Free as GradedModule<F>>::dim(self.stalk(x), d)
    }

    /// How many coordinates a boundary of degree `d` at a vertex has: those on all edges going up from it.
    pub fn boundary_len(&self, x: u32, d: u32) -> u64
        requires vertex { IsThere self.now x }
        requires degree { d ≤ self.now.degree }
        ensures { result ≡ boundary_count self.now.graph (sheaf_of self.now) x d }
    {
        let (first, past) = self.graph().up(x);
        let mut len = 0;
        for e in first..past {
            len += u64::from(self.lower_rows(e, d).rows());
        }
        len
    }

    /// The greatest number of stalk coordinates or of boundary coordinates of degree `d` at a vertex whose stalk is
    /// there.
    pub fn scratch_len(&self, d: u32) -> u64
        requires { d ≤ self.now.degree }
        ensures room { IsRoom self.now d result }
        ensures least { (n : ℕ) → IsRoom self.now d n → result ≤ n }
    {
        let vertices = self.graph().vertices();
        let mut most: u64 = 0;
        for x in vertices - self.pushed()..vertices {
            most = most.max(self.stalk_len(x, d)).max(self.boundary_len(x, d));
        }
        most
    }
}
