//! Families of tuples in memory, coordinate by coordinate.
ghost use Rattle.std.specs.Prelude.{◌≡◌, ◌<◌, ◌≤◌, [], All, IsTrue, IfOk, OnOk, OnErr, length};
ghost use Rattle.bmp_linear.specs.SparseVectors.{FitsBelow};
ghost use Rattle.bmp_levels.specs.Runs.{run_at, list_of, IsRunAdded, IsFamilyTable};

use crate::members::Members;
use crate::run::Run;
use bmp_linear::Vectors;
use std::alloc::{AllocError, Global};
use std::marker::Model;

/// A family: a list of tuples over the vertices of a level, in one degree. At each vertex it keeps, for each
/// coordinate, a run of bytes, one for each member that was there when the vertex was added.
///
/// Vertices are added from the greatest down, and nothing that stands is changed by it. So the family of all vertices
/// serves every level: its first members are the family of that level.
#[derive(Debug, Drop)]
pub struct Family {
    vertices: u32,
    count: u32,
    runs: Vec<Run>,
}

impl Model for Family {
    ghost use Rattle.bmp_levels.specs.Runs.{FamilyTable, IsFamilyTable};

    ghost Value = { FamilyTable };

    ghost view = { λ f. record { vertices = f.vertices; count = f.count; runs = f.runs.items } };

    ghost invariant = { λ f. IsFamilyTable (record { vertices = f.vertices; count = f.count; runs = f.runs.items }) };
}

impl Family {
    /// A family of no members at no vertex, of a graph with so many.
    pub(crate) fn new(alloc: Global, vertices: u32) -> Result<Family, AllocError>
        requires { vertices ≤ 4096 }
        ensures { IfOk result (λ f. f ≡ record { vertices = vertices; count = 0; runs = [] }) }
    {
        Ok(Family {
            vertices,
            count: 0,
            runs: Vec::with_capacity(alloc, vertices as usize)?,
        })
    }

    /// How many members there are.
    pub fn count(&self) -> u32
        ensures { result ≡ self.now.count }
    {
        self.count
    }

    /// How many vertices have values.
    pub fn vertices(&self) -> u32
        ensures count { result ≡ length self.now.runs }
        ensures within { result ≤ self.now.vertices }
        ensures table { IsFamilyTable self.now }
    {
        self.runs.len() as u32
    }

    /// The first `n` members.
    pub fn members(&self, n: u32) -> Members<'_>
        requires { n ≤ self.now.count }
        ensures family { result.family.now ≡ self.now }
        ensures count { result.count ≡ n }
    {
        Members::first(self, n)
    }

    /// The values at a vertex.
    pub(crate) fn run(&self, y: u32) -> &Run
        requires { IsTrue ((list_of self.now).has y) }
        ensures { result.now ≡ run_at self.now y }
    {
        &self.runs[(self.vertices - 1 - y) as usize]
    }

    /// Adds the next vertex, of `size` coordinates: the first members get the covers as their values there, the others
    /// 0, and for each vector of the basis a new member comes, with that value there.
    ///
    /// Wants memory also where there would be 2^32 members. Then the family is as it was.
    pub(crate) fn add_vertex(
        &mut self,
        size: u32,
        covers: &Vectors,
        basis: &Vectors,
    ) -> Result<(), AllocError>
        requires left { length self.old.runs < self.old.vertices }
        requires covers { length covers.now ≤ self.old.count }
        requires covers_fit { All (λ v. FitsBelow v size) covers.now }
        requires basis_fit { All (λ v. FitsBelow v size) basis.now }
        ensures added { OnOk result (IsRunAdded size covers.now basis.now self.old self.new) }
        ensures err { OnErr result (self.new ≡ self.old) }
    {
        if basis.len() > u32::MAX - self.count {
            return Err(AllocError);
        }
        let run = Run::of(*self.runs.allocator(), size, self.count, covers, basis)?;
        self.runs.push(run)?;
        self.count += basis.len();
        Ok(())
    }
}
