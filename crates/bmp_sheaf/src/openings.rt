//! Stalks without generators at the vertices of one length.
ghost use Rattle.std.specs.Prelude.{◌≡◌, ◌↔◌, ◌-◌, ◌<◌, IsTrue, OnOk, IfOk, length};
ghost use Rattle.bmp_graph.specs.Graph.{vertex_count, length_at};
ghost use Rattle.bmp_sheaf.specs.States.{no_stalk, next_vertex, with_stalk};
ghost use Rattle.bmp_sheaf.specs.Openings.{IsOpened};

use crate::fault::SheafFault;
use crate::sheaf::Sheaf;
use bmp_field::Field;
use std::alloc::AllocError;

impl<F: Field> Sheaf<F> {
    /// The length of the greatest vertex whose stalk isn't there.
    pub fn next_length(&self) -> u32
        requires { length self.now.stalks < vertex_count self.now.graph }
        ensures { result ≡ length_at self.now.graph (next_vertex self.now) }
    {
        let graph = self.graph();
        graph.length(graph.vertices() - 1 - self.pushed())
    }

    /// Whether some stalk isn't there, and the greatest such vertex has length `k`.
    fn is_next(&self, k: u32) -> bool
        ensures { IsTrue result ↔ ((length self.now.stalks < vertex_count self.now.graph)
            × (length_at self.now.graph (next_vertex self.now) ≡ k)) }
    {
        let graph = self.graph();
        let pushed = self.pushed();
        pushed < graph.vertices() && graph.length(graph.vertices() - 1 - pushed) == k
    }

    /// Adds a stalk without generators. Since it is one, memory alone can be wanting.
    fn push_empty(&mut self) -> Result<(), AllocError>
        requires { length self.old.stalks < vertex_count self.old.graph }
        ensures { OnOk result (self.new ≡ with_stalk self.old no_stalk) }
    {
        match self.push_vertex(&[], &[]) {
            Ok(()) => Ok(()),
            Err(SheafFault::Memory) => Err(AllocError),
            Err(_) => unreachable!(),
        }
    }

    /// Adds a stalk without generators at each vertex of length `k`, from the greatest vertex on whose stalk isn't
    /// there, and answers how many these are. Where it wants memory some of the stalks may be there.
    fn open_vertices(&mut self, k: u32) -> Result<u32, AllocError>
        ensures { IfOk result (IsOpened self.old self.new k) }
    {
        let from = self.pushed();
        'vertices: while self.is_next(k) {
            self.push_empty()?;
        }
        Ok(self.pushed() - from)
    }

    /// Adds a stalk without generators at each vertex of length `k`, from the greatest vertex on whose stalk isn't
    /// there, and answers how many these are. Afterwards what is kept of the edges going up from them is there, and
    /// sheaves that come of `first` share the stalks of the other vertices, and these maps, at no cost. Where it wants
    /// memory some of the stalks may be there.
    pub fn open_length(&mut self, k: u32) -> Result<u32, AllocError>
        ensures { IfOk result (IsOpened self.old self.new k) }
    {
        self.settle_stalks()?;
        let count = self.open_vertices(k)?;
        self.settle_uppers()?;
        Ok(count)
    }
}
