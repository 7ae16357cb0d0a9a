//! Where the positions and the equations over the vertices above a vertex stand.
ghost use Rattle.std.specs.Prelude.{◌≡◌, ℕ, ◌+◌, ◌<◌, ◌≤◌, ◌^◌, IfOk, length, slice_get, Some};
ghost use Rattle.bmp_graph.specs.Graph.{vertex_count};
ghost use Rattle.bmp_sheaf.specs.States.{sheaf_of};
ghost use Rattle.bmp_sections.specs.Indexes.{AboveIsThere, HasRoom, IsIndexedBelow, IsIndexFor};

use bmp_field::Field;
use bmp_linear::Rows;
use bmp_sheaf::Sheaf;
use std::alloc::{AllocError, Global};

/// What an equation says: that two values agree on an edge in one coordinate.
#[derive(Clone, Copy, Debug, PartialEq, Eq)]
pub struct EquationPlace {
    pub edge: u32,
    pub coordinate: u32,
}

/// Room to say where the positions and the equations over the vertices above a vertex stand, in one degree. It is
/// filled for one vertex and degree after another.
#[derive(Debug, Drop)]
pub struct SectionIndex {
    pub(crate) positions: u32,
    pub(crate) equations: u32,
    /// By vertex where its positions start.
    pub(crate) starts: Vec<u32>,
    /// By equation its edge and coordinate.
    pub(crate) places: Vec<EquationPlace>,
}

impl SectionIndex {
    /// Room for so many vertices and equations.
    pub fn new(alloc: Global, vertices: u32, equations: u64) -> Result<SectionIndex, AllocError>
        ensures vertices { IfOk result (λ s. length s.starts.items ≡ vertices) }
        ensures equations { IfOk result (λ s. length s.places.items ≡ equations) }
    {
        let none = EquationPlace {
            edge: 0,
            coordinate: 0,
        };
        Ok(SectionIndex {
            positions: 0,
            equations: 0,
            starts: vec![in alloc; 0; vertices as usize]?,
            places: vec![in alloc; none; equations as usize]?,
        })
    }

    /// Fills it for the vertex `x` and the degree `d`. Takes no memory.
    pub fn fill<F: Field>(&mut self, sheaf: &Sheaf<F>, x: u32, d: u32)
        requires vertex { x < vertex_count sheaf.now.graph }
        requires there { AboveIsThere sheaf.now x }
        requires degree { d ≤ sheaf.now.degree }
        requires room { HasRoom sheaf.now.graph (sheaf_of sheaf.now) x d self.old }
        ensures indexed { IsIndexFor sheaf.now x d self.new }
        ensures starts { length self.new.starts.items ≡ length self.old.starts.items }
        ensures places { length self.new.places.items ≡ length self.old.places.items }
    {
        self.positions = 0;
        self.equations = 0;
        for y in 0..sheaf.graph().vertices() {
            self.fill_vertex(sheaf, x, y, d);
        }
    }

    /// Goes on with the vertex `y`, if it is above `x`, and with the edges going up from it.
    fn fill_vertex<F: Field>(&mut self, sheaf: &Sheaf<F>, x: u32, y: u32, d: u32)
        requires vertex { x < vertex_count sheaf.now.graph }
        requires next { y < vertex_count sheaf.now.graph }
        requires there { AboveIsThere sheaf.now x }
        requires degree { d ≤ sheaf.now.degree }
        requires room { HasRoom sheaf.now.graph (sheaf_of sheaf.now) x d self.old }
        requires earlier { IsIndexedBelow sheaf.now.graph (sheaf_of sheaf.now) x d y self.old }
        ensures indexed { IsIndexedBelow sheaf.now.graph (sheaf_of sheaf.now) x d (y + 1) self.new }
        ensures starts { length self.new.starts.items ≡ length self.old.starts.items }
        ensures places { length self.new.places.items ≡ length self.old.places.items }
    {
        let graph = sheaf.graph();
        let (from, to) = graph.up(y);
        if !graph.is_above(y, x) {
            return;
        }
        self.starts[y as usize] = self.positions;
        self.positions += sheaf.stalk_len(y, d) as u32;
        for edge in from..to {
            self.fill_edge(edge, sheaf.lower_rows(edge, d).rows());
        }
    }

    /// Goes on with the `count` equations of an edge.
    fn fill_edge(&mut self, edge: u32, count: u32)
        requires room { self.old.equations + count ≤ length self.old.places.items }
        requires few { self.old.equations + count < 2 ^ 32 }
        ensures equations { self.new.equations ≡ self.old.equations + count }
        ensures added { (i : ℕ) → i < count
            → slice_get self.new.places.items (self.old.equations + i) ≡ Some (record { edge = edge; coordinate = i }) }
        ensures kept { (k : ℕ) → k < self.old.equations
            → slice_get self.new.places.items k ≡ slice_get self.old.places.items k }
        ensures positions { self.new.positions ≡ self.old.positions }
        ensures starts { self.new.starts.items ≡ self.old.starts.items }
        ensures places { length self.new.places.items ≡ length self.old.places.items }
    {
        for coordinate in 0..count {
            self.places[self.equations as usize] = EquationPlace { edge, coordinate };
            self.equations += 1;
        }
    }
}
