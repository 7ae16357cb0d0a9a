//! What is kept of a stalk that is added to a sheaf.
ghost use Rattle.std.specs.Prelude.{◌≡◌, ℕ, ◌+◌, ◌-◌, ◌*◌, ◌^◌, ◌<◌, ◌≤◌, All, length, map, IfOk, OnOk, OnErr};
ghost use Rattle.std.specs.Arc.{arc_value};
ghost use Rattle.bmp_linear.specs.SparseVectors.{ValuesBelow};
ghost use Rattle.bmp_module.specs.FreeModules.{rank_of, degrees_of};
ghost use Rattle.bmp_graph.specs.Graph.{vertex_count};
ghost use Rattle.bmp_sheaf.specs.Numbers.{lower_matrix};
ghost use Rattle.bmp_sheaf.specs.States.{Stalk, next_vertex, with_stalk, sheaf_of};
ghost use Rattle.bmp_sheaf.specs.StalkFaults.{IsStalk};
ghost use Rattle.bmp_sheaf.specs.StalkTables.{AreMapsUp, IsStalkTable, stalk_in};
ghost use Rattle.bmp_sheaf.specs.UpperTables.{AreUppers};

use crate::edge_maps::{lifted, lower_rows};
use crate::sheaf::Sheaf;
use crate::stalk::StalkPart;
use crate::upper_maps::UpperMap;
use bmp_field::Field;
use bmp_linear::{SparseRows, Vector, Vectors};
use bmp_module::Free;
use std::alloc::{AllocError, Global};
use std::sync::Arc;

/// Equal vectors, as a list.
fn copied(alloc: Global, vectors: &[Vector]) -> Result<Vectors, AllocError>
    ensures { IfOk result (λ copy. copy ≡ vectors.now) }
{
    let mut copy = Vectors::with_capacity(alloc, vectors.len())?;
    for vector in vectors {
        copy.push(vector.copy()?)?;
    }
    Ok(copy)
}

impl<F: Field> Sheaf<F> {
    /// By edge going up from `x`, the next vertex, the edge's module and the map to it from the edge's upper end.
    fn uppers_up(&self, x: u32) -> Result<Vec<Arc<UpperMap<F>, Global>>, AllocError>
        requires left { length self.now.stalks < vertex_count self.now.graph }
        requires next { x ≡ next_vertex self.now }
        ensures { IfOk result (λ uppers. AreUppers self.now x (map arc_value uppers.items)) }
    {
        let (first, past) = self.graph().up(x);
        let mut uppers = Vec::with_capacity(self.allocator(), (past - first) as usize)?;
        for e in first..past {
            let above = self.stalk(self.graph().edge(e).upper);
            let upper = self
                .kept_uppers()
                .shared(self.field(), self.table(e), above, self.degree())?;
            uppers.push(upper)?;
        }
        Ok(uppers)
    }

    /// By edge going up from `x`, the next vertex, and then by degree the map to the edge's module, where the stalk
    /// `from` with these lifts comes to `x`.
    fn lower_up(
        &self,
        x: u32,
        from: &Free,
        lifts: &[Vector],
        uppers: &[Arc<UpperMap<F>, Global>],
    ) -> Result<Vec<SparseRows<F>>, AllocError>
        requires left { length self.now.stalks < vertex_count self.now.graph }
        requires next { x ≡ next_vertex self.now }
        requires rank { rank_of from.now ≡ self.now.graph.rank }
        requires stalk { IsStalk self.now x (degrees_of from.now) lifts.now }
        requires values { All (λ v. ValuesBelow v self.now.graph.prime) lifts.now }
        requires uppers { AreUppers self.now x (map arc_value uppers.now) }
        ensures { let s = with_stalk self.now (record { degrees = degrees_of from.now; lifts = lifts.now }) in
            IfOk result (λ lower. AreMapsUp s x (lower_matrix s.graph (sheaf_of s)) lower.items) }
    {
        let alloc = self.allocator();
        let f = self.field();
        let generators = from.generators() as usize;
        let (first, past) = self.graph().up(x);
        let mut lower = Vec::new(alloc);
        for e in first..past {
            let start = (e - first) as usize * generators;
            let own = &lifts[start..start + generators];
            let table = self.table(e);
            let module = &uppers[(e - first) as usize].quotient;
            let images = lifted(alloc, f, module, from, own)?;
            for d in 0..self.degree() + 1 {
                let rows = lower_rows(alloc, f, table, module, from, own, &images, d)?;
                lower.push(rows)?;
            }
        }
        Ok(lower)
    }

    /// What is kept of the stalk with these degrees and lifts, which comes to `x`, the next vertex.
    pub(crate) fn new_part(
        &self,
        x: u32,
        degrees: &[u32],
        lifts: &[Vector],
    ) -> Result<StalkPart<F>, AllocError>
        requires left { length self.now.stalks < vertex_count self.now.graph }
        requires next { x ≡ next_vertex self.now }
        requires few { length degrees.now < 2 ^ 32 }
        requires stalk { IsStalk self.now x degrees.now lifts.now }
        requires values { All (λ v. ValuesBelow v self.now.graph.prime) lifts.now }
        ensures stalk { IfOk result (λ part. stalk_in part ≡ record { degrees = degrees.now; lifts = lifts.now }) }
        ensures table { IfOk result (λ part. IsStalkTable (with_stalk self.now (stalk_in part)) x part) }
    {
        let alloc = self.allocator();
        let module = Free::new(alloc, self.graph().rank(), degrees)?;
        let uppers = self.uppers_up(x)?;
        let lower = self.lower_up(x, &module, lifts, &uppers)?;
        let lifts = copied(alloc, lifts)?;
        Ok(StalkPart {
            module,
            lifts,
            lower,
            uppers,
        })
    }

    /// Adds what is kept of the stalk at the next vertex, and keeps the maps from the upper ends for vertices to come.
    pub(crate) fn add(&mut self, part: Arc<StalkPart<F>, Global>) -> Result<(), AllocError>
        requires left { length self.old.stalks < vertex_count self.old.graph }
        requires table { IsStalkTable (with_stalk self.old (stalk_in (arc_value part))) (next_vertex self.old)
            (arc_value part) }
        ensures ok { OnOk result (self.new ≡ with_stalk self.old (stalk_in (arc_value part))) }
        ensures err { OnErr result (self.new ≡ self.old) }
    {
        self.uppers.keep_all(&part.uppers)?;
        self.stalks.push(part)?;
        Ok(())
    }
}
