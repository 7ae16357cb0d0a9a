//! Sheaves that share what is kept of their stalks.
ghost use Rattle.std.specs.Prelude.{◌≡◌, ℕ, ◌+◌, ◌-◌, ◌<◌, ◌≤◌, length, take, IfOk, OnOk, OnErr};
ghost use Rattle.bmp_graph.specs.Graph.{vertex_count, edge_count, lower, upper};
ghost use Rattle.bmp_sheaf.specs.States.{stalk_of, next_vertex, with_stalk};

use crate::sheaf::Sheaf;
use bmp_field::Field;
use std::alloc::AllocError;
use std::sync::Arc;

impl<F: Field> Sheaf<F> {
    /// Lets other sheaves share the stalks that are there at no cost.
    pub(crate) fn settle_stalks(&mut self) -> Result<(), AllocError>
        ensures { self.new ≡ self.old }
    {
        self.stalks.settle()
    }

    /// Lets other sheaves share the maps from upper ends that are kept at no cost.
    pub(crate) fn settle_uppers(&mut self) -> Result<(), AllocError>
        ensures { self.new ≡ self.old }
    {
        self.uppers.settle()
    }

    /// The sheaf of the first `count` stalks, which shares what is kept of them with this one.
    pub fn first(&self, count: u32) -> Result<Sheaf<F>, AllocError>
        requires { count ≤ length self.now.stalks }
        ensures { IfOk result (λ s. s ≡ record self.now { stalks = take count self.now.stalks }) }
    {
        let stalks = self.stalks.first(count as usize)?;
        let uppers = self.uppers.copy()?;
        Ok(Sheaf {
            setting: Arc::try_clone(&self.setting)?,
            uppers,
            stalks,
        })
    }

    /// Adds, at the greatest vertex whose stalk isn't there, the last stalk of a sheaf that has the same stalks at the
    /// upper ends of the edges going up from there: what is kept of it is taken over and not made again.
    pub fn adopt(&mut self, other: &Sheaf<F>) -> Result<(), AllocError>
        requires left { length self.old.stalks < vertex_count self.old.graph }
        requires graph { other.now.graph ≡ self.old.graph }
        requires degree { other.now.degree ≡ self.old.degree }
        requires count { length other.now.stalks ≡ length self.old.stalks + 1 }
        requires above { (e : ℕ) → e < edge_count self.old.graph → lower self.old.graph e ≡ next_vertex self.old →
            stalk_of other.now (upper self.old.graph e) ≡ stalk_of self.old (upper self.old.graph e) }
        ensures ok { OnOk result (self.new ≡ with_stalk self.old (stalk_of other.now (next_vertex self.old))) }
        ensures err { OnErr result (self.new ≡ self.old) }
    {
        let x = self.graph().vertices() - 1 - self.pushed();
        let part = Arc::try_clone(other.shared_part(x))?;
        self.add(part)
    }
}
