//! The maps from upper stalks to the modules of edges, kept by label and list of degrees.
ghost use Rattle.std.specs.Prelude.{◌≡◌, ◌↔◌, ℕ, ◌+◌, ◌<◌, ◌≤◌, All, [], IfOk, IfSome, IsTrue, map};
ghost use Rattle.std.specs.Arc.{arc_value};
ghost use Rattle.bmp_poly.specs.Labels.{prime_of, rank_of as label_rank_of};
ghost use Rattle.bmp_module.specs.FreeModules.{rank_of, degrees_of};
ghost use Rattle.bmp_module.specs.NormalTables.{label_of, degrees_of as table_degrees_of};
ghost use Rattle.bmp_module.specs.QuotientModules.{free_of, label_of as quotient_label_of};
ghost use Rattle.bmp_sheaf.specs.UpperTables.{IsUpperTable, AreUpperTables};

use crate::edge_maps::{generators, upper_rows};
use crate::label_tables::same_label;
use crate::shared_list::SharedList;
use bmp_field::Field;
use bmp_linear::SparseRows;
use bmp_module::{Free, NormalTable, Quotient};
use bmp_poly::Label;
use std::alloc::{AllocError, Global};
use std::marker::Model;
use std::sync::Arc;

/// The module of all edges that have one label and above which the stalks have generators of the same degrees, and the
/// map to it from such a stalk.
#[derive(Drop)]
pub(crate) struct UpperMap<F: Field> {
    pub(crate) quotient: Quotient,
    /// By degree, from 0 on.
    pub(crate) rows: Vec<SparseRows<F>>,
}

impl<F: Field> Model for UpperMap<F> {
    ghost use Rattle.bmp_sheaf.specs.UpperTables.{UpperTable};

    ghost Value = { UpperTable };

    ghost view = { λ s. record { quotient = s.quotient; rows = s.rows.items } };
}

/// The map of the stalk and the table's label, in the degrees from 0 to `degree`.
fn upper_map<F: Field>(
    alloc: Global,
    f: &F,
    table: &NormalTable,
    stalk: &Free,
    degree: u32,
) -> Result<UpperMap<F>, AllocError>
    requires prime { F.size f.now ≡ prime_of (label_of table.now) }
    requires rank { rank_of stalk.now ≡ label_rank_of (label_of table.now) }
    requires degrees { All (λ a. a ≤ 6) (degrees_of stalk.now) }
    requires degree { degree < table_degrees_of table.now }
    ensures label { IfOk result (λ u. quotient_label_of u.quotient ≡ label_of table.now) }
    ensures degrees { IfOk result (λ u. degrees_of (free_of u.quotient) ≡ degrees_of stalk.now) }
    ensures rows { IfOk result (λ u. IsUpperTable degree u) }
{
    let quotient = Quotient::new(alloc, stalk, table.label())?;
    let images = generators(alloc, f, &quotient)?;
    let mut rows = Vec::with_capacity(alloc, degree as usize + 1)?;
    for d in 0..degree + 1 {
        rows.push(upper_rows(alloc, f, table, &quotient, &images, d)?)?;
    }
    Ok(UpperMap { quotient, rows })
}

/// Whether the module is that of such a stalk modulo the label.
fn is_of(quotient: &Quotient, label: &Label, stalk: &Free) -> bool
    ensures { IsTrue result
        ↔ (quotient_label_of quotient.now ≡ label.now) × (degrees_of (free_of quotient.now) ≡ degrees_of stalk.now) }
{
    same_label(quotient.label(), label) && quotient.free().degrees() == stalk.degrees()
}

/// Maps that are kept, each of which is found by its label and its degrees.
#[derive(Drop)]
pub(crate) struct UpperMaps<F: Field> {
    pub(crate) maps: SharedList<UpperMap<F>>,
}

impl<F: Field> Model for UpperMaps<F> {
    ghost use Rattle.std.specs.Prelude.{List};
    ghost use Rattle.bmp_sheaf.specs.UpperTables.{UpperTable};

    ghost Value = { List UpperTable };

    ghost view = { λ s. s.maps };
}

impl<F: Field> UpperMaps<F> {
    /// No map.
    pub(crate) fn new(alloc: Global) -> Result<UpperMaps<F>, AllocError>
        ensures { IfOk result (λ maps. maps ≡ []) }
    {
        Ok(UpperMaps {
            maps: SharedList::with_capacity(alloc, 0)?,
        })
    }

    /// A list of the same maps.
    pub(crate) fn copy(&self) -> Result<UpperMaps<F>, AllocError>
        ensures { IfOk result (λ copy. copy ≡ self.now) }
    {
        Ok(UpperMaps {
            maps: self.maps.first(self.maps.len())?,
        })
    }

    /// Makes all maps one that other lists share at no cost.
    pub(crate) fn settle(&mut self) -> Result<(), AllocError>
        ensures { self.new ≡ self.old }
    {
        self.maps.settle()
    }

    /// The first map of such a stalk and the label. Looks through all that are kept.
    fn find(&self, label: &Label, stalk: &Free) -> Option<&Arc<UpperMap<F>, Global>>
        ensures label { IfSome result (λ u. quotient_label_of (arc_value u.now).quotient ≡ label.now) }
        ensures degrees { IfSome result (λ u. degrees_of (free_of (arc_value u.now).quotient) ≡ degrees_of stalk.now) }
        ensures rows { IfSome result (λ u. (D : ℕ) → AreUpperTables D self.now → IsUpperTable D (arc_value u.now)) }
    {
        for i in 0..self.maps.len() {
            let upper = self.maps.at(i);
            if is_of(&upper.quotient, label, stalk) {
                return Some(upper);
            }
        }
        None
    }

    /// The map of the stalk and the table's label, in the degrees from 0 to `degree`: one that is kept, or else a new
    /// one.
    pub(crate) fn shared(
        &self,
        f: &F,
        table: &NormalTable,
        stalk: &Free,
        degree: u32,
    ) -> Result<Arc<UpperMap<F>, Global>, AllocError>
        requires prime { F.size f.now ≡ prime_of (label_of table.now) }
        requires rank { rank_of stalk.now ≡ label_rank_of (label_of table.now) }
        requires degrees { All (λ a. a ≤ 6) (degrees_of stalk.now) }
        requires degree { degree < table_degrees_of table.now }
        requires tables { AreUpperTables degree self.now }
        ensures label { IfOk result (λ u. quotient_label_of (arc_value u).quotient ≡ label_of table.now) }
        ensures degrees { IfOk result (λ u. degrees_of (free_of (arc_value u).quotient) ≡ degrees_of stalk.now) }
        ensures rows { IfOk result (λ u. IsUpperTable degree (arc_value u)) }
    {
        if let Some(upper) = self.find(table.label(), stalk) {
            return Arc::try_clone(upper);
        }
        let alloc = self.maps.allocator();
        let made = upper_map(alloc, f, table, stalk, degree)?;
        Ok(Arc::new(alloc, made)?)
    }

    /// Keeps a map, unless there is one by its label and its degrees.
    fn keep(&mut self, upper: &Arc<UpperMap<F>, Global>) -> Result<(), AllocError>
        ensures { (D : ℕ) → AreUpperTables D self.old → IsUpperTable D (arc_value upper.now) →
            AreUpperTables D self.new }
    {
        if self
            .find(upper.quotient.label(), upper.quotient.free())
            .is_none()
        {
            self.maps.push(Arc::try_clone(upper)?)?;
        }
        Ok(())
    }

    /// Keeps each of the maps.
    pub(crate) fn keep_all(&mut self, uppers: &[Arc<UpperMap<F>, Global>]) -> Result<(), AllocError>
        ensures { (D : ℕ) → AreUpperTables D self.old → AreUpperTables D (map arc_value uppers.now) →
            AreUpperTables D self.new }
    {
        for upper in uppers {
            self.keep(upper)?;
        }
        Ok(())
    }
}
