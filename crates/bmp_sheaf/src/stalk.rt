//! One stalk of a sheaf in memory.
use crate::upper_maps::UpperMap;
use bmp_field::Field;
use bmp_linear::{SparseRows, Vectors};
use bmp_module::Free;
use std::alloc::Global;
use std::marker::Model;
use std::sync::Arc;

/// The stalk at a vertex, its lifts, and what is kept of the edges going up from it.
#[derive(Drop)]
pub(crate) struct StalkPart<F: Field> {
    pub(crate) module: Free,
    /// By edge, and then by generator.
    pub(crate) lifts: Vectors,
    /// By edge, and then by degree, the map from this stalk to the edge's module.
    pub(crate) lower: Vec<SparseRows<F>>,
    /// By edge, its module and the map from its upper end.
    pub(crate) uppers: Vec<Arc<UpperMap<F>, Global>>,
}

impl<F: Field> Model for StalkPart<F> {
    ghost use Rattle.std.specs.Prelude.{map};
    ghost use Rattle.std.specs.Arc.{arc_value};
    ghost use Rattle.bmp_module.specs.FreeModules.{rank_of, degrees_of};
    ghost use Rattle.bmp_sheaf.specs.StalkTables.{StalkTable};

    ghost Value = { StalkTable };

    ghost view = { λ s. record {
      rank = rank_of s.module;
      degrees = degrees_of s.module;
      lifts = s.lifts;
      lower = s.lower.items;
      uppers = map arc_value s.uppers.items;
    } };
}
