//! Parts of vertices whose sizes all fit, with the sheaf that they write down.
ghost use Rattle.std.specs.Prelude.{◌≡◌};
ghost use Rattle.bmp_check.specs.ShapedViews.{graph_in, sizes_in, sheaf_in};

use crate::given::Given;
use crate::sizes::SizeTable;
use bmp_field::PrimeField;
use bmp_graph::MomentGraph;
use bmp_sheaf::Sheaf;

/// Parts of the vertices of a moment graph whose number and sizes all pass, and the sheaf that they write down on it.
#[derive(Drop)]
pub struct Shaped<'a> {
    pub(crate) graph: &'a MomentGraph,
    pub(crate) given: Given<'a>,
    pub(crate) sizes: SizeTable,
    pub(crate) sheaf: Sheaf<PrimeField>,
}

impl<'a> Shaped<'a> {
    /// The moment graph.
    pub fn graph(&self) -> &MomentGraph
        ensures { result.now ≡ graph_in self.now }
    {
        self.graph
    }

    /// The degree bound, the parts and the version of their evidence.
    pub fn given(&self) -> &Given<'a>
        ensures { result.now ≡ self.now.given }
    {
        &self.given
    }

    /// The sizes of the blocks.
    pub fn sizes(&self) -> &SizeTable
        ensures { result.now ≡ sizes_in self.now }
    {
        &self.sizes
    }

    /// The sheaf that is written down.
    pub fn sheaf(&self) -> &Sheaf<PrimeField>
        ensures { result.now ≡ sheaf_in self.now }
    {
        &self.sheaf
    }
}
