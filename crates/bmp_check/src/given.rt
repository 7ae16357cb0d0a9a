//! What is checked besides a graph.
ghost use Rattle.std.specs.Prelude.{◌≡◌};
ghost use Rattle.bmp_check.specs.ShapedViews.{method_in};

use crate::method::Method;
use bmp_cert::Parts;

/// A degree bound, and the parts of the vertices of a moment graph, with evidence of a version.
#[derive(Clone, Copy)]
pub struct Given<'a> {
    pub degree: u32,
    pub version: u8,
    pub parts: &'a Parts,
}

impl Given<'_> {
    /// How the evidence speaks of sections.
    pub fn method(&self) -> Method
        ensures { result ≡ method_in self.now }
    {
        Method::of(self.version)
    }
}
