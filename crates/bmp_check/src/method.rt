//! How the evidence of blocks speaks of sections.
ghost use Rattle.std.specs.Prelude.{◌≡◌};
ghost use Rattle.bmp_check.specs.Methods.{method_of};

/// How the evidence of the blocks speaks of the sections over the vertices above theirs.
#[derive(Clone, Copy, Debug, PartialEq, Eq)]
pub enum Method {
    /// Each block has a basis of all these sections for itself (version 1).
    Spaces,
    /// All blocks of a degree and a length share a family of sections over the longer vertices (versions 2 and 3).
    Levels,
}

impl Method {
    /// That of evidence of this version.
    pub fn of(version: u8) -> Method
        ensures { result ≡ method_of version }
    {
        if version == 1 {
            Method::Spaces
        } else {
            Method::Levels
        }
    }
}
