//! Why a Cartan matrix has no root system within the limits.
ghost use Rattle.std.specs.Prelude.{◌≡◌, length};

use thiserror::Error;

/// The limit that a pair breaks.
#[derive(Clone, Copy, Debug, PartialEq, Eq)]
pub enum FiniteKind {
    /// It would be the 73rd root pair.
    Pairs,
    /// A coordinate of the root or of the coroot is larger than 32 in size.
    Coordinate,
    /// The root has coordinates of both signs.
    Sign,
}

/// The first pair in the order of the closure that breaks a limit, and the first limit that it breaks: a coordinate,
/// the sign, or the number of pairs. Root and coroot have six coordinates; those past the rank are 0.
#[derive(Clone, Copy, Debug, PartialEq, Eq, Error)]
#[error("a root pair breaks a limit, so the root system is not finite")]
pub struct NotFinite {
    pub kind: FiniteKind,
    pub root: [i16; 6],
    pub coroot: [i16; 6],
    pub ghost six: { (length root ≡ 6) × (length coroot ≡ 6) },
}
