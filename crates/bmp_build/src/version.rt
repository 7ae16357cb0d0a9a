//! The version of certificates by levels.
ghost use Rattle.std.specs.Prelude.{◌≤◌};
ghost use Rattle.bmp_cert.specs.Versions.{IsVersionOf};

use bmp_cert::Lattice;

/// The version of the certificates by levels of a job with this lattice: 2 where it is plain, and else 3.
pub fn level_version(lattice: Lattice) -> u8
    ensures version { IsVersionOf lattice result }
    ensures levels { 2 ≤ result }
{
    match lattice {
        Lattice::Plain => 2,
        Lattice::Root | Lattice::Weight => 3,
    }
}
