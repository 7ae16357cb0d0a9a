//! The fewest places in which vectors fit.
ghost use Rattle.std.specs.Prelude.{◌≡◌};
ghost use Rattle.std.specs.List.Sorted.{IsStrictlyIncreasing};
ghost use Rattle.bmp_check.specs.Sizes.{need, need_of_places};

use bmp_linear::{Places, Vector};

/// The fewest places in which the vector fits: its last place is the greatest.
pub(crate) fn need(v: &Vector) -> u64
    ensures { result ≡ need v.now }
{
    match v.entries().last().copied() {
        Some(entry) => u64::from(entry.place) + 1,
        None => 0,
    }
}

/// The same of places that rise.
pub(crate) fn need_of_places(places: &Places) -> u64
    requires { IsStrictlyIncreasing places.now }
    ensures { result ≡ need_of_places places.now }
{
    match places.as_slice().last() {
        Some(place) => u64::from(*place) + 1,
        None => 0,
    }
}
