//! The linear form of a positive root modulo a prime.
ghost use Rattle.std.specs.Prelude.{◌≡◌, ℕ, ℤ, pos, ◌+◌, ◌<◌, ◌≤◌, length, slice_index, slice_get, Some, MatchOption};
ghost use Rattle.bmp_math.specs.Integers.{IsWithin};
ghost use Rattle.bmp_roots.specs.Pairs.{coordinates, root_pair, pair_of};
ghost use Rattle.bmp_roots.specs.RootSystems.{matrix_of, positives};
ghost use Rattle.bmp_roots.specs.declared.root_pair.Pair.{Pair};
ghost use Rattle.bmp_bruhat.specs.Labels.{form_in, IsResidue, IsZeroForm, IsFormLabel};

use bmp_poly::{Label, LabelFault};
use bmp_roots::{Cartan, Roots};

/// A coordinate modulo a prime.
fn residue(coordinate: i32, prime: u8) -> u8
    requires prime { 2 ≤ prime }
    requires small { IsWithin 6144 coordinate }
    ensures { IsResidue prime coordinate result }
{
    coordinate.rem_euclid(prime as i32) as u8
}

/// The coordinate j, from 0, of the form of a root: by the simple roots, or by the fundamental weights.
fn coordinate(cartan: &Cartan, root: &[i16; 6], j: usize, weight: bool) -> i32
    requires place { j < cartan.now.rank }
    requires rank { cartan.now.rank ≤ 6 }
    requires small { (i : ℕ) → IsWithin 32 (coordinates root.now i) }
    ensures value { result ≡ form_in cartan.now weight (root_pair root.now root.now) j }
    ensures within { IsWithin 6144 result }
{
    if weight {
        return cartan.value(j as u8 + 1, root);
    }
    root[j] as i32
}

/// The coordinates of the form of a root modulo a prime, and 0 past the rank.
fn residues(cartan: &Cartan, root: &[i16; 6], prime: u8, weight: bool) -> [u8; 6]
    requires prime { 2 ≤ prime }
    requires rank { cartan.now.rank ≤ 6 }
    requires small { (i : ℕ) → IsWithin 32 (coordinates root.now i) }
    ensures residues { (j : ℕ) → j < cartan.now.rank
        → IsResidue prime (form_in cartan.now weight (root_pair root.now root.now) j) (slice_index result j) }
    ensures past { (j : ℕ) → cartan.now.rank ≤ j → slice_index result j ≡ 0 }
{
    let mut coords = [0; 6];
    for j in 0..cartan.rank() {
        coords[j] = residue(coordinate(cartan, root, j, weight), prime);
    }
    coords
}

/// The label of the edges of the positive root number i, or `None` where it would be zero.
pub fn root_label(roots: &Roots, i: u32, prime: u8, weight: bool) -> Option<Label>
    requires prime { 2 ≤ prime }
    requires root { i < length (positives roots.now) }
    ensures { (pair : Pair) → slice_get (positives roots.now) i ≡ Some pair → MatchOption result
        (IsZeroForm prime (matrix_of roots.now).rank (form_in (matrix_of roots.now) weight (pair_of pair)))
        (IsFormLabel prime (matrix_of roots.now).rank (form_in (matrix_of roots.now) weight (pair_of pair))) }
{
    let (root, _) = roots.pair(i);
    let coords = residues(roots.cartan(), &root, prime, weight);
    match Label::new(prime, roots.rank(), coords) {
        Ok(label) => Some(label),
        Err(LabelFault::Zero) => None,
        Err(LabelFault::Value { .. }) => unreachable!(),
    }
}
