//! The tests that a new pair must pass.
ghost use Rattle.std.specs.Prelude.{◌≡◌, ◌<◌, ◌≤◌, ◌↔◌, ℕ, ℤ, pos, IsTrue, map, ◌<ℤ◌};
ghost use Rattle.bmp_math.specs.Lists.{Member};
ghost use Rattle.bmp_math.specs.Integers.{IsWithin};
ghost use Rattle.bmp_roots.specs.RootPairs.{IsSmall, HasOneSign};
ghost use Rattle.bmp_roots.specs.Pairs.{coordinates, pair_of, pairs_of};

use crate::root_pair::Pair;

fn is_small_vector(v: &[i16; 6]) -> bool
    ensures { IsTrue result ↔ ((j : ℕ) → IsWithin 32 (coordinates v.now j)) }
{
    for x in v {
        if *x < -32 || *x > 32 {
            return false;
        }
    }
    true
}

/// Whether each coordinate is from -32 to 32.
pub fn is_small(pair: &Pair) -> bool
    ensures { IsTrue result ↔ IsSmall (pair_of pair.now) }
{
    is_small_vector(&pair.root) && is_small_vector(&pair.coroot)
}

fn has_below(v: &[i16; 6]) -> bool
    ensures { IsTrue result ↔ ((j : ℕ) × (coordinates v.now j <ℤ pos 0)) }
{
    for x in v {
        if *x < 0 {
            return true;
        }
    }
    false
}

fn has_above(v: &[i16; 6]) -> bool
    ensures { IsTrue result ↔ ((j : ℕ) × (pos 0 <ℤ coordinates v.now j)) }
{
    for x in v {
        if *x > 0 {
            return true;
        }
    }
    false
}

/// Whether the root has not coordinates of both signs.
pub fn has_one_sign(pair: &Pair) -> bool
    ensures { IsTrue result ↔ HasOneSign (pair_of pair.now) }
{
    !(has_below(&pair.root) && has_above(&pair.root))
}

fn is_same_vector(a: &[i16; 6], b: &[i16; 6]) -> bool
    ensures { IsTrue result ↔ (a.now ≡ b.now) }
{
    a == b
}

fn has_same_lists(a: &Pair, b: &Pair) -> bool
    ensures { IsTrue result ↔ ((a.now.root ≡ b.now.root) × (a.now.coroot ≡ b.now.coroot)) }
{
    is_same_vector(&a.root, &b.root) && is_same_vector(&a.coroot, &b.coroot)
}

// Six coordinates tell pairs apart.
fn is_same(a: &Pair, b: &Pair) -> bool
    ensures { IsTrue result ↔ (pair_of a.now ≡ pair_of b.now) }
{
    has_same_lists(a, b)
}

/// Whether the pair is one of the list.
pub fn contains(pairs: &[Pair], pair: &Pair) -> bool
    ensures { IsTrue result ↔ Member (pair_of pair.now) (pairs_of pairs.now) }
{
    for p in pairs {
        if is_same(pair, p) {
            return true;
        }
    }
    false
}
