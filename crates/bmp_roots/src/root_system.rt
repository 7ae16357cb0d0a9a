//! The root system of a Cartan matrix: its root pairs, and the positive ones by their numbers.
ghost use Rattle.std.specs.Prelude.{◌≡◌, ◌≤◌, ◌<◌, ◌↔◌, ◌≤ℤ◌, ℕ, ℤ, pos, IsTrue, length};
ghost use Rattle.bmp_roots.specs.RootPairs.{HasCartanForm};
ghost use Rattle.bmp_roots.specs.Closing.{IsClosed};
ghost use Rattle.bmp_roots.specs.Pairs.{coordinates, pairs_of, positives_of};

use crate::cartan_matrix::Cartan;
use crate::closing::close_list;
use crate::pair_list::PairList;
use crate::refusal::NotFinite;

/// A Cartan matrix with its root pairs, of which there are at most 72. The positive ones are numbered from 0, in the
/// order of the closure.
#[derive(Debug, Drop)]
pub struct Roots {
    cartan: Cartan,
    pairs: PairList,
    positive: PairList,
    pub ghost form: { HasCartanForm cartan },
    pub ghost closed: { ∥ IsClosed cartan (pairs_of pairs) ∥₁ },
    pub ghost positives: { positive ≡ positives_of cartan.rank pairs },
}

// Whether none of the first `rank` coordinates is below 0.
fn is_positive(v: &[i16; 6], rank: usize) -> bool
    requires { rank ≤ 6 }
    ensures { IsTrue result ↔ ((j : ℕ) → j < rank → pos 0 ≤ℤ coordinates v.now j) }
{
    for j in 0..rank {
        if v[j] < 0 {
            return false;
        }
    }
    true
}

// The pairs with a positive root, in their order.
fn positive_list(pairs: &PairList, rank: usize) -> PairList
    requires { rank ≤ 6 }
    ensures { result ≡ positives_of rank pairs.now }
{
    let mut positive = PairList::new();
    let items = pairs.as_slice();
    for pair in items {
        if is_positive(&pair.root, rank) {
            positive.push(*pair);
        }
    }
    positive
}

impl Roots {
    ghost use Rattle.std.specs.Prelude.{IfOk, IfErr, OnOk, OnErr, slice_index_or};
    ghost use Rattle.bmp_roots.specs.RootPairs.{IsRootPair, IsPositive, IsZeroPast, IsSmall, AreRootPairs, HasFiniteSystem};
    ghost use Rattle.bmp_roots.specs.PositiveRoots.{ArePositiveRoots};
    ghost use Rattle.bmp_roots.specs.Pairs.{root_pair, IsRefused};
    ghost use Rattle.bmp_roots.specs.RootSystems.{matrix_of, list_of, positives, positive_roots_of};
    ghost use Rattle.bmp_roots.specs.declared.root_pair.Pair.{Pair};

    /// The root pairs of the matrix: the simple pairs in order, and then, pair by pair and reflection by reflection,
    /// each result that is not there yet. Each new pair is tested: no coordinate is larger than 32 in size, the root
    /// has not coordinates of both signs, and there are fewer than 72 pairs before it. The first pair that fails a test
    /// is the error.
    pub fn close(cartan: &Cartan) -> Result<Roots, NotFinite>
        ensures matrix { IfOk result (λ roots. matrix_of roots ≡ cartan.now) }
        ensures list { IfOk result (λ roots. IsClosed cartan.now (list_of roots)) }
        ensures pairs { IfOk result (λ roots. AreRootPairs cartan.now (list_of roots)) }
        ensures positive { IfOk result (λ roots. ArePositiveRoots cartan.now (positive_roots_of roots)) }
        ensures finite { OnOk result (HasFiniteSystem cartan.now) }
        ensures refused { IfErr result (λ e. IsRefused cartan.now e.kind (root_pair e.root e.coroot)) }
        ensures past_rank { IfErr result (λ e. IsZeroPast cartan.now.rank (root_pair e.root e.coroot)) }
        ensures not_finite { OnErr result (HasFiniteSystem cartan.now → ⊥) }
    {
        let pairs = close_list(cartan)?;
        let positive = positive_list(&pairs, cartan.rank());
        Ok(Roots {
            cartan: cartan.copied(),
            pairs,
            positive,
        })
    }

    /// The same root system once more.
    pub fn copied(&self) -> Roots
        ensures { result ≡ self.now }
    {
        Roots {
            cartan: self.cartan.copied(),
            pairs: self.pairs.copied(),
            positive: self.positive.copied(),
        }
    }

    /// The rank of the matrix, 1 to 6. The positive pairs that are kept are those of the matrix, each once.
    pub fn rank(&self) -> u8
        ensures value { result ≡ (matrix_of self.now).rank }
        ensures at_least_one { 1 ≤ result }
        ensures at_most_six { result ≤ 6 }
        ensures form { HasCartanForm (matrix_of self.now) }
        ensures finite { HasFiniteSystem (matrix_of self.now) }
        ensures positive { ArePositiveRoots (matrix_of self.now) (positive_roots_of self.now) }
    {
        self.cartan.rank() as u8
    }

    /// The matrix.
    pub fn cartan(&self) -> &Cartan
        ensures matrix { result.now ≡ matrix_of self.now }
        ensures form { HasCartanForm (matrix_of self.now) }
        ensures finite { HasFiniteSystem (matrix_of self.now) }
    {
        &self.cartan
    }

    /// The number of the positive roots, at most 36.
    pub fn positive(&self) -> u32
        ensures value { result ≡ length (positives self.now) }
        ensures few { result ≤ 36 }
    {
        self.positive.len() as u32
    }

    /// The i-th positive root, from 0 in the order of the closure, and its coroot. Coordinates are from -32 to 32.
    pub fn pair(&self, i: u32) -> ([i16; 6], [i16; 6])
        requires { i < length (positives self.now) }
        ensures root { (d : Pair) → result.0 ≡ (slice_index_or (positives self.now) i d).root }
        ensures coroot { (d : Pair) → result.1 ≡ (slice_index_or (positives self.now) i d).coroot }
        ensures is_pair { IsRootPair (matrix_of self.now) (root_pair result.0 result.1) }
        ensures positive { IsPositive (matrix_of self.now) (coordinates result.0) }
        ensures past_rank { IsZeroPast (matrix_of self.now).rank (root_pair result.0 result.1) }
        ensures small { IsSmall (root_pair result.0 result.1) }
    {
        let pair = self.positive.at(i as usize);
        let root = pair.root;
        let coroot = pair.coroot;
        (root, coroot)
    }
}
