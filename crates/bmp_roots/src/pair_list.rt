//! A list of at most 72 pairs.
ghost use Rattle.std.specs.Prelude.{◌≡◌, ◌+◌, ◌<◌, ◌≤◌, ◌++◌, ◌∷◌, ℕ, List, [], length, take, slice_index_or};
ghost use Rattle.bmp_roots.specs.Pairs.{pair_of, pairs_of};
ghost use Rattle.bmp_roots.specs.declared.root_pair.Pair.{Pair};

use crate::root_pair::Pair;
use std::marker::Model;

/// At most 72 pairs, in the order in which they were pushed.
#[derive(Debug, Drop)]
pub struct PairList {
    pairs: [Pair; 72],
    count: usize,
}

impl Model for PairList {
    ghost use Rattle.std.specs.Prelude.{◌≡◌, ◌≤◌, List, length, take};
    ghost use Rattle.bmp_roots.specs.declared.root_pair.Pair.{Pair};

    ghost Value = { List Pair };

    ghost view = { λ p. take p.count p.pairs };

    ghost invariant = { λ p. (p.count ≤ 72) × (length p.pairs ≡ 72) };
}

impl PairList {
    /// No pairs.
    pub fn new() -> PairList
        ensures { result ≡ [] }
    {
        PairList {
            pairs: [Pair {
                root: [0; 6],
                coroot: [0; 6],
            }; 72],
            count: 0,
        }
    }

    /// The number of pairs.
    pub fn len(&self) -> usize
        ensures is { result ≡ length self.now }
        ensures within { result ≤ 72 }
    {
        self.count
    }

    /// The pair at a place, from 0.
    pub fn at(&self, i: usize) -> Pair
        requires { i < length self.now }
        ensures { result ≡ slice_index_or self.now i result }
    {
        let pairs = &self.pairs;
        pairs[i]
    }

    /// Appends a pair.
    pub fn push(&mut self, pair: Pair)
        requires { length self.old < 72 }
        ensures { self.new ≡ self.old ++ pair ∷ [] }
    {
        self.pairs[self.count] = pair;
        self.count += 1;
    }

    /// The same pairs once more.
    pub fn copied(&self) -> PairList
        ensures { result ≡ self.now }
    {
        PairList {
            pairs: self.pairs,
            count: self.count,
        }
    }

    /// The pairs.
    pub fn as_slice(&self) -> &[Pair]
        ensures value { result.now ≡ self.now }
        ensures within { length result.now ≤ 72 }
    {
        &self.pairs[..self.count]
    }
}
