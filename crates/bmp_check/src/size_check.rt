//! Sizes compared one after the other.
ghost use Rattle.std.specs.Prelude.{◌≡◌, ◌+◌, ◌^◌, ◌<◌, [], ◌∷◌, length, OnOk};
ghost use Rattle.bmp_check.specs.Sizes.{is, at_most, each_at_most, size_comparison};
ghost use Rattle.bmp_check.specs.SizeChecks.{Compares};

use crate::Refusal;
use crate::need::need;
use bmp_cover::Kind;
use bmp_linear::Vectors;

/// Where the comparisons of a vertex and degree stand: so many were made.
#[derive(Clone, Copy, Debug)]
pub struct SizeCheck {
    pub(crate) vertex: u32,
    pub(crate) degree: u32,
    pub(crate) index: u64,
}

impl SizeCheck {
    /// The refusal of the next comparison.
    fn refusal(&self, left: u64, right: u64) -> Refusal
        ensures { result ≡ (size_comparison self.now.vertex self.now.degree self.now.index (is left right)).refusal }
    {
        Refusal {
            vertex: self.vertex,
            degree: self.degree,
            kind: Kind::Shape,
            index: self.index,
            place: 0,
            left,
            right,
        }
    }

    /// Compares two numbers that are to be equal.
    pub(crate) fn is(&mut self, left: u64, right: u64) -> Result<(), Refusal>
        requires { self.old.index < 2 ^ 63 }
        ensures compares { Compares self.old self.new (is left right ∷ []) result }
        ensures index { OnOk result (self.new.index ≡ self.old.index + 1) }
        ensures equal { OnOk result (left ≡ right) }
    {
        if left != right {
            return Err(self.refusal(left, right));
        }
        self.index += 1;
        Ok(())
    }

    /// Compares two numbers of which the first is not to be greater.
    pub(crate) fn at_most(&mut self, left: u64, right: u64) -> Result<(), Refusal>
        requires { self.old.index < 2 ^ 63 }
        ensures compares { Compares self.old self.new (at_most left right ∷ []) result }
        ensures index { OnOk result (self.new.index ≡ self.old.index + 1) }
    {
        if left > right {
            return Err(self.refusal(left, right));
        }
        self.index += 1;
        Ok(())
    }

    /// Compares the need of each vector with the same number.
    pub(crate) fn each_at_most(&mut self, vectors: &Vectors, most: u64) -> Result<(), Refusal>
        requires { self.old.index < 2 ^ 62 }
        ensures compares { Compares self.old self.new (each_at_most vectors.now most) result }
        ensures index { OnOk result (self.new.index ≡ self.old.index + length vectors.now) }
        ensures few { length vectors.now < 2 ^ 32 }
    {
        let count = vectors.len();
        'vectors: for i in 0..count {
            self.at_most(need(vectors.at(i)), most)?;
        }
        Ok(())
    }
}
