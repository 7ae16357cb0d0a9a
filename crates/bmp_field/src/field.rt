//! What a field of numbers modulo a prime is.
ghost use Rattle.std.specs.Prelude.{◌≡◌, ◌≢◌, ◌↔◌, ℕ, ◌+◌, ◌*◌, ◌%◌, ◌<◌, IsTrue, length};
ghost use Rattle.bmp_field.specs.FieldLaws.{FieldLaws};
ghost use Rattle.bmp_field.specs.Runs.{AreBelow, IsMultipleAdded};

/// A field of `size` values, from 2 to 256 of them, each of which stands for a number below `size`.
///
/// Sums and products of values stand for the sums and products of their numbers modulo `size`, so
/// the laws of a field follow from those of numbers and from `laws`. Every call returns.
pub trait Field {
    /// A value, and maybe also things that are no values (`is_value` tells them apart).
    type E: Copy;

    /// How many values the field has.
    ghost size: { Self → ℕ };

    /// Holds of the values of the field.
    ghost is_value: { Self → Self.E → Type 0 };

    /// The number that a value stands for.
    ghost num: { Self → Self.E → ℕ };

    /// How many values the field has.
    fn size(&self) -> u32
        ensures { result ≡ size self.now };

    /// Whether `a` is a value of this field.
    fn is_value(&self, a: Self::E) -> bool
        ensures { IsTrue result ↔ is_value self.now a };

    /// The value of the number 0.
    fn zero(&self) -> Self::E
        ensures value { is_value self.now result }
        ensures number { num self.now result ≡ 0 };

    /// The value of the number 1.
    fn one(&self) -> Self::E
        ensures value { is_value self.now result }
        ensures number { num self.now result ≡ 1 };

    /// The sum of two values.
    fn add(&self, a: Self::E, b: Self::E) -> Self::E
        requires first { is_value self.now a }
        requires second { is_value self.now b }
        ensures value { is_value self.now result }
        ensures number { num self.now result ≡ (num self.now a + num self.now b) % size self.now };

    /// The value whose sum with `a` is zero.
    fn neg(&self, a: Self::E) -> Self::E
        requires { is_value self.now a }
        ensures value { is_value self.now result }
        ensures number { (num self.now a + num self.now result) % size self.now ≡ 0 };

    /// The product of two values.
    fn mul(&self, a: Self::E, b: Self::E) -> Self::E
        requires first { is_value self.now a }
        requires second { is_value self.now b }
        ensures value { is_value self.now result }
        ensures number { num self.now result ≡ (num self.now a * num self.now b) % size self.now };

    /// The value whose product with `a`, which isn't zero, is one.
    fn inv(&self, a: Self::E) -> Self::E
        requires value { is_value self.now a }
        requires not_zero { num self.now a ≢ 0 }
        ensures value { is_value self.now result }
        ensures number { (num self.now a * num self.now result) % size self.now ≡ 1 };

    /// The number that a value stands for.
    fn num(&self, a: Self::E) -> u32
        requires { is_value self.now a }
        ensures { result ≡ num self.now a };

    /// The value that stands for a number below `size`.
    fn from_num(&self, n: u32) -> Self::E
        requires { n < size self.now }
        ensures value { is_value self.now result }
        ensures number { num self.now result ≡ n };

    /// Adds `c` times each of the numbers `from` to the number at the same place of `into`.
    fn add_multiple(&self, c: Self::E, from: &[u8], into: &mut [u8])
        requires factor { is_value self.now c }
        requires as_many { length from.now ≡ length into.old }
        requires numbers { AreBelow (size self.now) from.now }
        requires sums { AreBelow (size self.now) into.old }
        ensures { IsMultipleAdded (size self.now) (num self.now c) from.now into.old into.new }
    {
        for (j, number) in into.iter_mut().enumerate() {
            let sum = self.from_num(u32::from(*number));
            let term = self.mul(c, self.from_num(u32::from(from[j])));
            *number = self.num(self.add(sum, term)) as u8;
        }
    }

    /// Values and the numbers below `size` are the same, and each number but 0 has an inverse.
    ghost laws: { FieldLaws size is_value num };
}
