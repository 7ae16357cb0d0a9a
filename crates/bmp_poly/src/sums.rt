//! Sums and multiples of lists of coefficients, in place.
ghost use Rattle.std.specs.Prelude.{◌≡◌, ℕ, ◌+◌, ◌*◌, ◌%◌, ◌<◌, length, All};
ghost use Rattle.bmp_poly.specs.Coefficients.{AreSums, AreMultiples};

use bmp_field::Field;

/// Adds the other coefficients, place by place.
pub fn add_coefficients<F: Field>(f: &F, sums: &mut [F::E], others: &[F::E])
    requires sized { length sums.old ≡ length others.now }
    requires values { All (F.is_value f.now) sums.old }
    requires others { All (F.is_value f.now) others.now }
    ensures values { All (F.is_value f.now) sums.new }
    ensures sums { AreSums (F.num f.now) (F.size f.now) sums.old others.now sums.new }
{
    for i in 0..sums.len() {
        sums[i] = f.add(sums[i], others[i]);
    }
}

/// Multiplies each coefficient by `c`.
pub fn scale_coefficients<F: Field>(f: &F, multiples: &mut [F::E], c: F::E)
    requires values { All (F.is_value f.now) multiples.old }
    requires factor { F.is_value f.now c }
    ensures values { All (F.is_value f.now) multiples.new }
    ensures multiples { AreMultiples (F.num f.now) (F.size f.now) (F.num f.now c) multiples.old multiples.new }
{
    for i in 0..multiples.len() {
        multiples[i] = f.mul(c, multiples[i]);
    }
}
