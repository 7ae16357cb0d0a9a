//! Matrices of six by six small integers, row by row.
ghost use Rattle.std.specs.Prelude.{◌≡◌, ◌<◌, ◌≤◌, ◌↔◌, ℕ, length, IsTrue, ◌*ℤ◌};
ghost use Rattle.bmp_math.specs.Integers.{IsWithin};
ghost use Rattle.bmp_math.specs.IntegerSums.{integer_unit};
ghost use Rattle.bmp_roots.specs.Pairs.{coordinates};
ghost use Rattle.bmp_roots.specs.PositiveRoots.{has_negative};
ghost use Rattle.bmp_weyl.specs.Matrices.{cell, image, product_cell, HasSmallCells};

/// The entries of the matrix, row by row.
pub type Entries = [i8; 36];

#[inline]
fn entry_product(a: i8, b: i8) -> i32
    requires a { IsWithin 32 a }
    requires b { IsWithin 32 b }
    ensures value { result ≡ a *ℤ b }
    ensures within { IsWithin 1024 result }
{
    a as i32 * b as i32
}

#[inline]
fn coordinate_product(a: i16, b: i8) -> i32
    requires a { IsWithin 32 a }
    requires b { IsWithin 32 b }
    ensures value { result ≡ a *ℤ b }
    ensures within { IsWithin 1024 result }
{
    a as i32 * b as i32
}

// The entry of the product at row i and column j.
#[inline]
fn product_entry(x: &Entries, y: &Entries, i: usize, j: usize) -> i32
    requires x { HasSmallCells x.now }
    requires y { HasSmallCells y.now }
    requires row { i < 6 }
    requires column { j < 6 }
    ensures { result ≡ product_cell x.now y.now i j }
{
    let mut sum = 0;
    for l in 0..6 {
        sum += entry_product(x[i * 6 + l], y[l * 6 + j]);
    }
    sum
}

/// The product of two matrices whose product is small as well.
pub fn product_entries(x: &Entries, y: &Entries) -> Entries
    requires x { HasSmallCells x.now }
    requires y { HasSmallCells y.now }
    requires fits { (i j : ℕ) → i < 6 → j < 6 → IsWithin 32 (product_cell x.now y.now i j) }
    ensures places { length result ≡ 36 }
    ensures cells { (i j : ℕ) → i < 6 → j < 6 → cell result i j ≡ product_cell x.now y.now i j }
{
    let mut entries = [0; 36];
    for i in 0..6 {
        for j in 0..6 {
            entries[i * 6 + j] = product_entry(x, y, i, j) as i8;
        }
    }
    entries
}

/// The entry of the identity matrix at row i and column j.
#[inline]
pub fn unit_entry(i: usize, j: usize) -> i8
    ensures value { result ≡ integer_unit j i }
    ensures within { IsWithin 1 result }
{
    if i == j { 1 } else { 0 }
}

/// The identity matrix.
pub fn identity_entries() -> Entries
    ensures places { length result ≡ 36 }
    ensures cells { (i j : ℕ) → i < 6 → j < 6 → cell result i j ≡ integer_unit j i }
{
    let mut entries = [0; 36];
    for place in 0..36 {
        entries[place] = unit_entry(place / 6, place % 6);
    }
    entries
}

// Coordinate i of what the matrix makes of a vector.
#[inline]
fn image_entry(entries: &Entries, v: &[i16; 6], i: usize) -> i32
    requires cells { HasSmallCells entries.now }
    requires small { (j : ℕ) → IsWithin 32 (coordinates v.now j) }
    requires row { i < 6 }
    ensures { result ≡ image entries.now (coordinates v.now) i }
{
    let mut sum = 0;
    for l in 0..6 {
        sum += coordinate_product(v[l], entries[i * 6 + l]);
    }
    sum
}

/// Whether the matrix makes a coordinate of the vector below 0, among the first `rank` of them.
pub fn makes_negative(entries: &Entries, v: &[i16; 6], rank: usize) -> bool
    requires cells { HasSmallCells entries.now }
    requires small { (j : ℕ) → IsWithin 32 (coordinates v.now j) }
    requires rank { rank ≤ 6 }
    ensures { IsTrue result ↔ IsTrue (has_negative rank (image entries.now (coordinates v.now))) }
{
    for i in 0..rank {
        if image_entry(entries, v, i) < 0 {
            return true;
        }
    }
    false
}
