//! Vectors as columns of rows of bytes.
ghost use Rattle.std.specs.Prelude.{◌≡◌, ℕ, ◌+◌, ◌*◌, ◌<◌, ◌≤◌, All, length, slice_index};
ghost use Rattle.bmp_linear.specs.SparseVectors.{IsSparse, number_at};
ghost use Rattle.bmp_linear.specs.Evidence.{vector_at};
ghost use Rattle.bmp_levels.specs.Runs.{joined_value, IsColumnWritten, AreColumnsWritten};

use bmp_linear::{Entry, Vectors};

/// Writes the entries of a vector into a column of 0s, in rows of `width` numbers.
fn write_column(numbers: &mut [u8], width: usize, column: usize, entries: &[Entry])
    requires sparse { IsSparse entries.now }
    requires column { column < width }
    requires room { All (λ e. e.place * width + width ≤ length numbers.old) entries.now }
    requires clear { (c : ℕ) → slice_index numbers.old (c * width + column) ≡ 0 }
    ensures { IsColumnWritten width column (number_at entries.now) numbers.old numbers.new }
{
    for entry in entries {
        numbers[entry.place as usize * width + column] = entry.value;
    }
}

/// Writes the vectors into columns of 0s from `start` on, in rows of `width` numbers: one pass over their entries.
fn write_columns(numbers: &mut [u8], width: usize, start: usize, vectors: &Vectors)
    requires columns { start + length vectors.now ≤ width }
    requires room { All (λ v. All (λ e. e.place * width + width ≤ length numbers.old) v) vectors.now }
    requires clear { (c j : ℕ) → start ≤ j → j < start + length vectors.now
        → slice_index numbers.old (c * width + j) ≡ 0 }
    ensures { AreColumnsWritten width start (length vectors.now) (vector_at vectors.now) numbers.old numbers.new }
{
    for i in 0..vectors.len() {
        write_column(numbers, width, start + i as usize, vectors.at(i).entries());
    }
}

/// Writes the covers into the first columns of rows of `width` 0s, and the basis behind `before` columns.
pub(crate) fn write_vectors(
    numbers: &mut [u8],
    width: usize,
    before: usize,
    covers: &Vectors,
    basis: &Vectors,
)
    requires width { width ≡ before + length basis.now }
    requires covers { length covers.now ≤ before }
    requires covers_room { All (λ v. All (λ e. e.place * width + width ≤ length numbers.old) v) covers.now }
    requires basis_room { All (λ v. All (λ e. e.place * width + width ≤ length numbers.old) v) basis.now }
    requires clear { (i : ℕ) → slice_index numbers.old i ≡ 0 }
    ensures sized { length numbers.new ≡ length numbers.old }
    ensures values { (j c : ℕ) → j < width
        → slice_index numbers.new (c * width + j) ≡ joined_value before covers.now basis.now j c }
{
    write_columns(numbers, width, 0, covers);
    write_columns(numbers, width, before, basis);
}
