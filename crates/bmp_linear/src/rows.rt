//! Rows of numbers of a field.
ghost use Rattle.std.specs.Prelude.{◌≡◌, ◌≢◌, ℕ, ◌%◌, ◌<◌, ◌≤◌, length, slice_index, OnOk, OnErr, IfOk};
ghost use Rattle.bmp_math.specs.Matrices.{Matrix, NumbersBelow, image};
ghost use Rattle.bmp_field.specs.Runs.{AreBelow};
ghost use Rattle.bmp_linear.specs.SparseVectors.{FitsBelow, ValuesBelow, IsSpread, number_at};
ghost use Rattle.bmp_linear.specs.RowVectors.{IsRowVector};
ghost use Rattle.bmp_linear.specs.RowChanges.{IsRowPushed, IsRowAdded, IsRowMultiplied, AreRowsExchanged, AreMultiplesAdded, HoldsNumbers, IsRowAddedTo};

use crate::scratch::clear;
use crate::vector::Vector;
use bmp_field::Field;
use std::alloc::AllocError;

/// Rows of numbers of a field, all of one length: a matrix, in memory or as a view that keeps none.
///
/// The condition of every call that takes the field is that the numbers are below its size.
pub trait Rows<F: Field> {
    /// How many rows and columns there are, and the number at each.
    ghost matrix: { Self → Matrix };

    /// How many rows there are.
    fn rows(&self) -> u32
        ensures { result ≡ (matrix self.now).rows };

    /// How many numbers a row has.
    fn cols(&self) -> u32
        ensures { result ≡ (matrix self.now).cols };

    /// The number in the row `i` and the column `j`, as a value of the field.
    fn at(&self, f: &F, i: u32, j: u32) -> F::E
        requires numbers { NumbersBelow (F.size f.now) (matrix self.now) }
        requires row { i < (matrix self.now).rows }
        requires column { j < (matrix self.now).cols }
        ensures value { F.is_value f.now result }
        ensures number { F.num f.now result ≡ (matrix self.now).entry i j };

    /// The row `i` times a vector: the sum over the columns of the products of their numbers.
    fn value_at(&self, f: &F, i: u32, vector: &Vector) -> F::E
        requires numbers { NumbersBelow (F.size f.now) (matrix self.now) }
        requires row { i < (matrix self.now).rows }
        requires fits { FitsBelow vector.now (matrix self.now).cols }
        requires values { ValuesBelow vector.now (F.size f.now) }
        ensures value { F.is_value f.now result }
        ensures number { F.num f.now result ≡ image (matrix self.now) (number_at vector.now) i % F.size f.now }
    {
        let mut sum = f.zero();
        for entry in vector.entries() {
            let factor = f.from_num(u32::from(entry.value));
            sum = f.add(sum, f.mul(factor, self.at(f, i, entry.place)));
        }
        sum
    }

    /// The same as `value_at`, where the vector's numbers are at hand as a row too. For rows that are
    /// kept as entries.
    fn value_at_spread(&self, f: &F, i: u32, vector: &Vector, spread: &[u8]) -> F::E
        requires numbers { NumbersBelow (F.size f.now) (matrix self.now) }
        requires row { i < (matrix self.now).rows }
        requires fits { FitsBelow vector.now (matrix self.now).cols }
        requires values { ValuesBelow vector.now (F.size f.now) }
        requires spread { IsSpread vector.now (matrix self.now).cols spread.now }
        ensures value { F.is_value f.now result }
        ensures number { F.num f.now result ≡ image (matrix self.now) (number_at vector.now) i % F.size f.now }
    {
        let _ = spread;
        self.value_at(f, i, vector)
    }

    /// Adds `c` times the row `i` to a row of numbers.
    fn add_row_to(&self, f: &F, i: u32, c: F::E, sums: &mut [u8])
        requires numbers { NumbersBelow (F.size f.now) (matrix self.now) }
        requires row { i < (matrix self.now).rows }
        requires factor { F.is_value f.now c }
        requires sums { HoldsNumbers (F.size f.now) (matrix self.now).cols sums.old }
        ensures { IsRowAddedTo (F.size f.now) (matrix self.now) i (F.num f.now c) sums.old sums.new }
    {
        for j in 0..self.cols() {
            let sum = f.from_num(u32::from(sums[j as usize]));
            let term = f.mul(c, self.at(f, i, j));
            sums[j as usize] = f.num(f.add(sum, term)) as u8;
        }
    }

    /// Makes `vector` the vector of the row `i`, in a row of numbers to work in. Rows that are kept as
    /// entries hand these out. Where memory is wanting the vector may be any.
    fn read_row(
        &self,
        f: &F,
        i: u32,
        work: &mut [u8],
        vector: &mut Vector,
    ) -> Result<(), AllocError>
        requires numbers { NumbersBelow (F.size f.now) (matrix self.now) }
        requires row { i < (matrix self.now).rows }
        requires room { (matrix self.now).cols ≤ length work.old }
        ensures { OnOk result (IsRowVector (F.size f.now) (matrix self.now) i vector.new) }
    {
        let numbers = &mut work[..self.cols() as usize];
        clear(numbers);
        self.add_row_to(f, i, f.one(), numbers);
        vector.set_numbers(numbers)
    }
}

/// Rows in memory, which can be changed.
pub trait RowSpace<F: Field>: Rows<F> + Drop {
    /// Appends a row. Wants memory also where there are 2^32 - 1 rows.
    fn push_row(&mut self, f: &F, row: &Vector) -> Result<(), AllocError>
        requires fits { FitsBelow row.now (Self.matrix self.old).cols }
        requires values { ValuesBelow row.now (F.size f.now) }
        ensures ok { OnOk result (IsRowPushed (Self.matrix self.old) (Self.matrix self.new) (number_at row.now)) }
        ensures numbers { NumbersBelow (F.size f.now) (Self.matrix self.old)
            → OnOk result (NumbersBelow (F.size f.now) (Self.matrix self.new)) }
        ensures err { OnErr result (self.new ≡ self.old) };

    /// Appends the row of the numbers. Wants memory also where there are 2^32 - 1 rows.
    fn push_numbers(&mut self, f: &F, numbers: &[u8]) -> Result<(), AllocError>
        requires sized { length numbers.now ≡ (Self.matrix self.old).cols }
        requires values { AreBelow (F.size f.now) numbers.now }
        ensures ok { OnOk result
            (IsRowPushed (Self.matrix self.old) (Self.matrix self.new) (slice_index numbers.now)) }
        ensures numbers { NumbersBelow (F.size f.now) (Self.matrix self.old)
            → OnOk result (NumbersBelow (F.size f.now) (Self.matrix self.new)) }
        ensures err { OnErr result (self.new ≡ self.old) };

    /// Adds `c` times the row `from` to the row `into`.
    fn add_row(&mut self, f: &F, into: u32, from: u32, c: F::E) -> Result<(), AllocError>
        requires numbers { NumbersBelow (F.size f.now) (Self.matrix self.old) }
        requires into { into < (Self.matrix self.old).rows }
        requires from { from < (Self.matrix self.old).rows }
        requires apart { into ≢ from }
        requires factor { F.is_value f.now c }
        ensures ok { OnOk result
            (IsRowAdded (F.size f.now) (Self.matrix self.old) (Self.matrix self.new) into from (F.num f.now c)) }
        ensures numbers { OnOk result (NumbersBelow (F.size f.now) (Self.matrix self.new)) }
        ensures err { OnErr result (self.new ≡ self.old) };

    /// Adds to each row but `from` its factor times the row `from`: row `i` has the factor number `i`, and
    /// that of `from` is read by none. Where memory is wanting some rows may be changed and others not.
    fn add_to_rows(&mut self, f: &F, from: u32, factors: &[u8]) -> Result<(), AllocError>
        requires numbers { NumbersBelow (F.size f.now) (Self.matrix self.old) }
        requires from { from < (Self.matrix self.old).rows }
        requires as_many { length factors.now ≡ (Self.matrix self.old).rows }
        requires factors { AreBelow (F.size f.now) factors.now }
        ensures ok { OnOk result (AreMultiplesAdded (F.size f.now) (Self.matrix self.old) (Self.matrix self.new) from
            (slice_index factors.now)) }
        ensures numbers { OnOk result (NumbersBelow (F.size f.now) (Self.matrix self.new)) }
    {
        for i in 0..self.rows() {
            let c = factors[i as usize];
            if i != from && c != 0 {
                self.add_row(f, i, from, f.from_num(u32::from(c)))?;
            }
        }
        Ok(())
    }

    /// Multiplies the row `i` by `c`, which isn't zero.
    fn scale_row(&mut self, f: &F, i: u32, c: F::E)
        requires numbers { NumbersBelow (F.size f.now) (Self.matrix self.old) }
        requires row { i < (Self.matrix self.old).rows }
        requires factor { F.is_value f.now c }
        requires not_zero { F.num f.now c ≢ 0 }
        ensures multiplied { IsRowMultiplied (F.size f.now) (Self.matrix self.old) (Self.matrix self.new) i
            (F.num f.now c) }
        ensures numbers { NumbersBelow (F.size f.now) (Self.matrix self.new) };

    /// Exchanges two rows.
    fn swap_rows(&mut self, i: u32, j: u32)
        requires first { i < (Self.matrix self.old).rows }
        requires second { j < (Self.matrix self.old).rows }
        ensures exchanged { AreRowsExchanged (Self.matrix self.old) (Self.matrix self.new) i j }
        ensures numbers { (p : ℕ) → NumbersBelow p (Self.matrix self.old) → NumbersBelow p (Self.matrix self.new) };

    /// No rows, of `cols` columns, kept in the same way. Takes no memory.
    fn empty(&self, cols: u32) -> Self
        ensures rows { (Self.matrix result).rows ≡ 0 }
        ensures cols { (Self.matrix result).cols ≡ cols };

    /// Equal rows.
    fn copy(&self) -> Result<Self, AllocError>
        ensures { IfOk result (λ copy. copy ≡ self.now) };
}
