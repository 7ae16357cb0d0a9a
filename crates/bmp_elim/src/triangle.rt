//! Squares of numbers that are 0 behind the diagonal.
ghost use Rattle.std.specs.Prelude.{◌≡◌, ℕ, ◌+◌, ◌<◌, ◌≤◌, [], length, slice_index, OnOk, OnErr};
ghost use Rattle.bmp_math.specs.Matrices.{Matrix, NumbersBelow};
ghost use Rattle.bmp_field.specs.Runs.{AreBelow};
ghost use Rattle.bmp_elim.specs.Triangles.{TriangleTable, row_start, square_of, IsCornered};

use bmp_field::Field;
use bmp_linear::Rows;
use std::alloc::{AllocError, Global};
use std::marker::Model;

/// A square of numbers that are 0 behind the diagonal. Row k keeps its first k + 1 numbers, row after row in one
/// run of bytes.
#[derive(Drop)]
pub struct Triangle {
    rows: u32,
    numbers: Vec<u8>,
}

impl Model for Triangle {
    ghost use Rattle.std.specs.Prelude.{◌≡◌, ◌^◌, ◌<◌, length};
    ghost use Rattle.bmp_elim.specs.Triangles.{TriangleTable, row_start};

    ghost Value = { TriangleTable };

    ghost view = { λ t. record { rows = t.rows; numbers = t.numbers.items } };

    ghost invariant = { λ t. (t.rows < 2 ^ 32) × (length t.numbers.items ≡ row_start t.rows) };
}

impl Triangle {
    /// The square of no rows. Takes no memory.
    pub fn new(alloc: Global) -> Triangle
        ensures { result ≡ record { rows = 0; numbers = [] } }
    {
        Triangle {
            rows: 0,
            numbers: Vec::new(alloc),
        }
    }

    /// How many rows there are, and how many columns.
    pub fn size(&self) -> u32
        ensures { result ≡ (square_of self.now).rows }
    {
        self.rows
    }

    /// Appends a row, which ends on the diagonal, and a column that is 0 above it. Wants memory also where there are
    /// 2^32 - 1 rows.
    pub fn push(&mut self, numbers: &[u8]) -> Result<(), AllocError>
        requires { length numbers.now ≡ (square_of self.old).rows + 1 }
        ensures ok { OnOk result
            (IsCornered (square_of self.old) (square_of self.new) (slice_index numbers.now)) }
        ensures numbers { (p : ℕ) → AreBelow p numbers.now → NumbersBelow p (square_of self.old)
            → OnOk result (NumbersBelow p (square_of self.new)) }
        ensures err { OnErr result (self.new ≡ self.old) }
    {
        if self.rows == u32::MAX {
            return Err(AllocError);
        }
        self.numbers.extend_from_slice(numbers)?;
        self.rows += 1;
        Ok(())
    }

    /// The numbers of a row up to the diagonal.
    fn row(&self, i: u32) -> &[u8]
        requires { i < (square_of self.now).rows }
        ensures width { length result.now ≡ i + 1 }
        ensures numbers { (j : ℕ) → j ≤ i → slice_index result.now j ≡ (square_of self.now).entry i j }
    {
        let start = start_of(i);
        &self.numbers.as_slice()[start..start + i as usize + 1]
    }
}

/// Where a row begins, behind all rows before it.
fn start_of(row: u32) -> usize
    ensures { result ≡ row_start row }
{
    row as usize * (row as usize + 1) / 2
}

impl<F: Field> Rows<F> for Triangle {
    ghost matrix = { square_of };

    fn rows(&self) -> u32 {
        self.rows
    }

    fn cols(&self) -> u32 {
        self.rows
    }

    fn at(&self, f: &F, i: u32, j: u32) -> F::E {
        if j > i {
            return f.zero();
        }
        f.from_num(u32::from(self.row(i)[j as usize]))
    }

    fn add_row_to(&self, f: &F, i: u32, c: F::E, sums: &mut [u8]) {
        let row = self.row(i);
        f.add_multiple(c, row, &mut sums[..row.len()]);
    }
}
