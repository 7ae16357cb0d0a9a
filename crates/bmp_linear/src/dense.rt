//! Rows that keep each number.
ghost use Rattle.std.specs.Prelude.{◌≡◌, ℕ, ◌+◌, ◌*◌, ◌<◌, [], length, slice_index, OnOk, OnErr};
ghost use Rattle.bmp_math.specs.Matrices.{Matrix};
ghost use Rattle.bmp_linear.specs.RowTables.{NumberTable, matrix_of_numbers};

use crate::multiples::add_multiples;
use crate::rows::{RowSpace, Rows};
use crate::runs::{add_run, scale_run, swap_runs};
use crate::vector::Vector;
use bmp_field::Field;
use std::alloc::{AllocError, Global};
use std::marker::{Model, PhantomData};

/// Rows of a fixed number of columns, of which each number is kept, row after row in one run of bytes.
#[derive(Drop)]
pub struct DenseRows<F: Field> {
    rows: u32,
    cols: u32,
    numbers: Vec<u8>,
    of: PhantomData<F>,
}

impl<F: Field> Model for DenseRows<F> {
    ghost use Rattle.std.specs.Prelude.{◌≡◌, ◌*◌, ◌^◌, ◌<◌, length};
    ghost use Rattle.bmp_linear.specs.RowTables.{NumberTable};

    ghost Value = { NumberTable };

    ghost view = { λ d. record { rows = d.rows; cols = d.cols; numbers = d.numbers.items } };

    ghost invariant = { λ d.
        (d.rows < 2 ^ 32) × (d.cols < 2 ^ 32) × (length d.numbers.items ≡ d.rows * d.cols) };
}

impl<F: Field> DenseRows<F> {
    /// No rows, of `cols` columns. Takes no memory.
    pub fn new(alloc: Global, cols: u32) -> DenseRows<F>
        ensures { result ≡ record { rows = 0; cols = cols; numbers = [] } }
    {
        DenseRows {
            rows: 0,
            cols,
            numbers: Vec::new(alloc),
            of: PhantomData,
        }
    }
}

impl<F: Field> Rows<F> for DenseRows<F> {
    ghost matrix = { matrix_of_numbers };

    fn rows(&self) -> u32 {
        self.rows
    }

    fn cols(&self) -> u32 {
        self.cols
    }

    fn at(&self, f: &F, i: u32, j: u32) -> F::E {
        f.from_num(u32::from(self.numbers[i as usize * self.cols as usize + j as usize]))
    }

    fn add_row_to(&self, f: &F, i: u32, c: F::E, sums: &mut [u8]) {
        let cols = self.cols as usize;
        let start = i as usize * cols;
        let row = &self.numbers.as_slice()[start..start + cols];
        f.add_multiple(c, row, &mut sums[..cols]);
    }
}

impl<F: Field> RowSpace<F> for DenseRows<F> {
    fn push_row(&mut self, f: &F, row: &Vector) -> Result<(), AllocError> {
        let _ = f;
        if self.rows == u32::MAX {
            return Err(AllocError);
        }
        let start = self.numbers.len();
        self.numbers.resize(start + self.cols as usize, 0)?;
        for entry in row.entries() {
            self.numbers[start + entry.place as usize] = entry.value;
        }
        self.rows += 1;
        Ok(())
    }

    fn push_numbers(&mut self, f: &F, numbers: &[u8]) -> Result<(), AllocError> {
        let _ = f;
        if self.rows == u32::MAX {
            return Err(AllocError);
        }
        self.numbers.extend_from_slice(numbers)?;
        self.rows += 1;
        Ok(())
    }

    fn add_row(&mut self, f: &F, into: u32, from: u32, c: F::E) -> Result<(), AllocError> {
        let cols = self.cols as usize;
        let numbers = self.numbers.as_mut_slice();
        add_run(
            f,
            c,
            numbers,
            into as usize * cols,
            from as usize * cols,
            cols,
        );
        Ok(())
    }

    fn add_to_rows(&mut self, f: &F, from: u32, factors: &[u8]) -> Result<(), AllocError> {
        let alloc = *self.numbers.allocator();
        let cols = self.cols as usize;
        let numbers = self.numbers.as_mut_slice();
        add_multiples(alloc, f, numbers, cols, from as usize, factors)
    }

    fn scale_row(&mut self, f: &F, i: u32, c: F::E) {
        let cols = self.cols as usize;
        let numbers = self.numbers.as_mut_slice();
        scale_run(f, c, numbers, i as usize * cols, cols);
    }

    fn swap_rows(&mut self, i: u32, j: u32) {
        if i == j {
            return;
        }
        let cols = self.cols as usize;
        let numbers = self.numbers.as_mut_slice();
        swap_runs(numbers, i as usize * cols, j as usize * cols, cols);
    }

    fn empty(&self, cols: u32) -> DenseRows<F> {
        DenseRows::new(*self.numbers.allocator(), cols)
    }

    fn copy(&self) -> Result<DenseRows<F>, AllocError> {
        Ok(DenseRows {
            rows: self.rows,
            cols: self.cols,
            numbers: self.numbers.clone()?,
            of: PhantomData,
        })
    }
}
