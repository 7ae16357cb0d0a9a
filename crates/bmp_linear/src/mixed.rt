//! Rows that keep their entries while they are few.
ghost use Rattle.std.specs.Prelude.{◌≡◌, [], length};
ghost use Rattle.bmp_math.specs.Matrices.{Matrix};
ghost use Rattle.bmp_linear.specs.NumberRows.{NumberRows, matrix_of_rows};

use crate::entry_sums::{INLINE, entries_in};
use crate::mixed_row::MixedRow;
use crate::rows::{RowSpace, Rows};
use crate::vector::{Entry, Vector};
use bmp_field::Field;
use smallvec::SmallVec;
use std::alloc::{AllocError, Global};
use std::marker::{Model, PhantomData};
use std::mem;

/// Rows of a fixed number of columns. A row keeps its entries while it has one for every eight columns at most, and
/// each number from then on: what stays sparse takes time by its entries, and what fills by its columns.
#[derive(Drop)]
pub struct MixedRows<F: Field> {
    cols: u32,
    rows: Vec<MixedRow>,
    spare: SmallVec<Entry, INLINE>,
    of: PhantomData<F>,
}

impl<F: Field> Model for MixedRows<F> {
    ghost use Rattle.std.specs.Prelude.{◌^◌, ◌<◌, length};
    ghost use Rattle.bmp_linear.specs.NumberRows.{NumberRows, HaveLength};

    ghost Value = { NumberRows };

    ghost view = { λ m. record { cols = m.cols; rows = m.rows.items } };

    ghost invariant = { λ m.
        (length m.rows.items < 2 ^ 32) × (m.cols < 2 ^ 32) × HaveLength m.cols m.rows.items };
}

impl<F: Field> MixedRows<F> {
    /// No rows, of `cols` columns. Takes no memory.
    pub fn new(alloc: Global, cols: u32) -> MixedRows<F>
        ensures { result ≡ record { cols = cols; rows = [] } }
    {
        MixedRows {
            cols,
            rows: Vec::new(alloc),
            spare: SmallVec::new(alloc),
            of: PhantomData,
        }
    }
}

impl<F: Field> Rows<F> for MixedRows<F> {
    ghost matrix = { matrix_of_rows };

    fn rows(&self) -> u32 {
        self.rows.len() as u32
    }

    fn cols(&self) -> u32 {
        self.cols
    }

    fn at(&self, f: &F, i: u32, j: u32) -> F::E {
        let row = &self.rows[i as usize];
        f.from_num(u32::from(row.at(j)))
    }

    fn add_row_to(&self, f: &F, i: u32, c: F::E, sums: &mut [u8]) {
        let row = &self.rows[i as usize];
        row.add_to(f, c, &mut sums[..self.cols as usize]);
    }
}

impl<F: Field> RowSpace<F> for MixedRows<F> {
    fn push_row(&mut self, f: &F, row: &Vector) -> Result<(), AllocError> {
        let _ = f;
        if self.rows.len() >= u32::MAX as usize {
            return Err(AllocError);
        }
        let alloc = *self.rows.allocator();
        let more = MixedRow::of_entries(alloc, row.entries(), self.cols)?;
        self.rows.push(more)?;
        Ok(())
    }

    fn push_numbers(&mut self, f: &F, numbers: &[u8]) -> Result<(), AllocError> {
        let _ = f;
        if self.rows.len() >= u32::MAX as usize {
            return Err(AllocError);
        }
        let alloc = *self.rows.allocator();
        let entries = entries_in(alloc, numbers)?;
        let more = MixedRow::of_entries(alloc, entries.as_slice(), self.cols)?;
        self.rows.push(more)?;
        Ok(())
    }

    fn add_row(&mut self, f: &F, into: u32, from: u32, c: F::E) -> Result<(), AllocError> {
        let alloc = *self.rows.allocator();
        let zero = MixedRow::zero(alloc, self.cols);
        let row = mem::replace(&mut self.rows[from as usize], zero);
        let added = row.add_to_row(alloc, f, c, &mut self.rows[into as usize], &mut self.spare);
        self.rows[from as usize] = row;
        added
    }

    fn add_to_rows(&mut self, f: &F, from: u32, factors: &[u8]) -> Result<(), AllocError> {
        let alloc = *self.rows.allocator();
        let zero = MixedRow::zero(alloc, self.cols);
        let chosen = mem::replace(&mut self.rows[from as usize], zero);
        let rows = self.rows.as_mut_slice();
        let added = chosen.add_to_each(alloc, f, rows, from as usize, factors, &mut self.spare);
        self.rows[from as usize] = chosen;
        added
    }

    fn scale_row(&mut self, f: &F, i: u32, c: F::E) {
        self.rows[i as usize].scale(f, c);
    }

    fn swap_rows(&mut self, i: u32, j: u32) {
        self.rows.swap(i as usize, j as usize);
    }

    fn empty(&self, cols: u32) -> MixedRows<F> {
        MixedRows::new(*self.rows.allocator(), cols)
    }

    fn copy(&self) -> Result<MixedRows<F>, AllocError> {
        let alloc = *self.rows.allocator();
        let mut rows = Vec::with_capacity(alloc, self.rows.len())?;
        for row in &self.rows {
            rows.push(row.copy(alloc)?)?;
        }
        Ok(MixedRows {
            cols: self.cols,
            rows,
            spare: SmallVec::new(alloc),
            of: PhantomData,
        })
    }
}
