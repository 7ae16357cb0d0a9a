//! Rows that keep their entries.
ghost use Rattle.std.specs.Prelude.{◌≡◌, ◌<◌, [], length, slice_index_or};
ghost use Rattle.bmp_math.specs.Matrices.{Matrix};
ghost use Rattle.bmp_linear.specs.RowTables.{EntryTable, matrix_of_entries};
ghost use Rattle.bmp_linear.specs.SparseVectors.{IsSparse, FitsBelow};

use crate::entries::{add_entries, number_in, product, value_of};
use crate::entry_sums::{INLINE, entries_in, scale_entries, sum_of_entries};
use crate::rows::{RowSpace, Rows};
use crate::vector::{Entry, Vector};
use bmp_field::Field;
use smallvec::SmallVec;
use std::alloc::{AllocError, Global};
use std::marker::{Model, PhantomData};
use std::mem;

/// Rows of a fixed number of columns, each kept as its entries. A sum is made in spare entries, which are then
/// exchanged with the row's.
#[derive(Drop)]
pub struct SparseRows<F: Field> {
    cols: u32,
    rows: Vec<SmallVec<Entry, INLINE>>,
    spare: SmallVec<Entry, INLINE>,
    of: PhantomData<F>,
}

impl<F: Field> Model for SparseRows<F> {
    ghost use Rattle.std.specs.Prelude.{◌≡◌, ◌^◌, ◌<◌, length, map, All};
    ghost use Rattle.bmp_linear.specs.RowTables.{EntryTable, entries_of};
    ghost use Rattle.bmp_linear.specs.SparseVectors.{IsSparse, FitsBelow};

    ghost Value = { EntryTable };

    ghost view = { λ s. record { cols = s.cols; rows = map entries_of s.rows.items } };

    ghost invariant = { λ s.
        (length s.rows.items < 2 ^ 32) × (s.cols < 2 ^ 32)
        × All (λ r. IsSparse r.items) s.rows.items
        × All (λ r. FitsBelow r.items s.cols) s.rows.items };
}

impl<F: Field> SparseRows<F> {
    /// No rows, of `cols` columns. Takes no memory.
    pub fn new(alloc: Global, cols: u32) -> SparseRows<F>
        ensures { result ≡ record { cols = cols; rows = [] } }
    {
        SparseRows {
            cols,
            rows: Vec::new(alloc),
            spare: SmallVec::new(alloc),
            of: PhantomData,
        }
    }

    /// The entries of the row `i`: their places rise and are below the number of columns, and no value
    /// is 0.
    pub fn row(&self, i: u32) -> &[Entry]
        requires { i < length self.now.rows }
        ensures entries { result.now ≡ slice_index_or self.now.rows i [] }
        ensures sparse { IsSparse result.now }
        ensures fits { FitsBelow result.now self.now.cols }
    {
        self.rows[i as usize].as_slice()
    }
}

impl<F: Field> Rows<F> for SparseRows<F> {
    ghost matrix = { matrix_of_entries };

    fn rows(&self) -> u32 {
        self.rows.len() as u32
    }

    fn cols(&self) -> u32 {
        self.cols
    }

    fn at(&self, f: &F, i: u32, j: u32) -> F::E {
        let row = &self.rows[i as usize];
        f.from_num(u32::from(number_in(row.as_slice(), j)))
    }

    fn value_at(&self, f: &F, i: u32, vector: &Vector) -> F::E {
        let row = &self.rows[i as usize];
        product(f, row.as_slice(), vector.entries())
    }

    fn value_at_spread(&self, f: &F, i: u32, vector: &Vector, spread: &[u8]) -> F::E {
        let _ = vector;
        let row = &self.rows[i as usize];
        value_of(f, row.as_slice(), spread)
    }

    fn add_row_to(&self, f: &F, i: u32, c: F::E, sums: &mut [u8]) {
        let row = &self.rows[i as usize];
        add_entries(f, c, row.as_slice(), sums);
    }

    fn read_row(
        &self,
        f: &F,
        i: u32,
        work: &mut [u8],
        vector: &mut Vector,
    ) -> Result<(), AllocError> {
        let _ = f;
        let _ = work;
        let row = &self.rows[i as usize];
        vector.set_entries(row.as_slice())
    }
}

impl<F: Field> RowSpace<F> for SparseRows<F> {
    fn push_row(&mut self, f: &F, row: &Vector) -> Result<(), AllocError> {
        let _ = f;
        if self.rows.len() >= u32::MAX as usize {
            return Err(AllocError);
        }
        let entries = SmallVec::from_slice(*self.rows.allocator(), row.entries())?;
        self.rows.push(entries)?;
        Ok(())
    }

    fn push_numbers(&mut self, f: &F, numbers: &[u8]) -> Result<(), AllocError> {
        let _ = f;
        if self.rows.len() >= u32::MAX as usize {
            return Err(AllocError);
        }
        let entries = entries_in(*self.rows.allocator(), numbers)?;
        self.rows.push(entries)?;
        Ok(())
    }

    fn add_row(&mut self, f: &F, into: u32, from: u32, c: F::E) -> Result<(), AllocError> {
        let first = self.rows[into as usize].as_slice();
        let second = self.rows[from as usize].as_slice();
        sum_of_entries(f, c, first, second, &mut self.spare)?;
        mem::swap(&mut self.rows[into as usize], &mut self.spare);
        Ok(())
    }

    fn scale_row(&mut self, f: &F, i: u32, c: F::E) {
        let row = &mut self.rows[i as usize];
        scale_entries(f, c, row.as_mut_slice());
    }

    fn swap_rows(&mut self, i: u32, j: u32) {
        self.rows.swap(i as usize, j as usize);
    }

    fn empty(&self, cols: u32) -> SparseRows<F> {
        SparseRows::new(*self.rows.allocator(), cols)
    }

    fn copy(&self) -> Result<SparseRows<F>, AllocError> {
        let alloc = *self.rows.allocator();
        let mut rows = Vec::with_capacity(alloc, self.rows.len())?;
        for row in &self.rows {
            rows.push(SmallVec::from_slice(alloc, row.as_slice())?)?;
        }
        Ok(SparseRows {
            cols: self.cols,
            rows,
            spare: SmallVec::new(alloc),
            of: PhantomData,
        })
    }
}
