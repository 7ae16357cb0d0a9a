//! Rows that keep each number as a bit.
ghost use Rattle.std.specs.Prelude.{◌≡◌, ◌*◌, ◌<◌, [], length};
ghost use Rattle.bmp_math.specs.Matrices.{Matrix};
ghost use Rattle.bmp_packed.specs.Words.{width_of};
ghost use Rattle.bmp_packed.specs.WordTables.{WordTable, matrix_of_words};

use crate::bit_field::BitField;
use crate::row_words::{add_row_bits, append_entries, append_numbers, width};
use crate::runs::{add_run, swap_runs};
use bmp_linear::{RowSpace, Rows, Vector};
use std::alloc::{AllocError, Global};
use std::marker::Model;

/// Rows of a fixed number of columns over the field of two elements, of which each number is a bit: row
/// after row in one run of words, each row in words of its own. Past the last column a row's bits are 0.
#[derive(Drop)]
pub struct PackedRows {
    rows: u32,
    cols: u32,
    words: Vec<u64>,
}

impl Model for PackedRows {
    ghost use Rattle.std.specs.Prelude.{◌≡◌, ◌*◌, ◌^◌, ◌<◌, length};
    ghost use Rattle.bmp_packed.specs.Words.{width_of};
    ghost use Rattle.bmp_packed.specs.WordTables.{WordTable, HasNoBitsPast};

    ghost Value = { WordTable };

    ghost view = { λ r. record { rows = r.rows; cols = r.cols; words = r.words.items } };

    ghost invariant = { λ r.
        (r.rows < 2 ^ 32) × (r.cols < 2 ^ 32)
        × (length r.words.items ≡ r.rows * width_of r.cols)
        × HasNoBitsPast (record { rows = r.rows; cols = r.cols; words = r.words.items }) };
}

impl PackedRows {
    /// No rows, of `cols` columns. Takes no memory.
    pub fn new(alloc: Global, cols: u32) -> PackedRows
        ensures { result ≡ record { rows = 0; cols = cols; words = [] } }
    {
        PackedRows {
            rows: 0,
            cols,
            words: Vec::new(alloc),
        }
    }
}

impl Rows<BitField> for PackedRows {
    ghost matrix = { matrix_of_words };

    fn rows(&self) -> u32 {
        self.rows
    }

    fn cols(&self) -> u32 {
        self.cols
    }

    fn at(&self, f: &BitField, i: u32, j: u32) -> u8 {
        let _ = f;
        let word = self.words[i as usize * width(self.cols) + (j / 64) as usize];
        (word >> (j % 64) & 1) as u8
    }

    fn add_row_to(&self, f: &BitField, i: u32, c: u8, sums: &mut [u8]) {
        let _ = f;
        if c != 0 {
            let width = width(self.cols);
            let start = i as usize * width;
            let row = &self.words.as_slice()[start..start + width];
            add_row_bits(row, &mut sums[..self.cols as usize]);
        }
    }
}

impl RowSpace<BitField> for PackedRows {
    fn push_row(&mut self, f: &BitField, row: &Vector) -> Result<(), AllocError> {
        let _ = f;
        if self.rows == u32::MAX {
            return Err(AllocError);
        }
        append_entries(&mut self.words, self.cols, row.entries())?;
        self.rows += 1;
        Ok(())
    }

    fn push_numbers(&mut self, f: &BitField, numbers: &[u8]) -> Result<(), AllocError> {
        let _ = f;
        if self.rows == u32::MAX {
            return Err(AllocError);
        }
        append_numbers(&mut self.words, self.cols, numbers)?;
        self.rows += 1;
        Ok(())
    }

    fn add_row(&mut self, f: &BitField, into: u32, from: u32, c: u8) -> Result<(), AllocError> {
        let _ = f;
        if c != 0 {
            let width = width(self.cols);
            let words = self.words.as_mut_slice();
            add_run(words, into as usize * width, from as usize * width, width);
        }
        Ok(())
    }

    fn scale_row(&mut self, f: &BitField, i: u32, c: u8) {
        let _ = f;
        let _ = i;
        let _ = c;
    }

    fn swap_rows(&mut self, i: u32, j: u32) {
        if i == j {
            return;
        }
        let width = width(self.cols);
        let words = self.words.as_mut_slice();
        swap_runs(words, i as usize * width, j as usize * width, width);
    }

    fn empty(&self, cols: u32) -> PackedRows {
        PackedRows::new(*self.words.allocator(), cols)
    }

    fn copy(&self) -> Result<PackedRows, AllocError> {
        Ok(PackedRows {
            rows: self.rows,
            cols: self.cols,
            words: self.words.clone()?,
        })
    }
}
