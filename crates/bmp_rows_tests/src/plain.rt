//! Matrices as plain numbers, and what the tests judge by.
use bmp_linear::{Entry, Places, Vector};
use std::alloc::{AllocError, Global};

/// A matrix as plain numbers, row after row. A place outside has 0.
#[derive(Drop)]
pub(crate) struct Plain {
    pub(crate) rows: u32,
    pub(crate) cols: u32,
    numbers: Vec<u8>,
}

impl Plain {
    pub(crate) fn of(
        alloc: Global,
        rows: u32,
        cols: u32,
        numbers: &[u8],
    ) -> Result<Plain, AllocError> {
        Ok(Plain {
            rows,
            cols,
            numbers: Vec::from_slice(alloc, numbers)?,
        })
    }

    pub(crate) fn zeros(alloc: Global, rows: u32, cols: u32) -> Result<Plain, AllocError> {
        let mut numbers = Vec::new(alloc);
        for _ in 0..rows {
            for _ in 0..cols {
                numbers.push(0)?;
            }
        }
        Ok(Plain {
            rows,
            cols,
            numbers,
        })
    }

    fn place(&self, i: u32, j: u32) -> usize {
        (i as usize)
            .wrapping_mul(self.cols as usize)
            .wrapping_add(j as usize)
    }

    pub(crate) fn at(&self, i: u32, j: u32) -> u8 {
        self.numbers.get(self.place(i, j)).copied().unwrap_or(0)
    }

    pub(crate) fn set(&mut self, i: u32, j: u32, number: u8) {
        let place = self.place(i, j);
        if let Some(kept) = self.numbers.get_mut(place) {
            *kept = number;
        }
    }

    /// What the row `i` says of the row `k` of `other`, modulo `p`.
    pub(crate) fn says(&self, p: u8, i: u32, other: &Plain, k: u32) -> u8 {
        let mut sum = 0u64;
        for j in 0..self.cols {
            let term = u64::from(self.at(i, j)) * u64::from(other.at(k, j));
            sum = sum.wrapping_add(term);
        }
        (sum % u64::from(p.max(1))) as u8
    }

    /// All numbers, row after row.
    pub(crate) fn numbers(&self) -> &[u8] {
        self.numbers.as_slice()
    }

    pub(crate) fn is_same(&self, other: &Plain) -> bool {
        (self.rows, self.cols) == (other.rows, other.cols) && self.numbers() == other.numbers()
    }

    /// The rows of these numbers, in their order.
    pub(crate) fn picked(&self, alloc: Global, rows: &[u32]) -> Result<Plain, AllocError> {
        let mut picked = Plain::of(alloc, 0, self.cols, &[])?;
        for i in rows {
            picked.push_row_of(self, *i)?;
        }
        Ok(picked)
    }

    /// The place of the first number of the row that isn't 0, or how many columns there are.
    pub(crate) fn leading(&self, i: u32) -> u32 {
        for j in 0..self.cols {
            if self.at(i, j) != 0 {
                return j;
            }
        }
        self.cols
    }

    /// Whether the column is 1 in the row, and 0 in the others.
    pub(crate) fn is_unit_column(&self, column: u32, row: u32) -> bool {
        for i in 0..self.rows {
            if self.at(i, column) != u8::from(i == row) {
                return false;
            }
        }
        true
    }

    /// The first row from `from` on that isn't 0 at the column.
    fn first_with(&self, from: u32, column: u32) -> Option<u32> {
        for i in from..self.rows {
            if self.at(i, column) != 0 {
                return Some(i);
            }
        }
        None
    }

    /// The rows as columns.
    pub(crate) fn turned(&self, alloc: Global) -> Result<Plain, AllocError> {
        let mut numbers = Vec::new(alloc);
        for j in 0..self.cols {
            for i in 0..self.rows {
                numbers.push(self.at(i, j))?;
            }
        }
        Ok(Plain {
            rows: self.cols,
            cols: self.rows,
            numbers,
        })
    }

    /// The rows from `from` on and below `end`.
    pub(crate) fn part(&self, alloc: Global, from: u32, end: u32) -> Result<Plain, AllocError> {
        let mut part = Plain::of(alloc, 0, self.cols, &[])?;
        for i in from..end {
            part.push_row_of(self, i)?;
        }
        Ok(part)
    }

    pub(crate) fn push_row_of(&mut self, other: &Plain, i: u32) -> Result<(), AllocError> {
        for j in 0..self.cols {
            self.numbers.push(other.at(i, j))?;
        }
        self.rows = self.rows.wrapping_add(1);
        Ok(())
    }

    pub(crate) fn vector(&self, alloc: Global, i: u32) -> Result<Vector, AllocError> {
        let mut vector = Vector::new(alloc);
        for j in 0..self.cols {
            let value = self.at(i, j);
            if value != 0 && vector.fits(j) {
                vector.push(Entry { place: j, value })?;
            }
        }
        Ok(vector)
    }

    pub(crate) fn push_vector(&mut self, vector: &Vector) -> Result<(), AllocError> {
        for j in 0..self.cols {
            let mut value = 0;
            for entry in vector.entries() {
                if entry.place == j {
                    value = entry.value;
                }
            }
            self.numbers.push(value)?;
        }
        self.rows = self.rows.wrapping_add(1);
        Ok(())
    }

    /// Takes multiples of the row `from` away from the row `into`, so that this is 0 at the column. Keeps
    /// the rank.
    fn clear(&mut self, p: u8, into: u32, from: u32, column: u32) {
        let here = u32::from(self.at(into, column));
        let there = u32::from(self.at(from, column));
        let p = u32::from(p.max(1));
        let minus = p * p - here % p;
        for j in 0..self.cols {
            let sum = there * u32::from(self.at(into, j)) + minus * u32::from(self.at(from, j));
            self.set(into, j, (sum % p) as u8);
        }
    }

    fn swap_rows(&mut self, i: u32, k: u32) {
        for j in 0..self.cols {
            let kept = self.at(i, j);
            self.set(i, j, self.at(k, j));
            self.set(k, j, kept);
        }
    }
}

/// Whether `left` times a matrix, of which `columns` are the columns, is `product`, modulo `p`.
pub(crate) fn multiplies(p: u8, left: &Plain, columns: &Plain, product: &Plain) -> bool {
    for i in 0..product.rows {
        for j in 0..product.cols {
            if left.says(p, i, columns, j) != product.at(i, j) {
                return false;
            }
        }
    }
    true
}

/// The columns that raise the rank of those before them, by elimination downward alone.
pub(crate) fn raising_columns(alloc: Global, p: u8, a: &Plain) -> Result<Places, AllocError> {
    let mut a = a.part(alloc, 0, a.rows)?;
    let mut raising = Places::new(alloc);
    for column in 0..a.cols {
        let rank = raising.len();
        if let Some(row) = a.first_with(rank, column) {
            a.swap_rows(rank, row);
            for i in rank.wrapping_add(1)..a.rows {
                a.clear(p, i, rank, column);
            }
            raising.push(column)?;
        }
    }
    Ok(raising)
}

/// The rank, by the columns that raise it.
pub(crate) fn rank(alloc: Global, p: u8, a: &Plain) -> Result<u32, AllocError> {
    Ok(raising_columns(alloc, p, a)?.len())
}
