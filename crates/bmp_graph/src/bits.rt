//! Rows of bits, as many columns as rows.
ghost use Rattle.std.specs.Prelude.{◌≡◌, ◌≢◌, ℕ, ◌*◌, ◌<◌, ◌≤◌, ◌↔◌, ◌⊎◌, vec_len, IsTrue, IfOk};

use std::alloc::{AllocError, Global};

/// A square of bits, row by row in words of 64 bits.
#[derive(Debug, Drop)]
pub struct BitRows {
    size: usize,
    /// The words of one row.
    words: usize,
    bits: Vec<u64>,
    ghost whole: { vec_len bits ≡ size * words },
    ghost wide: { size ≤ words * 64 },
}

impl BitRows {
    ghost use Rattle.bmp_graph.specs.Bits.{HasBit};

    /// No bit is set.
    pub fn new(alloc: Global, size: usize) -> Result<BitRows, AllocError>
        requires { size ≤ 4096 }
        ensures size { IfOk result (λ b. b.size ≡ size) }
        ensures none { IfOk result (λ b. (x y : ℕ) → HasBit b x y → ⊥) }
    {
        let words = size.div_ceil(64);
        Ok(BitRows {
            size,
            words,
            bits: vec![in alloc; 0; size * words]?,
        })
    }

    /// The same square again.
    pub fn copy(&self, alloc: Global) -> Result<BitRows, AllocError>
        ensures size { IfOk result (λ b. b.size ≡ self.now.size) }
        ensures bits { IfOk result (λ b. (x y : ℕ) → HasBit b x y ↔ HasBit self.now x y) }
    {
        Ok(BitRows {
            size: self.size,
            words: self.words,
            bits: Vec::from_slice(alloc, &self.bits)?,
        })
    }

    /// Whether the bit in this row and column is set.
    pub fn has(&self, row: usize, column: usize) -> bool
        requires row { row < self.now.size }
        requires column { column < self.now.size }
        ensures { IsTrue result ↔ HasBit self.now row column }
    {
        (self.bits[row * self.words + column / 64] >> (column % 64)) & 1 == 1
    }

    /// Sets the bit in this row and column.
    pub fn insert(&mut self, row: usize, column: usize)
        requires row { row < self.old.size }
        requires column { column < self.old.size }
        ensures size { self.new.size ≡ self.old.size }
        ensures bits { (x y : ℕ) → x < self.old.size → y < self.old.size →
            HasBit self.new x y ↔ (HasBit self.old x y ⊎ (x ≡ row) × (y ≡ column)) }
    {
        self.bits[row * self.words + column / 64] |= 1 << (column % 64);
    }

    /// Sets the bits of one row in another.
    pub fn merge(&mut self, row: usize, from: usize)
        requires row { row < self.old.size }
        requires from { from < self.old.size }
        requires apart { row ≢ from }
        ensures size { self.new.size ≡ self.old.size }
        ensures bits { (x y : ℕ) → x < self.old.size → y < self.old.size →
            HasBit self.new x y ↔ (HasBit self.old x y ⊎ (x ≡ row) × HasBit self.old from y) }
    {
        let (into, source) = (row * self.words, from * self.words);
        for word in 0..self.words {
            self.bits[into + word] |= self.bits[source + word];
        }
    }
}
