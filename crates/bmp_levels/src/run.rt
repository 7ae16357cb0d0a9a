//! The values of a family's members at one vertex.
ghost use Rattle.std.specs.Prelude.{◌≡◌, ℕ, ◌+◌, ◌*◌, ◌^◌, ◌<◌, ◌≤◌, All, IfOk, length, replicate, slice_index};
ghost use Rattle.bmp_linear.specs.SparseVectors.{FitsBelow};
ghost use Rattle.bmp_levels.specs.Runs.{run_value, IsRunOf};

use crate::columns::write_vectors;
use bmp_linear::Vectors;
use std::alloc::{AllocError, Global};
use std::marker::Model;

/// The values of the members at one vertex: for each coordinate one run of bytes, a byte for each member that was there
/// when it was made. The values of later members are 0.
#[derive(Debug, Drop)]
pub(crate) struct Run {
    size: u32,
    count: u32,
    values: Vec<u8>,
}

impl Model for Run {
    ghost use Rattle.std.specs.Prelude.{◌≡◌, ◌*◌, ◌^◌, ◌<◌, length};
    ghost use Rattle.bmp_levels.specs.Runs.{RunTable};

    ghost Value = { RunTable };

    ghost view = { λ r. record { size = r.size; count = r.count; values = r.values.items } };

    ghost invariant = { λ r.
        (r.size < 2 ^ 32) × (r.count < 2 ^ 32) × (length r.values.items ≡ r.size * r.count) };
}

/// So many 0s.
fn zeros(alloc: Global, len: usize) -> Result<Vec<u8>, AllocError>
    ensures { IfOk result (λ numbers. numbers.items ≡ replicate len 0) }
{
    vec![in alloc; 0; len]
}

impl Run {
    /// The values at a vertex with `size` coordinates: the covers are those of the first members, and behind the
    /// `before` members that there are come the vectors of the basis.
    pub(crate) fn of(
        alloc: Global,
        size: u32,
        before: u32,
        covers: &Vectors,
        basis: &Vectors,
    ) -> Result<Run, AllocError>
        requires few { before + length basis.now < 2 ^ 32 }
        requires covers { length covers.now ≤ before }
        requires covers_fit { All (λ v. FitsBelow v size) covers.now }
        requires basis_fit { All (λ v. FitsBelow v size) basis.now }
        ensures { IfOk result (IsRunOf size before covers.now basis.now) }
    {
        let count = before + basis.len();
        let width = count as usize;
        let mut values = zeros(alloc, size as usize * width)?;
        write_vectors(&mut values, width, before as usize, covers, basis);
        Ok(Run {
            size,
            count,
            values,
        })
    }

    /// How many coordinates there are.
    pub(crate) fn size(&self) -> u32
        ensures { result ≡ self.now.size }
    {
        self.size
    }

    /// The coordinate `c` of the value of the member `j`.
    pub(crate) fn at(&self, j: u64, c: u64) -> u8
        requires { c < self.now.size }
        ensures { result ≡ run_value self.now j c }
    {
        let count = u64::from(self.count);
        if j >= count {
            return 0;
        }
        self.values[(c * count + j) as usize]
    }

    /// The coordinate `c` of the values, one byte for each member that was there.
    pub(crate) fn coordinate(&self, c: u32) -> &[u8]
        requires { c < self.now.size }
        ensures length { length result.now ≡ self.now.count }
        ensures values { (j : ℕ) → j < self.now.count → slice_index result.now j ≡ run_value self.now j c }
    {
        let start = c as usize * self.count as usize;
        &self.values[start..start + self.count as usize]
    }

    /// The coordinate `c` of the first `n` values: one byte for each of these members that was there.
    pub(crate) fn first(&self, c: u32, n: usize) -> &[u8]
        requires { c < self.now.size }
        ensures few { length result.now ≤ n }
        ensures values { (j : ℕ) → j < n → slice_index result.now j ≡ run_value self.now j c }
    {
        let numbers = self.coordinate(c);
        let count = numbers.len().min(n);
        &numbers[..count]
    }
}
