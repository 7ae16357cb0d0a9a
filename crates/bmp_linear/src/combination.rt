//! The check that rows combine to a vector.
ghost use Rattle.std.specs.Prelude.{◌≡◌, ℕ, ◌%◌, ◌<◌, ◌≤◌, length, slice_index, OnOk, IfErr};
ghost use Rattle.bmp_math.specs.Matrices.{Matrix, NumbersBelow, combination};
ghost use Rattle.bmp_linear.specs.SparseVectors.{FitsBelow, ValuesBelow, IsSpread, number_at};
ghost use Rattle.bmp_linear.specs.Faults.{AllPass, IsFirstFailure};
ghost use Rattle.bmp_linear.specs.RowChanges.{IsCombined};
ghost use Rattle.bmp_linear.specs.RowChecks.{ComparesCombination};

use crate::fault::RowFault;
use crate::rows::Rows;
use crate::scratch::{Scratch, clear};
use crate::vector::Vector;
use bmp_field::Field;

/// Writes the combination `c` of the rows.
pub(crate) fn combine<F: Field, A: Rows<F>>(f: &F, a: &A, c: &Vector, sums: &mut [u8])
    requires numbers { NumbersBelow (F.size f.now) (A.matrix a.now) }
    requires fits { FitsBelow c.now (A.matrix a.now).rows }
    requires values { ValuesBelow c.now (F.size f.now) }
    requires room { (A.matrix a.now).cols ≤ length sums.old }
    ensures { IsCombined (F.size f.now) (A.matrix a.now) (number_at c.now) sums.new }
{
    clear(sums);
    for entry in c.entries() {
        let factor = f.from_num(u32::from(entry.value));
        a.add_row_to(f, entry.place, factor, sums);
    }
}

/// Writes the combination `c` of the rows into the first row of the scratch. Takes no memory.
pub fn combine_rows<F: Field, A: Rows<F>>(f: &F, a: &A, c: &Vector, s: &mut Scratch)
    requires numbers { NumbersBelow (F.size f.now) (A.matrix a.now) }
    requires fits { FitsBelow c.now (A.matrix a.now).rows }
    requires values { ValuesBelow c.now (F.size f.now) }
    requires room { (A.matrix a.now).cols ≤ length s.old.first }
    ensures combined { IsCombined (F.size f.now) (A.matrix a.now) (number_at c.now) s.new.first }
    ensures scratch { length s.new.first ≡ length s.old.first }
    ensures second { s.new.second ≡ s.old.second }
{
    combine(f, a, c, s.first.as_mut_slice());
}

/// Compares the combination with the target, in two rows to work in.
fn check_columns<F: Field, A: Rows<F>>(
    f: &F,
    a: &A,
    c: &Vector,
    target: &Vector,
    sums: &mut [u8],
    numbers: &mut [u8],
) -> Result<(), RowFault>
    requires numbers { NumbersBelow (F.size f.now) (A.matrix a.now) }
    requires fits { FitsBelow c.now (A.matrix a.now).rows }
    requires values { ValuesBelow c.now (F.size f.now) }
    requires target_fits { FitsBelow target.now (A.matrix a.now).cols }
    requires sums_room { (A.matrix a.now).cols ≤ length sums.old }
    requires numbers_room { (A.matrix a.now).cols ≤ length numbers.old }
    ensures ok { OnOk result
        (AllPass (ComparesCombination (F.size f.now) (A.matrix a.now) c.now target.now)) }
    ensures fault { IfErr result
        (IsFirstFailure (ComparesCombination (F.size f.now) (A.matrix a.now) c.now target.now)) }
{
    combine(f, a, c, sums);
    target.spread(numbers);
    for j in 0..a.cols() {
        let left = u32::from(sums[j as usize]);
        let right = u32::from(numbers[j as usize]);
        if left != right {
            return Err(RowFault {
                index: 0,
                place: u64::from(j),
                left,
                right,
            });
        }
    }
    Ok(())
}

/// Compares the combination `c` of the rows with `target`, column by column. Takes no memory.
///
/// A fault has the index 0, the first column that differs, the combination's number there and the
/// target's.
pub fn check_combination<F: Field, A: Rows<F>>(
    f: &F,
    a: &A,
    c: &Vector,
    target: &Vector,
    s: &mut Scratch,
) -> Result<(), RowFault>
    requires numbers { NumbersBelow (F.size f.now) (A.matrix a.now) }
    requires fits { FitsBelow c.now (A.matrix a.now).rows }
    requires values { ValuesBelow c.now (F.size f.now) }
    requires target_fits { FitsBelow target.now (A.matrix a.now).cols }
    requires target_values { ValuesBelow target.now (F.size f.now) }
    requires room { (A.matrix a.now).cols ≤ length s.old.first }
    ensures ok { OnOk result
        (AllPass (ComparesCombination (F.size f.now) (A.matrix a.now) c.now target.now)) }
    ensures fault { IfErr result
        (IsFirstFailure (ComparesCombination (F.size f.now) (A.matrix a.now) c.now target.now)) }

    // The combination is the target.
    ensures combined { OnOk result
        ((j : ℕ) → j < (A.matrix a.now).cols
        → combination (number_at c.now) (A.matrix a.now).entry (A.matrix a.now).rows j % F.size f.now
        ≡ number_at target.now j) }
    ensures scratch { length s.new.first ≡ length s.old.first }
    ensures second { length s.new.second ≡ length s.old.second }
{
    let first = s.first.as_mut_slice();
    let second = s.second.as_mut_slice();
    check_columns(f, a, c, target, first, second)
}
