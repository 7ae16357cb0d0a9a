//! The check that a form is dual to a row.
ghost use Rattle.std.specs.Prelude.{◌≡◌, ℕ, ◌%◌, ◌<◌, OnOk, IfErr};
ghost use Rattle.bmp_math.specs.Vectors.{unit};
ghost use Rattle.bmp_math.specs.Matrices.{Matrix, NumbersBelow, image};
ghost use Rattle.bmp_linear.specs.SparseVectors.{FitsBelow, ValuesBelow, number_at};
ghost use Rattle.bmp_linear.specs.Faults.{AllPass, IsFirstFailure};
ghost use Rattle.bmp_linear.specs.RowChecks.{ComparesDual};

use crate::fault::RowFault;
use crate::rows::Rows;
use crate::vector::Vector;
use bmp_field::Field;

/// 1 at its own place, 0 elsewhere.
pub(crate) fn one_at(own: u32, place: u32) -> u32
    ensures { result ≡ unit own place }
{
    if own == place { 1 } else { 0 }
}

/// Compares the values of a form on the rows with 1 at the row `own` and 0 at the others. Takes no
/// memory.
///
/// A fault has the index `own`, the first row that fails, the form's value there, and 1 or 0.
pub fn check_dual<F: Field, A: Rows<F>>(
    f: &F,
    a: &A,
    form: &Vector,
    own: u32,
) -> Result<(), RowFault>
    requires numbers { NumbersBelow (F.size f.now) (A.matrix a.now) }
    requires fits { FitsBelow form.now (A.matrix a.now).cols }
    requires values { ValuesBelow form.now (F.size f.now) }
    requires own { own < (A.matrix a.now).rows }
    ensures ok { OnOk result (AllPass (ComparesDual (F.size f.now) (A.matrix a.now) form.now own)) }
    ensures fault { IfErr result (IsFirstFailure (ComparesDual (F.size f.now) (A.matrix a.now) form.now own)) }

    // The form is 1 on its own row and 0 on the others.
    ensures dual { OnOk result
        ((i : ℕ) → i < (A.matrix a.now).rows
        → image (A.matrix a.now) (number_at form.now) i % F.size f.now ≡ unit own i) }
{
    for i in 0..a.rows() {
        let left = f.num(a.value_at(f, i, form));
        let right = one_at(own, i);
        if left != right {
            return Err(RowFault {
                index: u64::from(own),
                place: u64::from(i),
                left,
                right,
            });
        }
    }
    Ok(())
}
