//! Fields, and rows that are made from tables of numbers and read back.
ghost use Rattle.std.specs.Prelude.{◌≡◌, ◌<◌, IfOk};
ghost use Rattle.bmp_math.specs.Matrices.{Matrix, NumbersBelow};
ghost use Rattle.bmp_field.specs.PrimeFields.{size_of};

use bmp_field::{Field, PrimeField};
use bmp_linear::{RowSpace, Rows, Vector};
use std::alloc::{AllocError, Global};
use std::process::Abort;
use std::test::Fail;

/// The field of `p` elements, where there is one.
pub(crate) fn field(p: u8) -> Result<PrimeField, Fail>
    ensures { IfOk result (λ f. size_of f ≡ p) }
{
    Ok(PrimeField::new(p).map_err(|_| "no prime from 2 to 61")?)
}

/// The rows of a table, pushed to no rows.
pub(crate) fn made<A: RowSpace<PrimeField>, const N: usize>(
    rt: &impl Abort,
    alloc: Global,
    f: &PrimeField,
    empty: A,
    table: &[[u8; N]],
) -> Result<A, AllocError>
    requires { (A.matrix empty).rows ≡ 0 }
    ensures { IfOk result (λ a. NumbersBelow (size_of f.now) (A.matrix a)) }
{
    let mut a = empty;
    for row in table {
        assert!(rt; row.len() <= 8);
        let vector = Vector::of_numbers(alloc, row)?;
        assert!(rt; vector.fits(a.cols()));
        assert!(rt; vector.is_below(f.size()));
        a.push_row(f, &vector)?;
    }
    Ok(a)
}

/// All numbers, row after row.
pub(crate) fn numbers_of<A: Rows<PrimeField>>(
    alloc: Global,
    f: &PrimeField,
    a: &A,
) -> Result<Vec<u32>, AllocError>
    requires { NumbersBelow (size_of f.now) (A.matrix a.now) }
{
    let mut numbers = Vec::new(alloc);
    for i in 0..a.rows() {
        for j in 0..a.cols() {
            numbers.push(f.num(a.at(f, i, j)))?;
        }
    }
    Ok(numbers)
}
