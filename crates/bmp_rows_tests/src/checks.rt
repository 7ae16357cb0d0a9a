//! The evidence of the one row (1, 2) modulo 3, accepted and altered, over each kind of rows.
ghost use Rattle.std.specs.Prelude.{◌<◌};
ghost use Rattle.bmp_math.specs.Matrices.{Matrix, NumbersBelow};
ghost use Rattle.bmp_field.specs.PrimeFields.{size_of};

use crate::matrices::{field, made};
use bmp_field::{Field, PrimeField};
use bmp_linear::{
    DenseRows, KernelEvidence, MixedRows, Places, RowFault, Rows, Scratch, SparseRows, Turned,
    Vector, Vectors, check_combination, check_dual, check_kernel,
};
use std::alloc::{AllocError, Global};
use std::process::Abort;
use std::test::Fail;

/// Evidence with the pivot 0, one basis vector and one combination of one row.
pub(crate) fn evidence(
    alloc: Global,
    basis: [u8; 2],
    factor: u8,
) -> Result<KernelEvidence, AllocError> {
    let mut e = KernelEvidence {
        pivots: Places::with_capacity(alloc, 1)?,
        basis: Vectors::with_capacity(alloc, 1)?,
        rows: Vectors::new(alloc),
    };
    e.pivots.push(0)?;
    e.basis.push(Vector::of_numbers(alloc, &basis)?)?;
    e.rows.push(Vector::of_numbers(alloc, &[factor])?)?;
    Ok(e)
}

/// What `check_kernel` answers on evidence that fits.
fn kernel_answer<A: Rows<PrimeField>>(
    rt: &impl Abort,
    f: &PrimeField,
    a: &A,
    e: &KernelEvidence,
    s: &mut Scratch,
) -> Result<(), RowFault>
    requires { NumbersBelow (size_of f.now) (A.matrix a.now) }
{
    assert!(rt; e.fits(a.rows(), a.cols()));
    assert!(rt; e.is_below(f.size()));
    assert!(rt; u64::from(a.cols()) <= s.len());
    check_kernel(f, a, e, s)
}

/// What `check_combination` answers on vectors that fit.
fn combination_answer<A: Rows<PrimeField>>(
    rt: &impl Abort,
    f: &PrimeField,
    a: &A,
    c: &Vector,
    target: &Vector,
    s: &mut Scratch,
) -> Result<(), RowFault>
    requires { NumbersBelow (size_of f.now) (A.matrix a.now) }
{
    assert!(rt; c.fits(a.rows()));
    assert!(rt; c.is_below(f.size()));
    assert!(rt; target.fits(a.cols()));
    assert!(rt; target.is_below(f.size()));
    assert!(rt; u64::from(a.cols()) <= s.len());
    check_combination(f, a, c, target, s)
}

/// What `check_dual` answers on a form that fits.
fn dual_answer<A: Rows<PrimeField>>(
    rt: &impl Abort,
    f: &PrimeField,
    a: &A,
    form: &Vector,
    own: u32,
) -> Result<(), RowFault>
    requires { NumbersBelow (size_of f.now) (A.matrix a.now) }
{
    assert!(rt; form.fits(a.cols()));
    assert!(rt; form.is_below(f.size()));
    assert!(rt; own < a.rows());
    check_dual(f, a, form, own)
}

/// The fault with these numbers.
fn fault(index: u64, place: u64, left: u32, right: u32) -> Result<(), RowFault> {
    Err(RowFault {
        index,
        place,
        left,
        right,
    })
}

/// Evidence of the row (1, 2): the right one, and one altered at the free place, on the row and at the
/// pivot.
fn judge_evidence<A: Rows<PrimeField>>(
    rt: &impl Abort,
    alloc: Global,
    f: &PrimeField,
    a: &A,
) -> Result<(), Fail>
    requires { NumbersBelow (size_of f.now) (A.matrix a.now) }
{
    let mut s = Scratch::new(alloc, 2)?;
    for (basis, factor, want) in [
        ([1, 1], 1, Ok(())),
        ([1, 2], 1, fault(0, 0, 2, 1)),
        ([2, 1], 1, fault(0, 1, 1, 0)),
        ([1, 1], 2, fault(1, 0, 2, 1)),
        ([1, 1], 0, fault(1, 0, 0, 1)),
    ] {
        let e = evidence(alloc, basis, factor)?;
        assert_eq!(rt;
            kernel_answer(rt, f, a, &e, &mut s),
            want,
            "{basis:?} {factor}"
        );
    }
    Ok(())
}

/// Twice the row (1, 2) is (2, 1).
fn judge_combinations<A: Rows<PrimeField>>(
    rt: &impl Abort,
    alloc: Global,
    f: &PrimeField,
    a: &A,
) -> Result<(), Fail>
    requires { NumbersBelow (size_of f.now) (A.matrix a.now) }
{
    let mut s = Scratch::new(alloc, 2)?;
    let twice = Vector::of_numbers(alloc, &[2])?;
    for (numbers, want) in [([2, 1], Ok(())), ([2, 0], fault(0, 1, 1, 0))] {
        let target = Vector::of_numbers(alloc, &numbers)?;
        assert_eq!(rt;
            combination_answer(rt, f, a, &twice, &target, &mut s),
            want,
            "{numbers:?}"
        );
    }
    Ok(())
}

/// The forms (1, 0) and (0, 1) on the row (1, 2).
fn judge_forms<A: Rows<PrimeField>>(
    rt: &impl Abort,
    alloc: Global,
    f: &PrimeField,
    a: &A,
) -> Result<(), Fail>
    requires { NumbersBelow (size_of f.now) (A.matrix a.now) }
{
    for (numbers, want) in [([1, 0], Ok(())), ([0, 1], fault(0, 0, 2, 1))] {
        let form = Vector::of_numbers(alloc, &numbers)?;
        assert_eq!(rt; dual_answer(rt, f, a, &form, 0), want, "{numbers:?}");
    }
    Ok(())
}

/// The three checks of the row (1, 2).
fn judge<A: Rows<PrimeField>>(
    rt: &impl Abort,
    alloc: Global,
    f: &PrimeField,
    a: &A,
) -> Result<(), Fail>
    requires { NumbersBelow (size_of f.now) (A.matrix a.now) }
{
    judge_evidence(rt, alloc, f, a)?;
    judge_combinations(rt, alloc, f, a)?;
    judge_forms(rt, alloc, f, a)
}

#[test]
fn one_row_modulo_3(rt: HostRuntime) -> Result<(), Fail> {
    let alloc = rt.alloc();
    let f = field(3)?;
    let table = [[1, 2]];
    judge(
        &rt,
        alloc,
        &f,
        &made(&rt, alloc, &f, DenseRows::new(alloc, 2), &table)?,
    )?;
    judge(
        &rt,
        alloc,
        &f,
        &made(&rt, alloc, &f, SparseRows::new(alloc, 2), &table)?,
    )?;
    judge(
        &rt,
        alloc,
        &f,
        &made(&rt, alloc, &f, MixedRows::new(alloc, 2), &table)?,
    )
}

#[test]
fn one_row_turned(rt: HostRuntime) -> Result<(), Fail> {
    let alloc = rt.alloc();
    let f = field(3)?;
    let columns = made(&rt, alloc, &f, DenseRows::new(alloc, 1), &[[1], [2]])?;
    judge(&rt, alloc, &f, &Turned::of(&columns))
}
