//! Rows that are pushed, changed, copied and stored, over each kind of rows.
ghost use Rattle.std.specs.Prelude.{◌≡◌, OnOk};
ghost use Rattle.bmp_math.specs.Matrices.{Matrix, NumbersBelow};
ghost use Rattle.bmp_field.specs.PrimeFields.{size_of};

use crate::matrices::{field, made, numbers_of};
use bmp_field::{Field, PrimeField};
use bmp_linear::{
    DenseRows, Entry, MixedRows, RowSpace, Rows, SparseRows, Turned, row_vector, stored,
};
use std::alloc::{AllocError, Global};
use std::process::Abort;
use std::test::Fail;

/// A change of rows.
#[derive(Clone, Copy, Debug)]
enum Change {
    Nothing,
    Push([u8; 2]),
    Add { into: u32, from: u32, factor: u8 },
    AddToTwo(u32, [u8; 2]),
    AddToThree(u32, [u8; 3]),
    Scale(u32, u8),
    Swap(u32, u32),
}

/// Adds a multiple of one row to another.
fn add<A: RowSpace<PrimeField>>(
    rt: &impl Abort,
    f: &PrimeField,
    a: &mut A,
    into: u32,
    from: u32,
    factor: u8,
) -> Result<(), AllocError>
    requires { NumbersBelow (size_of f.now) (A.matrix a.old) }
    ensures { OnOk result (NumbersBelow (size_of f.now) (A.matrix a.new)) }
{
    assert!(rt; into < a.rows() && from < a.rows() && into != from && f.is_value(factor));
    a.add_row(f, into, from, factor)
}

/// Adds to each row but one its factor times that.
fn add_to_all<A: RowSpace<PrimeField>>(
    rt: &impl Abort,
    f: &PrimeField,
    a: &mut A,
    from: u32,
    factors: &[u8],
) -> Result<(), AllocError>
    requires { NumbersBelow (size_of f.now) (A.matrix a.old) }
    ensures { OnOk result (NumbersBelow (size_of f.now) (A.matrix a.new)) }
{
    assert!(rt; from < a.rows() && factors.len() == a.rows() as usize);
    assert!(rt; factors.iter().all(|c| f.is_value(*c)));
    a.add_to_rows(f, from, factors)
}

/// Multiplies a row by a factor.
fn scale<A: RowSpace<PrimeField>>(rt: &impl Abort, f: &PrimeField, a: &mut A, i: u32, factor: u8)
    requires { NumbersBelow (size_of f.now) (A.matrix a.old) }
    ensures { NumbersBelow (size_of f.now) (A.matrix a.new) }
{
    assert!(rt; i < a.rows() && f.is_value(factor) && factor != 0);
    a.scale_row(f, i, factor);
}

/// Makes a change that the rows allow.
fn apply<A: RowSpace<PrimeField>>(
    rt: &impl Abort,
    f: &PrimeField,
    a: &mut A,
    change: Change,
) -> Result<(), AllocError>
    requires { NumbersBelow (size_of f.now) (A.matrix a.old) }
    ensures { OnOk result (NumbersBelow (size_of f.now) (A.matrix a.new)) }
{
    match change {
        Change::Nothing => Ok(()),
        Change::Push(row) => {
            assert!(rt; a.cols() == 2 && row.iter().all(|n| f.is_value(*n)));
            a.push_numbers(f, &row)
        }
        Change::Add { into, from, factor } => add(rt, f, a, into, from, factor),
        Change::AddToTwo(from, factors) => add_to_all(rt, f, a, from, &factors),
        Change::AddToThree(from, factors) => add_to_all(rt, f, a, from, &factors),
        Change::Scale(i, factor) => {
            scale(rt, f, a, i, factor);
            Ok(())
        }
        Change::Swap(i, j) => {
            assert!(rt; i < a.rows() && j < a.rows());
            a.swap_rows(i, j);
            Ok(())
        }
    }
}

/// Changes of the rows (1, 2) and (2, 2) modulo 3, one after the other, with a copy from before.
fn judge_changes<A: RowSpace<PrimeField>>(
    rt: &impl Abort,
    alloc: Global,
    f: &PrimeField,
    empty: A,
) -> Result<(), Fail>
    requires { (A.matrix empty).rows ≡ 0 }
{
    let mut a = made(rt, alloc, f, empty, &[[1, 2], [2, 2]])?;
    let before = a.copy()?;
    for (change, want) in [
        (Change::Nothing, [1, 2, 2, 2].as_slice()),
        (
            Change::Add {
                into: 0,
                from: 1,
                factor: 2,
            },
            [2, 0, 2, 2].as_slice(),
        ),
        (Change::Scale(1, 2), [2, 0, 1, 1].as_slice()),
        (Change::Swap(0, 1), [1, 1, 2, 0].as_slice()),
        (Change::Swap(1, 1), [1, 1, 2, 0].as_slice()),
        (Change::AddToTwo(1, [2, 1]), [2, 1, 2, 0].as_slice()),
        (Change::Push([0, 2]), [2, 1, 2, 0, 0, 2].as_slice()),
        (
            Change::Add {
                into: 2,
                from: 0,
                factor: 1,
            },
            [2, 1, 2, 0, 2, 0].as_slice(),
        ),
        (
            Change::AddToThree(0, [1, 1, 2]),
            [2, 1, 1, 1, 0, 2].as_slice(),
        ),
        (
            Change::AddToThree(2, [2, 0, 1]),
            [2, 2, 1, 1, 0, 2].as_slice(),
        ),
    ] {
        apply(rt, f, &mut a, change)?;
        assert_eq!(rt; numbers_of(alloc, f, &a)?.as_slice(), want, "{change:?}");
    }
    assert_eq!(rt;
        numbers_of(alloc, f, &before)?.as_slice(),
        [1, 2, 2, 2].as_slice()
    );
    Ok(())
}

#[test]
fn rows_are_changed(rt: HostRuntime) -> Result<(), Fail> {
    let alloc = rt.alloc();
    let f = field(3)?;
    judge_changes(&rt, alloc, &f, DenseRows::new(alloc, 2))?;
    judge_changes(&rt, alloc, &f, SparseRows::new(alloc, 2))?;
    judge_changes(&rt, alloc, &f, MixedRows::new(alloc, 2))
}

/// The columns of the rows (1, 0, 5) and (0, 2, 0) modulo 61, stored.
fn judge_stored<A: RowSpace<PrimeField>>(
    rt: &impl Abort,
    alloc: Global,
    f: &PrimeField,
    like: A,
) -> Result<(), Fail>
    requires { (A.matrix like).rows ≡ 0 }
{
    let rows = made(rt, alloc, f, like, &[[1, 0, 5], [0, 2, 0]])?;
    let columns = stored(alloc, f, &Turned::of(&rows), &rows)?;
    let again = stored(alloc, f, &Turned::of(&columns), &columns)?;
    for (a, want) in [
        (&rows, [1, 0, 5, 0, 2, 0]),
        (&columns, [1, 0, 0, 2, 5, 0]),
        (&again, [1, 0, 5, 0, 2, 0]),
    ] {
        assert_eq!(rt; numbers_of(alloc, f, a)?.as_slice(), want.as_slice());
    }
    assert!(rt; rows.rows() == 2);
    let entry = |place, value| Entry { place, value };
    assert_eq!(rt;
        row_vector(alloc, f, &rows, 0)?.entries(),
        [entry(0, 1), entry(2, 5)].as_slice()
    );
    Ok(())
}

#[test]
fn views_are_stored(rt: HostRuntime) -> Result<(), Fail> {
    let alloc = rt.alloc();
    let f = field(61)?;
    judge_stored(&rt, alloc, &f, DenseRows::new(alloc, 3))?;
    judge_stored(&rt, alloc, &f, SparseRows::new(alloc, 3))?;
    judge_stored(&rt, alloc, &f, MixedRows::new(alloc, 3))
}

#[test]
fn sparse_rows_show_their_entries(rt: HostRuntime) -> Result<(), Fail> {
    let alloc = rt.alloc();
    let f = field(3)?;
    let a = made(&rt, alloc, &f, SparseRows::new(alloc, 2), &[[0, 2]])?;
    assert!(rt; a.rows() == 1);
    assert_eq!(rt; a.row(0), [Entry { place: 1, value: 2 }].as_slice());
    Ok(())
}
