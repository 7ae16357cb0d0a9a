//! Rows of bits: what stands at the edge of a word, and random matrices whose evidence is that of dense rows.
ghost use Rattle.std.specs.Prelude.{◌<◌, IfOk, OnOk};
ghost use Rattle.bmp_math.specs.Matrices.{Matrix, NumbersBelow};
ghost use Rattle.bmp_packed.specs.WordTables.{matrix_of_words};

use crate::elimination::Chance;
use crate::plain::Plain;
use bmp_elim::kernel;
use bmp_linear::{DenseRows, Entry, RowSpace, Rows, Scratch, Vectors, check_kernel, row_vector};
use bmp_packed::{BitField, PackedRows};
use std::alloc::{AllocError, Global};
use std::process::Abort;
use std::test::Fail;

/// The matrix as rows.
fn rows_of<A: RowSpace<BitField>>(
    alloc: Global,
    f: &BitField,
    like: &A,
    plain: &Plain,
) -> Result<A, AllocError>
    ensures { IfOk result (λ a. NumbersBelow 2 (A.matrix a)) }
{
    let mut a = like.empty(plain.cols);
    for i in 0..plain.rows {
        let row = plain.vector(alloc, i)?;
        if row.fits(a.cols()) && row.is_below(2) {
            a.push_row(f, &row)?;
        }
    }
    Ok(a)
}

/// Whether the vectors are equal.
fn are_same(first: &Vectors, second: &Vectors) -> bool {
    for (x, y) in first.as_slice().iter().zip(second.as_slice()) {
        if x.entries() != y.entries() {
            return false;
        }
    }
    first.len() == second.len()
}

/// Whether rows of bits and dense rows give the same evidence.
fn agree(alloc: Global, f: &BitField, plain: &Plain) -> Result<bool, AllocError> {
    let packed = kernel(
        alloc,
        f,
        &rows_of(alloc, f, &PackedRows::new(alloc, 0), plain)?,
    )?;
    let dense = kernel(
        alloc,
        f,
        &rows_of(alloc, f, &DenseRows::new(alloc, 0), plain)?,
    )?;
    Ok(
        packed.pivots.as_slice() == dense.pivots.as_slice()
            && are_same(&packed.basis, &dense.basis)
            && are_same(&packed.rows, &dense.rows),
    )
}

#[test]
fn rows_of_bits_agree_with_dense_rows(rt: HostRuntime) -> Result<(), Fail> {
    let alloc = rt.alloc();
    let f = BitField::new();
    let mut chance = Chance { state: 2 };
    for cols in [0, 1, 63, 64, 65, 127, 128, 129] {
        for rows in [0, 1, 2, 40, 66, 130] {
            for (zeros, repeats) in [(0, false), (3, false), (1, true)] {
                let plain = chance.matrix(alloc, 2, (rows, cols), zeros, repeats)?;
                assert!(rt;
                    agree(alloc, &f, &plain)?,
                    "{rows} by {cols}, {zeros} zeros of 4"
                );
            }
        }
    }
    Ok(())
}

/// The rows (1, 1, 0) and (0, 1, 1) send (1, 1, 1) to 0.
#[test]
fn kernel_of_two_rows(rt: HostRuntime) -> Result<(), Fail> {
    let alloc = rt.alloc();
    let f = BitField::new();
    let plain = Plain::of(alloc, 2, 3, &[1, 1, 0, 0, 1, 1])?;
    let a = rows_of(alloc, &f, &PackedRows::new(alloc, 0), &plain)?;
    let e = kernel(alloc, &f, &a)?;
    let entry = |place| Entry { place, value: 1 };
    assert_eq!(rt; e.pivots.as_slice(), [0, 1].as_slice());
    assert!(rt; e.basis.len() == 1);
    assert_eq!(rt;
        e.basis.at(0).entries(),
        [entry(0), entry(1), entry(2)].as_slice()
    );
    let mut s = Scratch::new(alloc, 3)?;
    assert!(rt; e.fits(a.rows(), a.cols()) && e.is_below(2) && u64::from(a.cols()) <= s.len());
    assert!(rt; check_kernel(&f, &a, &e, &mut s).is_ok());
    Ok(())
}

/// Two equal rows with 1 at the places 63 and 64, added.
#[test]
fn equal_rows_add_to_zeros(rt: HostRuntime) -> Result<(), Fail> {
    let alloc = rt.alloc();
    let f = BitField::new();
    let mut plain = Plain::zeros(alloc, 2, 65)?;
    for (i, j) in [(0, 63), (0, 64), (1, 63), (1, 64)] {
        plain.set(i, j, 1);
    }
    let mut a = rows_of(alloc, &f, &PackedRows::new(alloc, 0), &plain)?;
    assert!(rt; a.rows() == 2);
    a.add_row(&f, 0, 1, 1)?;
    let entry = |place| Entry { place, value: 1 };
    assert_eq!(rt; row_vector(alloc, &f, &a, 0)?.entries(), [].as_slice());
    assert_eq!(rt;
        row_vector(alloc, &f, &a, 1)?.entries(),
        [entry(63), entry(64)].as_slice()
    );
    Ok(())
}

/// A change of rows.
#[derive(Clone, Copy, Debug)]
enum Change {
    Add(u32, u32),
    Swap(u32, u32),
    Scale(u32),
}

/// Makes a change that the rows allow.
fn apply(
    rt: &impl Abort,
    f: &BitField,
    a: &mut PackedRows,
    change: Change,
) -> Result<(), AllocError>
    requires { NumbersBelow 2 (matrix_of_words a.old) }
    ensures { OnOk result (NumbersBelow 2 (matrix_of_words a.new)) }
{
    match change {
        Change::Add(into, from) => {
            assert!(rt; into < a.rows() && from < a.rows() && into != from);
            a.add_row(f, into, from, 1)?;
        }
        Change::Swap(i, j) => {
            assert!(rt; i < a.rows() && j < a.rows());
            a.swap_rows(i, j);
        }
        Change::Scale(i) => {
            assert!(rt; i < a.rows());
            a.scale_row(f, i, 1);
        }
    }
    Ok(())
}

/// The places of the ones of two rows.
fn ones(
    rt: &impl Abort,
    alloc: Global,
    f: &BitField,
    a: &PackedRows,
    i: u32,
) -> Result<Vec<u32>, AllocError>
    requires { NumbersBelow 2 (matrix_of_words a.now) }
{
    assert!(rt; i < a.rows());
    let row = row_vector(alloc, f, a, i)?;
    let mut places = Vec::new(alloc);
    for entry in row.entries() {
        places.push(entry.place)?;
    }
    Ok(places)
}

/// Changes of two rows with ones at both ends of two words, one after the other, with a copy from before.
#[test]
fn rows_of_bits_are_changed(rt: HostRuntime) -> Result<(), Fail> {
    let alloc = rt.alloc();
    let f = BitField::new();
    let mut plain = Plain::zeros(alloc, 2, 128)?;
    for (i, j) in [(0, 0), (0, 63), (0, 127), (1, 63), (1, 64)] {
        plain.set(i, j, 1);
    }
    let mut a = rows_of(alloc, &f, &PackedRows::new(alloc, 0), &plain)?;
    let before = a.copy()?;
    for (change, first, second) in [
        (
            Change::Scale(0),
            [0, 63, 127].as_slice(),
            [63, 64].as_slice(),
        ),
        (
            Change::Add(0, 1),
            [0, 64, 127].as_slice(),
            [63, 64].as_slice(),
        ),
        (
            Change::Swap(0, 1),
            [63, 64].as_slice(),
            [0, 64, 127].as_slice(),
        ),
        (
            Change::Add(0, 1),
            [0, 63, 127].as_slice(),
            [0, 64, 127].as_slice(),
        ),
        (
            Change::Swap(1, 1),
            [0, 63, 127].as_slice(),
            [0, 64, 127].as_slice(),
        ),
    ] {
        apply(&rt, &f, &mut a, change)?;
        assert_eq!(rt;
            ones(&rt, alloc, &f, &a, 0)?.as_slice(),
            first,
            "{change:?}"
        );
        assert_eq!(rt;
            ones(&rt, alloc, &f, &a, 1)?.as_slice(),
            second,
            "{change:?}"
        );
    }
    assert_eq!(rt;
        ones(&rt, alloc, &f, &before, 0)?.as_slice(),
        [0, 63, 127].as_slice()
    );
    Ok(())
}
