//! Bases that grow by rows that come one at a time, judged by ranks and by multiplying.
ghost use Rattle.std.specs.Prelude.{◌≡◌, ◌<◌};
ghost use Rattle.bmp_math.specs.Matrices.{Matrix, NumbersBelow};
ghost use Rattle.bmp_field.specs.PrimeFields.{size_of};

use crate::elimination::{RIGHT, judge_traced, judged, plain_of, plain_vector, worse};
use crate::plain::{Plain, multiplies, raising_columns};
use bmp_elim::{eliminate_chosen, empty_basis, grow_basis, write_row};
use bmp_field::{Field, PrimeField};
use bmp_linear::{Places, RowSpace, Rows, Vector};
use std::alloc::{AllocError, Global};

/// The numbers by which the chosen ones of the first rows combine to row `i`, by multiplying. There are none exactly
/// where that row raises their rank.
fn judge_written(
    alloc: Global,
    p: u8,
    whole: &Plain,
    i: u32,
    chosen: &Places,
    raises: bool,
    answer: &Option<Vector>,
) -> Result<&'static str, AllocError> {
    match answer {
        Some(x) => {
            let rows = whole.picked(alloc, chosen.as_slice())?;
            let row = whole.picked(alloc, &[i])?;
            let numbers = plain_vector(alloc, rows.rows, x)?;
            let written = multiplies(p, &numbers, &rows.turned(alloc)?, &row);
            Ok(judged(&[(!raises, "numbers"), (written, "written row")]))
        }
        None => Ok(judged(&[(raises, "no numbers")])),
    }
}

/// The choice by ranks, each row as the chosen ones before it write it, and the elimination of the chosen rows with a
/// trace that has a row and a column for each.
pub(crate) fn judge_growth<A: RowSpace<PrimeField>>(
    alloc: Global,
    f: &PrimeField,
    p: u8,
    like: &A,
    whole: &Plain,
) -> Result<&'static str, AllocError> {
    let raising = raising_columns(alloc, p, &whole.turned(alloc)?)?;
    let mut basis = empty_basis(alloc, f, like, whole.cols);
    let mut found = RIGHT;
    for i in 0..whole.rows {
        let row = whole.vector(alloc, i)?;
        if !row.fits(basis.rows.cols()) || !row.is_below(f.size()) {
            return Ok("row");
        }
        let answer = write_row(alloc, f, &basis, &row)?;
        let raises = raising.as_slice().contains(&i);
        let claim = judge_written(alloc, p, whole, i, &basis.chosen, raises, &answer)?;
        found = worse(found, claim);
        basis = grow_basis(alloc, f, basis, &row)?;
    }
    let chosen = judged(&[
        (basis.count == whole.rows, "count"),
        (basis.chosen.as_slice() == raising.as_slice(), "chosen rows"),
    ]);
    let e = eliminate_chosen(alloc, f, basis)?;
    let new = plain_of(alloc, f, &e.rows)?;
    let trace = plain_of(alloc, f, &e.trace)?;
    let old = whole.picked(alloc, raising.as_slice())?;
    let traced = judge_traced(alloc, p, &old, &new, &trace, &e.pivots)?;
    Ok(worse(found, worse(chosen, traced)))
}
