//! Systems of equations.
ghost use Rattle.std.specs.Prelude.{◌<◌, ◌≤◌, ◌↔◌, ℕ, length, IfOk, MatchOption};
ghost use Rattle.std.specs.List.Sorted.{IsStrictlyIncreasing};
ghost use Rattle.bmp_math.specs.Matrices.{Matrix, NumbersBelow};
ghost use Rattle.bmp_linear.specs.SparseVectors.{FitsBelow, ValuesBelow, number_at};
ghost use Rattle.bmp_elim.specs.Systems.{HasSolution, IsSolution, IsObstruction, IsFound, IfFound, IfWithout};
ghost use Rattle.bmp_elim.specs.Images.{SaysZeroFrom, SaysOther, HasImages};

use crate::eliminated::{eliminate_rows, solve_by};
use bmp_field::Field;
use bmp_linear::{Entry, Places, RowSpace, Rows, Vector};
use std::alloc::{AllocError, Global};

/// What solves a system, or what shows that nothing does.
#[derive(Debug, Drop)]
pub enum Solution {
    /// A solution.
    Found(Vector),
    /// Numbers for the equations: so combined the left sides give 0, and the right sides don't.
    Without(Vector),
}

/// The first row from `from` on that doesn't say 0 of the vector.
pub(crate) fn find_other<F: Field, A: Rows<F>>(f: &F, t: &A, from: u32, b: &Vector) -> Option<u32>
    requires numbers { NumbersBelow (F.size f.now) (A.matrix t.now) }
    requires fits { FitsBelow b.now (A.matrix t.now).cols }
    requires values { ValuesBelow b.now (F.size f.now) }
    ensures { MatchOption result
        (SaysZeroFrom (F.size f.now) (A.matrix t.now) from (A.matrix t.now).rows (number_at b.now))
        (λ row. SaysOther (F.size f.now) (A.matrix t.now) from row (number_at b.now)) }
{
    for row in from..t.rows() {
        if f.num(t.value_at(f, row, b)) != 0 {
            return Some(row);
        }
    }
    None
}

/// The vector that has at each pivot what the row of its number says of `b`, and 0 elsewhere.
pub(crate) fn pivot_vector<F: Field, A: Rows<F>>(
    alloc: Global,
    f: &F,
    t: &A,
    pivots: &Places,
    b: &Vector,
) -> Result<Vector, AllocError>
    requires numbers { NumbersBelow (F.size f.now) (A.matrix t.now) }
    requires fits { FitsBelow b.now (A.matrix t.now).cols }
    requires values { ValuesBelow b.now (F.size f.now) }
    requires within { length pivots.now ≤ (A.matrix t.now).rows }
    requires rise { IsStrictlyIncreasing pivots.now }
    ensures { IfOk result (HasImages (F.size f.now) (A.matrix t.now) (number_at b.now) pivots.now) }
{
    let mut x = Vector::new(alloc);
    for k in 0..pivots.len() {
        let number = f.num(t.value_at(f, k, b));
        if number != 0 {
            x.push(Entry {
                place: pivots.at(k),
                value: number as u8,
            })?;
        }
    }
    Ok(x)
}

/// Solves `a x = b`, where `b` has a number a row: a solution where there is one, and otherwise a
/// combination of the equations that no `x` meets.
pub fn solve<F: Field, A: RowSpace<F>>(
    alloc: Global,
    f: &F,
    a: &A,
    b: &Vector,
) -> Result<Solution, AllocError>
    requires numbers { NumbersBelow (F.size f.now) (A.matrix a.now) }
    requires fits { FitsBelow b.now (A.matrix a.now).rows }
    requires values { ValuesBelow b.now (F.size f.now) }
    ensures found { IfOk result (IfFound (IsSolution (F.size f.now) (A.matrix a.now) (number_at b.now))) }
    ensures without { IfOk result (IfWithout (IsObstruction (F.size f.now) (A.matrix a.now) (number_at b.now))) }
    ensures exactly { IfOk result
        (λ s. IsFound s ↔ HasSolution (F.size f.now) (A.matrix a.now) (number_at b.now)) }
{
    let rows = a.copy()?;
    let eliminated = eliminate_rows(alloc, f, rows)?;
    let solution = solve_by(alloc, f, &eliminated, b)?;
    Ok(solution)
}
