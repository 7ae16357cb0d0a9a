//! A basis of the span of rows that come one at a time.
//!
//! With r rows chosen so far, of n numbers each, a basis keeps r n numbers of reduced rows and r (r + 1) / 2 of their
//! trace, whatever number of rows came. `grow_basis` and `write_row` take a time linear in (r + 1) (n + r), and
//! `eliminate_chosen` one linear in (r + 1)^2 (n + r).
ghost use Rattle.std.specs.Prelude.{◌≡◌, ◌≢◌, ◌↔◌, ℕ, ◌+◌, ◌^◌, ◌<◌, ◌≤◌, [], ◌∷◌, ◌++◌, length, slice_index, IfOk, EachIndex, MatchOption};
ghost use Rattle.bmp_math.specs.Matrices.{Matrix, NumbersBelow};
ghost use Rattle.bmp_field.specs.Runs.{AreBelow};
ghost use Rattle.bmp_linear.specs.SparseVectors.{FitsBelow, ValuesBelow, number_at};
ghost use Rattle.bmp_linear.specs.RowChanges.{IsRowPushed, HoldsNumbers};
ghost use Rattle.bmp_elim.specs.GrowingBases.{chosen_rows, IsRowCombination, HasLeading, IsGrown, GrewFromSome, IsKeptOrMore, WritesRow, IsRemainder, IsFirstPlace, IsMultiplied, IsPivotPushed, IsNegated};
ghost use Rattle.bmp_elim.specs.Eliminations.{IsReducedOf};
ghost use Rattle.bmp_elim.specs.Triangles.{square_of};

use crate::eliminate::eliminate;
use crate::eliminated::Eliminated;
use crate::triangle::Triangle;
use bmp_field::Field;
use bmp_linear::{Places, RowSpace, Rows, Vector, stored};
use std::alloc::{AllocError, Global};

/// A basis of the span of rows that came one at a time: of these it names those that were chosen, and keeps
/// one reduced row for each.
#[derive(Drop)]
pub struct GrowingBasis<A: Drop> {
    /// How many rows came.
    pub count: u32,
    /// The numbers of the chosen rows, rising: none was a combination of the rows before it.
    pub chosen: Places,
    /// The reduced rows: each leads with a 1 at its pivot, and is 0 at the pivots before it.
    pub rows: A,
    /// The pivots, in the order of the chosen rows.
    pub pivots: Places,
    /// For each reduced row the numbers by which the chosen rows combine to it, one for each chosen row. A row
    /// needs none of those that are chosen after it.
    pub trace: Triangle,
}

/// The basis of no rows of `cols` numbers, kept as the rows of `like` are. Takes no memory.
pub fn empty_basis<F: Field, A: RowSpace<F>>(
    alloc: Global,
    f: &F,
    like: &A,
    cols: u32,
) -> GrowingBasis<A>
    ensures grown { (old : Matrix) → old.rows ≡ 0 → old.cols ≡ cols
        → IsGrown (F.size f.now) old (A.matrix result.rows) (square_of result.trace) result.pivots result.chosen
        result.count }
    ensures some { GrewFromSome (F.size f.now) (A.matrix result.rows) (square_of result.trace) result.pivots
        result.chosen result.count }
    ensures count { result.count ≡ 0 }
    ensures cols { (A.matrix result.rows).cols ≡ cols }
{
    let _ = f;
    GrowingBasis {
        count: 0,
        chosen: Places::new(alloc),
        rows: like.empty(cols),
        pivots: Places::new(alloc),
        trace: Triangle::new(alloc),
    }
}

/// Adds multiples of the reduced rows to the numbers, so that these are 0 at all pivots, and the same multiples
/// of the trace's rows to the factors.
fn reduce_row<F: Field, A: Rows<F>>(
    f: &F,
    rows: &A,
    trace: &Triangle,
    pivots: &Places,
    numbers: &mut [u8],
    factors: &mut [u8],
)
    requires numbers { NumbersBelow (F.size f.now) (A.matrix rows.now) }
    requires trace_numbers { NumbersBelow (F.size f.now) (square_of trace.now) }
    requires leading { HasLeading (A.matrix rows.now) pivots.now }
    requires trace_rows { length pivots.now ≤ (square_of trace.now).rows }
    requires row { HoldsNumbers (F.size f.now) (A.matrix rows.now).cols numbers.old }
    requires factors_room { (square_of trace.now).cols ≤ length factors.old }
    requires factors { EachIndex factors.old (λ j. slice_index factors.old j ≡ 0) }
    ensures { IsRemainder (F.size f.now) (length pivots.now) (A.matrix rows.now) (square_of trace.now) pivots.now
        (slice_index numbers.old) numbers.new factors.new }
{
    for k in 0..pivots.len() {
        let number = f.from_num(u32::from(numbers[pivots.at(k) as usize]));
        if f.num(number) != 0 {
            let c = f.neg(number);
            rows.add_row_to(f, k, c, numbers);
            trace.add_row_to(f, k, c, factors);
        }
    }
}

/// The first place whose number isn't 0.
fn first_place(numbers: &[u8]) -> Option<u32>
    requires { length numbers.now < 2 ^ 32 }
    ensures { MatchOption result
        (EachIndex numbers.now (λ j. slice_index numbers.now j ≡ 0))
        (IsFirstPlace numbers.now) }
{
    for (j, number) in numbers.iter().enumerate() {
        if *number != 0 {
            return Some(j as u32);
        }
    }
    None
}

/// Multiplies the numbers by `c`.
fn multiply<F: Field>(f: &F, c: F::E, numbers: &mut [u8])
    requires factor { F.is_value f.now c }
    requires numbers { AreBelow (F.size f.now) numbers.old }
    ensures { IsMultiplied (F.size f.now) (F.num f.now c) numbers.old numbers.new }
{
    for number in numbers.iter_mut() {
        let value = f.from_num(u32::from(*number));
        *number = f.num(f.mul(c, value)) as u8;
    }
}

/// Appends what is left of a row, which leads at the pivot, as a reduced row, and the row itself as a chosen one.
/// What is left is made 1 at the pivot.
fn push_pivot<F: Field, A: RowSpace<F>>(
    f: &F,
    basis: GrowingBasis<A>,
    pivot: u32,
    numbers: &mut [u8],
    factors: &mut [u8],
) -> Result<GrowingBasis<A>, AllocError>
    requires row_numbers { NumbersBelow (F.size f.now) (A.matrix basis.rows) }
    requires trace_numbers { NumbersBelow (F.size f.now) (square_of basis.trace) }
    requires count { basis.count + 1 < 2 ^ 32 }
    requires width { length numbers.old ≡ (A.matrix basis.rows).cols }
    requires trace_width { length factors.old ≡ (square_of basis.trace).cols + 1 }
    requires numbers { AreBelow (F.size f.now) numbers.old }
    requires factors { HoldsNumbers (F.size f.now) (square_of basis.trace).cols factors.old }
    requires pivot { IsFirstPlace numbers.old pivot }
    ensures pushed { IfOk result (λ b. IsPivotPushed (F.size f.now) pivot numbers.old factors.old
        (A.matrix basis.rows) (square_of basis.trace) (A.matrix b.rows) (square_of b.trace)) }
    ensures pivots { IfOk result (λ b. b.pivots ≡ basis.pivots ++ pivot ∷ []) }
    ensures chosen { IfOk result (λ b. b.chosen ≡ basis.chosen ++ basis.count ∷ []) }
    ensures count { IfOk result (λ b. b.count ≡ basis.count + 1) }
{
    let mut basis = basis;
    let c = f.inv(f.from_num(u32::from(numbers[pivot as usize])));
    multiply(f, c, numbers);
    factors[basis.trace.size() as usize] = 1;
    multiply(f, c, factors);
    basis.rows.push_numbers(f, numbers)?;
    basis.trace.push(factors)?;
    basis.pivots.push(pivot)?;
    basis.chosen.push(basis.count)?;
    basis.count += 1;
    Ok(basis)
}

/// The basis of the rows that came and of one row more, made in numbers to work in.
fn grown<F: Field, A: RowSpace<F>>(
    f: &F,
    basis: GrowingBasis<A>,
    row: &Vector,
    numbers: &mut [u8],
    factors: &mut [u8],
) -> Result<GrowingBasis<A>, AllocError>
    requires some { GrewFromSome (F.size f.now) (A.matrix basis.rows) (square_of basis.trace) basis.pivots
        basis.chosen basis.count }
    requires count { basis.count + 1 < 2 ^ 32 }
    requires fits { FitsBelow row.now (A.matrix basis.rows).cols }
    requires values { ValuesBelow row.now (F.size f.now) }
    requires width { length numbers.old ≡ (A.matrix basis.rows).cols }
    requires limit { (A.matrix basis.rows).cols < 2 ^ 32 }
    requires trace_width { length factors.old ≡ (square_of basis.trace).cols + 1 }
    requires zeros { EachIndex factors.old (λ j. slice_index factors.old j ≡ 0) }
    ensures grown { IfOk result (λ b. (old new : Matrix)
        → IsGrown (F.size f.now) old (A.matrix basis.rows) (square_of basis.trace) basis.pivots basis.chosen basis.count
        → IsRowPushed old new (number_at row.now)
        → IsGrown (F.size f.now) new (A.matrix b.rows) (square_of b.trace) b.pivots b.chosen b.count) }
    ensures chosen { IfOk result (λ b. IsKeptOrMore basis.chosen basis.count b.chosen) }
    ensures needed { IfOk result (λ b. (old : Matrix)
        → IsGrown (F.size f.now) old (A.matrix basis.rows) (square_of basis.trace) basis.pivots basis.chosen basis.count
        → (b.chosen ≡ basis.chosen)
        ↔ IsRowCombination (F.size f.now) (chosen_rows basis.chosen old) (number_at row.now)) }
    ensures count { IfOk result (λ b. b.count ≡ basis.count + 1) }
    ensures cols { IfOk result (λ b. (A.matrix b.rows).cols ≡ (A.matrix basis.rows).cols) }
{
    row.spread(numbers);
    reduce_row(
        f,
        &basis.rows,
        &basis.trace,
        &basis.pivots,
        numbers,
        factors,
    );
    match first_place(numbers) {
        Some(pivot) => Ok(push_pivot(f, basis, pivot, numbers, factors)?),
        None => {
            let mut basis = basis;
            basis.count += 1;
            Ok(basis)
        }
    }
}

/// The basis of the rows that came and of one row more. That is chosen where it is no combination of those.
/// A multiple of each reduced row is added to it at most once, and that of the row's trace to its factors. Wants
/// memory also where 2^32 - 1 rows came.
pub fn grow_basis<F: Field, A: RowSpace<F>>(
    alloc: Global,
    f: &F,
    basis: GrowingBasis<A>,
    row: &Vector,
) -> Result<GrowingBasis<A>, AllocError>
    requires some { GrewFromSome (F.size f.now) (A.matrix basis.rows) (square_of basis.trace) basis.pivots
        basis.chosen basis.count }
    requires fits { FitsBelow row.now (A.matrix basis.rows).cols }
    requires values { ValuesBelow row.now (F.size f.now) }
    ensures grown { IfOk result (λ b. (old new : Matrix)
        → IsGrown (F.size f.now) old (A.matrix basis.rows) (square_of basis.trace) basis.pivots basis.chosen basis.count
        → IsRowPushed old new (number_at row.now)
        → IsGrown (F.size f.now) new (A.matrix b.rows) (square_of b.trace) b.pivots b.chosen b.count) }
    ensures some { IfOk result (λ b. GrewFromSome (F.size f.now) (A.matrix b.rows) (square_of b.trace) b.pivots
        b.chosen b.count) }
    ensures chosen { IfOk result (λ b. IsKeptOrMore basis.chosen basis.count b.chosen) }
    ensures needed { IfOk result (λ b. (old : Matrix)
        → IsGrown (F.size f.now) old (A.matrix basis.rows) (square_of basis.trace) basis.pivots basis.chosen basis.count
        → (b.chosen ≡ basis.chosen)
        ↔ IsRowCombination (F.size f.now) (chosen_rows basis.chosen old) (number_at row.now)) }
    ensures count { IfOk result (λ b. b.count ≡ basis.count + 1) }
    ensures cols { IfOk result (λ b. (A.matrix b.rows).cols ≡ (A.matrix basis.rows).cols) }
{
    if basis.count == u32::MAX {
        return Err(AllocError);
    }
    let mut numbers = vec![in alloc; 0; basis.rows.cols() as usize]?;
    let mut factors = vec![in alloc; 0; basis.trace.size() as usize + 1]?;
    let more = grown(f, basis, row, &mut numbers, &mut factors)?;
    Ok(more)
}

/// The vector of the first numbers, each times the largest number, which is their minus.
fn negated_vector<F: Field>(
    alloc: Global,
    f: &F,
    numbers: &mut [u8],
    count: u32,
) -> Result<Vector, AllocError>
    requires numbers { AreBelow (F.size f.now) numbers.old }
    requires room { count ≤ length numbers.old }
    ensures { IfOk result (IsNegated (F.size f.now) count numbers.old) }
{
    multiply(f, f.neg(f.one()), numbers);
    Ok(Vector::of_numbers(alloc, &numbers[..count as usize])?)
}

/// The same as `write_row`, in numbers to work in.
fn written<F: Field, A: Rows<F> + Drop>(
    alloc: Global,
    f: &F,
    basis: &GrowingBasis<A>,
    row: &Vector,
    numbers: &mut [u8],
    factors: &mut [u8],
) -> Result<Option<Vector>, AllocError>
    requires some { GrewFromSome (F.size f.now) (A.matrix basis.now.rows) (square_of basis.now.trace) basis.now.pivots
        basis.now.chosen basis.now.count }
    requires fits { FitsBelow row.now (A.matrix basis.now.rows).cols }
    requires values { ValuesBelow row.now (F.size f.now) }
    requires width { length numbers.old ≡ (A.matrix basis.now.rows).cols }
    requires limit { (A.matrix basis.now.rows).cols < 2 ^ 32 }
    requires trace_width { length factors.old ≡ (square_of basis.now.trace).cols }
    requires zeros { EachIndex factors.old (λ j. slice_index factors.old j ≡ 0) }
    ensures { IfOk result (λ answer. (old : Matrix)
        → IsGrown (F.size f.now) old (A.matrix basis.now.rows) (square_of basis.now.trace) basis.now.pivots
        basis.now.chosen basis.now.count
        → MatchOption answer (¬ IsRowCombination (F.size f.now) (chosen_rows basis.now.chosen old) (number_at row.now))
        (WritesRow (F.size f.now) old basis.now.chosen (number_at row.now))) }
{
    row.spread(numbers);
    reduce_row(
        f,
        &basis.rows,
        &basis.trace,
        &basis.pivots,
        numbers,
        factors,
    );
    match first_place(numbers) {
        Some(_) => Ok(None),
        None => {
            let vector = negated_vector(alloc, f, factors, basis.chosen.len())?;
            Ok(Some(vector))
        }
    }
}

/// The numbers by which the chosen rows combine to a row, one for each, or nothing where none do. Takes the time of
/// `grow_basis`.
pub fn write_row<F: Field, A: Rows<F> + Drop>(
    alloc: Global,
    f: &F,
    basis: &GrowingBasis<A>,
    row: &Vector,
) -> Result<Option<Vector>, AllocError>
    requires some { GrewFromSome (F.size f.now) (A.matrix basis.now.rows) (square_of basis.now.trace) basis.now.pivots
        basis.now.chosen basis.now.count }
    requires fits { FitsBelow row.now (A.matrix basis.now.rows).cols }
    requires values { ValuesBelow row.now (F.size f.now) }
    ensures { IfOk result (λ answer. (old : Matrix)
        → IsGrown (F.size f.now) old (A.matrix basis.now.rows) (square_of basis.now.trace) basis.now.pivots
        basis.now.chosen basis.now.count
        → MatchOption answer (¬ IsRowCombination (F.size f.now) (chosen_rows basis.now.chosen old) (number_at row.now))
        (WritesRow (F.size f.now) old basis.now.chosen (number_at row.now))) }
{
    let mut numbers = vec![in alloc; 0; basis.rows.cols() as usize]?;
    let mut factors = vec![in alloc; 0; basis.trace.size() as usize]?;
    let answer = written(alloc, f, basis, row, &mut numbers, &mut factors)?;
    Ok(answer)
}

/// The elimination of the chosen rows, with a trace of as many rows and columns as were chosen. It begins at the
/// reduced rows and a copy of their trace, and for each of them adds to all others at most once.
pub fn eliminate_chosen<F: Field, A: RowSpace<F>>(
    alloc: Global,
    f: &F,
    basis: GrowingBasis<A>,
) -> Result<Eliminated<A>, AllocError>
    requires { GrewFromSome (F.size f.now) (A.matrix basis.rows) (square_of basis.trace) basis.pivots
        basis.chosen basis.count }
    ensures { IfOk result (λ e. (old : Matrix)
        → IsGrown (F.size f.now) old (A.matrix basis.rows) (square_of basis.trace) basis.pivots basis.chosen basis.count
        → IsReducedOf (F.size f.now) (chosen_rows basis.chosen old) (A.matrix e.rows) (A.matrix e.trace) e.pivots) }
{
    let mut trace = stored(alloc, f, &basis.trace, &basis.rows)?;
    let mut rows = basis.rows;
    let pivots = eliminate(alloc, f, &mut rows, &mut trace)?;
    Ok(Eliminated {
        rows,
        trace,
        pivots,
    })
}
