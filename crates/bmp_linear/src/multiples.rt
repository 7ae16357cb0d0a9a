//! Multiples of one row, added to the other rows of a run of numbers.
//!
//! Only the run of the row from its first number that isn't 0 to its last is added. Where there are many
//! rows its multiples are made once, each by one sum more, so that a row takes one sum a number.
ghost use Rattle.std.specs.Prelude.{◌≡◌, ◌≢◌, ℕ, ◌+◌, ◌*◌, ◌<◌, ◌≤◌, ◌^◌, length, slice_index, EachIndex, OnOk, IfOk};
ghost use Rattle.bmp_math.specs.Matrices.{Matrix, NumbersBelow};
ghost use Rattle.bmp_field.specs.Runs.{AreBelow};
ghost use Rattle.bmp_linear.specs.RowChanges.{AreMultiplesAdded};
ghost use Rattle.bmp_linear.specs.RowRuns.{IsRowRun, HasMultiples, IsAddedTo, AreAddedBelow};
ghost use Rattle.bmp_linear.specs.RowTables.{rows_of};
ghost use Rattle.bmp_linear.specs.Runs.{HoldsRun, IsListAdded, AreMultiples};

use crate::runs::add_run;
use bmp_field::Field;
use std::alloc::{AllocError, Global};

/// A run of the row `row` of rows of `cols` numbers: the `len` numbers from the column `start` on.
#[derive(Clone, Copy)]
pub(crate) struct RowRun {
    pub(crate) rows: usize,
    pub(crate) cols: usize,
    pub(crate) row: usize,
    pub(crate) start: usize,
    pub(crate) len: usize,
}

/// How many numbers are 0 before the first that isn't.
pub(crate) fn zeros_before(numbers: &[u8]) -> usize
    ensures within { result ≤ length numbers.now }
    ensures zero { (j : ℕ) → j < result → slice_index numbers.now j ≡ 0 }
{
    let mut count = 0;
    while count < numbers.len() && numbers[count] == 0 {
        count += 1;
    }
    count
}

/// The place behind the last number that isn't 0, and `start` at least.
fn end_of_numbers(numbers: &[u8], start: usize) -> usize
    requires { start ≤ length numbers.now }
    ensures late { start ≤ result }
    ensures within { result ≤ length numbers.now }
    ensures zero { (j : ℕ) → result ≤ j → j < length numbers.now → slice_index numbers.now j ≡ 0 }
{
    let mut end = numbers.len();
    while start < end && numbers[end - 1] == 0 {
        end -= 1;
    }
    end
}

/// The run of a row outside of which it is 0.
fn row_run<F: Field>(f: &F, numbers: &[u8], rows: usize, cols: usize, row: usize) -> RowRun
    requires length { length numbers.now ≡ rows * cols }
    requires row { row < rows }
    requires numbers { NumbersBelow (F.size f.now) (rows_of rows cols numbers.now) }
    ensures rows { result.rows ≡ rows }
    ensures cols { result.cols ≡ cols }
    ensures row { result.row ≡ row }
    ensures run { IsRowRun (F.size f.now) result numbers.now }
{
    let _ = f;
    let place = row * cols;
    let of_row = &numbers[place..place + cols];
    let start = zeros_before(of_row);
    let end = end_of_numbers(of_row, start);
    RowRun {
        rows,
        cols,
        row,
        start,
        len: end - start,
    }
}

/// Adds the numbers of a run to those from `into` on.
fn add_at<F: Field>(f: &F, run: &[u8], numbers: &mut [u8], into: usize)
    requires run { AreBelow (F.size f.now) run.now }
    requires into { HoldsRun (F.size f.now) into (length run.now) numbers.old }
    ensures { IsListAdded (F.size f.now) into run.now numbers.old numbers.new }
{
    f.add_multiple(f.one(), run, &mut numbers[into..into + run.len()]);
}

/// Copies the numbers from `from` on to those from `into` on, a later run.
fn copy_run(numbers: &mut [u8], from: usize, into: usize, len: usize)
    requires apart { from + len ≤ into }
    requires room { into + len ≤ length numbers.old }
    ensures sized { length numbers.new ≡ length numbers.old }
    ensures copied { (j : ℕ) → j < len → slice_index numbers.new (into + j) ≡ slice_index numbers.old (from + j) }
    ensures before { (k : ℕ) → k < into → slice_index numbers.new k ≡ slice_index numbers.old k }
{
    let (front, back) = numbers.split_at_mut(into);
    back[..len].copy_from_slice(&front[from..from + len]);
}

/// Writes the multiple number `c` of a run, by one sum more than the one before it.
fn write_multiple<F: Field>(f: &F, run: &[u8], table: &mut [u8], c: usize)
    requires some { 0 < c }
    requires run { AreBelow (F.size f.now) run.now }
    requires room { c * length run.now + length run.now ≤ length table.old }
    requires before { AreMultiples (F.size f.now) c run.now table.old }
    ensures sized { length table.new ≡ length table.old }
    ensures more { AreMultiples (F.size f.now) (c + 1) run.now table.new }
{
    let len = run.len();
    copy_run(table, (c - 1) * len, c * len, len);
    add_at(f, run, table, c * len);
}

/// Writes the multiples of a run by each number of the field, one after the other.
fn write_multiples<F: Field>(f: &F, run: &[u8], table: &mut [u8])
    requires run { AreBelow (F.size f.now) run.now }
    requires room { length table.old ≡ F.size f.now * length run.now }
    requires zero { EachIndex table.old (λ j. slice_index table.old j ≡ 0) }
    ensures sized { length table.new ≡ length table.old }
    ensures multiples { AreMultiples (F.size f.now) (F.size f.now) run.now table.new }
{
    for c in 1..f.size() as usize {
        write_multiple(f, run, table, c);
    }
}

/// The multiples of numbers by each number of the field, one after the other.
pub(crate) fn table_of<F: Field>(
    alloc: Global,
    f: &F,
    numbers: &[u8],
) -> Result<Vec<u8>, AllocError>
    requires numbers { AreBelow (F.size f.now) numbers.now }
    requires limit { length numbers.now < 2 ^ 32 }
    ensures sized { IfOk result (λ table. length table.items ≡ F.size f.now * length numbers.now) }
    ensures multiples { IfOk result (λ table. AreMultiples (F.size f.now) (F.size f.now) numbers.now table.items) }
{
    let mut table = vec![in alloc; 0; f.size() as usize * numbers.len()]?;
    write_multiples(f, numbers, &mut table);
    Ok(table)
}

/// The multiples of a run by each number of the field, one after the other.
fn multiples_of<F: Field>(
    alloc: Global,
    f: &F,
    numbers: &[u8],
    run: RowRun,
) -> Result<Vec<u8>, AllocError>
    requires run { IsRowRun (F.size f.now) run numbers.now }
    requires limit { run.cols < 2 ^ 32 }
    ensures { IfOk result (λ table. HasMultiples (F.size f.now) run numbers.now table.items) }
{
    let place = run.row * run.cols + run.start;
    let table = table_of(alloc, f, &numbers[place..place + run.len])?;
    Ok(table)
}

/// Adds `c` times the row of a run to the row `i`, if that is another, by the table of the run's multiples.
fn add_by_table<F: Field>(f: &F, numbers: &mut [u8], run: RowRun, i: usize, c: u8, table: &[u8])
    requires run { IsRowRun (F.size f.now) run numbers.old }
    requires row { i < run.rows }
    requires factor { c < F.size f.now }
    requires table { HasMultiples (F.size f.now) run numbers.old table.now }
    ensures { IsAddedTo (F.size f.now) run i c numbers.old numbers.new }
{
    if i == run.row || c == 0 {
        return;
    }
    let multiple = c as usize * run.len;
    let place = i * run.cols + run.start;
    add_at(f, &table[multiple..multiple + run.len], numbers, place);
}

/// The same of each row and its factor.
fn add_all_by_table<F: Field>(f: &F, numbers: &mut [u8], run: RowRun, factors: &[u8], table: &[u8])
    requires run { IsRowRun (F.size f.now) run numbers.old }
    requires rows { length factors.now ≡ run.rows }
    requires factors { AreBelow (F.size f.now) factors.now }
    requires table { HasMultiples (F.size f.now) run numbers.old table.now }
    ensures { AreAddedBelow run.rows (F.size f.now) run (slice_index factors.now) numbers.old numbers.new }
{
    for i in 0..run.rows {
        add_by_table(f, numbers, run, i, factors[i], table);
    }
}

/// Adds `c` times the row of a run to the row `i`, if that is another, by products.
fn add_by_products<F: Field>(f: &F, numbers: &mut [u8], run: RowRun, i: usize, c: u8)
    requires run { IsRowRun (F.size f.now) run numbers.old }
    requires row { i < run.rows }
    requires factor { c < F.size f.now }
    ensures { IsAddedTo (F.size f.now) run i c numbers.old numbers.new }
{
    if i == run.row || c == 0 {
        return;
    }
    let into = i * run.cols + run.start;
    let from = run.row * run.cols + run.start;
    add_run(f, f.from_num(u32::from(c)), numbers, into, from, run.len);
}

/// The same of each row and its factor.
fn add_all_by_products<F: Field>(f: &F, numbers: &mut [u8], run: RowRun, factors: &[u8])
    requires run { IsRowRun (F.size f.now) run numbers.old }
    requires rows { length factors.now ≡ run.rows }
    requires factors { AreBelow (F.size f.now) factors.now }
    ensures { AreAddedBelow run.rows (F.size f.now) run (slice_index factors.now) numbers.old numbers.new }
{
    for i in 0..run.rows {
        add_by_products(f, numbers, run, i, factors[i]);
    }
}

/// Adds to each other row its factor times the row `from`.
pub(crate) fn add_multiples<F: Field>(
    alloc: Global,
    f: &F,
    numbers: &mut [u8],
    cols: usize,
    from: usize,
    factors: &[u8],
) -> Result<(), AllocError>
    requires length { length numbers.old ≡ length factors.now * cols }
    requires limit { cols < 2 ^ 32 }
    requires numbers { NumbersBelow (F.size f.now) (rows_of (length factors.now) cols numbers.old) }
    requires from { from < length factors.now }
    requires factors { AreBelow (F.size f.now) factors.now }
    ensures sized { OnOk result (length numbers.new ≡ length numbers.old) }
    ensures added { OnOk result (AreMultiplesAdded (F.size f.now) (rows_of (length factors.now) cols numbers.old)
        (rows_of (length factors.now) cols numbers.new) from (slice_index factors.now)) }
{
    let run = row_run(f, numbers, factors.len(), cols, from);
    if factors.len() < f.size() as usize {
        add_all_by_products(f, numbers, run, factors);
    } else {
        let table = multiples_of(alloc, f, numbers, run)?;
        add_all_by_table(f, numbers, run, factors, &table);
    }
    Ok(())
}
