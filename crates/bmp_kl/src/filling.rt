//! The sums q_x and their parts, filled from the greatest vertex down.
ghost use Rattle.std.specs.Prelude.{◌≡◌, ◌≢◌, ◌+◌, ◌*◌, ◌<◌, ◌≤◌, ℕ, ℤ, pos, ◌≤ℤ◌, length, slice_index_or, IfOk};
ghost use Rattle.std.specs.Bool.{OnTrue, OnFalse};
ghost use Rattle.std.specs.Int.RustNames.{unsigned_abs};
ghost use Rattle.bmp_hecke.specs.Combinations.{value_in};
ghost use Rattle.bmp_kl.specs.SumTables.{sum_value};
ghost use Rattle.bmp_kl.specs.Filled.{top_value};

use crate::horner::sum_of_parts;
use crate::parts::add_bar;
use crate::rows::Rows;
use crate::steps::Steps;
use bmp_interval::Interval;
use std::alloc::{AllocError, Global};

/// The sums q_x of the vertices that are done, 73 coefficients each from the exponent -36 to 36, the parts of the
/// others, and what one vertex needs for a while: its bar, its sum, and the coefficients of h_x at the exponents from
/// 0.
#[derive(Drop)]
pub struct Filling {
    pub steps: Steps,
    pub sums: Vec<i128>,
    parts: Vec<i128>,
    rows: Rows,
    row: Vec<i128>,
    tops: Vec<i128>,
}

fn zeros(alloc: Global, count: usize) -> Result<Vec<i128>, AllocError>
    ensures long { IfOk result (λ list. length list.items ≡ count) }
    ensures zeros { IfOk result (λ list. (i : ℕ) → slice_index_or list.items i (pos 0) ≡ pos 0) }
{
    let list = vec![in alloc; 0; count]?;
    Ok(list)
}

// Whether a value is larger in size than the limit.
#[inline]
fn is_over(value: i128, limit: i64) -> bool
    requires { (pos 1 ≤ℤ limit) × (limit ≤ℤ pos 1000000) }
    ensures over { OnTrue result (unsigned_abs limit < unsigned_abs value) }
    ensures within { OnFalse result (unsigned_abs value ≤ unsigned_abs limit) }
{
    let most = limit as i128;
    if value > most { true } else { value < -most }
}

// Whether a coefficient at an exponent from 1 to 36 passes the limit.
fn passes(row: &[i128], limit: i64) -> bool
    requires long { length row.now ≡ 145 }
    requires limit { (pos 1 ≤ℤ limit) × (limit ≤ℤ pos 1000000) }
    ensures some { OnTrue result ((e : ℕ) × (0 < e) × (e ≤ 36)
        × (unsigned_abs limit < unsigned_abs (slice_index_or row.now (72 + e) (pos 0)))) }
    ensures none { OnFalse result ((e : ℕ) → 0 < e → e ≤ 36
        → unsigned_abs (slice_index_or row.now (72 + e) (pos 0)) ≤ unsigned_abs limit) }
{
    for e in 1..37 {
        if is_over(row[72 + e], limit) {
            return true;
        }
    }
    false
}

// Keeps the exponents from -36 to 36 of a row as q_x.
fn store(sums: &mut [i128], x: usize, row: &[i128])
    requires long { length row.now ≡ 145 }
    requires inside { x * 73 + 73 ≤ length sums.old }
    ensures as_long { length sums.new ≡ length sums.old }
    ensures here { (i : ℕ) → i < 73 → slice_index_or sums.new (x * 73 + i) (pos 0) ≡ slice_index_or row.now (i + 36)
        (pos 0) }
    ensures others { (y i : ℕ) → i < 73 → y ≢ x
        → slice_index_or sums.new (y * 73 + i) (pos 0) ≡ slice_index_or sums.old (y * 73 + i) (pos 0) }
{
    for i in 0..73 {
        sums[x * 73 + i] = row[i + 36];
    }
}

// The coefficient of h_x at the exponent a.
fn top_at(sums: &[i128], x: usize, count: usize, a: usize) -> i128
    requires inside { x * 73 + 73 ≤ length sums.now }
    requires exponent { a ≤ 36 }
    requires few { count ≤ 4096 }
    requires vertex { x < count }
    ensures { result ≡ top_value count sums.now x (pos a) }
{
    if x + 1 == count {
        if a == 0 { 1 } else { 0 }
    } else if a == 0 {
        0
    } else {
        sums[x * 73 + 36 + a]
    }
}

// The coefficients of h_x at the exponents from 0 to 36.
fn top_row(tops: &mut [i128], sums: &[i128], x: usize, count: usize)
    requires inside { x * 73 + 73 ≤ length sums.now }
    requires few { count ≤ 4096 }
    requires vertex { x < count }
    requires long { length tops.old ≡ 37 }
    ensures long { length tops.new ≡ 37 }
    ensures tops { (a : ℕ) → a < 37 → slice_index_or tops.new a (pos 0) ≡ top_value count sums.now x (pos a) }
{
    for a in 0..37 {
        tops[a] = top_at(sums, x, count, a);
    }
}

impl Filling {
    ghost use Rattle.bmp_roots.specs.RootSystems.{matrix_of, positive_roots_of};
    ghost use Rattle.bmp_interval.specs.IntervalViews.{system_of, letters_of, vertices_of};
    ghost use Rattle.bmp_kl.specs.Filled.{HasTooBig};
    ghost use Rattle.bmp_kl.specs.Fillings.{IsFilling};

    /// Nothing is filled yet.
    pub fn of(alloc: Global, interval: &Interval) -> Result<Filling, AllocError>
        ensures { IfOk result (λ filling. (limit : ℕ) → IsFilling (system_of interval.now) (letters_of interval.now)
            (vertices_of interval.now) limit (length (vertices_of interval.now)) filling) }
    {
        let count = interval.len() as usize;
        let steps = Steps::of(alloc, interval)?;
        let rows = Rows::zeros(alloc, count)?;
        Ok(Filling {
            steps,
            sums: zeros(alloc, count * 73)?,
            parts: zeros(alloc, count * 1369)?,
            rows,
            row: zeros(alloc, 145)?,
            tops: zeros(alloc, 37)?,
        })
    }

    /// One more vertex: q_x from its parts, and then its terms for the lower ones. False where it passes the limit.
    pub fn fill(&mut self, interval: &Interval, x: usize, limit: i64) -> bool
        requires vertex { x < length (vertices_of interval.now) }
        requires limit { (pos 1 ≤ℤ limit) × (limit ≤ℤ pos 1000000) }
        requires filling { IsFilling (system_of interval.now) (letters_of interval.now) (vertices_of interval.now)
            (unsigned_abs limit) (x + 1) self.old }
        ensures filling { OnTrue result
            (IsFilling (system_of interval.now) (letters_of interval.now) (vertices_of interval.now)
            (unsigned_abs limit) x self.new) }
        ensures too_big { OnFalse result (HasTooBig (matrix_of (system_of interval.now))
            (positive_roots_of (system_of interval.now)) (vertices_of interval.now) (unsigned_abs limit) x) }
    {
        let count = interval.len() as usize;
        sum_of_parts(&self.parts, x, &mut self.row);
        if passes(&self.row, limit) {
            return false;
        }
        store(&mut self.sums, x, &self.row);
        top_row(&mut self.tops, &self.sums, x, count);
        self.rows.bar(interval, &self.steps, x);
        add_bar(
            &mut self.parts,
            interval,
            &self.steps,
            &self.rows,
            x,
            &self.tops,
        );
        true
    }
}
