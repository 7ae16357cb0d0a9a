//! The parts of the sums q_x at the powers of v - v^-1.
ghost use Rattle.std.specs.Prelude.{◌≡◌, ◌+◌, ◌*◌, ◌/◌, ◌^◌, ◌<◌, ◌≤◌, ℕ, pos, ◌+ℤ◌, ◌*ℤ◌, length, slice_index_or};
ghost use Rattle.bmp_math.specs.Integers.{IsWithin};
ghost use Rattle.bmp_roots.specs.RootSystems.{matrix_of, positive_roots_of};
ghost use Rattle.bmp_interval.specs.IntervalViews.{system_of, letters_of, vertices_of};
ghost use Rattle.bmp_kl.specs.IntervalBars.{counts_below};
ghost use Rattle.bmp_kl.specs.VertexSteps.{AreSteps};
ghost use Rattle.bmp_kl.specs.BarRows.{row_value, leadings_of, HasLiveRows};
ghost use Rattle.bmp_kl.specs.PartLists.{part_at, IsRowAdded, IsTermAdded, IsBarAdded};

use crate::rows::Rows;
use crate::steps::Steps;
use bmp_interval::Interval;

#[inline]
fn plus_product(part: i128, number: u64, top: i128) -> i128
    requires part { IsWithin (2 ^ 69) part }
    requires number { number ≤ 2 ^ 36 }
    requires top { IsWithin 1000000 top }
    ensures { result ≡ part +ℤ pos number *ℤ top }
{
    part + number as i128 * top
}

// Adds `top` times the numbers of row x to the parts from `start` on: number j at the power `gap` - 2 j.
fn add_row(parts: &mut Vec<i128>, rows: &Rows, x: usize, start: usize, gap: usize, top: i128)
    requires inside { start + 37 ≤ length parts.old.items }
    requires gap { gap ≤ 36 }
    requires rows { HasLiveRows (length rows.now.live.items) rows.now.values.items rows.now.live.items }
    requires vertex { x < length rows.now.live.items }
    requires small { (j : ℕ) → j < 19 → row_value rows.now.values.items x j ≤ 2 ^ 36 }
    requires top { IsWithin 1000000 top }
    requires fits { (d : ℕ) → d < 37 → IsWithin (2 ^ 69) (slice_index_or parts.old.items (start + d) (pos 0)) }
    ensures { IsRowAdded start gap (gap / 2 + 1) top (row_value rows.now.values.items x)
        parts.old.items parts.new.items }
{
    if rows.live[x] {
        for j in 0..gap / 2 + 1 {
            let place = start + gap - 2 * j;
            parts[place] = plus_product(parts[place], rows.values[x * 19 + j], top);
        }
    }
}

// Adds the terms of the bar of vertex y at the exponent -a, at each lower vertex.
fn add_term(
    parts: &mut Vec<i128>,
    interval: &Interval,
    steps: &Steps,
    rows: &Rows,
    y: usize,
    a: usize,
    top: i128,
)
    requires steps { AreSteps (system_of interval.now) (letters_of interval.now) (vertices_of interval.now) steps.now }
    requires vertex { y < length (vertices_of interval.now) }
    requires rows { HasLiveRows (length (vertices_of interval.now)) rows.now.values.items rows.now.live.items }
    requires bar { (x j : ℕ) → x < length (vertices_of interval.now) → j < 19 → row_value rows.now.values.items x j
        ≡ leadings_of (matrix_of (system_of interval.now)) (positive_roots_of (system_of interval.now))
        (vertices_of interval.now) x y j }
    requires places { length parts.old.items ≡ length (vertices_of interval.now) * 1369 }
    requires exponent { a < 37 }
    requires top { IsWithin 1000000 top }
    requires fits { (x d : ℕ) → x < y → d < 37 → IsWithin (2 ^ 69) (part_at parts.old.items x d a) }
    ensures { IsTermAdded a y top
        (counts_below (matrix_of (system_of interval.now)) (positive_roots_of (system_of interval.now))
        (vertices_of interval.now) y) parts.old.items parts.new.items }
{
    if top != 0 {
        for x in 0..y {
            let gap = (steps.lengths[y] - steps.lengths[x]) as usize;
            add_row(parts, rows, x, x * 1369 + a * 37, gap, top);
        }
    }
}

/// Adds the terms of the bar of vertex y at each lower vertex, where h_y has the 37 coefficients `tops` at the
/// exponents from 0.
pub fn add_bar(
    parts: &mut Vec<i128>,
    interval: &Interval,
    steps: &Steps,
    rows: &Rows,
    y: usize,
    tops: &[i128],
)
    requires steps { AreSteps (system_of interval.now) (letters_of interval.now) (vertices_of interval.now) steps.now }
    requires vertex { y < length (vertices_of interval.now) }
    requires rows { HasLiveRows (length (vertices_of interval.now)) rows.now.values.items rows.now.live.items }
    requires bar { (x j : ℕ) → x < length (vertices_of interval.now) → j < 19 → row_value rows.now.values.items x j
        ≡ leadings_of (matrix_of (system_of interval.now)) (positive_roots_of (system_of interval.now))
        (vertices_of interval.now) x y j }
    requires places { length parts.old.items ≡ length (vertices_of interval.now) * 1369 }
    requires tops { length tops.now ≡ 37 }
    requires small { (a : ℕ) → IsWithin 1000000 (slice_index_or tops.now a (pos 0)) }
    requires fits { (x a d : ℕ) → x < y → a < 37 → d < 37 → IsWithin (2 ^ 69) (part_at parts.old.items x d a) }
    ensures { IsBarAdded 37 y tops.now (counts_below (matrix_of (system_of interval.now))
        (positive_roots_of (system_of interval.now)) (vertices_of interval.now) y) parts.old.items parts.new.items }
{
    for a in 0..37 {
        add_term(parts, interval, steps, rows, y, a, tops[a]);
    }
}
