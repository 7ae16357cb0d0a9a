//! Bars of vertices, in powers of v - v^-1.
ghost use Rattle.std.specs.Prelude.{◌≡◌, ◌≢◌, ◌+◌, ◌*◌, ◌^◌, ◌<◌, ◌≤◌, ◌==◌, if◌then◌else◌, ℕ, Some, length, IfOk, slice_index, slice_index_or};
ghost use Rattle.bmp_roots.specs.RootSystems.{matrix_of, positive_roots_of};
ghost use Rattle.bmp_interval.specs.IntervalViews.{system_of, letters_of, vertices_of};
ghost use Rattle.bmp_hecke.specs.DifferenceBars.{one_at_zero};
ghost use Rattle.bmp_kl.specs.VertexProducts.{partner};
ghost use Rattle.bmp_kl.specs.BarRows.{behind, row_value, leadings_of, HasLiveRows, stepped_row, IsPairStepped, IsRowsStepped, IsMatched};

use crate::steps::Steps;
use bmp_interval::Interval;
use std::alloc::{AllocError, Global};

/// The bar of a vertex: 19 numbers for each vertex x, the coefficients at the powers len(y) - len(x) - 2 j of v - v^-1.
/// Only live rows have other numbers than 0.
#[derive(Drop)]
pub struct Rows {
    pub values: Vec<u64>,
    pub live: Vec<bool>,
}

// One step on the first `width` numbers of the rows that begin at `low` and, of the longer product, at `high`: the
// first gets the second, a place later, and the second becomes the first.
fn step_pair(values: &mut Vec<u64>, low: usize, high: usize, width: usize)
    requires apart { low + 19 ≤ high }
    requires inside { high + 19 ≤ length values.old.items }
    requires width { width ≤ 19 }
    requires small_low { (j : ℕ) → j < 19 → behind values.old.items low j ≤ 2 ^ 36 }
    requires small_high { (j : ℕ) → j < 19 → behind values.old.items high j ≤ 2 ^ 36 }
    ensures { IsPairStepped low high width values.old.items values.new.items }
{
    let mut carried = 0;
    for j in 0..width {
        let here = values[low + j];
        let there = values[high + j];
        values[low + j] = here + carried;
        values[high + j] = here;
        carried = there;
    }
}

impl Rows {
    ghost use Rattle.bmp_kl.specs.VertexSteps.{AreSteps};

    /// Rows of zeros.
    pub fn zeros(alloc: Global, count: usize) -> Result<Rows, AllocError>
        requires { count ≤ 4096 }
        ensures { IfOk result (λ rows. HasLiveRows count rows.values.items rows.live.items) }
    {
        let values = vec![in alloc; 0; count * 19]?;
        let live = vec![in alloc; false; count]?;
        Ok(Rows { values, live })
    }

    // Steps the rows of x and of its longer product z, which have no numbers past the width.
    fn turn(&mut self, x: usize, z: usize, width: usize)
        requires order { x < z }
        requires inside { z < length self.old.live.items }
        requires rows { HasLiveRows (length self.old.live.items) self.old.values.items self.old.live.items }
        requires width { width ≤ 19 }
        requires here { (j : ℕ) → width ≤ j → j < 19 → row_value self.old.values.items x j ≡ 0 }
        requires there { (j : ℕ) → width ≤ j + 1 → j < 19 → row_value self.old.values.items z j ≡ 0 }
        requires small_here { (j : ℕ) → j < 19 → row_value self.old.values.items x j ≤ 2 ^ 36 }
        requires small_there { (j : ℕ) → j < 19 → row_value self.old.values.items z j ≤ 2 ^ 36 }
        ensures rows { HasLiveRows (length self.old.live.items) self.new.values.items self.new.live.items }
        ensures stepped { IsRowsStepped x z self.old.values.items self.new.values.items }
    {
        if self.live[x] || self.live[z] {
            step_pair(&mut self.values, x * 19, z * 19, width);
            self.live[x] = true;
            self.live[z] = true;
        }
    }

    // Steps the rows of x and of its product with the simple reflection k, from 0, where that is longer. `level` is the
    // length of the bar that is made.
    fn step_at(&mut self, steps: &Steps, k: usize, x: usize, level: u32)
        requires rows { HasLiveRows (length steps.now.lengths.items) self.old.values.items self.old.live.items }
        requires letter { k < 6 }
        requires products { length steps.now.products.items ≡ length steps.now.lengths.items * 6 }
        requires vertex { x < length steps.now.lengths.items }
        requires below { slice_index steps.now.lengths.items x < level }
        requires level { level ≤ 36 }
        requires inside { (z : ℕ) → partner steps.now.products.items k x ≡ Some z → z < length steps.now.lengths.items }
        requires here { (z j : ℕ) → partner steps.now.products.items k x ≡ Some z → x < z
            → level ≤ slice_index steps.now.lengths.items x + 2 * j → j < 19 → row_value self.old.values.items x j ≡ 0 }
        requires there { (z j : ℕ) → partner steps.now.products.items k x ≡ Some z → x < z
            → level ≤ slice_index steps.now.lengths.items x + 1 + 2 * j → j < 19 → row_value self.old.values.items z j
            ≡ 0 }
        requires small_here { (z j : ℕ) → partner steps.now.products.items k x ≡ Some z → x < z → j < 19
            → row_value self.old.values.items x j ≤ 2 ^ 36 }
        requires small_there { (z j : ℕ) → partner steps.now.products.items k x ≡ Some z → x < z → j < 19
            → row_value self.old.values.items z j ≤ 2 ^ 36 }
        ensures rows { HasLiveRows (length steps.now.lengths.items) self.new.values.items self.new.live.items }
        ensures stepped { (z : ℕ) → partner steps.now.products.items k x ≡ Some z → x < z
            → IsRowsStepped x z self.old.values.items self.new.values.items }
        ensures kept { ((z : ℕ) → partner steps.now.products.items k x ≡ Some z → x < z → ⊥)
            → self.new.values.items ≡ self.old.values.items }
    {
        if let Some(z) = steps.products[x * 6 + k] {
            if x < z {
                self.turn(x, z, (level - steps.lengths[x]) as usize / 2 + 1);
            }
        }
    }

    // One step of a bar, with the simple reflection k, from 0, to a bar of the length `level`.
    fn step(&mut self, steps: &Steps, k: usize, level: u32)
        requires rows { HasLiveRows (length steps.now.lengths.items) self.old.values.items self.old.live.items }
        requires letter { k < 6 }
        requires products { length steps.now.products.items ≡ length steps.now.lengths.items * 6 }
        requires level { level ≤ 36 }
        requires matched { IsMatched (partner steps.now.products.items k) steps.now.lengths.items
            (length steps.now.lengths.items) }
        requires rising { (x y : ℕ) → x ≤ y → y < length steps.now.lengths.items
            → slice_index steps.now.lengths.items x ≤ slice_index steps.now.lengths.items y }
        requires narrow { (v j : ℕ) → v < length steps.now.lengths.items → j < 19
            → level ≤ slice_index steps.now.lengths.items v + 2 * j → row_value self.old.values.items v j ≡ 0 }
        requires small { (v j : ℕ) → v < length steps.now.lengths.items → j < 19 →
            row_value self.old.values.items v j ≤ 2 ^ 36 }
        ensures rows { HasLiveRows (length steps.now.lengths.items) self.new.values.items self.new.live.items }
        ensures stepped { (v j : ℕ) → v < length steps.now.lengths.items → j < 19 → row_value self.new.values.items v j
            ≡ stepped_row (partner steps.now.products.items k v) (row_value self.old.values.items) v j }
    {
        for x in 0..steps.shorter_than(level) {
            self.step_at(steps, k, x, level);
        }
    }

    // Makes a row zeros.
    fn clear(&mut self, x: usize)
        requires inside { x < length self.old.live.items }
        requires rows { HasLiveRows (length self.old.live.items) self.old.values.items self.old.live.items }
        ensures rows { (n : ℕ) → HasLiveRows n self.old.values.items self.old.live.items
            → HasLiveRows n self.new.values.items self.new.live.items }
        ensures zeros { (j : ℕ) → j < 19 → row_value self.new.values.items x j ≡ 0 }
        ensures kept { (v j : ℕ) → j < 19 → v ≢ x →
            row_value self.new.values.items v j ≡ row_value self.old.values.items v j }
    {
        if self.live[x] {
            for j in 0..19 {
                self.values[x * 19 + j] = 0;
            }
            self.live[x] = false;
        }
    }

    // The bar of the identity, which is vertex 0.
    fn start(&mut self)
        requires some { 0 < length self.old.live.items }
        requires rows { HasLiveRows (length self.old.live.items) self.old.values.items self.old.live.items }
        ensures rows { HasLiveRows (length self.old.live.items) self.new.values.items self.new.live.items }
        ensures one { (v j : ℕ) → v < length self.old.live.items → j < 19
            → row_value self.new.values.items v j ≡ (if v == 0 then one_at_zero j else 0) }
    {
        for x in 0..self.live.len() {
            self.clear(x);
        }
        self.values[0] = 1;
        self.live[0] = true;
    }

    /// The bar of vertex y, along its word of least right descents.
    pub fn bar(&mut self, interval: &Interval, steps: &Steps, y: usize)
        requires steps { AreSteps (system_of interval.now) (letters_of interval.now) (vertices_of interval.now)
            steps.now }
        requires vertex { y < length (vertices_of interval.now) }
        requires rows { HasLiveRows (length (vertices_of interval.now)) self.old.values.items self.old.live.items }
        ensures rows { HasLiveRows (length (vertices_of interval.now)) self.new.values.items self.new.live.items }
        ensures bar { (x j : ℕ) → x < length (vertices_of interval.now) → j < 19 → row_value self.new.values.items x j
            ≡ leadings_of (matrix_of (system_of interval.now)) (positive_roots_of (system_of interval.now))
            (vertices_of interval.now) x y j }
    {
        match steps.descent(y) {
            None => self.start(),
            Some(descent) => {
                self.bar(interval, steps, descent.below);
                self.step(steps, descent.letter, steps.lengths[y]);
            }
        }
    }
}
