//! Runs of equally many numbers, within a longer run.
ghost use Rattle.std.specs.Prelude.{ℕ, ◌+◌, ◌<◌, ◌≤◌, length};
ghost use Rattle.bmp_linear.specs.Runs.{HoldsRun, AreApart, IsRunAdded, IsRunMultiplied, AreRunsExchanged};

use bmp_field::Field;

/// Adds `c` times the numbers from `from` on to those from `into` on.
pub(crate) fn add_run<F: Field>(
    f: &F,
    c: F::E,
    numbers: &mut [u8],
    into: usize,
    from: usize,
    len: usize,
)
    requires factor { F.is_value f.now c }
    requires into { HoldsRun (F.size f.now) into len numbers.old }
    requires from { HoldsRun (F.size f.now) from len numbers.old }
    requires apart { AreApart into from len }
    ensures { IsRunAdded (F.size f.now) (F.num f.now c) into from len numbers.old numbers.new }
{
    if into + len <= from {
        let (front, back) = numbers.split_at_mut(from);
        f.add_multiple(c, &back[..len], &mut front[into..into + len]);
    } else {
        let (front, back) = numbers.split_at_mut(into);
        f.add_multiple(c, &front[from..from + len], &mut back[..len]);
    }
}

/// Multiplies the numbers from `start` on by `c`.
pub(crate) fn scale_run<F: Field>(f: &F, c: F::E, numbers: &mut [u8], start: usize, len: usize)
    requires factor { F.is_value f.now c }
    requires run { HoldsRun (F.size f.now) start len numbers.old }
    ensures { IsRunMultiplied (F.size f.now) (F.num f.now c) start len numbers.old numbers.new }
{
    for j in 0..len {
        let number = f.from_num(u32::from(numbers[start + j]));
        numbers[start + j] = f.num(f.mul(c, number)) as u8;
    }
}

/// Exchanges the numbers from `first` on with those from `second` on.
pub(crate) fn swap_runs(numbers: &mut [u8], first: usize, second: usize, len: usize)
    requires apart { AreApart first second len }
    requires first { first + len ≤ length numbers.old }
    requires second { second + len ≤ length numbers.old }
    ensures { AreRunsExchanged first second len numbers.old numbers.new }
{
    if first + len <= second {
        let (front, back) = numbers.split_at_mut(second);
        front[first..first + len].swap_with_slice(&mut back[..len]);
    } else {
        let (front, back) = numbers.split_at_mut(first);
        front[second..second + len].swap_with_slice(&mut back[..len]);
    }
}
