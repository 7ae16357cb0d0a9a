//! The first members of a family.
ghost use Rattle.std.specs.Prelude.{◌≡◌, ℕ, ◌+◌, ◌*◌, ◌^◌, ◌<◌, ◌≤◌, IsTrue, length, slice_index};
ghost use Rattle.bmp_levels.specs.Lists.{first_members};
ghost use Rattle.bmp_levels.specs.Runs.{run_at, list_of};

use crate::family::Family;
use crate::run::Run;
use crate::sums::add_multiples;
use bmp_field::Field;
use bmp_sections::Sections;

/// The first members of a family, as a list of tuples. It keeps none of them.
#[derive(Drop)]
pub struct Members<'a> {
    family: &'a Family,
    count: u32,
    ghost within: { count ≤ family.now.count },
}

impl<'a> Members<'a> {
    /// The first `n` members.
    pub fn first(family: &'a Family, n: u32) -> Members<'a>
        requires { n ≤ family.now.count }
        ensures family { result.family.now ≡ family.now }
        ensures count { result.count ≡ n }
    {
        Members { family, count: n }
    }

    /// The values at a vertex.
    pub(crate) fn run(&self, y: u32) -> &'a Run
        requires { IsTrue ((list_of self.now.family.now).has y) }
        ensures { result.now ≡ run_at self.now.family.now y }
    {
        self.family.run(y)
    }

    /// Adds `factor` times the coordinate `c` of the value at `y` of each member to the sums, one for each member.
    pub fn add_coordinate(&self, y: u32, c: u32, factor: u8, sums: &mut [u16])
        requires vertex { IsTrue ((list_of self.now.family.now).has y) }
        requires coordinate { c < (list_of self.now.family.now).size y }
        requires members { length sums.old ≡ self.now.count }
        requires room { (j : ℕ) → j < self.now.count
            → slice_index sums.old j + factor * (list_of self.now.family.now).value j y c < 2 ^ 16 }
        ensures added { (j : ℕ) → j < self.now.count
            → slice_index sums.new j ≡ slice_index sums.old j + factor * (list_of self.now.family.now).value j y c }
        ensures members { length sums.new ≡ length sums.old }
    {
        let numbers = self.family.run(y).coordinate(c);
        let count = numbers.len().min(sums.len());
        add_multiples(factor, &numbers[..count], sums);
    }
}

impl<'a> Sections for Members<'a> {
    ghost list = { λ m. first_members m.count (list_of m.family.now) };

    fn count(&self) -> u64 {
        u64::from(self.count)
    }

    fn size(&self, y: u32) -> u64 {
        u64::from(self.family.run(y).size())
    }

    fn at(&self, j: u64, y: u32, c: u64) -> u8 {
        self.family.run(y).at(j, c)
    }

    fn add_coordinate_to<F: Field>(&self, f: &F, y: u32, c: u64, factor: F::E, sums: &mut [u8]) {
        let run = self.family.run(y);
        let _ = run.size();
        let numbers = run.first(c as u32, self.count as usize);
        f.add_multiple(factor, numbers, &mut sums[..numbers.len()]);
    }
}
