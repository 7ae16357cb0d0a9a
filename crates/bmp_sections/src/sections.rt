//! Lists of tuples of elements, by their coordinates.
ghost use Rattle.std.specs.Prelude.{◌≡◌, ℕ, ◌+◌, ◌*◌, ◌%◌, ◌<◌, ◌≤◌, IsTrue, length, slice_index};
ghost use Rattle.bmp_linear.specs.RowChanges.{HoldsNumbers, IsRowAddedTo};
ghost use Rattle.bmp_linear.specs.RowTables.{Work};
ghost use Rattle.bmp_sections.specs.TupleLists.{TupleList, value_matrix};

use bmp_field::Field;
use bmp_linear::Scratch;

/// A list of tuples: for each tuple and each vertex of a set an element, by its coordinates.
pub trait Sections {
    /// The tuples.
    ghost list: { Self → TupleList };

    /// How many tuples there are.
    fn count(&self) -> u64
        ensures { result ≡ (list self.now).count };

    /// How many coordinates the values at `y` have.
    fn size(&self, y: u32) -> u64
        requires { IsTrue ((list self.now).has y) }
        ensures { result ≡ (list self.now).size y };

    /// The coordinate `c` of the value at `y` of the tuple `j`.
    fn at(&self, j: u64, y: u32, c: u64) -> u8
        requires tuple { j < (list self.now).count }
        requires vertex { IsTrue ((list self.now).has y) }
        requires coordinate { c < (list self.now).size y }
        ensures { result ≡ (list self.now).value j y c };

    /// Adds `factor` times the value at `y` of the tuple `j` to the second row of the scratch.
    fn add_value<F: Field>(&self, f: &F, j: u64, y: u32, factor: F::E, s: &mut Scratch)
        requires tuple { j < (list self.now).count }
        requires vertex { IsTrue ((list self.now).has y) }
        requires numbers { (c : ℕ) → c < (list self.now).size y → (list self.now).value j y c < F.size f.now }
        requires factor { F.is_value f.now factor }
        requires room { (list self.now).size y ≤ length s.old.second }
        requires sums { (c : ℕ) → c < (list self.now).size y → slice_index s.old.second c < F.size f.now }
        ensures added { (c : ℕ) → c < (list self.now).size y → slice_index s.new.second c
            ≡ (slice_index s.old.second c + F.num f.now factor * (list self.now).value j y c) % F.size f.now }
        ensures first { s.new.first ≡ s.old.first }
        ensures room { length s.new.second ≡ length s.old.second }
    {
        let _ = s.len();
        for c in 0..self.size(y) {
            let sum = f.from_num(u32::from(s.get(true, c)));
            let term = f.mul(factor, f.from_num(u32::from(self.at(j, y, c))));
            s.set(true, c, f.num(f.add(sum, term)) as u8);
        }
    }
    /// Adds `factor` times the coordinate `c` of the value at `y` of each tuple to the sums, one for each tuple.
    fn add_coordinate_to<F: Field>(&self, f: &F, y: u32, c: u64, factor: F::E, sums: &mut [u8])
        requires vertex { IsTrue ((list self.now).has y) }
        requires coordinate { c < (list self.now).size y }
        requires numbers { (j : ℕ) → j < (list self.now).count → (list self.now).value j y c < F.size f.now }
        requires factor { F.is_value f.now factor }
        requires sums { HoldsNumbers (F.size f.now) (list self.now).count sums.old }
        ensures { IsRowAddedTo (F.size f.now) (value_matrix (list self.now) y) c (F.num f.now factor)
            sums.old sums.new }
    {
        for j in 0..self.count() {
            let sum = f.from_num(u32::from(sums[j as usize]));
            let term = f.mul(factor, f.from_num(u32::from(self.at(j, y, c))));
            sums[j as usize] = f.num(f.add(sum, term)) as u8;
        }
    }
}
