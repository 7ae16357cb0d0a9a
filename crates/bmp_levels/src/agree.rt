//! Whether the values of members at a vertex have the boundaries of the members: of all members at once.
ghost use Rattle.std.specs.Prelude.{◌≡◌, ℕ, ◌+◌, ◌*◌, ◌%◌, ◌<◌, ◌≤◌, IsTrue, length, slice_index, sum_by};
ghost use Rattle.bmp_linear.specs.SparseVectors.{FitsBelow, ValuesBelow};
ghost use Rattle.bmp_graph.specs.Graph.{edge_count, lower, upper};
ghost use Rattle.bmp_sheaf.specs.States.{IsThere, sheaf_of};
ghost use Rattle.bmp_cover.specs.CoverInputs.{HasStalks, HasValues, HasTuples};
ghost use Rattle.bmp_levels.specs.Agreement.{AreWithin, signed_value, signed_sum, AgreesOn, AgreesAt};
ghost use Rattle.bmp_levels.specs.Lists.{first_members};
ghost use Rattle.bmp_levels.specs.Runs.{run_value, list_of};

use crate::members::Members;
use crate::run::Run;
use crate::sums::{add_reduced, are_multiples, clear};
use bmp_field::Field;
use bmp_linear::{Entry, Rows};
use bmp_sheaf::Sheaf;

/// The value of an entry, or minus it modulo the prime.
fn signed(p: u8, minus: bool, value: u8) -> u8
    requires { value < p }
    ensures { result ≡ signed_value minus p value }
{
    if minus { p - value } else { value }
}

/// Adds a row on the values at a vertex to the sums, or minus it, modulo the prime: one sum for each member. No sum was
/// above `most`, and none is above the result.
fn add_row(p: u8, minus: bool, run: &Run, row: &[Entry], most: u32, sums: &mut [u16]) -> u32
    requires prime { 1 ≤ p }
    requires row { ValuesBelow row.now p }
    requires fits { FitsBelow row.now run.now.size }
    requires values { (j c : ℕ) → j < length sums.old → c < run.now.size → run_value run.now j c < p }
    requires within { AreWithin most sums.old }
    ensures added { (j : ℕ) → j < length sums.old → slice_index sums.new j % p
        ≡ (slice_index sums.old j + signed_sum minus p row.now (run_value run.now j)) % p }
    ensures within { AreWithin result sums.new }
    ensures sums { length sums.new ≡ length sums.old }
{
    let mut room = most;
    for entry in row {
        let factor = signed(p, minus, entry.value);
        let numbers = run.first(entry.place, sums.len());
        room = add_reduced(p, room, factor, numbers, sums);
    }
    room
}

/// Whether a row on the values at one vertex is another row on those at another, modulo the prime, for each member.
fn rows_agree(
    p: u8,
    low: &Run,
    lower: &[Entry],
    high: &Run,
    upper: &[Entry],
    sums: &mut [u16],
) -> bool
    requires prime { 1 ≤ p }
    requires lower { ValuesBelow lower.now p }
    requires lower_fits { FitsBelow lower.now low.now.size }
    requires low_values { (j c : ℕ) → j < length sums.old → c < low.now.size → run_value low.now j c < p }
    requires upper { ValuesBelow upper.now p }
    requires upper_fits { FitsBelow upper.now high.now.size }
    requires high_values { (j c : ℕ) → j < length sums.old → c < high.now.size → run_value high.now j c < p }
    ensures agree { IsTrue result → (j : ℕ) → j < length sums.old
        → sum_by (λ e. e.value * run_value low.now j e.place) lower.now % p
        ≡ sum_by (λ e. e.value * run_value high.now j e.place) upper.now % p }
    ensures sums { length sums.new ≡ length sums.old }
{
    clear(sums);
    let most = add_row(p, false, high, upper, 0, sums);
    add_row(p, true, low, lower, most, sums);
    are_multiples(p, sums)
}

impl Members<'_> {
    /// Whether on an edge the lift of each member's value at the lower end is the value at the upper end.
    fn agree_on<F: Field>(&self, sheaf: &Sheaf<F>, e: u32, d: u32, sums: &mut [u16]) -> bool
        requires edge { e < edge_count sheaf.now.graph }
        requires there { IsThere sheaf.now (lower sheaf.now.graph e) }
        requires degree { d ≤ sheaf.now.degree }
        requires low { HasValues sheaf.now d (first_members self.now.count (list_of self.now.family.now))
            (lower sheaf.now.graph e) }
        requires high { HasValues sheaf.now d (first_members self.now.count (list_of self.now.family.now))
            (upper sheaf.now.graph e) }
        requires sums { length sums.old ≡ self.now.count }
        ensures agree { IsTrue result → AgreesOn sheaf.now.graph (sheaf_of sheaf.now) e d
            (first_members self.now.count (list_of self.now.family.now)) }
        ensures sums { length sums.new ≡ length sums.old }
    {
        let graph = sheaf.graph();
        let edge = graph.edge(e);
        let p = graph.prime();
        let low = self.run(edge.lower);
        let high = self.run(edge.upper);
        let lower = sheaf.lower_rows(e, d);
        let upper = sheaf.upper_rows(e, d);
        for i in 0..lower.rows() {
            if !rows_agree(p, low, lower.row(i), high, upper.row(i), sums) {
                return false;
            }
        }
        true
    }

    /// Whether the value of each member at `x` has the boundary of the member. The sums are to work in, one for each
    /// member. Takes no memory, and one pass over the members for each entry of the rows of the two maps of each edge.
    pub fn agree_at<F: Field>(&self, sheaf: &Sheaf<F>, x: u32, d: u32, sums: &mut [u16]) -> bool
        requires stalks { HasStalks sheaf.now x d }
        requires above { HasTuples sheaf.now x d (first_members self.now.count (list_of self.now.family.now)) }
        requires own { HasValues sheaf.now d (first_members self.now.count (list_of self.now.family.now)) x }
        requires sums { length sums.old ≡ self.now.count }
        ensures agree { IsTrue result → AgreesAt sheaf.now.graph (sheaf_of sheaf.now) x d
            (first_members self.now.count (list_of self.now.family.now)) }
        ensures sums { length sums.new ≡ length sums.old }
    {
        let (from, to) = sheaf.graph().up(x);
        for e in from..to {
            if !self.agree_on(sheaf, e, d, sums) {
                return false;
            }
        }
        true
    }
}
