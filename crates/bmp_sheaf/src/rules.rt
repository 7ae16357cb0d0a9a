//! The rules of a stalk that is added to a sheaf, in the order in which they are tried.
ghost use Rattle.std.specs.Prelude.{◌≡◌, ℕ, ◌+◌, ◌-◌, ◌*◌, ◌^◌, ◌<◌, ◌≤◌, length, slice_index, MatchOption, OnOk, IfErr};
ghost use Rattle.bmp_graph.specs.Graph.{vertex_count, edge_count};
ghost use Rattle.bmp_sheaf.specs.Written.{first_edge, up_count};
ghost use Rattle.bmp_sheaf.specs.States.{next_vertex};
ghost use Rattle.bmp_sheaf.specs.StalkFaults.{NeverFalls, WithinBound, HasLifts, LiftFits, lift_room, IsFirst, IsStalk, BreaksFirst};

use crate::fault::SheafFault;
use crate::sheaf::Sheaf;
use bmp_field::Field;
use bmp_linear::Vector;

/// The first degree that is below the one before it.
fn first_fall(degrees: &[u32]) -> Option<u32>
    requires { length degrees.now < 2 ^ 32 }
    ensures { MatchOption result ((i : ℕ) → i < length degrees.now → NeverFalls degrees.now i)
        (IsFirst (NeverFalls degrees.now) (length degrees.now)) }
{
    let mut before = 0;
    for (i, degree) in degrees.iter().enumerate() {
        if *degree < before {
            return Some(i as u32);
        }
        before = *degree;
    }
    None
}

/// The first degree that is above the bound.
fn first_over(degrees: &[u32], bound: u32) -> Option<u32>
    requires { length degrees.now < 2 ^ 32 }
    ensures { MatchOption result ((i : ℕ) → i < length degrees.now → slice_index degrees.now i ≤ bound)
        (IsFirst (λ i. slice_index degrees.now i ≤ bound) (length degrees.now)) }
{
    for (i, degree) in degrees.iter().enumerate() {
        if *degree > bound {
            return Some(i as u32);
        }
    }
    None
}

impl<F: Field> Sheaf<F> {
    /// How many coordinates the lift number `i` of a stalk at the vertex `x`, the next one, may have.
    fn lift_room(&self, x: u32, degrees: &[u32], i: usize) -> u64
        requires left { length self.now.stalks < vertex_count self.now.graph }
        requires next { x ≡ next_vertex self.now }
        requires bound { (k : ℕ) → k < length degrees.now → WithinBound self.now degrees.now k }
        requires lift { i < up_count self.now.graph x * length degrees.now }
        ensures { result ≡ lift_room self.now x degrees.now i }
    {
        let (first, _) = self.graph().up(x);
        let edge = self.graph().edge(first + (i / degrees.len()) as u32);
        self.stalk_len(edge.upper, degrees[i % degrees.len()])
    }

    /// Whether each of the lifts fits, as the last rule. A space of 2^32 or more coordinates wants memory.
    fn check_lifts(&self, x: u32, degrees: &[u32], lifts: &[Vector]) -> Result<(), SheafFault>
        requires left { length self.now.stalks < vertex_count self.now.graph }
        requires next { x ≡ next_vertex self.now }
        requires rising { (k : ℕ) → k < length degrees.now → NeverFalls degrees.now k }
        requires bound { (k : ℕ) → k < length degrees.now → WithinBound self.now degrees.now k }
        requires counted { HasLifts self.now x degrees.now lifts.now }
        ensures stalk { OnOk result (IsStalk self.now x degrees.now lifts.now) }
        ensures fault { IfErr result (BreaksFirst self.now x degrees.now lifts.now) }
    {
        for (i, lift) in lifts.iter().enumerate() {
            let room = self.lift_room(x, degrees, i);
            if room > u64::from(u32::MAX) {
                return Err(SheafFault::Memory);
            }
            if !lift.fits(room as u32) {
                return Err(SheafFault::LiftShape { index: i as u64 });
            }
        }
        Ok(())
    }

    /// Whether the degrees and lifts make a stalk at the vertex `x`, the next one.
    pub(crate) fn check(&self, x: u32, degrees: &[u32], lifts: &[Vector]) -> Result<(), SheafFault>
        requires left { length self.now.stalks < vertex_count self.now.graph }
        requires next { x ≡ next_vertex self.now }
        requires few { length degrees.now < 2 ^ 32 }
        ensures stalk { OnOk result (IsStalk self.now x degrees.now lifts.now) }
        ensures fault { IfErr result (BreaksFirst self.now x degrees.now lifts.now) }
    {
        if let Some(index) = first_fall(degrees) {
            return Err(SheafFault::DegreeOrder { index });
        }
        if let Some(index) = first_over(degrees, self.degree()) {
            return Err(SheafFault::DegreeOverBound { index });
        }
        let (first, past) = self.graph().up(x);
        let count = lifts.len() as u64;
        if count != u64::from(past - first) * degrees.len() as u64 {
            return Err(SheafFault::LiftShape { index: count });
        }
        self.check_lifts(x, degrees, lifts)
    }
}
