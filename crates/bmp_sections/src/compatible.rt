//! The check that a tuple is a section.
ghost use Rattle.std.specs.Prelude.{◌≡◌, ℕ, ◌<◌, ◌≤◌, OnOk, OnErr, IfErr, length};
ghost use Rattle.bmp_linear.specs.SparseVectors.{FitsBelow, ValuesBelow, IsSpread, number_at};
ghost use Rattle.bmp_sheaf.specs.States.{sheaf_of};
ghost use Rattle.bmp_sections.specs.Positions.{position_count, equation_count};
ghost use Rattle.bmp_sections.specs.Numbers.{is_above};
ghost use Rattle.bmp_sections.specs.Indexes.{IsIndexFor};
ghost use Rattle.bmp_sections.specs.EdgeFaults.{IsCompatible, equation_of, IsFirstEdgeFault};

use crate::equations::Equations;
use crate::index::SectionIndex;
use bmp_field::Field;
use bmp_linear::{Rows, Scratch, Vector};
use bmp_sheaf::Sheaf;

/// An edge equation that fails: its edge, its coordinate on the edge, its value, and 0.
#[derive(Clone, Copy, Debug, PartialEq, Eq)]
pub struct EdgeFault {
    pub edge: u32,
    pub place: u64,
    pub left: u32,
    pub right: u32,
}

/// Checks that a tuple over the vertices above `x`, of degree `d`, is a section: that the lift of its lower value and
/// its upper value are equal on each edge. The tuple has the numbers of `t` at its positions, for which the index is
/// filled.
///
/// The fault is the first equation that fails, by edge, and then by coordinate. Takes no memory.
pub fn compatible<F: Field>(
    sheaf: &Sheaf<F>,
    x: u32,
    d: u32,
    index: &SectionIndex,
    t: &Vector,
    s: &mut Scratch,
) -> Result<(), EdgeFault>
    requires indexed { IsIndexFor sheaf.now x d index.now }
    requires fits { let G = sheaf.now.graph in
        FitsBelow t.now (position_count G (sheaf_of sheaf.now) (is_above G x) d) }
    requires values { ValuesBelow t.now sheaf.now.graph.prime }
    requires room { let G = sheaf.now.graph in
        position_count G (sheaf_of sheaf.now) (is_above G x) d ≤ length s.old.first }
    ensures section { OnOk result (IsCompatible sheaf.now.graph (sheaf_of sheaf.now) x d (number_at t.now)) }
    ensures none { OnErr result (IsCompatible sheaf.now.graph (sheaf_of sheaf.now) x d (number_at t.now) → ⊥) }
    ensures fault { IfErr result (IsFirstEdgeFault sheaf.now.graph (sheaf_of sheaf.now) x d (number_at t.now)) }
    ensures room { length s.new.first ≡ length s.old.first }
{
    let _ = sheaf.graph();
    spread(t, index.positions, s);
    first_fault(sheaf, x, d, index, t, s.first())
}

/// Writes the first `len` numbers of the vector into the first row of the scratch.
fn spread(t: &Vector, len: u32, s: &mut Scratch)
    requires fits { FitsBelow t.now len }
    requires room { len ≤ length s.old.first }
    ensures spread { IsSpread t.now len s.new.first }
    ensures room { length s.new.first ≡ length s.old.first }
{
    for place in 0..u64::from(len) {
        s.set(false, place, 0);
    }
    for entry in t.entries() {
        s.set(false, u64::from(entry.place), entry.value);
    }
}

/// Goes over the equations in their order.
fn first_fault<F: Field>(
    sheaf: &Sheaf<F>,
    x: u32,
    d: u32,
    index: &SectionIndex,
    t: &Vector,
    numbers: &[u8],
) -> Result<(), EdgeFault>
    requires indexed { IsIndexFor sheaf.now x d index.now }
    requires fits { let G = sheaf.now.graph in
        FitsBelow t.now (position_count G (sheaf_of sheaf.now) (is_above G x) d) }
    requires values { ValuesBelow t.now sheaf.now.graph.prime }
    requires numbers { let G = sheaf.now.graph in
        IsSpread t.now (position_count G (sheaf_of sheaf.now) (is_above G x) d) numbers.now }
    ensures passed { let G = sheaf.now.graph in
        OnOk result ((k : ℕ) → k < equation_count G (sheaf_of sheaf.now) (is_above G x) d
        → equation_of G (sheaf_of sheaf.now) x d (number_at t.now) k ≡ 0) }
    ensures fault { IfErr result (IsFirstEdgeFault sheaf.now.graph (sheaf_of sheaf.now) x d (number_at t.now)) }
{
    let _ = sheaf.graph();
    let rows = Equations::over(sheaf, x, d, index);
    let f = sheaf.field();
    for k in 0..rows.rows() {
        let left = f.num(rows.value_at_spread(f, k, t, numbers));
        if left != 0 {
            let place = index.places[k as usize];
            return Err(EdgeFault {
                edge: place.edge,
                place: u64::from(place.coordinate),
                left,
                right: 0,
            });
        }
    }
    Ok(())
}
