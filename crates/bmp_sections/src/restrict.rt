//! The restriction of a tuple to fewer vertices.
ghost use Rattle.std.specs.Prelude.{◌≡◌, ℕ, ◌+◌, ◌^◌, ◌<◌, ◌≤◌, IfOk, OnOk, length};
ghost use Rattle.bmp_linear.specs.SparseVectors.{IsSparse, FitsBelow, ValuesBelow, number_at};
ghost use Rattle.bmp_graph.specs.Graph.{vertex_count};
ghost use Rattle.bmp_sheaf.specs.States.{sheaf_of};
ghost use Rattle.bmp_sections.specs.Restrictions.{IsWithin, AreThere, set_count, IsRestriction, IsSameTuple, StaysSection};

use crate::runs::number_of;
use crate::upper_set::UpperSet;
use bmp_field::Field;
use bmp_linear::{Entry, Vector};
use bmp_sheaf::Sheaf;
use std::alloc::{AllocError, Global};

/// The restriction of a tuple over the vertices of `from`, of degree `d`, to those of `to`: the tuple with the same
/// values there. Both have the numbers of a vector at their positions. Where the tuple is a section, so is its
/// restriction.
pub fn restrict<F: Field>(
    alloc: Global,
    sheaf: &Sheaf<F>,
    from: &UpperSet,
    to: &UpperSet,
    d: u32,
    t: &Vector,
) -> Result<Vector, AllocError>
    requires from { length from.now ≡ vertex_count sheaf.now.graph }
    requires to { length to.now ≡ vertex_count sheaf.now.graph }
    requires within { IsWithin to.now from.now }
    requires there { AreThere sheaf.now from.now }
    requires degree { d ≤ sheaf.now.degree }
    requires few { set_count sheaf.now from.now d < 2 ^ 32 }
    requires fits { FitsBelow t.now (set_count sheaf.now from.now d) }
    requires values { ValuesBelow t.now sheaf.now.graph.prime }
    ensures fits { IfOk result (λ v. FitsBelow v (set_count sheaf.now to.now d)) }
    ensures values { IfOk result (λ v. ValuesBelow v sheaf.now.graph.prime) }
    ensures numbers { IfOk result (IsRestriction sheaf.now.graph (sheaf_of sheaf.now) d from.now to.now t.now) }
    ensures tuple { IfOk result (IsSameTuple sheaf.now.graph (sheaf_of sheaf.now) d from.now to.now t.now) }
    ensures section { IfOk result (StaysSection sheaf.now.graph (sheaf_of sheaf.now) d from.now to.now t.now) }
{
    let mut restricted = Vector::new(alloc);
    let mut start = 0;
    let mut place = 0;
    for y in 0..sheaf.graph().vertices() {
        if from.has(y) {
            let len = sheaf.stalk_len(y, d) as u32;
            if to.has(y) {
                push_run(&mut restricted, t.entries(), start, place, len)?;
                place += len;
            }
            start += len;
        }
    }
    Ok(restricted)
}

/// Appends the `len` numbers from place `start` on, at the places from `place` on.
fn push_run(
    v: &mut Vector,
    entries: &[Entry],
    start: u32,
    place: u32,
    len: u32,
) -> Result<(), AllocError>
    requires sparse { IsSparse entries.now }
    requires after { FitsBelow v.old place }
    requires few { start + len < 2 ^ 32 }
    requires room { place + len < 2 ^ 32 }
    ensures fits { OnOk result (FitsBelow v.new (place + len)) }
    ensures kept { OnOk result ((j : ℕ) → j < place → number_at v.new j ≡ number_at v.old j) }
    ensures added { OnOk result
        ((c : ℕ) → c < len → number_at v.new (place + c) ≡ number_at entries.now (start + c)) }
    ensures values { OnOk result
        ((p : ℕ) → 0 < p → ValuesBelow v.old p → ValuesBelow entries.now p → ValuesBelow v.new p) }
{
    for c in 0..len {
        let value = number_of(entries, u64::from(start + c));
        if value != 0 {
            v.push(Entry {
                place: place + c,
                value,
            })?;
        }
    }
    Ok(())
}
