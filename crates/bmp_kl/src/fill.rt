//! The table of an interval.
ghost use Rattle.std.specs.Prelude.{◌≡◌, ◌<◌, ◌≤◌, ℕ, ℤ, pos, ◌≤ℤ◌, length, map, IfOk, IfErr};
ghost use Rattle.std.specs.Int.RustNames.{unsigned_abs};
ghost use Rattle.bmp_roots.specs.RootSystems.{matrix_of, positive_roots_of};
ghost use Rattle.bmp_weyl.specs.Elements.{element_length};
ghost use Rattle.bmp_interval.specs.IntervalViews.{system_of, vertices_of};
ghost use Rattle.bmp_kl.specs.Tables.{IsTable};
ghost use Rattle.bmp_kl.specs.IntervalBars.{bars_of};
ghost use Rattle.bmp_kl.specs.KlTables.{count_of, sum_of, coefficient_of};
ghost use Rattle.bmp_kl.specs.Filled.{IsError};

use crate::error::KlError;
use crate::filling::Filling;
use crate::steps::vertex_lengths;
use crate::table::KlTable;
use bmp_interval::Interval;
use std::alloc::Global;

/// The table of an interval, for a limit from 1 to 1,000,000. The error names the greatest vertex x where a coefficient
/// of h_x is larger in size than the limit, or says that memory is short; the coefficients of q_x are not limited.
///
/// It takes some 22,000 bytes for each vertex, and for each vertex y the time of its bar: for each letter of y, the
/// products of the vertices that are shorter.
pub fn kl_table(alloc: Global, interval: &Interval, limit: i64) -> Result<KlTable, KlError>
    requires { (pos 1 ≤ℤ limit) × (limit ≤ℤ pos 1000000) }
    ensures table { IfOk result (λ table. IsTable (length (vertices_of interval.now))
        (bars_of (matrix_of (system_of interval.now)) (positive_roots_of (system_of interval.now))
        (vertices_of interval.now))
        (coefficient_of table) (sum_of table)) }
    ensures count { IfOk result (λ table. count_of table ≡ length (vertices_of interval.now)) }
    ensures lengths { IfOk result (λ table. table.lengths.items
        ≡ map (element_length (positive_roots_of (system_of interval.now))) (vertices_of interval.now)) }
    ensures within { IfOk result (λ table. (x : ℕ) (e : ℤ) → x < length (vertices_of interval.now)
        → unsigned_abs (coefficient_of table x e) ≤ unsigned_abs limit) }
    ensures error { IfErr result (IsError (matrix_of (system_of interval.now))
        (positive_roots_of (system_of interval.now)) (vertices_of interval.now) (unsigned_abs limit)) }
{
    let Ok(lengths) = vertex_lengths(alloc, interval) else {
        return Err(KlError::Memory);
    };
    let Ok(mut filling) = Filling::of(alloc, interval) else {
        return Err(KlError::Memory);
    };
    let mut x = interval.len() as usize;
    while x > 0 {
        x -= 1;
        if !filling.fill(interval, x, limit) {
            return Err(KlError::TooBig { x: x as u32 });
        }
    }
    Ok(KlTable {
        lengths,
        sums: filling.sums,
    })
}
