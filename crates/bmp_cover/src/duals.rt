//! The check of dual forms.
ghost use Rattle.std.specs.Prelude.{◌≡◌, OnOk, IfErr, length};
ghost use Rattle.bmp_sheaf.specs.States.{IsState, sheaf_of, IsRoom};
ghost use Rattle.bmp_cover.specs.CoverInputs.{HasStalks, CoverFits};
ghost use Rattle.bmp_cover.specs.CoverChecks.{ComparesDual, CoverPasses, IsFirstCoverFailure};

use crate::compare::compare_unit;
use crate::fault::CoverFault;
use crate::generators::next_start;
use crate::kind::Kind;
use bmp_field::Field;
use bmp_linear::{CoverEvidence, Scratch, combine_rows};
use bmp_sheaf::{BoundaryRows, Sheaf};

/// Compares each dual form, on the boundaries of the elements that are 1 at one stalk coordinate, with 1 at its
/// generator's own coordinate and 0 at the others.
pub(crate) fn check_duals<F: Field>(
    sheaf: &Sheaf<F>,
    x: u32,
    d: u32,
    e: &CoverEvidence,
    s: &mut Scratch,
) -> Result<(), CoverFault>
    requires stalks { HasStalks sheaf.now x d }
    requires fits { CoverFits sheaf.now x d (length e.now.covers) e.now }
    requires room { IsRoom sheaf.now d (length s.old.first) }
    ensures ok { OnOk result (CoverPasses (ComparesDual sheaf.now.graph (sheaf_of sheaf.now) x d e.now)) }
    ensures fault { IfErr result (IsFirstCoverFailure (ComparesDual sheaf.now.graph (sheaf_of sheaf.now) x d e.now)) }
    ensures room { length s.new.first ≡ length s.old.first }
    ensures state { IsState sheaf.now }
{
    let rows = BoundaryRows::of(sheaf, x, d);
    let module = sheaf.stalk(x);
    let mut own = 0;
    let mut next = 0;
    for g in 0..module.generators() {
        if module.degree_of(g) == d {
            combine_rows(sheaf.field(), &rows, e.duals.at(next), s);
            if let Some(difference) = compare_unit(own, sheaf.stalk_len(x, d), s) {
                return Err(difference.fault(Kind::Dual, g));
            }
            next += 1;
        }
        own = next_start(module, d, g, own);
    }
    Ok(())
}
