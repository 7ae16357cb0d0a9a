//! The check of covers.
ghost use Rattle.std.specs.Prelude.{◌≡◌, OnOk, IfErr, length};
ghost use Rattle.bmp_sheaf.specs.States.{sheaf_of, IsRoom};
ghost use Rattle.bmp_cover.specs.CoverInputs.{HasStalks, HasTuples, CoverFits};
ghost use Rattle.bmp_cover.specs.CoverChecks.{ComparesCover, CoverPasses, IsFirstCoverFailure};

use crate::compare::compare_boundary;
use crate::fault::CoverFault;
use crate::kind::Kind;
use bmp_field::Field;
use bmp_linear::{CoverEvidence, Entry, Scratch};
use bmp_sections::Sections;
use bmp_sheaf::Sheaf;

/// Compares the boundary of each cover with that of its tuple.
pub(crate) fn check_covers<F: Field, T: Sections>(
    sheaf: &Sheaf<F>,
    x: u32,
    d: u32,
    tuples: &T,
    e: &CoverEvidence,
    s: &mut Scratch,
) -> Result<(), CoverFault>
    requires stalks { HasStalks sheaf.now x d }
    requires tuples { HasTuples sheaf.now x d (T.list tuples.now) }
    requires fits { CoverFits sheaf.now x d (T.list tuples.now).count e.now }
    requires room { IsRoom sheaf.now d (length s.old.first) }
    ensures ok { OnOk result
        (CoverPasses (ComparesCover sheaf.now.graph (sheaf_of sheaf.now) x d (T.list tuples.now) e.now)) }
    ensures fault { IfErr result
        (IsFirstCoverFailure (ComparesCover sheaf.now.graph (sheaf_of sheaf.now) x d (T.list tuples.now) e.now)) }
    ensures room { length s.new.first ≡ length s.old.first }
{
    let _ = sheaf.graph();
    for index in 0..e.covers.len() {
        sheaf.boundary(x, d, e.covers.at(index), s);
        let factors = [Entry {
            place: index,
            value: 1,
        }];
        if let Some(difference) = compare_boundary(sheaf, x, d, tuples, &factors, s) {
            return Err(difference.fault(Kind::Cover, index));
        }
    }
    Ok(())
}
