//! The check of sources.
ghost use Rattle.std.specs.Prelude.{◌≡◌, OnOk, IfErr, length};
ghost use Rattle.bmp_sheaf.specs.States.{sheaf_of, IsRoom};
ghost use Rattle.bmp_cover.specs.CoverInputs.{HasStalks, HasTuples, CoverFits};
ghost use Rattle.bmp_cover.specs.CoverChecks.{ComparesSource, CoverPasses, IsFirstCoverFailure};

use crate::compare::compare_boundary;
use crate::fault::CoverFault;
use crate::generators::next_start;
use crate::kind::Kind;
use bmp_field::Field;
use bmp_linear::{CoverEvidence, Scratch};
use bmp_sections::Sections;
use bmp_sheaf::Sheaf;

/// Compares the boundary of each generator of degree `d` with that of its source's combination of the tuples.
pub(crate) fn check_sources<F: Field, T: Sections>(
    sheaf: &Sheaf<F>,
    x: u32,
    d: u32,
    tuples: &T,
    e: &CoverEvidence,
    s: &mut Scratch,
) -> Result<(), CoverFault>
    requires stalks { HasStalks sheaf.now x d }
    requires tuples { HasTuples sheaf.now x d (T.list tuples.now) }
    requires fits { CoverFits sheaf.now x d (T.list tuples.now).count e.now }
    requires room { IsRoom sheaf.now d (length s.old.first) }
    ensures ok { OnOk result
        (CoverPasses (ComparesSource sheaf.now.graph (sheaf_of sheaf.now) x d (T.list tuples.now) e.now)) }
    ensures fault { IfErr result
        (IsFirstCoverFailure (ComparesSource sheaf.now.graph (sheaf_of sheaf.now) x d (T.list tuples.now) e.now)) }
    ensures room { length s.new.first ≡ length s.old.first }
{
    let module = sheaf.stalk(x);
    let mut own = 0;
    let mut next = 0;
    for g in 0..module.generators() {
        if module.degree_of(g) == d {
            sheaf.generator_boundary(x, d, own, s);
            let source = e.sources.at(next);
            if let Some(difference) = compare_boundary(sheaf, x, d, tuples, source.entries(), s) {
                return Err(difference.fault(Kind::Source, g));
            }
            next += 1;
        }
        own = next_start(module, d, g, own);
    }
    Ok(())
}
