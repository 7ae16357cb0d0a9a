//! The check of covers, sources and dual forms at one vertex and degree.
ghost use Rattle.std.specs.Prelude.{◌≡◌, ℕ, ◌<◌, OnOk, IfErr, length};
ghost use Rattle.bmp_sheaf.specs.States.{sheaf_of, IsRoom};
ghost use Rattle.bmp_sections.specs.Sections.{IsReached, IsLifted, IsMinimal};
ghost use Rattle.bmp_sections.specs.TupleLists.{tuples_in};
ghost use Rattle.bmp_cover.specs.Evidence.{CatchAll, AreSections};
ghost use Rattle.bmp_cover.specs.CoverInputs.{HasStalks, HasTuples, CoverFits};
ghost use Rattle.bmp_cover.specs.CoverChecks.{ComparesCover, CoverCompares, CoverPasses, IsFirstCoverFailure};

use crate::covers::check_covers;
use crate::duals::check_duals;
use crate::fault::CoverFault;
use crate::sources::check_sources;
use bmp_field::Field;
use bmp_linear::{CoverEvidence, Scratch};
use bmp_sections::Sections;
use bmp_sheaf::Sheaf;

/// Compares the boundary of each cover with that of its tuple, the boundary of each generator of degree `d` with that
/// of its source's combination of the tuples, and each dual form on the boundaries of the elements that are 1 at one
/// stalk coordinate with 1 at its generator's own coordinate and 0 at the others. Takes no memory.
///
/// The fault is the first comparison that fails, by kind, index and place. Where none fails, the three conditions of a
/// Braden-MacPherson sheaf (Braden-MacPherson 2001) hold at `x` in degree `d`, each under the premises that it needs.
pub fn check_cover<F: Field, T: Sections>(
    sheaf: &Sheaf<F>,
    x: u32,
    d: u32,
    tuples: &T,
    e: &CoverEvidence,
    s: &mut Scratch,
) -> Result<(), CoverFault>
    requires stalks { HasStalks sheaf.now x d }
    requires tuples { HasTuples sheaf.now x d (T.list tuples.now) }
    requires fits { CoverFits sheaf.now x d (T.list tuples.now).count e.now }
    requires room { IsRoom sheaf.now d (length s.old.first) }
    ensures ok { OnOk result
        (CoverPasses (CoverCompares sheaf.now.graph (sheaf_of sheaf.now) x d (T.list tuples.now) e.now)) }
    ensures fault { IfErr result
        (IsFirstCoverFailure (CoverCompares sheaf.now.graph (sheaf_of sheaf.now) x d (T.list tuples.now) e.now)) }
    ensures minimal { OnOk result (IsMinimal sheaf.now.graph (sheaf_of sheaf.now) x d) }
    ensures lifted { let G = sheaf.now.graph in let list = T.list tuples.now in
        OnOk result (CatchAll G (sheaf_of sheaf.now) x d (tuples_in G (sheaf_of sheaf.now) d list) list.count
        → IsLifted G (sheaf_of sheaf.now) x d) }
    ensures reached { let G = sheaf.now.graph in let list = T.list tuples.now in
        OnOk result (AreSections G (sheaf_of sheaf.now) x d (tuples_in G (sheaf_of sheaf.now) d list) list.count
        → ((k : ℕ) → k < d → IsReached G (sheaf_of sheaf.now) x k)
        → IsReached G (sheaf_of sheaf.now) x d) }
    ensures room { length s.new.first ≡ length s.old.first }
{
    check_covers(sheaf, x, d, tuples, e, s)?;
    check_beside_covers(sheaf, x, d, tuples, e, s)
}

/// The rest of [`check_cover`] where no comparison of a cover fails: those of sources and dual forms alone. Takes no
/// memory.
pub fn check_beside_covers<F: Field, T: Sections>(
    sheaf: &Sheaf<F>,
    x: u32,
    d: u32,
    tuples: &T,
    e: &CoverEvidence,
    s: &mut Scratch,
) -> Result<(), CoverFault>
    requires stalks { HasStalks sheaf.now x d }
    requires tuples { HasTuples sheaf.now x d (T.list tuples.now) }
    requires fits { CoverFits sheaf.now x d (T.list tuples.now).count e.now }
    requires room { IsRoom sheaf.now d (length s.old.first) }
    requires covers { CoverPasses
        (ComparesCover sheaf.now.graph (sheaf_of sheaf.now) x d (T.list tuples.now) e.now) }
    ensures ok { OnOk result
        (CoverPasses (CoverCompares sheaf.now.graph (sheaf_of sheaf.now) x d (T.list tuples.now) e.now)) }
    ensures fault { IfErr result
        (IsFirstCoverFailure (CoverCompares sheaf.now.graph (sheaf_of sheaf.now) x d (T.list tuples.now) e.now)) }
    ensures minimal { OnOk result (IsMinimal sheaf.now.graph (sheaf_of sheaf.now) x d) }
    ensures lifted { let G = sheaf.now.graph in let list = T.list tuples.now in
        OnOk result (CatchAll G (sheaf_of sheaf.now) x d (tuples_in G (sheaf_of sheaf.now) d list) list.count
        → IsLifted G (sheaf_of sheaf.now) x d) }
    ensures reached { let G = sheaf.now.graph in let list = T.list tuples.now in
        OnOk result (AreSections G (sheaf_of sheaf.now) x d (tuples_in G (sheaf_of sheaf.now) d list) list.count
        → ((k : ℕ) → k < d → IsReached G (sheaf_of sheaf.now) x k)
        → IsReached G (sheaf_of sheaf.now) x d) }
    ensures room { length s.new.first ≡ length s.old.first }
{
    check_sources(sheaf, x, d, tuples, e, s)?;
    check_duals(sheaf, x, d, e, s)
}
