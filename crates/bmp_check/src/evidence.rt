//! The evidence of one block, compared with what it is about.
ghost use Rattle.std.specs.Prelude.{◌≡◌, ◌≢◌, ◌↔◌, IsTrue, OnOk, IfErr, length};
ghost use Rattle.bmp_linear.specs.Faults.{AllPass};
ghost use Rattle.bmp_sheaf.specs.States.{sheaf_of, IsRoom};
ghost use Rattle.bmp_cover.specs.CoverChecks.{ComparesCover, CoverCompares, CoverPasses, IsFirstCoverFailure};
ghost use Rattle.bmp_cover.specs.CoverInputs.{HasStalks, HasTuples, CoverFits};
ghost use Rattle.bmp_cover.specs.declared.fault.CoverFault.{CoverFault};
ghost use Rattle.bmp_cert.specs.Counts.{Written};
ghost use Rattle.bmp_check.specs.BlockData.{block_of, matrix_at, tuples_at};
ghost use Rattle.bmp_check.specs.PartsSheaf.{parts_sheaf};
ghost use Rattle.bmp_check.specs.Shaped.{HasWidth};
ghost use Rattle.bmp_check.specs.ShapedViews.{graph_in, method_at, cert_in, sheaf_in, IsWhole};
ghost use Rattle.bmp_check.specs.Verdicts.{HasBlock, KernelComparesAt, CoverComparesAt, IsKernelRefusal, IsCoverRefusal};
ghost use Rattle.bmp_check.specs.Verdicts.{kernel_refusal, cover_refusal};

use crate::method::Method;
use crate::part::{block_of, part_of};
use crate::refusal::Refusal;
use crate::shaped::Shaped;
use bmp_cover::{CoverFault, Kind, check_beside_covers, check_cover};
use bmp_field::PrimeField;
use bmp_linear::{CoverEvidence, RowFault, Rows, Scratch, check_kernel};
use bmp_sections::Sections;
use bmp_sheaf::Sheaf;

/// The refusal of a comparison of kernel evidence with so many basis vectors. By whole spaces these are sections, which
/// come before the combinations of the equations.
fn kernel_refusal(method: Method, x: u32, d: u32, sections: u64, fault: RowFault) -> Refusal
    ensures { (c : Written) → sections ≡ length (block_of c x d).kernel.basis →
        result ≡ kernel_refusal method c x d fault }
{
    let (kind, index) = match method {
        Method::Spaces if fault.index < sections => (Kind::Section, fault.index),
        Method::Spaces => (Kind::Row, fault.index - sections),
        Method::Levels => (Kind::Kernel, fault.index),
    };
    Refusal {
        vertex: x,
        degree: d,
        kind,
        index,
        place: fault.place,
        left: u64::from(fault.left),
        right: u64::from(fault.right),
    }
}

/// The refusal of a comparison of cover evidence.
fn cover_refusal(x: u32, d: u32, fault: CoverFault) -> Refusal
    ensures { result ≡ cover_refusal x d fault }
{
    Refusal {
        vertex: x,
        degree: d,
        kind: fault.kind,
        index: fault.index,
        place: fault.place,
        left: u64::from(fault.left),
        right: u64::from(fault.right),
    }
}

/// Makes the comparisons of the kernel evidence of a block with the rows that it is about. A refusal is the first that
/// fails.
pub(crate) fn check_kernel_at<A: Rows<PrimeField>>(
    s: &Shaped,
    x: u32,
    d: u32,
    rows: &A,
    numbers: &mut Scratch,
) -> Result<(), Refusal>
    requires whole { IsWhole s.now }
    requires block { HasBlock (graph_in s.now) (cert_in s.now) x d }
    requires matrix { A.matrix rows.now ≡ matrix_at (graph_in s.now) (method_at s.now) (cert_in s.now) x d }
    requires width { HasWidth (graph_in s.now) (method_at s.now) (cert_in s.now) (length numbers.old.first) }
    ensures ok { OnOk result (AllPass (KernelComparesAt (graph_in s.now) (method_at s.now) (cert_in s.now) x d)) }
    ensures first { IfErr result (IsKernelRefusal (graph_in s.now) (method_at s.now) (cert_in s.now) x d) }
    ensures differ { IfErr result (λ r. r.left ≢ r.right) }
    ensures width { length numbers.new.first ≡ length numbers.old.first }
{
    let field = s.sheaf().field();
    let block = block_of(part_of(s.given(), x), d);
    match check_kernel(field, rows, &block.kernel, numbers) {
        Ok(()) => Ok(()),
        Err(fault) => Err(kernel_refusal(
            s.given().method(),
            x,
            d,
            u64::from(block.kernel.basis.len()),
            fault,
        )),
    }
}

/// Checks cover evidence, and leaves the comparisons of covers out where these are known to pass.
fn check_cover_known<T: Sections>(
    sheaf: &Sheaf<PrimeField>,
    x: u32,
    d: u32,
    tuples: &T,
    known: bool,
    e: &CoverEvidence,
    numbers: &mut Scratch,
) -> Result<(), CoverFault>
    requires stalks { HasStalks sheaf.now x d }
    requires tuples { HasTuples sheaf.now x d (T.list tuples.now) }
    requires fits { CoverFits sheaf.now x d (T.list tuples.now).count e.now }
    requires room { IsRoom sheaf.now d (length numbers.old.first) }
    requires known { IsTrue known →
        CoverPasses (ComparesCover sheaf.now.graph (sheaf_of sheaf.now) x d (T.list tuples.now) e.now) }
    ensures ok { OnOk result
        (CoverPasses (CoverCompares sheaf.now.graph (sheaf_of sheaf.now) x d (T.list tuples.now) e.now)) }
    ensures fault { IfErr result
        (IsFirstCoverFailure (CoverCompares sheaf.now.graph (sheaf_of sheaf.now) x d (T.list tuples.now) e.now)) }
    ensures room { length numbers.new.first ≡ length numbers.old.first }
{
    if known {
        check_beside_covers(sheaf, x, d, tuples, e, numbers)
    } else {
        check_cover(sheaf, x, d, tuples, e, numbers)
    }
}

/// Makes the comparisons of the cover evidence of a block with the sections that it is about: with tuples of which it
/// speaks as it does of these, and whose covers may be known to pass. A refusal is the first that fails.
pub(crate) fn check_cover_at<T: Sections>(
    s: &Shaped,
    x: u32,
    d: u32,
    tuples: &T,
    known: bool,
    numbers: &mut Scratch,
) -> Result<(), Refusal>
    requires whole { IsWhole s.now }
    requires block { HasBlock (graph_in s.now) (cert_in s.now) x d }
    requires tuples { HasTuples (sheaf_in s.now) x d (T.list tuples.now) }
    requires count { (T.list tuples.now).count
        ≡ (tuples_at (graph_in s.now) (method_at s.now) (cert_in s.now) x d).count }
    requires same { let G = graph_in s.now in let c = cert_in s.now in
        (r : CoverFault) → CoverCompares G (parts_sheaf G c) x d (T.list tuples.now) (block_of c x d).cover r
        ↔ CoverComparesAt G (method_at s.now) c x d r }
    requires known { IsTrue known →
        CoverPasses (ComparesCover (sheaf_in s.now).graph (sheaf_of (sheaf_in s.now)) x d (T.list tuples.now)
        (block_of (cert_in s.now) x d).cover) }
    requires width { HasWidth (graph_in s.now) (method_at s.now) (cert_in s.now) (length numbers.old.first) }
    ensures ok { OnOk result (CoverPasses (CoverComparesAt (graph_in s.now) (method_at s.now) (cert_in s.now) x d)) }
    ensures first { IfErr result (IsCoverRefusal (graph_in s.now) (method_at s.now) (cert_in s.now) x d) }
    ensures differ { IfErr result (λ r. r.left ≢ r.right) }
    ensures width { length numbers.new.first ≡ length numbers.old.first }
{
    let block = block_of(part_of(s.given(), x), d);
    match check_cover_known(s.sheaf(), x, d, tuples, known, &block.cover, numbers) {
        Ok(()) => Ok(()),
        Err(fault) => Err(cover_refusal(x, d, fault)),
    }
}
