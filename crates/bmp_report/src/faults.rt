//! The lines of faults.
ghost use Rattle.std.specs.Prelude.{◌≡◌, ◌≤◌, ◌++◌, ◌∷◌, codes, IfOk, OnOk};
ghost use Rattle.std.specs.Fmt.{decimal, signed_decimal};
ghost use Rattle.bmp_report.specs.FaultLines.{text_fault_line, cartan_text, limit_name, coordinates_text, finite_text, numbered_text, pair_text, fault_text, job_fault_line, HasCoordinates};

use bmp_cert::JobFault;
use bmp_graph::GkmPair;
use bmp_roots::{CartanFault, FiniteKind, NotFinite};
use bmp_text::{TextFault, push_int, push_number};
use std::alloc::{AllocError, Global};

/// The line of a text fault: `text line N kind K`.
pub fn text_line(alloc: Global, fault: &TextFault) -> Result<Vec<u8>, AllocError>
    ensures { IfOk result (λ v. v.items ≡ text_fault_line fault.now) }
{
    let mut out = Vec::new(alloc);
    out.extend_from_slice(b"text line")?;
    push_number(&mut out, fault.line)?;
    out.extend_from_slice(b" kind ")?;
    out.extend_from_slice(fault.kind.name().as_bytes())?;
    out.push(b'\n')?;
    Ok(out)
}

// What breaks the rules of a Cartan matrix.
fn push_cartan(out: &mut Vec<u8>, fault: &CartanFault) -> Result<(), AllocError>
    ensures { OnOk result (out.new.items ≡ out.old.items ++ cartan_text fault.now) }
{
    match *fault {
        CartanFault::BadRank => out.extend_from_slice(b"job cartan rank"),
        CartanFault::BadDiagonal { i } => {
            out.extend_from_slice(b"job cartan diagonal")?;
            push_number(out, u64::from(i))
        }
        CartanFault::BadOffDiagonal { i, j } => {
            out.extend_from_slice(b"job cartan off-diagonal")?;
            push_number(out, u64::from(i))?;
            push_number(out, u64::from(j))
        }
        CartanFault::UnpairedZero { i, j } => {
            out.extend_from_slice(b"job cartan unpaired-zero")?;
            push_number(out, u64::from(i))?;
            push_number(out, u64::from(j))
        }
    }
}

// The name of a limit.
fn limit_name(kind: FiniteKind) -> &'static str
    ensures { result.now ≡ limit_name kind }
{
    match kind {
        FiniteKind::Pairs => "pairs",
        FiniteKind::Coordinate => "coordinate",
        FiniteKind::Sign => "sign",
    }
}

// A coordinate behind a space.
fn push_coordinate(out: &mut Vec<u8>, coordinate: &i16) -> Result<(), AllocError>
    ensures { OnOk result (out.new.items ≡ out.old.items ++ (32 ∷ signed_decimal coordinate.now)) }
{
    out.push(b' ')?;
    push_int(out, i128::from(*coordinate))
}

// Coordinates, each behind a space.
fn push_coordinates(out: &mut Vec<u8>, coordinates: &[i16]) -> Result<(), AllocError>
    ensures { OnOk result (out.new.items ≡ out.old.items ++ coordinates_text coordinates.now) }
{
    'coordinates: for coordinate in coordinates {
        push_coordinate(out, coordinate)?;
    }
    Ok(())
}

// The pair of roots that breaks a limit, by the coordinates of its root.
fn push_finite(out: &mut Vec<u8>, rank: u8, fault: &NotFinite) -> Result<(), AllocError>
    requires { rank ≤ 6 }
    ensures { OnOk result (out.new.items ≡ out.old.items ++ finite_text rank fault.now) }
{
    out.extend_from_slice(b"job finite ")?;
    out.extend_from_slice(limit_name(fault.kind).as_bytes())?;
    push_coordinates(out, &fault.root[..rank as usize])
}

/// A name, and a number behind a space.
pub(crate) fn push_numbered(out: &mut Vec<u8>, name: &[u8], n: u64) -> Result<(), AllocError>
    ensures { OnOk result (out.new.items ≡ out.old.items ++ numbered_text name.now n) }
{
    out.extend_from_slice(name)?;
    push_number(out, n)
}

// The two ends of an edge whose label is zero.
fn push_ends(out: &mut Vec<u8>, lower: u32, upper: u32) -> Result<(), AllocError>
    ensures { OnOk result (out.new.items ≡ out.old.items
        ++ (numbered_text (codes "job label") lower ++ (32 ∷ decimal upper))) }
{
    push_numbered(out, b"job label", u64::from(lower))?;
    push_number(out, u64::from(upper))
}

// The vertex and the two edges.
fn push_pair(out: &mut Vec<u8>, pair: &GkmPair) -> Result<(), AllocError>
    ensures { OnOk result (out.new.items ≡ out.old.items ++ pair_text pair.now) }
{
    push_numbered(out, b"gkm vertex", u64::from(pair.vertex))?;
    push_numbered(out, b" edges", u64::from(pair.first))?;
    push_number(out, u64::from(pair.second))
}

// A fault without its line feed.
fn push_fault(out: &mut Vec<u8>, rank: u8, fault: &JobFault) -> Result<(), AllocError>
    requires { HasCoordinates rank fault.now }
    ensures { OnOk result (out.new.items ≡ out.old.items ++ fault_text rank fault.now) }
{
    match fault {
        JobFault::Cartan(fault) => push_cartan(out, fault),
        JobFault::Finite(fault) => push_finite(out, rank, fault),
        JobFault::Prime(prime) => push_numbered(out, b"job prime", u64::from(*prime)),
        JobFault::Letter(letter) => push_numbered(out, b"job letter", u64::from(letter.place)),
        JobFault::Reduced { length } => push_numbered(out, b"job reduced", u64::from(*length)),
        JobFault::TooMany { count } => push_numbered(out, b"job vertices", u64::from(*count)),
        JobFault::DegreeBound(degree) => push_numbered(out, b"job degree", u64::from(*degree)),
        JobFault::TooLarge { size } => push_numbered(out, b"job size", u64::from(*size)),
        JobFault::ZeroLabel { lower, upper } => push_ends(out, *lower, *upper),
        JobFault::Gkm(pair) => push_pair(out, pair),
    }
}

/// The line of a job's fault, as `job cartan diagonal I`, `job label X Y` or `gkm vertex V edges A B`. The rank is the
/// number of coordinates of a root that breaks a limit.
pub fn job_line(alloc: Global, rank: u8, fault: &JobFault) -> Result<Vec<u8>, AllocError>
    requires { HasCoordinates rank fault.now }
    ensures { IfOk result (λ v. v.items ≡ job_fault_line rank fault.now) }
{
    let mut out = Vec::new(alloc);
    push_fault(&mut out, rank, fault)?;
    out.push(b'\n')?;
    Ok(out)
}
