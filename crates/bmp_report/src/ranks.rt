//! The rank lines.
ghost use Rattle.std.specs.Prelude.{◌≡◌, ◌<◌, ◌+◌, ◌++◌, ◌∷◌, [], IfOk, OnOk};
ghost use Rattle.std.specs.Fmt.{decimal};
ghost use Rattle.bmp_text.specs.Printing.{spaced_words, range_text};
ghost use Rattle.bmp_cert.specs.Counts.{rank_in};
ghost use Rattle.bmp_report.specs.RankLines.{rank_line, table_lines};

use bmp_cert::Ranks;
use bmp_text::push_number;
use std::alloc::{AllocError, Global};

// The numbers of a vertex, each behind a space.
fn push_counts(out: &mut Vec<u8>, r: &Ranks, x: u32) -> Result<(), AllocError>
    requires { x < r.now.vertices }
    ensures { OnOk result (out.new.items ≡ out.old.items
        ++ spaced_words (range_text (λ d. decimal (rank_in r.now x d) ∷ []) 0 (r.now.degree + 1))) }
{
    let bound = r.degree();
    'degrees: for d in 0..bound + 1 {
        push_number(out, u64::from(r.count(x, d)))?;
    }
    Ok(())
}

// The line of a vertex.
fn push_line(out: &mut Vec<u8>, r: &Ranks, x: u32) -> Result<(), AllocError>
    requires { x < r.now.vertices }
    ensures { OnOk result (out.new.items ≡ out.old.items ++ rank_line r.now.degree (rank_in r.now) x) }
{
    out.extend_from_slice(b"rank")?;
    push_number(out, u64::from(x))?;
    push_counts(out, r, x)?;
    out.push(b'\n')?;
    Ok(())
}

/// The rank lines: `rank x n(x,0) .. n(x,D)` for each vertex x, from 0 on, where n(x,d) is the number of its
/// generators of degree d.
pub fn ranks_text(alloc: Global, r: &Ranks) -> Result<Vec<u8>, AllocError>
    ensures { IfOk result (λ v. v.items ≡ table_lines r.now) }
{
    let mut out = Vec::new(alloc);
    'vertices: for x in 0..r.vertices() {
        push_line(&mut out, r, x)?;
    }
    Ok(out)
}
