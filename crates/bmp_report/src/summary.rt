//! The summary of a job that was built and checked.
ghost use Rattle.std.specs.Prelude.{◌≡◌, ◌<◌, ◌≤◌, ◌+◌, ◌++◌, ◌∷◌, [], IfOk, OnOk};
ghost use Rattle.std.specs.Fmt.{decimal};
ghost use Rattle.bmp_text.specs.Printing.{spaced_words, range_text};
ghost use Rattle.bmp_graph.specs.Graph.{vertex_count};
ghost use Rattle.bmp_cert.specs.Counts.{rank_in};
ghost use Rattle.bmp_cert.specs.JobViews.{job_of, graph_of, prepared_of};
ghost use Rattle.bmp_report.specs.SummaryText.{total, counts_line, sizes_text, summary_text};

use crate::graph::push_single;
use bmp_cert::{Accepted, Job, Ranks};
use bmp_graph::MomentGraph;
use bmp_text::push_number;
use std::alloc::{AllocError, Global};

// The sum of the numbers of a degree over all vertices.
fn total(r: &Ranks, d: u32) -> u64
    requires { d ≤ r.now.degree }
    ensures { result ≡ total (rank_in r.now) r.now.vertices d }
{
    let mut sum = 0_u64;
    'vertices: for x in 0..r.vertices() {
        sum += u64::from(r.count(x, d));
    }
    sum
}

// The sums of all degrees, each behind a space.
fn push_totals(out: &mut Vec<u8>, r: &Ranks) -> Result<(), AllocError>
    ensures { OnOk result (out.new.items ≡ out.old.items ++ spaced_words
        (range_text (λ d. decimal (total (rank_in r.now) r.now.vertices d) ∷ []) 0 (r.now.degree + 1))) }
{
    let bound = r.degree();
    'degrees: for d in 0..bound + 1 {
        push_number(out, total(r, d))?;
    }
    Ok(())
}

// The line of the sums.
fn push_counts_line(out: &mut Vec<u8>, r: &Ranks) -> Result<(), AllocError>
    ensures { OnOk result (out.new.items ≡ out.old.items ++ counts_line r.now.vertices r.now.degree (rank_in r.now)) }
{
    out.extend_from_slice(b"counts")?;
    push_totals(out, r)?;
    out.push(b'\n')?;
    Ok(())
}

// The sizes of a job and of its graph.
fn push_sizes(out: &mut Vec<u8>, n: u32, j: &Job, graph: &MomentGraph) -> Result<(), AllocError>
    ensures { OnOk result (out.new.items ≡ out.old.items ++ sizes_text n j.now graph.now) }
{
    push_single(out, b"sample seed", u64::from(n))?;
    push_single(out, b"rank", u64::from(j.rank))?;
    push_single(out, b"prime", u64::from(j.prime))?;
    push_single(out, b"letters", u64::from(j.word.len()))?;
    push_single(out, b"degree", u64::from(j.degree))?;
    push_single(out, b"vertices", u64::from(graph.vertices()))?;
    push_single(out, b"edges", u64::from(graph.edges()))?;
    Ok(())
}

/// The summary of sample n: `sample seed n`, `rank r`, `prime p`, `letters k`, `degree D`, `vertices v`, `edges m`, and
/// `counts c_0 .. c_D`, where c_d is the sum of the numbers of generators of degree d over all vertices.
pub fn summary_text(alloc: Global, n: u32, a: &Accepted, r: &Ranks) -> Result<Vec<u8>, AllocError>
    requires vertices { r.now.vertices ≡ vertex_count (graph_of (prepared_of a.now)) }
    requires degree { r.now.degree ≡ (job_of (prepared_of a.now)).degree }
    ensures { IfOk result (λ v. v.items
        ≡ summary_text n (job_of (prepared_of a.now)) (graph_of (prepared_of a.now)) (rank_in r.now)) }
{
    let mut out = Vec::new(alloc);
    push_sizes(&mut out, n, a.job(), a.graph())?;
    push_counts_line(&mut out, r)?;
    Ok(out)
}
