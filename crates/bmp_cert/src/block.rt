//! The block of one degree, read.
ghost use Rattle.std.specs.Prelude.{◌≡◌, ◌<◌, ◌≤◌, ◌^◌, ◌+◌, ◌*◌, ◌==◌, count_by, codes};
ghost use Rattle.bmp_text.specs.Readers.{chain, line};
ghost use Rattle.bmp_text.specs.LaterLines.{PassesLines};
ghost use Rattle.bmp_cert.specs.Answers.{Gives};
ghost use Rattle.bmp_cert.specs.VectorGrammar.{rising_places};
ghost use Rattle.bmp_cert.specs.BlockGrammar.{space_counts, level_counts, line_counts, kernel_lines, cover_lines, space_block, level_block, block};
ghost use Rattle.bmp_cert.specs.CertGrammar.{step_up};

use crate::line_counts::LineCounts;
use crate::vector::{GREATEST, places_of, vectors_of};
use crate::{CertError, Degrees};
use bmp_linear::{Blocks, CoverEvidence, DegreeBlock, KernelEvidence, Places};
use bmp_text::{Line, Lines};
use std::alloc::Global;

// The words of the first line, by whole section spaces: the numbers of pivots and of tuples.
fn space_counts(line: &mut Line, degree: u64) -> Result<LineCounts, CertError>
    requires { degree < 2 ^ 63 }
    ensures { Gives (λ n. n) line.new result (space_counts degree line.old) }
{
    line.natural(degree, degree)?;
    let pivots = line.natural(0, GREATEST)?;
    let tuples = line.natural(0, GREATEST)?;
    Ok(LineCounts {
        pivots,
        vectors: tuples,
        covers: tuples,
    })
}

// The same by levels: the numbers of members, of pivots and of basis vectors.
fn level_counts(line: &mut Line, degree: u64) -> Result<LineCounts, CertError>
    requires { degree < 2 ^ 63 }
    ensures { Gives (λ n. n) line.new result (level_counts degree line.old) }
{
    line.natural(degree, degree)?;
    let members = line.natural(0, GREATEST)?;
    let pivots = line.natural(0, GREATEST)?;
    let vectors = line.natural(0, GREATEST)?;
    Ok(LineCounts {
        pivots,
        vectors,
        covers: members,
    })
}

// The words of the first line, as the version has them.
fn line_counts(line: &mut Line, version: u8, degree: u64) -> Result<LineCounts, CertError>
    requires { degree < 2 ^ 63 }
    ensures { Gives (λ n. n) line.new result (line_counts version degree line.old) }
{
    if version == 1 {
        space_counts(line, degree)
    } else {
        level_counts(line, degree)
    }
}

// The first line.
#[tactic(auto, unfolding(bmp_text::specs::Readers::line))]
fn counts_of(lines: &mut Lines, version: u8, degree: u64) -> Result<LineCounts, CertError>
    requires { degree < 2 ^ 63 }
    ensures gives { Gives (λ n. n) lines.new result (line (codes "block") (line_counts version degree) lines.old) }
    ensures later { PassesLines lines.old lines.new }
{
    let mut line = lines.next_line()?;
    line.keyword(b"block")?;
    let counts = line_counts(&mut line, version, degree)?;
    line.finish()?;
    Ok(counts)
}

// The line of the pivots.
#[tactic(auto, unfolding(bmp_text::specs::Readers::line))]
fn pivots_of(alloc: Global, lines: &mut Lines, count: u64) -> Result<Places, CertError>
    ensures gives { Gives (λ v. v) lines.new result (line (codes "pivots") (rising_places count) lines.old) }
    ensures later { PassesLines lines.old lines.new }
{
    let mut line = lines.next_line()?;
    line.keyword(b"pivots")?;
    let places = places_of(alloc, &mut line, count)?;
    line.finish()?;
    Ok(places)
}

// So many vectors of the kernel, each on a line of this keyword, and a row for each pivot.
#[tactic(auto, unfolding(crate::specs::BlockGrammar::kernel_lines))]
fn kernel_of(
    alloc: Global,
    lines: &mut Lines,
    word: &[u8],
    most: u8,
    pivots: Places,
    count: u64,
) -> Result<KernelEvidence, CertError>
    ensures gives { Gives (λ k. k) lines.new result (kernel_lines word.now most pivots count lines.old) }
    ensures later { PassesLines lines.old lines.new }
{
    let basis = vectors_of(alloc, lines, word, most, count)?;
    let rows = vectors_of(alloc, lines, b"row", most, u64::from(pivots.len()))?;
    Ok(KernelEvidence {
        pivots,
        basis,
        rows,
    })
}

// So many covers, and for each of so many generators a source and a dual form.
#[tactic(auto, unfolding(crate::specs::BlockGrammar::cover_lines))]
fn cover_of(
    alloc: Global,
    lines: &mut Lines,
    most: u8,
    covers: u64,
    generators: u64,
) -> Result<CoverEvidence, CertError>
    ensures gives { Gives (λ e. e) lines.new result (cover_lines most covers generators lines.old) }
    ensures later { PassesLines lines.old lines.new }
{
    let covers = vectors_of(alloc, lines, b"cover", most, covers)?;
    let sources = vectors_of(alloc, lines, b"source", most, generators)?;
    let duals = vectors_of(alloc, lines, b"dual", most, generators)?;
    Ok(CoverEvidence {
        covers,
        sources,
        duals,
    })
}

// What follows the pivots, by whole section spaces.
#[tactic(auto, unfolding(crate::specs::BlockGrammar::space_block))]
fn space_block(
    alloc: Global,
    lines: &mut Lines,
    most: u8,
    generators: u64,
    counts: LineCounts,
    pivots: Places,
) -> Result<DegreeBlock, CertError>
    ensures gives { Gives (λ b. b) lines.new result (space_block most generators counts pivots lines.old) }
    ensures later { PassesLines lines.old lines.new }
{
    let kernel = kernel_of(alloc, lines, b"tuple", most, pivots, counts.vectors)?;
    let cover = cover_of(alloc, lines, most, counts.covers, generators)?;
    Ok(DegreeBlock { kernel, cover })
}

// What follows the pivots, by levels.
#[tactic(auto, unfolding(crate::specs::BlockGrammar::level_block))]
fn level_block(
    alloc: Global,
    lines: &mut Lines,
    most: u8,
    generators: u64,
    counts: LineCounts,
    pivots: Places,
) -> Result<DegreeBlock, CertError>
    ensures gives { Gives (λ b. b) lines.new result (level_block most generators counts pivots lines.old) }
    ensures later { PassesLines lines.old lines.new }
{
    let cover = cover_of(alloc, lines, most, counts.covers, generators)?;
    let kernel = kernel_of(alloc, lines, b"basis", most, pivots, counts.vectors)?;
    Ok(DegreeBlock { kernel, cover })
}

// The block of a degree, for a vertex with generators of these degrees.
#[tactic(auto, unfolding(crate::specs::BlockGrammar::block))]
fn block_of(
    alloc: Global,
    lines: &mut Lines,
    version: u8,
    most: u8,
    degrees: &Degrees,
    degree: u64,
) -> Result<DegreeBlock, CertError>
    requires { degree < 2 ^ 63 }
    ensures gives { Gives (λ b. b) lines.new result
        (block version most (λ d. count_by (λ e. e == d) degrees.now) degree lines.old) }
    ensures later { PassesLines lines.old lines.new }
{
    let generators = u64::from(degrees.count(degree));
    let counts = counts_of(lines, version, degree)?;
    let pivots = pivots_of(alloc, lines, counts.pivots)?;
    if version == 1 {
        space_block(alloc, lines, most, generators, counts, pivots)
    } else {
        level_block(alloc, lines, most, generators, counts, pivots)
    }
}

/// The blocks of the degrees 0 to `count - 1`.
pub(crate) fn blocks_of(
    alloc: Global,
    lines: &mut Lines,
    version: u8,
    most: u8,
    degrees: &Degrees,
    count: u64,
) -> Result<Blocks, CertError>
    requires { count < 2 ^ 63 }
    ensures gives { Gives (λ v. v) lines.new result
        (chain (block version most (λ d. count_by (λ e. e == d) degrees.now)) step_up count 0 lines.old) }
    ensures later { PassesLines lines.old lines.new }
{
    let mut list = Blocks::new(alloc);
    'each: for degree in 0..count {
        let block = block_of(alloc, lines, version, most, degrees, degree)?;
        list.push(block)?;
    }
    Ok(list)
}
