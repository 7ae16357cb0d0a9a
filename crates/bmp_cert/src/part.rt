//! The part of a vertex, read.
ghost use Rattle.std.specs.Prelude.{◌≡◌, ◌<◌, ◌≤◌, ◌^◌, ◌+◌, ◌-◌, ◌*◌, codes, IfOk};
ghost use Rattle.bmp_text.specs.Cursor.{natural};
ghost use Rattle.bmp_text.specs.Readers.{chain, line, single};
ghost use Rattle.bmp_text.specs.LaterLines.{IsLaterLine, PassesLines};
ghost use Rattle.bmp_cert.specs.Answers.{Gives};
ghost use Rattle.bmp_cert.specs.Versions.{IsVersion};
ghost use Rattle.bmp_cert.specs.VectorGrammar.{MOST};
ghost use Rattle.bmp_cert.specs.CertGrammar.{from_degree, vertex_words, top, part, part_at, parts, part_lines};

use crate::block::blocks_of;
use crate::vector::{GREATEST, vectors_of};
use crate::{CertError, Degrees, Parts, VertexPart};
use bmp_linear::{Blocks, Vectors};
use bmp_text::{Line, Lines};
use std::alloc::Global;

// A degree takes two bytes of text at least.
const DEGREE_SIZE: usize = 2;

// One degree, from `low` to `most`.
fn degree_of(line: &mut Line, low: u32, most: u8) -> Result<u32, CertError>
    ensures { Gives (λ n. n) line.new result (natural low most line.old) }
{
    let degree = line.natural(u64::from(low), u64::from(most))?;
    Ok(degree as u32)
}

// So many degrees that never fall.
fn degrees_of(alloc: Global, line: &mut Line, count: u64, most: u8) -> Result<Degrees, CertError>
    ensures { Gives (λ v. v) line.new result (chain (λ low. natural low most) from_degree count 0 line.old) }
{
    let mut list = Degrees::with_capacity(alloc, line.room(count, DEGREE_SIZE))?;
    let mut low: u32 = 0;
    'degrees: for _ in 0..count {
        let degree = degree_of(line, low, most)?;
        list.push(degree)?;
        low = degree;
    }
    Ok(list)
}

// The line of a vertex.
#[tactic(auto, unfolding(bmp_text::specs::Readers::line, bmp_text::specs::Readers::counted_chain))]
fn vertex_of(alloc: Global, lines: &mut Lines, number: u64, most: u8) -> Result<Degrees, CertError>
    requires { number < 2 ^ 63 }
    ensures gives { Gives (λ v. v) lines.new result (line (codes "vertex") (vertex_words number most) lines.old) }
    ensures later { PassesLines lines.old lines.new }
{
    let mut line = lines.next_line()?;
    line.keyword(b"vertex")?;
    line.natural(number, number)?;
    let count = line.natural(0, GREATEST)?;
    let list = degrees_of(alloc, &mut line, count, most)?;
    line.finish()?;
    Ok(list)
}

/// A line of a keyword and one number from `low` to 2^32 - 1.
#[tactic(auto, unfolding(bmp_text::specs::Readers::line))]
pub(crate) fn count_line(lines: &mut Lines, word: &[u8], low: u64) -> Result<u32, CertError>
    requires { low < 2 ^ 63 }
    ensures reads { Gives (λ n. n) lines.new result (single word.now low MOST lines.old) }
    ensures within { IfOk result (λ n. low ≤ n) }
    ensures later { PassesLines lines.old lines.new }
{
    let mut line = lines.next_line()?;
    line.keyword(word)?;
    let n = line.natural(low, GREATEST)?;
    line.finish()?;
    Ok(n as u32)
}

// The greatest vertex.
#[tactic(auto, unfolding(crate::specs::CertGrammar::top))]
fn top_of(
    alloc: Global,
    lines: &mut Lines,
    number: u64,
    degree: u8,
) -> Result<VertexPart, CertError>
    requires { number < 2 ^ 63 }
    ensures gives { Gives (λ v. v) lines.new result (top degree number lines.old) }
    ensures later { PassesLines lines.old lines.new }
{
    let degrees = vertex_of(alloc, lines, number, degree)?;
    Ok(VertexPart {
        degrees,
        edges: 0,
        lifts: Vectors::new(alloc),
        blocks: Blocks::new(alloc),
    })
}

// Another vertex.
#[tactic(auto, unfolding(crate::specs::CertGrammar::part))]
fn part_of(
    alloc: Global,
    lines: &mut Lines,
    version: u8,
    number: u64,
    most: u8,
    degree: u8,
) -> Result<VertexPart, CertError>
    requires { number < 2 ^ 63 }
    ensures gives { Gives (λ v. v) lines.new result (part version most degree number lines.old) }
    ensures later { PassesLines lines.old lines.new }
{
    let degrees = vertex_of(alloc, lines, number, degree)?;
    let edges = count_line(lines, b"edges", 0)?;
    let count = u64::from(edges) * u64::from(degrees.len());
    let lifts = vectors_of(alloc, lines, b"lift", most, count)?;
    let blocks = blocks_of(alloc, lines, version, most, &degrees, u64::from(degree) + 1)?;
    Ok(VertexPart {
        degrees,
        edges,
        lifts,
        blocks,
    })
}

// The vertex of a number.
fn part_at(
    alloc: Global,
    lines: &mut Lines,
    version: u8,
    last: u64,
    number: u64,
    most: u8,
    degree: u8,
) -> Result<VertexPart, CertError>
    requires { number < 2 ^ 63 }
    ensures gives { Gives (λ v. v) lines.new result (part_at version last most degree number lines.old) }
    ensures later { PassesLines lines.old lines.new }
{
    if number == last {
        top_of(alloc, lines, number, degree)
    } else {
        part_of(alloc, lines, version, number, most, degree)
    }
}

// The parts of `count` vertices, from the greatest number down.
fn parts_of(
    alloc: Global,
    lines: &mut Lines,
    version: u8,
    most: u8,
    degree: u8,
    count: u64,
) -> Result<Parts, CertError>
    requires some { 1 ≤ count }
    requires few { count ≤ MOST }
    ensures gives { Gives (λ v. v) lines.new result (parts version most degree count lines.old) }
    ensures later { PassesLines lines.old lines.new }
{
    let last = count - 1;
    let mut list = Parts::new(alloc);
    let mut number = last;
    'parts: for _ in 0..count {
        let vertex = part_at(alloc, lines, version, last, number, most, degree)?;
        list.push(vertex)?;
        number = number.saturating_sub(1);
    }
    Ok(list)
}

/// The line `vertices n` and the parts of the vertices.
#[tactic(auto, unfolding(crate::specs::CertGrammar::part_lines), using(bmp_text::proofs::LaterLines::same_place))]
pub(crate) fn part_lines_of(
    alloc: Global,
    lines: &mut Lines,
    version: u8,
    prime: u8,
    degree: u8,
) -> Result<Parts, CertError>
    ensures gives { Gives (λ v. v) lines.new result (part_lines version (prime - 1) degree lines.old) }
    ensures later { IsLaterLine lines.old lines.new }
{
    let count = count_line(lines, b"vertices", 1)?;
    let most = prime.saturating_sub(1);
    let vertices = parts_of(alloc, lines, version, most, degree, u64::from(count))?;
    Ok(vertices)
}

/// Reads the line `vertices n` and the parts of the vertices as a version has them, or gives the first fault in reading
/// order: vectors with values below `prime`, and degrees up to `degree`. After an error `lines` stands where it stood, or
/// behind a later line: at the start of a line, or at the end of the text.
pub fn read_parts(
    alloc: Global,
    lines: &mut Lines,
    version: u8,
    prime: u8,
    degree: u8,
) -> Result<Parts, CertError>
    requires { IsVersion version }
    ensures gives { Gives (λ v. v) lines.new result (part_lines version (prime - 1) degree lines.old) }
    ensures later { IsLaterLine lines.old lines.new }
{
    part_lines_of(alloc, lines, version, prime, degree)
}
