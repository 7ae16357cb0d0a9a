//! The text of a certificate, printed.
ghost use Rattle.std.specs.Prelude.{◌≡◌, ℕ, ◌-◌, ◌<◌, ◌≤◌, ◌++◌, ◌∷◌, [], codes, length, IfOk, OnOk, OnErr};
ghost use Rattle.std.specs.Fmt.{decimal};
ghost use Rattle.bmp_text.specs.Readers.{same};
ghost use Rattle.bmp_text.specs.Printing.{line_text, spaced_words, chain_text};
ghost use Rattle.bmp_cert.specs.VectorGrammar.{entry_text, vector_text, vectors_text, rising_text};
ghost use Rattle.bmp_cert.specs.Versions.{IsVersion};
ghost use Rattle.bmp_cert.specs.BlockGrammar.{space_counts_text, level_counts_text, line_counts_text, kernel_text, cover_text, evidence_text, counts_of, block_text};
ghost use Rattle.bmp_cert.specs.CertGrammar.{vertex_text, step_up, step_down, part_text, part_at_text, part_lines_text, HavePartLines, cert_text, IsWellFormed};

use crate::lattice_text::push_lattice;
use crate::line_counts::LineCounts;
use crate::print::{push_lines, push_single};
use crate::{Cert, Degrees, Parts, VertexPart};
use bmp_linear::{
    Blocks, CoverEvidence, DegreeBlock, Entry, KernelEvidence, Places, Vector, Vectors,
};
use bmp_text::push_number;
use std::alloc::{AllocError, Global};

// Entries, each number behind a space.
fn push_entries(out: &mut Vec<u8>, entries: &[Entry]) -> Result<(), AllocError>
    ensures { OnOk result (out.new.items ≡ out.old.items
        ++ spaced_words (chain_text (λ (s : Unit {0}). entry_text 0) same tt entries.now)) }
{
    'entries: for entry in entries {
        push_number(out, u64::from(entry.place))?;
        push_number(out, u64::from(entry.value))?;
    }
    Ok(())
}

// A line of a keyword and a vector.
fn push_vector(out: &mut Vec<u8>, word: &[u8], v: &Vector) -> Result<(), AllocError>
    ensures { OnOk result (out.new.items ≡ out.old.items ++ line_text word.now (vector_text v.now)) }
{
    out.extend_from_slice(word)?;
    push_number(out, u64::from(v.len()))?;
    push_entries(out, v.entries())?;
    out.push(b'\n')?;
    Ok(())
}

// A line for each vector.
fn push_vectors(out: &mut Vec<u8>, word: &[u8], vectors: &Vectors) -> Result<(), AllocError>
    ensures { OnOk result (out.new.items ≡ out.old.items ++ vectors_text word.now vectors.now) }
{
    let list = vectors.as_slice();
    'lines: for vector in list {
        push_vector(out, word, vector)?;
    }
    Ok(())
}

// Numbers, each behind a space.
fn push_numbers(out: &mut Vec<u8>, numbers: &[u32]) -> Result<(), AllocError>
    ensures { OnOk result (out.new.items ≡ out.old.items
        ++ spaced_words (chain_text (λ (s : Unit {0}) n. decimal n ∷ []) same tt numbers.now)) }
{
    'numbers: for n in numbers {
        push_number(out, u64::from(*n))?;
    }
    Ok(())
}

// The line of the pivots.
fn push_pivots(out: &mut Vec<u8>, pivots: &Places) -> Result<(), AllocError>
    ensures { OnOk result (out.new.items ≡ out.old.items ++ line_text (codes "pivots") (rising_text pivots.now)) }
{
    out.extend_from_slice(b"pivots")?;
    push_numbers(out, pivots.as_slice())?;
    out.push(b'\n')?;
    Ok(())
}

// How many lines of each kind a block has.
fn counts_of(b: &DegreeBlock) -> LineCounts
    ensures { result ≡ counts_of b.now }
{
    LineCounts {
        pivots: u64::from(b.kernel.pivots.len()),
        vectors: u64::from(b.kernel.basis.len()),
        covers: u64::from(b.cover.covers.len()),
    }
}

// The first line of a block by whole section spaces.
fn push_space_counts(out: &mut Vec<u8>, degree: u64, n: LineCounts) -> Result<(), AllocError>
    ensures { OnOk result (out.new.items ≡ out.old.items ++ line_text (codes "block") (space_counts_text degree n)) }
{
    out.extend_from_slice(b"block")?;
    push_number(out, degree)?;
    push_number(out, n.pivots)?;
    push_number(out, n.vectors)?;
    out.push(b'\n')?;
    Ok(())
}

// The first line of a block by levels.
fn push_level_counts(out: &mut Vec<u8>, degree: u64, n: LineCounts) -> Result<(), AllocError>
    ensures { OnOk result (out.new.items ≡ out.old.items ++ line_text (codes "block") (level_counts_text degree n)) }
{
    out.extend_from_slice(b"block")?;
    push_number(out, degree)?;
    push_number(out, n.covers)?;
    push_number(out, n.pivots)?;
    push_number(out, n.vectors)?;
    out.push(b'\n')?;
    Ok(())
}

// The first line of a block, as the version has it.
fn push_counts(out: &mut Vec<u8>, version: u8, degree: u64, n: LineCounts) -> Result<(), AllocError>
    ensures { OnOk result (out.new.items ≡ out.old.items
        ++ line_text (codes "block") (line_counts_text version degree n)) }
{
    if version == 1 {
        push_space_counts(out, degree, n)
    } else {
        push_level_counts(out, degree, n)
    }
}

// The vectors of a kernel on lines of this keyword, and its rows.
fn push_kernel(out: &mut Vec<u8>, word: &[u8], kernel: &KernelEvidence) -> Result<(), AllocError>
    ensures { OnOk result (out.new.items ≡ out.old.items ++ kernel_text word.now kernel.now) }
{
    push_vectors(out, word, &kernel.basis)?;
    push_vectors(out, b"row", &kernel.rows)?;
    Ok(())
}

// The covers, and the sources and dual forms of the generators.
fn push_cover(out: &mut Vec<u8>, cover: &CoverEvidence) -> Result<(), AllocError>
    ensures { OnOk result (out.new.items ≡ out.old.items ++ cover_text cover.now) }
{
    push_vectors(out, b"cover", &cover.covers)?;
    push_vectors(out, b"source", &cover.sources)?;
    push_vectors(out, b"dual", &cover.duals)?;
    Ok(())
}

// What follows the pivots of a block, as the version has it.
fn push_evidence(out: &mut Vec<u8>, version: u8, b: &DegreeBlock) -> Result<(), AllocError>
    ensures { OnOk result (out.new.items ≡ out.old.items ++ evidence_text version b.now) }
{
    if version == 1 {
        push_kernel(out, b"tuple", &b.kernel)?;
        push_cover(out, &b.cover)?;
    } else {
        push_cover(out, &b.cover)?;
        push_kernel(out, b"basis", &b.kernel)?;
    }
    Ok(())
}

// A block.
fn push_block(
    out: &mut Vec<u8>,
    version: u8,
    degree: u64,
    b: &DegreeBlock,
) -> Result<(), AllocError>
    ensures { OnOk result (out.new.items ≡ out.old.items ++ block_text version degree b.now) }
{
    push_counts(out, version, degree, counts_of(b))?;
    push_pivots(out, &b.kernel.pivots)?;
    push_evidence(out, version, b)?;
    Ok(())
}

// The blocks, by rising degree.
fn push_blocks(out: &mut Vec<u8>, version: u8, blocks: &Blocks) -> Result<(), AllocError>
    ensures { OnOk result (out.new.items ≡ out.old.items ++ chain_text (block_text version) step_up 0 blocks.now) }
{
    let list = blocks.as_slice();
    let mut degree: u64 = 0;
    'each: for block in list {
        push_block(out, version, degree, block)?;
        degree += 1;
    }
    Ok(())
}

// The line of a vertex.
fn push_vertex(out: &mut Vec<u8>, number: u64, degrees: &Degrees) -> Result<(), AllocError>
    ensures { OnOk result (out.new.items ≡ out.old.items ++ vertex_text number degrees.now) }
{
    out.extend_from_slice(b"vertex")?;
    push_number(out, number)?;
    push_number(out, u64::from(degrees.len()))?;
    push_numbers(out, degrees.as_slice())?;
    out.push(b'\n')?;
    Ok(())
}

// A vertex that isn't the greatest.
fn push_part(out: &mut Vec<u8>, version: u8, number: u64, v: &VertexPart) -> Result<(), AllocError>
    ensures { OnOk result (out.new.items ≡ out.old.items ++ part_text version number v.now) }
{
    push_vertex(out, number, &v.degrees)?;
    push_single(out, b"edges", u64::from(v.edges))?;
    push_vectors(out, b"lift", &v.lifts)?;
    push_blocks(out, version, &v.blocks)?;
    Ok(())
}

// The vertex of a number.
fn push_part_at(
    out: &mut Vec<u8>,
    version: u8,
    last: u64,
    number: u64,
    v: &VertexPart,
) -> Result<(), AllocError>
    ensures { OnOk result (out.new.items ≡ out.old.items ++ part_at_text version last number v.now) }
{
    if number == last {
        push_vertex(out, number, &v.degrees)
    } else {
        push_part(out, version, number, v)
    }
}

// All vertices, from the number `last` down.
fn push_vertices(
    out: &mut Vec<u8>,
    version: u8,
    last: u64,
    parts: &[VertexPart],
) -> Result<(), AllocError>
    ensures { OnOk result (out.new.items ≡ out.old.items
        ++ chain_text (part_at_text version last) step_down last parts.now) }
{
    let mut number = last;
    'each: for vertex in parts {
        push_part_at(out, version, last, number, vertex)?;
        number = number.saturating_sub(1);
    }
    Ok(())
}

// The line `vertices n` and the parts of the vertices, of which a part may stand where memory is wanting.
fn push_part_lines(out: &mut Vec<u8>, version: u8, parts: &Parts) -> Result<(), AllocError>
    requires { 0 < length parts.now }
    ensures { OnOk result (out.new.items ≡ out.old.items ++ part_lines_text version parts.now) }
{
    let count = u64::from(parts.len());
    push_single(out, b"vertices", count)?;
    push_vertices(out, version, count - 1, parts.as_slice())?;
    Ok(())
}

/// Appends the line `vertices n` and the parts of the vertices, as the version has them. Where memory is wanting, nothing
/// is appended: the lines are made apart first.
pub fn push_parts(out: &mut Vec<u8>, version: u8, parts: &Parts) -> Result<(), AllocError>
    requires version { IsVersion version }
    requires formed { (most : ℕ) × (degree : ℕ) × HavePartLines version most degree parts.now }
    ensures ok { OnOk result (out.new.items ≡ out.old.items ++ part_lines_text version parts.now) }
    ensures err { OnErr result (out.new.items ≡ out.old.items) }
{
    let mut lines = Vec::new(*out.allocator());
    push_part_lines(&mut lines, version, parts)?;
    out.extend_from_slice(&lines)
}

/// The text of a certificate.
pub fn print_cert(alloc: Global, c: &Cert) -> Result<Vec<u8>, AllocError>
    requires { IsWellFormed c.now }
    ensures { IfOk result (λ v. v.items ≡ cert_text c.now) }
{
    let mut out = Vec::new(alloc);
    push_single(&mut out, b"bmp-cert", u64::from(c.version))?;
    push_lattice(&mut out, c.job.lattice)?;
    push_lines(&mut out, &c.job)?;
    push_part_lines(&mut out, c.version, &c.vertices)?;
    out.extend_from_slice(b"end\n")?;
    Ok(out)
}
