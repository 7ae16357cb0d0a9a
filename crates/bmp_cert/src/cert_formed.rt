//! Whether the grammar has a text for a certificate.
ghost use Rattle.std.specs.Prelude.{◌≡◌, ◌≤◌, ◌↔◌, ℕ, ◌-◌, ◌<◌, ◌^◌, ◌==◌, count_by, length, IsTrue};
ghost use Rattle.bmp_text.specs.Printing.{ChainFits};
ghost use Rattle.bmp_cert.specs.Versions.{IsVersion, IsVersionOf};
ghost use Rattle.bmp_cert.specs.VectorGrammar.{IsEntry, IsVector, AreVectors, AreRising};
ghost use Rattle.bmp_cert.specs.BlockGrammar.{IsBlock};
ghost use Rattle.bmp_cert.specs.CertGrammar.{step_up, step_down, AreDegrees, IsTop, IsPart, IsPartAt, HavePartLines, IsWellFormed};

use crate::cert::MAX_VERSION;
use crate::{Cert, Degrees, Lattice, Parts, VertexPart, well_formed_job};
use bmp_linear::{Blocks, DegreeBlock, Entry, Places, Vector, Vectors};

// An entry, whose place is `next` at least.
fn is_entry(entry: &Entry, next: u64, most: u8) -> bool
    ensures { IsTrue result ↔ IsEntry most next entry.now }
{
    next <= u64::from(entry.place) && 1 <= entry.value && entry.value <= most
}

// A vector with values up to `most`.
fn is_vector(v: &Vector, most: u8) -> bool
    ensures { IsTrue result ↔ IsVector most v.now }
{
    let mut next: u64 = 0;
    'entries: for i in 0..v.len() {
        let entry = v.at(i);
        if !is_entry(&entry, next, most) {
            return false;
        }
        next = u64::from(entry.place) + 1;
    }
    true
}

// As many vectors.
fn are_vectors(list: &Vectors, most: u8, count: u64) -> bool
    ensures { IsTrue result ↔ AreVectors most count list.now }
{
    if u64::from(list.len()) != count {
        return false;
    }
    'vectors: for i in 0..list.len() {
        if !is_vector(list.at(i), most) {
            return false;
        }
    }
    true
}

// As many places that rise.
fn are_rising(places: &Places, count: u64) -> bool
    ensures { IsTrue result ↔ AreRising count places.now }
{
    if u64::from(places.len()) != count {
        return false;
    }
    let mut low: u64 = 0;
    'places: for i in 0..places.len() {
        let place = u64::from(places.at(i));
        if place < low {
            return false;
        }
        low = place + 1;
    }
    true
}

// Degrees up to `most` that never fall.
fn are_degrees(degrees: &Degrees, most: u8) -> bool
    ensures { IsTrue result ↔ AreDegrees most degrees.now }
{
    let mut low: u32 = 0;
    'degrees: for i in 0..degrees.len() {
        let degree = degrees.at(i);
        if degree < low || degree > u32::from(most) {
            return false;
        }
        low = degree;
    }
    true
}

// By whole section spaces there is a cover for each vector.
fn are_as_many(version: u8, covers: u64, vectors: u64) -> bool
    ensures { IsTrue result ↔ (version ≡ 1 → covers ≡ vectors) }
{
    version != 1 || covers == vectors
}

// The block of a degree, for a vertex with generators of these degrees.
fn is_block(block: &DegreeBlock, version: u8, most: u8, degrees: &Degrees, degree: u64) -> bool
    ensures { IsTrue result
        ↔ IsBlock version most (λ d. count_by (λ e. e == d) degrees.now) degree block.now }
{
    let count = u64::from(degrees.count(degree));
    let pivots = u64::from(block.kernel.pivots.len());
    let vectors = u64::from(block.kernel.basis.len());
    let covers = u64::from(block.cover.covers.len());
    are_as_many(version, covers, vectors)
        && are_rising(&block.kernel.pivots, pivots)
        && are_vectors(&block.kernel.basis, most, vectors)
        && are_vectors(&block.kernel.rows, most, pivots)
        && are_vectors(&block.cover.covers, most, covers)
        && are_vectors(&block.cover.sources, most, count)
        && are_vectors(&block.cover.duals, most, count)
}

// The blocks of the degrees 0 to `count - 1`.
fn are_blocks(blocks: &Blocks, version: u8, most: u8, degrees: &Degrees, count: u64) -> bool
    ensures { IsTrue result ↔ ((length blocks.now ≡ count)
        × ChainFits (IsBlock version most (λ d. count_by (λ e. e == d) degrees.now)) step_up 0 blocks.now) }
{
    if u64::from(blocks.len()) != count {
        return false;
    }
    'each: for i in 0..blocks.len() {
        if !is_block(blocks.at(i), version, most, degrees, u64::from(i)) {
            return false;
        }
    }
    true
}

// The part of the greatest vertex.
fn is_top(v: &VertexPart, degree: u8) -> bool
    ensures { IsTrue result ↔ IsTop degree v.now }
{
    are_degrees(&v.degrees, degree) && v.edges == 0 && v.lifts.len() == 0 && v.blocks.len() == 0
}

// The part of another vertex.
fn is_part(v: &VertexPart, version: u8, most: u8, degree: u8) -> bool
    ensures { (x : ℕ) → (IsTrue result ↔ IsPart version most degree x v.now) }
{
    let lifts = u64::from(v.edges) * u64::from(v.degrees.len());
    are_degrees(&v.degrees, degree)
        && are_vectors(&v.lifts, most, lifts)
        && are_blocks(&v.blocks, version, most, &v.degrees, u64::from(degree) + 1)
}

// The part of the vertex of a number.
fn is_part_at(v: &VertexPart, version: u8, last: u64, number: u64, most: u8, degree: u8) -> bool
    ensures { IsTrue result ↔ IsPartAt version last most degree number v.now }
{
    if number == last {
        is_top(v, degree)
    } else {
        is_part(v, version, most, degree)
    }
}

// The parts of all vertices, from the number `last` down.
fn are_parts(parts: &Parts, version: u8, last: u64, most: u8, degree: u8) -> bool
    ensures { IsTrue result
        ↔ ChainFits (IsPartAt version last most degree) step_down last parts.now }
{
    let mut number = last;
    'each: for i in 0..parts.len() {
        if !is_part_at(parts.at(i), version, last, number, most, degree) {
            return false;
        }
        number = number.saturating_sub(1);
    }
    true
}

// Whether there is a certificate version of this number.
fn is_version(version: u8) -> bool
    ensures { IsTrue result ↔ IsVersion version }
{
    1 <= version && version <= 3
}

// Whether the certificates of a job with the lattice may have the version.
fn is_version_of(lattice: Lattice, version: u8) -> bool
    ensures { IsTrue result ↔ IsVersionOf lattice version }
{
    match lattice {
        Lattice::Plain => 1 <= version && version <= 2,
        Lattice::Root | Lattice::Weight => version == 3,
    }
}

/// Whether the grammar of the version has a text for the parts, with values below `prime` and degrees up to `degree`.
/// Takes no memory.
pub fn parts_formed(parts: &Parts, version: u8, prime: u8, degree: u8) -> bool
    ensures { IsTrue result ↔ (IsVersion version × HavePartLines version (prime - 1) degree parts.now) }
{
    let count = u64::from(parts.len());
    if !is_version(version) || count == 0 {
        return false;
    }
    are_parts(parts, version, count - 1, prime.saturating_sub(1), degree)
}

/// Whether the grammar has a text for the certificate. Takes no memory.
pub fn well_formed(c: &Cert) -> bool
    ensures { IsTrue result ↔ IsWellFormed c.now }
{
    is_version_of(c.job.lattice, c.version)
        && c.version <= MAX_VERSION
        && well_formed_job(&c.job)
        && parts_formed(&c.vertices, c.version, c.job.prime, c.job.degree)
}
