//! A certificate, and its text read.
ghost use Rattle.std.specs.Prelude.{◌≡◌, ◌<◌, [], ◌∷◌, ◌++◌, length, slice_get, Some, Ok, OnOk, OnErr, IfOk};
ghost use Rattle.bmp_text.specs.Readers.{whole};
ghost use Rattle.bmp_cert.specs.Answers.{Gives, Answers};
ghost use Rattle.bmp_cert.specs.CertGrammar.{cert, cert_text, IsWellFormed};
ghost use Rattle.bmp_cert.specs.declared.cert.Cert.{Cert};

use crate::job_reader::{end_of, job_lines_of, single_of};
use crate::lattice_text::lattice_if;
use crate::part::part_lines_of;
use crate::{CertError, Degrees, Job};
use bmp_linear::{Blocks, Vectors};
use bmp_text::Lines;
use std::alloc::{AllocError, Global};
use std::marker::Model;

/// What a certificate says of one vertex: the degrees of its generators, which never fall, the number of
/// edges that go up from it, the lifts by edge and then by generator, and a block for each degree.
/// The greatest vertex has no edges, lifts and blocks.
#[derive(Debug, Drop)]
pub struct VertexPart {
    pub degrees: Degrees,
    pub edges: u32,
    pub lifts: Vectors,
    pub blocks: Blocks,
}

impl VertexPart {
    /// An equal part.
    pub fn copy(&self) -> Result<VertexPart, AllocError>
        ensures { IfOk result (λ copy. copy ≡ self.now) }
    {
        Ok(VertexPart {
            degrees: self.degrees.copy()?,
            edges: self.edges,
            lifts: self.lifts.copy()?,
            blocks: self.blocks.copy()?,
        })
    }
}

/// Parts of vertices, the greatest first: a list of fewer than 2^32 members.
#[derive(Debug, Drop)]
pub struct Parts {
    items: Vec<VertexPart>,
}

impl Model for Parts {
    ghost use Rattle.std.specs.Prelude.{◌^◌, ◌<◌, List, length};
    ghost use Rattle.bmp_cert.specs.declared.cert.VertexPart.{VertexPart};

    ghost Value = { List VertexPart };

    ghost view = { λ p. p.items.items };

    ghost invariant = { λ p. length p.items.items < 2 ^ 32 };
}

impl Parts {
    /// The empty list. Takes no memory.
    pub fn new(alloc: Global) -> Parts
        ensures { result ≡ [] }
    {
        Parts {
            items: Vec::new(alloc),
        }
    }

    /// How many members there are.
    pub fn len(&self) -> u32
        ensures { result ≡ length self.now }
    {
        self.items.len() as u32
    }

    /// The member number `i`, from 0 on.
    pub fn at(&self, i: u32) -> &VertexPart
        requires { i < length self.now }
        ensures { slice_get self.now i ≡ Some result.now }
    {
        &self.items[i as usize]
    }

    /// Appends a member. Wants memory also where the list has 2^32 - 1 members.
    pub fn push(&mut self, item: VertexPart) -> Result<(), AllocError>
        ensures ok { OnOk result (self.new ≡ self.old ++ item ∷ []) }
        ensures err { OnErr result (self.new ≡ self.old) }
    {
        if self.len() == u32::MAX {
            return Err(AllocError);
        }
        self.items.push(item)?;
        Ok(())
    }

    /// An equal list.
    pub fn copy(&self) -> Result<Parts, AllocError>
        ensures { IfOk result (λ copy. copy ≡ self.now) }
    {
        let mut copy = Parts::new(*self.items.allocator());
        for part in &self.items {
            copy.push(part.copy()?)?;
        }
        Ok(copy)
    }

    /// The members, in order.
    pub fn as_slice(&self) -> &[VertexPart]
        ensures { result.now ≡ self.now }
    {
        self.items.as_slice()
    }
}

/// The greatest version on the first line of a certificate.
pub(crate) const MAX_VERSION: u8 = 3;

/// A certificate: its version, a job, and the part of each vertex, the greatest first. In version 1 the evidence is by
/// whole section spaces, in versions 2 and 3 by levels; the versions 1 and 2 are of plain jobs, and 3 of all others.
#[derive(Debug, Drop)]
pub struct Cert {
    pub version: u8,
    pub job: Job,
    pub vertices: Parts,
}

// A certificate up to its last line.
#[tactic(auto, unfolding(crate::specs::CertGrammar::cert))]
fn cert_of(alloc: Global, lines: &mut Lines) -> Result<Cert, CertError>
    ensures { Gives (λ c. c) lines.new result (cert lines.old) }
{
    let version = single_of(lines, b"bmp-cert", 1, MAX_VERSION)?;
    let lattice = lattice_if(lines, version == 3)?;
    let job = job_lines_of(alloc, lines, lattice)?;
    let vertices = part_lines_of(alloc, lines, version, job.prime, job.degree)?;
    end_of(lines)?;
    Ok(Cert {
        version,
        job,
        vertices,
    })
}

// The same, with nothing behind it.
#[tactic(auto, unfolding(bmp_text::specs::Readers::whole))]
fn whole_cert(alloc: Global, bytes: &[u8]) -> Result<Cert, CertError>
    ensures { Answers (λ c. c) result (whole cert bytes.now) }
{
    let mut lines = Lines::new(bytes);
    let c = cert_of(alloc, &mut lines)?;
    lines.finish()?;
    Ok(c)
}

/// The certificate of a text. `Text` comes exactly where the bytes aren't in the grammar, with the first
/// fault in reading order. A count in the text takes no memory before its items came.
pub fn read_cert(alloc: Global, bytes: &[u8]) -> Result<Cert, CertError>
    // What is read is well formed, and the bytes are its text.
    ensures found { IfOk result (λ c. IsWellFormed c × (bytes.now ≡ cert_text c)) }
    // The text of a well formed certificate is read, unless memory is wanting.
    ensures only { (c : Cert) → IsWellFormed c → bytes.now ≡ cert_text c → Answers (λ c. c) result (Ok c) }
    // Which fault it is.
    ensures exact { Answers (λ c. c) result (whole cert bytes.now) }
{
    whole_cert(alloc, bytes)
}
