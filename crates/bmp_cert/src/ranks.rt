//! The ranks: for each vertex and each degree, how many generators there are.
ghost use Rattle.std.specs.Prelude.{◌≡◌, ◌<◌, ◌≤◌, ◌+◌, ◌-◌, ◌++◌, length, IfOk, OnOk};
ghost use Rattle.bmp_cert.specs.Counts.{written_by, rank_in, counts_below, all_counts, IsRanksOf};

use crate::{Cert, Degrees, Parts};
use std::alloc::{AllocError, Global};
use std::marker::Model;

/// The numbers of generators of a certificate, by vertex and degree.
#[derive(Debug, Drop)]
pub struct Ranks {
    vertices: u32,
    degree: u32,
    numbers: Vec<u32>,
}

impl Model for Ranks {
    ghost use Rattle.std.specs.Prelude.{◌≡◌, ◌+◌, ◌*◌, ◌≤◌, length};
    ghost use Rattle.bmp_cert.specs.Counts.{RankTable};

    ghost Value = { RankTable };

    ghost view = { λ r. record { vertices = r.vertices; degree = r.degree; numbers = r.numbers.items } };

    ghost invariant = { λ r. (r.degree ≤ 255) × (length r.numbers.items ≡ r.vertices * (r.degree + 1)) };
}

// The numbers of the degrees 0 to `bound`.
fn push_counts(numbers: &mut Vec<u32>, degrees: &Degrees, bound: u32) -> Result<(), AllocError>
    requires { bound ≤ 255 }
    ensures { OnOk result (numbers.new.items ≡ numbers.old.items ++ counts_below degrees.now (bound + 1)) }
{
    'degrees: for d in 0..bound + 1 {
        numbers.push(degrees.count(u64::from(d)))?;
    }
    Ok(())
}

// The numbers of all vertices, from the least on.
fn numbers_of(alloc: Global, list: &Parts, bound: u32) -> Result<Vec<u32>, AllocError>
    requires { bound ≤ 255 }
    ensures { IfOk result (λ v. v.items ≡ all_counts (record { degree = bound; parts = list.now }) (length list.now)) }
{
    let parts = list.as_slice();
    let mut numbers = Vec::new(alloc);
    'vertices: for x in 0..parts.len() {
        push_counts(&mut numbers, &parts[parts.len() - 1 - x].degrees, bound)?;
    }
    Ok(numbers)
}

impl Ranks {
    /// The numbers of generators of these parts, up to a degree.
    pub fn of_parts(alloc: Global, parts: &Parts, degree: u32) -> Result<Ranks, AllocError>
        requires { degree ≤ 255 }
        ensures { IfOk result (IsRanksOf (record { degree = degree; parts = parts.now })) }
    {
        let numbers = numbers_of(alloc, parts, degree)?;
        Ok(Ranks {
            vertices: parts.len(),
            degree,
            numbers,
        })
    }

    /// The numbers of generators of a certificate.
    pub fn of(alloc: Global, c: &Cert) -> Result<Ranks, AllocError>
        ensures { IfOk result (IsRanksOf (written_by c.now)) }
    {
        Ranks::of_parts(alloc, &c.vertices, u32::from(c.job.degree))
    }

    /// How many vertices there are.
    pub fn vertices(&self) -> u32
        ensures { result ≡ self.now.vertices }
    {
        self.vertices
    }

    /// The degree bound.
    pub fn degree(&self) -> u32
        ensures bound { result ≡ self.now.degree }
        ensures small { result ≤ 255 }
    {
        self.degree
    }

    /// How many generators of degree `d` the vertex `x` has.
    pub fn count(&self, x: u32, d: u32) -> u32
        requires vertex { x < self.now.vertices }
        requires degree { d ≤ self.now.degree }
        ensures { result ≡ rank_in self.now x d }
    {
        self.numbers[x as usize * (self.degree as usize + 1) + d as usize]
    }
}
