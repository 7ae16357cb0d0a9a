//! Why a job is refused.
ghost use Rattle.std.specs.Prelude.{◌≡◌};
ghost use Rattle.bmp_cert.specs.declared.job_fault.JobError.TheVariants.{Fault, Memory};

use bmp_graph::GkmPair;
use bmp_roots::{CartanFault, NotFinite};
use bmp_weyl::BadLetter;
use std::alloc::{AllocError, AllocFailed};
use thiserror::Error;

/// The first rule of a job that fails. A rule is tried after all earlier ones hold.
#[derive(Clone, Copy, Debug, PartialEq, Eq, Error)]
pub enum JobFault {
    /// The rows are no Cartan matrix of rank 1 to 6.
    #[error("the matrix is no Cartan matrix: {0}")]
    Cartan(CartanFault),
    /// The root system isn't finite within the limits.
    #[error("{0}")]
    Finite(NotFinite),
    /// The number, this one, is no prime from 2 to 61.
    #[error("{0} is no prime from 2 to 61")]
    Prime(u8),
    /// The first letter that isn't from 1 to the rank.
    #[error("{0}")]
    Letter(BadLetter),
    /// The word is longer than its product, whose length this is.
    #[error("the word is longer than its product, which has length {length}")]
    Reduced { length: u32 },
    /// There are more than 4,096 vertices: the count is always 4,097.
    #[error("there are {count} vertices or more")]
    TooMany { count: u32 },
    /// The degree bound, this one, is above 6.
    #[error("the degree bound {0} is above 6")]
    DegreeBound(u8),
    /// The number of vertices times that of the monomials of the greatest degree, this one, is above 400,000.
    #[error("vertices times monomials are {size}, above 400,000")]
    TooLarge { size: u32 },
    /// The first edge, by lower and then by upper vertex, whose label would be zero.
    #[error("the label of the edge from vertex {lower} up to vertex {upper} is zero")]
    ZeroLabel { lower: u32, upper: u32 },
    /// The first two edges at a vertex whose labels are parallel.
    #[error("at vertex {} the edges {} and {} have parallel labels", .0.vertex, .0.first, .0.second)]
    Gkm(GkmPair),
}

/// Why a job isn't accepted.
#[derive(Clone, Copy, Debug, PartialEq, Eq, Error)]
pub enum JobError {
    /// It breaks a rule.
    #[error("{0}")]
    Fault(JobFault),
    /// Memory was wanting.
    #[error("no memory")]
    Memory,
}

impl From<JobFault> for JobError {
    ghost from_gives = { λ f e. e ≡ Fault f };

    fn from(fault: JobFault) -> Self {
        JobError::Fault(fault)
    }
}

impl From<AllocError> for JobError {
    ghost from_gives = { λ _ e. e ≡ Memory };

    fn from(_: AllocError) -> Self {
        JobError::Memory
    }
}
