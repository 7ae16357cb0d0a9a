//! A job.
ghost use Rattle.std.specs.Prelude.{◌≡◌, IfOk};

use crate::{Entries, Lattice};
use bmp_weyl::Letters;
use std::alloc::AllocError;

/// What a certificate is about: the Cartan matrix of rank `rank`, row by row, the number of elements of the
/// field, the word, whose letters count from 1, the degree bound (a linear form has degree 1), and the lattice, which
/// says in which coordinates labels are.
/// A job may hold any numbers; which are accepted is told by the rules of jobs.
#[derive(Debug, Drop)]
pub struct Job {
    pub rank: u8,
    pub cartan: Entries,
    pub prime: u8,
    pub word: Letters,
    pub degree: u8,
    pub lattice: Lattice,
}

impl Job {
    /// An equal job.
    pub fn copy(&self) -> Result<Job, AllocError>
        ensures { IfOk result (λ copy. copy ≡ self.now) }
    {
        Ok(Job {
            rank: self.rank,
            cartan: self.cartan.copy()?,
            prime: self.prime,
            word: self.word.copy()?,
            degree: self.degree,
            lattice: self.lattice,
        })
    }
}
