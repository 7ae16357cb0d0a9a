//! The lattice of a job.
ghost use Rattle.std.specs.Prelude.{◌≡◌};
ghost use Rattle.bmp_cert.specs.JobGraphs.{by_weights};
ghost use Rattle.bmp_cert.specs.LatticeGrammar.{has_line, lattice_number};

/// In which coordinates the labels of a job's moment graph are, and how the texts of the job begin.
#[derive(Clone, Copy, Debug, PartialEq, Eq)]
pub enum Lattice {
    /// The labels are the roots, by the simple roots. The texts have no line for the lattice.
    Plain,
    /// The same labels. The texts have the line `lattice 0`.
    Root,
    /// The labels are the roots by the fundamental weights. The texts have the line `lattice 1`.
    Weight,
}

impl Lattice {
    /// Whether the labels are by the fundamental weights.
    pub fn by_weights(self) -> bool
        ensures { result ≡ by_weights self }
    {
        match self {
            Lattice::Plain | Lattice::Root => false,
            Lattice::Weight => true,
        }
    }

    /// Whether the texts have a line for the lattice.
    pub(crate) fn has_line(self) -> bool
        ensures { result ≡ has_line self }
    {
        match self {
            Lattice::Plain => false,
            Lattice::Root | Lattice::Weight => true,
        }
    }

    /// The number on that line.
    pub(crate) fn number(self) -> u8
        ensures { result ≡ lattice_number self }
    {
        match self {
            Lattice::Plain | Lattice::Root => 0,
            Lattice::Weight => 1,
        }
    }
}
