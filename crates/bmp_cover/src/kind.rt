//! What a comparison of the check is about.
ghost use Rattle.std.specs.Prelude.{◌≡◌};
ghost use Rattle.bmp_cover.specs.Kinds.{kind_name, kind_number};

use std::fmt;

/// What a comparison is about, in the order in which they are made.
#[derive(Clone, Copy, Debug, PartialEq, Eq)]
#[repr(u8)]
pub enum Kind {
    /// The sizes of the evidence.
    Shape = 0,
    /// The generators of the greatest vertex.
    Top = 1,
    /// The tuples: their numbers at free positions, and the edge equations.
    Section = 2,
    /// The combinations of the edge equations.
    Row = 3,
    /// The covers: an element with the boundary of each tuple.
    Cover = 4,
    /// The sources: the boundary of each generator as that of a combination of tuples.
    Source = 5,
    /// The dual forms on the boundaries of generators.
    Dual = 6,
    /// The kernel of the boundary map.
    Kernel = 7,
}

impl Kind {
    /// The number, from 0 up: comparisons are made in the order of these.
    pub fn number(self) -> u8
        ensures { result ≡ kind_number self }
    {
        self as u8
    }

    /// The name, as it is printed.
    pub fn name(self) -> &'static str
        ensures { result.now ≡ kind_name self }
    {
        match self {
            Kind::Shape => "Shape",
            Kind::Top => "Top",
            Kind::Section => "Section",
            Kind::Row => "Row",
            Kind::Cover => "Cover",
            Kind::Source => "Source",
            Kind::Dual => "Dual",
            Kind::Kernel => "Kernel",
        }
    }
}

impl fmt::Display for Kind {
    ghost use Rattle.std.specs.Prelude.{Some};
    ghost use Rattle.bmp_cover.specs.Kinds.{kind_name};

    ghost output = { λ kind. Some (kind_name kind) };

    fn fmt<W: fmt::Write>(&self, f: &mut fmt::Formatter<W>) -> fmt::Result {
        f.write_str(self.name())
    }
}
