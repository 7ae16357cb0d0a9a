//! Rows that are kept in two parts.
ghost use Rattle.std.specs.Prelude.{◌≡◌};
ghost use Rattle.bmp_linear.specs.SparseVectors.{IsSparse, ValuesBelow};
ghost use Rattle.bmp_sections.specs.RowParts.{part_number};

use crate::runs::number_of;
use bmp_linear::Entry;

/// A row in two parts: from column `low` on that of the lift, and from column `high` on minus that of the upper value.
#[derive(Clone, Copy)]
pub(crate) struct RowParts<'a> {
    pub(crate) lower: &'a [Entry],
    pub(crate) upper: &'a [Entry],
    pub(crate) low: u32,
    pub(crate) high: u32,
    /// The prime of the numbers.
    pub(crate) prime: u8,
}

impl RowParts<'_> {
    /// The number at a column.
    pub(crate) fn number(&self, column: u32) -> u8
        requires lower { IsSparse self.now.lower.now }
        requires upper { IsSparse self.now.upper.now }
        requires below { ValuesBelow self.now.upper.now self.now.prime }
        ensures { result ≡ part_number self.now.prime self.now.lower.now self.now.upper.now self.now.low self.now.high
            column }
    {
        if column >= self.high {
            let number = number_of(self.upper, u64::from(column - self.high));
            if number == 0 { 0 } else { self.prime - number }
        } else if column >= self.low {
            number_of(self.lower, u64::from(column - self.low))
        } else {
            0
        }
    }
}
