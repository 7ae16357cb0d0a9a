//! What can be wrong with a word, and with a text.
ghost use Rattle.std.specs.Prelude.{◌≡◌};
ghost use Rattle.bmp_text.specs.Faults.{kind_name};

use std::fmt;
use thiserror::Error;

/// Why a word spells no number of 64 bits.
#[derive(Clone, Copy, Debug, PartialEq, Eq, Error)]
pub enum NumberFault {
    /// It is no canonical decimal number.
    #[error("not a number")]
    NotANumber,
    /// The number doesn't fit an `i64`.
    #[error("too big")]
    TooBig,
}

/// What is wrong with a line.
#[derive(Clone, Copy, Debug, PartialEq, Eq)]
pub enum TextKind {
    /// No line feed comes before the end of the text.
    MissingLine,
    /// The first word isn't the expected keyword.
    WrongKeyword,
    /// A word is no canonical decimal number.
    NotANumber,
    /// A number doesn't fit 64 bits or isn't in the stated range.
    OutOfRange,
    /// A word is missing, or follows the last one.
    WrongCount,
    /// Bytes follow the last line.
    TrailingText,
    /// The line holds a byte below 32 or above 126.
    NotAscii,
}

impl TextKind {
    /// The name, as it is printed.
    pub fn name(self) -> &'static str
        ensures { result.now ≡ kind_name self }
    {
        match self {
            TextKind::MissingLine => "MissingLine",
            TextKind::WrongKeyword => "WrongKeyword",
            TextKind::NotANumber => "NotANumber",
            TextKind::OutOfRange => "OutOfRange",
            TextKind::WrongCount => "WrongCount",
            TextKind::TrailingText => "TrailingText",
            TextKind::NotAscii => "NotAscii",
        }
    }
}

impl fmt::Display for TextKind {
    ghost use Rattle.std.specs.Prelude.{Some};
    ghost use Rattle.bmp_text.specs.Faults.{kind_name};

    ghost output = { λ kind. Some (kind_name kind) };

    fn fmt<W: fmt::Write>(&self, f: &mut fmt::Formatter<W>) -> fmt::Result {
        f.write_str(self.name())
    }
}

/// The first fault of a text. Lines are numbered from 1.
#[derive(Clone, Copy, Debug, PartialEq, Eq, Error)]
#[error("line {line}: {kind}")]
pub struct TextFault {
    pub line: u64,
    pub kind: TextKind,
}
