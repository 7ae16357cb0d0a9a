//! The lines of a text.
ghost use Rattle.std.specs.Prelude.{◌≡◌, ◌-◌, length, Some};
ghost use Rattle.std.specs.List.{list_any};
ghost use Rattle.bmp_text.specs.Words.{cut, is_unprintable};
ghost use Rattle.bmp_text.specs.Cursor.{text_start, place_behind, next_line, end};
ghost use Rattle.bmp_text.specs.Calls.{Reads};
ghost use Rattle.bmp_text.specs.LaterLines.{PassesLines};

use crate::line::split;
use crate::{Ahead, Line, TextFault, TextKind};
use std::marker::Model;

/// A text, and the place in it: contracts see the cursor.
#[derive(Drop)]
pub struct Lines<'a> {
    rest: &'a [u8],
    number: u64,
    start: usize,
}

impl<'a> Model for Lines<'a> {
    ghost use Rattle.std.specs.Prelude.{ℕ, ◌+◌, ◌<◌, ◌≤◌, ◌^◌, length};
    ghost use Rattle.bmp_text.specs.Cursor.{Cursor};

    ghost Value = { Cursor ℕ };

    ghost view = { λ l. record {
      place = record { line = l.number; start = l.start; stop = l.start };
      rest = l.rest.now;
    } };

    // A line has a byte at least, so that the numbers of lines fit.
    ghost invariant = { λ l. (l.number ≤ l.start + 1) × (l.start + length l.rest.now < 2 ^ 63) };
}

// Whether a byte of a line isn't printable.
fn has_unprintable(line: &[u8]) -> bool
    ensures { result ≡ list_any is_unprintable line.now }
{
    line.iter().any(|b| *b < 32 || *b > 126)
}

impl<'a> Lines<'a> {
    /// Stands before line 1.
    pub fn new(bytes: &'a [u8]) -> Lines<'a>
        ensures { result ≡ text_start bytes.entry.now }
    {
        Lines {
            rest: bytes,
            number: 1,
            start: 0,
        }
    }

    /// The next line, which borrows the text. `MissingLine` comes where no line feed is left, and then
    /// `NotAscii` where the line holds a byte below 32 or above 126. After a fault the cursor stands
    /// where it stood.
    pub fn next_line(&mut self) -> Result<Line<'a>, TextFault>
        ensures reads { Reads (λ l. l) self.old self.new result (next_line self.old) }
        ensures later { PassesLines self.old self.new }
    {
        let number = self.number;
        let (line, after) = split(b'\n', self.rest);
        let Some(rest) = after else {
            return Err(TextFault {
                line: number,
                kind: TextKind::MissingLine,
            });
        };
        if has_unprintable(line) {
            return Err(TextFault {
                line: number,
                kind: TextKind::NotAscii,
            });
        }
        let start = self.start;
        let end = start + line.len();
        self.start = end + 1;
        self.rest = rest;
        self.number += 1;
        Ok(Line {
            number,
            start,
            end,
            rest: Some(line),
        })
    }

    /// The bytes that are left, to be looked at ahead.
    pub fn ahead(&self) -> Ahead<'a>
        ensures { result ≡ self.now.rest }
    {
        Ahead { rest: self.rest }
    }

    /// Passes one line, behind which `ahead` stands.
    #[tactic(auto, using(crate::proofs::CutLemmas::cut_length))]
    pub fn pass_to(&mut self, ahead: &Ahead<'a>)
        requires { (cut 10 self.old.rest).1 ≡ Some ahead.now }
        ensures { self.new ≡ record {
          place = place_behind self.old.place (length self.old.rest - length ahead.now - 1);
          rest = ahead.now;
        } }
    {
        self.start += self.rest.len() - ahead.rest.len();
        self.rest = ahead.rest;
        self.number += 1;
    }

    /// Whether no byte is left; else `TrailingText`, with the number of the line that would come.
    pub fn finish(&self) -> Result<(), TextFault>
        ensures { result ≡ end self.now }
    {
        match self.rest {
            [] => Ok(()),
            _ => Err(TextFault {
                line: self.number,
                kind: TextKind::TrailingText,
            }),
        }
    }
}
