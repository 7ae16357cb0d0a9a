//! One line of a text, word by word.
ghost use Rattle.std.specs.Prelude.{◌≡◌, ◌≤◌, ◌≤ℤ◌, option_map, ◌+◌, ◌*◌, ◌^◌, ◌<◌, ◌∷◌, ◌/◌, min, length, IfSome, IfOk};
ghost use Rattle.bmp_text.specs.Words.{cut, words, words_of};
ghost use Rattle.bmp_text.specs.Cursor.{keyword, number, natural, finish};
ghost use Rattle.bmp_text.specs.Printing.{joined_words};
ghost use Rattle.bmp_text.specs.Calls.{Reads, Passes};

use crate::quick::quick_natural;
use crate::{NumberFault, TextFault, TextKind, read_int};
use std::marker::Model;

/// A line, and the place in it: contracts see where the line stands, and the words that are left.
#[derive(Drop)]
pub struct Line<'a> {
    pub(crate) number: u64,
    pub(crate) start: usize,
    pub(crate) end: usize,
    // what is left, `None` where no word is
    pub(crate) rest: Option<&'a [u8]>,
}

impl<'a> Model for Line<'a> {
    ghost use Rattle.std.specs.Prelude.{option_map, List, ℕ};
    ghost use Rattle.bmp_text.specs.Words.{words_of};
    ghost use Rattle.bmp_text.specs.Cursor.{Cursor};

    ghost Value = { Cursor (List ℕ) };

    ghost view = { λ l. record {
      place = record { line = l.number; start = l.start; stop = l.end };
      rest = words_of (option_map (λ s. s.now) l.rest);
    } };
}

// The bytes before the first separator, and those after it.
pub(crate) fn split(separator: u8, bytes: &[u8]) -> (&[u8], Option<&[u8]>)
    ensures front { result.0.now ≡ (cut separator bytes.now).0 }
    ensures back { option_map (λ s. s.now) result.1 ≡ (cut separator bytes.now).1 }
    ensures sizes { IfSome result.1 (λ s. length result.0.now + length s.now + 1 ≡ length bytes.now) }
{
    for (i, b) in bytes.iter().enumerate() {
        if *b == separator {
            let (front, back) = bytes.split_at(i);
            let (_, rest) = back.split_at(1);
            return (front, Some(rest));
        }
    }
    (bytes, None)
}

// The first word, and what is left behind it.
fn first_word(bytes: &[u8]) -> (&[u8], Option<&[u8]>)
    ensures { words bytes.now ≡ result.0.now ∷ words_of (option_map (λ s. s.now) result.1) }
{
    split(b' ', bytes)
}

impl<'a> Line<'a> {
    /// Reads the word that must stand first; else `WrongKeyword`. After a fault the line stands where it stood.
    pub fn keyword(&mut self, word: &[u8]) -> Result<(), TextFault>
        ensures { Passes self.old self.new result (keyword word.now self.old) }
    {
        let line = self.number;
        let Some(bytes) = self.rest else {
            return Err(TextFault {
                line,
                kind: TextKind::WrongKeyword,
            });
        };
        let (first, rest) = first_word(bytes);
        if first != word {
            return Err(TextFault {
                line,
                kind: TextKind::WrongKeyword,
            });
        }
        self.rest = rest;
        Ok(())
    }

    /// Reads a number from `low` to `high`: `WrongCount` where no word is left, `NotANumber` where the word
    /// is none, `OutOfRange` else. After a fault the line stands before the offending word.
    pub fn number(&mut self, low: i64, high: i64) -> Result<i64, TextFault>
        ensures reads { Reads (λ z. z) self.old self.new result (number low high self.old) }
        ensures within { IfOk result (λ z. (low ≤ℤ z) × (z ≤ℤ high)) }
    {
        let line = self.number;
        let Some(bytes) = self.rest else {
            return Err(TextFault {
                line,
                kind: TextKind::WrongCount,
            });
        };
        let (first, rest) = first_word(bytes);
        match read_int(first) {
            Ok(n) if low <= n && n <= high => {
                self.rest = rest;
                Ok(n)
            }
            Err(NumberFault::NotANumber) => Err(TextFault {
                line,
                kind: TextKind::NotANumber,
            }),
            _ => Err(TextFault {
                line,
                kind: TextKind::OutOfRange,
            }),
        }
    }

    /// Reads a number that isn't negative, from `low` to `high`, with the faults of `number`.
    pub fn natural(&mut self, low: u64, high: u64) -> Result<u64, TextFault>
        requires low { low < 2 ^ 63 }
        requires high { high < 2 ^ 63 }
        ensures reads { Reads (λ n. n) self.old self.new result (natural low high self.old) }
        ensures within { IfOk result (λ n. (low ≤ n) × (n ≤ high)) }
    {
        if let Some(bytes) = self.rest {
            if let Some((n, rest)) = quick_natural(bytes) {
                if low <= n && n <= high {
                    self.rest = rest;
                    return Ok(n);
                }
            }
        }
        let n = self.number(low as i64, high as i64)?;
        Ok(n.unsigned_abs())
    }

    /// Whether no word is left; else `WrongCount`.
    #[tactic(auto, using(crate::proofs::WordLemmas::words_cut))]
    pub fn finish(&self) -> Result<(), TextFault>
        ensures { result ≡ finish self.now }
    {
        match self.rest {
            None => Ok(()),
            Some(_) => Err(TextFault {
                line: self.number,
                kind: TextKind::WrongCount,
            }),
        }
    }

    /// Where the line stands in the text: from its first byte to before its line feed, from 0.
    pub fn span(&self) -> (usize, usize)
        ensures { result ≡ (self.now.place.start, self.now.place.stop) }
    {
        (self.start, self.end)
    }

    // How many bytes are left.
    #[tactic(auto, using(crate::proofs::WordLemmas::words_joined))]
    fn left(&self) -> usize
        ensures { result ≡ length (joined_words self.now.rest) }
    {
        match self.rest {
            None => 0,
            Some(bytes) => bytes.len(),
        }
    }

    /// How many of `count` items of at least `size` bytes each may stand in what is left of the line: what a
    /// reader reserves before it reads them.
    pub fn room(&self, count: u64, size: usize) -> usize
        requires { 0 < size }
        ensures { result ≡ min count (length (joined_words self.now.rest) / size) }
    {
        let most = self.left() / size;
        count.min(most as u64) as usize
    }
}
