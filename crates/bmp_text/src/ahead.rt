//! A line looked at ahead of its reader, in one pass over its bytes.
ghost use Rattle.std.specs.Prelude.{◌≡◌, ◌≤◌, ◌<◌, ◌^◌, ◌∷◌, ◌++◌, ◌/◌, min, length, true, IsTrue, IsFalse, IfSome, IfNone};
ghost use Rattle.std.specs.Fmt.{decimal};
ghost use Rattle.std.specs.List.{list_all};
ghost use Rattle.std.specs.Char.{is_ascii_graphic};
ghost use Rattle.bmp_text.specs.Words.{cut};

use crate::line::split;
use crate::quick::quick_digits;
use std::marker::Model;

/// What is left of a text, seen as bytes. Each call passes what it finds; `false` and `None` say only that
/// nothing simple comes next, and then nothing is passed: the fault, if there is one, is left to `Lines`.
#[derive(Drop)]
pub struct Ahead<'a> {
    pub(crate) rest: &'a [u8],
}

impl<'a> Model for Ahead<'a> {
    ghost use Rattle.std.specs.Prelude.{List, ℕ};

    ghost Value = { List ℕ };

    ghost view = { λ a. a.rest.now };
}

// Whether all bytes are printable, and none is a space.
fn is_word(bytes: &[u8]) -> bool
    ensures { result ≡ list_all is_ascii_graphic bytes.now }
{
    bytes.iter().all(|b| b.is_ascii_graphic())
}

impl<'a> Ahead<'a> {
    /// Whether a word of printable bytes comes next.
    pub fn keyword(&mut self, word: &[u8]) -> bool
        ensures word { IsTrue result → list_all is_ascii_graphic word.now ≡ true }
        ensures read { IsTrue result → self.old ≡ word.now ++ self.new }
        ensures kept { IsFalse result → self.new ≡ self.old }
    {
        if !is_word(word) {
            return false;
        }
        match self.rest.strip_prefix(word) {
            Some(rest) => {
                self.rest = rest;
                true
            }
            None => false,
        }
    }

    /// The number from `low` to `high` that comes next behind a space.
    pub fn natural(&mut self, low: u64, high: u64) -> Option<u64>
        ensures read { IfSome result (λ n. self.old ≡ 32 ∷ decimal n ++ self.new) }
        ensures small { IfSome result (λ n. n < 2 ^ 63) }
        ensures within { IfSome result (λ n. (low ≤ n) × (n ≤ high)) }
        ensures kept { IfNone result (self.new ≡ self.old) }
    {
        let [b' ', digits @ ..] = self.rest else {
            return None;
        };
        let (n, rest) = quick_digits(digits)?;
        if n < low || n > high {
            return None;
        }
        self.rest = rest;
        Some(n)
    }

    /// Whether a line feed comes next.
    pub fn line_feed(&mut self) -> bool
        ensures read { IsTrue result → self.old ≡ 10 ∷ self.new }
        ensures kept { IsFalse result → self.new ≡ self.old }
    {
        match self.rest {
            [b'\n', rest @ ..] => {
                self.rest = rest;
                true
            }
            _ => false,
        }
    }

    /// How many of `count` items of at least `size` bytes each may stand in what is left of the line: what a
    /// reader reserves before it reads them. Looks for the end of the line.
    pub fn room(&self, count: u64, size: usize) -> usize
        requires { 0 < size }
        ensures { result ≡ min count (length (cut 10 self.now).0 / size) }
    {
        let (line, _) = split(b'\n', self.rest);
        let most = line.len() / size;
        count.min(most as u64) as usize
    }
}
