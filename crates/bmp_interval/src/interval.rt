//! The interval below a reduced word.
ghost use Rattle.std.specs.Prelude.{◌≡◌, ◌+◌, ◌^◌, ◌<◌, ◌≤◌, ℕ, List, length, map, IfOk};
ghost use Rattle.std.specs.List.{All};
ghost use Rattle.bmp_roots.specs.RootSystems.{matrix_of, positive_roots_of};
ghost use Rattle.bmp_weyl.specs.Words.{length_of, IsReduced};
ghost use Rattle.bmp_weyl.specs.Elements.{IsLetter, word_of, element_length};
ghost use Rattle.bmp_interval.specs.Intervals.{IsInterval, IsIntervalOf};
ghost use Rattle.bmp_interval.specs.Limits.{max_vertices};

use crate::fault::IntervalFault;
use crate::growth::{MAX_VERTICES, vertices};
use crate::numbering::{element_set, length_table, sorted_vertices};
use bmp_roots::Roots;
use bmp_weyl::{Elem, Letters, product};
use indexmap::IndexSet;
use std::alloc::{AllocError, Global};

/// The vertices below a reduced word: the products of its subsequences, at most 4,096, numbered from
/// 0 by length and then by matrix, row by row.
#[derive(Drop)]
pub struct Interval {
    roots: Roots,
    word: Letters,
    elements: IndexSet<Elem>,
    lengths: Vec<u32>,
    pub ghost letters: { All (IsLetter (matrix_of roots).rank) word },
    pub ghost interval: { ∥ IsInterval (matrix_of roots) (positive_roots_of roots) (word_of word) elements.keys ∥₁ },
    pub ghost measured: { lengths.items ≡ map (element_length (positive_roots_of roots)) elements.keys },
}

// The length of the product of a word.
fn product_length(roots: &Roots, word: &[u8]) -> u32
    requires letters { All (IsLetter (matrix_of roots.now).rank) word.now }
    requires short { length word.now < 2 ^ 32 }
    ensures { result
        ≡ length_of (matrix_of roots.now) (positive_roots_of roots.now) (word_of word.now) }
{
    match product(roots, word) {
        Ok(w) => w.length(roots),
        Err(_) => unreachable!(),
    }
}

fn letters(alloc: Global, word: &[u8]) -> Result<Letters, AllocError>
    ensures { IfOk result (λ letters. letters ≡ word.now) }
{
    let mut letters = Letters::new(alloc);
    for letter in word {
        letters.push(*letter)?;
    }
    Ok(letters)
}

impl Interval {
    ghost use Rattle.std.specs.Prelude.{slice_index_or, slice_get, Some, IfErr, IfSome, IfNone};
    ghost use Rattle.bmp_weyl.specs.declared.elem.Elem.{Elem};
    ghost use Rattle.bmp_interval.specs.Vertices.{IsVertex, HasVertices};
    ghost use Rattle.bmp_interval.specs.Intervals.{IsFault};
    ghost use Rattle.bmp_interval.specs.IntervalViews.{system_of, letters_of, word_below, vertices_of};

    // The interval with these vertices, which are still in no order.
    fn of_vertices(
        alloc: Global,
        roots: &Roots,
        word: &[u8],
        found: &IndexSet<Elem>,
    ) -> Result<Interval, AllocError>
        requires letters { All (IsLetter (matrix_of roots.now).rank) word.now }
        requires reduced { IsReduced (matrix_of roots.now) (positive_roots_of roots.now) (word_of word.now) }
        requires vertices { HasVertices (matrix_of roots.now) (word_of word.now) found.now.keys }
        requires few { length found.now.keys ≤ max_vertices }
        ensures interval { IfOk result (λ interval.
            IsIntervalOf roots.now word.now (vertices_of interval)) }
        ensures system { IfOk result (λ interval. system_of interval ≡ roots.now) }
        ensures word { IfOk result (λ interval. letters_of interval ≡ word.now) }
    {
        let sorted = sorted_vertices(alloc, roots, found)?;
        let vertices = sorted.as_slice();
        let elements = element_set(alloc, vertices)?;
        let lengths = length_table(alloc, vertices)?;
        let word = letters(alloc, word)?;
        Ok(Interval {
            roots: roots.copied(),
            word,
            elements,
            lengths,
        })
    }

    /// The interval below a word whose letters are 1 to the rank. A word that is longer than its
    /// product is not reduced, which is answered first; a reduced word may have more than 4,096
    /// vertices, or more than memory has room for.
    pub fn below(alloc: Global, roots: &Roots, word: &[u8]) -> Result<Interval, IntervalFault>
        requires letters { All (IsLetter (matrix_of roots.now).rank) word.now }
        requires short { length word.now < 2 ^ 32 }
        ensures interval { IfOk result (λ interval.
            IsIntervalOf roots.now word.now (vertices_of interval)) }
        ensures system { IfOk result (λ interval. system_of interval ≡ roots.now) }
        ensures word { IfOk result (λ interval. letters_of interval ≡ word.now) }
        ensures fault { IfErr result
            (IsFault (matrix_of roots.now) (positive_roots_of roots.now) (word_of word.now)) }
    {
        let length = product_length(roots, word);
        if length as usize != word.len() {
            return Err(IntervalFault::NotReduced { length });
        }
        match vertices(alloc, roots, word) {
            Ok(Some(found)) => match Interval::of_vertices(alloc, roots, word, &found) {
                Ok(interval) => Ok(interval),
                Err(_) => Err(IntervalFault::Memory),
            },
            Ok(None) => Err(IntervalFault::TooMany {
                count: MAX_VERTICES as u32 + 1,
            }),
            Err(_) => Err(IntervalFault::Memory),
        }
    }

    /// The number of vertices, 1 to 4,096.
    pub fn len(&self) -> u32
        ensures value { result ≡ length (vertices_of self.now) }
        ensures at_least_one { 1 ≤ result }
        ensures at_most { result ≤ max_vertices }
        ensures interval { IsIntervalOf (system_of self.now) (letters_of self.now) (vertices_of self.now) }
    {
        self.elements.len() as u32
    }

    /// Vertex number x.
    pub fn elem(&self, x: u32) -> &Elem
        requires { x < length (vertices_of self.now) }
        ensures value { (d : Elem) → result.now ≡ slice_index_or (vertices_of self.now) x d }
        ensures vertex { IsVertex (matrix_of (system_of self.now)) (word_below self.now) result.now }
    {
        &self.elements[x as usize]
    }

    /// The length of vertex number x. Lengths never fall along the numbers.
    pub fn length(&self, x: u32) -> u32
        requires { x < length (vertices_of self.now) }
        ensures { (d : Elem) → result
            ≡ element_length (positive_roots_of (system_of self.now))
            (slice_index_or (vertices_of self.now) x d) }
    {
        self.lengths[x as usize]
    }

    /// The root system.
    pub fn roots(&self) -> &Roots
        ensures { result.now ≡ system_of self.now }
    {
        &self.roots
    }

    /// The reduced word.
    pub fn word(&self) -> &Letters
        ensures word { result.now ≡ letters_of self.now }
        ensures letters { All (IsLetter (matrix_of (system_of self.now)).rank) result.now }
    {
        &self.word
    }

    /// The number of an element, or `None` where it is no vertex.
    pub fn number_of(&self, e: &Elem) -> Option<u32>
        ensures within { IfSome result (λ x. x < length (vertices_of self.now)) }
        ensures number { IfSome result (λ x.
            (d : Elem) → slice_index_or (vertices_of self.now) x d ≡ e.now) }
        ensures none { IfNone result
            (IsVertex (matrix_of (system_of self.now)) (word_below self.now) e.now → ⊥) }
        ensures back { (x : ℕ) → slice_get (vertices_of self.now) x ≡ Some e.now → result ≡ Some x }
    {
        match self.elements.get_index_of(e) {
            Some(x) => Some(x as u32),
            None => None,
        }
    }
}
