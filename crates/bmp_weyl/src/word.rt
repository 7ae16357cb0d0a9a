//! Products of words.
ghost use Rattle.std.specs.Prelude.{◌≡◌, ◌<◌, ◌≤◌, ◌^◌, length, IfOk, IfErr, OnOk};
ghost use Rattle.std.specs.List.{All};
ghost use Rattle.bmp_roots.specs.RootSystems.{matrix_of, positive_roots_of};
ghost use Rattle.bmp_weyl.specs.Elements.{IsProduct, element_length, word_of, IsLetter, IsFirstBadLetter};

use crate::elem::Elem;
use bmp_roots::Roots;
use thiserror::Error;

/// The first place of a word, from 0, whose letter is not 1 to the rank.
#[derive(Clone, Copy, Debug, PartialEq, Eq, Error)]
#[error("the letter at place {place} is not 1 to the rank")]
pub struct BadLetter {
    pub place: u32,
}

/// The product of the simple reflections of a word, left to right, or the first place with a letter that is not 1 to
/// the rank.
pub fn product(roots: &Roots, word: &[u8]) -> Result<Elem, BadLetter>
    requires { length word.now < 2 ^ 32 }
    ensures product { IfOk result (λ e. IsProduct (matrix_of roots.now) (word_of word.now) e) }
    ensures letters { OnOk result (All (IsLetter (matrix_of roots.now).rank) word.now) }
    ensures at_most { IfOk result (λ e. element_length (positive_roots_of roots.now) e ≤ length word.now) }
    ensures bad { IfErr result (λ e. IsFirstBadLetter (matrix_of roots.now).rank word.now e.place) }
{
    let rank = roots.rank();
    let mut product = Elem::identity(roots);
    for place in 0..word.len() {
        let letter = word[place];
        if letter < 1 || letter > rank {
            return Err(BadLetter {
                place: place as u32,
            });
        }
        product = product.mul(&Elem::simple(roots, letter));
    }
    Ok(product)
}
