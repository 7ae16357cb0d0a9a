//! The products of the subsequences of a word, letter by letter.
ghost use Rattle.std.specs.Prelude.{◌≡◌, ◌<◌, ◌≤◌, ℕ, length, slice_index_or, OnOk, OnErr, IfOk, IfSome, MatchOption};
ghost use Rattle.std.specs.List.{All};
ghost use Rattle.std.specs.Bool.{OnTrue, OnFalse};
ghost use Rattle.bmp_math.specs.Lists.{Member};
ghost use Rattle.bmp_roots.specs.RootSystems.{matrix_of};
ghost use Rattle.bmp_weyl.specs.Elements.{AreElementsOfOne, IsLetter, word_of};
ghost use Rattle.bmp_weyl.specs.declared.elem.Elem.{Elem};
ghost use Rattle.bmp_interval.specs.Limits.{max_vertices};
ghost use Rattle.bmp_interval.specs.Vertices.{HasVertices, HasMoreVertices};
ghost use Rattle.bmp_interval.specs.Growth.{IsAdded, IsGrowing};

use bmp_roots::Roots;
use bmp_weyl::Elem;
use indexmap::IndexSet;
use std::alloc::{AllocError, Global};

/// The greatest number of vertices.
pub const MAX_VERTICES: usize = 4096;

/// Adds an element, unless the set has it.
pub fn add(set: &mut IndexSet<Elem>, e: Elem) -> Result<(), AllocError>
    ensures ok { OnOk result (IsAdded set.old.keys set.new.keys e) }
    ensures err { OnErr result (set.new.keys ≡ set.old.keys) }
{
    match set.insert_full(e) {
        Ok(_) => Ok(()),
        Err(_) => Err(AllocError),
    }
}

fn element_at(set: &IndexSet<Elem>, i: usize) -> Elem
    requires { i < length set.now.keys }
    ensures { result ≡ slice_index_or set.now.keys i result }
{
    set[i]
}

// Adds each member times the simple reflection. False where the members become too many, at the
// first one too many.
fn grow(set: &mut IndexSet<Elem>, simple: &Elem) -> Result<bool, AllocError>
    requires elements { (x : Elem) → Member x set.old.keys → AreElementsOfOne x simple.now }
    requires few { length set.old.keys ≤ max_vertices }
    ensures grown { IfOk result (λ fits.
        OnTrue fits (IsGrowing simple.now (length set.old.keys) set.old.keys set.new.keys)) }
    ensures few { IfOk result (λ fits. OnTrue fits (length set.new.keys ≤ max_vertices)) }
    ensures too_many { IfOk result (λ fits. OnFalse fits
        ((i : ℕ) × IsGrowing simple.now i set.old.keys set.new.keys
        × (max_vertices < length set.new.keys))) }
{
    let count = set.len();
    for i in 0..count {
        let x = element_at(set, i);
        add(set, x.mul(simple))?;
        if set.len() > MAX_VERTICES {
            return Ok(false);
        }
    }
    Ok(true)
}

/// The vertices of a word, in the order in which they are found, or `None` where they are too many.
pub fn vertices(
    alloc: Global,
    roots: &Roots,
    word: &[u8],
) -> Result<Option<IndexSet<Elem>>, AllocError>
    requires { All (IsLetter (matrix_of roots.now).rank) word.now }
    ensures vertices { IfOk result (λ set. MatchOption set
        (HasMoreVertices (matrix_of roots.now) (word_of word.now) max_vertices)
        (λ found. HasVertices (matrix_of roots.now) (word_of word.now) found.keys)) }
    ensures few { IfOk result (λ set. IfSome set (λ found. length found.keys ≤ max_vertices)) }
{
    let mut set = IndexSet::new(alloc);
    add(&mut set, Elem::identity(roots))?;
    for letter in word {
        let simple = Elem::simple(roots, *letter);
        if !grow(&mut set, &simple)? {
            return Ok(None);
        }
    }
    Ok(Some(set))
}
