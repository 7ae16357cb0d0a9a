//! Vectors and rising places of a text, read.
ghost use Rattle.std.specs.Prelude.{◌≡◌, ◌<◌, ◌≤◌, ◌^◌, ◌+◌, ◌++◌, ◌∷◌, true, length, Ok, IfOk, IfSome, MatchOption};
ghost use Rattle.std.specs.List.{list_all};
ghost use Rattle.std.specs.Char.{is_ascii_graphic};
ghost use Rattle.bmp_text.specs.Cursor.{natural};
ghost use Rattle.bmp_text.specs.Readers.{chain, line};
ghost use Rattle.bmp_text.specs.Printing.{spaced_words, chain_text, ChainFits};
ghost use Rattle.bmp_text.specs.LaterLines.{PassesLines};
ghost use Rattle.bmp_cert.specs.Answers.{Gives};
ghost use Rattle.bmp_cert.specs.VectorGrammar.{MOST, entry, entry_text, IsEntry, behind_place, vector, vector_text, IsVector, vectors, rising_places};

use crate::CertError;
use bmp_linear::{Entry, Places, Vector, Vectors};
use bmp_text::{Ahead, Line, Lines};
use std::alloc::{AllocError, Global};

/// The greatest count and the greatest place, 2^32 - 1.
pub(crate) const GREATEST: u64 = 4_294_967_295;

// An entry takes four bytes of text at least, and a place two.
const ENTRY_SIZE: usize = 4;

const PLACE_SIZE: usize = 2;

// One entry, whose place is `next` at least.
fn entry_of(line: &mut Line, next: u64, most: u8) -> Result<Entry, CertError>
    requires { next < 2 ^ 63 }
    ensures gives { Gives (λ e. e) line.new result (entry most next line.old) }
    ensures within { IfOk result (λ e. (next ≤ e.place) × (1 ≤ e.value)) }
{
    let place = line.natural(next, GREATEST)?;
    let value = line.natural(1, u64::from(most))?;
    Ok(Entry {
        place: place as u32,
        value: value as u8,
    })
}

// So many entries.
fn entries_of(alloc: Global, line: &mut Line, count: u64, most: u8) -> Result<Vector, CertError>
    ensures { Gives (λ v. v) line.new result (chain (entry most) behind_place count 0 line.old) }
{
    let mut entries = Vector::with_capacity(alloc, line.room(count, ENTRY_SIZE))?;
    let mut next: u64 = 0;
    'entries: for _ in 0..count {
        let entry = entry_of(line, next, most)?;
        entries.push(entry)?;
        next = u64::from(entry.place) + 1;
    }
    Ok(entries)
}

// A count, and as many entries.
#[tactic(auto, unfolding(bmp_text::specs::Readers::counted_chain))]
fn vector_of(alloc: Global, line: &mut Line, most: u8) -> Result<Vector, CertError>
    ensures { Gives (λ v. v) line.new result (vector most line.old) }
{
    let count = line.natural(0, GREATEST)?;
    entries_of(alloc, line, count, most)
}

// One entry, read ahead.
fn entry_ahead(ahead: &mut Ahead, next: u64, most: u8) -> Option<Entry>
    ensures read { IfSome result (λ e. ahead.old ≡ spaced_words (entry_text next e) ++ ahead.new) }
    ensures entry { IfSome result (IsEntry most next) }
{
    let place = ahead.natural(next, GREATEST)?;
    let value = ahead.natural(1, u64::from(most))?;
    Some(Entry {
        place: place as u32,
        value: value as u8,
    })
}

// So many entries, read ahead.
fn entries_ahead(
    alloc: Global,
    ahead: &mut Ahead,
    count: u64,
    most: u8,
) -> Result<Option<Vector>, AllocError>
    ensures read { IfOk result (λ found. IfSome found (λ v.
        ahead.old ≡ spaced_words (chain_text entry_text behind_place 0 v) ++ ahead.new)) }
    ensures entries { IfOk result (λ found. IfSome found (λ v.
        (length v ≡ count) × ChainFits (IsEntry most) behind_place 0 v)) }
{
    let mut entries = Vector::with_capacity(alloc, ahead.room(count, ENTRY_SIZE))?;
    let mut next: u64 = 0;
    'entries: for _ in 0..count {
        let Some(entry) = entry_ahead(ahead, next, most) else {
            return Ok(None);
        };
        entries.push(entry)?;
        next = u64::from(entry.place) + 1;
    }
    Ok(Some(entries))
}

// A line of a keyword and a vector, read ahead.
fn line_ahead(
    alloc: Global,
    ahead: &mut Ahead,
    word: &[u8],
    most: u8,
) -> Result<Option<Vector>, AllocError>
    ensures word { IfOk result (λ found. IfSome found (λ v. list_all is_ascii_graphic word.now ≡ true)) }
    ensures vector { IfOk result (λ found. IfSome found (IsVector most)) }
    ensures read { IfOk result (λ found. IfSome found (λ v.
        ahead.old ≡ (word.now ++ spaced_words (vector_text v)) ++ 10 ∷ ahead.new)) }
{
    if !ahead.keyword(word) {
        return Ok(None);
    }
    let Some(count) = ahead.natural(0, GREATEST) else {
        return Ok(None);
    };
    let Some(vector) = entries_ahead(alloc, ahead, count, most)? else {
        return Ok(None);
    };
    if !ahead.line_feed() {
        return Ok(None);
    }
    Ok(Some(vector))
}

// The same of the next line, which is passed. `None` says only that something in it isn't simple.
fn vector_ahead(
    alloc: Global,
    lines: &mut Lines,
    word: &[u8],
    most: u8,
) -> Result<Option<Vector>, AllocError>
    ensures found { IfOk result (λ found. MatchOption found
        (lines.new ≡ lines.old)
        (λ v. line word.now (vector most) lines.old ≡ Ok (v, lines.new))) }
    ensures later { PassesLines lines.old lines.new }
{
    let mut ahead = lines.ahead();
    let Some(vector) = line_ahead(alloc, &mut ahead, word, most)? else {
        return Ok(None);
    };
    lines.pass_to(&ahead);
    Ok(Some(vector))
}

// A line of a keyword and a vector.
#[tactic(auto, unfolding(bmp_text::specs::Readers::line))]
fn vector_line(alloc: Global, lines: &mut Lines, word: &[u8], most: u8) -> Result<Vector, CertError>
    ensures gives { Gives (λ v. v) lines.new result (line word.now (vector most) lines.old) }
    ensures later { PassesLines lines.old lines.new }
{
    if let Some(vector) = vector_ahead(alloc, lines, word, most)? {
        return Ok(vector);
    }
    let mut line = lines.next_line()?;
    line.keyword(word)?;
    let vector = vector_of(alloc, &mut line, most)?;
    line.finish()?;
    Ok(vector)
}

/// `count` lines of a keyword and a vector with values from 1 to `most`.
pub(crate) fn vectors_of(
    alloc: Global,
    lines: &mut Lines,
    word: &[u8],
    most: u8,
    count: u64,
) -> Result<Vectors, CertError>
    ensures gives { Gives (λ v. v) lines.new result (vectors word.now most count lines.old) }
    ensures later { PassesLines lines.old lines.new }
{
    let mut list = Vectors::new(alloc);
    'vectors: for _ in 0..count {
        let vector = vector_line(alloc, lines, word, most)?;
        list.push(vector)?;
    }
    Ok(list)
}

// One place, `next` at least.
fn place_of(line: &mut Line, next: u64) -> Result<u32, CertError>
    requires { next < 2 ^ 63 }
    ensures { Gives (λ n. n) line.new result (natural next MOST line.old) }
{
    let place = line.natural(next, GREATEST)?;
    Ok(place as u32)
}

/// `count` places that rise.
pub(crate) fn places_of(alloc: Global, line: &mut Line, count: u64) -> Result<Places, CertError>
    ensures { Gives (λ v. v) line.new result (rising_places count line.old) }
{
    let mut places = Places::with_capacity(alloc, line.room(count, PLACE_SIZE))?;
    let mut next: u64 = 0;
    'places: for _ in 0..count {
        let place = place_of(line, next)?;
        places.push(place)?;
        next = u64::from(place) + 1;
    }
    Ok(places)
}
