//! Words of C2 and A3, whose matrices are worked out by hand.
ghost use Rattle.std.specs.Prelude.{◌<◌, ◌^◌, length};

use crate::matrices::{A3, A6, C2, roots_of};
use bmp_roots::Roots;
use bmp_weyl::{BadLetter, Elem, Letters, product};
use std::test::Fail;

// An entry of the product of a word in letters of the rank, or `None` where there is none.
fn entry_of(roots: &Roots, word: &[u8], i: u8, j: u8) -> Option<i16>
    requires { length word.now < 2 ^ 32 }
{
    let rank = roots.rank();
    if i < 1 || rank < i || j < 1 || rank < j {
        return None;
    }
    match product(roots, word) {
        Ok(e) => Some(e.entry(i, j)),
        Err(_) => None,
    }
}

#[test]
fn multiplies_words_of_c2(rt: HostRuntime) -> Result<(), Fail> {
    let roots = roots_of(C2, 2)?;
    for (name, word, i, j, entry) in [
        ("identity", [].as_slice(), 1, 2, 0),
        ("rotation, first row", [1, 2].as_slice(), 1, 1, 1),
        ("rotation, first row", [1, 2].as_slice(), 1, 2, -2),
        ("rotation, second row", [1, 2].as_slice(), 2, 1, 1),
        ("rotation, second row", [1, 2].as_slice(), 2, 2, -1),
        ("longest, first row", [2, 1, 2, 1].as_slice(), 1, 1, -1),
        ("longest, first row", [2, 1, 2, 1].as_slice(), 1, 2, 0),
        ("longest, second row", [2, 1, 2, 1].as_slice(), 2, 1, 0),
        ("longest, second row", [2, 1, 2, 1].as_slice(), 2, 2, -1),
    ] {
        assert!(rt; word.len() < 10);
        assert_eq!(rt; entry_of(&roots, word, i, j), Some(entry), "{name}");
    }
    Ok(())
}

#[test]
fn names_the_first_bad_letter(rt: HostRuntime) -> Result<(), Fail> {
    let roots = roots_of(C2, 2)?;
    for (name, word, place) in [
        ("3 and 0", [1, 2, 3, 0].as_slice(), 2),
        ("0", [0].as_slice(), 0),
    ] {
        assert_eq!(rt;
            product(&roots, word).err(),
            Some(BadLetter { place }),
            "{name}"
        );
    }
    Ok(())
}

#[test]
fn takes_the_least_descent_each_time(rt: HostRuntime) -> Result<(), Fail> {
    let roots = roots_of(A3, 3)?;
    let element = product(&roots, &[2, 1, 3, 2]).map_err(|_| "a letter")?;
    assert_eq!(rt;
        (element.length(&roots), element.least_right_descent(&roots)),
        (4, Some(2))
    );
    let word = element.right_word(rt.alloc(), &roots)?;
    assert_eq!(rt; word.as_slice(), [2, 3, 1, 2].as_slice());
    Ok(())
}

#[test]
fn reads_words_as_long_as_the_longest_element(rt: HostRuntime) -> Result<(), Fail> {
    let roots = roots_of(A6, 6)?;
    let longest = [
        1, 2, 1, 3, 2, 1, 4, 3, 2, 1, 5, 4, 3, 2, 1, 6, 5, 4, 3, 2, 1,
    ];
    let element = product(&roots, &longest).map_err(|_| "a letter")?;
    assert_eq!(rt; element.right_word(rt.alloc(), &roots)?.len(), 21);
    Ok(())
}

#[test]
fn reflects_in_a_simple_root(rt: HostRuntime) -> Result<(), Fail> {
    let roots = roots_of(C2, 2)?;
    assert!(rt; roots.positive() > 0);
    assert_eq!(rt; Elem::reflection(&roots, 0), Elem::simple(&roots, 1));
    Ok(())
}

#[test]
fn keeps_letters(rt: HostRuntime) -> Result<(), Fail> {
    let mut letters = Letters::new(rt.alloc());
    for letter in 0..200 {
        letters.push(letter)?;
    }
    let copy = letters.copy()?;
    assert_eq!(rt; (copy.is_empty(), copy.len()), (false, 200));
    assert_eq!(rt; copy.as_slice().last(), Some(&199));
    Ok(())
}
