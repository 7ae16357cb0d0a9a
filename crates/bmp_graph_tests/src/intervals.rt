//! Numberings worked out by hand, the sizes of known groups, and refusals.
ghost use Rattle.std.specs.Prelude.{◌<◌, ◌^◌, length};

use crate::matrices::{A1, A3, A6, B2, B5, D5, F4, below, interval_of, roots_of};
use bmp_interval::{Interval, IntervalFault};
use bmp_weyl::product;
use std::process::Abort;
use std::test::Fail;

fn number_of(interval: &Interval, word: &[u8]) -> Result<Option<u32>, Fail>
    requires { length word.now < 2 ^ 32 }
{
    let e = product(interval.roots(), word).map_err(|_| "a letter")?;
    Ok(interval.number_of(&e))
}

// Asserts the numbers of the products of words.
fn assert_numbers(
    rt: &impl Abort,
    interval: &Interval,
    rows: &[(&[u8], Option<u32>)],
) -> Result<(), Fail> {
    for (word, number) in rows {
        assert!(rt; word.len() < 10);
        assert_eq!(rt; number_of(interval, word)?, *number, "{word:?}");
    }
    Ok(())
}

#[test]
fn numbers_b2(rt: HostRuntime) -> Result<(), Fail> {
    let interval = interval_of(rt.alloc(), B2, 2, &[1, 2, 1, 2])?;
    assert_numbers(
        &rt,
        &interval,
        &[
            (&[], Some(0)),
            (&[1], Some(1)),
            (&[2], Some(2)),
            (&[2, 1], Some(3)),
            (&[1, 2], Some(4)),
            (&[1, 2, 1], Some(5)),
            (&[2, 1, 2], Some(6)),
            (&[2, 1, 2, 1], Some(7)),
        ],
    )
}

#[test]
fn numbers_a3(rt: HostRuntime) -> Result<(), Fail> {
    let interval = interval_of(rt.alloc(), A3, 3, &[1, 2, 3, 2, 1])?;
    assert_numbers(
        &rt,
        &interval,
        &[
            (&[1], Some(1)),
            (&[3], Some(2)),
            (&[2], Some(3)),
            (&[2, 1], Some(4)),
            (&[1, 3], Some(5)),
            (&[1, 2], Some(6)),
            (&[3, 2], Some(7)),
            (&[2, 3], Some(8)),
            (&[2, 1, 3, 2], None),
        ],
    )
}

const LONGEST_A6: [u8; 21] = [
    1, 2, 1, 3, 2, 1, 4, 3, 2, 1, 5, 4, 3, 2, 1, 6, 5, 4, 3, 2, 1,
];

#[test]
fn refuses_words(rt: HostRuntime) -> Result<(), Fail> {
    for (name, rows, rank, word, fault) in [
        (
            "A1",
            A1,
            1,
            [1, 1].as_slice(),
            IntervalFault::NotReduced { length: 0 },
        ),
        (
            "a long word",
            A1,
            1,
            [1; 255].as_slice(),
            IntervalFault::NotReduced { length: 1 },
        ),
        (
            "A6",
            A6,
            6,
            LONGEST_A6.as_slice(),
            IntervalFault::TooMany { count: 4097 },
        ),
    ] {
        assert!(rt; word.len() < 256);
        assert_eq!(rt;
            below(rt.alloc(), &roots_of(rows, rank)?, word)?.err(),
            Some(fault),
            "{name}"
        );
    }
    Ok(())
}

/// The whole groups D5, F4 and B5, whose longest words are so many rounds of the letters of one.
#[test]
fn counts_whole_groups(rt: HostRuntime) -> Result<(), Fail> {
    for (name, rows, rank, word, count) in [
        ("A3, 2132", A3, 3, [2, 1, 3, 2].as_slice(), 14),
        ("A3, 12321", A3, 3, [1, 2, 3, 2, 1].as_slice(), 20),
        (
            "D5",
            D5,
            5,
            [1, 3, 2, 4, 5, 1, 3, 2, 4, 5, 1, 3, 2, 4, 5, 1, 3, 2, 4, 5].as_slice(),
            1920,
        ),
        (
            "F4",
            F4,
            4,
            [
                1, 3, 2, 4, 1, 3, 2, 4, 1, 3, 2, 4, 1, 3, 2, 4, 1, 3, 2, 4, 1, 3, 2, 4,
            ]
            .as_slice(),
            1152,
        ),
        (
            "B5",
            B5,
            5,
            [
                1, 2, 3, 4, 5, 1, 2, 3, 4, 5, 1, 2, 3, 4, 5, 1, 2, 3, 4, 5, 1, 2, 3, 4, 5,
            ]
            .as_slice(),
            3840,
        ),
    ] {
        assert!(rt; word.len() < 256);
        assert_eq!(rt;
            interval_of(rt.alloc(), rows, rank, word)?.len(),
            count,
            "{name}"
        );
    }
    Ok(())
}

#[test]
fn the_top_is_the_longest(rt: HostRuntime) -> Result<(), Fail> {
    let group = interval_of(rt.alloc(), A3, 3, &[1, 2, 1, 3, 2, 1])?;
    let last = group.len() - 1;
    let top = group.number_of(group.elem(last));
    assert_eq!(rt;
        (last, group.length(last), group.word().len(), top),
        (23, 6, 6, Some(23))
    );
    Ok(())
}
