//! Matrices of rank 1 to 6: their faults, their pairs, and the first pair that a limit forbids.
use crate::matrices::{A1, A6, B2, D5, F4, roots_of};
use bmp_roots::{Cartan, CartanFault, FiniteKind, Roots};
use std::test::Fail;

const BROKEN: [(&str, &[i64], u8, CartanFault); 6] = [
    ("rank 0", &[], 0, CartanFault::BadRank),
    ("rank 7", &[2, -1], 7, CartanFault::BadRank),
    ("three entries", &[2, -1, -1], 2, CartanFault::BadRank),
    (
        "a diagonal entry",
        &[2, -1, -1, 3],
        2,
        CartanFault::BadDiagonal { i: 2 },
    ),
    (
        "a positive entry",
        &[2, 1, 1, 2],
        2,
        CartanFault::BadOffDiagonal { i: 1, j: 2 },
    ),
    (
        "a lone zero",
        &[2, 0, -1, 2],
        2,
        CartanFault::UnpairedZero { i: 1, j: 2 },
    ),
];

#[test]
fn names_the_first_broken_rule(rt: HostRuntime) -> Result<(), Fail> {
    for (name, rows, rank, fault) in BROKEN {
        assert_eq!(rt; Cartan::new(rows, rank).err(), Some(fault), "{name}");
    }
    assert_eq!(rt;
        Cartan::new(&[2, -33, -1, 2], 2).err(),
        Some(CartanFault::BadOffDiagonal { i: 1, j: 2 })
    );
    Ok(())
}

#[test]
fn prints_faults(rt: HostRuntime) -> Result<(), Fail> {
    let fault = CartanFault::UnpairedZero { i: 1, j: 2 };
    assert_eq!(rt;
        format!(in rt.alloc(); "{fault}")?.as_str(),
        "the entry at 1, 2 is 0, and the one at 2, 1 is not"
    );
    Ok(())
}

/// The positive pairs of B2, in their order.
const B2_PAIRS: [([i16; 6], [i16; 6]); 4] = [
    ([1, 0, 0, 0, 0, 0], [1, 0, 0, 0, 0, 0]),
    ([0, 1, 0, 0, 0, 0], [0, 1, 0, 0, 0, 0]),
    ([1, 2, 0, 0, 0, 0], [1, 1, 0, 0, 0, 0]),
    ([1, 1, 0, 0, 0, 0], [2, 1, 0, 0, 0, 0]),
];

#[test]
fn closes_rank_two(rt: HostRuntime) -> Result<(), Fail> {
    let roots = roots_of(B2, 2)?;
    assert_eq!(rt; roots.positive(), 4);
    for i in 0..4 {
        assert_eq!(rt; roots.pair(i), B2_PAIRS[i as usize], "pair {i}");
    }
    Ok(())
}

#[test]
fn reads_entries_by_rows(rt: HostRuntime) -> Result<(), Fail> {
    let roots = roots_of(B2, 2)?;
    assert_eq!(rt; roots.rank(), 2);
    let cartan = roots.cartan();
    assert_eq!(rt; (cartan.entry(1, 2), cartan.entry(2, 1)), (-1, -2));
    Ok(())
}

#[test]
fn counts_positive_roots(rt: HostRuntime) -> Result<(), Fail> {
    for (name, rows, rank, count) in [
        ("A1", A1, 1, 1),
        ("A6", A6, 6, 21),
        ("D5", D5, 5, 20),
        ("F4", F4, 4, 24),
    ] {
        assert_eq!(rt; roots_of(rows, rank)?.positive(), count, "{name}");
    }
    Ok(())
}

// The first pair that the limits forbid in the system of a matrix of rank 2.
fn refused(rows: &[i64]) -> Result<Option<(FiniteKind, [i16; 6], [i16; 6])>, Fail> {
    let cartan = Cartan::new(rows, 2).map_err(|_| "no Cartan matrix")?;
    match Roots::close(&cartan) {
        Ok(_) => Ok(None),
        Err(pair) => {
            let root = pair.root;
            let coroot = pair.coroot;
            Ok(Some((pair.kind, root, coroot)))
        }
    }
}

/// In the second only the coroot is too large.
const INFINITE: [(&str, &[i64], FiniteKind, [i16; 6], [i16; 6]); 2] = [
    (
        "affine",
        &[2, -2, -2, 2],
        FiniteKind::Pairs,
        [18, 19, 0, 0, 0, 0],
        [18, 19, 0, 0, 0, 0],
    ),
    (
        "steep",
        &[2, -32, -1, 2],
        FiniteKind::Coordinate,
        [31, 30, 0, 0, 0, 0],
        [31, 960, 0, 0, 0, 0],
    ),
];

#[test]
fn refuses_what_is_not_finite(rt: HostRuntime) -> Result<(), Fail> {
    for (name, rows, kind, root, coroot) in INFINITE {
        assert_eq!(rt; refused(rows)?, Some((kind, root, coroot)), "{name}");
    }
    Ok(())
}
