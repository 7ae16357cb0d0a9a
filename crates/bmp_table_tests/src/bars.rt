//! Bars worked out by hand.
use crate::matrices::{A2, roots_of};
use bmp_hecke::bar_of;
use bmp_weyl::product;
use std::test::Fail;

// The bar of the longest element of A2, with z = v - v^-1: z^3 + z at the identity, z^2 at the generators, z at the
// elements of length 2, and 1 at itself.
#[test]
fn the_longest_of_a2(rt: HostRuntime) -> Result<(), Fail> {
    let roots = roots_of(A2, 2)?;
    let longest = product(&roots, &[1, 2, 1]).map_err(|_| "a letter")?;
    let bar = bar_of(rt.alloc(), &roots, &longest)?;
    for (word, row) in [
        ([].as_slice(), [-1, 0, 2, 0, -2, 0, 1]),
        (&[1], [0, 1, 0, -2, 0, 1, 0]),
        (&[2], [0, 1, 0, -2, 0, 1, 0]),
        (&[1, 2], [0, 0, -1, 0, 1, 0, 0]),
        (&[2, 1], [0, 0, -1, 0, 1, 0, 0]),
        (&[1, 2, 1], [0, 0, 0, 1, 0, 0, 0]),
    ] {
        let x = product(&roots, word).map_err(|_| "a letter")?;
        let found = [-3, -2, -1, 0, 1, 2, 3].map(|exponent| bar.coefficient(&x, exponent));
        assert_eq!(rt; found, row, "{word:?}");
    }
    Ok(())
}
