//! Cartan matrices by name, and what is made of them.
ghost use Rattle.std.specs.Prelude.{◌<◌, ◌^◌, length};

use bmp_interval::{Interval, IntervalFault};
use bmp_roots::{Cartan, Roots};
use bmp_weyl::product;
use std::alloc::Global;
use std::test::Fail;

pub const A2: &[i64] = &[2, -1, -1, 2];

pub const A3: &[i64] = &[2, -1, 0, -1, 2, -1, 0, -1, 2];

pub const A4: &[i64] = &[2, -1, 0, 0, -1, 2, -1, 0, 0, -1, 2, -1, 0, 0, -1, 2];

pub const B3: &[i64] = &[2, -1, 0, -1, 2, -2, 0, -1, 2];

pub const G2: &[i64] = &[2, -1, -3, 2];

/// The root system of a matrix of this rank.
pub fn roots_of(rows: &[i64], rank: u8) -> Result<Roots, Fail> {
    let cartan = Cartan::new(rows, rank).map_err(|_| "no Cartan matrix")?;
    Ok(Roots::close(&cartan).map_err(|_| "not finite")?)
}

/// The interval below a word in letters of the rank, or why there is none.
pub fn below(
    alloc: Global,
    roots: &Roots,
    word: &[u8],
) -> Result<Result<Interval, IntervalFault>, Fail>
    requires { length word.now < 2 ^ 32 }
{
    product(roots, word).map_err(|_| "a letter")?;
    Ok(Interval::below(alloc, roots, word))
}

/// The interval below a word that has one.
pub fn interval_of(alloc: Global, rows: &[i64], rank: u8, word: &[u8]) -> Result<Interval, Fail>
    requires { length word.now < 2 ^ 32 }
{
    let roots = roots_of(rows, rank)?;
    Ok(below(alloc, &roots, word)?.map_err(|_| "a fault")?)
}
