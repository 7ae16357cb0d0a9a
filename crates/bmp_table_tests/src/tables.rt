//! Tables worked out elsewhere.
ghost use Rattle.std.specs.Prelude.{◌<◌, ◌^◌, length};

use crate::matrices::{A3, A4, B3, G2, below, interval_of};
use bmp_kl::{KlError, KlTable, kl_table, self_dual};
use std::alloc::Global;
use std::test::Fail;

// The table of a word, with a limit.
fn table_of(
    alloc: Global,
    rows: &[i64],
    rank: u8,
    word: &[u8],
    limit: i64,
) -> Result<Result<KlTable, KlError>, Fail>
    requires { length word.now < 2 ^ 32 }
{
    let interval = interval_of(alloc, rows, rank, word)?;
    if limit < 1 || limit > 1_000_000 {
        return Err("a limit".into());
    }
    Ok(kl_table(alloc, &interval, limit))
}

#[test]
fn the_square(rt: HostRuntime) -> Result<(), Fail> {
    let table = table_of(rt.alloc(), A3, 3, &[2, 1, 3, 2], 1)?.map_err(|_| "no table")?;
    assert_eq!(rt; table.vertices(), 14);
    for (x, exponent, coefficient) in [
        (0, 4, 1),
        (0, 3, 0),
        (0, 2, 1),
        (0, 1, 0),
        (0, 0, 0),
        (0, -2, 0),
        (1, 3, 1),
        (1, 1, 0),
        (3, 3, 1),
        (3, 1, 1),
        (12, 1, 1),
        (13, 0, 1),
        (13, 1, 0),
    ] {
        if x < table.vertices() {
            assert_eq!(rt;
                table.coefficient(x, exponent),
                coefficient,
                "{x} {exponent}"
            );
        }
    }
    assert!(rt; self_dual(&table).is_ok());
    Ok(())
}

#[test]
fn limits(rt: HostRuntime) -> Result<(), Fail> {
    for (limit, fault) in [
        (1, Some(KlError::TooBig { x: 12 })),
        (2, None),
        (1_000_000, None),
    ] {
        let table = table_of(rt.alloc(), A4, 4, &[3, 2, 4, 1, 3, 2], limit)?;
        assert_eq!(rt; table.err(), fault, "{limit}");
    }
    Ok(())
}

// The sum over the tables of all elements y of a group, in their order, over their vertices x and exponents e, of
// (y + 1) (x + 1) (e + 1)^2 times the coefficient; 0 where a table is not self-dual.
fn checksum(alloc: Global, rows: &[i64], rank: u8, longest: &[u8]) -> Result<u64, Fail>
    requires { length longest.now < 2 ^ 32 }
{
    let whole = interval_of(alloc, rows, rank, longest)?;
    let mut total = 0_u64;
    for y in 0..whole.len() {
        let word = whole.elem(y).right_word(alloc, whole.roots())?;
        let interval = below(alloc, whole.roots(), word.as_slice())?.map_err(|_| "a fault")?;
        let table = kl_table(alloc, &interval, 1_000_000).map_err(|_| "no table")?;
        if self_dual(&table).is_err() {
            return Ok(0);
        }
        for x in 0..table.vertices() {
            for e in 0_u32..37 {
                let weight = (u64::from(y) + 1).wrapping_mul(u64::from(x) + 1);
                let squared = weight.wrapping_mul(u64::from((e + 1) * (e + 1)));
                let coefficient = table.coefficient(x, e as i32).unsigned_abs();
                total = total.wrapping_add(squared.wrapping_mul(coefficient));
            }
        }
    }
    Ok(total)
}

#[test]
fn whole_groups(rt: HostRuntime) -> Result<(), Fail> {
    for (name, rows, rank, longest, sum) in [
        ("A3", A3, 3, [1, 2, 1, 3, 2, 1].as_slice(), 259_343),
        (
            "B3",
            B3,
            3,
            [1, 2, 1, 3, 2, 1, 3, 2, 3].as_slice(),
            7_021_318,
        ),
        ("G2", G2, 2, [1, 2, 1, 2, 1, 2].as_slice(), 27_281),
    ] {
        assert!(rt; longest.len() < 100);
        assert_eq!(rt; checksum(rt.alloc(), rows, rank, longest)?, sum, "{name}");
    }
    Ok(())
}
