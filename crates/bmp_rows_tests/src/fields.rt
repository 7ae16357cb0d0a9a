//! The primes that are taken, arithmetic modulo some of them, and the trait through its bound.
ghost use Rattle.std.specs.Prelude.{IsTrue};

use crate::matrices::field;
use bmp_field::{BadPrime, Field, PrimeField};
use bmp_packed::BitField;
use std::test::Fail;

/// Whether a product with a sum is the sum of the products, which the trait's clauses say it is.
fn distributes<F: Field>(f: &F, a: F::E, b: F::E, c: F::E) -> bool
    requires first { F.is_value f.now a }
    requires second { F.is_value f.now b }
    requires third { F.is_value f.now c }
    ensures { IsTrue result }
{
    let left = f.num(f.mul(a, f.add(b, c)));
    let right = f.num(f.add(f.mul(a, b), f.mul(a, c)));
    left == right
}

/// What a field must be for threads that share it.
fn size_of_shared<F: Field + Copy + Drop + Send + Sync>(f: F) -> u32 {
    f.size()
}

#[test]
fn primes_to_61_are_taken(rt: HostRuntime) -> Result<(), Fail> {
    let primes = [
        2, 3, 5, 7, 11, 13, 17, 19, 23, 29, 31, 37, 41, 43, 47, 53, 59, 61,
    ];
    for p in 0..=u8::MAX {
        let refused = PrimeField::new(p).err() == Some(BadPrime);
        assert_eq!(rt; refused, !primes.contains(&p), "{p}");
    }
    Ok(())
}

#[test]
fn bits_are_numbers_modulo_2(rt: HostRuntime) -> Result<(), Fail> {
    let f = BitField::new();
    // two numbers, and of these the sum, the product and the negative of the first
    for (a, b, want) in [
        (0, 0, [0, 0, 0]),
        (0, 1, [1, 0, 0]),
        (1, 0, [1, 0, 1]),
        (1, 1, [0, 1, 1]),
    ] {
        assert!(rt;
            f.is_value(a) && f.is_value(b) && distributes(&f, a, b, a),
            "{a} and {b}"
        );
        assert_eq!(rt; [f.add(a, b), f.mul(a, b), f.neg(a)], want, "{a} and {b}");
    }
    assert!(rt; size_of_shared(f) == 2 && f.inv(1) == 1 && !f.is_value(2));
    Ok(())
}

#[test]
fn numbers_modulo_a_prime(rt: HostRuntime) -> Result<(), Fail> {
    // the prime, two numbers, and of these the sum, the product, the negative of the first and its inverse
    for (p, a, b, want) in [
        (2, 1, 1, [0, 1, 1, 1]),
        (3, 2, 1, [0, 2, 1, 2]),
        (13, 5, 11, [3, 3, 8, 8]),
        (17, 16, 16, [15, 1, 1, 16]),
        (61, 60, 59, [58, 2, 1, 60]),
        (61, 7, 35, [42, 1, 54, 35]),
    ] {
        let f = field(p)?;
        assert!(rt;
            f.is_value(a) && f.is_value(b) && a != 0 && distributes(&f, a, b, a),
            "{p}"
        );
        assert!(rt; size_of_shared(f) == u32::from(p));
        assert_eq!(rt;
            [f.add(a, b), f.mul(a, b), f.neg(a), f.inv(a)],
            want,
            "{a} and {b} modulo {p}"
        );
    }
    Ok(())
}
