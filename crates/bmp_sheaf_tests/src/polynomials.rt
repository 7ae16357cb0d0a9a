//! Labels, monomials and polynomials.
ghost use Rattle.std.specs.Prelude.{◌≡◌, ◌<◌, ◌≤◌, All, IfOk};
ghost use Rattle.bmp_field.specs.PrimeFields.{size_of};

use bmp_field::{Field, PrimeField};
use bmp_poly::{Label, LabelFault, Monomials, Poly};
use std::test::Fail;

/// What is told of a label in two variables: prime, rank, leading variable and coordinates.
fn described(label: Label) -> (u8, u8, u8, u8, u8) {
    let (first, second) = match label.rank() {
        2 => (label.coordinate(1), label.coordinate(2)),
        _ => (0, 0),
    };
    (label.prime(), label.rank(), label.leading(), first, second)
}

/// Labels in two variables modulo 3.
#[test]
fn labels_and_their_faults(rt: HostRuntime) -> Result<(), Fail> {
    for (coords, want) in [
        ([0, 2, 0, 0, 0, 0], Ok((3, 2, 2, 0, 2))),
        ([1, 2, 0, 0, 0, 0], Ok((3, 2, 1, 1, 2))),
        ([3, 0, 0, 0, 0, 0], Err(LabelFault::Value { place: 0 })),
        ([0, 1, 1, 0, 0, 0], Err(LabelFault::Value { place: 2 })),
        ([0, 0, 0, 0, 0, 1], Err(LabelFault::Value { place: 5 })),
        ([0, 0, 0, 0, 0, 0], Err(LabelFault::Zero)),
    ] {
        let found = match Label::new(3, 2, coords) {
            Ok(label) => Ok(described(label)),
            Err(fault) => Err(fault),
        };
        assert_eq!(rt; found, want, "the label {coords:?}");
    }
    Ok(())
}

/// The squares in two variables, and what is none.
#[test]
fn monomials_in_order(rt: HostRuntime) -> Result<(), Fail> {
    let squares = Monomials::new(rt.alloc(), 2, 2)?;
    for (m, place) in [
        ([2, 0, 0, 0, 0, 0], Some(0)),
        ([1, 1, 0, 0, 0, 0], Some(1)),
        ([0, 2, 0, 0, 0, 0], Some(2)),
        ([1, 0, 0, 0, 0, 0], None),
        ([1, 0, 1, 0, 0, 0], None),
    ] {
        let found = squares.index(m);
        let back = match found {
            Some(i) if i < squares.count() => squares.at(i),
            _ => m,
        };
        assert_eq!(rt; (found, back), (place, m), "the monomial {m:?}");
    }
    let most = Monomials::new(rt.alloc(), 6, 6)?;
    assert_eq!(rt; (squares.count(), most.count()), (3, 462));
    Ok(())
}

/// The polynomial with these coefficients.
fn polynomial(
    rt: &HostRuntime,
    f: &PrimeField,
    rank: u8,
    degree: u32,
    numbers: &[u8],
) -> Result<Poly<PrimeField>, Fail>
    requires some { 0 < rank }
    requires rank { rank ≤ 6 }
    requires degree { degree ≤ 6 }
    ensures rank { IfOk result (λ a. a.rank ≡ rank) }
    ensures degree { IfOk result (λ a. a.degree ≡ degree) }
    ensures values { IfOk result (λ a. All (λ c. c < size_of f.now) a.coefficients) }
{
    let mut a = Poly::zero(rt.alloc(), f, rank, degree)?;
    for i in 0..a.terms() {
        match numbers.get(i as usize) {
            Some(&c) if f.is_value(c) => a.set(i, c),
            _ => return Err("a number is missing or no value".into()),
        }
    }
    Ok(a)
}

/// Whether the polynomial has these coefficients.
fn has_coefficients(a: &Poly<PrimeField>, numbers: &[u8]) -> bool {
    for i in 0..a.terms() {
        if numbers.get(i as usize) != Some(&a.coefficient(i)) {
            return false;
        }
    }
    numbers.len() == a.terms() as usize
}

/// Squares modulo 3 and a label, their normal forms, and whether these are 0, so that the label divides them. In the
/// last row x x + 2 y y = (x + 2 y) (x + y).
#[test]
fn normal_forms_modulo_3(rt: HostRuntime) -> Result<(), Fail> {
    let f = PrimeField::new(3).map_err(|_| "3")?;
    for (coords, numbers, normal, none) in [
        (
            [1, 2, 0, 0, 0, 0],
            &[1u8, 1, 0] as &[u8],
            &[0u8, 0, 2] as &[u8],
            false,
        ),
        ([0, 2, 0, 0, 0, 0], &[1, 1, 0], &[1, 0, 0], false),
        ([1, 2, 0, 0, 0, 0], &[1, 0, 2], &[0, 0, 0], true),
    ] {
        let label = Label::new(3, 2, coords).map_err(|_| "a label")?;
        let mut a = polynomial(&rt, &f, 2, 2, numbers)?;
        label.reduce_in(&f, &mut a);
        let reduced = has_coefficients(&a, normal);
        let zero = a.is_zero(&f);
        let divided = label.divides(&f, a);
        assert_eq!(rt;
            (reduced, zero, divided),
            (true, none, none),
            "modulo {coords:?}"
        );
    }
    Ok(())
}

/// Modulo 3, (x + 2 y) (x + y) = x x + 2 y y and 2 ((x + 2 y) + (x + y)) = x.
#[test]
fn a_product_and_a_sum(rt: HostRuntime) -> Result<(), Fail> {
    let f = PrimeField::new(3).map_err(|_| "3")?;
    let first = polynomial(&rt, &f, 2, 1, &[1, 2])?;
    let mut second = polynomial(&rt, &f, 2, 1, &[1, 1])?;
    let product = first.mul(rt.alloc(), &f, &second)?;
    second.add_in(&f, &first);
    second.scale_in(&f, 2);
    let multiplied = has_coefficients(&product, &[1, 0, 2]);
    assert!(rt; multiplied && has_coefficients(&second, &[1, 0]));
    Ok(())
}
