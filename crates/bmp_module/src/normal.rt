//! Components modulo a label: coefficients of the monomials without its leading variable.
ghost use Rattle.std.specs.Prelude.{◌≡◌, ℕ, ◌<◌, ◌≤◌, ◌+◌, ◌-◌, ◌%◌, [], All, OnOk, length, sum};
ghost use Rattle.bmp_poly.specs.Exponents.{IsMonomial, count, exponents};
ghost use Rattle.bmp_poly.specs.Coefficients.{coefficient, form};
ghost use Rattle.bmp_poly.specs.Shifts.{shift};
ghost use Rattle.bmp_poly.specs.Labels.{prime_of, rank_of, leading_of, coordinate_of};
ghost use Rattle.bmp_graded.specs.Maps.{project_one};
ghost use Rattle.bmp_graded.specs.Modules.{moved, polynomials};
ghost use Rattle.bmp_graded.specs.NormalForms.{normal_by};
ghost use Rattle.bmp_graded.specs.Quotients.{insert, pure_form};
ghost use Rattle.bmp_module.specs.Appended.{IsAppended};
ghost use Rattle.bmp_module.specs.Components.{component_of};

use crate::{blocks, pure};
use bmp_field::Field;
use bmp_poly::{Label, monomials};
use std::alloc::AllocError;

/// Makes a polynomial its normal form, and appends the coefficients of the monomials without the leading variable.
pub fn push_normal<F: Field>(
    f: &F,
    label: &Label,
    degree: u32,
    coefficients: &mut [F::E],
    numbers: &mut Vec<F::E>,
) -> Result<(), AllocError>
    requires prime { F.size f.now ≡ prime_of label.now }
    requires degree { degree ≤ 6 }
    requires sized { length coefficients.old ≡ count (rank_of label.now) degree }
    requires values { All (F.is_value f.now) coefficients.old }
    requires numbers { All (F.is_value f.now) numbers.old.items }
    ensures { let l = leading_of label.now in let r = rank_of label.now in
        OnOk result (IsAppended (F.is_value f.now) (F.num f.now) numbers.old.items numbers.new.items
        (count (r - 1) degree)
        (λ i. normal_by (prime_of label.now) r l (coordinate_of label.now) degree
        (form (F.num f.now) r coefficients.old) (insert l (exponents 5 (r - 1) degree i)) % F.size f.now)) }
{
    label.reduce_coefficients(f, degree, coefficients);
    let rank = label.rank();
    let leading = label.leading() - 1;
    for i in 0..blocks::count(rank - 1, degree) {
        let e = pure::monomial_without(rank, leading, degree, i);
        numbers.push(coefficients[monomials::place_of(rank, degree, &e) as usize])?;
    }
    Ok(())
}

/// Appends `n` zeros.
pub(crate) fn push_zeros<F: Field>(f: &F, n: u64, numbers: &mut Vec<F::E>) -> Result<(), AllocError>
    requires { All (F.is_value f.now) numbers.old.items }
    ensures { OnOk result (IsAppended (F.is_value f.now) (F.num f.now) numbers.old.items numbers.new.items n (λ i. 0)) }
{
    for _ in 0..n {
        numbers.push(f.zero())?;
    }
    Ok(())
}

/// Appends what a polynomial at a generator becomes modulo the label, `block` being its coordinates.
///
/// What `component` holds does not matter, before or after.
pub(crate) fn push_component<F: Field>(
    f: &F,
    label: &Label,
    generator: u32,
    degree: u32,
    block: &[F::E],
    component: &mut Vec<F::E>,
    numbers: &mut Vec<F::E>,
) -> Result<(), AllocError>
    requires prime { F.size f.now ≡ prime_of label.now }
    requires degree { degree ≤ 6 }
    requires sized { length block.now ≡ (moved generator (polynomials (rank_of label.now))).dim degree }
    requires values { All (F.is_value f.now) block.now }
    requires numbers { All (F.is_value f.now) numbers.old.items }
    ensures { let l = leading_of label.now in let r = rank_of label.now in
        OnOk result (IsAppended (F.is_value f.now) (F.num f.now) numbers.old.items numbers.new.items
        ((moved generator (component_of label.now)).dim degree)
        (λ i. project_one (prime_of label.now) (r - 1) l (coordinate_of label.now) (degree - generator)
        (coefficient (F.num f.now) block.now) i % F.size f.now)) }
{
    if generator > degree {
        return Ok(());
    }
    component.clear();
    component.extend_from_slice(block)?;
    push_normal(f, label, degree - generator, component, numbers)?;
    Ok(())
}
