//! Graded modules and maps between them.
ghost use Rattle.std.specs.Prelude.{◌≡◌, ◌≤◌, ◌+◌, [], ◌∷◌, sum};
ghost use Rattle.bmp_poly.specs.Exponents.{IsMonomial};
ghost use Rattle.bmp_poly.specs.Labels.{prime_of};
ghost use Rattle.bmp_module.specs.FreeModules.{rank_of, degrees_of};
ghost use Rattle.bmp_module.specs.QuotientModules.{free_of, label_of};

use bmp_field::{Field, PrimeField};
use bmp_module::{
    Coordinates, Free, GradedModule, Linear, ModuleMap, NormalTable, Projection, Quotient,
    TabledQuotient, Tuple,
};
use bmp_poly::Label;
use std::alloc::{AllocError, Global};
use std::test::Fail;

/// The dimension of a free module.
fn free_dim(free: &Free, d: u32) -> u64
    requires { d ≤ 6 }
{
    <Free as GradedModule<PrimeField>>::dim(free, d)
}

/// The dimension of a quotient.
fn quotient_dim(quotient: &Quotient, d: u32) -> u64
    requires { d ≤ 6 }
{
    <Quotient as GradedModule<PrimeField>>::dim(quotient, d)
}

/// In two variables there are 1, 2 and 3 monomials of degrees 0, 1 and 2, and 0, 1 and 2 of one degree less. Modulo its
/// only variable a module in one variable has each generator in its own degree alone.
#[test]
fn dimensions(rt: HostRuntime) -> Result<(), Fail> {
    let free = Free::new(rt.alloc(), 2, &[0, 1])?;
    let line = Free::new(rt.alloc(), 1, &[0, 1])?;
    let label = Label::new(3, 1, [1, 0, 0, 0, 0, 0]).map_err(|_| "a label")?;
    assert!(rt; line.rank() == label.rank());
    let quotient = Quotient::new(rt.alloc(), &line, &label)?;
    for (d, whole, left) in [(0, 1, 1), (1, 3, 1), (2, 5, 0), (3, 7, 0)] {
        let found = match d {
            0..=6 => (free_dim(&free, d), quotient_dim(&quotient, d)),
            _ => (0, 0),
        };
        assert_eq!(rt; found, (whole, left), "degree {d}");
    }
    assert_eq!(rt; (free.rank(), free.generators()), (2, 2));
    Ok(())
}

/// The dimension of the sum of two free modules.
fn sum_dim(alloc: Global, first: Free, second: Free, d: u32) -> Result<u64, AllocError>
    requires { d ≤ 6 }
{
    let mut sum = Tuple::new(alloc);
    sum.push(first)?;
    sum.push(second)?;
    let dim = <Tuple<Free> as GradedModule<PrimeField>>::dim(&sum, d);
    Ok(dim)
}

/// The sum of a module with a generator of degree 0 and one with a generator of degree 1, in two variables.
#[test]
fn dimensions_of_a_sum(rt: HostRuntime) -> Result<(), Fail> {
    for (d, want) in [(0, 1), (1, 3), (2, 5)] {
        let first = Free::new(rt.alloc(), 2, &[0])?;
        let second = Free::new(rt.alloc(), 2, &[1])?;
        let found = match d {
            0..=6 => sum_dim(rt.alloc(), first, second, d)?,
            _ => 0,
        };
        assert_eq!(rt; found, want, "degree {d}");
    }
    Ok(())
}

/// The only coordinate of the variable is 1, so it is not 0; and twice it is not the variable.
#[test]
fn the_variable(rt: HostRuntime) -> Result<(), Fail> {
    let f = PrimeField::new(3).map_err(|_| "3")?;
    let free = Free::new(rt.alloc(), 1, &[0])?;
    let one = free.generator(rt.alloc(), &f, 0)?;
    let variable = free.act(rt.alloc(), &f, [1, 0, 0, 0, 0, 0], &one)?;
    let degree = <Free as GradedModule<PrimeField>>::degree(&free, &variable);
    assert!(rt; <Free as GradedModule<PrimeField>>::dim(&free, degree) == 1);
    let first = free.coordinate(&f, &variable, 0);
    let mut sum = free.zero(rt.alloc(), &f, 1)?;
    let zero = free.same(&f, &sum, &variable);
    free.add_in(&f, &mut sum, &variable);
    let once = free.same(&f, &sum, &variable);
    free.scale_in(&f, &mut sum, 2);
    let twice = free.same(&f, &sum, &variable);
    assert_eq!(rt; (first, zero, once, twice), (1, false, true, false));
    Ok(())
}

/// Whether `m` times `e`, added to 0, is `want`.
fn acts<F: Field, M: GradedModule<F>>(
    alloc: Global,
    f: &F,
    over: &M,
    m: [u8; 6],
    e: &M::Elem,
    want: &M::Elem,
) -> Result<bool, AllocError>
    requires fits { M.fits over.now (F.size f.now) }
    requires element { M.is_element over.now f.now e.now }
    requires want { M.is_element over.now f.now want.now }
    requires monomial { IsMonomial 6 (M.rank over.now) (sum m) m }
    requires degree { M.degree over.now e.now + sum m ≤ 6 }
    requires same { M.degree over.now want.now ≡ M.degree over.now e.now + sum m }
{
    let multiple = over.act(alloc, f, m, e)?;
    let mut sum = over.zero(alloc, f, over.degree(&multiple))?;
    over.add_in(f, &mut sum, &multiple);
    Ok(over.same(f, &sum, want))
}

/// Whether the map that sends the only generator to `image` sends `e` to `want`.
fn sends<F: Field, N: GradedModule<F>>(
    alloc: Global,
    f: &F,
    from: &Free,
    over: &N,
    image: N::Elem,
    e: &Coordinates<F>,
    want: &N::Elem,
) -> Result<bool, AllocError>
    requires fits { N.fits over.now (F.size f.now) }
    requires rank { rank_of from.now ≤ N.rank over.now }
    requires generator { degrees_of from.now ≡ N.degree over.now image ∷ [] }
    requires image { N.is_element over.now f.now image }
    requires element { ⟦<Free as GradedModule<F>>⟧.is_element from.now f.now e.now }
    requires want { N.is_element over.now f.now want.now }
    requires same { N.degree over.now want.now ≡ ⟦<Free as GradedModule<F>>⟧.degree from.now e.now }
{
    let mut images = Vec::new(alloc);
    images.push(image)?;
    let map = Linear::new(from, over, &images);
    let sent = map.apply(alloc, f, e)?;
    Ok(over.same(f, &sent, want))
}

/// Whether the variable x and `c` times y, in the free module on 1, are the same modulo the label.
fn equal_variables<F: Field>(
    alloc: Global,
    f: &F,
    quotient: &Quotient,
    c: F::E,
) -> Result<bool, AllocError>
    requires prime { F.size f.now ≡ prime_of (label_of quotient.now) }
    requires value { F.is_value f.now c }
    requires rank { 2 ≤ rank_of (free_of quotient.now) }
    requires generator { degrees_of (free_of quotient.now) ≡ 0 ∷ [] }
{
    let free = quotient.free();
    let one = free.generator(alloc, f, 0)?;
    let first = free.act(alloc, f, [1, 0, 0, 0, 0, 0], &one)?;
    let mut second = free.act(alloc, f, [0, 1, 0, 0, 0, 0], &one)?;
    free.scale_in(f, &mut second, c);
    let projection = Projection::new(quotient);
    let same = projection.same(alloc, f, &first, &second)?;
    Ok(same)
}

/// Whether x times 1 is x modulo the label, by a table for the degrees from 0 to `degree`.
fn product_by_table<F: Field>(
    alloc: Global,
    f: &F,
    quotient: &Quotient,
    degree: u32,
) -> Result<bool, AllocError>
    requires prime { F.size f.now ≡ prime_of (label_of quotient.now) }
    requires rank { 2 ≤ rank_of (free_of quotient.now) }
    requires generator { degrees_of (free_of quotient.now) ≡ 0 ∷ [] }
    requires degree { degree ≤ 6 }
{
    let free = quotient.free();
    let projection = Projection::new(quotient);
    let one = free.generator(alloc, f, 0)?;
    let x = free.act(alloc, f, [1, 0, 0, 0, 0, 0], &one)?;
    let own = projection.apply(alloc, f, &one)?;
    let image = projection.apply(alloc, f, &x)?;
    let table = NormalTable::new(alloc, f, quotient.label(), degree)?;
    let tabled = TabledQuotient::new(quotient, &table);
    let same = acts(alloc, f, &tabled, [1, 0, 0, 0, 0, 0], &own, &image)?;
    Ok(same)
}

/// Whether the map that sends 1 to itself modulo the label sends x to x modulo the label.
fn image_in_the_quotient<F: Field>(
    alloc: Global,
    f: &F,
    quotient: &Quotient,
) -> Result<bool, AllocError>
    requires prime { F.size f.now ≡ prime_of (label_of quotient.now) }
    requires rank { 2 ≤ rank_of (free_of quotient.now) }
    requires generator { degrees_of (free_of quotient.now) ≡ 0 ∷ [] }
{
    let free = quotient.free();
    let projection = Projection::new(quotient);
    let one = free.generator(alloc, f, 0)?;
    let x = free.act(alloc, f, [1, 0, 0, 0, 0, 0], &one)?;
    let own = projection.apply(alloc, f, &one)?;
    let image = projection.apply(alloc, f, &x)?;
    let same = sends(alloc, f, free, quotient, own, &x, &image)?;
    Ok(same)
}

/// Modulo 3 and x + y the variable x is twice y, and not y. Products are those of a table, in its degrees and past
/// them, and a map is known by the image of 1.
#[test]
fn elements_modulo_a_label(rt: HostRuntime) -> Result<(), Fail> {
    let f = PrimeField::new(3).map_err(|_| "3")?;
    let free = Free::new(rt.alloc(), 2, &[0])?;
    let label = Label::new(3, 2, [1, 1, 0, 0, 0, 0]).map_err(|_| "a label")?;
    let quotient = Quotient::new(rt.alloc(), &free, &label)?;
    let rows = [
        ("y", equal_variables(rt.alloc(), &f, &quotient, 1)?, false),
        (
            "twice y",
            equal_variables(rt.alloc(), &f, &quotient, 2)?,
            true,
        ),
        (
            "past the table",
            product_by_table(rt.alloc(), &f, &quotient, 0)?,
            true,
        ),
        (
            "by the table",
            product_by_table(rt.alloc(), &f, &quotient, 1)?,
            true,
        ),
        (
            "image",
            image_in_the_quotient(rt.alloc(), &f, &quotient)?,
            true,
        ),
    ];
    for (name, found, want) in rows {
        assert_eq!(rt; found, want, "{name}");
    }
    Ok(())
}
